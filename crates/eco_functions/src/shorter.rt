//! The patch in which functions stand: the fixed form of their graph, or one with fewer gates.

ghost use Rattle.std.specs.Prelude.{◌≡◌, IfOk, IfSome, IsTrue, [], All, length};
ghost use Rattle.std.specs.List.{IsDistinct};
ghost use Rattle.std.specs.Str.{bytes_eq};
ghost use Rattle.eco_meaning.specs.Circuit.{names, IsSignal};
ghost use Rattle.eco_netlist.specs.Netlists.{AreNets, names_at};
ghost use Rattle.eco_aig.specs.Graph.{IsEdge, inputs_of};
ghost use Rattle.eco_splice.specs.GraphPatch.{HasTargets, AreRooted};
ghost use Rattle.eco_splice.specs.Lines.{IsLine};
ghost use Rattle.eco_functions.specs.Standing.{IsPatchWith, IsShorterPatch};

use eco_aig::Aig;
use eco_forms::lines;
use eco_meaning::OutOfMemory;
use eco_netlist::Netlist;
use eco_splice::{Line, Roots, is_line, patch_netlist, written_patch};
use std::alloc::Global;

/// The patch that gives the first targets of `f` the values of these roots over these base signals: the fixed form of the
/// graph, or one with fewer gates where one is found.
pub(crate) fn patch_of(
    alloc: Global,
    f: &Netlist,
    roots: &Roots<'_>,
) -> Result<Netlist, OutOfMemory>
    requires nets { AreNets (names f.now) roots.now.base.now }
    requires distinct { IsDistinct bytes_eq (names_at (names f.now) roots.now.base.now) }
    requires signals { All (IsSignal f.now) (names_at (names f.now) roots.now.base.now) }
    requires inputs { length (inputs_of roots.now.aig.now) ≡ length roots.now.base.now }
    requires edges { All (IsEdge roots.now.aig.now) roots.now.edges.now }
    requires targets { HasTargets f.now (length roots.now.edges.now) }
    requires rooted { AreRooted f.now roots.now.aig.now roots.now.edges.now (names_at (names f.now) roots.now.base.now) }
    ensures patch { IfOk result (IsPatchWith f.now (record { nodes = roots.now.aig.now; base = roots.now.base.now; roots = roots.now.edges.now; counts = [] })) }
{
    let fixed = patch_netlist(alloc, f, roots)?;
    // it is checked
    let _ = fixed.nets();
    match shorter_patch(alloc, f, roots, fixed.gates().len()) {
        Ok(Some(patch)) => {
            drop(fixed);
            Ok(patch)
        }
        Ok(None) => Ok(fixed),
        Err(error) => {
            drop(fixed);
            Err(error)
        }
    }
}

// The patch whose gates are the lines that are made for the roots, where there are fewer of these than `most`, and each is
// seen to give its edge.
fn shorter_patch(
    alloc: Global,
    f: &Netlist,
    roots: &Roots<'_>,
    most: usize,
) -> Result<Option<Netlist>, OutOfMemory>
    requires nets { AreNets (names f.now) roots.now.base.now }
    requires distinct { IsDistinct bytes_eq (names_at (names f.now) roots.now.base.now) }
    requires signals { All (IsSignal f.now) (names_at (names f.now) roots.now.base.now) }
    requires inputs { length (inputs_of roots.now.aig.now) ≡ length roots.now.base.now }
    requires edges { All (IsEdge roots.now.aig.now) roots.now.edges.now }
    requires targets { HasTargets f.now (length roots.now.edges.now) }
    requires rooted { AreRooted f.now roots.now.aig.now roots.now.edges.now (names_at (names f.now) roots.now.base.now) }
    ensures shorter { IfOk result (λ made. IfSome made
        (IsShorterPatch f.now roots.now.aig.now roots.now.edges.now (names_at (names f.now) roots.now.base.now) most)) }
{
    let lines = lines(alloc, roots.aig, roots.edges)?;
    if lines.len() >= most || !are_lines(alloc, roots.aig, lines.as_slice())? {
        return Ok(None);
    }
    written_patch(alloc, f, roots, lines.as_slice())
}

// Whether each line's edge is one of the graph, and the line is seen to give it.
fn are_lines(alloc: Global, aig: &Aig, lines: &[Line]) -> Result<bool, OutOfMemory>
    ensures lines { IfOk result (λ are. IsTrue are → All (IsLine aig.now) lines.now) }
{
    for line in lines {
        if !is_line(alloc, aig, line)? {
            return Ok(false);
        }
    }
    Ok(true)
}
