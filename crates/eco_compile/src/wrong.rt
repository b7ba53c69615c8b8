//! Where a netlist isn't right.

ghost use Rattle.std.specs.Prelude.{◌≡◌, ◌+◌, ◌*◌, ◌||◌, length, IfOk};
ghost use Rattle.eco_lists.specs.Bits.{exactly_one};
ghost use Rattle.eco_aig.specs.Edges.{value_of, bits_of};
ghost use Rattle.eco_aig.specs.Graph.{IsEdge, HasValue, Grows};
ghost use Rattle.eco_compile.specs.Compiled.{AreEdges};
ghost use Rattle.eco_compile.specs.Valued.{differ};
ghost use Rattle.eco_compile.specs.Wrong.{IsMiter, MitersTell, TargetsDetermine};

use eco_aig::{Aig, Edge};
use eco_meaning::OutOfMemory;

/// The edge that is 1 where `cared` is and some of the outputs isn't as wanted. After `OutOfMemory` the graph may have nodes
/// more.
pub fn miter(
    outputs: &[Edge],
    wanted: &[Edge],
    cared: Edge,
    aig: &mut Aig,
) -> Result<Edge, OutOfMemory>
    requires outputs { AreEdges aig.old outputs.now }
    requires wanted { AreEdges aig.old wanted.now }
    requires cared { IsEdge aig.old cared }
    requires count { length outputs.now ≡ length wanted.now }
    ensures miter { IfOk result (IsMiter aig.new outputs.now wanted.now cared) }
    ensures grows { Grows aig.old aig.new (4 * length outputs.now + 1) }
{
    let wrong = differences(outputs, wanted, aig)?;
    aig.and(cared, wrong)
}

/// The edge that is 1 where some of the outputs isn't as wanted.
fn differences(outputs: &[Edge], wanted: &[Edge], aig: &mut Aig) -> Result<Edge, OutOfMemory>
    requires outputs { AreEdges aig.old outputs.now }
    requires wanted { AreEdges aig.old wanted.now }
    requires count { length outputs.now ≡ length wanted.now }
    ensures value { IfOk result (λ e. HasValue aig.new e (λ w. differ (bits_of w outputs.now) (bits_of w wanted.now))) }
    ensures grows { Grows aig.old aig.new (4 * length outputs.now) }
{
    // the constant is node 0
    let _ = aig.nodes();
    let mut wrong = Edge::ZERO;
    for (place, output) in outputs.iter().enumerate() {
        wrong = or_unlike(wrong, *output, wanted[place], aig)?;
    }
    Ok(wrong)
}

/// The edge that is 1 where the first one is or the other two differ.
fn or_unlike(wrong: Edge, output: Edge, wanted: Edge, aig: &mut Aig) -> Result<Edge, OutOfMemory>
    requires wrong { IsEdge aig.old wrong }
    requires output { IsEdge aig.old output }
    requires wanted { IsEdge aig.old wanted }
    ensures value { IfOk result (λ e. HasValue aig.new e
        (λ w. value_of w wrong || exactly_one (value_of w output) (value_of w wanted))) }
    ensures grows { Grows aig.old aig.new 4 }
{
    let unlike = aig.xor(output, wanted)?;
    aig.or(wrong, unlike)
}

/// A law of netlists: the inputs and the targets determine the outputs.
pub fn targets_determine()
    ensures { TargetsDetermine }
{}

/// A law of miters: they tell where a netlist is right, whose inputs and open nets determine its outputs.
pub fn miters_tell()
    ensures { MitersTell }
{}
