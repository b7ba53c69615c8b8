//! The functions of the first targets.

use crate::parts::Parts;
use crate::shorter::patch_of;
use crate::two_parts::TwoParts;
use eco_aig::Aig;
use eco_keyed::Keyed;
use eco_meaning::OutOfMemory;
use eco_netlist::{NetId, Netlist};
use eco_splice::Roots;
use eco_trace::Refuter;
use std::alloc::Global;
use std::marker::Model;

/// The functions of an implementation's first targets: a root of a graph for each, over the signals that they may read.
#[derive(Drop)]
pub struct Functions {
    parts: Parts,
}

impl Model for Functions {
    ghost use Rattle.eco_functions.specs.Functions.{FunctionsValue, AreFunctions};
    ghost use Rattle.eco_functions.specs.Parts.{functions_of};

    ghost Value = { FunctionsValue };

    ghost view = { λ functions. functions_of functions.parts };

    ghost invariant = { λ functions. AreFunctions (functions_of functions.parts) };
}

impl Functions {
    ghost use Rattle.std.specs.Prelude.{◌≡◌, ◌≢◌, ◌≤◌, ◌+◌, [], AllPairs, IfOk, All, length};
    ghost use Rattle.std.specs.List.{IsDistinct};
    ghost use Rattle.std.specs.Str.{bytes_eq};
    ghost use Rattle.eco_meaning.specs.Circuit.{names, IsSignal};
    ghost use Rattle.eco_netlist.specs.Netlists.{AreNets, names_at};
    ghost use Rattle.eco_trace.specs.Resolution.{EndsEmpty};
    ghost use Rattle.eco_tseitin.specs.Sides.{IsApart};
    ghost use Rattle.eco_splice.specs.GraphPatch.{HasTargets};
    ghost use Rattle.eco_functions.specs.Functions.{AreFunctions, HasOneMore, LastIsInterpolant, ReadEarlier};
    ghost use Rattle.eco_functions.specs.Parts.{split_of, most_of};
    ghost use Rattle.eco_functions.specs.Merged.{AreMerged, ReachNoMore};
    ghost use Rattle.eco_functions.specs.Standing.{IsPatchWith};

    /// The functions of no target. `keyed` is keyed by the file that they are to be put into.
    pub fn new(alloc: Global, keyed: Keyed) -> Result<Functions, OutOfMemory>
        ensures base { IfOk result (λ functions. functions.base ≡ []) }
        ensures roots { IfOk result (λ functions. functions.roots ≡ []) }
    {
        let aig = Aig::keyed(alloc, keyed)?;
        let parts = Parts {
            alloc,
            aig,
            base: Vec::new(alloc),
            roots: Vec::new(alloc),
            counts: Vec::new(alloc),
        };
        Ok(Functions { parts })
    }

    /// The signals that the functions may read, in the order of the graph's inputs.
    pub fn base(&self) -> &[NetId]
        ensures base { result.now ≡ self.now.base }
        ensures functions { AreFunctions self.now }
    {
        self.parts.base.as_slice()
    }

    /// These functions, and that of one more target, which may read the signals of `more` too: the interpolant of a refutation of
    /// clauses in two parts, in which one variable for each signal occurs in both, or a smaller function that stands between the two
    /// parts too, where one is found. Equal and complementary nodes of all of them are merged, and none is constant, as far as a
    /// search that learns `limit` clauses tells.
    pub fn with_target<R: Refuter>(
        self,
        more: &[NetId],
        two: &TwoParts<'_, '_>,
        refuter: &mut R,
        limit: u64,
    ) -> Result<Functions, OutOfMemory>
        requires refutation { EndsEmpty two.now.trace.now }
        requires marked { length two.now.side.now ≡ length two.now.trace.now.originals }
        requires apart { IsApart (split_of two.now) two.now.shared.now }
        requires distinct { AllPairs (λ x y. x ≢ y) two.now.shared.now }
        requires count { length two.now.shared.now ≡ length self.base + length more.now }
        requires limit { 1 ≤ limit }
        ensures more { IfOk result (HasOneMore self more.now) }
        ensures between { IfOk result (LastIsInterpolant (split_of two.now) two.now.shared.now) }
        ensures unlike { IfOk result (AreMerged limit) }
        ensures gates { IfOk result (ReachNoMore self more.now (split_of two.now) two.now.shared.now
            (most_of two.now)) }
    {
        let mut parts = self.parts;
        match parts.add_target(more, two, refuter, limit) {
            Ok(()) => Ok(Functions { parts }),
            Err(error) => {
                drop(parts);
                Err(error)
            }
        }
    }

    /// The patch that gives the first targets of `f` these functions: the fixed form of the graph, with a gate for each and-node
    /// and each complement of an operand that the roots reach and one for each target; or one with fewer gates, where gates of
    /// other kinds and more inputs are found that do with fewer.
    pub fn patch(&self, f: &Netlist) -> Result<Netlist, OutOfMemory>
        requires nets { AreNets (names f.now) self.now.base }
        requires distinct { IsDistinct bytes_eq (names_at (names f.now) self.now.base) }
        requires signals { All (IsSignal f.now) (names_at (names f.now) self.now.base) }
        requires targets { HasTargets f.now (length self.now.roots) }
        requires earlier { ReadEarlier f.now self.now }
        ensures patch { IfOk result (IsPatchWith f.now self.now) }
    {
        let roots = Roots {
            aig: &self.parts.aig,
            edges: self.parts.roots.as_slice(),
            base: self.parts.base.as_slice(),
        };
        patch_of(self.parts.alloc, f, &roots)
    }
}
