//! A graph with the roots of functions, to which one more is added.

ghost use Rattle.std.specs.Prelude.{◌≡◌, ◌≢◌, ◌≤◌, ◌+◌, AllPairs, OnOk, length};
ghost use Rattle.eco_trace.specs.Resolution.{EndsEmpty};
ghost use Rattle.eco_tseitin.specs.Sides.{IsApart};
ghost use Rattle.eco_functions.specs.Functions.{AreFunctions, HasOneMore, LastIsInterpolant};
ghost use Rattle.eco_functions.specs.Merged.{AreMerged, ReachNoMore};
ghost use Rattle.eco_functions.specs.Parts.{functions_of, split_of, most_of};

use crate::between::interpolant;
use crate::inputs::add_inputs;
use crate::replacement::improve;
use crate::two_parts::TwoParts;
use eco_aig::{Aig, Edge};
use eco_meaning::OutOfMemory;
use eco_merge::sweep;
use eco_netlist::NetId;
use eco_trace::Refuter;
use std::alloc::Global;

/// A graph whose inputs stand for signals, the roots of functions, and how many of the first signals each may read.
#[derive(Drop)]
pub(crate) struct Parts {
    pub(crate) alloc: Global,
    pub(crate) aig: Aig,
    pub(crate) base: Vec<NetId>,
    pub(crate) roots: Vec<Edge>,
    pub(crate) counts: Vec<u64>,
}

impl Parts {
    /// Adds the function of one more target, which may read the signals of `more` too: the interpolant of a refutation of clauses
    /// in two parts, in which one variable for each signal occurs in both, or a smaller function that stands between the two
    /// parts too, where one is found. All roots are merged. Where memory runs out, the parts may be out of step.
    pub(crate) fn add_target<R: Refuter>(
        &mut self,
        more: &[NetId],
        two: &TwoParts<'_, '_>,
        refuter: &mut R,
        limit: u64,
    ) -> Result<(), OutOfMemory>
        requires functions { AreFunctions (functions_of self.old) }
        requires refutation { EndsEmpty two.now.trace.now }
        requires marked { length two.now.side.now ≡ length two.now.trace.now.originals }
        requires apart { IsApart (split_of two.now) two.now.shared.now }
        requires distinct { AllPairs (λ x y. x ≢ y) two.now.shared.now }
        requires count { length two.now.shared.now ≡ length self.old.base.items + length more.now }
        requires limit { 1 ≤ limit }
        ensures functions { OnOk result (AreFunctions (functions_of self.new)) }
        ensures more { OnOk result (HasOneMore (functions_of self.old) more.now (functions_of self.new)) }
        ensures between { OnOk result (LastIsInterpolant (split_of two.now) two.now.shared.now (functions_of self.new)) }
        ensures unlike { OnOk result (AreMerged limit (functions_of self.new)) }
        ensures gates { OnOk result (ReachNoMore (functions_of self.old) more.now (split_of two.now) two.now.shared.now
            (most_of two.now) (functions_of self.new)) }
    {
        self.add_interpolant(more, two, refuter, limit)?;
        improve(self, two, refuter, limit)?;
        Ok(())
    }

    // The same, where the interpolant stays.
    fn add_interpolant<R: Refuter>(
        &mut self,
        more: &[NetId],
        two: &TwoParts<'_, '_>,
        refuter: &mut R,
        limit: u64,
    ) -> Result<(), OutOfMemory>
        requires functions { AreFunctions (functions_of self.old) }
        requires refutation { EndsEmpty two.now.trace.now }
        requires marked { length two.now.side.now ≡ length two.now.trace.now.originals }
        requires apart { IsApart (split_of two.now) two.now.shared.now }
        requires distinct { AllPairs (λ x y. x ≢ y) two.now.shared.now }
        requires count { length two.now.shared.now ≡ length self.old.base.items + length more.now }
        requires limit { 1 ≤ limit }
        ensures functions { OnOk result (AreFunctions (functions_of self.new)) }
        ensures more { OnOk result (HasOneMore (functions_of self.old) more.now (functions_of self.new)) }
        ensures between { OnOk result (LastIsInterpolant (split_of two.now) two.now.shared.now (functions_of self.new)) }
        ensures unlike { OnOk result (AreMerged limit (functions_of self.new)) }
        ensures gates { OnOk result (ReachNoMore (functions_of self.old) more.now (split_of two.now) two.now.shared.now
            (most_of two.now) (functions_of self.new)) }
    {
        add_inputs(&mut self.aig, &mut self.base, more)?;
        let root = interpolant(self.alloc, two, &mut self.aig)?;
        self.roots.push(root)?;
        self.counts.push(self.base.len() as u64)?;
        let swept = sweep(
            self.alloc,
            &mut self.aig,
            self.roots.as_slice(),
            refuter,
            limit,
        )?;
        self.roots = swept.roots;
        // it is a graph
        let _ = self.aig.nodes();
        Ok(())
    }
}
