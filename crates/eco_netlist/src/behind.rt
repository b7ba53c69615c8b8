//! Which targets lie before a net, and which outputs behind it.

ghost use Rattle.std.specs.Prelude.{◌≡◌, ◌≢◌, ◌<◌, ◌≤◌, All, AllPairs, IfOk, length};
ghost use Rattle.eco_netlist.specs.Reached.{ArePlaces};

use crate::netlist::Netlist;
use eco_gates::{NetId, spread_greatest, spread_least};
use eco_meaning::OutOfMemory;
use std::alloc::Global;

impl Netlist {
    ghost use Rattle.std.specs.Prelude.{ℕ, List, IfOk};
    ghost use Rattle.eco_meaning.specs.Circuit.{AreTargets};
    ghost use Rattle.eco_netlist.specs.Behind.{AreLastTargets};
    ghost use Rattle.eco_netlist.specs.Netlists.{IsChecked};
    ghost use Rattle.eco_netlist.specs.Reached.{AreFirstOutputs, AreLasts};

    /// For each net how many of the first targets are needed to have all of those behind which it lies: 0 for a net in
    /// the fan-out of no target, else 1 more than the place of the last target in whose fan-out it lies. It takes time
    /// linear in the number of nets and inputs of gates.
    pub fn last_targets(&self) -> Result<Vec<u64>, OutOfMemory>
        ensures { IfOk result (λ lasts. AreLastTargets self.now lasts.items) }
    {
        let _targets = self.targets();
        let lasts = self.lasts()?;
        Ok(lasts)
    }

    /// The same by the places of the targets.
    pub(crate) fn lasts(&self) -> Result<Vec<u64>, OutOfMemory>
        ensures lasts { IfOk result (λ lasts. (targets : List (List ℕ)) → AreTargets self.now targets
            → AreLasts self.now targets lasts.items) }
        ensures checked { IsChecked self.now }
    {
        let alloc = *self.ports.allocator();
        let mut lasts = places_of(alloc, self.names.len(), self.targets.as_slice(), 1, 0)?;
        spread_greatest(
            self.gates.as_slice(),
            self.order.as_slice(),
            lasts.as_mut_slice(),
        );
        Ok(lasts)
    }

    /// For each net the place of the first output in its fan-out, and the number of outputs where there is none.
    pub(crate) fn first_outputs(&self) -> Result<Vec<u64>, OutOfMemory>
        ensures firsts { IfOk result (λ firsts. AreFirstOutputs self.now firsts.items) }
        ensures checked { IsChecked self.now }
    {
        let alloc = *self.ports.allocator();
        let outputs = self.outputs.as_slice();
        let mut firsts = places_of(alloc, self.names.len(), outputs, 0, outputs.len() as u64)?;
        spread_least(
            self.gates.as_slice(),
            self.order.as_slice(),
            firsts.as_mut_slice(),
        );
        Ok(firsts)
    }
}

/// A number for each net: for the listed nets their places in the list, counted from `first`, and `other` for all others.
fn places_of(
    alloc: Global,
    nets: usize,
    listed: &[NetId],
    first: u64,
    other: u64,
) -> Result<Vec<u64>, OutOfMemory>
    requires within { All (λ net. net.0 < nets) listed.now }
    requires apart { AllPairs (λ a b. a.0 ≢ b.0) listed.now }
    requires low { first ≤ 1 }
    ensures { IfOk result (λ numbers. ArePlaces nets listed.now (length listed.now) first other numbers.items) }
{
    let mut numbers = vec![in alloc; other; nets]?;
    for (place, net) in listed.iter().enumerate() {
        numbers[net.0 as usize] = first + place as u64;
    }
    Ok(numbers)
}
