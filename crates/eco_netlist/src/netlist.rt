//! Checked netlists.

ghost use Rattle.std.specs.Prelude.{◌≡◌, ◌<◌, ℕ, List, length, map, slice_get, false, Some, MatchOption};
ghost use Rattle.eco_meaning.specs.Names.{has};
ghost use Rattle.eco_meaning.specs.Circuit.{names, Values, IsConsistent, AreTargets};
ghost use Rattle.eco_gates.specs.Gates.{IsWithin};
ghost use Rattle.eco_gates.specs.Words.{lane};

use crate::names::{NameSet, number_of};
use eco_gates::{Gate, NetId};
use eco_keyed::Keyed;
use eco_meaning::Name;
use std::marker::Model;

/// A checked netlist: its module's name, its ports, inputs and outputs, its nets and gates, and an order in which
/// the gates can be evaluated. The nets are numbered: first the ports, then the wires. It has no loop.
#[derive(Drop)]
pub struct Netlist {
    pub(crate) title: Name,
    pub(crate) names: NameSet,
    pub(crate) ports: Vec<NetId>,
    pub(crate) inputs: Vec<NetId>,
    pub(crate) outputs: Vec<NetId>,
    pub(crate) targets: Vec<NetId>,
    pub(crate) gates: Vec<Gate>,
    pub(crate) order: Vec<u64>,
}

impl Model for Netlist {
    ghost use Rattle.eco_meaning.specs.Circuit.{Circuit};

    ghost Value = { Circuit };

    ghost use Rattle.eco_netlist.specs.Numbered.{circuit_of, IsNumbered};

    ghost view = { circuit_of };

    ghost invariant = { IsNumbered };
}

impl Netlist {
    ghost use Rattle.eco_gates.specs.GateValue.{GateValue};
    ghost use Rattle.eco_gates.specs.Ordering.{IsOrder};
    ghost use Rattle.eco_netlist.specs.Netlists.{names_at, named_gate, AreNets, AreGates, IsChecked, KeepsUndriven, bit_of};

    /// The module's name.
    pub fn module(&self) -> &Name
        ensures { result.now ≡ self.now.title }
    {
        &self.title
    }

    /// The number of nets.
    pub fn nets(&self) -> u64
        ensures count { result ≡ length (names self.now) }
        ensures checked { IsChecked self.now }
    {
        self.names.len() as u64
    }

    /// How the names are hashed, for other tables over what the netlist's file gives. No clause says how.
    pub fn hasher(&self) -> Keyed {
        *self.names.hasher()
    }

    /// The ports, in the order of the header.
    pub fn ports(&self) -> &[NetId]
        ensures named { names_at (names self.now) result.now ≡ self.now.ports }
        ensures within { AreNets (names self.now) result.now }
    {
        self.ports.as_slice()
    }

    /// The inputs, in the order of the ports.
    pub fn inputs(&self) -> &[NetId]
        ensures named { names_at (names self.now) result.now ≡ self.now.inputs }
        ensures within { AreNets (names self.now) result.now }
    {
        self.inputs.as_slice()
    }

    /// The outputs, in the order of the ports.
    pub fn outputs(&self) -> &[NetId]
        ensures named { names_at (names self.now) result.now ≡ self.now.outputs }
        ensures within { AreNets (names self.now) result.now }
    {
        self.outputs.as_slice()
    }

    /// The targets, in the order of the numbers in their names.
    pub fn targets(&self) -> &[NetId]
        ensures named { AreTargets self.now (names_at (names self.now) result.now) }
        ensures within { AreNets (names self.now) result.now }
    {
        self.targets.as_slice()
    }

    /// The gates, in the order in which they were declared.
    pub fn gates(&self) -> &[Gate]
        ensures named { map (named_gate (names self.now)) result.now ≡ self.now.gates }
        ensures within { IsWithin (length (names self.now)) result.now }
    {
        self.gates.as_slice()
    }

    /// An order in which the gates can be evaluated: the number of each gate once, behind the numbers of the gates
    /// whose outputs it reads.
    pub fn order(&self) -> &[u64]
        ensures { (gates : List GateValue) → AreGates self.now gates → IsOrder gates result.now }
    {
        self.order.as_slice()
    }

    /// The names of all nets, in the order of their numbers.
    pub(crate) fn net_names(&self) -> &[Name]
        ensures named { result.now ≡ names self.now }
        ensures checked { IsChecked self.now }
    {
        self.names.as_slice()
    }

    /// The names of the wires.
    pub(crate) fn wire_names(&self) -> &[Name]
        ensures named { result.now ≡ self.now.wires }
        ensures checked { IsChecked self.now }
    {
        &self.names.as_slice()[self.ports.len()..]
    }

    /// The net of this name, if there is one.
    pub fn net_of(&self, name: &Name) -> Option<NetId>
        ensures { MatchOption result (has (names self.now) name.now ≡ false)
            (λ net. slice_get (names self.now) net.0 ≡ Some name.now) }
    {
        number_of(&self.names, name)
    }

    /// The name of a net.
    pub fn name_of(&self, net: NetId) -> &Name
        requires { net.0 < length (names self.now) }
        ensures { slice_get (names self.now) net.0 ≡ Some result.now }
    {
        &self.names.as_slice()[net.0 as usize]
    }

    /// Gives each net that a gate drives its value, and leaves the bits of the others, the inputs and targets: then
    /// the bits are those of the one map that is consistent with the netlist and has these.
    pub fn fill(&self, values: &mut [bool])
        requires { length values.old ≡ length (names self.now) }
        ensures length { length values.new ≡ length values.old }
        ensures valued { map (bit_of (names self.now) values.new) (names self.now) ≡ values.new }
        ensures consistent { (v : Values) → map v (names self.now) ≡ values.new → IsConsistent self.now v }
        ensures kept { (v : Values) → map v (names self.now) ≡ values.new → KeepsUndriven self.now v values.old }
        ensures only { (v : Values) → IsConsistent self.now v → KeepsUndriven self.now v values.old
            → map v (names self.now) ≡ values.new }
    {
        eco_gates::fill(self.gates.as_slice(), self.order.as_slice(), values);
    }

    /// Fills in 64 rows at once: at each of their 64 places the bits of the words become those that `fill` gives.
    pub fn fill_words(&self, words: &mut [u64])
        requires { length words.old ≡ length (names self.now) }
        ensures length { length words.new ≡ length words.old }
        ensures valued { (place : ℕ) → place < 64 →
            map (bit_of (names self.now) (lane words.new place)) (names self.now) ≡ lane words.new place }
        ensures consistent { (place : ℕ) (v : Values) → place < 64 → map v (names self.now) ≡ lane words.new place →
            IsConsistent self.now v }
        ensures kept { (place : ℕ) (v : Values) → place < 64 → map v (names self.now) ≡ lane words.new place →
            KeepsUndriven self.now v (lane words.old place) }
        ensures only { (place : ℕ) (v : Values) → place < 64 → IsConsistent self.now v →
            KeepsUndriven self.now v (lane words.old place) → map v (names self.now) ≡ lane words.new place }
    {
        eco_gates::fill_words(self.gates.as_slice(), self.order.as_slice(), words);
    }
}
