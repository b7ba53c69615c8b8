//! How often each name stands in the declarations.

ghost use Rattle.std.specs.Prelude.{◌≡◌, true, false, ◌+◌, ◌<◌, ◌^◌, ◌||◌, ℕ, length, count_by, All, IfOk};
ghost use Rattle.std.specs.List.{list_any};
ghost use Rattle.eco_gates.specs.Gates.{IsTermBelow, IsGateWithin, IsWithin};
ghost use Rattle.eco_netlist.specs.Drafted.{IsDrafted};
ghost use Rattle.eco_netlist.specs.Tallies.{tally_at, count_in, with_count, is_net, reads_net, with_gate, with_gates, AreTallies};

use crate::draft::Declarations;
use eco_gates::{Gate, NetId, Term};
use eco_meaning::OutOfMemory;

/// A list of names in the declarations.
#[derive(Clone, Copy)]
pub(crate) enum Place {
    Header,
    Input,
    Output,
    Wire,
}

/// How often a name stands in each list, how many gates drive it, and whether one reads it.
#[derive(Clone, Copy, Default)]
pub(crate) struct Tally {
    pub(crate) header: u64,
    pub(crate) inputs: u64,
    pub(crate) outputs: u64,
    pub(crate) wires: u64,
    pub(crate) drivers: u64,
    pub(crate) is_read: bool,
}

impl Tally {
    /// How often the name stands in this place.
    pub(crate) fn count(self, place: Place) -> u64
        ensures { result ≡ count_in place self }
    {
        match place {
            Place::Header => self.header,
            Place::Input => self.inputs,
            Place::Output => self.outputs,
            Place::Wire => self.wires,
        }
    }

    /// The counts with one more in this place.
    fn noted(self, place: Place) -> Tally
        requires { count_in place self + 1 < 2 ^ 64 }
        ensures { result ≡ with_count place (count_in place self + 1) self }
    {
        let mut tally = self;
        match place {
            Place::Header => tally.header += 1,
            Place::Input => tally.inputs += 1,
            Place::Output => tally.outputs += 1,
            Place::Wire => tally.wires += 1,
        }
        tally
    }

    /// The counts with one more gate that drives the name.
    fn driven(self) -> Tally
        requires { self.drivers + 1 < 2 ^ 64 }
        ensures { result ≡ record self { drivers = self.drivers + 1 } }
    {
        Tally {
            drivers: self.drivers + 1,
            ..self
        }
    }

    /// The counts of a name that is read.
    fn read(self) -> Tally
        ensures { result ≡ record self { is_read = true } }
    {
        Tally {
            is_read: true,
            ..self
        }
    }
}

/// Counts the names of a list in their place, where none has been counted before.
fn note_nets(tallies: &mut [Tally], place: Place, nets: &[NetId])
    requires within { All (λ net. net.0 < length tallies.old) nets.now }
    requires none { (net : ℕ) → net < length tallies.old → count_in place (tally_at tallies.old net) ≡ 0 }
    ensures length { length tallies.new ≡ length tallies.old }
    ensures noted { (net : ℕ) → net < length tallies.old → tally_at tallies.new net
        ≡ with_count place (count_by (is_net net) nets.now) (tally_at tallies.old net) }
{
    for net in nets {
        let index = net.0 as usize;
        tallies[index] = tallies[index].noted(place);
    }
}

/// Notes what an input of a gate reads.
fn note_term(tallies: &mut [Tally], term: Term)
    requires { IsTermBelow (length tallies.old) term }
    ensures length { length tallies.new ≡ length tallies.old }
    ensures noted { (net : ℕ) → net < length tallies.old → tally_at tallies.new net ≡ record (tally_at tallies.old net) {
      is_read = (tally_at tallies.old net).is_read || reads_net net term;
    } }
{
    match term {
        Term::Zero => {}
        Term::One => {}
        Term::Net(net) => {
            let index = net.0 as usize;
            tallies[index] = tallies[index].read();
        }
    }
}

/// Notes what the inputs of a gate read.
fn note_terms(tallies: &mut [Tally], terms: &[Term])
    requires { All (IsTermBelow (length tallies.old)) terms.now }
    ensures length { length tallies.new ≡ length tallies.old }
    ensures noted { (net : ℕ) → net < length tallies.old → tally_at tallies.new net ≡ record (tally_at tallies.old net) {
      is_read = (tally_at tallies.old net).is_read || list_any (reads_net net) terms.now;
    } }
{
    for term in terms {
        note_term(tallies, *term);
    }
}

/// Notes what a gate drives and reads.
fn note_gate(tallies: &mut [Tally], gate: &Gate)
    requires within { IsGateWithin (length tallies.old) gate.now }
    requires room { (tally_at tallies.old gate.now.out.0).drivers + 1 < 2 ^ 64 }
    ensures length { length tallies.new ≡ length tallies.old }
    ensures noted { (net : ℕ) → net < length tallies.old → tally_at tallies.new net
        ≡ with_gate gate.now net (tally_at tallies.old net) }
{
    let index = gate.out.0 as usize;
    tallies[index] = tallies[index].driven();
    note_terms(tallies, gate.ins.as_slice());
}

/// Notes what gates drive and read, where nothing of the kind has been noted before.
fn note_gates(tallies: &mut [Tally], gates: &[Gate])
    requires within { IsWithin (length tallies.old) gates.now }
    requires undriven { (net : ℕ) → net < length tallies.old → (tally_at tallies.old net).drivers ≡ 0 }
    requires unread { (net : ℕ) → net < length tallies.old → (tally_at tallies.old net).is_read ≡ false }
    ensures length { length tallies.new ≡ length tallies.old }
    ensures noted { (net : ℕ) → net < length tallies.old → tally_at tallies.new net
        ≡ with_gates gates.now net (tally_at tallies.old net) }
{
    for gate in gates {
        note_gate(tallies, gate);
    }
}

/// How often each name stands in the declarations, by its number.
pub(crate) fn tallies_of(declarations: &Declarations) -> Result<Vec<Tally>, OutOfMemory>
    requires { IsDrafted declarations.now }
    ensures { IfOk result (λ tallies. AreTallies declarations.now tallies.items) }
{
    let alloc = *declarations.header.allocator();
    let mut tallies = vec![in alloc; Tally::default(); declarations.names.len()]?;
    let counted = tallies.as_mut_slice();
    note_nets(counted, Place::Header, declarations.header.as_slice());
    note_nets(counted, Place::Input, declarations.inputs.as_slice());
    note_nets(counted, Place::Output, declarations.outputs.as_slice());
    note_nets(counted, Place::Wire, declarations.wires.as_slice());
    note_gates(counted, declarations.gates.as_slice());
    Ok(tallies)
}
