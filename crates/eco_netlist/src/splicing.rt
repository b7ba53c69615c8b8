//! A netlist again, and an implementation with a patch in it.

ghost use Rattle.std.specs.Prelude.{◌≡◌, ◌++◌, ℕ, List, IfOk, OnOk, All, Contains, length, map, slice_get, Some};
ghost use Rattle.eco_meaning.specs.Circuit.{Circuit, names, AreTargets, IsLoopFree};
ghost use Rattle.eco_meaning.specs.Patch.{Fits, splice_of};
ghost use Rattle.eco_gates.specs.Gates.{IsGateWithin, IsTermBelow, IsWithin};
ghost use Rattle.eco_gates.specs.Ordering.{IsOrder};
ghost use Rattle.eco_netlist.specs.Building.{HasParts, HasLists};
ghost use Rattle.eco_netlist.specs.Netlists.{names_at, AreGates, AreNets, IsChecked};
ghost use Rattle.eco_netlist.specs.Numbering.{term_at, gate_at};

use crate::making::{Lists, Parts, built, listed};
use crate::names::{NameSet, joined, number_of};
use crate::netlist::Netlist;
use eco_gates::{Arranged, Gate, NetId, Term, Terms, arrange};
use eco_meaning::{Name, OutOfMemory};
use smallvec::SmallVec;
use std::alloc::Global;

/// The implementation `f` with the patch `p` in it, which drives the first targets of `f`: the module, ports, inputs and
/// outputs of `f`; the wires and then the gates of both, those of `f` first. Its targets are those that `p` leaves.
pub fn splice(f: &Netlist, p: &Netlist) -> Result<Netlist, OutOfMemory>
    requires { (later : List (List ℕ)) × Fits f.now p.now later }
    ensures spliced { IfOk result (λ n. n ≡ splice_of f.now p.now) }
    ensures loop_free { OnOk result (IsLoopFree (splice_of f.now p.now)) }
    ensures checked { OnOk result (IsChecked (splice_of f.now p.now)) }
    ensures left { OnOk result ((later : List (List ℕ)) → Fits f.now p.now later → AreTargets (splice_of f.now p.now) later) }
{
    let lists = lists_left(f, p)?;
    let parts = match spliced_parts(f, p) {
        Ok(parts) => parts,
        Err(error) => {
            drop(lists);
            return Err(error);
        }
    };
    match order_of(&parts) {
        Ok(order) => Ok(built(parts, lists, order)),
        Err(error) => {
            drop(parts);
            drop(lists);
            Err(error)
        }
    }
}

impl Netlist {
    ghost use Rattle.std.specs.Prelude.{◌≡◌, IfOk};

    /// The same netlist again.
    pub fn copy(&self) -> Result<Netlist, OutOfMemory>
        ensures same { IfOk result (λ n. n ≡ self.now) }
    {
        let alloc = *self.ports.allocator();
        let order = Vec::from_slice(alloc, self.order())?;
        let lists = listed(
            alloc,
            self.ports(),
            self.inputs(),
            self.outputs(),
            self.targets(),
        )?;
        match copied_parts(self) {
            Ok(parts) => Ok(built(parts, lists, order)),
            Err(error) => {
                drop(lists);
                Err(error)
            }
        }
    }
}

// The name, names and gates of a netlist again.
fn copied_parts(n: &Netlist) -> Result<Parts, OutOfMemory>
    ensures parts { IfOk result (HasParts n.now) }
    ensures checked { IsChecked n.now }
{
    let alloc = *n.ports.allocator();
    let gates = copied(alloc, n.gates())?;
    let title = n.module().copy()?;
    let names = joined(&n.names, n.net_names(), &[])?;
    Ok(Parts {
        title,
        names,
        gates,
    })
}

// The same gates again.
fn copied(alloc: Global, gates: &[Gate]) -> Result<Vec<Gate>, OutOfMemory>
    ensures { IfOk result (λ same. same.items ≡ gates.now) }
{
    let mut same = Vec::with_capacity(alloc, gates.len())?;
    for gate in gates {
        same.push(gate.copy()?)?;
    }
    Ok(same)
}

// The ports, inputs and outputs of `f`, and the targets that `p` leaves.
fn lists_left(f: &Netlist, p: &Netlist) -> Result<Lists, OutOfMemory>
    requires { (later : List (List ℕ)) × Fits f.now p.now later }
    ensures lists { IfOk result (HasLists (splice_of f.now p.now)) }
    ensures implementation { IsChecked f.now }
    ensures patch { IsChecked p.now }
{
    let alloc = *f.ports.allocator();
    let (_, left) = f.targets().split_at(p.outputs.len());
    let lists = listed(alloc, f.ports(), f.inputs(), f.outputs(), left)?;
    Ok(lists)
}

// The name of `f`, the names of `f` and of the wires of `p`, and the gates of both over them.
fn spliced_parts(f: &Netlist, p: &Netlist) -> Result<Parts, OutOfMemory>
    requires { (later : List (List ℕ)) × Fits f.now p.now later }
    ensures { IfOk result (HasParts (splice_of f.now p.now)) }
{
    let title = f.module().copy()?;
    let names = joined(&f.names, f.net_names(), p.wire_names())?;
    match spliced_gates(f, p, &names) {
        Ok(gates) => Ok(Parts {
            title,
            names,
            gates,
        }),
        Err(error) => {
            drop(names);
            Err(error)
        }
    }
}

// The gates of both, over the places of their nets among these names.
fn spliced_gates(f: &Netlist, p: &Netlist, all: &NameSet) -> Result<Vec<Gate>, OutOfMemory>
    requires fits { (later : List (List ℕ)) × Fits f.now p.now later }
    requires nets { all.now.keys ≡ names (splice_of f.now p.now) }
    ensures { IfOk result (λ gates. AreGates (splice_of f.now p.now) gates.items) }
{
    let alloc = *f.ports.allocator();
    let places = places_in(alloc, all, p.net_names())?;
    let mut gates = copied(alloc, f.gates())?;
    add_gates(&mut gates, p.gates(), places.as_slice())?;
    Ok(gates)
}

// The places of these names among the others.
fn places_in(alloc: Global, names: &NameSet, list: &[Name]) -> Result<Vec<NetId>, OutOfMemory>
    requires { All (Contains names.now.keys) list.now }
    ensures named { IfOk result (λ places. names_at names.now.keys places.items ≡ list.now) }
    ensures within { IfOk result (λ places. AreNets names.now.keys places.items) }
{
    let mut places = Vec::with_capacity(alloc, list.len())?;
    for name in list {
        places.push(place_of(names, name))?;
    }
    Ok(places)
}

// The place of a name among the others.
fn place_of(names: &NameSet, name: &Name) -> NetId
    requires { Contains names.now.keys name.now }
    ensures { slice_get names.now.keys result.0 ≡ Some name.now }
{
    match number_of(names, name) {
        Some(net) => net,
        None => unreachable!(),
    }
}

// Adds these gates, each net by the number at its place.
fn add_gates(gates: &mut Vec<Gate>, added: &[Gate], nets: &[NetId]) -> Result<(), OutOfMemory>
    requires { IsWithin (length nets.now) added.now }
    ensures { OnOk result (gates.new.items ≡ gates.old.items ++ map (gate_at nets.now) added.now) }
{
    for gate in added {
        gates.push(moved_gate(gate, nets)?)?;
    }
    Ok(())
}

// The gate, each net by the number at its place.
fn moved_gate(gate: &Gate, nets: &[NetId]) -> Result<Gate, OutOfMemory>
    requires { IsGateWithin (length nets.now) gate.now }
    ensures { IfOk result (λ moved. moved ≡ gate_at nets.now gate.now) }
{
    let ins = moved_terms(*gate.ins.allocator(), gate.ins.as_slice(), nets)?;
    Ok(Gate {
        kind: gate.kind,
        out: nets[gate.out.0 as usize],
        ins,
    })
}

// The terms, each net by the number at its place.
fn moved_terms(alloc: Global, terms: &[Term], nets: &[NetId]) -> Result<Terms, OutOfMemory>
    requires { All (IsTermBelow (length nets.now)) terms.now }
    ensures { IfOk result (λ moved. moved.items ≡ map (term_at nets.now) terms.now) }
{
    let mut moved = SmallVec::new(alloc);
    for term in terms {
        moved.push(moved_term(*term, nets))?;
    }
    Ok(moved)
}

// The term, its net by the number at its place.
fn moved_term(term: Term, nets: &[NetId]) -> Term
    requires { IsTermBelow (length nets.now) term }
    ensures { result ≡ term_at nets.now term }
{
    match term {
        Term::Zero => Term::Zero,
        Term::One => Term::One,
        Term::Net(net) => Term::Net(nets[net.0 as usize]),
    }
}

// An order of the gates of a checked netlist.
fn order_of(parts: &Parts) -> Result<Vec<u64>, OutOfMemory>
    requires { (n : Circuit) × IsChecked n × HasParts n parts.now }
    ensures { IfOk result (λ order. IsOrder parts.now.gates.items order.items) }
{
    let alloc = *parts.gates.allocator();
    match arrange(alloc, parts.gates.as_slice(), parts.names.len())? {
        Arranged::Order(order) => Ok(order),
        Arranged::Circle(_) => unreachable!(),
    }
}
