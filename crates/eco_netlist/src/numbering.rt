//! Which names of declarations are nets, in the order in which these are numbered.

ghost use Rattle.std.specs.Prelude.{◌≡◌, ◌<◌, [], true, ℕ, length, filter, fold, All, OnOk, IfOk, IsTrue, ◌↔◌, Some, slice_get};
ghost use Rattle.std.specs.List.{flat_map};
ghost use Rattle.eco_gates.specs.Gates.{IsTermBelow, IsGateWithin, IsWithin};
ghost use Rattle.eco_netlist.specs.Building.{IsNumberingOf};
ghost use Rattle.eco_netlist.specs.Drafted.{declared_of, IsDrafted};
ghost use Rattle.eco_netlist.specs.Refusals.{IsWellDeclared};
ghost use Rattle.eco_netlist.specs.Netlists.{name_at, AreNets};
ghost use Rattle.eco_netlist.specs.Numbering.{with_net, term_nets, gate_nets, is_live, AreAll};
ghost use Rattle.eco_netlist.specs.Tallies.{tally_at, AreTallies};

use crate::draft::{Declarations, TargetRule};
use crate::refusal_kind::is_free;
use crate::tally::Tally;
use eco_gates::{Gate, NetId, Term};
use eco_meaning::{Name, OutOfMemory};
use std::alloc::Global;
use std::marker::Model;

/// What stands for a name that is no net.
const NOWHERE: u64 = u64::MAX;

/// Some of the names of declarations in an order: their numbers among the names, and for each name its place in the order,
/// or `NOWHERE`.
#[derive(Drop)]
pub(crate) struct Numbering {
    nets: Vec<NetId>,
    places: Vec<u64>,
}

impl Model for Numbering {
    ghost use Rattle.std.specs.Prelude.{length};
    ghost use Rattle.eco_netlist.specs.Numbering.{Chosen, IsNumbering};

    ghost Value = { Chosen };

    ghost view = { λ n. record { names = length n.places.items; nets = n.nets.items } };

    ghost invariant = { λ n. IsNumbering n.nets.items n.places.items };
}

impl Numbering {
    ghost use Rattle.std.specs.Prelude.{◌≡◌, ◌<◌, ◌↔◌, [], length, Contains, IfOk, IsTrue, OnOk, Some, slice_get};
    ghost use Rattle.eco_netlist.specs.Numbering.{with_net, AreAll};

    /// None of so many names.
    fn new(alloc: Global, names: usize) -> Result<Numbering, OutOfMemory>
        ensures none { IfOk result (λ numbering. numbering ≡ record { names = names; nets = [] }) }
    {
        let places = vec![in alloc; NOWHERE; names]?;
        let nets = Vec::new(alloc);
        Ok(Numbering { nets, places })
    }

    /// Puts a name behind the others, where it isn't there yet.
    fn add(&mut self, net: NetId) -> Result<(), OutOfMemory>
        requires { net.0 < self.old.names }
        ensures names { self.new.names ≡ self.old.names }
        ensures added { OnOk result (self.new.nets ≡ with_net self.old.nets net) }
    {
        let index = net.0 as usize;
        if self.places[index] == NOWHERE {
            let place = self.nets.len() as u64;
            self.nets.push(net)?;
            self.places[index] = place;
        }
        Ok(())
    }

    /// The names in order.
    pub(crate) fn nets(&self) -> &[NetId]
        ensures { result.now ≡ self.now.nets }
    {
        self.nets.as_slice()
    }

    /// The place of a name in the order.
    pub(crate) fn place(&self, net: NetId) -> NetId
        requires { Contains self.now.nets net }
        ensures { slice_get self.now.nets result.0 ≡ Some net }
    {
        NetId(self.places[net.0 as usize])
    }

    /// Whether these are all names in their own order.
    pub(crate) fn is_plain(&self) -> bool
        ensures { IsTrue result ↔ AreAll self.now }
    {
        self.nets.len() == self.places.len() && are_in_order(self.nets.as_slice())
    }
}

/// Whether the numbers are 0, 1 and so on.
fn are_in_order(nets: &[NetId]) -> bool
    ensures { IsTrue result ↔ ((k : ℕ) → k < length nets.now → slice_get nets.now k ≡ Some (record { 0 = k })) }
{
    for (place, net) in nets.iter().enumerate() {
        if net.0 != place as u64 {
            return false;
        }
    }
    true
}

/// Adds names in order.
fn add_nets(numbering: &mut Numbering, list: &[NetId]) -> Result<(), OutOfMemory>
    requires { All (λ net. net.0 < numbering.old.names) list.now }
    ensures names { numbering.new.names ≡ numbering.old.names }
    ensures added { OnOk result (numbering.new.nets ≡ fold with_net numbering.old.nets list.now) }
{
    for net in list {
        numbering.add(*net)?;
    }
    Ok(())
}

/// Whether a declared wire with these counts is a net: it is mentioned, or a target.
fn is_live(rule: TargetRule, name: &Name, tally: Tally) -> bool
    ensures { result ≡ is_live rule name.now tally }
{
    tally.drivers > 0 || tally.is_read || is_free(rule, name, tally)
}

/// Adds the declared wires that are mentioned or targets, in order.
fn add_wires(
    numbering: &mut Numbering,
    rule: TargetRule,
    names: &[Name],
    tallies: &[Tally],
    wires: &[NetId],
) -> Result<(), OutOfMemory>
    requires names { numbering.old.names ≡ length names.now }
    requires tallies { length tallies.now ≡ length names.now }
    requires wires { AreNets names.now wires.now }
    ensures names { numbering.new.names ≡ numbering.old.names }
    ensures added { OnOk result (numbering.new.nets ≡ fold with_net numbering.old.nets
        (filter (λ wire. is_live rule (name_at names.now wire.0) (tally_at tallies.now wire.0)) wires.now)) }
{
    for wire in wires {
        let index = wire.0 as usize;
        if is_live(rule, &names[index], tallies[index]) {
            numbering.add(*wire)?;
        }
    }
    Ok(())
}

/// Adds what a gate's input reads.
fn add_term(numbering: &mut Numbering, term: Term) -> Result<(), OutOfMemory>
    requires { IsTermBelow numbering.old.names term }
    ensures names { numbering.new.names ≡ numbering.old.names }
    ensures added { OnOk result (numbering.new.nets ≡ fold with_net numbering.old.nets (term_nets term)) }
{
    match term {
        Term::Zero => Ok(()),
        Term::One => Ok(()),
        Term::Net(net) => numbering.add(net),
    }
}

/// Adds what a gate's inputs read, in order.
fn add_terms(numbering: &mut Numbering, terms: &[Term]) -> Result<(), OutOfMemory>
    requires { All (IsTermBelow numbering.old.names) terms.now }
    ensures names { numbering.new.names ≡ numbering.old.names }
    ensures added { OnOk result (numbering.new.nets ≡ fold with_net numbering.old.nets (flat_map term_nets terms.now)) }
{
    for term in terms {
        add_term(numbering, *term)?;
    }
    Ok(())
}

/// Adds what a gate drives, then what it reads.
fn add_gate(numbering: &mut Numbering, gate: &Gate) -> Result<(), OutOfMemory>
    requires { IsGateWithin numbering.old.names gate.now }
    ensures names { numbering.new.names ≡ numbering.old.names }
    ensures added { OnOk result (numbering.new.nets ≡ fold with_net numbering.old.nets (gate_nets gate.now)) }
{
    numbering.add(gate.out)?;
    add_terms(numbering, gate.ins.as_slice())
}

/// Adds what gates drive and read, in order.
fn add_gates(numbering: &mut Numbering, gates: &[Gate]) -> Result<(), OutOfMemory>
    requires { IsWithin numbering.old.names gates.now }
    ensures names { numbering.new.names ≡ numbering.old.names }
    ensures added { OnOk result (numbering.new.nets ≡ fold with_net numbering.old.nets (flat_map gate_nets gates.now)) }
{
    for gate in gates {
        add_gate(numbering, gate)?;
    }
    Ok(())
}

/// The names of declarations that are nets, in the order of their numbers.
pub(crate) fn numbering_of(
    declarations: &Declarations,
    rule: TargetRule,
    tallies: &[Tally],
) -> Result<Numbering, OutOfMemory>
    requires drafted { IsDrafted declarations.now }
    requires tallies { AreTallies declarations.now tallies.now }
    requires sound { IsWellDeclared rule (declared_of declarations.now) }
    ensures { IfOk result (IsNumberingOf rule declarations.now) }
{
    let alloc = *declarations.header.allocator();
    let names = declarations.names.as_slice();
    let mut numbering = Numbering::new(alloc, names.len())?;
    add_nets(&mut numbering, declarations.header.as_slice())?;
    add_wires(
        &mut numbering,
        rule,
        names,
        tallies,
        declarations.wires.as_slice(),
    )?;
    add_gates(&mut numbering, declarations.gates.as_slice())?;
    Ok(numbering)
}
