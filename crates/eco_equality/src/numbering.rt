//! The literals of nets.

ghost use Rattle.std.specs.Prelude.{◌≡◌, ◌<◌, List, ℕ, [], ◌∷◌, Contains, length, map, All, IfOk, OnOk};
ghost use Rattle.eco_meaning.specs.Circuit.{names};
ghost use Rattle.eco_netlist.specs.Netlists.{names_at, AreNets};
ghost use Rattle.eco_trace.specs.declared.clause.Lit.{Lit as Literal};
ghost use Rattle.eco_clauses.specs.Listing.{with_variables};
ghost use Rattle.eco_equality.specs.Numbering.{inner_nets, net_literal};
ghost use Rattle.eco_equality.specs.Numbers.{given_literal, filled_literals, open_places};

use eco_clauses::fresh;
use eco_meaning::OutOfMemory;
use eco_netlist::{Name, NetId, Netlist};
use eco_trace::{Cnf, Lit};
use std::alloc::Global;

/// The literal of each net, in the order of their numbers: the inputs have the given ones, and each other net has a new
/// variable.
pub(crate) fn net_literals(
    alloc: Global,
    cnf: &mut Cnf,
    netlist: &Netlist,
    inputs: &[Lit],
) -> Result<Vec<Lit>, OutOfMemory>
    requires { length inputs.now ≡ length netlist.now.inputs }
    ensures literals { (shared : List ℕ → Literal) → inputs.now ≡ map shared netlist.now.inputs →
        IfOk result (λ lits. lits.items ≡ map (net_literal netlist.now shared cnf.old.vars) (names netlist.now)) }
    ensures more { (shared : List ℕ → Literal) → inputs.now ≡ map shared netlist.now.inputs →
        OnOk result (cnf.new ≡ with_variables (length (inner_nets netlist.now)) cnf.old) }
{
    // it is checked: its names are distinct
    let _ = netlist.nets();
    let given = given_literals(alloc, netlist, inputs)?;
    fill_literals(alloc, cnf, given.as_slice())
}

/// The literals that the nets are given, in the order of their numbers: the inputs have these, and the others none.
fn given_literals(
    alloc: Global,
    netlist: &Netlist,
    inputs: &[Lit],
) -> Result<Vec<Option<Lit>>, OutOfMemory>
    requires { length inputs.now ≡ length netlist.now.inputs }
    ensures { (shared : List ℕ → Literal) → inputs.now ≡ map shared netlist.now.inputs →
        IfOk result (λ given. given.items ≡ map (given_literal shared netlist.now.inputs) (names netlist.now)) }
{
    let mut given = vec![in alloc; None; netlist.nets() as usize]?;
    for (place, net) in netlist.inputs().iter().enumerate() {
        given[net.0 as usize] = Some(inputs[place]);
    }
    Ok(given)
}

/// The given literals, and new variables where none is given.
fn fill_literals(
    alloc: Global,
    cnf: &mut Cnf,
    given: &[Option<Lit>],
) -> Result<Vec<Lit>, OutOfMemory>
    ensures literals { IfOk result (λ lits. lits.items ≡ filled_literals cnf.old.vars given.now) }
    ensures more { OnOk result (cnf.new ≡ with_variables (open_places given.now) cnf.old) }
{
    let mut lits = Vec::with_capacity(alloc, given.len())?;
    for lit in given {
        lits.push(given_or_fresh(cnf, *lit)?)?;
    }
    Ok(lits)
}

/// The given literal, or that of a new variable where none is given.
fn given_or_fresh(cnf: &mut Cnf, given: Option<Lit>) -> Result<Lit, OutOfMemory>
    ensures literal { IfOk result (λ lit. lit ∷ [] ≡ filled_literals cnf.old.vars (given ∷ [])) }
    ensures more { OnOk result (cnf.new ≡ with_variables (open_places (given ∷ [])) cnf.old) }
{
    match given {
        Some(lit) => Ok(lit),
        None => fresh(cnf),
    }
}

/// The literals of the nets of another netlist that have the names of these nets, where the other's nets have these literals.
pub(crate) fn literals_by_name(
    alloc: Global,
    netlist: &Netlist,
    nets: &[NetId],
    other: &Netlist,
    lits: &[Lit],
) -> Result<Vec<Lit>, OutOfMemory>
    requires within { AreNets (names netlist.now) nets.now }
    requires known { All (Contains (names other.now)) (names_at (names netlist.now) nets.now) }
    requires count { length lits.now ≡ length (names other.now) }
    ensures { (literal : List ℕ → Literal) → lits.now ≡ map literal (names other.now) →
        IfOk result (λ found. found.items ≡ map literal (names_at (names netlist.now) nets.now)) }
{
    let mut found = Vec::with_capacity(alloc, nets.len())?;
    for net in nets {
        found.push(literal_by_name(netlist.name_of(*net), other, lits))?;
    }
    Ok(found)
}

/// The literal of the net of this name, where the nets have these literals.
fn literal_by_name(name: &Name, netlist: &Netlist, lits: &[Lit]) -> Lit
    requires known { Contains (names netlist.now) name.now }
    requires count { length lits.now ≡ length (names netlist.now) }
    ensures { (literal : List ℕ → Literal) → lits.now ≡ map literal (names netlist.now) → result ≡ literal name.now }
{
    match netlist.net_of(name) {
        Some(net) => lits[net.0 as usize],
        None => unreachable!(),
    }
}
