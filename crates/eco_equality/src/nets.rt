//! The literals of the nets of two netlists.

ghost use Rattle.std.specs.Prelude.{◌≡◌, ◌+◌, length, map, All, IfOk, OnOk};
ghost use Rattle.eco_meaning.specs.Circuit.{Circuit, names};
ghost use Rattle.eco_trace.specs.Clauses.{IsVarWithin};
ghost use Rattle.eco_clauses.specs.Listing.{no_clauses};
ghost use Rattle.eco_equality.specs.Numbering.{inner_nets, left_literal, right_literal, net_variables};
ghost use Rattle.eco_equality.specs.Equality.{HaveSamePorts, input_literals};

use crate::numbering::{literals_by_name, net_literals};
use eco_clauses::{fresh, fresh_literals};
use eco_meaning::OutOfMemory;
use eco_netlist::Netlist;
use eco_trace::{Cnf, Lit};
use std::alloc::Global;

/// No clauses yet over the variables of the nets; the literals of left's inputs, and those of the nets of left and right
/// in the order of their numbers.
#[derive(Drop)]
pub(crate) struct Nets {
    pub(crate) cnf: Cnf,
    pub(crate) inputs: Vec<Lit>,
    pub(crate) left: Vec<Lit>,
    pub(crate) right: Vec<Lit>,
}

/// Numbers the nets of left and right behind the constant: left's inputs, left's other nets, and right's other nets.
pub(crate) fn number_nets(
    alloc: Global,
    left: &Netlist,
    right: &Netlist,
) -> Result<Nets, OutOfMemory>
    requires { HaveSamePorts left.now right.now }
    ensures cnf { IfOk result (λ nets. nets.cnf ≡ no_clauses (net_variables left.now right.now)) }
    ensures inputs { IfOk result (λ nets. nets.inputs.items ≡ input_literals left.now) }
    ensures left { IfOk result (λ nets. nets.left.items ≡ map (left_literal left.now) (names left.now)) }
    ensures right { IfOk result (λ nets. nets.right.items ≡ map (right_literal left.now right.now) (names right.now)) }
    ensures left_within { IfOk result (λ nets. All (IsVarWithin (net_variables left.now right.now)) nets.left.items) }
    ensures right_within { IfOk result (λ nets. All (IsVarWithin (net_variables left.now right.now)) nets.right.items) }
{
    let mut cnf = Cnf::new(alloc, 0);
    let _constant = fresh(&mut cnf)?;
    let inputs = input_literals(alloc, &mut cnf, left)?;
    let left_lits = left_literals(alloc, &mut cnf, left, inputs.as_slice())?;
    let right_lits = right_literals(alloc, &mut cnf, left, right, left_lits.as_slice())?;
    Ok(Nets {
        cnf,
        inputs,
        left: left_lits,
        right: right_lits,
    })
}

/// The literals of left's inputs, behind the constant.
fn input_literals(alloc: Global, cnf: &mut Cnf, left: &Netlist) -> Result<Vec<Lit>, OutOfMemory>
    requires { cnf.old ≡ no_clauses 1 }
    ensures literals { IfOk result (λ lits. lits.items ≡ input_literals left.now) }
    ensures cnf { OnOk result (cnf.new ≡ no_clauses (1 + length left.now.inputs)) }
{
    // it is checked: its names are distinct
    let _ = left.nets();
    fresh_literals(alloc, cnf, left.inputs())
}

/// The literals of left's nets, where its inputs have these.
fn left_literals(
    alloc: Global,
    cnf: &mut Cnf,
    left: &Netlist,
    inputs: &[Lit],
) -> Result<Vec<Lit>, OutOfMemory>
    requires cnf { cnf.old ≡ no_clauses (1 + length left.now.inputs) }
    requires inputs { inputs.now ≡ input_literals left.now }
    ensures literals { IfOk result (λ lits. lits.items ≡ map (left_literal left.now) (names left.now)) }
    ensures within { (right : Circuit) → IfOk result (λ lits. All (IsVarWithin (net_variables left.now right)) lits.items) }
    ensures cnf { OnOk result (cnf.new ≡ no_clauses (1 + length left.now.inputs + length (inner_nets left.now))) }
{
    net_literals(alloc, cnf, left, inputs)
}

/// The literals of right's nets, where left's nets have these.
fn right_literals(
    alloc: Global,
    cnf: &mut Cnf,
    left: &Netlist,
    right: &Netlist,
    left_lits: &[Lit],
) -> Result<Vec<Lit>, OutOfMemory>
    requires ports { HaveSamePorts left.now right.now }
    requires cnf { cnf.old ≡ no_clauses (1 + length left.now.inputs + length (inner_nets left.now)) }
    requires left { left_lits.now ≡ map (left_literal left.now) (names left.now) }
    ensures literals { IfOk result (λ lits. lits.items ≡ map (right_literal left.now right.now) (names right.now)) }
    ensures within { IfOk result (λ lits. All (IsVarWithin (net_variables left.now right.now)) lits.items) }
    ensures cnf { OnOk result (cnf.new ≡ no_clauses (net_variables left.now right.now)) }
{
    // they are checked: inputs are nets, and names are distinct
    let _ = left.nets();
    let _ = right.nets();
    let shared = literals_by_name(alloc, right, right.inputs(), left, left_lits)?;
    net_literals(alloc, cnf, right, shared.as_slice())
}
