//! Equality clauses, in one fixed order and form, so that they can be written again and compared.
//!
//! Variable 1 is the constant 1. Then there is a variable for each input of left, in left's order (right's inputs share
//! them by name), then one for each other net of left, in the order of the nets' numbers, and then one for each other net
//! of right. The first clause is (1). Then come the clauses of left's gates, in order, and those of right's, where o is
//! the output's literal and i1 to im are those of the inputs (a constant is the literal 1 or -1):
//!
//! - `and`: (-o, ij) for each j, then (o, -i1, .., -im). `or`: (o, -ij) for each j, then (-o, i1, .., im).
//! - `xor` of p from a and b: (-p, a, b), (-p, -a, -b), (p, -a, b), (p, a, -b). With more inputs it goes from the first one
//!   on, each result but the last being a new variable, with the next number that is not yet used.
//! - `nand`, `nor` and `xnor`: the same with -o for o. `buf` and `not` are `and` and `nand` of one input, and `xor` of one
//!   input is `buf`.
//!
//! Then for each output, in left's order, a new variable is the `xor` of left's output and right's; the last clause has all
//! these variables. A clause is the list of its literals by rising variables, each once; it is left out where a variable
//! has both signs.

ghost use Rattle.std.specs.Prelude.{◌≡◌, ◌+◌, ◌*◌, ◌≤◌, Bool, List, map, All, IfOk, OnOk};
ghost use Rattle.eco_query.specs.Problem.{IsClosed};
ghost use Rattle.eco_meaning.specs.Circuit.{names};
ghost use Rattle.eco_meaning.specs.Meaning.{everywhere, IsWrong};
ghost use Rattle.eco_trace.specs.Clauses.{Valuation, IsVarWithin, Satisfies, read};
ghost use Rattle.eco_clauses.specs.Listing.{no_clauses};
ghost use Rattle.eco_equality.specs.Numbering.{left_literal, right_literal, net_variables};
ghost use Rattle.eco_equality.specs.Equality.{HaveSamePorts, with_both, equality_of, input_literals, size};

use crate::differences::fresh_differences;
use crate::nets::{Nets, number_nets};
use crate::numbering::literals_by_name;
use eco_clauses::{add_clause, add_gates, literals_at};
use eco_meaning::OutOfMemory;
use eco_netlist::Netlist;
use eco_trace::{Cnf, Lit, Var};
use std::alloc::Global;

/// The clauses that say that an output of two netlists differs, and the literals of the inputs, in the order of the first
/// netlist's.
#[derive(Drop)]
pub struct EqualityClauses {
    pub cnf: Cnf,
    pub inputs: Vec<Lit>,
}

/// The clauses that say that an output of left and right differs. It takes time linear in the number of nets and inputs
/// of gates, but for the sorting of each clause.
///
/// `OutOfMemory` is answered also where more than 2^64 - 1 variables would be needed.
pub fn equality_clauses(
    alloc: Global,
    left: &Netlist,
    right: &Netlist,
) -> Result<EqualityClauses, OutOfMemory>
    requires ports { HaveSamePorts left.now right.now }
    requires left_closed { IsClosed left.now }
    requires right_closed { IsClosed right.now }
    // The clauses are those of the format, in its order.
    ensures exactly { IfOk result (λ made. made.cnf ≡ equality_of left.now right.now) }
    ensures inputs { IfOk result (λ made. made.inputs.items ≡ input_literals left.now) }
    ensures within { IfOk result (λ made. All (IsVarWithin made.cnf.vars) made.inputs.items) }

    // A model reads as an input at which an output differs, and each such input has a model.
    ensures models { IfOk result (λ made. (v : Valuation) → Satisfies v made.cnf.clauses →
        IsWrong left.now (everywhere right.now) (read v made.inputs.items)) }
    ensures answers { IfOk result (λ made. (x : List Bool) → IsWrong left.now (everywhere right.now) x →
        (v : Valuation) × Satisfies v made.cnf.clauses × (read v made.inputs.items ≡ x)) }

    // There are few variables: at most two for each net and each input of a gate.
    ensures count { IfOk result (λ made. made.cnf.vars ≤ 2 * (1 + size left.now + size right.now)) }
{
    // they are checked: an input has one value of each net
    let _ = left.nets();
    let _ = right.nets();
    let Nets {
        mut cnf,
        inputs,
        left: left_lits,
        right: right_lits,
    } = number_nets(alloc, left, right)?;
    add_both(
        alloc,
        &mut cnf,
        left,
        right,
        left_lits.as_slice(),
        right_lits.as_slice(),
    )?;
    add_differences(
        alloc,
        &mut cnf,
        left,
        right,
        left_lits.as_slice(),
        right_lits.as_slice(),
    )?;
    Ok(EqualityClauses { cnf, inputs })
}

/// Adds the clause of the constant, and the clauses of the gates of left and then of right.
fn add_both(
    alloc: Global,
    cnf: &mut Cnf,
    left: &Netlist,
    right: &Netlist,
    left_lits: &[Lit],
    right_lits: &[Lit],
) -> Result<(), OutOfMemory>
    requires cnf { cnf.old ≡ no_clauses (net_variables left.now right.now) }
    requires left { left_lits.now ≡ map (left_literal left.now) (names left.now) }
    requires right { right_lits.now ≡ map (right_literal left.now right.now) (names right.now) }
    requires left_within { All (IsVarWithin (net_variables left.now right.now)) left_lits.now }
    requires right_within { All (IsVarWithin (net_variables left.now right.now)) right_lits.now }
    ensures both { OnOk result (cnf.new ≡ with_both left.now right.now) }
{
    let constant = Lit {
        var: Var(1),
        positive: true,
    };
    add_clause(alloc, cnf, &[constant])?;
    add_gates(alloc, cnf, left.gates(), left_lits)?;
    add_gates(alloc, cnf, right.gates(), right_lits)
}

/// Adds for each output a variable that tells whether left and right differ in it, and the clause of these variables.
fn add_differences(
    alloc: Global,
    cnf: &mut Cnf,
    left: &Netlist,
    right: &Netlist,
    left_lits: &[Lit],
    right_lits: &[Lit],
) -> Result<(), OutOfMemory>
    requires ports { HaveSamePorts left.now right.now }
    requires cnf { cnf.old ≡ with_both left.now right.now }
    requires left { left_lits.now ≡ map (left_literal left.now) (names left.now) }
    requires right { right_lits.now ≡ map (right_literal left.now right.now) (names right.now) }
    requires left_within { All (IsVarWithin (net_variables left.now right.now)) left_lits.now }
    requires right_within { All (IsVarWithin (net_variables left.now right.now)) right_lits.now }
    ensures { OnOk result (cnf.new ≡ equality_of left.now right.now) }
{
    // they are checked: outputs are nets
    let _ = left.nets();
    let _ = right.nets();
    let ones = literals_at(alloc, left.outputs(), left_lits)?;
    let others = literals_by_name(alloc, left, left.outputs(), right, right_lits)?;
    let differences = fresh_differences(alloc, cnf, ones.as_slice(), others.as_slice())?;
    add_clause(alloc, cnf, differences.as_slice())
}
