//! The clauses of gates.

ghost use Rattle.std.specs.Prelude.{◌≡◌, ◌≤◌, List, ℕ, length, map, All, IfOk, OnOk};
ghost use Rattle.eco_gates.specs.Gates.{IsTermBelow, IsGateWithin, IsWithin};
ghost use Rattle.eco_netlist.specs.Netlists.{named_gate};
ghost use Rattle.eco_trace.specs.declared.clause.Lit.{Lit as Literal};
ghost use Rattle.eco_trace.specs.Clauses.{IsVarWithin};
ghost use Rattle.eco_clauses.specs.Gates.{with_kind, with_gates};
ghost use Rattle.eco_clauses.specs.Numbers.{term_literal, out_literal};

use crate::clauses::{add_conjunction, add_disjunction, add_parity};
use eco_gates::{Gate, Term};
use eco_meaning::{Kind, OutOfMemory};
use eco_trace::{Cnf, Lit, Var};
use std::alloc::Global;

/// The literal of what a gate's input reads, where the nets have these literals.
pub fn term_literal(term: Term, lits: &[Lit]) -> Lit
    requires { IsTermBelow (length lits.now) term }
    ensures { result ≡ term_literal lits.now term }
{
    match term {
        Term::Zero => Lit {
            var: Var(1),
            positive: false,
        },
        Term::One => Lit {
            var: Var(1),
            positive: true,
        },
        Term::Net(net) => lits[net.0 as usize],
    }
}

/// The literals of a gate's inputs.
pub fn term_literals(alloc: Global, terms: &[Term], lits: &[Lit]) -> Result<Vec<Lit>, OutOfMemory>
    requires { All (IsTermBelow (length lits.now)) terms.now }
    ensures { IfOk result (λ ins. ins.items ≡ map (term_literal lits.now) terms.now) }
{
    let mut ins = Vec::with_capacity(alloc, terms.len())?;
    for term in terms {
        ins.push(term_literal(*term, lits))?;
    }
    Ok(ins)
}

/// Adds the clauses that say that `out` is what a gate of this kind gives of the literals.
pub fn add_kind(
    alloc: Global,
    cnf: &mut Cnf,
    kind: Kind,
    out: Lit,
    ins: &[Lit],
) -> Result<(), OutOfMemory>
    requires out { IsVarWithin cnf.old.vars out }
    requires ins { All (IsVarWithin cnf.old.vars) ins.now }
    ensures { OnOk result (cnf.new ≡ with_kind cnf.old kind out ins.now) }
{
    match kind {
        Kind::And | Kind::Buf => add_conjunction(alloc, cnf, out, ins),
        Kind::Nand | Kind::Not => add_conjunction(alloc, cnf, out.complement(), ins),
        Kind::Or => add_disjunction(alloc, cnf, out, ins),
        Kind::Nor => add_disjunction(alloc, cnf, out.complement(), ins),
        Kind::Xor => add_parity(alloc, cnf, out, ins),
        Kind::Xnor => add_parity(alloc, cnf, out.complement(), ins),
    }
}

/// Adds the clauses of a gate, where the nets have these literals.
fn add_gate(alloc: Global, cnf: &mut Cnf, gate: &Gate, lits: &[Lit]) -> Result<(), OutOfMemory>
    requires constant { 1 ≤ cnf.old.vars }
    requires literals { All (IsVarWithin cnf.old.vars) lits.now }
    requires within { IsGateWithin (length lits.now) gate.now }
    ensures { OnOk result (cnf.new ≡ with_kind cnf.old gate.now.kind (out_literal lits.now gate.now) (map (term_literal lits.now) gate.now.ins)) }
{
    let ins = term_literals(alloc, gate.ins.as_slice(), lits)?;
    let out = lits[gate.out.0 as usize];
    add_kind(alloc, cnf, gate.kind, out, ins.as_slice())
}

/// Adds the clauses of the gates, in order, where the nets have these literals.
pub fn add_gates(
    alloc: Global,
    cnf: &mut Cnf,
    gates: &[Gate],
    lits: &[Lit],
) -> Result<(), OutOfMemory>
    requires constant { 1 ≤ cnf.old.vars }
    requires literals { All (IsVarWithin cnf.old.vars) lits.now }
    requires within { IsWithin (length lits.now) gates.now }
    ensures gates { (list : List (List ℕ)) (literal : List ℕ → Literal) → lits.now ≡ map literal list →
        OnOk result (cnf.new ≡ with_gates literal cnf.old (map (named_gate list) gates.now)) }
    ensures more { OnOk result (cnf.old.vars ≤ cnf.new.vars) }
{
    for gate in gates {
        add_gate(alloc, cnf, gate, lits)?;
    }
    Ok(())
}
