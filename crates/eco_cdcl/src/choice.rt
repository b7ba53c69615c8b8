//! What is decided next: the literal that a guide asks for, or else the open variable of the highest activity, with the
//! value that it had last.

ghost use Rattle.std.specs.Prelude.{MatchOption, IsTrue};
ghost use Rattle.eco_learn.specs.Trails.{IsOpenVar, IsWhole};

use crate::guide::Advice;
use eco_learn::{Order, Trail, Truth};
use eco_trace::{Lit, Var};

/// Whether the guide asks for a restart, and something was decided.
pub fn is_restart(advice: Advice, trail: &Trail) -> bool {
    match advice {
        Advice::Decide(_) => false,
        Advice::Restart => trail.level() > 0,
        Advice::Nothing => false,
    }
}

/// A literal of which nothing is known, the guide's where it asks for one; None exactly where there is none.
pub fn choose(order: &mut Order, phases: &[bool], trail: &Trail, advice: Advice) -> Option<Lit>
    ensures { MatchOption result (IsWhole trail.now.vars trail.now.lits) (λ lit. IsOpenVar trail.now.vars trail.now.lits lit.var) }
{
    if let Advice::Decide(lit) = advice
        && is_open(trail, lit.var)
    {
        return Some(lit);
    }
    let var = pick(order, trail)?;
    let positive = phase_of(phases, var);
    Some(Lit { var, positive })
}

/// A variable of which nothing is known; None exactly where there is none.
fn pick(order: &mut Order, trail: &Trail) -> Option<Var>
    ensures { MatchOption result (IsWhole trail.now.vars trail.now.lits) (IsOpenVar trail.now.vars trail.now.lits) }
{
    for _turn in 0..trail.vars() {
        match order.next() {
            None => return trail.open(),
            Some(var) => {
                if is_open(trail, var) {
                    return Some(var);
                }
            }
        }
    }
    trail.open()
}

/// Whether it is one of the trail's variables, and nothing is known of it.
fn is_open(trail: &Trail, var: Var) -> bool
    ensures { IsTrue result → IsOpenVar trail.now.vars trail.now.lits var }
{
    if var.0 == 0 || var.0 > trail.vars() {
        return false;
    }
    match trail.truth(Lit {
        var,
        positive: true,
    }) {
        Truth::True => false,
        Truth::False => false,
        Truth::Open => true,
    }
}

/// The value that the variable had last; false where it had none.
fn phase_of(phases: &[bool], var: Var) -> bool {
    match phases.get(var.0 as usize) {
        None => false,
        Some(phase) => *phase,
    }
}

/// The variables of the levels above this one are about to have no value: they may be decided again, and what they were
/// is kept.
pub fn release(order: &mut Order, phases: &mut [bool], trail: &Trail, level: usize) {
    let end = trail.end(level);
    let lits = trail.lits();
    for lit in &lits[end..] {
        let place = lit.var.0 as usize;
        if place < phases.len() {
            phases[place] = lit.positive;
        }
        order.put(lit.var);
    }
}

/// The variables of these literals, to which learning came, were active.
pub fn reward(order: &mut Order, found: &[Lit]) {
    for lit in found {
        order.raise(lit.var);
    }
    order.fade();
}
