//! The fan-out of nets.

ghost use Rattle.std.specs.Prelude.{◌≡◌, ◌<◌, ◌↔◌, ◌||◌, ℕ, IfOk, All, Contains, Some, length, slice_get, slice_index_or, true, false};
ghost use Rattle.std.specs.List.{list_any};
ghost use Rattle.eco_gates.specs.declared.gate.NetId.{NetId};
ghost use Rattle.eco_gates.specs.Gates.{IsWithin};
ghost use Rattle.eco_gates.specs.Ordering.{IsOrder};
ghost use Rattle.eco_gates.specs.Reach.{FanNet, AreMarked, is_marked};

use crate::gate::{Gate, NetId, Term};
use eco_meaning::OutOfMemory;
use std::alloc::Global;

/// One bit for each net: whether the net is in the fan-out of the nets `from`. For no nets all bits are false.
pub fn fan_out(
    alloc: Global,
    gates: &[Gate],
    order: &[u64],
    nets: usize,
    from: &[NetId],
) -> Result<Vec<bool>, OutOfMemory>
    requires within { IsWithin nets gates.now }
    requires order { IsOrder gates.now order.now }
    requires sources { All (λ net. net.0 < nets) from.now }
    ensures length { IfOk result (λ marks. length marks.items ≡ nets) }
    ensures fan_out { IfOk result (λ marks. (net : NetId) →
        (slice_get marks.items net.0 ≡ Some true) ↔ FanNet gates.now from.now net) }
{
    let mut marks = marks_of(alloc, nets, from)?;
    for number in order {
        let gate = &gates[*number as usize];
        let mark = mark_after(gate, marks.as_slice());
        marks[gate.out.0 as usize] = mark;
    }
    Ok(marks)
}

/// One bit for each net: whether the net is one of these.
fn marks_of(alloc: Global, nets: usize, from: &[NetId]) -> Result<Vec<bool>, OutOfMemory>
    requires { All (λ net. net.0 < nets) from.now }
    ensures marked { IfOk result (λ marks. AreMarked nets from.now (length from.now) marks.items) }
{
    let mut marks = vec![in alloc; false; nets]?;
    for net in from {
        marks[net.0 as usize] = true;
    }
    Ok(marks)
}

/// Whether the output of the gate is marked, or a net that the gate reads.
fn mark_after(gate: &Gate, marks: &[bool]) -> bool
    requires { gate.now.out.0 < length marks.now }
    ensures { result ≡ (slice_index_or marks.now gate.now.out.0 false || list_any (is_marked marks.now) gate.now.ins) }
{
    marks[gate.out.0 as usize] || has_mark(gate.ins.as_slice(), marks)
}

fn has_mark(terms: &[Term], marks: &[bool]) -> bool
    ensures { result ≡ list_any (is_marked marks.now) terms.now }
{
    terms.iter().any(|term| mark_of(*term, marks))
}

fn mark_of(term: Term, marks: &[bool]) -> bool
    ensures { result ≡ is_marked marks.now term }
{
    match term {
        Term::Zero | Term::One => false,
        Term::Net(net) => marks.get(net.0 as usize).copied().unwrap_or(false),
    }
}
