//! Which gates no gate reads.

ghost use Rattle.std.specs.Prelude.{◌≡◌, ◌==◌, ◌||◌, ℕ, ◌+◌, ◌<◌, false, length, IfOk};
ghost use Rattle.std.specs.List.{slice_index_or};
ghost use Rattle.eco_gen.specs.declared.TheConstants.{INPUTS};
ghost use Rattle.eco_gen.specs.Drawn.{is_read, unread_gates};

use crate::INPUTS;
use crate::draws::Draws;
use eco_meaning::OutOfMemory;
use std::alloc::Global;

/// Marks the gate whose output the signal is, if it is one.
fn mark(marks: &mut Vec<bool>, signal: u64)
    requires { signal < INPUTS + length marks.old.items }
    ensures len { length marks.new.items ≡ length marks.old.items }
    ensures marked { (gate : ℕ) → gate < length marks.old.items →
        slice_index_or marks.new.items gate false ≡ (slice_index_or marks.old.items gate false || signal == INPUTS + gate) }
{
    if signal >= INPUTS {
        marks[(signal - INPUTS) as usize] = true;
    }
}

/// For each gate whether a gate reads its output.
#[tactic(auto, using(crate::proofs::Reading::reading))]
fn marks_of(alloc: Global, draws: &Draws) -> Result<Vec<bool>, OutOfMemory>
    ensures len { IfOk result (λ marks. length marks.items ≡ draws.now.size) }
    ensures marked { IfOk result (λ marks. (gate : ℕ) → gate < draws.now.size →
        slice_index_or marks.items gate false ≡ is_read draws.now.seed draws.now.size gate) }
{
    let mut marks = vec![in alloc; false; draws.size as usize]?;
    for gate in 0..draws.size {
        mark(&mut marks, draws.first(gate));
        mark(&mut marks, draws.second(gate));
    }
    Ok(marks)
}

/// The gates whose outputs no gate reads.
#[tactic(auto, using(crate::proofs::Reading::reading), unfolding(crate::specs::Drawn::unread_gates))]
pub(crate) fn unread_gates(alloc: Global, draws: &Draws) -> Result<Vec<u64>, OutOfMemory>
    ensures { IfOk result (λ gates. gates.items ≡ unread_gates draws.now.seed draws.now.size) }
{
    let marks = marks_of(alloc, draws)?;
    let mut gates = Vec::new(alloc);
    for gate in 0..draws.size {
        if !marks[gate as usize] {
            gates.push(gate)?;
        }
    }
    Ok(gates)
}
