//! Values of the later targets that help at an input.

ghost use Rattle.std.specs.Prelude.{◌≡◌, ◌≤◌, ◌+◌, Bool, List, IfOk, IfErr, drop, length};
ghost use Rattle.eco_trace.specs.Clauses.{valuation_of, read};
ghost use Rattle.eco_pose.specs.Stuck.{IsAnswered, IsUnfinished, NoneCompared};
ghost use Rattle.eco_pose.specs.declared.question.Question.TheVariants.{Fix as FixQuestion};
ghost use Rattle.eco_base.specs.Scenes.{IsStage, IsEngineAt};
ghost use Rattle.eco_base.specs.Asking.{IsFurther, IsRestBehind};

use crate::stage::Stage;
use crate::values::values_at;
use bumpalo::Bump;
use eco_desk::Engine;
use eco_meaning::{Bits, OutOfMemory};
use eco_pose::{Asked, Posed, Unfinished};
use eco_trace::{Model, Refuter};
use std::alloc::Global;

/// Values of the later targets with which the input is right, the target having the opposite of the bit, if there are any.
pub(crate) fn find_rest<R: Refuter>(
    stage: &Stage<'_>,
    engine: &mut Engine<'_, R>,
    input: &Bits,
    bit: bool,
) -> Result<Option<Bits>, Unfinished>
    requires stage { IsStage stage.now }
    requires engine { IsEngineAt stage.now engine.old }
    requires input { length input.now ≡ length stage.now.problem.now.implementation.inputs }
    ensures further { IfOk result (IsFurther stage.now input.now bit) }
    ensures unfinished { IfErr result (IsUnfinished engine.old.problem NoneCompared engine.old.limit) }
    ensures stays { engine.new ≡ engine.old }
{
    let targets = stage.problem.implementation().targets();
    let earlier = &targets[..stage.number as usize];
    let mut values = values_at(stage, engine.spliced(), input.as_slice(), earlier)?;
    values.push(!bit)?;
    let fixed = Bits::of(values);
    ask_rest(stage, engine, input, &fixed)
}

/// Values of the targets behind the fixed ones with which the input is right, if there are any.
fn ask_rest<R: Refuter>(
    stage: &Stage<'_>,
    engine: &mut Engine<'_, R>,
    input: &Bits,
    fixed: &Bits,
) -> Result<Option<Bits>, Unfinished>
    requires stage { IsStage stage.now }
    requires engine { IsEngineAt stage.now engine.old }
    requires input { length input.now ≡ length stage.now.problem.now.implementation.inputs }
    requires fixed { length fixed.now ≡ stage.now.number + 1 }
    ensures rest { IfOk result (IsRestBehind stage.now input.now fixed.now) }
    ensures unfinished { IfErr result (IsUnfinished engine.old.problem NoneCompared engine.old.limit) }
    ensures stays { engine.new ≡ engine.old }
{
    let arena = Bump::new(stage.alloc);
    let asked = engine.ask_fix(input, fixed, &arena)?;
    let rest = rest_of(stage, fixed, &asked);
    drop(asked);
    Ok(rest?)
}

/// What the answer to the question for targets' values at the input says of the rest behind the fixed ones.
fn rest_of(stage: &Stage<'_>, fixed: &Bits, asked: &Asked<'_>) -> Result<Option<Bits>, OutOfMemory>
    requires stage { IsStage stage.now }
    requires asked { (input : List Bool) × IsAnswered stage.now.problem.now (FixQuestion input fixed.now) asked.now }
    ensures { (input : List Bool) → IsAnswered stage.now.problem.now (FixQuestion input fixed.now) asked.now → IfOk result (IsRestBehind stage.now input fixed.now) }
{
    match asked {
        Asked::Never { trace, .. } => {
            let _ = trace.ends_empty();
            Ok(None)
        }
        Asked::Found { posed, model } => {
            let rest = rest_behind(stage.alloc, fixed.as_slice().len(), posed, model)?;
            Ok(Some(rest))
        }
    }
}

/// The values of the targets behind the first ones, as the model is read.
fn rest_behind(
    alloc: Global,
    count: usize,
    posed: &Posed,
    model: &Model,
) -> Result<Bits, OutOfMemory>
    requires model { posed.now.clauses.vars ≤ length model.now }
    requires count { count ≤ length (read (valuation_of model.now) posed.now.targets) }
    ensures { IfOk result (λ rest. rest ≡ drop count (read (valuation_of model.now) posed.now.targets)) }
{
    let bits = posed.target_values(model)?;
    let rest = Vec::from_slice(alloc, &bits.as_slice()[count..])?;
    Ok(Bits::of(rest))
}
