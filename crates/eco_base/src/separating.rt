//! What questions for two inputs are answered.

ghost use Rattle.std.specs.Prelude.{◌≤◌, IfOk, length};
ghost use Rattle.eco_base.specs.Asking.{IsPairRead};

use eco_meaning::{Bits, OutOfMemory};
use eco_pose::Posed;
use eco_trace::{Model, Trace};

/// A question for two inputs that has no answer: its clauses, and the proof that they have no model.
#[derive(Drop)]
pub(crate) struct Refutation<'t> {
    pub(crate) posed: Posed,
    pub(crate) trace: Trace<'t>,
}

/// Two inputs, of which the first forces the target to 1 and the second to 0.
#[derive(Drop)]
pub struct Pair {
    pub one: Bits,
    pub zero: Bits,
}

/// The two inputs as the model is read.
pub(crate) fn pair_of(posed: &Posed, model: &Model) -> Result<Pair, OutOfMemory>
    requires model { posed.now.clauses.vars ≤ length model.now }
    ensures { IfOk result (IsPairRead posed.now model.now) }
{
    let one = posed.input1(model)?;
    let zero = posed.input2(model)?;
    Ok(Pair { one, zero })
}
