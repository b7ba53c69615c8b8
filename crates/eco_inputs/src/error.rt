//! Why files are no problem.

ghost use Rattle.std.specs.Prelude.{◌≡◌};
ghost use Rattle.eco_inputs.specs.Inputs.{stop_of_pair};

use crate::halt::{FileError, Halt};
use crate::kinds::{NetlistError, WeightTextError};
use crate::paths::FileOption;
use eco_netlist::Name;
use eco_query::PairError;

/// Why netlists are no problem.
#[derive(Drop)]
pub enum PairMismatch {
    /// A port of one netlist alone, or an input of one and an output of the other.
    PortsDiffer(Name),
    /// An input of the implementation alone, or of the cared netlist alone.
    CareInputs(Name),
    /// The cared netlist has this many outputs, which is not one.
    CareOutputs(u64),
    /// The implementation has no target.
    NoTarget,
    /// The implementation has this many targets, more than are taken.
    TooManyTargets(u64),
}

/// Why files are no problem.
#[derive(Drop)]
pub enum InputError {
    /// The file gives no netlist.
    InNetlist(FileOption, FileError<NetlistError>),
    /// The weight file gives no weights.
    InWeights(FileError<WeightTextError>),
    /// The netlists are no problem.
    Unpaired(PairMismatch),
}

/// The halt of a problem, where the netlists are none.
pub fn of_pair<'a>(error: PairError) -> Halt<'a, InputError>
    ensures { result ≡ stop_of_pair error }
{
    match error {
        PairError::PortsDiffer(name) => Halt::For(InputError::Unpaired(PairMismatch::PortsDiffer(
            name,
        ))),
        PairError::CareInputs(name) => {
            Halt::For(InputError::Unpaired(PairMismatch::CareInputs(name)))
        }
        PairError::CareOutputs(count) => {
            Halt::For(InputError::Unpaired(PairMismatch::CareOutputs(count)))
        }
        PairError::NoTarget => Halt::For(InputError::Unpaired(PairMismatch::NoTarget)),
        PairError::TooManyTargets(count) => {
            Halt::For(InputError::Unpaired(PairMismatch::TooManyTargets(count)))
        }
        PairError::OutOfMemory => Halt::OutOfMemory,
    }
}
