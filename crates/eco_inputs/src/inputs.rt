//! The files that `synth` and `audit` have alike, and the problem that they are.

ghost use Rattle.std.specs.Prelude.{IfErr, IfOk};
ghost use Rattle.std.specs.Option.{ForSome};
ghost use Rattle.eco_outside.specs.Store.{ReadKeeps, StoreView};
ghost use Rattle.eco_words.specs.CommandLine.{problem_options_of};
ghost use Rattle.eco_query.specs.Problem.{HasFewNets, IsClosed};
ghost use Rattle.eco_inputs.specs.declared.error.InputError.TheVariants.{InNetlist, InWeights};
ghost use Rattle.eco_inputs.specs.declared.paths.FileOption.TheVariants.{Care, Implementation, Specification};
ghost use Rattle.eco_inputs.specs.Inputs.{AreFit, IsProblemOf, care_row, implementation_row, input_rows, long_input, pair_row, specification_row, weight_row};
ghost use Rattle.eco_inputs.specs.Reading.{Ends, Halts, IsPassed};
ghost use Rattle.eco_inputs.specs.Rows.{named_row};

use crate::MOST_BYTES;
use crate::error::{InputError, of_pair};
use crate::halt::Halt;
use crate::kinds::{NetlistFile, WeightFile, closed_netlist, specification};
use crate::paths::FileOption;
use crate::reading::{joined, read_file};
use eco_netlist::{Netlist, TargetRule};
use eco_outside::Store;
use eco_query::{Problem, pair};
use eco_weight::Weights;
use eco_words::ProblemFiles;
use std::alloc::Global;

/// What the files of a problem give.
#[derive(Drop)]
pub struct Inputs {
    pub implementation: Netlist,
    pub specification: Netlist,
    pub weights: Weights,
    pub care: Option<Netlist>,
}

/// Reads the implementation, the specification, the weights and the cared netlist, in this order.
pub fn inputs_of<'a, S: Store>(
    alloc: Global,
    files: &ProblemFiles<'a>,
    store: &mut S,
) -> Result<Inputs, Halt<'a, InputError>>
    ensures keeps { ReadKeeps (S.view store.old) (S.view store.new) }
    ensures fit { IfOk result AreFit }
    ensures ok { IfOk result (IsPassed (input_rows (problem_options_of files.now)) (S.view store.old) (S.view store.new)) }
    ensures err { IfErr result (Halts (long_input (problem_options_of files.now)) (input_rows (problem_options_of files.now)) (S.view store.old) (S.view store.new)) }
{
    let implementation = implementation_of(alloc, files, store)?;
    let netlists = joined(implementation, specification_of(alloc, files, store))?;
    let weighted = joined(netlists, weights_of(alloc, files, store))?;
    let read = joined(weighted, care_of(alloc, files, store))?;
    let (((implementation, specification), weights), care) = read;
    Ok(Inputs {
        implementation,
        specification,
        weights,
        care,
    })
}

/// Reads the implementation.
fn implementation_of<'a, S: Store>(
    alloc: Global,
    files: &ProblemFiles<'a>,
    store: &mut S,
) -> Result<Netlist, Halt<'a, InputError>>
    ensures keeps { ReadKeeps (S.view store.old) (S.view store.new) }
    ensures few_nets { IfOk result HasFewNets }
    ensures ok { IfOk result (IsPassed (named_row (InNetlist Implementation) (implementation_row (problem_options_of files.now))) (S.view store.old) (S.view store.new)) }
    ensures err { IfErr result (Halts (long_input (problem_options_of files.now)) (named_row (InNetlist Implementation) (implementation_row (problem_options_of files.now))) (S.view store.old) (S.view store.new)) }
{
    let kind = NetlistFile {
        rule: TargetRule::Allowed,
    };
    match read_file(alloc, store, &kind, files.implementation, MOST_BYTES) {
        Ok(implementation) => Ok(implementation),
        Err(halt) => {
            Err(halt.map(|error| InputError::InNetlist(FileOption::Implementation, error)))
        }
    }
}

/// Reads the specification.
fn specification_of<'a, S: Store>(
    alloc: Global,
    files: &ProblemFiles<'a>,
    store: &mut S,
) -> Result<Netlist, Halt<'a, InputError>>
    ensures keeps { ReadKeeps (S.view store.old) (S.view store.new) }
    ensures closed { IfOk result IsClosed }
    ensures ok { IfOk result (IsPassed (named_row (InNetlist Specification) (specification_row (problem_options_of files.now))) (S.view store.old) (S.view store.new)) }
    ensures err { IfErr result (Halts (long_input (problem_options_of files.now)) (named_row (InNetlist Specification) (specification_row (problem_options_of files.now))) (S.view store.old) (S.view store.new)) }
{
    match specification(alloc, store, files.specification, MOST_BYTES) {
        Ok(specification) => Ok(specification),
        Err(halt) => Err(halt.map(|error| InputError::InNetlist(FileOption::Specification, error))),
    }
}

/// Reads the weights.
fn weights_of<'a, S: Store>(
    alloc: Global,
    files: &ProblemFiles<'a>,
    store: &mut S,
) -> Result<Weights, Halt<'a, InputError>>
    ensures keeps { ReadKeeps (S.view store.old) (S.view store.new) }
    ensures ok { IfOk result (IsPassed (named_row InWeights (weight_row (problem_options_of files.now))) (S.view store.old) (S.view store.new)) }
    ensures err { IfErr result (Halts (long_input (problem_options_of files.now)) (named_row InWeights (weight_row (problem_options_of files.now))) (S.view store.old) (S.view store.new)) }
{
    match read_file(alloc, store, &WeightFile, files.weight, MOST_BYTES) {
        Ok(weights) => Ok(weights),
        Err(halt) => Err(halt.map(InputError::InWeights)),
    }
}

/// Reads the cared netlist, if the words name a file of one.
fn care_of<'a, S: Store>(
    alloc: Global,
    files: &ProblemFiles<'a>,
    store: &mut S,
) -> Result<Option<Netlist>, Halt<'a, InputError>>
    ensures keeps { ReadKeeps (S.view store.old) (S.view store.new) }
    ensures closed { IfOk result (λ care. ForSome care IsClosed) }
    ensures ok { IfOk result (IsPassed (named_row (InNetlist Care) (care_row (problem_options_of files.now))) (S.view store.old) (S.view store.new)) }
    ensures err { IfErr result (Halts (long_input (problem_options_of files.now)) (named_row (InNetlist Care) (care_row (problem_options_of files.now))) (S.view store.old) (S.view store.new)) }
{
    match files.care {
        Some(path) => match closed_netlist(alloc, store, path, MOST_BYTES) {
            Ok(care) => Ok(Some(care)),
            Err(halt) => Err(halt.map(|error| InputError::InNetlist(FileOption::Care, error))),
        },
        None => Ok(None),
    }
}

/// The problem of what was read.
pub fn paired<'a>(files: &ProblemFiles<'a>, inputs: Inputs) -> Result<Problem, Halt<'a, InputError>>
    requires fit { AreFit inputs }
    ensures { (store : StoreView) → Ends (long_input (problem_options_of files.now))
        (pair_row (problem_options_of files.now) inputs) IsProblemOf store store result }
{
    match pair(
        inputs.implementation,
        inputs.specification,
        inputs.care,
        inputs.weights,
        files.input_weight,
    ) {
        Ok(problem) => Ok(problem),
        Err(error) => Err(of_pair(error)),
    }
}
