//! The files of a change, and the change that they are.

ghost use Rattle.std.specs.Prelude.{IfErr, IfOk};
ghost use Rattle.std.specs.Option.{ForSome};
ghost use Rattle.eco_outside.specs.Store.{ReadKeeps, StoreView};
ghost use Rattle.eco_words.specs.CommandLine.{ChangeOptions, change_options_of};
ghost use Rattle.eco_query.specs.Problem.{IsClosed};
ghost use Rattle.eco_change.specs.Change.{HasRoom};
ghost use Rattle.eco_inputs.specs.declared.error.InputError.TheVariants.{InNetlist};
ghost use Rattle.eco_inputs.specs.declared.paths.FileOption.TheVariants.{Care, Implementation, Specification};
ghost use Rattle.eco_inputs.specs.Changes.{AreChangeable, IsChangeOf, cared_row, change_rows, fit_row, long_change, old_row, wanted_row};
ghost use Rattle.eco_inputs.specs.Reading.{Ends, Halts, IsPassed};
ghost use Rattle.eco_inputs.specs.Rows.{named_row};

use crate::MOST_BYTES;
use crate::error::{InputError, of_pair};
use crate::halt::Halt;
use crate::kinds::{closed_netlist, specification};
use crate::paths::FileOption;
use crate::reading::joined;
use eco_change::{Change, change_of};
use eco_netlist::Netlist;
use eco_outside::Store;
use eco_words::ChangeFiles;
use std::alloc::Global;

/// What the files of a change give.
#[derive(Drop)]
pub struct ChangeInputs {
    /// The netlist that is to be changed.
    pub old: Netlist,
    pub specification: Netlist,
    pub care: Option<Netlist>,
}

/// Reads the netlist that is to be changed, the specification and the cared netlist, in this order.
pub fn change_inputs_of<'a, S: Store>(
    alloc: Global,
    files: &ChangeFiles<'a>,
    store: &mut S,
) -> Result<ChangeInputs, Halt<'a, InputError>>
    ensures keeps { ReadKeeps (S.view store.old) (S.view store.new) }
    ensures fit { IfOk result AreChangeable }
    ensures ok { IfOk result (IsPassed (change_rows (change_options_of files.now)) (S.view store.old) (S.view store.new)) }
    ensures err { IfErr result (Halts (long_change (change_options_of files.now)) (change_rows (change_options_of files.now)) (S.view store.old) (S.view store.new)) }
{
    let old = old_of(alloc, files, store)?;
    let netlists = joined(old, wanted_of(alloc, files, store))?;
    let read = joined(netlists, cared_of(alloc, files, store))?;
    let ((old, specification), care) = read;
    Ok(ChangeInputs {
        old,
        specification,
        care,
    })
}

/// Reads the netlist that is to be changed.
fn old_of<'a, S: Store>(
    alloc: Global,
    files: &ChangeFiles<'a>,
    store: &mut S,
) -> Result<Netlist, Halt<'a, InputError>>
    ensures keeps { ReadKeeps (S.view store.old) (S.view store.new) }
    ensures closed { IfOk result IsClosed }
    ensures room { IfOk result HasRoom }
    ensures ok { IfOk result (IsPassed (named_row (InNetlist Implementation) (old_row (change_options_of files.now))) (S.view store.old) (S.view store.new)) }
    ensures err { IfErr result (Halts (long_change (change_options_of files.now)) (named_row (InNetlist Implementation) (old_row (change_options_of files.now))) (S.view store.old) (S.view store.new)) }
{
    match closed_netlist(alloc, store, files.implementation, MOST_BYTES) {
        Ok(old) => Ok(old),
        Err(halt) => {
            Err(halt.map(|error| InputError::InNetlist(FileOption::Implementation, error)))
        }
    }
}

/// Reads the specification.
fn wanted_of<'a, S: Store>(
    alloc: Global,
    files: &ChangeFiles<'a>,
    store: &mut S,
) -> Result<Netlist, Halt<'a, InputError>>
    ensures keeps { ReadKeeps (S.view store.old) (S.view store.new) }
    ensures closed { IfOk result IsClosed }
    ensures ok { IfOk result (IsPassed (named_row (InNetlist Specification) (wanted_row (change_options_of files.now))) (S.view store.old) (S.view store.new)) }
    ensures err { IfErr result (Halts (long_change (change_options_of files.now)) (named_row (InNetlist Specification) (wanted_row (change_options_of files.now))) (S.view store.old) (S.view store.new)) }
{
    match specification(alloc, store, files.specification, MOST_BYTES) {
        Ok(specification) => Ok(specification),
        Err(halt) => Err(halt.map(|error| InputError::InNetlist(FileOption::Specification, error))),
    }
}

/// Reads the cared netlist, if the words name a file of one.
fn cared_of<'a, S: Store>(
    alloc: Global,
    files: &ChangeFiles<'a>,
    store: &mut S,
) -> Result<Option<Netlist>, Halt<'a, InputError>>
    ensures keeps { ReadKeeps (S.view store.old) (S.view store.new) }
    ensures closed { IfOk result (λ care. ForSome care IsClosed) }
    ensures ok { IfOk result (IsPassed (named_row (InNetlist Care) (cared_row (change_options_of files.now))) (S.view store.old) (S.view store.new)) }
    ensures err { IfErr result (Halts (long_change (change_options_of files.now)) (named_row (InNetlist Care) (cared_row (change_options_of files.now))) (S.view store.old) (S.view store.new)) }
{
    match files.care {
        Some(path) => match closed_netlist(alloc, store, path, MOST_BYTES) {
            Ok(care) => Ok(Some(care)),
            Err(halt) => Err(halt.map(|error| InputError::InNetlist(FileOption::Care, error))),
        },
        None => Ok(None),
    }
}

/// The change of what was read.
pub fn changed<'a>(inputs: ChangeInputs) -> Result<Change, Halt<'a, InputError>>
    requires fit { AreChangeable inputs }
    ensures { (options : ChangeOptions) (store : StoreView) → Ends (long_change options) (fit_row inputs) IsChangeOf store store result }
{
    match change_of(inputs.old, inputs.specification, inputs.care) {
        Ok(change) => Ok(change),
        Err(error) => Err(of_pair(error)),
    }
}
