//! Whether each variable is defined once, and each that is used is defined.

ghost use Rattle.std.specs.Prelude.{◌≡◌, ◌++◌, [], map, IfOk, IfErr, OnOk, MatchOption};
ghost use Rattle.std.specs.List.{flat_map};
ghost use Rattle.eco_aiger.specs.Defined.{variable_of, right_side, defined_in, used_in, is_twice, is_missing, IsLeast, NeverPasses, IsDefinedOnce, IsDefined};
ghost use Rattle.eco_aiger.specs.Parts.{file_of};
ghost use Rattle.eco_aiger.specs.Judging.{lesser, is_unknown, least_unknown, RefusesUse};
ghost use Rattle.eco_aiger.specs.Texts.{RefusesFile};

use crate::error::AigerError;
use crate::sets::set_of;
use crate::tree::{AndLine, Tree};
use eco_keyed::Keyed;
use eco_netlist::OutOfMemory;
use indexmap::IndexSet;
use std::alloc::Global;

/// The lesser of two numbers, where there is a first one.
fn lesser(least: Option<u64>, number: u64) -> Option<u64>
    ensures { result ≡ lesser least number }
{
    match least {
        Some(other) => {
            if other <= number {
                Some(other)
            } else {
                Some(number)
            }
        }
        None => Some(number),
    }
}

/// The variables of literals.
fn variables(alloc: Global, literals: &[u64]) -> Result<Vec<u64>, OutOfMemory>
    ensures { IfOk result (λ list. list.items ≡ map variable_of literals.now) }
{
    let mut list = Vec::new(alloc);
    for literal in literals {
        list.push(*literal / 2)?;
    }
    Ok(list)
}

/// Adds the variables of left sides.
fn add_left_sides(list: &mut Vec<u64>, ands: &[AndLine]) -> Result<(), OutOfMemory>
    ensures { OnOk result (list.new.items ≡ list.old.items ++ map (λ a. variable_of a.left) ands.now) }
{
    for and in ands {
        list.push(and.left / 2)?;
    }
    Ok(())
}

/// Adds the variables of right sides.
fn add_right_sides(list: &mut Vec<u64>, ands: &[AndLine]) -> Result<(), OutOfMemory>
    ensures { OnOk result (list.new.items ≡ list.old.items ++ flat_map right_side ands.now) }
{
    for and in ands {
        list.push(and.first / 2)?;
        list.push(and.second / 2)?;
    }
    Ok(())
}

/// The variables that a file defines.
fn defined_in(alloc: Global, tree: &Tree) -> Result<Vec<u64>, OutOfMemory>
    ensures { IfOk result (λ list. list.items ≡ defined_in (file_of tree.now)) }
{
    let mut list = variables(alloc, tree.inputs.as_slice())?;
    add_left_sides(&mut list, tree.ands.as_slice())?;
    Ok(list)
}

/// The variables that a file uses.
fn used_in(alloc: Global, tree: &Tree) -> Result<Vec<u64>, OutOfMemory>
    ensures { IfOk result (λ list. list.items ≡ used_in (file_of tree.now)) }
{
    let mut list = variables(alloc, tree.outputs.as_slice())?;
    add_right_sides(&mut list, tree.ands.as_slice())?;
    Ok(list)
}

/// The least variable that stands twice in a list, where none was seen; all are then.
fn seen_twice(seen: &mut IndexSet<u64, Keyed>, list: &[u64]) -> Result<Option<u64>, OutOfMemory>
    requires { seen.old.keys ≡ [] }
    ensures { IfOk result (λ least. MatchOption least (NeverPasses (is_twice list.now)) (IsLeast (is_twice list.now))) }
{
    let mut least = None;
    for variable in list {
        if !seen.insert(*variable)? {
            least = lesser(least, *variable);
        }
    }
    Ok(least)
}

/// The least variable that stands twice in a list.
fn twice(alloc: Global, keyed: Keyed, list: &[u64]) -> Result<Option<u64>, OutOfMemory>
    ensures { IfOk result (λ least. MatchOption least (NeverPasses (is_twice list.now)) (IsLeast (is_twice list.now))) }
{
    let mut seen = IndexSet::with_hasher(alloc, keyed);
    let least = seen_twice(&mut seen, list);
    drop(seen);
    least
}

/// Whether a variable is none of the constant and of a set.
fn is_unknown(known: &IndexSet<u64, Keyed>, variable: u64) -> bool
    ensures { result ≡ is_unknown known.now.keys variable }
{
    variable != 0 && !known.contains(&variable)
}

/// The least variable of a list that is none of the constant and of a set.
fn unknown(known: &IndexSet<u64, Keyed>, used: &[u64]) -> Option<u64>
    ensures { result ≡ least_unknown known.now.keys used.now }
{
    let mut least = None;
    for variable in used {
        if is_unknown(known, *variable) {
            least = lesser(least, *variable);
        }
    }
    least
}

/// The least variable that is used, and neither defined nor the constant.
fn missing(
    alloc: Global,
    keyed: Keyed,
    defined: &[u64],
    used: &[u64],
) -> Result<Option<u64>, OutOfMemory>
    ensures { IfOk result (λ least. MatchOption least
        (NeverPasses (is_missing defined.now used.now)) (IsLeast (is_missing defined.now used.now))) }
{
    let known = set_of(alloc, keyed, defined)?;
    let least = unknown(&known, used);
    drop(known);
    Ok(least)
}

/// Refuses a file that uses a variable beside these, which it defines.
fn judge_uses(alloc: Global, tree: &Tree, defined: &[u64]) -> Result<(), AigerError>
    requires { defined.now ≡ defined_in (file_of tree.now) }
    ensures all { OnOk result (IsDefined (file_of tree.now)) }
    ensures err { IfErr result (RefusesUse (file_of tree.now)) }
{
    let used = used_in(alloc, tree)?;
    match missing(alloc, tree.keyed, defined, used.as_slice())? {
        Some(variable) => Err(AigerError::Undefined(variable)),
        None => Ok(()),
    }
}

/// Refuses a file that defines a variable twice, or uses one that it doesn't define.
pub(crate) fn judge(alloc: Global, tree: &Tree) -> Result<(), AigerError>
    ensures once { OnOk result (IsDefinedOnce (file_of tree.now)) }
    ensures all { OnOk result (IsDefined (file_of tree.now)) }
    ensures err { IfErr result (RefusesFile (file_of tree.now)) }
{
    let defined = defined_in(alloc, tree)?;
    match twice(alloc, tree.keyed, defined.as_slice())? {
        Some(variable) => Err(AigerError::DefinedTwice(variable)),
        None => judge_uses(alloc, tree, defined.as_slice()),
    }
}
