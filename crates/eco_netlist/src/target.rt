//! Targets: the nets that nothing drives, in the order of the numbers in their names.

ghost use Rattle.std.specs.Prelude.{◌≡◌, ◌+◌, ◌≤◌, true, ℕ, List, length, slice_get, Some, IfOk, OnOk};
ghost use Rattle.std.specs.BTreeMap.{values};
ghost use Rattle.std.specs.List.{list_all};
ghost use Rattle.eco_meaning.specs.Names.{is_digit, number_of, is_target_text, target_number};
ghost use Rattle.std.specs.Str.{bytes_eq};
ghost use Rattle.std.specs.List.{IsDistinct};
ghost use Rattle.eco_netlist.specs.Netlists.{names_at, AreNets};
ghost use Rattle.eco_netlist.specs.Tallies.{is_free};
ghost use Rattle.eco_netlist.specs.Targets.{HasTargets, AreFree, AreCounts};

use crate::draft::TargetRule;
use crate::refusal_kind::is_free;
use crate::tally::Tally;
use eco_gates::NetId;
use eco_meaning::{Name, OutOfMemory};
use std::alloc::Global;
use std::collections::BTreeMap;

/// The number that at most nine decimal digits spell.
fn spelled_number(digits: &[u8]) -> u64
    requires few { length digits.now ≤ 9 }
    requires digits { list_all is_digit digits.now ≡ true }
    ensures { result ≡ number_of digits.now }
{
    let mut number = 0;
    for digit in digits {
        number = 10 * number + u64::from(*digit - b'0');
    }
    number
}

/// The number in a target's name.
fn target_number(name: &Name) -> u64
    requires { is_target_text name.now ≡ true }
    ensures { result ≡ target_number name.now }
{
    spelled_number(&name.bytes()[2..])
}

/// Notes the net with this number and name, where it is a target.
fn note_target(
    targets: &mut BTreeMap<u64, NetId>,
    rule: TargetRule,
    name: &Name,
    tally: Tally,
    number: u64,
) -> Result<(), OutOfMemory>
    ensures { OnOk result ((counts : List ℕ → Tally) (list : List (List ℕ)) → IsDistinct bytes_eq list → slice_get list number ≡ Some name.now
        → counts name.now ≡ tally → HasTargets (λ name. is_free rule name (counts name)) list number targets.old
        → HasTargets (λ name. is_free rule name (counts name)) list (number + 1) targets.new) }
{
    if is_free(rule, name, tally) {
        targets.insert(target_number(name), NetId(number))?;
        Ok(())
    } else {
        Ok(())
    }
}

/// The targets among these nets, by the numbers in the names.
fn target_map(
    alloc: Global,
    rule: TargetRule,
    names: &[Name],
    tallies: &[Tally],
    nets: &[NetId],
) -> Result<BTreeMap<u64, NetId>, OutOfMemory>
    requires nets { AreNets names.now nets.now }
    requires tallies { length tallies.now ≡ length names.now }
    ensures { IfOk result (λ targets. (counts : List ℕ → Tally) → IsDistinct bytes_eq (names_at names.now nets.now)
        → AreCounts names.now tallies.now counts
        → HasTargets (λ name. is_free rule name (counts name)) (names_at names.now nets.now) (length nets.now) targets) }
{
    let mut targets = BTreeMap::new(alloc);
    for (number, net) in nets.iter().enumerate() {
        let index = net.0 as usize;
        note_target(
            &mut targets,
            rule,
            &names[index],
            tallies[index],
            number as u64,
        )?;
    }
    Ok(targets)
}

/// The values of the map in order.
fn in_order(targets: &BTreeMap<u64, NetId>, alloc: Global) -> Result<Vec<NetId>, OutOfMemory>
    ensures { IfOk result (λ nets. nets.items ≡ values targets.now) }
{
    let nets = targets.values().copied().collect(alloc)?;
    Ok(nets)
}

/// The targets among these nets, in the order of the numbers in the names.
pub(crate) fn targets_of(
    alloc: Global,
    rule: TargetRule,
    names: &[Name],
    tallies: &[Tally],
    nets: &[NetId],
) -> Result<Vec<NetId>, OutOfMemory>
    requires nets { AreNets names.now nets.now }
    requires tallies { length tallies.now ≡ length names.now }
    ensures { IfOk result (λ targets. (counts : List ℕ → Tally) → IsDistinct bytes_eq (names_at names.now nets.now)
        → AreCounts names.now tallies.now counts
        → AreFree (λ name. is_free rule name (counts name)) (names_at names.now nets.now) targets.items) }
{
    let targets = target_map(alloc, rule, names, tallies, nets)?;
    in_order(&targets, alloc)
}
