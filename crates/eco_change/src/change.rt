//! Changes, and why netlists are none.

use eco_netlist::Netlist;
use eco_query::{PairError, fit};
use std::marker::Model;

/// A netlist without targets, a specification that has the same ports and no target, and perhaps a netlist that tells which
/// inputs are cared. The old netlist has room for sixteen nets that are cut.
#[derive(Drop)]
pub struct Change {
    old: Netlist,
    specification: Netlist,
    care: Option<Netlist>,
}

impl Model for Change {
    ghost use Rattle.eco_query.specs.Problem.{goal_of};
    ghost use Rattle.eco_change.specs.Change.{ChangeValue, IsChange};

    ghost Value = { ChangeValue };

    ghost view = { λ change. record {
      old = change.old;
      goal = goal_of change.specification change.care;
    } };

    ghost invariant = { λ change. IsChange change.old (goal_of change.specification change.care) };
}

impl Change {
    ghost use Rattle.std.specs.Prelude.{◌≡◌};
    ghost use Rattle.std.specs.Option.{option_copied};
    ghost use Rattle.eco_change.specs.Change.{IsChange};

    /// The netlist that is to be changed.
    pub fn old(&self) -> &Netlist
        ensures value { result.now ≡ self.now.old }
        ensures change { IsChange self.now.old self.now.goal }
    {
        &self.old
    }

    /// The netlist that says what the outputs are to be.
    pub fn specification(&self) -> &Netlist
        ensures value { result.now ≡ self.now.goal.spec }
        ensures change { IsChange self.now.old self.now.goal }
    {
        &self.specification
    }

    /// The netlist that tells which inputs are cared, if there is one: those on which its output is 1.
    pub fn care(&self) -> Option<&Netlist>
        ensures value { option_copied result ≡ self.now.goal.care }
        ensures change { IsChange self.now.old self.now.goal }
    {
        self.care.as_ref()
    }
}

ghost use Rattle.std.specs.Prelude.{◌≡◌, MatchResult};
ghost use Rattle.std.specs.Option.{ForSome};
ghost use Rattle.eco_query.specs.Problem.{goal_of, IsClosed};
ghost use Rattle.eco_query.specs.Pairing.{IsMisfit};
ghost use Rattle.eco_change.specs.Change.{HasRoom};

/// The change of the netlist `old` that the specification asks for, unless a row of `PairError` stands. The inputs that matter
/// are those on which the cared netlist has the output 1; without one, all do.
///
/// # Errors
///
/// The first row of `PairError` that stands; never one of targets.
pub fn change_of(
    old: Netlist,
    specification: Netlist,
    care: Option<Netlist>,
) -> Result<Change, PairError>
    requires old_closed { IsClosed old }
    requires closed { IsClosed specification }
    requires care_closed { ForSome care IsClosed }
    requires room { HasRoom old }
    ensures { MatchResult result (λ change. change ≡ record { old = old; goal = goal_of specification care })
        (IsMisfit old specification care) }
{
    // they are checked
    let _ = (old.nets(), specification.nets());
    match fit(&old, &specification, care.as_ref()) {
        Ok(()) => Ok(Change {
            old,
            specification,
            care,
        }),
        Err(error) => {
            drop(old);
            drop(specification);
            drop(care);
            Err(error)
        }
    }
}
