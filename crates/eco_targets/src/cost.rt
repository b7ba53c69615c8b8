//! What the signals that a patch reads cost together.

ghost use Rattle.std.specs.Prelude.{◌≡◌, ◌<◌, ◌≤◌, ◌*◌, ◌^◌, length};
ghost use Rattle.eco_meaning.specs.Report.{cost_of as sum_of, base_in};
ghost use Rattle.eco_query.specs.declared.TheConstants.{MOST_NETS};

use eco_report::{BaseSignal, TargetGroup};

/// The sum of the weights of all groups' signals.
pub(crate) fn cost_of(groups: &[TargetGroup]) -> u64
    requires { length (base_in groups.now) ≤ MOST_NETS }
    ensures { result ≡ sum_of (base_in groups.now) }
{
    let mut cost = 0;
    for group in groups {
        cost += group_cost(group.base.as_slice());
    }
    cost
}

// The sum of the weights.
fn group_cost(base: &[BaseSignal]) -> u64
    requires { length base.now ≤ MOST_NETS }
    ensures cost { result ≡ sum_of base.now }
    ensures bound { result ≤ length base.now * MOST_NETS }
{
    let mut cost = 0;
    for signal in base {
        cost += widened(signal.weight);
    }
    cost
}

// The weight as a longer number.
fn widened(weight: u32) -> u64
    ensures value { result ≡ weight }
    ensures bound { result < 2 ^ 32 }
{
    u64::from(weight)
}
