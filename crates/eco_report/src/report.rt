//! Reports as values.

use eco_meaning::{Bits, Name};
use std::marker::Model;

/// A signal that a patch reads, with its weight and two inputs that show that it is needed.
#[derive(Drop)]
pub struct BaseSignal {
    pub signal: Name,
    pub weight: u32,
    /// The input that forces the target to 1: one bit for each input of the implementation, in their order.
    pub force1: Bits,
    /// The input that forces the target to 0.
    pub force0: Bits,
}

/// A target, with the signals that its function adds to those of the targets before it.
#[derive(Drop)]
pub struct TargetGroup {
    pub target: Name,
    pub base: Vec<BaseSignal>,
}

/// Two inputs that every base has to tell apart, the first forcing the single target to 1 and the second to 0, and an amount
/// that this costs at least.
#[derive(Drop)]
pub struct Part {
    pub amount: u32,
    pub force1: Bits,
    pub force0: Bits,
}

/// What a base costs at least: the sum of the parts' amounts.
#[derive(Drop)]
pub struct Bound {
    pub total: u64,
    pub parts: Vec<Part>,
}

/// A target, and what the signals that its function adds to those of the targets before it cost at least, whichever they are.
#[derive(Drop)]
pub struct Least {
    pub target: Name,
    /// The sum of their weights is no less.
    pub cost: u64,
}

/// What is reported of a patch: the sum of the weights of the signals that it reads, the number of its gates, its targets in
/// order, perhaps what any base costs at least, and perhaps what each target's own signals do.
#[derive(Drop)]
pub struct Report {
    pub cost: u64,
    pub gates: u64,
    pub groups: Vec<TargetGroup>,
    pub bound: Option<Bound>,
    /// A line for each target in order, or none.
    pub least: Vec<Least>,
}

impl Model for BaseSignal {
    ghost use Rattle.eco_meaning.specs.Report.{BaseSignal as Meant};

    ghost Value = { Meant };

    ghost view = { λ b. record { signal = b.signal; weight = b.weight; force1 = b.force1; force0 = b.force0 } };
}

impl Model for TargetGroup {
    ghost use Rattle.eco_meaning.specs.Report.{TargetGroup as Meant};

    ghost Value = { Meant };

    ghost view = { λ g. record { target = g.target; base = g.base.items } };
}

impl Model for Part {
    ghost use Rattle.eco_meaning.specs.Bound.{Part as Meant};

    ghost Value = { Meant };

    ghost view = { λ part. record { amount = part.amount; force1 = part.force1; force0 = part.force0 } };
}

impl Model for Bound {
    ghost use Rattle.eco_meaning.specs.Bound.{Bound as Meant};

    ghost Value = { Meant };

    ghost view = { λ bound. record { total = bound.total; parts = bound.parts.items } };
}

impl Model for Least {
    ghost use Rattle.eco_meaning.specs.Report.{Least as Meant};

    ghost Value = { Meant };

    ghost view = { λ line. record { target = line.target; cost = line.cost } };
}

impl Model for Report {
    ghost use Rattle.eco_meaning.specs.Report.{PatchReport};

    ghost Value = { PatchReport };

    ghost view = { λ r. record { cost = r.cost; gates = r.gates; groups = r.groups.items; bound = r.bound; least = r.least.items } };
}
