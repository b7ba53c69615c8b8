//! What may come next in a report's text.

use crate::file::ReportFile;
use crate::report::{Bound, Report, TargetGroup};
use eco_meaning::{Bits, Name};

/// A target of which base signals are still to come.
#[derive(Drop)]
pub(crate) struct Open {
    /// What stands before the target.
    pub(crate) report: Report,
    /// The target, with the base signals so far.
    pub(crate) group: TargetGroup,
    /// How many base signals are still to come.
    pub(crate) left: u64,
}

/// A bound of which parts are still to come.
#[derive(Drop)]
pub(crate) struct OpenBound {
    /// What stands before the bound.
    pub(crate) report: Report,
    /// The bound, with the parts so far.
    pub(crate) bound: Bound,
    /// How many parts are still to come.
    pub(crate) left: u64,
}

/// What was read so far, and with it what may come next.
#[derive(Drop)]
pub(crate) enum State {
    /// Nothing: the first line comes next.
    First,
    /// `unrectifiable`: the input comes next.
    Input,
    /// `patched`: the cost comes next.
    Cost,
    /// The cost: the number of gates comes next.
    Gates(u64),
    /// A report up to its targets: a target, the bound or what a target costs at least may come next.
    Target(Report),
    /// A part of a target: a base signal comes next.
    Base(Open),
    /// A base signal's name and weight: the input that forces the target to 1 comes next.
    Force1(Open, Name, u32),
    /// And that input: the one that forces the target to 0 comes next.
    Force0(Open, Name, u32, Bits),
    /// A part of a bound: an amount comes next.
    Parts(OpenBound),
    /// An amount: the input that forces the target to 1 comes next.
    PartForce1(OpenBound, u32),
    /// And that input: the one that forces the target to 0 comes next.
    PartForce0(OpenBound, u32, Bits),
    /// A report with what stands behind its targets: what a target costs at least may come next.
    Ending(Report),
    /// A text behind which nothing may come.
    Over(ReportFile),
}
