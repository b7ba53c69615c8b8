//! What needs and bounds are judged by.

use eco_netlist::Netlist;
use eco_query::Problem;
use eco_report::Report;
use std::alloc::Global;

/// A report, the patch and the patched netlist that it goes with, and the problem.
#[derive(Clone, Copy)]
pub(crate) struct Solution<'a> {
    pub(crate) alloc: Global,
    pub(crate) problem: &'a Problem,
    pub(crate) patch: &'a Netlist,
    /// The implementation with the patch in it.
    pub(crate) out: &'a Netlist,
    pub(crate) report: &'a Report,
}
