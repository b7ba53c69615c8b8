//! The values of signals at an input, in the patched netlist.

ghost use Rattle.std.specs.Prelude.{◌≡◌, ◌≤◌, IfOk, false, length, map, take};
ghost use Rattle.std.specs.List.{slice_index_or};
ghost use Rattle.eco_meaning.specs.Circuit.{names};
ghost use Rattle.eco_meaning.specs.Report.{targets_in};
ghost use Rattle.eco_netlist.specs.Netlists.{bit_of};
ghost use Rattle.eco_audit.specs.Judging.{AreBitsOf, AreFilled, IsJudged, map_of};

use crate::solution::Solution;
use eco_meaning::{Bits, Name, OutOfMemory};
use eco_netlist::{NetId, Netlist};
use eco_report::TargetGroup;
use std::alloc::Global;

/// The values of all nets of the patched netlist at the input.
pub(crate) fn values_at(solution: &Solution<'_>, input: &Bits) -> Result<Vec<bool>, OutOfMemory>
    requires judged { IsJudged solution.now }
    requires input { length input.now ≡ length solution.now.problem.now.implementation.inputs }
    ensures { IfOk result (λ values. AreFilled solution.now input.now values.items) }
{
    let values = solution.out.values_at(input.as_slice())?;
    Ok(values)
}

/// The values of the targets before the one of this number.
pub(crate) fn target_values(
    solution: &Solution<'_>,
    number: usize,
    values: &[bool],
) -> Result<Vec<bool>, OutOfMemory>
    requires number { number ≤ length solution.now.report.now.groups }
    requires values { AreBitsOf solution.now.out.now values.now }
    ensures { IfOk result (λ bits. bits.items ≡ map (map_of solution.now values.now) (targets_in (take number solution.now.report.now.groups))) }
{
    let report = solution.report;
    let groups = report.groups.as_slice();
    target_bits(solution.alloc, solution.out, &groups[..number], values)
}

/// The values of the targets of these groups.
fn target_bits(
    alloc: Global,
    out: &Netlist,
    groups: &[TargetGroup],
    values: &[bool],
) -> Result<Vec<bool>, OutOfMemory>
    requires { AreBitsOf out.now values.now }
    ensures { IfOk result (λ bits. bits.items ≡ map (bit_of (names out.now) values.now) (targets_in groups.now)) }
{
    let mut bits = Vec::with_capacity(alloc, groups.len())?;
    for group in groups {
        bits.push(value_of(out, &group.target, values))?;
    }
    Ok(bits)
}

/// The value of the net of this name; 0 where there is none.
pub(crate) fn value_of(out: &Netlist, name: &Name, values: &[bool]) -> bool
    requires { AreBitsOf out.now values.now }
    ensures { result ≡ bit_of (names out.now) values.now name.now }
{
    match out.net_of(name) {
        None => false,
        Some(net) => bit_at(values, net),
    }
}

/// The bit at a net.
fn bit_at(values: &[bool], net: NetId) -> bool
    ensures { result ≡ slice_index_or values.now net.0 false }
{
    values.get(net.0 as usize).copied().unwrap_or(false)
}
