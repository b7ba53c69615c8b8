//! The values of nets, input by input.

ghost use Rattle.std.specs.Prelude.{◌≡◌, length};
ghost use Rattle.eco_meaning.specs.Circuit.{names};
ghost use Rattle.eco_netlist.specs.Netlists.{AreNets};

use crate::bits::has_bit;
use eco_netlist::{NetId, Netlist};
use eco_query::Problem;
use std::alloc::Global;
use std::process::Abort;

/// Gives the net the bit, where there is one.
fn set(values: &mut [bool], net: Option<NetId>, bit: bool)
    ensures { length values.new ≡ length values.old }
{
    if let Some(net) = net {
        set_at(values, net.0 as usize, bit);
    }
}

/// Puts the bit at the place, where there is one.
fn set_at(values: &mut [bool], place: usize, bit: bool)
    ensures { length values.new ≡ length values.old }
{
    if place < values.len() {
        values[place] = bit;
    }
}

/// The bit of the net; 0 where there is none.
pub fn value(values: &[bool], net: Option<NetId>) -> bool {
    match net {
        None => false,
        Some(net) => values.get(net.0 as usize).copied().unwrap_or(false),
    }
}

/// Gives the nets of `n` that have the names of these nets of `f` the bits of the number.
fn set_named(values: &mut [bool], n: &Netlist, f: &Netlist, nets: &[NetId], number: u64)
    requires { AreNets (names f.now) nets.now }
    ensures { length values.new ≡ length values.old }
{
    for (place, net) in nets.iter().enumerate() {
        set(
            values,
            n.net_of(f.name_of(*net)),
            has_bit(number, place as u64),
        );
    }
}

/// The values of the nets of `n`, where the inputs of `f` have the bits of the number `input`, and the targets of `n` those of
/// the number `row`.
pub fn filled(
    rt: &impl Abort,
    alloc: Global,
    n: &Netlist,
    f: &Netlist,
    input: u64,
    row: u64,
) -> Vec<bool> {
    let mut values = vec![in alloc; false; n.nets() as usize].expect(rt, "memory");
    set_named(values.as_mut_slice(), n, f, f.inputs(), input);
    set_named(values.as_mut_slice(), n, n, n.targets(), row);
    n.fill(values.as_mut_slice());
    values
}

/// Whether the outputs of `f` have the same values in both netlists.
fn outputs_agree(f: &Netlist, at_f: &[bool], g: &Netlist, at_g: &[bool]) -> bool {
    for net in f.outputs() {
        let other = g.net_of(f.name_of(*net));
        if value(at_f, Some(*net)) != value(at_g, other) {
            return false;
        }
    }
    true
}

/// Whether the two netlists have the same outputs at the input, where the targets of the first have the bits of the row.
pub fn are_alike(
    rt: &impl Abort,
    alloc: Global,
    f: &Netlist,
    g: &Netlist,
    input: u64,
    row: u64,
) -> bool {
    let at_f = filled(rt, alloc, f, f, input, row);
    let at_g = filled(rt, alloc, g, f, input, 0);
    outputs_agree(f, at_f.as_slice(), g, at_g.as_slice())
}

/// Whether the input is cared.
pub fn is_cared(rt: &impl Abort, alloc: Global, problem: &Problem, input: u64) -> bool {
    match problem.care() {
        None => true,
        Some(care) => {
            let values = filled(rt, alloc, care, problem.implementation(), input, 0);
            value(values.as_slice(), care.outputs().first().copied())
        }
    }
}

/// Whether the implementation is right at the input with this row of the targets' values.
pub fn is_right(rt: &impl Abort, alloc: Global, problem: &Problem, input: u64, row: u64) -> bool {
    let f = problem.implementation();
    are_alike(rt, alloc, f, problem.specification(), input, row)
        || !is_cared(rt, alloc, problem, input)
}
