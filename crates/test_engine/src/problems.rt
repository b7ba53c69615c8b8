//! Drawn problems.

ghost use Rattle.std.specs.Prelude.{◌≡◌};
ghost use Rattle.std.specs.Option.{ForSome};
ghost use Rattle.eco_query.specs.Problem.{IsClosed, goal_of};

use crate::draws::{below, seeded};
use crate::netlists::{Shape, draw_shape, gate_name, netlist};
use eco_equality::is_closed;
use eco_netlist::Netlist;
use eco_query::{MOST_NETS, Problem, pair};
use eco_weight::{Weights, read};
use std::alloc::Global;
use std::process::Abort;

/// The netlist, which has no target.
pub fn closed(rt: &impl Abort, netlist: Netlist) -> Netlist
    ensures closed { IsClosed result }
    ensures same { result ≡ netlist }
{
    assert!(rt; is_closed(&netlist));
    netlist
}

/// The shape of the problem of this seed.
pub fn drawn_shape(seed: u64) -> Shape {
    draw_shape(&mut seeded(seed))
}

/// The netlist of this seed, where gates drive the nets with the names of targets, and one gate may be changed.
pub fn closed_netlist(
    rt: &impl Abort,
    alloc: Global,
    seed: u64,
    shape: Shape,
    changed: u64,
) -> Netlist
    ensures { IsClosed result }
{
    let shape = Shape {
        is_closed: true,
        changed,
        ..shape
    };
    closed(rt, netlist(rt, alloc, &mut seeded(seed), shape))
}

/// The specification of the problem of this seed: in three of four it has the implementation's gates, one of which may be
/// changed.
fn specification(rt: &impl Abort, alloc: Global, seed: u64, shape: Shape) -> Netlist
    ensures { IsClosed result }
{
    let other = if seed % 4 == 3 {
        seed.wrapping_add(1000)
    } else {
        seed
    };
    let changed = below(&mut seeded(seed), shape.gates.wrapping_add(2));
    closed_netlist(rt, alloc, other, shape, changed)
}

/// The cared netlist of the problem of this seed, a gate; every second problem has one.
fn care(rt: &impl Abort, alloc: Global, seed: u64, shape: Shape) -> Option<Netlist>
    ensures { ForSome result IsClosed }
{
    if seed % 2 == 0 {
        return None;
    }
    let shape = Shape {
        targets: 0,
        gates: 1,
        outputs: 1,
        ..shape
    };
    let care = closed_netlist(rt, alloc, seed.wrapping_add(2000), shape, u64::MAX);
    Some(care)
}

/// The lines by which what each gate drives costs 1.
fn weight_lines(rt: &impl Abort, alloc: Global, shape: Shape) -> Vec<u8> {
    let mut lines = Vec::new(alloc);
    for gate in 0..shape.gates {
        let driven = gate_name(rt, alloc, shape, gate);
        lines.extend_from_slice(driven.bytes()).expect(rt, "memory");
        lines.extend_from_slice(b" 1\n").expect(rt, "memory");
    }
    lines
}

/// Weights by which what each gate drives costs 1.
fn weights(rt: &impl Abort, alloc: Global, shape: Shape) -> Weights {
    let lines = weight_lines(rt, alloc, shape);
    read(alloc, lines.as_slice()).expect(rt, "weights")
}

/// The problem of these netlists, where each input costs 1.
pub fn paired(
    rt: &impl Abort,
    implementation: Netlist,
    specification: Netlist,
    care: Option<Netlist>,
    weights: Weights,
) -> Problem
    requires closed { IsClosed specification }
    requires care_closed { ForSome care IsClosed }
    ensures implementation { result.implementation ≡ implementation }
    ensures goal { result.goal ≡ goal_of specification care }
{
    assert!(rt; implementation.nets() <= MOST_NETS);
    pair(implementation, specification, care, weights, 1).expect(rt, "a problem")
}

/// The problem of this seed, where each signal costs 1.
pub fn problem(rt: &impl Abort, alloc: Global, seed: u64) -> Problem {
    let shape = drawn_shape(seed);
    let implementation = netlist(rt, alloc, &mut seeded(seed), shape);
    let specification = specification(rt, alloc, seed, shape);
    let care = care(rt, alloc, seed, shape);
    let weights = weights(rt, alloc, shape);
    paired(rt, implementation, specification, care, weights)
}
