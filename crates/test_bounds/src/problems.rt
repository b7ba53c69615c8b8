//! Problems from texts.

ghost use Rattle.std.specs.Option.{ForSome};
ghost use Rattle.eco_query.specs.Problem.{IsClosed};

use eco_equality::is_closed;
use eco_netlist::{Netlist, TargetRule};
use eco_query::{MOST_NETS, Problem, pair};
use std::alloc::Global;
use std::process::Abort;

/// The texts of a problem.
#[derive(Clone, Copy)]
pub struct Texts<'a> {
    pub implementation: &'a [u8],
    pub specification: &'a [u8],
    pub care: Option<&'a [u8]>,
    pub weights: &'a [u8],
}

/// The netlist of the text, which has no target.
fn closed(rt: &impl Abort, alloc: Global, text: &[u8]) -> Netlist
    ensures { IsClosed result }
{
    let netlist = eco_vread::read(alloc, text, TargetRule::Allowed).expect(rt, "a netlist");
    assert!(rt; is_closed(&netlist));
    netlist
}

/// The netlist of the text, which has no target, if there is a text.
fn closed_if_some(rt: &impl Abort, alloc: Global, text: Option<&[u8]>) -> Option<Netlist>
    ensures { ForSome result IsClosed }
{
    match text {
        None => None,
        Some(text) => Some(closed(rt, alloc, text)),
    }
}

/// The problem of these texts, in which an input without a line costs 7.
pub fn problem(rt: &impl Abort, alloc: Global, texts: Texts<'_>) -> Problem {
    let implementation = eco_vread::read(alloc, texts.implementation, TargetRule::Allowed).expect(
        rt,
        "a netlist",
    );
    assert!(rt; implementation.nets() <= MOST_NETS);
    let specification = closed(rt, alloc, texts.specification);
    let care = closed_if_some(rt, alloc, texts.care);
    let weights = eco_weight::read(alloc, texts.weights).expect(rt, "weights");
    pair(implementation, specification, care, weights, 7).expect(rt, "a problem")
}
