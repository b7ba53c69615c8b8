//! Changes from texts, and what is found of their nets.

ghost use Rattle.std.specs.Prelude.{◌≤◌, IsTrue};
ghost use Rattle.std.specs.Option.{ForSome};
ghost use Rattle.eco_query.specs.Problem.{IsClosed};
ghost use Rattle.eco_change.specs.Change.{HasRoom};

use eco_cdcl::Watched;
use eco_change::{Change, change_of};
use eco_equality::is_closed;
use eco_locate::{Answer, Excluding, Located, locate};
use eco_netlist::{NetId, Netlist, TargetRule};
use std::alloc::Global;
use std::process::Abort;

/// A netlist, what it is to do from now on, and the names of its nets that can be cut for that and of those that can't.
#[derive(Clone, Copy)]
pub struct Case<'a> {
    pub old: &'a str,
    pub new: &'a str,
    pub care: Option<&'a str>,
    pub listed: &'a [&'a str],
    pub excluded: &'a [&'a str],
}

/// How many clauses a question may learn.
const LIMIT: u64 = 1_000;

/// The netlist of the text, which has no target.
fn closed(rt: &impl Abort, alloc: Global, text: &str) -> Netlist
    ensures { IsClosed result }
{
    let netlist = eco_vread::read(alloc, text.as_bytes(), TargetRule::Allowed).expect(
        rt,
        "a netlist",
    );
    assert!(rt; is_closed(&netlist));
    netlist
}

/// The netlist of the text, which has no target, if there is a text.
fn closed_if_some(rt: &impl Abort, alloc: Global, text: Option<&str>) -> Option<Netlist>
    ensures { ForSome result IsClosed }
{
    match text {
        None => None,
        Some(text) => Some(closed(rt, alloc, text)),
    }
}

/// Whether the netlist has room for a net that is cut.
fn has_room(netlist: &Netlist) -> bool
    ensures { IsTrue result → HasRoom netlist.now }
{
    netlist.nets() <= 1_000
}

/// The change of these texts.
pub fn change(rt: &impl Abort, alloc: Global, case: Case<'_>) -> Change {
    let old = closed(rt, alloc, case.old);
    assert!(rt; has_room(&old));
    let new = closed(rt, alloc, case.new);
    let care = closed_if_some(rt, alloc, case.care);
    change_of(old, new, care).expect(rt, "a change")
}

/// What is found of the change, if the search doesn't give up.
pub fn answer(alloc: Global, change: &Change) -> Option<Answer> {
    answer_within(alloc, change, LIMIT)
}

/// The same by questions that learn so many clauses at most.
pub fn answer_within(alloc: Global, change: &Change, limit: u64) -> Option<Answer>
    requires { 1 ≤ limit }
{
    let mut search = Watched::new();
    match locate(alloc, change, &mut search, limit) {
        Ok(answer) => Some(answer),
        Err(error) => {
            drop(error);
            None
        }
    }
}

/// Whether the net has one of these names.
fn is_named(rt: &impl Abort, netlist: &Netlist, net: NetId, names: &[&str]) -> bool {
    assert!(rt; net.0 < netlist.nets());
    let bytes = netlist.name_of(net).bytes();
    for name in names {
        if name.as_bytes() == bytes {
            return true;
        }
    }
    false
}

/// All of these nets have one of these names.
fn expect_named(rt: &impl Abort, netlist: &Netlist, nets: &[NetId], names: &[&str]) {
    for net in nets {
        assert!(rt; is_named(rt, netlist, *net, names));
    }
}

/// How many nets the inputs exclude, each of which has one of these names.
fn expect_excluded(
    rt: &impl Abort,
    netlist: &Netlist,
    excluding: &[Excluding],
    names: &[&str],
) -> usize {
    let mut count: usize = 0;
    for input in excluding {
        expect_named(rt, netlist, input.nets.as_slice(), names);
        count = count.saturating_add(input.nets.len());
    }
    count
}

/// Just these nets are listed, and just those are excluded.
pub fn expect_located(rt: &impl Abort, netlist: &Netlist, located: &Located, case: Case<'_>) {
    assert!(rt; located.over.is_empty());
    expect_choices(rt, netlist, located, case);
}

/// Nets are left over, each with a question that has just so many learnt clauses; they and those that are listed are just these, and
/// just those are excluded.
pub fn expect_given_up(
    rt: &impl Abort,
    netlist: &Netlist,
    located: &Located,
    case: Case<'_>,
    limit: u64,
) {
    assert!(rt; !located.over.is_empty());
    for open in &located.over {
        assert!(rt; is_named(rt, netlist, open.net, case.listed));
        let trace = &open.stuck.trace;
        assert_eq!(rt; trace.len().saturating_sub(trace.originals()), limit);
    }
    expect_choices(rt, netlist, located, case);
}

/// Just these nets are listed or left over, and just those are excluded.
fn expect_choices(rt: &impl Abort, netlist: &Netlist, located: &Located, case: Case<'_>) {
    let open = located.over.len();
    assert_eq!(rt;
        located.listed.len().saturating_add(open),
        case.listed.len()
    );
    expect_named(rt, netlist, located.listed.as_slice(), case.listed);
    let excluding = located.excluding.as_slice();
    let excluded = expect_excluded(rt, netlist, excluding, case.excluded);
    assert_eq!(rt; excluded, case.excluded.len());
}
