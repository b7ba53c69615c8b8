//! Gates: instances with what they are connected to.

ghost use Rattle.std.specs.Prelude.{◌≡◌, map, codes, option_map, true, false, ◌∷◌, ◌++◌, [], if◌then◌else◌};
ghost use Rattle.eco_vread.specs.Views.{identifier_of, identifiers_of, term_of};
ghost use Rattle.eco_vread.specs.Trees.{left, instance_of, Gives};
ghost use Rattle.eco_vread.specs.Grammar.{has_one_input};
ghost use Rattle.eco_vread.specs.Fronts.{element_at, list_at, name_at, term_at, repeated};
ghost use Rattle.eco_vread.specs.Parse.{connection_at, after_output, connections_from, connections_at, instance_at};
ghost use Rattle.eco_vread.specs.Fronts.Step.{more, last};
ghost use Rattle.eco_vread.specs.Connections.{step_of, driven_of, terminals_of};

use crate::cursor::Cursor;
use crate::error::ParseError;
use crate::lists::terms;
use crate::tree::{GateInstance, Ident, Inputs, Outputs, Terminal};
use eco_netlist::Kind;
use smallvec::SmallVec;
use std::alloc::Global;

/// What a terminal of an instance with one input is: an output, behind which a comma stands, or the input, behind
/// which the closing bracket stands.
#[derive(Clone, Copy, Drop)]
pub(crate) enum Connection<'a> {
    Output(Ident<'a>),
    Input(Terminal<'a>),
}

/// The outputs and the inputs of an instance.
#[derive(Drop)]
pub(crate) struct Terminals<'a> {
    pub(crate) outputs: Outputs<'a>,
    pub(crate) inputs: Inputs<'a>,
}

/// A terminal of an instance with one input.
#[tactic(auto, unfolding(crate::specs::Parse::connection_at))]
fn next_connection<'a>(at: Cursor<'a>) -> Result<(Connection<'a>, Cursor<'a>), ParseError>
    ensures { Gives (λ found. (step_of found.0, left found.1)) result (connection_at (left at.entry)) }
{
    let (term, behind) = at.term()?;
    let (is_more, next) = behind.separator(b")")?;
    if !is_more {
        return Ok((Connection::Input(term), next));
    }
    match term {
        Terminal::Net(output) => Ok((Connection::Output(output), next)),
        _ => Err(ParseError::Syntax { at: behind.place() }),
    }
}

/// Outputs behind the first one, each with a comma behind it, and then the input and the closing bracket.
fn with_one_input<'a>(
    alloc: Global,
    first: Ident<'a>,
    at: Cursor<'a>,
) -> Result<(Outputs<'a>, Terminal<'a>, Cursor<'a>), ParseError>
    ensures { Gives (λ found. driven_of found.0.items found.1 found.2) result
        (after_output (identifier_of first.entry) (repeated connection_at (left at.entry))) }
{
    let mut outputs = SmallVec::new(alloc);
    outputs.push(first)?;
    let mut here = at;
    loop {
        let (connection, next) = next_connection(here)?;
        here = next;
        match connection {
            Connection::Output(output) => outputs.push(output)?,
            Connection::Input(input) => return Ok((outputs, input, here)),
        }
    }
}

/// What an instance with one input is connected to, behind its first output.
#[tactic(auto, unfolding(crate::specs::Parse::connections_from))]
fn one_input<'a>(
    alloc: Global,
    first: Ident<'a>,
    at: Cursor<'a>,
) -> Result<(Terminals<'a>, Cursor<'a>), ParseError>
    ensures { Gives (λ found. (terminals_of found.0, left found.1)) result
        (connections_from true (identifier_of first.entry) (left at.entry)) }
{
    let (outputs, input, next) = with_one_input(alloc, first, at)?;
    let mut inputs = SmallVec::new(alloc);
    inputs.push(input)?;
    Ok((Terminals { outputs, inputs }, next))
}

/// What an instance with one output is connected to, behind that output.
#[tactic(auto, unfolding(crate::specs::Parse::connections_from))]
fn one_output<'a>(
    alloc: Global,
    first: Ident<'a>,
    at: Cursor<'a>,
) -> Result<(Terminals<'a>, Cursor<'a>), ParseError>
    ensures { Gives (λ found. (terminals_of found.0, left found.1)) result
        (connections_from false (identifier_of first.entry) (left at.entry)) }
{
    let mut outputs = SmallVec::new(alloc);
    outputs.push(first)?;
    let (inputs, next) = terms(alloc, at)?;
    Ok((Terminals { outputs, inputs }, next))
}

/// Whether instances of this kind have exactly one input and any number of outputs (IEEE 1364-2005, 7.3).
pub(crate) fn has_one_input(kind: Kind) -> bool
    ensures { result ≡ has_one_input kind }
{
    matches!(kind, Kind::Buf | Kind::Not)
}

/// What an instance is connected to, behind its first output.
fn connections_behind<'a>(
    alloc: Global,
    kind: Kind,
    first: Ident<'a>,
    at: Cursor<'a>,
) -> Result<(Terminals<'a>, Cursor<'a>), ParseError>
    ensures { Gives (λ found. (terminals_of found.0, left found.1)) result
        (connections_from (has_one_input kind) (identifier_of first.entry) (left at.entry)) }
{
    if has_one_input(kind) {
        one_input(alloc, first, at)
    } else {
        one_output(alloc, first, at)
    }
}

/// What an instance is connected to, behind its opening bracket.
#[tactic(auto, unfolding(crate::specs::Parse::connections_at))]
fn connections<'a>(
    alloc: Global,
    kind: Kind,
    at: Cursor<'a>,
) -> Result<(Terminals<'a>, Cursor<'a>), ParseError>
    ensures { Gives (λ found. (terminals_of found.0, left found.1)) result (connections_at kind (left at.entry)) }
{
    let (first, behind) = at.name()?;
    let next = behind.mark(b",")?;
    connections_behind(alloc, kind, first, next)
}

/// An instance of a gate of this kind (IEEE 1364-2005, 7.1).
#[tactic(auto, unfolding(crate::specs::Parse::instance_at))]
fn instance<'a>(
    alloc: Global,
    kind: Kind,
    at: Cursor<'a>,
) -> Result<(GateInstance<'a>, Cursor<'a>), ParseError>
    ensures { Gives (λ found. (instance_of found.0, left found.1)) result (instance_at kind (left at.entry)) }
{
    let (label, behind) = at.label();
    let inner = behind.mark(b"(")?;
    let (terminals, next) = connections(alloc, kind, inner)?;
    let Terminals { outputs, inputs } = terminals;
    Ok((
        GateInstance {
            label,
            outputs,
            inputs,
        },
        next,
    ))
}

/// An instance of a list, and whether a comma is behind it, or the semicolon that ends the list.
#[tactic(auto, unfolding(crate::specs::Fronts::element_at))]
fn instance_element<'a>(
    alloc: Global,
    kind: Kind,
    at: Cursor<'a>,
) -> Result<(GateInstance<'a>, bool, Cursor<'a>), ParseError>
    ensures { Gives
        (λ found. ((if found.1 then more (instance_of found.0) else last (instance_of found.0)), left found.2))
        result (element_at (instance_at kind) (codes ";") (left at.entry)) }
{
    let (found, behind) = instance(alloc, kind, at)?;
    let (is_more, next) = behind.separator(b";")?;
    Ok((found, is_more, next))
}

/// Instances with commas between, up to the semicolon.
pub(crate) fn instances<'a>(
    alloc: Global,
    kind: Kind,
    at: Cursor<'a>,
) -> Result<(Vec<GateInstance<'a>>, Cursor<'a>), ParseError>
    ensures { Gives (λ found. (map instance_of found.0.items, left found.1)) result
        (list_at (instance_at kind) (codes ";") (left at.entry)) }
{
    let mut instances = Vec::with_capacity(alloc, 1)?;
    let mut here = at;
    loop {
        let (found, is_more, next) = instance_element(alloc, kind, here)?;
        instances.push(found)?;
        if !is_more {
            return Ok((instances, next));
        }
        here = next;
    }
}
