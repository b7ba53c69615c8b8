//! The header of a module.

ghost use Rattle.std.specs.Prelude.{◌≡◌, map, option_map, codes, if◌then◌else◌};
ghost use Rattle.eco_vread.specs.Trees.{left, port_of, header_of, Gives};
ghost use Rattle.eco_vread.specs.Fronts.{element_at, list_at, mark_at};
ghost use Rattle.eco_vread.specs.Fronts.Step.{more, last};
ghost use Rattle.eco_vread.specs.Parse.{directed_port_at, plain_port_at, ports_at, ports_from, header_at};

use crate::cursor::Cursor;
use crate::error::ParseError;
use crate::tree::Port;
use std::alloc::Global;

/// A port of a header with directions (IEEE 1364-2005, 12.3.4).
#[tactic(auto, unfolding(crate::specs::Parse::directed_port_at))]
fn directed_port<'a>(at: Cursor<'a>) -> Result<(Port<'a>, Cursor<'a>), ParseError>
    ensures { Gives (λ found. (port_of found.0, left found.1)) result (directed_port_at (left at.entry)) }
{
    let (direction, behind) = at.direction();
    let (name, next) = behind.name()?;
    Ok((Port { direction, name }, next))
}

/// Such a port, and whether a comma is behind it, or the closing bracket.
#[tactic(auto, unfolding(crate::specs::Fronts::element_at))]
fn directed_element<'a>(at: Cursor<'a>) -> Result<(Port<'a>, bool, Cursor<'a>), ParseError>
    ensures { Gives (λ found. ((if found.1 then more (port_of found.0) else last (port_of found.0)), left found.2))
        result (element_at directed_port_at (codes ")") (left at.entry)) }
{
    let (port, behind) = directed_port(at)?;
    let (is_more, next) = behind.separator(b")")?;
    Ok((port, is_more, next))
}

/// Such ports with commas between, up to the closing bracket.
fn directed_ports<'a>(
    alloc: Global,
    at: Cursor<'a>,
) -> Result<(Vec<Port<'a>>, Cursor<'a>), ParseError>
    ensures { Gives (λ found. (map port_of found.0.items, left found.1)) result
        (list_at directed_port_at (codes ")") (left at.entry)) }
{
    let mut ports = Vec::new(alloc);
    let mut here = at;
    loop {
        let (port, is_more, next) = directed_element(here)?;
        ports.push(port)?;
        if !is_more {
            return Ok((ports, next));
        }
        here = next;
    }
}

/// A port of a header without directions (IEEE 1364-2005, 12.3.2).
#[tactic(auto, unfolding(crate::specs::Parse::plain_port_at))]
fn plain_port<'a>(at: Cursor<'a>) -> Result<(Port<'a>, Cursor<'a>), ParseError>
    ensures { Gives (λ found. (port_of found.0, left found.1)) result (plain_port_at (left at.entry)) }
{
    let (name, next) = at.name()?;
    Ok((
        Port {
            direction: None,
            name,
        },
        next,
    ))
}

/// Such a port, and whether a comma is behind it, or the closing bracket.
#[tactic(auto, unfolding(crate::specs::Fronts::element_at))]
fn plain_element<'a>(at: Cursor<'a>) -> Result<(Port<'a>, bool, Cursor<'a>), ParseError>
    ensures { Gives (λ found. ((if found.1 then more (port_of found.0) else last (port_of found.0)), left found.2))
        result (element_at plain_port_at (codes ")") (left at.entry)) }
{
    let (port, behind) = plain_port(at)?;
    let (is_more, next) = behind.separator(b")")?;
    Ok((port, is_more, next))
}

/// Such ports with commas between, up to the closing bracket.
fn plain_ports<'a>(alloc: Global, at: Cursor<'a>) -> Result<(Vec<Port<'a>>, Cursor<'a>), ParseError>
    ensures { Gives (λ found. (map port_of found.0.items, left found.1)) result
        (list_at plain_port_at (codes ")") (left at.entry)) }
{
    let mut ports = Vec::new(alloc);
    let mut here = at;
    loop {
        let (port, is_more, next) = plain_element(here)?;
        ports.push(port)?;
        if !is_more {
            return Ok((ports, next));
        }
        here = next;
    }
}

/// Ports up to the closing bracket: with directions where the first has one.
#[tactic(auto, unfolding(crate::specs::Parse::ports_at))]
fn ports<'a>(alloc: Global, at: Cursor<'a>) -> Result<(Vec<Port<'a>>, Cursor<'a>), ParseError>
    ensures { Gives (λ found. (map port_of found.0.items, left found.1)) result (ports_at (left at.entry)) }
{
    match at.direction() {
        (Some(_), _) => directed_ports(alloc, at),
        (None, _) => plain_ports(alloc, at),
    }
}

/// The ports in the header's brackets, behind the opening one.
fn bracketed<'a>(
    alloc: Global,
    at: Cursor<'a>,
) -> Result<(Option<Vec<Port<'a>>>, Cursor<'a>), ParseError>
    ensures { Gives (λ found. (header_of found.0, left found.1)) result
        (ports_from (left at.entry) (mark_at (codes ")") (left at.entry))) }
{
    match at.behind_mark(b")") {
        Some(next) => Ok((Some(Vec::new(alloc)), next)),
        None => {
            let (ports, next) = ports(alloc, at)?;
            Ok((Some(ports), next))
        }
    }
}

/// The header's ports, or None where there are no brackets (IEEE 1364-2005, 12.3.1).
#[tactic(auto, unfolding(crate::specs::Parse::header_at))]
pub(crate) fn header<'a>(
    alloc: Global,
    at: Cursor<'a>,
) -> Result<(Option<Vec<Port<'a>>>, Cursor<'a>), ParseError>
    ensures { Gives (λ found. (header_of found.0, left found.1)) result (header_at (left at.entry)) }
{
    match at.behind_mark(b"(") {
        Some(inner) => bracketed(alloc, inner),
        None => Ok((None, at)),
    }
}
