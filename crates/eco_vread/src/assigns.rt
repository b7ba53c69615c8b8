//! Assignments.

ghost use Rattle.std.specs.Prelude.{◌≡◌, map, codes, if◌then◌else◌};
ghost use Rattle.eco_vread.specs.Trees.{left, assignment_of, Gives};
ghost use Rattle.eco_vread.specs.Fronts.{element_at, list_at};
ghost use Rattle.eco_vread.specs.Fronts.Step.{more, last};
ghost use Rattle.eco_vread.specs.Parse.{assignment_at};

use crate::assignment::Assignment;
use crate::cursor::Cursor;
use crate::error::ParseError;
use crate::expression::expression;
use std::alloc::Global;

/// An assignment of an expression to a net (IEEE 1364-2005, 6.1.3).
#[tactic(auto, unfolding(crate::specs::Parse::assignment_at))]
fn assignment<'a>(alloc: Global, at: Cursor<'a>) -> Result<(Assignment<'a>, Cursor<'a>), ParseError>
    ensures { Gives (λ found. (assignment_of found.0, left found.1)) result (assignment_at (left at.entry)) }
{
    let (name, behind) = at.name()?;
    let behind = behind.mark(b"=")?;
    let (value, next) = expression(alloc, behind)?;
    Ok((Assignment { name, value }, next))
}

/// An assignment of a list, and whether a comma is behind it, or the semicolon that ends the list.
#[tactic(auto, unfolding(crate::specs::Fronts::element_at))]
fn assignment_element<'a>(
    alloc: Global,
    at: Cursor<'a>,
) -> Result<(Assignment<'a>, bool, Cursor<'a>), ParseError>
    ensures { Gives
        (λ found. ((if found.1 then more (assignment_of found.0) else last (assignment_of found.0)), left found.2))
        result (element_at assignment_at (codes ";") (left at.entry)) }
{
    let (found, behind) = assignment(alloc, at)?;
    let (is_more, next) = behind.separator(b";")?;
    Ok((found, is_more, next))
}

/// Assignments with commas between, up to the semicolon.
pub(crate) fn assignments<'a>(
    alloc: Global,
    at: Cursor<'a>,
) -> Result<(Vec<Assignment<'a>>, Cursor<'a>), ParseError>
    ensures { Gives (λ found. (map assignment_of found.0.items, left found.1)) result
        (list_at assignment_at (codes ";") (left at.entry)) }
{
    let mut assignments = Vec::new(alloc);
    let mut here = at;
    loop {
        let (found, is_more, next) = assignment_element(alloc, here)?;
        assignments.push(found)?;
        if !is_more {
            return Ok((assignments, next));
        }
        here = next;
    }
}
