//! Lists of the grammar, element by element.

ghost use Rattle.std.specs.Prelude.{map, codes, option_map, ◌∷◌, if◌then◌else◌};
ghost use Rattle.eco_vread.specs.Views.{identifier_of, identifiers_of, term_of};
ghost use Rattle.eco_vread.specs.Trees.{left, instance_of, Gives};
ghost use Rattle.eco_vread.specs.Fronts.{element_at, list_at, name_at, term_at, repeated};
ghost use Rattle.eco_vread.specs.Parse.{connection_at};
ghost use Rattle.eco_vread.specs.Fronts.Step.{more, last};

use crate::cursor::Cursor;
use crate::error::ParseError;
use crate::tree::{Ident, Inputs, Terminal};
use smallvec::SmallVec;
use std::alloc::Global;

/// A name of a list, and whether a comma is behind it, or the mark that ends the list.
#[tactic(auto, unfolding(crate::specs::Fronts::element_at))]
fn name_element<'a>(at: Cursor<'a>, end: &[u8]) -> Result<(Ident<'a>, bool, Cursor<'a>), ParseError>
    ensures { Gives
        (λ found. ((if found.1 then more (identifier_of found.0) else last (identifier_of found.0)), left found.2))
        result (element_at name_at end.now (left at.entry)) }
{
    let (name, behind) = at.name()?;
    let (is_more, next) = behind.separator(end)?;
    Ok((name, is_more, next))
}

/// Names with commas between, up to this mark.
pub(crate) fn names<'a>(
    alloc: Global,
    at: Cursor<'a>,
    end: &[u8],
) -> Result<(Vec<Ident<'a>>, Cursor<'a>), ParseError>
    ensures { Gives (λ found. (identifiers_of found.0.items, left found.1)) result
        (list_at name_at end.now (left at.entry)) }
{
    let mut names = Vec::new(alloc);
    let mut here = at;
    loop {
        let (name, is_more, next) = name_element(here, end)?;
        names.push(name)?;
        if !is_more {
            return Ok((names, next));
        }
        here = next;
    }
}

/// An input of a gate, and whether a comma is behind it, or the closing bracket.
#[tactic(auto, unfolding(crate::specs::Fronts::element_at))]
fn term_element<'a>(at: Cursor<'a>) -> Result<(Terminal<'a>, bool, Cursor<'a>), ParseError>
    ensures { Gives (λ found. ((if found.1 then more (term_of found.0) else last (term_of found.0)), left found.2))
        result (element_at term_at (codes ")") (left at.entry)) }
{
    let (term, behind) = at.term()?;
    let (is_more, next) = behind.separator(b")")?;
    Ok((term, is_more, next))
}

/// Inputs of a gate with commas between, up to the closing bracket.
pub(crate) fn terms<'a>(
    alloc: Global,
    at: Cursor<'a>,
) -> Result<(Inputs<'a>, Cursor<'a>), ParseError>
    ensures { Gives (λ found. (map term_of found.0.items, left found.1)) result
        (list_at term_at (codes ")") (left at.entry)) }
{
    let mut terms = SmallVec::new(alloc);
    let mut here = at;
    loop {
        let (term, is_more, next) = term_element(here)?;
        terms.push(term)?;
        if !is_more {
            return Ok((terms, next));
        }
        here = next;
    }
}
