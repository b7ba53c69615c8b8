//! Statements and whole files.

ghost use Rattle.std.specs.Prelude.{◌≡◌, map};
ghost use Rattle.eco_vread.specs.Views.{identifiers_of};
ghost use Rattle.eco_vread.specs.Trees.{left, statement_of, file_of, item_step, Gives};
ghost use Rattle.eco_vread.specs.Parse.{statement_at, statement_from, item_at, statements_at, file_at};
ghost use Rattle.eco_vread.specs.declared.words.Opening.TheVariants.{Input, Output, Wire, Gate, Assign};

use crate::assigns::assignments;
use crate::cursor::Cursor;
use crate::error::ParseError;
use crate::gates::instances;
use crate::header::header;
use crate::lists::names;
use crate::tree::{Item, Module};
use crate::words::Opening;
use eco_netlist::Kind;
use std::alloc::Global;

/// Declared inputs, behind the word `input` (IEEE 1364-2005, 12.3.3).
#[tactic(auto, unfolding(crate::specs::Parse::statement_from))]
fn inputs<'a>(alloc: Global, at: Cursor<'a>) -> Result<(Item<'a>, Cursor<'a>), ParseError>
    ensures { Gives (λ found. (statement_of found.0, left found.1)) result
        (statement_from Input (left at.entry)) }
{
    let (also_wire, behind) = at.wire();
    let (names, next) = names(alloc, behind, b";")?;
    Ok((Item::Input(also_wire, names), next))
}

/// Declared outputs, behind the word `output` (IEEE 1364-2005, 12.3.3).
#[tactic(auto, unfolding(crate::specs::Parse::statement_from))]
fn outputs<'a>(alloc: Global, at: Cursor<'a>) -> Result<(Item<'a>, Cursor<'a>), ParseError>
    ensures { Gives (λ found. (statement_of found.0, left found.1)) result
        (statement_from Output (left at.entry)) }
{
    let (also_wire, behind) = at.wire();
    let (names, next) = names(alloc, behind, b";")?;
    Ok((Item::Output(also_wire, names), next))
}

/// Declared wires, behind the word `wire` (IEEE 1364-2005, 4.2).
#[tactic(auto, unfolding(crate::specs::Parse::statement_from))]
fn wires<'a>(alloc: Global, at: Cursor<'a>) -> Result<(Item<'a>, Cursor<'a>), ParseError>
    ensures { Gives (λ found. (statement_of found.0, left found.1)) result
        (statement_from Wire (left at.entry)) }
{
    let (names, next) = names(alloc, at, b";")?;
    Ok((Item::Wire(names), next))
}

/// Gates, behind the word for their kind (IEEE 1364-2005, 7.1).
#[tactic(auto, unfolding(crate::specs::Parse::statement_from))]
fn gates<'a>(
    alloc: Global,
    kind: Kind,
    at: Cursor<'a>,
) -> Result<(Item<'a>, Cursor<'a>), ParseError>
    ensures { Gives (λ found. (statement_of found.0, left found.1)) result
        (statement_from (Gate kind) (left at.entry)) }
{
    let (instances, next) = instances(alloc, kind, at)?;
    Ok((Item::Gates(kind, instances), next))
}

/// Assignments, behind the word `assign` (IEEE 1364-2005, 6.1).
#[tactic(auto, unfolding(crate::specs::Parse::statement_from))]
fn assigns<'a>(alloc: Global, at: Cursor<'a>) -> Result<(Item<'a>, Cursor<'a>), ParseError>
    ensures { Gives (λ found. (statement_of found.0, left found.1)) result
        (statement_from Assign (left at.entry)) }
{
    let (assignments, next) = assignments(alloc, at)?;
    Ok((Item::Assign(assignments), next))
}

/// The rest of a statement, behind its first word.
fn statement_behind<'a>(
    alloc: Global,
    opening: Opening,
    at: Cursor<'a>,
) -> Result<(Item<'a>, Cursor<'a>), ParseError>
    ensures { Gives (λ found. (statement_of found.0, left found.1)) result
        (statement_from opening (left at.entry)) }
{
    match opening {
        Opening::Input => inputs(alloc, at),
        Opening::Output => outputs(alloc, at),
        Opening::Wire => wires(alloc, at),
        Opening::Gate(kind) => gates(alloc, kind, at),
        Opening::Assign => assigns(alloc, at),
    }
}

/// A statement.
#[tactic(auto, unfolding(crate::specs::Parse::statement_at))]
fn statement<'a>(alloc: Global, at: Cursor<'a>) -> Result<(Item<'a>, Cursor<'a>), ParseError>
    ensures { Gives (λ found. (statement_of found.0, left found.1)) result (statement_at (left at.entry)) }
{
    let (opening, behind) = at.opening()?;
    statement_behind(alloc, opening, behind)
}

/// A statement, or None behind the word that ends the module.
#[tactic(auto, unfolding(crate::specs::Parse::item_at))]
fn item<'a>(alloc: Global, at: Cursor<'a>) -> Result<(Option<Item<'a>>, Cursor<'a>), ParseError>
    ensures { Gives (λ found. (item_step found.0, left found.1)) result (item_at (left at.entry)) }
{
    match at.behind_word(b"endmodule") {
        Some(next) => Ok((None, next)),
        None => {
            let (found, next) = statement(alloc, at)?;
            Ok((Some(found), next))
        }
    }
}

/// The statements up to the end of the module.
fn statements<'a>(alloc: Global, at: Cursor<'a>) -> Result<(Vec<Item<'a>>, Cursor<'a>), ParseError>
    ensures { Gives (λ found. (map statement_of found.0.items, left found.1)) result (statements_at (left at.entry)) }
{
    let mut statements = Vec::new(alloc);
    let mut here = at;
    loop {
        let (found, next) = item(alloc, here)?;
        match found {
            Some(statement) => statements.push(statement)?,
            None => return Ok((statements, next)),
        }
        here = next;
    }
}

/// A whole file, with nothing behind it (IEEE 1364-2005, 12.1).
#[tactic(auto, unfolding(crate::specs::Parse::file_at))]
pub(crate) fn file<'a>(alloc: Global, at: Cursor<'a>) -> Result<Module<'a>, ParseError>
    ensures { Gives file_of result (file_at (left at.entry)) }
{
    let behind = at.word(b"module")?;
    let (title, behind) = behind.name()?;
    let (header, behind) = header(alloc, behind)?;
    let behind = behind.mark(b";")?;
    let (statements, behind) = statements(alloc, behind)?;
    match behind.first() {
        None => Ok(Module {
            title,
            header,
            statements,
        }),
        Some(_) => Err(ParseError::Syntax { at: behind.place() }),
    }
}
