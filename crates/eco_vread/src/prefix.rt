//! What the names of the nets begin with that assignments number.

ghost use Rattle.std.specs.Prelude.{◌≡◌, map, codes, option_map, if◌then◌else◌, Some, None, IfOk, IsTrue};
ghost use Rattle.std.specs.List.{list_all, list_any};
ghost use Rattle.eco_meaning.specs.Names.{is_printing};
ghost use Rattle.eco_text.specs.Prefix.{fresh_prefix_of};
ghost use Rattle.eco_tokens.specs.Ahead.{tokens_ahead};
ghost use Rattle.eco_tokens.specs.Said.{said_of, is_name_kind, name_text};
ghost use Rattle.eco_vread.specs.Grammar.{spelling};
ghost use Rattle.eco_vread.specs.Meaning.{names_said};
ghost use Rattle.eco_vread.specs.OwnGates.{is_assign, HasOwnGates};
ghost use Rattle.eco_vread.specs.Trees.{statement_of, file_of};

use crate::tree::{Item, Module};
use eco_netlist::OutOfMemory;
use eco_text::fresh_prefix;
use eco_tokens::{Lexeme, TokenKind, first_token};
use std::alloc::Global;

/// What the names begin with of nets that are numbered.
#[derive(Clone, Copy, Drop)]
pub(crate) struct Prefix<'a> {
    pub(crate) bytes: &'a [u8],
    ghost printing: { IsTrue (list_all is_printing bytes.now) },
}

/// What the names of the nets begin with that the file's assignments number. Where it has no assignments, nothing is
/// looked for, and the prefix is empty.
pub(crate) fn prefix_of(alloc: Global, bytes: &[u8], tree: &Module) -> Result<Vec<u8>, OutOfMemory>
    requires { tokens_ahead bytes.now ≡ spelling (file_of tree.now) }
    ensures gates { IfOk result (λ prefix. HasOwnGates prefix.items (file_of tree.now)) }
    ensures printing { IfOk result (λ prefix. IsTrue (list_all is_printing prefix.items)) }
{
    if has_assignments(tree.statements.as_slice()) {
        own_prefix(alloc, bytes)
    } else {
        Ok(Vec::new(alloc))
    }
}

/// Whether any of the statements assigns.
fn has_assignments(items: &[Item]) -> bool
    ensures { result ≡ list_any (λ i. is_assign (statement_of i)) items.now }
{
    items.iter().any(is_assign)
}

fn is_assign(item: &Item) -> bool
    ensures { result ≡ is_assign (statement_of item.now) }
{
    match item {
        Item::Assign(_) => true,
        _ => false,
    }
}

/// The shortest of `asg_`, `asg__` and so on with which no name of the text begins.
fn own_prefix(alloc: Global, bytes: &[u8]) -> Result<Vec<u8>, OutOfMemory>
    ensures value { IfOk result (λ prefix. prefix.items ≡ fresh_prefix_of (codes "asg") (names_said (tokens_ahead bytes.now))) }
    ensures printing { IfOk result (λ prefix. IsTrue (list_all is_printing prefix.items)) }
{
    let names = names_among(alloc, bytes)?;
    fresh_prefix(alloc, b"asg", names.as_slice())
}

/// The names among the tokens of a text.
fn names_among<'a>(alloc: Global, bytes: &'a [u8]) -> Result<Vec<&'a [u8]>, OutOfMemory>
    ensures { IfOk result (λ names. map (λ name. name.now) names.items ≡ names_said (tokens_ahead bytes.now)) }
{
    let mut names = Vec::new(alloc);
    let mut rest = bytes;
    while let Some((token, behind)) = first_token(rest) {
        if let Some(name) = name_of(&token) {
            names.push(name)?;
        }
        rest = behind;
    }
    Ok(names)
}

/// The name that a token is, an escaped identifier's without the backslash (IEEE 1364-2005, 3.7.1).
#[tactic(auto, unfolding(eco_tokens::specs::Said::name_of))]
fn name_of<'a>(lexeme: &Lexeme<'a>) -> Option<&'a [u8]>
    ensures { option_map (λ name. name.now) result
        ≡ (if is_name_kind lexeme.now.kind then Some (name_text (said_of lexeme.now)) else None) }
{
    match lexeme.kind {
        TokenKind::Simple => Some(lexeme.text),
        TokenKind::Escaped => match lexeme.text.split_first() {
            Some((_, name)) => Some(name),
            None => Some(lexeme.text),
        },
        _ => None,
    }
}
