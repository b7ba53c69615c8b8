//! From lines to the syntax tree.

ghost use Rattle.std.specs.Prelude.{◌≡◌, ◌≤◌, List, ℕ, ◌∷◌, map, IfOk, IfErr};
ghost use Rattle.eco_aiger.specs.declared.tree.Header.{Header as Head};
ghost use Rattle.eco_aiger.specs.Syntax.{File};
ghost use Rattle.eco_aiger.specs.Grammar.{limit};
ghost use Rattle.eco_aiger.specs.Parts.{file_of, IsBody, AreLines, IfUnread};

use crate::error::Unread;
use crate::literals::read_header;
use crate::sections::{and_section, fault_at, literal_section, symbol_section};
use crate::tree::{Header, Tree};
use eco_keyed::Keyed;
use std::alloc::Global;

/// How many lines stand before the rest of those behind the header.
fn lines_before(all: usize, rest: usize) -> u64 {
    (all.saturating_sub(rest) as u64).saturating_add(1)
}

/// The file of a header and of the lines behind it.
fn body<'a>(
    alloc: Global,
    keyed: Keyed,
    header: Header,
    lines: &[&'a [u8]],
) -> Result<Tree<'a>, Unread>
    requires inputs_small { header.inputs ≤ limit }
    requires outputs_small { header.outputs ≤ limit }
    ensures ok { IfOk result (λ tree. IsBody header (map (λ line. line.now) lines.now) (file_of tree)) }
    ensures err { IfErr result (λ e. IfUnread e ((f : File) → IsBody header (map (λ line. line.now) lines.now) f → ⊥)) }
{
    let top = header.top;
    let all = lines.len();
    let (inputs, lines) = literal_section(alloc, true, top, header.inputs, lines, 1)?;
    let before = lines_before(all, lines.len());
    let (outputs, lines) = literal_section(alloc, false, top, header.outputs, lines, before)?;
    let before = lines_before(all, lines.len());
    let (ands, lines) = and_section(alloc, top, header.ands, lines, before)?;
    let before = lines_before(all, lines.len());
    let symbols = symbol_section(alloc, keyed, header.inputs, header.outputs, lines, before)?;
    Ok(Tree {
        keyed,
        top,
        inputs,
        outputs,
        ands,
        symbols,
    })
}

/// The file that lines are, with this key.
pub(crate) fn tree_of<'a>(
    alloc: Global,
    keyed: Keyed,
    lines: &[&'a [u8]],
) -> Result<Tree<'a>, Unread>
    ensures ok { IfOk result (λ tree. AreLines (map (λ line. line.now) lines.now) (file_of tree)) }
    ensures err { IfErr result (λ e. IfUnread e ((f : File) → AreLines (map (λ line. line.now) lines.now) f → ⊥)) }
{
    match lines {
        [] => Err(fault_at(0, 0)),
        [first, rest @ ..] => match read_header(alloc, first)? {
            Some(header) => body(alloc, keyed, header, rest),
            None => Err(fault_at(0, 0)),
        },
    }
}
