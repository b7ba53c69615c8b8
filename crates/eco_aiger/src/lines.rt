//! The lines of a text, and the words of a line.

ghost use Rattle.std.specs.Prelude.{◌≡◌, ◌++◌, IfOk, OnOk, map};
ghost use Rattle.std.specs.Str.Lines.{lines, lines_of_parts, strip_carriage_return};
ghost use Rattle.eco_lists.specs.Lines.{cut_at_feeds};
ghost use Rattle.eco_aiger.specs.Grammar.{words_of};
ghost use Rattle.eco_aiger.specs.Parts.{unended};

use eco_netlist::OutOfMemory;
use std::alloc::Global;

/// The line without one carriage return at its end.
fn without_return(line: &[u8]) -> &[u8]
    ensures { result.now ≡ strip_carriage_return line.now }
{
    match line {
        [front @ .., b'\r'] => front,
        _ => line,
    }
}

/// What stands between line feeds.
fn pieces_of(alloc: Global, bytes: &[u8]) -> Result<Vec<&[u8]>, OutOfMemory>
    ensures { IfOk result (λ pieces. map (λ piece. piece.now) pieces.items ≡ cut_at_feeds bytes.now) }
{
    let pieces = bytes.split(|byte| *byte == b'\n').collect(alloc)?;
    Ok(pieces)
}

/// Lines that end in a feed, each without one carriage return at its end.
fn ended_lines<'a>(alloc: Global, pieces: &[&'a [u8]]) -> Result<Vec<&'a [u8]>, OutOfMemory>
    ensures { IfOk result (λ rows. map (λ line. line.now) rows.items ≡ map (λ piece. strip_carriage_return piece.now) pieces.now) }
{
    let mut lines = Vec::new(alloc);
    for piece in pieces {
        lines.push(without_return(piece))?;
    }
    Ok(lines)
}

/// Adds what stands behind the last line feed, where that is not empty.
fn add_unended<'a>(lines: &mut Vec<&'a [u8]>, last: &'a [u8]) -> Result<(), OutOfMemory>
    ensures { OnOk result (map (λ line. line.now) lines.new.items ≡ map (λ line. line.now) lines.old.items ++ unended last.now) }
{
    if !last.is_empty() {
        lines.push(last)?;
    }
    Ok(())
}

/// The lines, from what stands between line feeds.
fn lines_of_pieces<'a>(alloc: Global, pieces: &[&'a [u8]]) -> Result<Vec<&'a [u8]>, OutOfMemory>
    ensures { IfOk result (λ rows. map (λ line. line.now) rows.items ≡ lines_of_parts (map (λ piece. piece.now) pieces.now)) }
{
    match pieces {
        [ended @ .., last] => {
            let mut lines = ended_lines(alloc, ended)?;
            add_unended(&mut lines, last)?;
            Ok(lines)
        }
        [] => Ok(Vec::new(alloc)),
    }
}

/// The lines of a text: they end in a line feed, perhaps with a carriage return before it; the last may lack its end.
pub(crate) fn lines_of(alloc: Global, bytes: &[u8]) -> Result<Vec<&[u8]>, OutOfMemory>
    ensures { IfOk result (λ rows. map (λ line. line.now) rows.items ≡ lines bytes.now) }
{
    let pieces = pieces_of(alloc, bytes)?;
    lines_of_pieces(alloc, pieces.as_slice())
}

/// The words of a line.
pub(crate) fn words_of(alloc: Global, line: &[u8]) -> Result<Vec<&[u8]>, OutOfMemory>
    ensures { IfOk result (λ words. map (λ word. word.now) words.items ≡ words_of line.now) }
{
    let words = line.split(|byte| *byte == b' ').collect(alloc)?;
    Ok(words)
}
