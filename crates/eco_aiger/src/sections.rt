//! Lines of one kind, one after another.

ghost use Rattle.std.specs.Prelude.{◌≡◌, ◌↔◌, ◌≤◌, ◌<◌, ◌++◌, [], ℕ, List, length, map, codes, IsTrue, IfOk, IfErr, MatchOption};
ghost use Rattle.eco_aiger.specs.declared.tree.AndLine.{AndLine as And};
ghost use Rattle.eco_aiger.specs.Syntax.{Symbol as Named};
ghost use Rattle.eco_aiger.specs.Grammar.{limit, literal_words, and_words, IsAnd};
ghost use Rattle.eco_aiger.specs.Parts.{symbol_of, IsOfForm, AreRows, IsSection, AreSymbols, IsBeforeEnd, IsSymbolPart, IfUnread};

use crate::error::Unread;
use crate::literals::{read_and, read_literal};
use crate::symbols::read_symbol;
use crate::tree::{AndLine, Symbol};
use eco_keyed::Keyed;
use indexmap::IndexSet;
use std::alloc::Global;

/// The error at the line with so many lines before it and before those.
pub(crate) fn fault_at(before: u64, more: usize) -> Unread {
    Unread::Line(before.saturating_add(more as u64).saturating_add(1))
}

/// The first lines, so many of them, and those behind them; None where there are fewer.
fn cut<'l, 'a>(count: u64, lines: &'l [&'a [u8]]) -> Option<(&'l [&'a [u8]], &'l [&'a [u8]])>
    ensures { MatchOption result (length lines.now < count)
        (λ parts. (lines.now ≡ parts.0.now ++ parts.1.now) × (length parts.0.now ≡ count)) }
{
    if count <= lines.len() as u64 {
        Some(lines.split_at(count as usize))
    } else {
        None
    }
}

/// The literals of lines, behind so many lines.
fn literals(
    alloc: Global,
    is_plain: bool,
    top: u64,
    lines: &[&[u8]],
    before: u64,
) -> Result<Vec<u64>, Unread>
    ensures ok { IfOk result (λ list. AreRows literal_words (IsOfForm is_plain top) (map (λ line. line.now) lines.now) list.items) }
    ensures err { IfErr result (λ e. IfUnread e ((list : List ℕ)
        → AreRows literal_words (IsOfForm is_plain top) (map (λ line. line.now) lines.now) list → ⊥)) }
{
    let mut list = Vec::new(alloc);
    for (index, line) in lines.iter().enumerate() {
        match read_literal(alloc, is_plain, top, line)? {
            Some(literal) => list.push(literal)?,
            None => return Err(fault_at(before, index)),
        }
    }
    Ok(list)
}

/// The literals of the first lines, so many of them, and the lines behind them.
pub(crate) fn literal_section<'l, 'a>(
    alloc: Global,
    is_plain: bool,
    top: u64,
    count: u64,
    lines: &'l [&'a [u8]],
    before: u64,
) -> Result<(Vec<u64>, &'l [&'a [u8]]), Unread>
    ensures ok { IfOk result (λ found. IsSection literal_words (IsOfForm is_plain top)
        (map (λ line. line.now) lines.now) count found.0.items (map (λ line. line.now) found.1.now)) }
    ensures err { IfErr result (λ e. IfUnread e ((list : List ℕ) (rest : List (List ℕ)) → IsSection literal_words (IsOfForm is_plain top)
        (map (λ line. line.now) lines.now) count list rest → ⊥)) }
{
    match cut(count, lines) {
        Some((front, rest)) => {
            let list = literals(alloc, is_plain, top, front, before)?;
            Ok((list, rest))
        }
        None => {
            literals(alloc, is_plain, top, lines, before)?;
            Err(fault_at(before, lines.len()))
        }
    }
}

/// The and-lines that lines are, behind so many lines.
fn ands(alloc: Global, top: u64, lines: &[&[u8]], before: u64) -> Result<Vec<AndLine>, Unread>
    ensures ok { IfOk result (λ list. AreRows and_words (IsAnd top) (map (λ line. line.now) lines.now) list.items) }
    ensures err { IfErr result (λ e. IfUnread e ((list : List And)
        → AreRows and_words (IsAnd top) (map (λ line. line.now) lines.now) list → ⊥)) }
{
    let mut list = Vec::new(alloc);
    for (index, line) in lines.iter().enumerate() {
        match read_and(alloc, top, line)? {
            Some(and) => list.push(and)?,
            None => return Err(fault_at(before, index)),
        }
    }
    Ok(list)
}

/// The and-lines that the first lines are, so many of them, and the lines behind them.
pub(crate) fn and_section<'l, 'a>(
    alloc: Global,
    top: u64,
    count: u64,
    lines: &'l [&'a [u8]],
    before: u64,
) -> Result<(Vec<AndLine>, &'l [&'a [u8]]), Unread>
    ensures ok { IfOk result (λ found. IsSection and_words (IsAnd top)
        (map (λ line. line.now) lines.now) count found.0.items (map (λ line. line.now) found.1.now)) }
    ensures err { IfErr result (λ e. IfUnread e ((list : List And) (rest : List (List ℕ)) → IsSection and_words (IsAnd top)
        (map (λ line. line.now) lines.now) count list rest → ⊥)) }
{
    match cut(count, lines) {
        Some((front, rest)) => {
            let list = ands(alloc, top, front, before)?;
            Ok((list, rest))
        }
        None => {
            ands(alloc, top, lines, before)?;
            Err(fault_at(before, lines.len()))
        }
    }
}

/// Whether a line begins a comment.
fn is_comment(line: &[u8]) -> bool
    ensures { IsTrue result ↔ (line.now ≡ codes "c") }
{
    line == b"c".as_slice()
}

/// How many lines stand before a comment.
fn before_comment(lines: &[&[u8]]) -> usize
    ensures { IsBeforeEnd (map (λ line. line.now) lines.now) result }
{
    for (index, line) in lines.iter().enumerate() {
        if is_comment(line) {
            return index;
        }
    }
    lines.len()
}

/// The symbols that lines are, behind so many lines, and no port has two, where none was named; all theirs are then.
fn named_symbols<'a>(
    alloc: Global,
    named: &mut IndexSet<u64, Keyed>,
    inputs: u64,
    outputs: u64,
    lines: &[&'a [u8]],
    before: u64,
) -> Result<Vec<Symbol<'a>>, Unread>
    requires inputs_small { inputs ≤ limit }
    requires outputs_small { outputs ≤ limit }
    requires unnamed { named.old.keys ≡ [] }
    ensures ok { IfOk result (λ list. AreSymbols inputs outputs (map (λ line. line.now) lines.now) (map symbol_of list.items)) }
    ensures err { IfErr result (λ e. IfUnread e ((list : List Named)
        → AreSymbols inputs outputs (map (λ line. line.now) lines.now) list → ⊥)) }
{
    let mut list = Vec::new(alloc);
    for (index, line) in lines.iter().enumerate() {
        match read_symbol(alloc, inputs, outputs, line)? {
            Some(symbol) => {
                if !named.insert(symbol.port)? {
                    return Err(fault_at(before, index));
                }
                list.push(symbol)?;
            }
            None => return Err(fault_at(before, index)),
        }
    }
    Ok(list)
}

/// The symbols that lines are, behind so many lines, and no port has two.
fn symbols<'a>(
    alloc: Global,
    keyed: Keyed,
    inputs: u64,
    outputs: u64,
    lines: &[&'a [u8]],
    before: u64,
) -> Result<Vec<Symbol<'a>>, Unread>
    requires inputs_small { inputs ≤ limit }
    requires outputs_small { outputs ≤ limit }
    ensures ok { IfOk result (λ list. AreSymbols inputs outputs (map (λ line. line.now) lines.now) (map symbol_of list.items)) }
    ensures err { IfErr result (λ e. IfUnread e ((list : List Named)
        → AreSymbols inputs outputs (map (λ line. line.now) lines.now) list → ⊥)) }
{
    let mut named = IndexSet::with_hasher(alloc, keyed);
    let list = named_symbols(alloc, &mut named, inputs, outputs, lines, before);
    drop(named);
    list
}

/// The symbols that lines are up to their end or to a comment.
pub(crate) fn symbol_section<'a>(
    alloc: Global,
    keyed: Keyed,
    inputs: u64,
    outputs: u64,
    lines: &[&'a [u8]],
    before: u64,
) -> Result<Vec<Symbol<'a>>, Unread>
    requires inputs_small { inputs ≤ limit }
    requires outputs_small { outputs ≤ limit }
    ensures ok { IfOk result (λ list. IsSymbolPart inputs outputs (map (λ line. line.now) lines.now) (map symbol_of list.items)) }
    ensures err { IfErr result (λ e. IfUnread e ((list : List Named)
        → IsSymbolPart inputs outputs (map (λ line. line.now) lines.now) list → ⊥)) }
{
    let (front, _) = lines.split_at(before_comment(lines));
    symbols(alloc, keyed, inputs, outputs, front, before)
}
