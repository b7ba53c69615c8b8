//! What one line of a symbol says.

ghost use Rattle.std.specs.Prelude.{◌≡◌, ◌≤◌, ℕ, [], ◌∷◌, map, IfOk, IfSome, IfNone, MatchOption};
ghost use Rattle.std.specs.List.{list_all};
ghost use Rattle.eco_meaning.specs.Names.{is_name, is_printing};
ghost use Rattle.eco_aiger.specs.Syntax.{Symbol as Named};
ghost use Rattle.eco_aiger.specs.Grammar.{words_of, limit};
ghost use Rattle.eco_aiger.specs.Parts.{symbol_of, IsPlaceBelow, IsPortWord, IsSymbolRow};

use crate::lines::words_of;
use crate::numbers::number_of;
use crate::tree::Symbol;
use eco_netlist::OutOfMemory;
use std::alloc::Global;

/// The number that a word is, where it is below this one.
fn place_below(count: u64, word: &[u8]) -> Option<u64>
    ensures some { IfSome result (IsPlaceBelow count word.now) }
    ensures none { IfNone result ((k : ℕ) → IsPlaceBelow count word.now k → ⊥) }
{
    let number = number_of(word)?;
    if number < count { Some(number) } else { None }
}

/// The place of the output of this number behind so many inputs.
fn output_port(inputs: u64, outputs: u64, word: &[u8]) -> Option<u64>
    requires inputs_small { inputs ≤ limit }
    requires outputs_small { outputs ≤ limit }
    ensures some { IfSome result (IsPortWord inputs outputs (111 ∷ word.now)) }
    ensures none { IfNone result ((port : ℕ) → IsPortWord inputs outputs (111 ∷ word.now) port → ⊥) }
{
    let place = place_below(outputs, word)?;
    Some(inputs + place)
}

/// The place of the input of this number.
fn input_port(inputs: u64, word: &[u8]) -> Option<u64>
    requires { inputs ≤ limit }
    ensures some { (outputs : ℕ) → IfSome result (IsPortWord inputs outputs (105 ∷ word.now)) }
    ensures none { (outputs : ℕ) → IfNone result ((port : ℕ) → IsPortWord inputs outputs (105 ∷ word.now) port → ⊥) }
{
    place_below(inputs, word)
}

/// The place of the port that a word stands for.
fn port_of(inputs: u64, outputs: u64, word: &[u8]) -> Option<u64>
    requires inputs_small { inputs ≤ limit }
    requires outputs_small { outputs ≤ limit }
    ensures some { IfSome result (IsPortWord inputs outputs word.now) }
    ensures none { IfNone result ((port : ℕ) → IsPortWord inputs outputs word.now port → ⊥) }
{
    match word {
        [b'i', digits @ ..] => input_port(inputs, digits),
        [b'o', digits @ ..] => output_port(inputs, outputs, digits),
        _ => None,
    }
}

/// Whether these are one or more printing bytes.
fn is_name(bytes: &[u8]) -> bool
    ensures { result ≡ is_name bytes.now }
{
    !bytes.is_empty() && are_printing(bytes)
}

fn are_printing(bytes: &[u8]) -> bool
    ensures { result ≡ list_all is_printing bytes.now }
{
    bytes.iter().all(|byte| 33 <= *byte && *byte <= 126)
}

/// The symbol of two words.
fn symbol_of<'a>(inputs: u64, outputs: u64, port: &[u8], text: &'a [u8]) -> Option<Symbol<'a>>
    requires inputs_small { inputs ≤ limit }
    requires outputs_small { outputs ≤ limit }
    ensures some { IfSome result (λ s. IsSymbolRow inputs outputs (port.now ∷ text.now ∷ []) (symbol_of s)) }
    ensures none { IfNone result ((s : Named) → IsSymbolRow inputs outputs (port.now ∷ text.now ∷ []) s → ⊥) }
{
    let port = port_of(inputs, outputs, port)?;
    if is_name(text) {
        Some(Symbol { port, text })
    } else {
        None
    }
}

/// The symbol that the words are.
fn symbol_in<'a>(inputs: u64, outputs: u64, words: &[&'a [u8]]) -> Option<Symbol<'a>>
    requires inputs_small { inputs ≤ limit }
    requires outputs_small { outputs ≤ limit }
    ensures some { IfSome result (λ s. IsSymbolRow inputs outputs (map (λ word. word.now) words.now) (symbol_of s)) }
    ensures none { IfNone result ((s : Named) → IsSymbolRow inputs outputs (map (λ word. word.now) words.now) s → ⊥) }
{
    match words {
        [port, text] => symbol_of(inputs, outputs, port, text),
        _ => None,
    }
}

/// The symbol that a line is.
pub(crate) fn read_symbol<'a>(
    alloc: Global,
    inputs: u64,
    outputs: u64,
    line: &'a [u8],
) -> Result<Option<Symbol<'a>>, OutOfMemory>
    requires inputs_small { inputs ≤ limit }
    requires outputs_small { outputs ≤ limit }
    ensures { IfOk result (λ found. MatchOption found
        ((s : Named) → IsSymbolRow inputs outputs (words_of line.now) s → ⊥)
        (λ s. IsSymbolRow inputs outputs (words_of line.now) (symbol_of s))) }
{
    let words = words_of(alloc, line)?;
    Ok(symbol_in(inputs, outputs, words.as_slice()))
}
