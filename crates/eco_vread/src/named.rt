//! What identifiers and terminals name.

ghost use Rattle.std.specs.Prelude.{◌≡◌, map, IfOk, IsTrue};
ghost use Rattle.eco_meaning.specs.Names.{is_name};
ghost use Rattle.eco_vread.specs.Syntax.{name_of};
ghost use Rattle.eco_vread.specs.Meaning.{operand_of};
ghost use Rattle.eco_vread.specs.Views.{identifier_of, term_of};

use crate::tree::{Ident, Terminal};
use eco_netlist::{Name, Operand, OutOfMemory};
use std::alloc::Global;

/// What an identifier names: an escaped one's text without the backslash (IEEE 1364-2005, 3.7.1).
fn name_bytes<'a>(ident: Ident<'a>) -> &'a [u8]
    ensures value { result.now ≡ name_of (identifier_of ident.entry) }
    ensures name { IsTrue (is_name result.now) }
{
    match ident.text.split_first() {
        Some((_, name)) if ident.escaped => name,
        _ => ident.text,
    }
}

/// The name of an identifier.
pub(crate) fn name(alloc: Global, ident: Ident) -> Result<Name, OutOfMemory>
    ensures { IfOk result (λ name. name ≡ name_of (identifier_of ident.entry)) }
{
    match Name::new(alloc, name_bytes(ident))? {
        Some(name) => Ok(name),
        None => unreachable!(),
    }
}

/// What an input of a gate reads.
pub(crate) fn operand(alloc: Global, terminal: Terminal) -> Result<Operand, OutOfMemory>
    ensures { IfOk result (λ operand. operand ≡ operand_of (term_of terminal.entry)) }
{
    match terminal {
        Terminal::Low => Ok(Operand::Zero),
        Terminal::High => Ok(Operand::One),
        Terminal::Net(ident) => {
            let net = name(alloc, ident)?;
            Ok(Operand::Named(net))
        }
    }
}

/// What the inputs of a gate read, in order.
pub(crate) fn operands(alloc: Global, terminals: &[Terminal]) -> Result<Vec<Operand>, OutOfMemory>
    ensures { IfOk result (λ operands. operands.items ≡ map (λ t. operand_of (term_of t)) terminals.now) }
{
    let mut operands = Vec::with_capacity(alloc, terminals.len())?;
    for terminal in terminals {
        let operand = operand(alloc, *terminal)?;
        operands.push(operand)?;
    }
    Ok(operands)
}
