//! What the nets of a file are named.

ghost use Rattle.std.specs.Prelude.{◌≡◌, ◌++◌, map, option_map, codes, IfOk, IfSome, IsTrue};
ghost use Rattle.std.specs.List.{list_all};
ghost use Rattle.eco_meaning.specs.Names.{is_name, is_printing};
ghost use Rattle.eco_text.specs.Prefix.{fresh_prefix_of};
ghost use Rattle.eco_aiger.specs.Grammar.{port_word, IsProper};
ghost use Rattle.eco_aiger.specs.Defined.{IsDefinedOnce};
ghost use Rattle.eco_aiger.specs.Meaning.{named_by, text_of, named_or, port_names, naming_of, is_complement};
ghost use Rattle.eco_aiger.specs.Parts.{symbol_of, file_of};

use crate::sets::set_of;
use crate::tree::{Symbol, Tree};
use eco_keyed::Keyed;
use eco_netlist::{Name, Operand, OutOfMemory};
use eco_text::{fresh_prefix, name_from, numbered};
use indexmap::IndexSet;
use std::alloc::Global;
use std::marker::Model;

/// What the nets of a file are named by: the prefix of the wires, the literals of the inputs, each at its place, and
/// the names of the ports.
#[derive(Drop)]
pub(crate) struct Names {
    prefix: Vec<u8>,
    inputs: IndexSet<u64, Keyed>,
    ports: Vec<Name>,
}

impl Model for Names {
    ghost use Rattle.std.specs.Prelude.{◌≤◌, length, IsTrue};
    ghost use Rattle.std.specs.List.{list_all};
    ghost use Rattle.eco_meaning.specs.Names.{is_printing};
    ghost use Rattle.eco_aiger.specs.Meaning.{Naming};

    ghost Value = { Naming };

    ghost view = { λ n. record { prefix = n.prefix.items; inputs = n.inputs.keys; ports = n.ports.items } };

    ghost invariant = { λ n. IsTrue (list_all is_printing n.prefix.items) × (length n.inputs.keys ≤ length n.ports.items) };
}

/// The name that a symbol gives: its text without one backslash at its front, where a byte is left behind it.
fn named_by(text: &[u8]) -> &[u8]
    ensures { result.now ≡ named_by text.now }
{
    match text {
        [b'\\', _, ..] => &text[1..],
        _ => text,
    }
}

/// The places of the ports that symbols name, in order.
fn named_ports(alloc: Global, symbols: &[Symbol]) -> Result<Vec<u64>, OutOfMemory>
    ensures { IfOk result (λ ports. ports.items ≡ map (λ s. s.port) symbols.now) }
{
    let mut ports = Vec::new(alloc);
    for symbol in symbols {
        ports.push(symbol.port)?;
    }
    Ok(ports)
}

/// The text of a port's symbol, if it has one, where `named` are the ports of the symbols in order.
fn text_of<'a>(symbols: &[Symbol<'a>], named: &IndexSet<u64, Keyed>, port: u64) -> Option<&'a [u8]>
    requires { named.now.keys ≡ map (λ s. s.port) symbols.now }
    ensures { option_map (λ text. text.now) result ≡ text_of (map symbol_of symbols.now) port }
{
    match named.get_index_of(&port) {
        Some(place) => Some(symbols[place].text),
        None => None,
    }
}

/// The word for a port, where there are so many inputs.
fn port_word(alloc: Global, inputs: u64, port: u64) -> Result<Name, OutOfMemory>
    ensures { IfOk result (λ name. name ≡ port_word inputs port) }
{
    if port < inputs {
        numbered(alloc, b"i", port)
    } else {
        numbered(alloc, b"o", port - inputs)
    }
}

/// The name of a port: that of its symbol's text, if it has one, or else the word for it.
fn port_name(
    alloc: Global,
    text: Option<&[u8]>,
    inputs: u64,
    port: u64,
) -> Result<Name, OutOfMemory>
    requires { IfSome text (λ bytes. IsTrue (is_name bytes.now)) }
    ensures { IfOk result (λ name. name ≡ named_or (option_map (λ bytes. bytes.now) text.entry) (port_word inputs port)) }
{
    match text {
        Some(text) => name_from(alloc, named_by(text)),
        None => port_word(alloc, inputs, port),
    }
}

/// The names of the ports, inputs first.
fn port_names(
    alloc: Global,
    tree: &Tree,
    named: &IndexSet<u64, Keyed>,
) -> Result<Vec<Name>, OutOfMemory>
    requires ports { named.now.keys ≡ map (λ s. s.port) tree.now.symbols.items }
    requires proper { IsProper (file_of tree.now) }
    ensures { IfOk result (λ names. names.items ≡ port_names (file_of tree.now)) }
{
    let inputs = tree.inputs.len();
    let symbols = tree.symbols.as_slice();
    let mut names = Vec::new(alloc);
    for port in 0..inputs + tree.outputs.len() {
        let text = text_of(symbols, named, port as u64);
        let name = port_name(alloc, text, inputs as u64, port as u64)?;
        names.push(name)?;
    }
    Ok(names)
}

/// The prefix of the wires: the shortest of `aig_`, `aig__` and so on that begins no port's name.
fn wire_prefix(alloc: Global, ports: &[Name]) -> Result<Vec<u8>, OutOfMemory>
    ensures value { IfOk result (λ prefix. prefix.items ≡ fresh_prefix_of (codes "aig") ports.now) }
    ensures printing { IfOk result (λ prefix. IsTrue (list_all is_printing prefix.items)) }
{
    let mut list = Vec::new(alloc);
    for name in ports {
        list.push(name.bytes())?;
    }
    fresh_prefix(alloc, b"aig", list.as_slice())
}

/// What the nets of a file are named by.
pub(crate) fn names_of(alloc: Global, tree: &Tree) -> Result<Names, OutOfMemory>
    requires proper { IsProper (file_of tree.now) }
    requires once { IsDefinedOnce (file_of tree.now) }
    ensures { IfOk result (λ names. names ≡ naming_of (file_of tree.now)) }
{
    let named = named_ports(alloc, tree.symbols.as_slice())?;
    let named = set_of(alloc, tree.keyed, named.as_slice())?;
    let ports = port_names(alloc, tree, &named);
    drop(named);
    let ports = ports?;
    let prefix = wire_prefix(alloc, ports.as_slice())?;
    let inputs = set_of(alloc, tree.keyed, tree.inputs.as_slice())?;
    Ok(Names {
        prefix,
        inputs,
        ports,
    })
}

/// Whether a literal is the complement of a variable.
pub(crate) fn is_complement(literal: u64) -> bool
    ensures { result ≡ is_complement literal }
{
    literal % 2 == 1 && literal != 1
}

impl Names {
    ghost use Rattle.std.specs.Prelude.{◌≡◌, IfOk};
    ghost use Rattle.eco_aiger.specs.Meaning.{wire_name, complement_name, net_name, read_name, operand_of};

    /// The names of the ports, inputs first.
    pub(crate) fn ports(&self) -> &[Name]
        ensures { result.now ≡ self.now.ports }
    {
        self.ports.as_slice()
    }

    /// The wire of a literal's variable.
    pub(crate) fn wire_name(&self, alloc: Global, literal: u64) -> Result<Name, OutOfMemory>
        ensures { IfOk result (λ name. name ≡ wire_name self.now literal) }
    {
        numbered(alloc, self.prefix.as_slice(), literal / 2)
    }

    /// The wire of the complement of a literal's variable.
    pub(crate) fn complement_name(&self, alloc: Global, literal: u64) -> Result<Name, OutOfMemory>
        ensures { IfOk result (λ name. name ≡ complement_name self.now literal) }
    {
        let wire = self.wire_name(alloc, literal)?;
        complement_of(alloc, &wire)
    }

    /// The net of a plain literal: its input's port, or else its wire.
    fn net_name(&self, alloc: Global, literal: u64) -> Result<Name, OutOfMemory>
        ensures { IfOk result (λ name. name ≡ net_name self.now literal) }
    {
        match self.inputs.get_index_of(&literal) {
            Some(place) => self.ports[place].copy(),
            None => self.wire_name(alloc, literal),
        }
    }

    /// What a literal of a variable is read from.
    fn read_name(&self, alloc: Global, literal: u64) -> Result<Name, OutOfMemory>
        ensures { IfOk result (λ name. name ≡ read_name self.now literal) }
    {
        if is_complement(literal) {
            self.complement_name(alloc, literal)
        } else {
            self.net_name(alloc, literal)
        }
    }

    /// What a literal is read from: a constant, a net, or the wire of a complement.
    pub(crate) fn operand(&self, alloc: Global, literal: u64) -> Result<Operand, OutOfMemory>
        ensures { IfOk result (λ operand. operand ≡ operand_of self.now literal) }
    {
        if literal == 0 {
            return Ok(Operand::Zero);
        }
        if literal == 1 {
            return Ok(Operand::One);
        }
        let name = self.read_name(alloc, literal)?;
        Ok(Operand::Named(name))
    }
}

/// The name with `n` behind it.
fn complement_of(alloc: Global, wire: &Name) -> Result<Name, OutOfMemory>
    ensures { IfOk result (λ name. name ≡ wire.now ++ codes "n") }
{
    let mut bytes = Vec::from_slice(alloc, wire.bytes())?;
    bytes.push(b'n')?;
    name_from(alloc, bytes.as_slice())
}
