//! Texts of AIGER, read.

use eco_aiger::{AigerError, read};
use eco_meaning::OutOfMemory;
use eco_netlist::{Kind, Name, Netlist, Refusal, Term};
use std::alloc::Global;

/// What became of a text.
#[derive(Clone, Copy, PartialEq, Eq)]
enum Outcome {
    Netlist,
    Line(u64),
    Twice(u64),
    Undefined(u64),
    Loop,
    Refused,
    OutOfMemory,
}

fn outcome_of(read: &Result<Netlist, AigerError>) -> Outcome {
    match read {
        Ok(_) => Outcome::Netlist,
        Err(AigerError::Line(line)) => Outcome::Line(*line),
        Err(AigerError::DefinedTwice(variable)) => Outcome::Twice(*variable),
        Err(AigerError::Undefined(variable)) => Outcome::Undefined(*variable),
        Err(AigerError::Refused(Refusal::Loop(_))) => Outcome::Loop,
        Err(AigerError::Refused(_)) => Outcome::Refused,
        Err(AigerError::OutOfMemory) => Outcome::OutOfMemory,
    }
}

fn end_of(alloc: Global, text: &[u8]) -> Outcome {
    let read = read(alloc, text);
    let outcome = outcome_of(&read);
    drop(read);
    outcome
}

const GATE: &[u8] = b"aag 3 2 0 1 1\n2\n4\n6\n6 4 2\ni0 a\ni1 b\no0 y\n";

/// Whether the text is a netlist's that has a net of this name; None where this is no name.
fn has_net(alloc: Global, text: &[u8], name: &[u8]) -> Result<Option<bool>, OutOfMemory> {
    match Name::new(alloc, name)? {
        None => Ok(None),
        Some(name) => {
            let read = read(alloc, text);
            let found = matches!(&read, Ok(netlist) if netlist.net_of(&name).is_some());
            drop(read);
            Ok(Some(found))
        }
    }
}

/// Texts, each with what becomes of it.
const OUTCOMES: [(&[u8], Outcome); 20] = [
    (GATE, Outcome::Netlist),
    (b"aag 3 1 1 1 1", Outcome::Line(1)),
    (b"", Outcome::Line(1)),
    (b"aag 0 0 0 0 0", Outcome::Netlist),
    (b"aag 0 0 0 0 0\r\nc\r\nany \xff bytes", Outcome::Netlist),
    (b"aag 0 0 0 0 0\n\n", Outcome::Line(2)),
    (b"aag 0 0 0 0 00\n", Outcome::Line(1)),
    (b"aag 0 0  0 0 0\n", Outcome::Line(1)),
    (b"aag 9223372036854775808 0 0 0 0\n", Outcome::Line(1)),
    (b"aag 9223372036854775807 0 0 0 0\n", Outcome::Netlist),
    (b"aag 1 1 0 0 0\n3\n", Outcome::Line(2)),
    (b"aag 1 1 0 1 0\n2\n4\n", Outcome::Line(3)),
    (b"aag 1 1 0 1 0\n2\n", Outcome::Line(3)),
    (b"aag 1 1 0 1 0\n2\n3\ni1 a\n", Outcome::Line(4)),
    (b"aag 1 1 0 1 0\n2\n3\ni0 a\ni0 b\n", Outcome::Line(5)),
    (b"aag 3 2 0 1 1\n2\n4\n6\n6 6 2\n", Outcome::Loop),
    (b"aag 4 2 0 1 1\n2\n4\n6\n6 8 2\n", Outcome::Undefined(4)),
    (b"aag 3 2 0 1 1\n2\n2\n6\n6 4 2\n", Outcome::Twice(1)),
    (b"aag 1 1 0 1 0\n2\n3\ni0 a\no0 a\n", Outcome::Refused),
    (b"aag 2 1 0 1 0\r\n2\r\n5\r\n", Outcome::Undefined(2)),
];

#[test]
fn outcomes(rt: HostRuntime) {
    for (text, expected) in &OUTCOMES {
        assert!(rt; end_of(rt.alloc(), text) == *expected, "at {text:?}");
    }
}

/// The same gate with other signs, and no names.
const PLAIN: &[u8] = b"aag 3 2 0 1 1\r\n2\r\n4\r\n7\r\n6 5 2";

/// Texts, each with a name and whether a net has it.
const NETS: [(&[u8], &[u8], bool); 12] = [
    (GATE, b"a", true),
    (GATE, b"y", true),
    (GATE, b"aig_3", true),
    (GATE, b"aig_2n", false),
    (PLAIN, b"i0", true),
    (PLAIN, b"i1", true),
    (PLAIN, b"o0", true),
    (PLAIN, b"aig_3", true),
    (PLAIN, b"aig_2n", true),
    (b"aag 1 1 0 1 0\n2\n2\ni0 \\x\no0 \\\n", b"x", true),
    (b"aag 1 1 0 1 0\n2\n2\ni0 \\x\no0 \\\n", b"\\", true),
    (b"aag 2 1 0 1 1\n2\n4\n4 2 2\ni0 aig_x\n", b"aig__2", true),
];

#[test]
fn names_of_nets(rt: HostRuntime) {
    for (text, name, expected) in &NETS {
        assert_eq!(rt;
            has_net(rt.alloc(), text, name),
            Ok(Some(*expected)),
            "at {name:?}"
        );
    }
}

/// Whether what is read is refused for a loop of this net alone.
fn is_loop_at(read: &Result<Netlist, AigerError>, name: &[u8]) -> bool {
    match read {
        Err(AigerError::Refused(Refusal::Loop(names))) => match names.as_slice() {
            [first] => first.bytes() == name,
            _ => false,
        },
        _ => false,
    }
}

fn loops_at(alloc: Global, text: &[u8], name: &[u8]) -> bool {
    let read = read(alloc, text);
    let loops = is_loop_at(&read, name);
    drop(read);
    loops
}

#[test]
fn a_loop_of_one_wire(rt: HostRuntime) {
    let text: &[u8] = b"aag 3 2 0 1 1\n2\n4\n6\n6 6 2\ni0 a\ni1 b\no0 y\n";
    assert_eq!(rt; loops_at(rt.alloc(), text, b"aig_3"), true);
    assert_eq!(rt; loops_at(rt.alloc(), text, b"aig_2"), false);
}

/// Whether the first gate is a buffer of the constant 1.
fn begins_with_one(netlist: &Netlist) -> bool {
    match netlist.gates().first() {
        None => false,
        Some(gate) => { gate.kind == Kind::Buf && gate.ins.as_slice().first() == Some(&Term::One) }
    }
}

#[test]
fn an_output_of_one(rt: HostRuntime) {
    let read = read(rt.alloc(), b"aag 0 0 0 1 0\n1\n");
    assert!(rt; matches!(&read, Ok(netlist) if begins_with_one(netlist)));
    drop(read);
}
