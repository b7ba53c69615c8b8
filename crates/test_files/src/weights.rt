//! Lines of weights, read.

use eco_meaning::{Name, OutOfMemory};
use eco_weight::{WeightError, Weights, read};
use std::alloc::Global;

/// What became of a text, seen at one name.
#[derive(Clone, Copy, PartialEq, Eq)]
enum Outcome {
    Weight(Option<u32>),
    Line(u64),
    /// A name stands twice; whether it is the one.
    Twice(bool),
    OutOfMemory,
}

fn outcome_at(read: &Result<Weights, WeightError>, name: &Name) -> Outcome {
    match read {
        Ok(weights) => Outcome::Weight(weights.of(name)),
        Err(WeightError::Line(number)) => Outcome::Line(*number),
        Err(WeightError::Twice(twice)) => Outcome::Twice(twice == name),
        Err(WeightError::OutOfMemory) => Outcome::OutOfMemory,
    }
}

/// What became of the text; None where this is no name.
fn read_at(alloc: Global, text: &[u8], name: &[u8]) -> Result<Option<Outcome>, OutOfMemory> {
    match Name::new(alloc, name)? {
        None => Ok(None),
        Some(name) => {
            let read = read(alloc, text);
            let outcome = outcome_at(&read, &name);
            drop(read);
            Ok(Some(outcome))
        }
    }
}

const FILE: &[u8] = b"a 3\r\n\r\n zz 9\nt_0 4\n\tb\t5";

/// Texts, each with a name and what becomes of it.
const WEIGHTS: [(&[u8], &[u8], Outcome); 17] = [
    (b"", b"a", Outcome::Weight(None)),
    (b"\r", b"a", Outcome::Weight(None)),
    (b" \t\n\r\na 0", b"a", Outcome::Weight(Some(0))),
    (FILE, b"a", Outcome::Weight(Some(3))),
    (FILE, b"b", Outcome::Weight(Some(5))),
    (FILE, b"zz", Outcome::Weight(Some(9))),
    (FILE, b"t_0", Outcome::Weight(Some(4))),
    (FILE, b"z", Outcome::Weight(None)),
    (b"a 7\r", b"a", Outcome::Weight(Some(7))),
    (b"x[0] 2", b"x[0]", Outcome::Weight(Some(2))),
    (b"\\x[0] 2", b"x[0]", Outcome::Weight(Some(2))),
    (b"\\\\a 1", b"\\a", Outcome::Weight(Some(1))),
    (b"\\\\a 1", b"a", Outcome::Weight(None)),
    (b"!~ 5 \t", b"!~", Outcome::Weight(Some(5))),
    (b"12 34", b"12", Outcome::Weight(Some(34))),
    (b"a 4294967295", b"a", Outcome::Weight(Some(4_294_967_295))),
    (
        b"a 0000000000004294967295",
        b"a",
        Outcome::Weight(Some(4_294_967_295)),
    ),
];

#[test]
fn weights_of_lines(rt: HostRuntime) {
    for (text, name, expected) in &WEIGHTS {
        let outcome = read_at(rt.alloc(), text, name);
        assert!(rt; outcome == Ok(Some(*expected)), "at {text:?}");
    }
}

/// Texts that are refused, in the same way.
const WRONG: [(&[u8], &[u8], Outcome); 23] = [
    (b"a 4294967296", b"a", Outcome::Line(1)),
    (b"a 42949672950", b"a", Outcome::Line(1)),
    (b"a 99999999999999999999999", b"a", Outcome::Line(1)),
    (b"a", b"a", Outcome::Line(1)),
    (b"a1", b"a", Outcome::Line(1)),
    (b"\\ 1", b"a", Outcome::Line(1)),
    (b"a 1 2", b"a", Outcome::Line(1)),
    (b"a 1x", b"a", Outcome::Line(1)),
    (b"a -1", b"a", Outcome::Line(1)),
    (b"a +1", b"a", Outcome::Line(1)),
    (b"a 1\r\r\n", b"a", Outcome::Line(1)),
    (b"a\r 1", b"a", Outcome::Line(1)),
    (b"a 1\r 2", b"a", Outcome::Line(1)),
    (b"\x7f 1", b"a", Outcome::Line(1)),
    (b"\xc3\xa4 1", b"a", Outcome::Line(1)),
    (b"a 1\x0c", b"a", Outcome::Line(1)),
    (b"a 1\n\n \nb\nc\n", b"a", Outcome::Line(4)),
    (b"a 1\na 2\nb\n", b"a", Outcome::Line(3)),
    (b"a 1\n\\a 1", b"a", Outcome::Twice(true)),
    (b"b 1\na 2\nb 3\na 4\n", b"a", Outcome::Twice(true)),
    (b"a 1\na 2\nb 3\nb 4\n", b"a", Outcome::Twice(true)),
    (b"ab 1\na 2\nab 3\n", b"ab", Outcome::Twice(true)),
    (
        b"c 1\nb 1\nc 2\nb 2\na 1\na 2\na 3",
        b"a",
        Outcome::Twice(true),
    ),
];

#[test]
fn lines_that_are_wrong(rt: HostRuntime) {
    for (text, name, expected) in &WRONG {
        let outcome = read_at(rt.alloc(), text, name);
        assert!(rt; outcome == Ok(Some(*expected)), "at {text:?}");
    }
}

/// The weight of the name where there are no lines; None where this is no name.
fn weight_without_lines(alloc: Global, name: &[u8]) -> Result<Option<Outcome>, OutOfMemory> {
    match Name::new(alloc, name)? {
        None => Ok(None),
        Some(name) => {
            let weights = Weights::none(alloc);
            let weight = weights.of(&name);
            drop(weights);
            Ok(Some(Outcome::Weight(weight)))
        }
    }
}

#[test]
fn no_lines(rt: HostRuntime) {
    let outcome = weight_without_lines(rt.alloc(), b"a");
    assert!(rt; outcome == Ok(Some(Outcome::Weight(None))));
}
