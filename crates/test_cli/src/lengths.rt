//! Files of just the most bytes that are taken, and of one more.

use crate::cases::{AND, AND_REPORT, BUFFERED, SYNTH, Spent, Trial, WEIGHTS, try_trial};
use std::alloc::Global;
use std::process::Abort;
use std::test::Fail;

/// The text with blanks behind it, up to this many bytes.
fn padded(alloc: Global, text: &str, length: u64) -> Result<Vec<u8>, Fail> {
    let mut bytes = text.as_bytes().to_vec(alloc)?;
    for _ in text.len() as u64..length {
        bytes.push(b' ')?;
    }
    Ok(bytes)
}

/// An implementation and a file of weights of at least so many bytes, and what comes of them.
fn try_lengths(
    rt: &(impl Abort + AllocGlobal),
    implementation: u64,
    weights: u64,
    status: u8,
    printed: &'static str,
) -> Result<(), Fail> {
    let implementation = padded(rt.alloc(), BUFFERED, implementation)?;
    let weights = padded(rt.alloc(), WEIGHTS, weights)?;
    let files = [
        ("f.v", implementation.as_slice()),
        ("g.v", AND.as_bytes()),
        ("w.txt", weights.as_slice()),
    ];
    let run = Trial {
        words: &SYNTH,
        more: &[],
        put_fails: false,
        status,
        printed: &[printed],
        files: &[],
        spent: Spent::Nothing,
    };
    try_trial(rt, printed, &files, None, &run)
}

#[test]
fn the_longest_files_are_taken_and_no_longer_ones(rt: HostRuntime) -> Result<(), Fail> {
    try_lengths(&rt, 16_777_216, 0, 0, AND_REPORT)?;
    try_lengths(&rt, 16_777_217, 0, 3, "refused impl toolong\n")?;
    try_lengths(&rt, 0, 16_777_216, 0, AND_REPORT)?;
    try_lengths(&rt, 0, 16_777_217, 3, "refused weight toolong\n")
}
