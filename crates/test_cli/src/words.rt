//! Words that decide by themselves: no file is read for them.

use crate::cases::{AND, BUFFERED, Ended, SYNTH, Spent, Trial, ended_on, try_trial};
use std::process::Abort;
use std::test::Fail;

/// The words, the status, and the start of what is printed.
const WORDS: [(&[&str], u8, &str); 21] = [
    (&["eco"], 2, "error: "),
    (&["eco", "synth", "--impl", "f.v"], 2, "error: "),
    (&["eco", "repair"], 2, "error: "),
    (
        &[
            "eco", "synth", "--impl", "f.v", "--spec", "g.v", "--weight", "w.txt", "--patch",
            "p.v", "--out", "o.v", "more",
        ],
        2,
        "error: ",
    ),
    (
        &[
            "eco", "synth", "--impl", "f.v", "--impl", "e.v", "--spec", "g.v", "--weight", "w.txt",
            "--patch", "p.v", "--out", "o.v",
        ],
        2,
        "error: ",
    ),
    (
        &[
            "eco",
            "synth",
            "--impl",
            "f.v",
            "--spec",
            "g.v",
            "--weight",
            "w.txt",
            "--patch",
            "p.v",
            "--out",
            "o.v",
            "--input-weight",
            "4294967296",
        ],
        2,
        "usage --input-weight\n",
    ),
    (
        &[
            "eco",
            "synth",
            "--impl",
            "f.v",
            "--spec",
            "g.v",
            "--weight",
            "w.txt",
            "--patch",
            "p.v",
            "--out",
            "o.v",
            "--input-weight",
            "seven",
        ],
        2,
        "usage --input-weight\n",
    ),
    (
        &[
            "eco",
            "synth",
            "--impl",
            "f.v",
            "--spec",
            "g.v",
            "--weight",
            "w.txt",
            "--patch",
            "p.v",
            "--out",
            "o.v",
            "--input-weight=",
        ],
        2,
        "usage --input-weight\n",
    ),
    (
        &[
            "eco",
            "synth",
            "--impl",
            "f.v",
            "--spec",
            "g.v",
            "--weight",
            "w.txt",
            "--patch",
            "p.v",
            "--out",
            "o.v",
            "--input-weight",
            "1",
            "--input-weight",
            "2",
        ],
        2,
        "error: ",
    ),
    (
        &[
            "eco",
            "synth",
            "--impl",
            "f.v",
            "--spec",
            "g.v",
            "--weight",
            "w.txt",
            "--patch",
            "p.v",
            "--out",
            "o.v",
            "--input-weight",
            "x",
            "--budget",
            "0",
        ],
        2,
        "usage --budget\n",
    ),
    (
        &[
            "eco", "synth", "--care", "w.txt", "--impl", "f.v", "--spec", "g.v", "--weight",
            "w.txt", "--patch", "p.v", "--out", "o.v",
        ],
        3,
        "refused samepath w.txt\n",
    ),
    (&["eco", "--version"], 0, "eco "),
    (
        &["eco", "--help"],
        0,
        "Finds patches for gate-level netlists\n",
    ),
    (&["eco", "help", "gen"], 0, "Draws a problem"),
    (&["eco", "help", "run"], 2, "error: "),
    (
        &[
            "eco", "synth", "--impl", "f.v", "--spec", "g.v", "--weight", "w.txt", "--patch",
            "p.v", "--out", "g.v",
        ],
        3,
        "refused samepath g.v\n",
    ),
    (
        &[
            "eco", "synth", "--impl", "f.v", "--spec", "f.v", "--weight", "w.txt", "--patch",
            "w.txt", "--out", "o.v",
        ],
        3,
        "refused samepath f.v\n",
    ),
    (
        &[
            "eco",
            "gen",
            "--seed",
            "1",
            "--size",
            "40",
            "--targets",
            "1",
        ],
        0,
        "instance 1 40 1\ncost ",
    ),
    (
        &["eco", "gen", "--seed", "1", "--size", "1", "--targets", "2"],
        2,
        "usage --targets\n",
    ),
    (
        &["eco", "gen", "--seed", "1", "--size", "0", "--targets", "2"],
        2,
        "usage --size\n",
    ),
    (
        &[
            "eco",
            "gen",
            "--seed",
            "18446744073709551616",
            "--size",
            "0",
            "--targets",
            "1",
        ],
        2,
        "usage --seed\n",
    ),
];

/// Runs the words over a store without files, and compares the exit status and how what is printed begins.
fn try_words(
    rt: &(impl Abort + AllocGlobal),
    words: &[&str],
    status: u8,
    start: &str,
) -> Result<(), Fail> {
    let ended = ended_on(rt, &[], words, &[])?;
    assert_eq!(rt; ended.status, status, "{start}");
    assert!(rt; ended.printed.starts_with(start.as_bytes()), "{start}");
    Ok(())
}

#[test]
fn words_alone_decide(rt: HostRuntime) -> Result<(), Fail> {
    for (words, status, start) in &WORDS {
        try_words(&rt, words, *status, start)?;
    }
    Ok(())
}

/// What `gen --seed 1 --size 40 --targets 1` prints.
fn drawn_text(rt: &(impl Abort + AllocGlobal)) -> Result<Vec<u8>, Fail> {
    let words = [
        "eco",
        "gen",
        "--seed",
        "1",
        "--size",
        "40",
        "--targets",
        "1",
    ];
    let Ended {
        status,
        printed,
        ..
    } = ended_on(rt, &[], &words, &[])?;
    assert_eq!(rt; status, 0);
    Ok(printed)
}

#[test]
fn a_problem_is_drawn_twice_alike(rt: HostRuntime) -> Result<(), Fail> {
    let first = drawn_text(&rt)?;
    let second = drawn_text(&rt)?;
    assert!(&rt; first.as_slice() == second.as_slice());
    Ok(())
}

/// The number of `--input-weight` is the weight of an input that the file of weights doesn't list.
#[test]
fn unlisted_inputs_have_the_weight_of_the_words(rt: HostRuntime) -> Result<(), Fail> {
    try_input_weight(
        &rt,
        "7",
        "patched\ncost 12\ngates *\ntarget t_0 2\nbase a 7\nforce1 11\nforce0 01\nbase b 5\nforce1 11\nforce0 10\n",
    )?;
    try_input_weight(
        &rt,
        "00000000000000000000",
        "patched\ncost 5\ngates *\ntarget t_0 2\nbase b 5\nforce1 11\nforce0 10\nbase a 0\nforce1 11\nforce0 01\n",
    )?;
    try_input_weight(
        &rt,
        "4294967295",
        "patched\ncost 4294967300\ngates *\ntarget t_0 2\nbase a 4294967295\nforce1 11\nforce0 01\nbase b 5\nforce1 11\nforce0 10\n",
    )
}

fn try_input_weight(
    rt: &(impl Abort + AllocGlobal),
    number: &'static str,
    printed: &'static str,
) -> Result<(), Fail> {
    let files = [
        ("f.v", BUFFERED.as_bytes()),
        ("g.v", AND.as_bytes()),
        ("w.txt", "b 5\n".as_bytes()),
    ];
    let run = Trial {
        words: &SYNTH,
        more: &["--input-weight", number],
        put_fails: false,
        status: 0,
        printed: &[printed],
        files: &[],
        spent: Spent::Nothing,
    };
    try_trial(rt, number, &files, None, &run)
}
