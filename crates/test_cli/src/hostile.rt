//! Hostile netlists: cut short, with a very long name, a very long loop, very deep, and with very many gates.

use crate::cases::{AND, AND_REPORT, BUFFERED, Case, Left, WEIGHTS, try_case};
use std::alloc::Global;
use std::process::Abort;
use std::str::from_utf8;
use std::test::Fail;

/// A specification that asks for an input.
const INPUT: &str = "module g (a, b, y); input a, b; output y; buf (y, a); endmodule";

/// The front of the implementation `BUFFERED`, of so many bytes.
fn cut_to(length: usize) -> &'static str {
    let front = BUFFERED.as_bytes().get(..length).unwrap_or(b"");
    from_utf8(front).unwrap_or(BUFFERED)
}

/// An implementation that is refused where it is cut to this many bytes.
fn try_cut(rt: &(impl Abort + AllocGlobal), length: usize) -> Result<(), Fail> {
    let case = Case {
        name: "a text cut short",
        implementation: cut_to(length),
        specification: AND,
        weights: WEIGHTS,
        care: "",
        status: 3,
        printed: &["refused impl syntax *\n"],
        patch: Left::Nothing,
        out: Left::Nothing,
    };
    try_case(rt, &case)
}

#[test]
fn each_cut_text_is_refused(rt: HostRuntime) -> Result<(), Fail> {
    for length in 0..BUFFERED.len() {
        try_cut(&rt, length)?;
    }
    Ok(())
}

/// A name of this many bytes.
fn long_name(alloc: Global, length: u64) -> Result<String, Fail> {
    let mut name = String::new(alloc);
    for _ in 0..length {
        name.push_str("a")?;
    }
    Ok(name)
}

#[test]
fn a_very_long_name_is_printed_in_full(rt: HostRuntime) -> Result<(), Fail> {
    let alloc = rt.alloc();
    let name = long_name(alloc, 100_000)?;
    let head = format!(in alloc; "module m ({name}, y); input {name}; output y; buf (y, ")?;
    let implementation = format!(in alloc; "{head}t_0); endmodule")?;
    let specification = format!(in alloc; "{head}{name}); endmodule")?;
    let printed = format!(in alloc;
        "patched\ncost 1\ngates 1\ntarget t_0 1\nbase {name} 1\nforce1 1\nforce0 0\n"
    )?;
    try_case(
        &rt,
        &Case {
            name: "a very long name",
            implementation: implementation.as_str(),
            specification: specification.as_str(),
            weights: "",
            care: "",
            status: 0,
            printed: &[printed.as_str()],
            patch: Left::Something,
            out: Left::Something,
        },
    )
}

/// Puts a gate of one input behind the text.
fn push_gate(
    text: &mut String,
    alloc: Global,
    kind: &str,
    out: u64,
    read: &str,
) -> Result<(), Fail> {
    let gate = format!(in alloc; "{kind} (n{out}, {read});\n")?;
    Ok(text.push_str(gate.as_str())?)
}

/// The implementation `BUFFERED` without its last word.
fn begun(alloc: Global) -> Result<String, Fail> {
    let text = BUFFERED.strip_suffix("endmodule").unwrap_or("");
    Ok(String::from_str(alloc, text)?)
}

/// Puts a chain of gates of this kind behind the text: they read the nets of these numbers, and each drives the net of the next
/// number.
fn push_chain(
    text: &mut String,
    alloc: Global,
    kind: &str,
    from: u64,
    to: u64,
) -> Result<(), Fail> {
    for number in from..to {
        let read = format!(in alloc; "n{number}")?;
        push_gate(text, alloc, kind, number.wrapping_add(1), read.as_str())?;
    }
    Ok(())
}

/// The last number of the nets of a loop.
const LOOP: u64 = 99_999;

/// An implementation with a loop.
fn looped(alloc: Global) -> Result<String, Fail> {
    let mut text = begun(alloc)?;
    push_chain(&mut text, alloc, "buf", 0, LOOP)?;
    let last = format!(in alloc; "n{LOOP}")?;
    push_gate(&mut text, alloc, "buf", 0, last.as_str())?;
    text.push_str("endmodule")?;
    Ok(text)
}

/// What is printed of the loop.
fn loop_line(alloc: Global) -> Result<String, Fail> {
    let mut line = String::from_str(alloc, "refused impl loop")?;
    for number in 0..=LOOP {
        let name = format!(in alloc; " n{number}")?;
        line.push_str(name.as_str())?;
    }
    line.push_str("\n")?;
    Ok(line)
}

#[test]
fn a_very_long_loop_is_named_in_full(rt: HostRuntime) -> Result<(), Fail> {
    let implementation = looped(rt.alloc())?;
    let printed = loop_line(rt.alloc())?;
    try_case(
        &rt,
        &Case {
            name: "a very long loop",
            implementation: implementation.as_str(),
            specification: AND,
            weights: WEIGHTS,
            care: "",
            status: 3,
            printed: &[printed.as_str()],
            patch: Left::Nothing,
            out: Left::Nothing,
        },
    )
}

/// How many gates there are from the input `a` to the net `w`.
const DEPTH: u64 = 100_000;

/// An implementation in which the net `w` has the value of the input `a`, behind so many gates.
fn deep(alloc: Global) -> Result<String, Fail> {
    let mut text = begun(alloc)?;
    push_gate(&mut text, alloc, "not", 1, "a")?;
    push_chain(&mut text, alloc, "not", 1, DEPTH - 1)?;
    let end = format!(in alloc; "not (w, n{}); endmodule", DEPTH - 1)?;
    text.push_str(end.as_str())?;
    Ok(text)
}

#[test]
fn a_very_deep_netlist_is_patched(rt: HostRuntime) -> Result<(), Fail> {
    let implementation = deep(rt.alloc())?;
    try_case(
        &rt,
        &Case {
            name: "a very deep netlist",
            implementation: implementation.as_str(),
            specification: INPUT,
            weights: "w 1\na 3\nb 5\n",
            care: "",
            status: 0,
            printed: &[
                "patched\ncost 1\ngates 1\ntarget t_0 1\nbase w 1\nforce1 10\nforce0 00\n",
                "patched\ncost 1\ngates 1\ntarget t_0 1\nbase w 1\nforce1 10\nforce0 01\n",
                "patched\ncost 1\ngates 1\ntarget t_0 1\nbase w 1\nforce1 11\nforce0 00\n",
                "patched\ncost 1\ngates 1\ntarget t_0 1\nbase w 1\nforce1 11\nforce0 01\n",
            ],
            patch: Left::Something,
            out: Left::Something,
        },
    )
}

/// How many gates read one input.
const WIDTH: u64 = 500_000;

/// An implementation in which so many gates read the input `a`.
fn wide(alloc: Global) -> Result<String, Fail> {
    let mut text = begun(alloc)?;
    for number in 0..WIDTH {
        push_gate(&mut text, alloc, "buf", number, "a")?;
    }
    text.push_str("endmodule")?;
    Ok(text)
}

#[test]
fn a_very_wide_netlist_is_patched(rt: HostRuntime) -> Result<(), Fail> {
    let implementation = wide(rt.alloc())?;
    try_case(
        &rt,
        &Case {
            name: "a very wide netlist",
            implementation: implementation.as_str(),
            specification: AND,
            weights: WEIGHTS,
            care: "",
            status: 0,
            printed: &[AND_REPORT],
            patch: Left::Something,
            out: Left::Something,
        },
    )
}
