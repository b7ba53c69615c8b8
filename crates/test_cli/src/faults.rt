//! Faults of the store and the sink, one after the other, and runs after them that meet none.

use crate::cases::{
    BUFFERED, Ended, Left, ONE, ONE_OUT, ONE_PATCH, ONE_REPORT, SYNTH, Spent, Trial, WEIGHTS,
    listed, named, status_of, try_trial,
};
use eco_outside::{SureSink, SureStore, have_own_names};
use std::alloc::Global;
use std::process::Abort;
use std::test::Fail;

/// What a run with a failing call of the store or a failing put has to leave: its status, what it prints, and both
/// written files.
struct Fault {
    call: Option<u64>,
    put: bool,
    status: u8,
    printed: &'static str,
    patch: Left,
    out: Left,
}

/// Calls 0 to 2 read the implementation, the specification and the weights, calls 3 and 4 write the patch and the patched
/// netlist; a failing write leaves five bytes, a failing put nine.
const FAULTS: [Fault; 8] = [
    Fault {
        call: Some(0),
        put: false,
        status: 5,
        printed: "failed f.v\n",
        patch: Left::Nothing,
        out: Left::Nothing,
    },
    Fault {
        call: Some(1),
        put: false,
        status: 5,
        printed: "failed g.v\n",
        patch: Left::Nothing,
        out: Left::Nothing,
    },
    Fault {
        call: Some(2),
        put: false,
        status: 5,
        printed: "failed w.txt\n",
        patch: Left::Nothing,
        out: Left::Nothing,
    },
    Fault {
        call: Some(3),
        put: false,
        status: 6,
        printed: "",
        patch: Left::Text("modul"),
        out: Left::Nothing,
    },
    Fault {
        call: Some(4),
        put: false,
        status: 6,
        printed: "",
        patch: Left::Text(ONE_PATCH),
        out: Left::Text("modul"),
    },
    Fault {
        call: None,
        put: true,
        status: 6,
        printed: "patched\nc",
        patch: Left::Text(ONE_PATCH),
        out: Left::Text(ONE_OUT),
    },
    Fault {
        call: Some(0),
        put: true,
        status: 6,
        printed: "failed f.",
        patch: Left::Nothing,
        out: Left::Nothing,
    },
    Fault {
        call: Some(5),
        put: false,
        status: 0,
        printed: ONE_REPORT,
        patch: Left::Text(ONE_PATCH),
        out: Left::Text(ONE_OUT),
    },
];

/// The text that a run left, where it left one.
fn text_of(left: Left) -> &'static str {
    match left {
        Left::Text(text) => text,
        _ => "",
    }
}

/// How many of the files of the problem, the patch and the patched netlist are there once a run left these.
fn count_of(patch: Left, out: Left) -> usize {
    match (patch, out) {
        (_, Left::Text(_)) => 5,
        (Left::Text(_), _) => 4,
        _ => 3,
    }
}

/// The files of the problem, with those that a run before left.
fn files_after(patch: Left, out: Left) -> [(&'static str, &'static [u8]); 5] {
    [
        ("f.v", BUFFERED.as_bytes()),
        ("g.v", ONE.as_bytes()),
        ("w.txt", WEIGHTS.as_bytes()),
        ("p.v", text_of(patch).as_bytes()),
        ("o.v", text_of(out).as_bytes()),
    ]
}

fn try_fault(rt: &(impl Abort + AllocGlobal), fault: &Fault) -> Result<(), Fail> {
    let files = files_after(Left::Nothing, Left::Nothing);
    let run = Trial {
        words: &SYNTH,
        more: &[],
        put_fails: fault.put,
        status: fault.status,
        printed: &[fault.printed],
        files: &[("p.v", fault.patch), ("o.v", fault.out)],
        spent: Spent::Nothing,
    };
    try_trial(rt, fault.printed, &files[..3], fault.call, &run)
}

/// A run without faults on the files that the fault left gives the plain answer.
fn try_again(rt: &(impl Abort + AllocGlobal), fault: &Fault) -> Result<(), Fail> {
    let files = files_after(fault.patch, fault.out);
    let count = count_of(fault.patch, fault.out);
    let present = files.get(..count).unwrap_or(&files);
    let run = Trial {
        words: &SYNTH,
        more: &[],
        put_fails: false,
        status: 0,
        printed: &[ONE_REPORT],
        files: &[("p.v", Left::Text(ONE_PATCH)), ("o.v", Left::Text(ONE_OUT))],
        spent: Spent::Nothing,
    };
    try_trial(rt, fault.printed, present, None, &run)
}

#[test]
fn each_fault_is_told_and_leaves_the_files_usable(rt: HostRuntime) -> Result<(), Fail> {
    for fault in &FAULTS {
        try_fault(&rt, fault)?;
        try_again(&rt, fault)?;
    }
    Ok(())
}

/// The files of the problem, of which the specification may be missing.
fn sure_files(alloc: Global, specification: Option<&str>) -> Result<Vec<(String, Vec<u8>)>, Fail> {
    let mut files = Vec::new(alloc);
    files.push(named(alloc, "f.v", BUFFERED)?)?;
    files.push(named(alloc, "w.txt", WEIGHTS)?)?;
    if let Some(text) = specification {
        files.push(named(alloc, "g.v", text)?)?;
    }
    Ok(files)
}

/// What a run over a store and a sink that never fail leaves.
fn sure_ended(rt: &(impl Abort + AllocGlobal), specification: Option<&str>) -> Result<Ended, Fail> {
    let alloc = rt.alloc();
    let words = listed(alloc, &SYNTH)?;
    let files = sure_files(alloc, specification)?;
    assert!(rt; have_own_names(&files));
    let mut store = SureStore::new(alloc, files);
    let mut sink = SureSink::new(alloc);
    let status = status_of(alloc, words.as_slice(), &mut store, &mut sink);
    drop(words);
    drop(store);
    let printed = sink.written().to_vec(alloc);
    drop(sink);
    Ok(Ended {
        status,
        printed: printed?,
        spent: Spent::Nothing,
    })
}

/// Over a store and a sink that never fail: the files, and what comes of them.
fn try_sure(
    rt: &(impl Abort + AllocGlobal),
    specification: Option<&str>,
    status: u8,
    printed: &str,
) -> Result<(), Fail> {
    let ended = sure_ended(rt, specification)?;
    assert_eq!(rt; ended.status, status, "{printed}");
    assert!(rt; ended.printed.as_slice() == printed.as_bytes(), "{printed}");
    Ok(())
}

#[test]
fn nothing_fails_where_nothing_can(rt: HostRuntime) -> Result<(), Fail> {
    try_sure(&rt, Some(ONE), 0, ONE_REPORT)?;
    try_sure(&rt, None, 3, "refused spec syntax 0\n")
}

#[test]
fn a_missing_file_is_a_failed_read(rt: HostRuntime) -> Result<(), Fail> {
    let run = Trial {
        words: &SYNTH,
        more: &[],
        put_fails: false,
        status: 5,
        printed: &["failed g.v\n"],
        files: &[("p.v", Left::Nothing)],
        spent: Spent::Nothing,
    };
    let files = [("f.v", BUFFERED.as_bytes())];
    try_trial(&rt, "a missing file", &files, None, &run)
}
