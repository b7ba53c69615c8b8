//! Runs: files, words, and what has to come of them. The functions here own what a run needs, so those that compare need not.

use eco_cli::{Outcome, run};
use eco_outside::{MemSink, MemStore, Sink, Store, have_own_names};
use eco_pose::{Question, Stuck};
use std::alloc::Global;
use std::process::Abort;
use std::test::Fail;

/// An implementation whose output is its target.
pub const BUFFERED: &str =
    "module f (a, b, y); input a, b; output y; wire t_0; buf (y, t_0); endmodule";

/// A specification that asks for the conjunction of the inputs.
pub const AND: &str = "module g (a, b, y); input a, b; output y; and (y, a, b); endmodule";

/// A file that a run may write.
#[derive(Clone, Copy)]
pub enum Left {
    /// It isn't there.
    Nothing,
    /// It is there; which of several texts it has is left open.
    Something,
    /// It has just this text.
    Text(&'static str),
}

/// A problem, and what `synth` makes of it: its status, what it may print (one of the texts, in which `*` stands for a number),
/// and the files of the patch and of the patched netlist. Where the cared netlist's text is empty, all inputs are cared.
#[derive(Clone, Copy)]
pub struct Case<'a> {
    pub name: &'static str,
    pub implementation: &'a str,
    pub specification: &'a str,
    pub weights: &'static str,
    pub care: &'static str,
    pub status: u8,
    pub printed: &'a [&'a str],
    pub patch: Left,
    pub out: Left,
}

/// A weight for each of the inputs of `BUFFERED`.
pub const WEIGHTS: &str = "a 3\nb 5\n";

/// What is printed of the patch that makes `BUFFERED` do what `AND` does, at these weights: no other pairs show that its
/// signals are needed. How many gates it has is left open.
pub const AND_REPORT: &str =
    "patched\ncost 8\ngates *\ntarget t_0 2\nbase b 5\nforce1 11\nforce0 10\nbase a 3\nforce1 11\nforce0 01\n";

/// A specification that asks for a constant.
pub const ONE: &str = "module g (a, b, y); input a, b; output y; buf (y, 1'b1); endmodule";

/// What is printed of the patch that makes `BUFFERED` do what `ONE` does.
pub const ONE_REPORT: &str = "patched\ncost 0\ngates 1\ntarget t_0 0\n";

/// That patch.
pub const ONE_PATCH: &str = "module patch (t_0);\noutput t_0;\nbuf (t_0, 1'b1);\nendmodule\n";

/// `BUFFERED` with that patch.
pub const ONE_OUT: &str =
    "module f (a, b, y);\ninput a;\ninput b;\noutput y;\nwire t_0;\nbuf (y, t_0);\nbuf (t_0, 1'b1);\nendmodule\n";

/// The words of the command on the files `f.v`, `g.v`, `w.txt`, `p.v` and `o.v`.
pub const SYNTH: [&str; 12] = [
    "eco", "synth", "--impl", "f.v", "--spec", "g.v", "--weight", "w.txt", "--patch", "p.v",
    "--out", "o.v",
];

/// The words that ask for cared inputs alone, where there is a netlist that says which.
pub fn care_words(is_cared: bool) -> &'static [&'static str] {
    if is_cared { &["--care", "c.v"] } else { &[] }
}

/// The question that a run gives up, with the number of clauses that it learnt for it.
#[derive(Clone, Copy)]
pub enum Spent {
    /// There is none.
    Nothing,
    /// Whether listed values leave some input wrong.
    Rectify(u64),
    /// Whether two netlists are equal.
    Equal(u64),
    /// Any other question.
    Another,
}

/// What a run over a store in memory leaves, beside the files: its exit status, the bytes that it prints, and the question that
/// it gives up.
#[derive(Drop)]
pub struct Ended {
    pub status: u8,
    pub printed: Vec<u8>,
    pub spent: Spent,
}

/// A run, and what it has to leave.
#[derive(Clone, Copy)]
pub struct Trial<'a> {
    pub words: &'a [&'a str],
    /// The words behind those.
    pub more: &'a [&'a str],
    /// Whether the first put of the sink fails, which leaves nine bytes.
    pub put_fails: bool,
    pub status: u8,
    /// It prints one of these texts, in which each `*` stands for a number.
    pub printed: &'a [&'a str],
    /// Files that it may write.
    pub files: &'a [(&'a str, Left)],
    pub spent: Spent,
}

pub fn listed(alloc: Global, words: &[&str]) -> Result<Vec<String>, Fail> {
    let mut list = Vec::new(alloc);
    push_words(&mut list, alloc, words)?;
    Ok(list)
}

/// Puts copies of these words behind the list.
fn push_words(list: &mut Vec<String>, alloc: Global, words: &[&str]) -> Result<(), Fail> {
    for word in words {
        list.push(String::from_str(alloc, word)?)?;
    }
    Ok(())
}

pub fn named(alloc: Global, name: &str, text: &str) -> Result<(String, Vec<u8>), Fail> {
    named_bytes(alloc, name, text.as_bytes())
}

fn named_bytes(alloc: Global, name: &str, bytes: &[u8]) -> Result<(String, Vec<u8>), Fail> {
    Ok((String::from_str(alloc, name)?, bytes.to_vec(alloc)?))
}

/// The exit status of a run.
pub fn status_of(
    alloc: Global,
    words: &[String],
    store: &mut impl Store,
    sink: &mut impl Sink,
) -> u8 {
    status_and_spent(alloc, words, store, sink).0
}

/// The exit status of a run, and the question that it gives up.
fn status_and_spent(
    alloc: Global,
    words: &[String],
    store: &mut impl Store,
    sink: &mut impl Sink,
) -> (u8, Spent) {
    let outcome = run(alloc, words, store, sink);
    let left = (outcome.status, spent_of(&outcome));
    drop(outcome);
    left
}

fn spent_of(outcome: &Outcome) -> Spent {
    match &outcome.stuck {
        Some(stuck) => spent_on(stuck),
        None => Spent::Nothing,
    }
}

fn spent_on(stuck: &Stuck) -> Spent {
    let learnt = stuck.trace.len().saturating_sub(stuck.trace.originals());
    match &stuck.question {
        Question::Rectify { .. } => Spent::Rectify(learnt),
        Question::Equal { .. } => Spent::Equal(learnt),
        _ => Spent::Another,
    }
}

/// A list of this number where there is one.
fn number_list(alloc: Global, number: Option<u64>) -> Result<Vec<u64>, Fail> {
    let mut list = Vec::new(alloc);
    if let Some(number) = number {
        list.push(number)?;
    }
    Ok(list)
}

/// Copies of these files.
fn file_list(alloc: Global, files: &[(&str, &[u8])]) -> Result<Vec<(String, Vec<u8>)>, Fail> {
    let mut list = Vec::new(alloc);
    for file in files {
        list.push(named_bytes(alloc, file.0, file.1)?)?;
    }
    Ok(list)
}

/// A store with these files, whose call of that number fails, where there is one; a failing write leaves five bytes.
pub fn store_of(
    rt: &(impl Abort + AllocGlobal),
    files: &[(&str, &[u8])],
    call: Option<u64>,
) -> Result<MemStore, Fail> {
    let alloc = rt.alloc();
    let calls = number_list(alloc, call)?;
    let files = file_list(alloc, files)?;
    assert!(rt; have_own_names(&files));
    Ok(MemStore::new(alloc, files, calls, 5))
}

/// What a run of these words over the store leaves.
pub fn ended_over(
    alloc: Global,
    words: &[&str],
    more: &[&str],
    store: &mut impl Store,
) -> Result<Ended, Fail> {
    ended_at(alloc, words, more, None, store)
}

/// The same, where the put of that number fails.
fn ended_at(
    alloc: Global,
    words: &[&str],
    more: &[&str],
    put: Option<u64>,
    store: &mut impl Store,
) -> Result<Ended, Fail> {
    let puts = number_list(alloc, put)?;
    let mut list = listed(alloc, words)?;
    push_words(&mut list, alloc, more)?;
    let mut sink = MemSink::new(alloc, puts, 9);
    let (status, spent) = status_and_spent(alloc, list.as_slice(), store, &mut sink);
    drop(list);
    let printed = sink.written().to_vec(alloc);
    drop(sink);
    Ok(Ended {
        status,
        printed: printed?,
        spent,
    })
}

/// What a run over these files leaves.
pub fn ended_on(
    rt: &(impl Abort + AllocGlobal),
    files: &[(&str, &[u8])],
    words: &[&str],
    more: &[&str],
) -> Result<Ended, Fail> {
    let mut store = store_of(rt, files, None)?;
    let ended = ended_over(rt.alloc(), words, more, &mut store);
    drop(store);
    ended
}

/// Does the run over a store with these files, whose call of that number fails, and compares all that it leaves.
pub fn try_trial(
    rt: &(impl Abort + AllocGlobal),
    name: &str,
    files: &[(&str, &[u8])],
    call: Option<u64>,
    run: &Trial<'_>,
) -> Result<(), Fail> {
    let mut store = store_of(rt, files, call)?;
    let held = try_run(rt, name, run, &mut store);
    drop(store);
    held
}

/// The same, and then another run over what the first one left.
pub fn try_two(
    rt: &(impl Abort + AllocGlobal),
    name: &str,
    files: &[(&str, &[u8])],
    call: Option<u64>,
    first: &Trial<'_>,
    again: &Trial<'_>,
) -> Result<(), Fail> {
    let mut store = store_of(rt, files, call)?;
    let held = try_both(rt, name, first, again, &mut store);
    drop(store);
    held
}

fn try_both(
    rt: &(impl Abort + AllocGlobal),
    name: &str,
    first: &Trial<'_>,
    again: &Trial<'_>,
    store: &mut MemStore,
) -> Result<(), Fail> {
    try_run(rt, name, first, store)?;
    try_run(rt, name, again, store)
}

fn try_run(
    rt: &(impl Abort + AllocGlobal),
    name: &str,
    run: &Trial<'_>,
    store: &mut MemStore,
) -> Result<(), Fail> {
    let put = if run.put_fails { Some(0) } else { None };
    let ended = ended_at(rt.alloc(), run.words, run.more, put, store)?;
    compare(rt, name, run, &ended);
    drop(ended);
    compare_files(rt, name, run, store);
    Ok(())
}

fn compare(rt: &impl Abort, name: &str, run: &Trial<'_>, ended: &Ended) {
    assert_eq!(rt; ended.status, run.status, "{name}");
    assert!(rt; is_one_of(&ended.printed, run.printed), "{name}: printed");
    assert!(rt; is_same(ended.spent, run.spent), "{name}: given up");
}

fn compare_files(rt: &impl Abort, name: &str, run: &Trial<'_>, store: &MemStore) {
    for file in run.files {
        let path = file.0;
        assert!(rt; is_left(store, path, file.1), "{name}: {path}");
    }
}

/// Whether both are the same question, at as many learnt clauses.
pub fn is_same(one: Spent, other: Spent) -> bool {
    match (one, other) {
        (Spent::Nothing, Spent::Nothing) | (Spent::Another, Spent::Another) => true,
        (Spent::Rectify(learnt), Spent::Rectify(most)) => learnt == most,
        (Spent::Equal(learnt), Spent::Equal(most)) => learnt == most,
        _ => false,
    }
}

/// Runs `synth` on the case's files over a store in memory, and compares all that it leaves.
pub fn try_case(rt: &(impl Abort + AllocGlobal), case: &Case<'_>) -> Result<(), Fail> {
    let files = [
        ("f.v", case.implementation.as_bytes()),
        ("g.v", case.specification.as_bytes()),
        ("w.txt", case.weights.as_bytes()),
        ("c.v", case.care.as_bytes()),
    ];
    let is_cared = !case.care.is_empty();
    let run = Trial {
        words: &SYNTH,
        more: care_words(is_cared),
        put_fails: false,
        status: case.status,
        printed: case.printed,
        files: &[("p.v", case.patch), ("o.v", case.out)],
        spent: Spent::Nothing,
    };
    let count = if is_cared { 4 } else { 3 };
    try_trial(rt, case.name, &files[..count], None, &run)
}

/// Whether these bytes are one of the texts.
pub fn is_one_of(bytes: &[u8], texts: &[&str]) -> bool {
    texts.iter().any(|text| is_text(bytes, text))
}

/// Whether these bytes are the text, in which each `*` stands for a number.
pub fn is_text(bytes: &[u8], text: &str) -> bool {
    let mut rest = bytes;
    for (place, part) in text.split('*').enumerate() {
        if place > 0 {
            match behind_number(rest) {
                None => return false,
                Some(behind) => rest = behind,
            }
        }
        match rest.strip_prefix(part.as_bytes()) {
            None => return false,
            Some(behind) => rest = behind,
        }
    }
    rest.is_empty()
}

/// What stands behind the number that the bytes begin with; nothing if they begin with none.
fn behind_number(bytes: &[u8]) -> Option<&[u8]> {
    let count = bytes
        .iter()
        .take_while(|digit| digit.is_ascii_digit())
        .count();
    if count == 0 { None } else { bytes.get(count..) }
}

/// Whether the store has the file as it is to be left.
pub fn is_left(store: &MemStore, name: &str, left: Left) -> bool {
    match (store.get(name), left) {
        (Some(bytes), Left::Text(text)) => bytes == text.as_bytes(),
        (Some(_), Left::Something) | (None, Left::Nothing) => true,
        _ => false,
    }
}
