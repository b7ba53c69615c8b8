//! The command `prove`: whether two netlists have the same outputs on every input, with a proof where they have.

ghost use Rattle.std.specs.Prelude.{◌≡◌, ◌≤◌, IfErr, IfOk, codes, decimal, length, map, ◌++◌, if◌then◌else◌};
ghost use Rattle.eco_outside.specs.Store.{ReadKeeps, StoreView};
ghost use Rattle.eco_pose.specs.Equality.{IsComparisonUnfinished, IsEquality};
ghost use Rattle.eco_query.specs.Problem.{IsClosed};
ghost use Rattle.eco_words.specs.CommandLine.{ProveOptions, prove_options_of};
ghost use Rattle.eco_inputs.specs.declared.TheConstants.{MOST_PROOF_BYTES};
ghost use Rattle.eco_cli.specs.declared.prove.ProveStop.TheVariants.{PortsDiffer};
ghost use Rattle.eco_cli.specs.Answers.{IsTextAnswer, code_of};
ghost use Rattle.eco_cli.specs.Prove.{AreComparable, AreKept, AreSides, IsPortHalt, IsProofAnswer, file_name, file_path, from_left, from_netlists, is_difference, long_side, ports_row, prove_files_of, prove_rows, prove_rules, prove_text, sides_rows};
ghost use Rattle.eco_inputs.specs.Paths.{lent};
ghost use Rattle.eco_inputs.specs.Reading.{Ends};
ghost use Rattle.eco_inputs.specs.Rows.{named_row};
ghost use Rattle.eco_cli.specs.Rules.{IsPrepared, stop_code};

use crate::answer::{Answer, Status, Written, text_answer, unread};
use crate::spent::unfinished_answer;
use bumpalo::Bump;
use eco_cdcl::Guided;
use eco_guide::EqualityGuide;
use eco_inputs::{
    FileError, Halt, MOST_BYTES, NetlistError, bits_line, closed_netlist, file_error_line, line,
    number_line, refuse_repeats,
};
use eco_netlist::{Bits, Name, Netlist, OutOfMemory};
use eco_outside::Store;
use eco_pose::{Equality, Posed, Unfinished, equal};
use eco_prooftext::{write_cnf, write_trace};
use eco_query::unlike_port;
use eco_trace::Trace;
use eco_words::Prove;
use std::alloc::Global;

/// A file of the command, by the option that names it.
#[derive(Clone, Copy)]
pub enum ProveFile {
    Left,
    Right,
    Cnf,
    Trace,
}

/// Why `prove` stops.
#[derive(Drop)]
pub enum ProveStop {
    /// The option names a file that an earlier option names.
    SamePath(ProveFile),
    /// The file gives no netlist.
    InNetlist(ProveFile, FileError<NetlistError>),
    /// A port of one netlist alone, or an input of one and an output of the other.
    PortsDiffer(Name),
    /// The netlists have different outputs at this input.
    Differs(Bits),
}

/// The two netlists that are compared.
#[derive(Drop)]
pub struct Sides {
    pub left: Netlist,
    pub right: Netlist,
}

/// What `prove` comes to. It reads the left netlist and the right one, in this order, and writes nothing.
pub fn prepare<'a, S: Store>(
    alloc: Global,
    command: &Prove<'a>,
    store: &mut S,
) -> Result<Answer<'a>, OutOfMemory>
    requires budget { 1 ≤ (prove_options_of command.now).budget }
    ensures keeps { ReadKeeps (S.view store.old) (S.view store.new) }
    ensures prepared { IfOk result (IsPrepared (prove_rules (prove_options_of command.now)) (S.view store.old) (S.view store.new)) }
{
    match sides_of(alloc, command, store) {
        Ok(sides) => {
            let answer = compared(alloc, command, &sides);
            drop(sides);
            answer
        }
        Err(Halt::For(stop)) => stopped(alloc, command, stop),
        Err(Halt::Unread(path)) => unread(alloc, path),
        Err(Halt::OutOfMemory) => Err(OutOfMemory),
    }
}

// ---- the two netlists

/// The netlists that the files are, where no row before the question stops the command.
fn sides_of<'a, S: Store>(
    alloc: Global,
    command: &Prove<'a>,
    store: &mut S,
) -> Result<Sides, Halt<'a, ProveStop>>
    ensures keeps { ReadKeeps (S.view store.old) (S.view store.new) }
    ensures comparable { IfOk result AreComparable }
    ensures ends { Ends (long_side (prove_options_of command.now)) (sides_rows (prove_options_of command.now)) AreSides (S.view store.old) (S.view store.new) result }
{
    match refuse_repeats(&files_of(command)) {
        Ok(()) => with_paths(alloc, command, store),
        Err(file) => Err(Halt::For(ProveStop::SamePath(file))),
    }
}

/// Reads the left netlist.
fn with_paths<'a, S: Store>(
    alloc: Global,
    command: &Prove<'a>,
    store: &mut S,
) -> Result<Sides, Halt<'a, ProveStop>>
    ensures keeps { ReadKeeps (S.view store.old) (S.view store.new) }
    ensures comparable { IfOk result AreComparable }
    ensures ends { Ends (long_side (prove_options_of command.now)) (from_netlists (prove_options_of command.now)) AreSides (S.view store.old) (S.view store.new) result }
{
    match closed_netlist(alloc, store, command.left, MOST_BYTES) {
        Ok(left) => with_left(alloc, command, store, left),
        Err(halt) => Err(halt.map(|error| ProveStop::InNetlist(ProveFile::Left, error))),
    }
}

/// Reads the right netlist, and compares the ports.
fn with_left<'a, S: Store>(
    alloc: Global,
    command: &Prove<'a>,
    store: &mut S,
    left: Netlist,
) -> Result<Sides, Halt<'a, ProveStop>>
    requires closed { IsClosed left }
    ensures keeps { ReadKeeps (S.view store.old) (S.view store.new) }
    ensures comparable { IfOk result AreComparable }
    ensures ends { Ends (long_side (prove_options_of command.now)) (from_left (prove_options_of command.now) left) AreSides (S.view store.old) (S.view store.new) result }
{
    match closed_netlist(alloc, store, command.right, MOST_BYTES) {
        Ok(right) => matched(left, right),
        Err(halt) => {
            drop(left);
            Err(halt.map(|error| ProveStop::InNetlist(ProveFile::Right, error)))
        }
    }
}

/// The two netlists, where they have the same ports.
fn matched<'a>(left: Netlist, right: Netlist) -> Result<Sides, Halt<'a, ProveStop>>
    requires left_closed { IsClosed left }
    requires right_closed { IsClosed right }
    ensures comparable { IfOk result AreComparable }
    ensures ends { (options : ProveOptions) (store : StoreView) → Ends (long_side options) (named_row PortsDiffer (ports_row left right)) AreSides store store result }
{
    // both are checked
    let _ = (left.nets(), right.nets());
    match unlike_port(&left, &right) {
        None => Ok(Sides { left, right }),
        Some(name) => {
            let halt = of_port(name);
            drop(left);
            drop(right);
            Err(halt)
        }
    }
}

/// The halt at this name of a port.
fn of_port<'a>(name: &Name) -> Halt<'a, ProveStop>
    ensures { IsPortHalt name.now result }
{
    match name.copy() {
        Ok(name) => Halt::For(ProveStop::PortsDiffer(name)),
        Err(_) => Halt::OutOfMemory,
    }
}

/// The path that the command gives for an option.
fn file_path<'a>(command: &Prove<'a>, file: ProveFile) -> &'a str
    ensures { result.now ≡ file_path (prove_options_of command.now) file }
{
    match file {
        ProveFile::Left => command.left,
        ProveFile::Right => command.right,
        ProveFile::Cnf => command.cnf,
        ProveFile::Trace => command.trace,
    }
}

/// The command's files, in the order of its options.
fn files_of<'a>(command: &Prove<'a>) -> [(ProveFile, Option<&'a str>); 4]
    ensures { lent result ≡ prove_files_of (prove_options_of command.now) }
{
    [
        (ProveFile::Left, Some(command.left)),
        (ProveFile::Right, Some(command.right)),
        (ProveFile::Cnf, Some(command.cnf)),
        (ProveFile::Trace, Some(command.trace)),
    ]
}

fn file_name(file: ProveFile) -> &'static [u8]
    ensures { result.now ≡ file_name file }
{
    match file {
        ProveFile::Left => b"left",
        ProveFile::Right => b"right",
        ProveFile::Cnf => b"cnf",
        ProveFile::Trace => b"trace",
    }
}

// ---- its answer

/// What the two netlists are answered: a proof that they are equal, an input at which they differ, or a question that was
/// given up.
fn compared<'a>(
    alloc: Global,
    command: &Prove<'a>,
    sides: &Sides,
) -> Result<Answer<'a>, OutOfMemory>
    requires budget { 1 ≤ (prove_options_of command.now).budget }
    requires comparable { AreComparable sides.now }
    ensures { (before after : StoreView) → (sides_rows (prove_options_of command.now)).passes before.files sides.now
        → IfOk result (IsPrepared (prove_rules (prove_options_of command.now)) before after) }
{
    let arena = Bump::new(alloc);
    let limit = u64::from(command.budget);
    match guided_equality(alloc, sides, limit, &arena) {
        Ok(Equality::Equal { posed, trace }) => {
            let answer = proved(alloc, command, &posed, &trace);
            drop(posed);
            drop(trace);
            answer
        }
        Ok(Equality::Differs(input)) => stopped(alloc, command, ProveStop::Differs(input)),
        Err(unfinished) => unfinished_answer(alloc, command.budget, unfinished),
    }
}

/// Whether the two netlists are equal, by a search that is guided to nets of both that are equal.
fn guided_equality<'t>(
    alloc: Global,
    sides: &Sides,
    limit: u64,
    arena: &'t Bump,
) -> Result<Equality<'t>, Unfinished>
    requires comparable { AreComparable sides.now }
    requires limit { 1 ≤ limit }
    ensures equality { IfOk result (IsEquality sides.now.left sides.now.right limit) }
    ensures unfinished { IfErr result (IsComparisonUnfinished sides.now.left sides.now.right limit) }
{
    let mut search = Guided::new(EqualityGuide::new(alloc));
    let found = equal(alloc, &sides.left, &sides.right, &mut search, limit, arena);
    drop(search);
    found
}

/// The answer of a proof: its clauses and its steps in their files, and how many steps there are.
fn proved<'a>(
    alloc: Global,
    command: &Prove<'a>,
    posed: &Posed,
    trace: &Trace<'_>,
) -> Result<Answer<'a>, OutOfMemory>
    ensures answer { IfOk result (IsProofAnswer (prove_options_of command.now) posed.now.clauses trace.now) }
    ensures kept { AreKept posed.now.clauses trace.now }
{
    trace.is_sound();
    let cnf = posed.cnf();
    let _ = cnf.clauses();
    let clauses = write_cnf(alloc, cnf)?;
    let steps = write_trace(alloc, trace)?;
    fits(&clauses);
    fits(&steps);
    let text = number_line(alloc, b"equal ", step_count(trace))?;
    let mut writes = Vec::new(alloc);
    writes.push(Written {
        path: command.cnf,
        bytes: clauses,
    })?;
    writes.push(Written {
        path: command.trace,
        bytes: steps,
    })?;
    Ok(Answer {
        status: Status::Done,
        writes,
        text,
        stuck: None,
    })
}

/// Hands out that bytes in memory are not too long to be read again.
fn fits(bytes: &Vec<u8>)
    ensures { length bytes.now.items ≤ MOST_PROOF_BYTES }
{}

/// How many steps a proof has.
fn step_count(trace: &Trace<'_>) -> u64
    ensures { result ≡ length trace.now.learnt }
{
    trace.len() - trace.originals()
}

/// The answer of a stop: its text, and no file.
fn stopped<'a>(
    alloc: Global,
    command: &Prove<'a>,
    stop: ProveStop,
) -> Result<Answer<'a>, OutOfMemory>
    ensures { IfOk result (IsTextAnswer (stop_code (prove_rules (prove_options_of command.now)) stop) (prove_text (prove_options_of command.now) stop)) }
{
    let text = stop_text(alloc, command, &stop);
    let status = stop_status(&stop);
    drop(stop);
    Ok(text_answer(alloc, status, text?))
}

/// The exit status of a stop.
fn stop_status(stop: &ProveStop) -> Status
    ensures { code_of result ≡ (if is_difference stop.now then 1 else 3) }
{
    match stop {
        ProveStop::Differs(_) => Status::No,
        ProveStop::SamePath(_) | ProveStop::InNetlist(..) | ProveStop::PortsDiffer(_) => {
            Status::Refused
        }
    }
}

/// What is printed of a stop.
fn stop_text(alloc: Global, command: &Prove<'_>, stop: &ProveStop) -> Result<Vec<u8>, OutOfMemory>
    ensures { IfOk result (λ text. text.items ≡ prove_text (prove_options_of command.now) stop.now) }
{
    match stop {
        ProveStop::SamePath(file) => line(
            alloc,
            b"refused samepath ",
            file_path(command, *file).as_bytes(),
        ),
        ProveStop::InNetlist(file, error) => file_error_line(alloc, file_name(*file), error),
        ProveStop::PortsDiffer(name) => line(alloc, b"refused ports ", name.bytes()),
        ProveStop::Differs(input) => bits_line(alloc, b"differs ", input.as_slice()),
    }
}
