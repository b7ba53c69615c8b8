//! The command `recheck`: whether the steps of a file prove that the clauses of another have no model.

ghost use Rattle.std.specs.Prelude.{◌≡◌, ◌≢◌, IfOk, IsTrue, MatchResult, if◌then◌else◌, ◌↔◌};
ghost use Rattle.eco_outside.specs.Store.{ReadKeeps};
ghost use Rattle.eco_words.specs.CommandLine.{recheck_options_of};
ghost use Rattle.eco_cli.specs.Answers.{IsTextAnswer, code_of};
ghost use Rattle.eco_inputs.specs.Reading.{Ends};
ghost use Rattle.eco_cli.specs.Recheck.{AreProof, AreRefuted, IsFlawHalt, flaw_text, from_clauses, from_files, is_flaw, long_proof, recheck_rows, recheck_rules, recheck_text};
ghost use Rattle.eco_cli.specs.Rules.{IsPrepared, stop_code};
ghost use Rattle.std.specs.Prelude.{codes};

use crate::answer::{Answer, Status, text_answer, unread};
use bumpalo::Bump;
use eco_check::{CheckError, check};
use eco_inputs::{
    CnfFile, FileError, Halt, MOST_PROOF_BYTES, Steps, TraceFile, line, line_error_line,
    number_line, read_file,
};
use eco_netlist::OutOfMemory;
use eco_outside::Store;
use eco_trace::Cnf;
use eco_words::Recheck;
use std::alloc::Global;

/// What is wrong with a proof.
#[derive(Drop)]
pub enum Flaw {
    /// The step of this number, counted from 1, is the first that isn't legal.
    BadStep(u64),
    /// Each step is legal, and the last clause isn't empty.
    NoEmptyClause,
}

/// Why `recheck` stops.
#[derive(Drop)]
pub enum RecheckStop {
    /// The two options name one file.
    SamePath,
    /// The file of clauses gives none.
    InClauses(FileError<u64>),
    /// The file of the proof gives no steps.
    InSteps(FileError<u64>),
    /// The steps are no proof that the clauses have no model.
    Flawed(Flaw),
}

/// What `recheck` comes to. It reads the clauses and the proof, in this order, and writes nothing.
pub fn prepare<'a, S: Store>(
    alloc: Global,
    command: &Recheck<'a>,
    store: &mut S,
) -> Result<Answer<'a>, OutOfMemory>
    ensures keeps { ReadKeeps (S.view store.old) (S.view store.new) }
    ensures prepared { IfOk result (IsPrepared (recheck_rules (recheck_options_of command.now)) (S.view store.old) (S.view store.new)) }
{
    match refuted(alloc, command, store) {
        Ok(()) => done(alloc),
        Err(Halt::For(stop)) => stopped(alloc, command, stop),
        Err(Halt::Unread(path)) => unread(alloc, path),
        Err(Halt::OutOfMemory) => Err(OutOfMemory),
    }
}

// ---- its rows

/// Goes through all rows.
fn refuted<'a, S: Store>(
    alloc: Global,
    command: &Recheck<'a>,
    store: &mut S,
) -> Result<(), Halt<'a, RecheckStop>>
    ensures keeps { ReadKeeps (S.view store.old) (S.view store.new) }
    ensures ends { Ends (long_proof (recheck_options_of command.now)) (recheck_rows (recheck_options_of command.now)) AreRefuted (S.view store.old) (S.view store.new) result }
{
    if are_one_file(command) {
        Err(Halt::For(RecheckStop::SamePath))
    } else {
        with_paths(alloc, command, store)
    }
}

/// Whether the two options name one file.
fn are_one_file(command: &Recheck<'_>) -> bool
    ensures { IsTrue result ↔ ((recheck_options_of command.now).cnf ≡ (recheck_options_of command.now).trace) }
{
    command.cnf == command.trace
}

/// Reads the clauses.
fn with_paths<'a, S: Store>(
    alloc: Global,
    command: &Recheck<'a>,
    store: &mut S,
) -> Result<(), Halt<'a, RecheckStop>>
    ensures keeps { ReadKeeps (S.view store.old) (S.view store.new) }
    ensures ends { Ends (long_proof (recheck_options_of command.now)) (from_files (recheck_options_of command.now)) AreRefuted (S.view store.old) (S.view store.new) result }
{
    match read_file(alloc, store, &CnfFile, command.cnf, MOST_PROOF_BYTES) {
        Ok(cnf) => {
            let proved = with_clauses(alloc, command, store, &cnf);
            drop(cnf);
            proved
        }
        Err(halt) => Err(halt.map(RecheckStop::InClauses)),
    }
}

/// Reads the proof, and checks it.
fn with_clauses<'a, S: Store>(
    alloc: Global,
    command: &Recheck<'a>,
    store: &mut S,
    cnf: &Cnf,
) -> Result<(), Halt<'a, RecheckStop>>
    ensures keeps { ReadKeeps (S.view store.old) (S.view store.new) }
    ensures ends { Ends (long_proof (recheck_options_of command.now)) (from_clauses (recheck_options_of command.now) cnf.now) AreRefuted (S.view store.old) (S.view store.new) result }
{
    match read_file(alloc, store, &TraceFile, command.trace, MOST_PROOF_BYTES) {
        Ok(steps) => {
            let proved = checked(alloc, cnf, &steps);
            drop(steps);
            proved
        }
        Err(halt) => Err(halt.map(RecheckStop::InSteps)),
    }
}

/// Checks that the steps prove that the clauses have no model.
fn checked<'a>(alloc: Global, cnf: &Cnf, steps: &Steps) -> Result<(), Halt<'a, RecheckStop>>
    ensures { MatchResult result (λ _. AreProof cnf.now steps.now) (IsFlawHalt cnf.now steps.now) }
{
    let arena = Bump::new(alloc);
    match check(alloc, cnf, steps.as_slice(), &arena) {
        Ok(_) => Ok(()),
        Err(CheckError::BadStep(number)) => Err(Halt::For(RecheckStop::Flawed(Flaw::BadStep(
            number,
        )))),
        Err(CheckError::NoEmptyClause) => {
            Err(Halt::For(RecheckStop::Flawed(Flaw::NoEmptyClause)))
        }
        Err(CheckError::OutOfMemory) => Err(Halt::OutOfMemory),
    }
}

// ---- its answer

/// The answer where the clauses have no model.
fn done<'a>(alloc: Global) -> Result<Answer<'a>, OutOfMemory>
    ensures { IfOk result (IsTextAnswer 0 (codes "refuted\n")) }
{
    let text = Vec::from_slice(alloc, b"refuted\n")?;
    Ok(text_answer(alloc, Status::Done, text))
}

/// The answer of a stop: its text, and no file.
fn stopped<'a>(
    alloc: Global,
    command: &Recheck<'a>,
    stop: RecheckStop,
) -> Result<Answer<'a>, OutOfMemory>
    ensures { IfOk result (IsTextAnswer (stop_code (recheck_rules (recheck_options_of command.now)) stop) (recheck_text (recheck_options_of command.now) stop)) }
{
    let text = stop_text(alloc, command, &stop);
    let status = stop_status(&stop);
    drop(stop);
    Ok(text_answer(alloc, status, text?))
}

/// The exit status of a stop.
fn stop_status(stop: &RecheckStop) -> Status
    ensures { code_of result ≡ (if is_flaw stop.now then 1 else 3) }
{
    match stop {
        RecheckStop::Flawed(_) => Status::No,
        RecheckStop::SamePath | RecheckStop::InClauses(_) | RecheckStop::InSteps(_) => {
            Status::Refused
        }
    }
}

/// What is printed of a stop.
fn stop_text(
    alloc: Global,
    command: &Recheck<'_>,
    stop: &RecheckStop,
) -> Result<Vec<u8>, OutOfMemory>
    ensures { IfOk result (λ text. text.items ≡ recheck_text (recheck_options_of command.now) stop.now) }
{
    match stop {
        RecheckStop::SamePath => line(alloc, b"refused samepath ", command.trace.as_bytes()),
        RecheckStop::InClauses(error) => line_error_line(alloc, b"cnf", b"syntax", error),
        RecheckStop::InSteps(error) => line_error_line(alloc, b"trace", b"syntax", error),
        RecheckStop::Flawed(flaw) => flaw_line(alloc, flaw),
    }
}

fn flaw_line(alloc: Global, flaw: &Flaw) -> Result<Vec<u8>, OutOfMemory>
    ensures { IfOk result (λ text. text.items ≡ flaw_text flaw.now) }
{
    match flaw {
        Flaw::BadStep(number) => number_line(alloc, b"badstep ", *number),
        Flaw::NoEmptyClause => line(alloc, b"noempty", b""),
    }
}
