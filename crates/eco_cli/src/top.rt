//! The top call: all that the program does.

ghost use Rattle.std.specs.Prelude.{◌≡◌, ◌≢◌, ◌≤◌, ◌↔◌, ℕ, List, true, None, map, string_bytes, IfSome, IsSome};
ghost use Rattle.eco_words.specs.CommandLine.{audit_options_of, gen_options_of, locate_options_of, options_of, prove_options_of, recheck_options_of, IsAudit, IsCommand, IsExactlyOne, IsGen, IsLocate, IsProve, IsRecheck, IsSynth};
ghost use Rattle.eco_cli.specs.Answers.{IsDelivered, IsPut, code_of, writes_of};
ghost use Rattle.eco_cli.specs.Calls.{AsksInstance, IsAnswered, IsCutShort, IsDone, IsKept, IsRefused, IsBudgetSpent, IsShown, IsUsage, IsWriteFault, call_of, is_early_status, is_status};
ghost use Rattle.eco_cli.specs.Commands.{HasNumbers};
ghost use Rattle.eco_cli.specs.Exact.{IsComplete, IsExact};
ghost use Rattle.eco_cli.specs.Headline.{IsSynthHeadline};
ghost use Rattle.eco_cli.specs.OfGates.{IsSynthOfGates};
ghost use Rattle.eco_cli.specs.Runs.{IsRun};
ghost use Rattle.eco_gen.specs.Instance.{CanDraw};

use crate::answer::{Answer, Status};
use crate::delivery::{deliver, print};
use crate::printing::usage_text;
use eco_outside::{Sink, Store};
use eco_pose::Stuck;
use eco_targets::{Listener, Made, Silent};
use eco_words::{Audit, Gen, Invocation, Locate, Prove, Recheck, Synth, WordsError};
use std::alloc::Global;

/// How a run of the program ended.
#[derive(Drop)]
pub struct Outcome {
    /// The exit status: 0 done, 1 answered no, 2 usage, 3 refused input, 4 a question given up, 5 read fault, 6 write fault,
    /// 7 out of memory.
    pub status: u8,
    /// The question that was given up, exactly where the status is 4.
    pub stuck: Option<Stuck>,
    /// The patch of the problem that was drawn, with the patched netlist and the report, exactly where the words are the
    /// command `gen` and the status is 0.
    pub made: Option<Made>,
}

/// Does what the words ask for, over this store of files, and prints on this sink. The first word is the program's own
/// name.
pub fn run<S: Store, K: Sink>(
    alloc: Global,
    words: &[String],
    store: &mut S,
    sink: &mut K,
) -> Outcome
    ensures done { result.status ≡ 0 →
        IsDone (call_of (map string_bytes words.now) (S.view store.old) (S.view store.new) (K.view sink.old) (K.view sink.new)) }
    ensures refused { is_early_status result.status ≡ true →
        IsRefused (call_of (map string_bytes words.now) (S.view store.old) (S.view store.new) (K.view sink.old) (K.view sink.new)) result.status }
    ensures usage { result.status ≡ 2 →
        IsUsage (call_of (map string_bytes words.now) (S.view store.old) (S.view store.new) (K.view sink.old) (K.view sink.new)) }
    ensures spent { IfSome result.stuck
        (IsBudgetSpent (call_of (map string_bytes words.now) (S.view store.old) (S.view store.new) (K.view sink.old) (K.view sink.new))) }
    ensures keeps { (result.status ≡ 4) ↔ IsSome result.stuck }
    ensures made { IfSome result.made
        (IsShown (call_of (map string_bytes words.now) (S.view store.old) (S.view store.new) (K.view sink.old) (K.view sink.new))) }
    ensures makes { IsSome result.made ↔ ((result.status ≡ 0) × AsksInstance (map string_bytes words.now)) }
    ensures fault { result.status ≡ 6 →
        IsWriteFault (call_of (map string_bytes words.now) (S.view store.old) (S.view store.new) (K.view sink.old) (K.view sink.new)) }
    ensures cut { result.status ≡ 7 →
        IsCutShort (call_of (map string_bytes words.now) (S.view store.old) (S.view store.new) (K.view sink.old) (K.view sink.new)) }
    ensures known { is_status result.status ≡ true }
    ensures exactly { IsExact (call_of (map string_bytes words.now) (S.view store.old) (S.view store.new) (K.view sink.old) (K.view sink.new)) result.status }
    ensures complete { IsComplete (call_of (map string_bytes words.now) (S.view store.old) (S.view store.new) (K.view sink.old) (K.view sink.new)) result.status }
    ensures headline { IsSynthHeadline (call_of (map string_bytes words.now) (S.view store.old) (S.view store.new) (K.view sink.old) (K.view sink.new)) result.status }
    ensures of_gates { IsSynthOfGates (call_of (map string_bytes words.now) (S.view store.old) (S.view store.new) (K.view sink.old) (K.view sink.new)) result.status }
{
    run_heard(alloc, words, store, sink, &mut Silent::new())
}

/// The same, where a listener hears how far a long run of `synth` or `gen` is. What it does then bears on nothing that is said of
/// the run.
pub fn run_heard<S: Store, K: Sink, L: Listener>(
    alloc: Global,
    words: &[String],
    store: &mut S,
    sink: &mut K,
    listener: &mut L,
) -> Outcome
    ensures run { IsRun (call_of (map string_bytes words.now) (S.view store.old) (S.view store.new) (K.view sink.old) (K.view sink.new)) result }
{
    answered(alloc, words, store, sink, listener)
}

#[tactic(auto, using(crate::proofs::Answering::helped, crate::proofs::Answering::misused, crate::proofs::Answering::untouched))]
fn answered<S: Store, K: Sink, L: Listener>(
    alloc: Global,
    words: &[String],
    store: &mut S,
    sink: &mut K,
    listener: &mut L,
) -> Outcome
    ensures one { IsExactlyOne (map string_bytes words.now) }
    ensures answered { IsAnswered (call_of (map string_bytes words.now) (S.view store.old) (S.view store.new) (K.view sink.old) (K.view sink.new)) result.status result.stuck }
    ensures kept { IsKept (call_of (map string_bytes words.now) (S.view store.old) (S.view store.new) (K.view sink.old) (K.view sink.new)) result.status result.made }
{
    match eco_words::read(alloc, words) {
        Ok(invocation) => commanded(alloc, &invocation, store, sink, listener),
        Err(WordsError::Help(text)) => say(sink, text.as_str().as_bytes(), Status::Done),
        Err(WordsError::Faulty(text)) => say(sink, text.as_str().as_bytes(), Status::Usage),
        Err(WordsError::Number(option)) => say(sink, usage_text(option), Status::Usage),
        Err(WordsError::OutOfMemory) => ended(Status::OutOfMemory),
    }
}

/// The command that the words give.
fn commanded<S: Store, K: Sink, L: Listener>(
    alloc: Global,
    invocation: &Invocation<'_>,
    store: &mut S,
    sink: &mut K,
    listener: &mut L,
) -> Outcome
    requires numbers { HasNumbers invocation.now }
    ensures answered { (words : List (List ℕ)) → IsCommand words invocation.now →
        IsAnswered (call_of words (S.view store.old) (S.view store.new) (K.view sink.old) (K.view sink.new)) result.status result.stuck }
    ensures kept { (words : List (List ℕ)) → IsCommand words invocation.now →
        IsKept (call_of words (S.view store.old) (S.view store.new) (K.view sink.old) (K.view sink.new)) result.status result.made }
{
    match invocation {
        Invocation::Synth(command) => synth(alloc, command, store, sink, listener),
        Invocation::Audit(command) => audit(alloc, command, store, sink),
        Invocation::Prove(command) => prove(alloc, command, store, sink),
        Invocation::Recheck(command) => recheck(alloc, command, store, sink),
        Invocation::Gen(command) => draw(alloc, command, store, sink, listener),
        Invocation::Locate(command) => locate(alloc, command, store, sink),
    }
}

/// The command `synth`.
fn synth<S: Store, K: Sink, L: Listener>(
    alloc: Global,
    command: &Synth<'_>,
    store: &mut S,
    sink: &mut K,
    listener: &mut L,
) -> Outcome
    requires budget { 1 ≤ (options_of command.now).budget }
    ensures answered { (words : List (List ℕ)) → IsSynth words (options_of command.now) →
        IsAnswered (call_of words (S.view store.old) (S.view store.new) (K.view sink.old) (K.view sink.new)) result.status result.stuck }
    ensures unmade { result.made ≡ None }
{
    match crate::synth::prepare(alloc, command, store, listener) {
        Ok(answer) => give(store, sink, answer, None),
        Err(_) => ended(Status::OutOfMemory),
    }
}

/// The command `audit`.
fn audit<S: Store, K: Sink>(
    alloc: Global,
    command: &Audit<'_>,
    store: &mut S,
    sink: &mut K,
) -> Outcome
    requires budget { 1 ≤ (audit_options_of command.now).budget }
    ensures answered { (words : List (List ℕ)) → IsAudit words (audit_options_of command.now) →
        IsAnswered (call_of words (S.view store.old) (S.view store.new) (K.view sink.old) (K.view sink.new)) result.status result.stuck }
    ensures unmade { result.made ≡ None }
{
    match crate::audit::prepare(alloc, command, store) {
        Ok(answer) => give(store, sink, answer, None),
        Err(_) => ended(Status::OutOfMemory),
    }
}

/// The command `prove`.
fn prove<S: Store, K: Sink>(
    alloc: Global,
    command: &Prove<'_>,
    store: &mut S,
    sink: &mut K,
) -> Outcome
    requires budget { 1 ≤ (prove_options_of command.now).budget }
    ensures answered { (words : List (List ℕ)) → IsProve words (prove_options_of command.now) →
        IsAnswered (call_of words (S.view store.old) (S.view store.new) (K.view sink.old) (K.view sink.new)) result.status result.stuck }
    ensures unmade { result.made ≡ None }
{
    match crate::prove::prepare(alloc, command, store) {
        Ok(answer) => give(store, sink, answer, None),
        Err(_) => ended(Status::OutOfMemory),
    }
}

/// The command `recheck`.
fn recheck<S: Store, K: Sink>(
    alloc: Global,
    command: &Recheck<'_>,
    store: &mut S,
    sink: &mut K,
) -> Outcome
    ensures answered { (words : List (List ℕ)) → IsRecheck words (recheck_options_of command.now) →
        IsAnswered (call_of words (S.view store.old) (S.view store.new) (K.view sink.old) (K.view sink.new)) result.status result.stuck }
    ensures unmade { result.made ≡ None }
{
    match crate::recheck::prepare(alloc, command, store) {
        Ok(answer) => give(store, sink, answer, None),
        Err(_) => ended(Status::OutOfMemory),
    }
}

/// The command `gen`.
fn draw<S: Store, K: Sink, L: Listener>(
    alloc: Global,
    command: &Gen,
    store: &mut S,
    sink: &mut K,
    listener: &mut L,
) -> Outcome
    requires budget { 1 ≤ (gen_options_of command.now).budget }
    requires numbers { CanDraw (gen_options_of command.now).size (gen_options_of command.now).targets }
    ensures answered { (words : List (List ℕ)) → IsGen words (gen_options_of command.now) →
        IsAnswered (call_of words (S.view store.old) (S.view store.new) (K.view sink.old) (K.view sink.new)) result.status result.stuck }
    ensures kept { (words : List (List ℕ)) → IsGen words (gen_options_of command.now) →
        IsKept (call_of words (S.view store.old) (S.view store.new) (K.view sink.old) (K.view sink.new)) result.status result.made }
{
    match crate::draw::prepare(alloc, command, listener) {
        Ok(drawn) => give(store, sink, drawn.answer, drawn.made),
        Err(_) => ended(Status::OutOfMemory),
    }
}

/// The command `locate`.
fn locate<S: Store, K: Sink>(
    alloc: Global,
    command: &Locate<'_>,
    store: &mut S,
    sink: &mut K,
) -> Outcome
    requires budget { 1 ≤ (locate_options_of command.now).budget }
    ensures answered { (words : List (List ℕ)) → IsLocate words (locate_options_of command.now) →
        IsAnswered (call_of words (S.view store.old) (S.view store.new) (K.view sink.old) (K.view sink.new)) result.status result.stuck }
    ensures unmade { result.made ≡ None }
{
    match crate::locate::prepare(alloc, command, store) {
        Ok(answer) => give(store, sink, answer, None),
        Err(_) => ended(Status::OutOfMemory),
    }
}

/// Delivers what a command comes to. The question that was given up is kept where its text is printed, and what was made
/// where its summary is.
fn give<S: Store, K: Sink>(
    store: &mut S,
    sink: &mut K,
    answer: Answer<'_>,
    made: Option<Made>,
) -> Outcome
    ensures delivered { IsDelivered (writes_of answer.entry) answer.entry.text.items (code_of answer.entry.status)
        (S.view store.old) (S.view store.new) (K.view sink.old) (K.view sink.new) result.status }
    ensures kept { result.status ≡ 4 → result.stuck ≡ answer.entry.stuck }
    ensures none { result.status ≢ 4 → result.stuck ≡ None }
    ensures made { result.status ≡ 0 → result.made ≡ made }
    ensures unmade { result.status ≢ 0 → result.made ≡ None }
    ensures never { made ≡ None → result.made ≡ None }
{
    let status = deliver(store, sink, &answer);
    let Answer {
        writes,
        text,
        stuck,
        ..
    } = answer;
    drop(writes);
    drop(text);
    match status {
        Status::Done => {
            drop(stuck);
            Outcome {
                status: status.code(),
                stuck: None,
                made,
            }
        }
        Status::Spent => {
            drop(made);
            Outcome {
                status: status.code(),
                stuck,
                made: None,
            }
        }
        _ => {
            drop(stuck);
            drop(made);
            ended(status)
        }
    }
}

/// Prints a text, where the run is to end with this status.
fn say<K: Sink>(sink: &mut K, text: &[u8], status: Status) -> Outcome
    ensures put { IsPut (K.view sink.old) (K.view sink.new) text.now (code_of status) result.status }
    ensures none { result.stuck ≡ None }
    ensures unmade { result.made ≡ None }
{
    ended(print(sink, text, status))
}

/// The end with this status, where nothing is kept.
fn ended(status: Status) -> Outcome
    ensures status { result.status ≡ code_of status }
    ensures none { result.stuck ≡ None }
    ensures unmade { result.made ≡ None }
{
    Outcome {
        status: status.code(),
        stuck: None,
        made: None,
    }
}
