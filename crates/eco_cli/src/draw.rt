//! The command `gen`: a problem that is drawn, and what its patch comes to.

ghost use Rattle.std.specs.Prelude.{◌≡◌, ◌≤◌, ◌++◌, codes, decimal, IfOk};
ghost use Rattle.eco_gen.specs.Instance.{CanDraw};
ghost use Rattle.eco_meaning.specs.Report.{signals_of};
ghost use Rattle.eco_pose.specs.Stuck.{IsStuck, IsUnfinished, NoneCompared};
ghost use Rattle.eco_words.specs.CommandLine.{gen_options_of};
ghost use Rattle.eco_cli.specs.Gen.{IsDrawnAnswer, KeepsMade, KeepsStuck, SolvesDrawn, drawn, instance_text, summary_text};
ghost use Rattle.eco_cli.specs.Printing.{question_word};

use crate::answer::{Answer, Status, spent_answer, text_answer};
use crate::printing::{add_line, budget_line};
use eco_cdcl::Watched;
use eco_gen::problem;
use eco_netlist::OutOfMemory;
use eco_pose::{Question, Stuck, Unfinished};
use eco_targets::{Listener, Made, Stop as EngineStop, synthesise_heard};
use eco_words::Gen;
use itoa::Buffer;
use std::alloc::Global;

/// What `gen` comes to.
#[derive(Drop)]
pub struct Drawn<'a> {
    pub answer: Answer<'a>,
    /// The patch of the problem that was drawn, with the patched netlist and the report, where the answer is its summary.
    pub made: Option<Made>,
}

/// What `gen` comes to. It reads and writes nothing.
pub fn prepare<'a, L: Listener>(
    alloc: Global,
    command: &Gen,
    listener: &mut L,
) -> Result<Drawn<'a>, OutOfMemory>
    requires budget { 1 ≤ (gen_options_of command.now).budget }
    requires numbers { CanDraw (gen_options_of command.now).size (gen_options_of command.now).targets }
    ensures { IfOk result (IsDrawnAnswer (gen_options_of command.now)) }
{
    let size = u64::from(command.size);
    let targets = u64::from(command.targets);
    let limit = u64::from(command.budget);
    let problem = problem(alloc, command.seed, size, targets)?;
    let solved = synthesise_heard(alloc, &problem, &mut Watched::new(), listener, limit);
    drop(problem);
    match solved {
        Ok(made) => summarised(alloc, command, made),
        Err(EngineStop::Unfinished(unfinished)) => left(alloc, command, unfinished),
        Err(EngineStop::Wrong(_)) => unreachable!(),
    }
}

/// The answer of what was made: its summary.
fn summarised<'a>(alloc: Global, command: &Gen, made: Made) -> Result<Drawn<'a>, OutOfMemory>
    requires solves { SolvesDrawn (gen_options_of command.now) made.patch made.out made.report }
    ensures { IfOk result (KeepsMade (gen_options_of command.now) made) }
{
    match summary(alloc, command, &made) {
        Ok(text) => Ok(Drawn {
            answer: text_answer(alloc, Status::Done, text),
            made: Some(made),
        }),
        Err(error) => {
            drop(made);
            Err(error)
        }
    }
}

/// What is printed of what was made.
fn summary(alloc: Global, command: &Gen, made: &Made) -> Result<Vec<u8>, OutOfMemory>
    requires signals { made.now.patch.inputs ≡ signals_of made.now.report }
    ensures { IfOk result (λ text. text.items ≡ summary_text (gen_options_of command.now) made.now.report) }
{
    let mut text = first_line(alloc, command)?;
    add_line(&mut text, b"cost ", made.report.cost)?;
    add_line(&mut text, b"gates ", made.report.gates)?;
    add_line(&mut text, b"base ", made.patch.inputs().len() as u64)?;
    Ok(text)
}

/// The first line, which tells the numbers.
fn first_line(alloc: Global, command: &Gen) -> Result<Vec<u8>, OutOfMemory>
    ensures { IfOk result (λ text. text.items ≡ instance_text (gen_options_of command.now)) }
{
    let mut buffer = Buffer::new();
    let mut text = Vec::from_slice(alloc, b"instance ")?;
    text.extend_from_slice(buffer.format(command.seed).as_bytes())?;
    text.extend_from_slice(b" ")?;
    text.extend_from_slice(buffer.format(command.size).as_bytes())?;
    text.extend_from_slice(b" ")?;
    text.extend_from_slice(buffer.format(command.targets).as_bytes())?;
    text.extend_from_slice(b"\n")?;
    Ok(text)
}

/// What `gen` comes to where a question was given up; nothing where memory ran out.
fn left<'a>(alloc: Global, command: &Gen, unfinished: Unfinished) -> Result<Drawn<'a>, OutOfMemory>
    requires { IsUnfinished (drawn (gen_options_of command.now)) NoneCompared (gen_options_of command.now).budget unfinished }
    ensures { IfOk result (IsDrawnAnswer (gen_options_of command.now)) }
{
    match unfinished {
        Unfinished::GivenUp(stuck) => spent(alloc, command, Box::into_inner(stuck)),
        Unfinished::OutOfMemory => Err(OutOfMemory),
    }
}

/// The answer of a question that was given up: its text.
fn spent<'a>(alloc: Global, command: &Gen, stuck: Stuck) -> Result<Drawn<'a>, OutOfMemory>
    requires given_up { IsStuck (drawn (gen_options_of command.now)) NoneCompared (gen_options_of command.now).budget stuck }
    ensures { IfOk result (KeepsStuck (gen_options_of command.now) stuck) }
{
    match spent_lines(alloc, command, &stuck.question) {
        Ok(text) => Ok(Drawn {
            answer: spent_answer(alloc, text, stuck),
            made: None,
        }),
        Err(error) => {
            drop(stuck);
            Err(error)
        }
    }
}

/// What is printed of a question that was given up.
fn spent_lines(alloc: Global, command: &Gen, question: &Question) -> Result<Vec<u8>, OutOfMemory>
    ensures { IfOk result (λ text. text.items ≡ instance_text (gen_options_of command.now) ++ (codes "budget " ++ question_word question.now
        ++ codes " " ++ decimal (gen_options_of command.now).budget ++ codes "\n")) }
{
    let mut text = first_line(alloc, command)?;
    let line = budget_line(alloc, command.budget, question)?;
    text.extend_from_slice(line.as_slice())?;
    Ok(text)
}
