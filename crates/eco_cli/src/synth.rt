//! The command `synth`: from the files of a problem to a patch.

ghost use Rattle.std.specs.Prelude.{◌≡◌, ◌≤◌, IfErr, IfOk, if◌then◌else◌, true};
ghost use Rattle.eco_outside.specs.Store.{ReadKeeps, StoreView};
ghost use Rattle.eco_words.specs.CommandLine.{options_of};
ghost use Rattle.eco_bound.specs.Lower.{IsLowerBound};
ghost use Rattle.eco_meaning.specs.Meaning.{IsRectifiable};
ghost use Rattle.eco_meaning.specs.Report.{Meets};
ghost use Rattle.eco_pose.specs.Stuck.{IsUnfinished, NoneCompared};
ghost use Rattle.eco_query.specs.Problem.{HasTargets};
ghost use Rattle.eco_targets.specs.Made.{IsCause};
ghost use Rattle.eco_inputs.specs.Inputs.{AreFit, IsProblemOf};
ghost use Rattle.eco_inputs.specs.Paths.{lent};
ghost use Rattle.eco_inputs.specs.Reading.{Ends};
ghost use Rattle.eco_cli.specs.Answers.{IsTextAnswer, code_of};
ghost use Rattle.eco_cli.specs.Rules.{IsPrepared, stop_code};
ghost use Rattle.eco_cli.specs.Synth.{AreClosed, AreTexts, CanBound, IsChosenFor, IsMadeAnswer, IsMadeFor, IsPatchAnswer, bound_row, files_of, from_inputs, from_paths, is_no, long_file, path_of, problem_rows, stop_text, synth_rules};

use crate::answer::{Answer, Status, Written, text_answer, unread};
use crate::spent::unfinished_answer;
use eco_bound::bound;
use eco_cdcl::Watched;
use eco_inputs::{
    FileOption, Halt, InputError, Inputs, input_text, inputs_of, line, number_line, paired,
    problem_files_of, problem_path_of, refuse_repeats,
};
use eco_netlist::{Bits, OutOfMemory};
use eco_outside::Store;
use eco_pose::Unfinished;
use eco_query::Problem;
use eco_report::{Bound, report_text, unrectifiable_text};
use eco_targets::{Listener, Made, Stop as EngineStop, synthesise_heard, synthesise_least};
use eco_vwrite::write;
use eco_words::Synth;
use std::alloc::Global;

/// Why `synth` stops.
#[derive(Drop)]
pub enum SynthStop {
    /// The option names a file that an earlier option names.
    SamePath(FileOption),
    /// The files are no problem.
    NoProblem(InputError),
    /// What a base costs at least is asked for, and the implementation has this many targets, which is not one.
    BoundTargets(u64),
    /// No values of the targets are right at this input.
    Unrectifiable(Bits),
}

/// What `synth` comes to. It reads the implementation, the specification, the weights and the cared netlist, in this order,
/// and writes nothing.
pub fn prepare<'a, S: Store, L: Listener>(
    alloc: Global,
    command: &Synth<'a>,
    store: &mut S,
    listener: &mut L,
) -> Result<Answer<'a>, OutOfMemory>
    requires budget { 1 ≤ (options_of command.now).budget }
    ensures keeps { ReadKeeps (S.view store.old) (S.view store.new) }
    ensures prepared { IfOk result (IsPrepared (synth_rules (options_of command.now)) (S.view store.old) (S.view store.new)) }
{
    match problem_of(alloc, command, store) {
        Ok(problem) => solved(alloc, command, problem, listener),
        Err(Halt::For(stop)) => stopped(alloc, command, stop),
        Err(Halt::Unread(path)) => unread(alloc, path),
        Err(Halt::OutOfMemory) => Err(OutOfMemory),
    }
}

// ---- the problem

/// The path that the command gives for an option; nothing where it gives none.
fn path_of<'a>(command: &Synth<'a>, file: FileOption) -> &'a str
    ensures { result.now ≡ path_of (options_of command.now) file }
{
    match file {
        FileOption::Patch => command.patch,
        FileOption::Out => command.out,
        file => problem_path_of(&command.problem, file),
    }
}

/// The command's files, in the order of its options.
fn files_of<'a>(command: &Synth<'a>) -> [(FileOption, Option<&'a str>); 6]
    ensures { lent result ≡ files_of (options_of command.now) }
{
    let [implementation, specification, weight, care] = problem_files_of(&command.problem);
    [
        implementation,
        specification,
        weight,
        care,
        (FileOption::Patch, Some(command.patch)),
        (FileOption::Out, Some(command.out)),
    ]
}

/// The problem that the files are, where no row before the first question stops the command.
fn problem_of<'a, S: Store>(
    alloc: Global,
    command: &Synth<'a>,
    store: &mut S,
) -> Result<Problem, Halt<'a, SynthStop>>
    ensures keeps { ReadKeeps (S.view store.old) (S.view store.new) }
    ensures ends { Ends (long_file (options_of command.now)) (problem_rows (options_of command.now)) IsProblemOf (S.view store.old) (S.view store.new) result }
{
    match refuse_repeats(&files_of(command)) {
        Ok(()) => with_paths(alloc, command, store),
        Err(file) => Err(Halt::For(SynthStop::SamePath(file))),
    }
}

/// Reads the files, and pairs what they give.
fn with_paths<'a, S: Store>(
    alloc: Global,
    command: &Synth<'a>,
    store: &mut S,
) -> Result<Problem, Halt<'a, SynthStop>>
    ensures keeps { ReadKeeps (S.view store.old) (S.view store.new) }
    ensures ends { Ends (long_file (options_of command.now)) (from_paths (options_of command.now)) IsProblemOf (S.view store.old) (S.view store.new) result }
{
    match inputs_of(alloc, &command.problem, store) {
        Ok(inputs) => with_inputs(command, inputs),
        Err(halt) => Err(halt.map(SynthStop::NoProblem)),
    }
}

/// Pairs what was read, and sees whether a bound may be asked of it.
fn with_inputs<'a>(command: &Synth<'a>, inputs: Inputs) -> Result<Problem, Halt<'a, SynthStop>>
    requires fit { AreFit inputs }
    ensures { (store : StoreView) → Ends (long_file (options_of command.now)) (from_inputs (options_of command.now) inputs) IsProblemOf store store result }
{
    match paired(&command.problem, inputs) {
        Ok(problem) => bounded(command, problem),
        Err(halt) => Err(halt.map(SynthStop::NoProblem)),
    }
}

/// The problem, where no bound is asked for or it has one target.
fn bounded<'a>(command: &Synth<'a>, problem: Problem) -> Result<Problem, Halt<'a, SynthStop>>
    ensures { (store : StoreView) → Ends (long_file (options_of command.now)) (bound_row (options_of command.now) problem) IsProblemOf store store result }
{
    if !command.bound {
        return Ok(problem);
    }
    let count = problem.implementation().targets().len() as u64;
    if count == 1 {
        return Ok(problem);
    }
    drop(problem);
    Err(Halt::For(SynthStop::BoundTargets(count)))
}

// ---- its answer

/// What the problem is answered: a patch, an input that is wrong, or a question that was given up.
fn solved<'a, L: Listener>(
    alloc: Global,
    command: &Synth<'a>,
    problem: Problem,
    listener: &mut L,
) -> Result<Answer<'a>, OutOfMemory>
    requires budget { 1 ≤ (options_of command.now).budget }
    requires single { CanBound (options_of command.now) problem }
    ensures { (before after : StoreView) → (problem_rows (options_of command.now)).passes before.files problem
        → IfOk result (IsPrepared (synth_rules (options_of command.now)) before after) }
{
    let made = made_for(alloc, command, &problem, listener);
    drop(problem);
    match made {
        Ok(made) => patched(alloc, command, made),
        Err(EngineStop::Wrong(input)) => {
            stopped(alloc, command, SynthStop::Unrectifiable(input))
        }
        Err(EngineStop::Unfinished(unfinished)) => {
            unfinished_answer(alloc, command.budget, unfinished)
        }
    }
}

/// The patch of the problem, with what a base costs at least where that is asked for.
fn made_for<L: Listener>(
    alloc: Global,
    command: &Synth<'_>,
    problem: &Problem,
    listener: &mut L,
) -> Result<Made, EngineStop>
    requires budget { 1 ≤ (options_of command.now).budget }
    requires single { CanBound (options_of command.now) problem.now }
    ensures made { IfOk result (IsMadeFor (options_of command.now) problem.now) }
    ensures cause { IfErr result (IsCause problem.now (options_of command.now).budget) }
{
    let made = chosen_for(alloc, command, problem, listener)?;
    if command.bound {
        Ok(with_bound(alloc, command, problem, made)?)
    } else {
        Ok(made)
    }
}

/// The patch of the problem, with bases of least cost where an effort for them is asked for.
fn chosen_for<L: Listener>(
    alloc: Global,
    command: &Synth<'_>,
    problem: &Problem,
    listener: &mut L,
) -> Result<Made, EngineStop>
    requires budget { 1 ≤ (options_of command.now).budget }
    ensures made { IfOk result (λ made. IsChosenFor (options_of command.now) problem.now made.patch made.out made.report) }
    ensures cause { IfErr result (IsCause problem.now (options_of command.now).budget) }
{
    let limit = u64::from(command.budget);
    let mut refuter = Watched::new();
    match command.least {
        Some(effort) => synthesise_least(alloc, problem, &mut refuter, listener, limit, effort),
        None => synthesise_heard(alloc, problem, &mut refuter, listener, limit),
    }
}

/// What was made for a single target, with what a base costs at least.
fn with_bound(
    alloc: Global,
    command: &Synth<'_>,
    problem: &Problem,
    made: Made,
) -> Result<Made, Unfinished>
    requires budget { 1 ≤ (options_of command.now).budget }
    requires asked { (options_of command.now).bound ≡ true }
    requires single { HasTargets problem.now.implementation 1 }
    requires made { IsChosenFor (options_of command.now) problem.now made.patch made.out made.report }
    ensures made { IfOk result (IsMadeFor (options_of command.now) problem.now) }
    ensures unfinished { IfErr result (IsUnfinished problem.now NoneCompared (options_of command.now).budget) }
{
    match bound_of(alloc, problem, &made, u64::from(command.budget)) {
        Ok(bound) => Ok(made.with_bound(bound)),
        Err(unfinished) => {
            drop(made);
            Err(unfinished)
        }
    }
}

/// What a base of the single target costs at least, from the pairs of inputs that show that its signals are needed.
fn bound_of(alloc: Global, problem: &Problem, made: &Made, limit: u64) -> Result<Bound, Unfinished>
    requires limit { 1 ≤ limit }
    requires single { HasTargets problem.now.implementation 1 }
    requires rectifiable { IsRectifiable problem.now.implementation problem.now.goal }
    requires meets { Meets problem.now.implementation problem.now.goal problem.now.weights problem.now.input_weight made.now.patch made.now.out made.now.report }
    ensures bound { IfOk result (IsLowerBound problem.now made.now.patch) }
    ensures unfinished { IfErr result (IsUnfinished problem.now NoneCompared limit) }
{
    // it is checked
    let _ = made.patch.nets();
    let report = &made.report;
    let groups = report.groups.as_slice();
    let group = &groups[0];
    bound(
        alloc,
        problem,
        group.base.as_slice(),
        &mut Watched::new(),
        limit,
    )
}

/// The answer of what was made.
fn patched<'a>(alloc: Global, command: &Synth<'a>, made: Made) -> Result<Answer<'a>, OutOfMemory>
    requires closed { AreClosed made.patch made.out }
    ensures { IfOk result (IsMadeAnswer (options_of command.now) made) }
{
    let texts = texts_of(alloc, &made);
    drop(made);
    written(alloc, command, texts?)
}

/// What the command writes and prints.
#[derive(Drop)]
pub struct Texts {
    pub patch: Vec<u8>,
    pub out: Vec<u8>,
    pub report: Vec<u8>,
}

fn texts_of(alloc: Global, made: &Made) -> Result<Texts, OutOfMemory>
    requires closed { AreClosed made.now.patch made.now.out }
    ensures { IfOk result (AreTexts made.now.patch made.now.out made.now.report) }
{
    let patch = write(alloc, &made.patch)?;
    let out = write(alloc, &made.out)?;
    let report = report_text(alloc, &made.report)?;
    Ok(Texts { patch, out, report })
}

/// The answer of a patch: its files, and its report.
fn written<'a>(alloc: Global, command: &Synth<'a>, texts: Texts) -> Result<Answer<'a>, OutOfMemory>
    ensures { IfOk result (IsPatchAnswer (options_of command.now) texts) }
{
    let Texts { patch, out, report } = texts;
    let mut writes = Vec::new(alloc);
    writes.push(Written {
        path: command.patch,
        bytes: patch,
    })?;
    writes.push(Written {
        path: command.out,
        bytes: out,
    })?;
    Ok(Answer {
        status: Status::Done,
        writes,
        text: report,
        stuck: None,
    })
}

/// The answer of a stop: its text, and no file.
fn stopped<'a>(
    alloc: Global,
    command: &Synth<'a>,
    stop: SynthStop,
) -> Result<Answer<'a>, OutOfMemory>
    ensures { IfOk result (IsTextAnswer (stop_code (synth_rules (options_of command.now)) stop) (stop_text (options_of command.now) stop)) }
{
    let text = stop_text(alloc, command, &stop);
    let status = stop_status(&stop);
    drop(stop);
    Ok(text_answer(alloc, status, text?))
}

/// The exit status of a stop.
fn stop_status(stop: &SynthStop) -> Status
    ensures { code_of result ≡ (if is_no stop.now then 1 else 3) }
{
    match stop {
        SynthStop::Unrectifiable(_) => Status::No,
        SynthStop::SamePath(_) | SynthStop::NoProblem(_) | SynthStop::BoundTargets(_) =>
            Status::Refused,
    }
}

/// What is printed of a stop.
fn stop_text(alloc: Global, command: &Synth<'_>, stop: &SynthStop) -> Result<Vec<u8>, OutOfMemory>
    ensures text { IfOk result (λ text. text.items ≡ stop_text (options_of command.now) stop.now) }
{
    match stop {
        SynthStop::SamePath(file) => line(
            alloc,
            b"refused samepath ",
            path_of(command, *file).as_bytes(),
        ),
        SynthStop::NoProblem(error) => input_text(alloc, error),
        SynthStop::BoundTargets(count) => number_line(alloc, b"refused impl boundtargets ", *count),
        SynthStop::Unrectifiable(input) => unrectifiable_text(alloc, input.as_slice()),
    }
}
