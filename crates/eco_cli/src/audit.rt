//! The command `audit`: whether a report, a patch and a patched netlist solve a problem.

ghost use Rattle.std.specs.Prelude.{◌≡◌, ◌≤◌, ◌++◌, codes, decimal, map, true, IfErr, IfOk, if◌then◌else◌};
ghost use Rattle.eco_audit.specs.Files.{IsLeftOpen, IsRuling};
ghost use Rattle.eco_outside.specs.Store.{ReadKeeps, StoreView};
ghost use Rattle.eco_query.specs.Problem.{IsClosed};
ghost use Rattle.eco_report.specs.Texts.{bit_digit};
ghost use Rattle.eco_words.specs.CommandLine.{audit_options_of};
ghost use Rattle.eco_inputs.specs.Inputs.{AreFit, input_rows};
ghost use Rattle.eco_inputs.specs.Paths.{lent};
ghost use Rattle.eco_inputs.specs.Reading.{Ends, Halts, IsPassed};
ghost use Rattle.eco_inputs.specs.Rows.{named_row};
ghost use Rattle.eco_cli.specs.declared.audit.AuditStop.TheVariants.{InMade, InReport, NoProblem};
ghost use Rattle.eco_cli.specs.Answers.{IsTextAnswer, code_of};
ghost use Rattle.eco_cli.specs.Audit.{AreMadeClosed, IsAuditedOf, IsUsable, audit_files_of, audit_path_of, audit_rules, audit_text, audited_rows, finding_text, from_material, from_paths, is_finding, long_audit, made_row, material_rows, report_row};
ghost use Rattle.eco_cli.specs.Rules.{IsPrepared, stop_code};

use crate::answer::{Answer, Status, text_answer, unread};
use crate::spent::unfinished_answer;
use eco_audit::{Finding, Ruling, audit};
use eco_cdcl::Guided;
use eco_guide::EqualityGuide;
use eco_inputs::{
    FileError, FileOption, Halt, InputError, Inputs, MOST_PROOF_BYTES, NetlistError, PrintedFile,
    bits_line, closed_netlist, file_error_line, input_text, inputs_of, joined, line,
    line_error_line, option_name, paired, problem_files_of, problem_path_of, read_file,
    refuse_repeats,
};
use eco_netlist::{Netlist, OutOfMemory};
use eco_outside::Store;
use eco_pose::Unfinished;
use eco_query::Problem;
use eco_report::ReportFile;
use eco_words::Audit;
use std::alloc::Global;

/// Why `audit` stops.
#[derive(Drop)]
pub enum AuditStop {
    /// The option names a file that an earlier option names.
    SamePath(FileOption),
    /// The files are no problem.
    NoProblem(InputError),
    /// The file of the patch or of the patched netlist gives no netlist.
    InMade(FileOption, FileError<NetlistError>),
    /// The report's file gives no report.
    InReport(FileError<u64>),
    /// This is the first finding.
    Found(Finding),
}

/// What the files give.
#[derive(Drop)]
pub struct Material {
    pub inputs: Inputs,
    pub patch: Netlist,
    pub out: Netlist,
    pub report: ReportFile,
}

/// What is audited.
#[derive(Drop)]
pub struct Audited {
    pub problem: Problem,
    pub patch: Netlist,
    pub out: Netlist,
    pub report: ReportFile,
}

/// What `audit` comes to. It reads the implementation, the specification, the weights, the cared netlist, the patch, the
/// patched netlist and the report, in this order, and writes nothing.
pub fn prepare<'a, S: Store>(
    alloc: Global,
    command: &Audit<'a>,
    store: &mut S,
) -> Result<Answer<'a>, OutOfMemory>
    requires budget { 1 ≤ (audit_options_of command.now).budget }
    ensures keeps { ReadKeeps (S.view store.old) (S.view store.new) }
    ensures prepared { IfOk result (IsPrepared (audit_rules (audit_options_of command.now)) (S.view store.old) (S.view store.new)) }
{
    match audited_of(alloc, command, store) {
        Ok(audited) => {
            let answer = ruled(alloc, command, &audited);
            drop(audited);
            answer
        }
        Err(Halt::For(stop)) => stopped(alloc, command, stop),
        Err(Halt::Unread(path)) => unread(alloc, path),
        Err(Halt::OutOfMemory) => Err(OutOfMemory),
    }
}

// ---- what is audited

/// The command's files, in the order of its options.
fn files_of<'a>(command: &Audit<'a>) -> [(FileOption, Option<&'a str>); 7]
    ensures { lent result ≡ audit_files_of (audit_options_of command.now) }
{
    let [implementation, specification, weight, care] = problem_files_of(&command.problem);
    [
        implementation,
        specification,
        weight,
        care,
        (FileOption::Patch, Some(command.patch)),
        (FileOption::Out, Some(command.out)),
        (FileOption::Report, Some(command.report)),
    ]
}

/// The path that the command gives for an option; nothing where it gives none.
fn path_of<'a>(command: &Audit<'a>, file: FileOption) -> &'a str
    ensures { result.now ≡ audit_path_of (audit_options_of command.now) file }
{
    match file {
        FileOption::Patch => command.patch,
        FileOption::Out => command.out,
        FileOption::Report => command.report,
        file => problem_path_of(&command.problem, file),
    }
}

/// What the files are, if no row before the findings stops the command.
fn audited_of<'a, S: Store>(
    alloc: Global,
    command: &Audit<'a>,
    store: &mut S,
) -> Result<Audited, Halt<'a, AuditStop>>
    ensures keeps { ReadKeeps (S.view store.old) (S.view store.new) }
    ensures closed { IfOk result AreMadeClosed }
    ensures ends { Ends (long_audit (audit_options_of command.now)) (audited_rows (audit_options_of command.now)) IsAuditedOf (S.view store.old) (S.view store.new) result }
{
    match refuse_repeats(&files_of(command)) {
        Ok(()) => with_paths(alloc, command, store),
        Err(file) => Err(Halt::For(AuditStop::SamePath(file))),
    }
}

/// Reads the files, and pairs what they give.
fn with_paths<'a, S: Store>(
    alloc: Global,
    command: &Audit<'a>,
    store: &mut S,
) -> Result<Audited, Halt<'a, AuditStop>>
    ensures keeps { ReadKeeps (S.view store.old) (S.view store.new) }
    ensures closed { IfOk result AreMadeClosed }
    ensures ends { Ends (long_audit (audit_options_of command.now)) (from_paths (audit_options_of command.now)) IsAuditedOf (S.view store.old) (S.view store.new) result }
{
    match material_of(alloc, command, store) {
        Ok(material) => with_material(command, material),
        Err(halt) => Err(halt),
    }
}

/// Reads the files of the problem, the patch, the patched netlist and the report, in this order.
fn material_of<'a, S: Store>(
    alloc: Global,
    command: &Audit<'a>,
    store: &mut S,
) -> Result<Material, Halt<'a, AuditStop>>
    ensures keeps { ReadKeeps (S.view store.old) (S.view store.new) }
    ensures usable { IfOk result IsUsable }
    ensures ok { IfOk result (IsPassed (material_rows (audit_options_of command.now)) (S.view store.old) (S.view store.new)) }
    ensures err { IfErr result (Halts (long_audit (audit_options_of command.now)) (material_rows (audit_options_of command.now)) (S.view store.old) (S.view store.new)) }
{
    let inputs = problem_inputs(alloc, command, store)?;
    let with_patch = joined(
        inputs,
        made_netlist(alloc, command, store, FileOption::Patch),
    )?;
    let with_out = joined(
        with_patch,
        made_netlist(alloc, command, store, FileOption::Out),
    )?;
    let read = joined(with_out, report_of(alloc, command, store))?;
    let (((inputs, patch), out), report) = read;
    Ok(Material {
        inputs,
        patch,
        out,
        report,
    })
}

/// Reads the files of the problem.
fn problem_inputs<'a, S: Store>(
    alloc: Global,
    command: &Audit<'a>,
    store: &mut S,
) -> Result<Inputs, Halt<'a, AuditStop>>
    ensures keeps { ReadKeeps (S.view store.old) (S.view store.new) }
    ensures fit { IfOk result AreFit }
    ensures ok { IfOk result (IsPassed (named_row NoProblem (input_rows (audit_options_of command.now).problem)) (S.view store.old) (S.view store.new)) }
    ensures err { IfErr result (Halts (long_audit (audit_options_of command.now)) (named_row NoProblem (input_rows (audit_options_of command.now).problem)) (S.view store.old) (S.view store.new)) }
{
    match inputs_of(alloc, &command.problem, store) {
        Ok(inputs) => Ok(inputs),
        Err(halt) => Err(halt.map(AuditStop::NoProblem)),
    }
}

/// Reads the patch or the patched netlist.
fn made_netlist<'a, S: Store>(
    alloc: Global,
    command: &Audit<'a>,
    store: &mut S,
    file: FileOption,
) -> Result<Netlist, Halt<'a, AuditStop>>
    ensures keeps { ReadKeeps (S.view store.old) (S.view store.new) }
    ensures closed { IfOk result IsClosed }
    ensures ok { IfOk result (IsPassed (named_row (InMade file) (made_row (audit_options_of command.now) file)) (S.view store.old) (S.view store.new)) }
    ensures err { IfErr result (Halts (long_audit (audit_options_of command.now)) (named_row (InMade file) (made_row (audit_options_of command.now) file)) (S.view store.old) (S.view store.new)) }
{
    match closed_netlist(alloc, store, path_of(command, file), MOST_PROOF_BYTES) {
        Ok(netlist) => Ok(netlist),
        Err(halt) => Err(halt.map(|error| AuditStop::InMade(file, error))),
    }
}

/// Reads the report.
fn report_of<'a, S: Store>(
    alloc: Global,
    command: &Audit<'a>,
    store: &mut S,
) -> Result<ReportFile, Halt<'a, AuditStop>>
    ensures keeps { ReadKeeps (S.view store.old) (S.view store.new) }
    ensures ok { IfOk result (IsPassed (named_row InReport (report_row (audit_options_of command.now))) (S.view store.old) (S.view store.new)) }
    ensures err { IfErr result (Halts (long_audit (audit_options_of command.now)) (named_row InReport (report_row (audit_options_of command.now))) (S.view store.old) (S.view store.new)) }
{
    match read_file(alloc, store, &PrintedFile, command.report, MOST_PROOF_BYTES) {
        Ok(report) => Ok(report),
        Err(halt) => Err(halt.map(AuditStop::InReport)),
    }
}

/// Pairs what was read.
fn with_material<'a>(
    command: &Audit<'a>,
    material: Material,
) -> Result<Audited, Halt<'a, AuditStop>>
    requires usable { IsUsable material }
    ensures closed { IfOk result AreMadeClosed }
    ensures ends { (store : StoreView) → Ends (long_audit (audit_options_of command.now)) (from_material (audit_options_of command.now) material) IsAuditedOf store store result }
{
    let Material {
        inputs,
        patch,
        out,
        report,
    } = material;
    match paired(&command.problem, inputs) {
        Ok(problem) => Ok(Audited {
            problem,
            patch,
            out,
            report,
        }),
        Err(halt) => {
            drop(patch);
            drop(out);
            drop(report);
            Err(halt.map(AuditStop::NoProblem))
        }
    }
}

// ---- its answer

/// What is answered: that all is right, what is found, or a question that was given up.
fn ruled<'a>(
    alloc: Global,
    command: &Audit<'a>,
    audited: &Audited,
) -> Result<Answer<'a>, OutOfMemory>
    requires budget { 1 ≤ (audit_options_of command.now).budget }
    requires closed { AreMadeClosed audited.now }
    ensures { (before after : StoreView) → (audited_rows (audit_options_of command.now)).passes before.files audited.now
        → IfOk result (IsPrepared (audit_rules (audit_options_of command.now)) before after) }
{
    // it is checked
    let _ = audited.out.nets();
    match ruling(alloc, command, audited) {
        Ok(Ruling::Sound) => sound(alloc),
        Ok(Ruling::Fails(finding)) => stopped(alloc, command, AuditStop::Found(finding)),
        Err(unfinished) => unfinished_answer(alloc, command.budget, unfinished),
    }
}

/// What is ruled. The search is guided to nets that are equal, which its question about the outputs needs.
fn ruling(alloc: Global, command: &Audit<'_>, audited: &Audited) -> Result<Ruling, Unfinished>
    requires budget { 1 ≤ (audit_options_of command.now).budget }
    requires closed { AreMadeClosed audited.now }
    ensures ruling { IfOk result (IsRuling audited.now.problem audited.now.patch audited.now.out audited.now.report) }
    ensures unfinished { IfErr result (IsLeftOpen audited.now.problem audited.now.patch audited.now.out audited.now.report (audit_options_of command.now).budget) }
{
    let limit = u64::from(command.budget);
    let mut search = Guided::new(EqualityGuide::new(alloc));
    let ruling = audit(
        alloc,
        &audited.problem,
        &audited.patch,
        &audited.out,
        &audited.report,
        &mut search,
        limit,
    );
    drop(search);
    ruling
}

/// The answer where all is right.
fn sound<'a>(alloc: Global) -> Result<Answer<'a>, OutOfMemory>
    ensures { IfOk result (IsTextAnswer 0 (codes "sound\n")) }
{
    let text = Vec::from_slice(alloc, b"sound\n")?;
    Ok(text_answer(alloc, Status::Done, text))
}

/// The answer of a stop: its text, and no file.
fn stopped<'a>(
    alloc: Global,
    command: &Audit<'a>,
    stop: AuditStop,
) -> Result<Answer<'a>, OutOfMemory>
    ensures { IfOk result (IsTextAnswer (stop_code (audit_rules (audit_options_of command.now)) stop) (audit_text (audit_options_of command.now) stop)) }
{
    let text = text_of_stop(alloc, command, &stop);
    let status = stop_status(&stop);
    drop(stop);
    Ok(text_answer(alloc, status, text?))
}

/// The exit status of a stop.
fn stop_status(stop: &AuditStop) -> Status
    ensures { code_of result ≡ (if is_finding stop.now then 1 else 3) }
{
    match stop {
        AuditStop::Found(_) => Status::No,
        AuditStop::SamePath(_)
        | AuditStop::NoProblem(_)
        | AuditStop::InMade(..)
        | AuditStop::InReport(_) => Status::Refused,
    }
}

/// What is printed of a stop.
fn text_of_stop(
    alloc: Global,
    command: &Audit<'_>,
    stop: &AuditStop,
) -> Result<Vec<u8>, OutOfMemory>
    ensures { IfOk result (λ text. text.items ≡ audit_text (audit_options_of command.now) stop.now) }
{
    match stop {
        AuditStop::SamePath(file) => line(
            alloc,
            b"refused samepath ",
            path_of(command, *file).as_bytes(),
        ),
        AuditStop::NoProblem(error) => input_text(alloc, error),
        AuditStop::InMade(file, error) => file_error_line(alloc, option_name(*file), error),
        AuditStop::InReport(error) => line_error_line(alloc, b"report", b"line", error),
        AuditStop::Found(finding) => finding_line(alloc, finding),
    }
}

/// The line of a finding.
fn finding_line(alloc: Global, finding: &Finding) -> Result<Vec<u8>, OutOfMemory>
    ensures { IfOk result (λ text. text.items ≡ finding_text finding.now) }
{
    match finding {
        Finding::NotPatched => line(alloc, b"fails notpatched", b""),
        Finding::Targets => line(alloc, b"fails targets", b""),
        Finding::Ports => line(alloc, b"fails ports", b""),
        Finding::Candidate(name) => line(alloc, b"fails candidate ", name.bytes()),
        Finding::Weight(name) => line(alloc, b"fails weight ", name.bytes()),
        Finding::Cost => line(alloc, b"fails cost", b""),
        Finding::Gates => line(alloc, b"fails gates", b""),
        Finding::Inner(name) => line(alloc, b"fails inner ", name.bytes()),
        Finding::Reach(name) => line(alloc, b"fails reach ", name.bytes()),
        Finding::Splice => line(alloc, b"fails splice", b""),
        Finding::Need(name) => line(alloc, b"fails need ", name.bytes()),
        Finding::Bound => line(alloc, b"fails bound", b""),
        Finding::Differs(input) => bits_line(alloc, b"fails differs ", input.as_slice()),
    }
}
