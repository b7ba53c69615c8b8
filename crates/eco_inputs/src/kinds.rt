//! The kinds of files that a command reads: netlists, weights, clauses, proofs and reports.

ghost use Rattle.std.specs.Prelude.{IfErr, IfOk};
ghost use Rattle.eco_netlist.specs.declared.draft.TargetRule.TheVariants.{Never};
ghost use Rattle.eco_outside.specs.Store.{ReadKeeps};
ghost use Rattle.eco_query.specs.Problem.{IsClosed};
ghost use Rattle.eco_aiger.specs.Texts.{IsAigerText};
ghost use Rattle.eco_inputs.specs.Kinds.{IsAigerLack, cnf_kind, netlist_kind, report_kind, specification_kind, trace_kind, weight_kind};
ghost use Rattle.eco_inputs.specs.Reading.{Halts, IsPassed, file_row, oversize_of};

use crate::halt::{FileError, Halt};
use crate::reading::{Lack, Readable, read_file};
use eco_aiger::AigerError;
use eco_check::Step;
use eco_netlist::{Name, Netlist, Refusal, TargetRule};
use eco_outside::Store;
use eco_prooftext::{CnfError, TraceError, read_cnf, read_trace};
use eco_report::{ReportError, ReportFile, read_report};
use eco_trace::Cnf;
use eco_vread::ReadError;
use eco_weight::{WeightError, Weights};
use std::alloc::Global;
use std::marker::Model;

/// Why bytes give no netlist.
#[derive(Drop)]
pub enum NetlistError {
    /// They are no text of a module; the error stands at this byte.
    Syntax(u64),
    /// What the text declares is refused.
    Refused(Refusal),
    /// They begin as a text in ASCII AIGER does, and have this error.
    Aiger(AigerTextError),
}

/// Why bytes that begin as a text in ASCII AIGER does give no netlist, but for what it declares.
#[derive(Clone, Copy, Drop)]
pub enum AigerTextError {
    /// They are no such text; the error stands on the line of this number, counted from 1.
    Line(u64),
    /// This is the least variable that is defined twice.
    DefinedTwice(u64),
    /// This is the least variable that is used and not defined.
    Undefined(u64),
}

/// A file of a netlist.
#[derive(Clone, Copy)]
pub struct NetlistFile {
    /// Whether the netlist may have targets.
    pub rule: TargetRule,
}

impl Readable for NetlistFile {
    type Value = Netlist;

    type Error = NetlistError;

    ghost kind = { λ file. netlist_kind file.rule };

    fn parse(&self, alloc: Global, bytes: &[u8]) -> Result<Netlist, Lack<NetlistError>> {
        match eco_vread::read(alloc, bytes, self.rule) {
            Ok(netlist) => Ok(netlist),
            Err(ReadError::Syntax { at }) => Err(Lack::Error(NetlistError::Syntax(at))),
            Err(ReadError::Refused(refusal)) => Err(Lack::Error(NetlistError::Refused(refusal))),
            Err(ReadError::OutOfMemory) => Err(Lack::OutOfMemory),
        }
    }
}

/// The netlist of the file at this path, of which at most `most` bytes are taken; it has no targets.
pub fn closed_netlist<'a, S: Store>(
    alloc: Global,
    store: &mut S,
    path: &'a str,
    most: u64,
) -> Result<Netlist, Halt<'a, FileError<NetlistError>>>
    ensures keeps { ReadKeeps (S.view store.old) (S.view store.new) }
    ensures closed { IfOk result IsClosed }
    ensures ok { IfOk result (IsPassed (file_row (netlist_kind Never) path.entry.now most) (S.view store.old) (S.view store.new)) }
    ensures err { IfErr result (Halts (oversize_of path.entry.now most) (file_row (netlist_kind Never) path.entry.now most) (S.view store.old) (S.view store.new)) }
{
    let kind = NetlistFile {
        rule: TargetRule::Never,
    };
    read_file(alloc, store, &kind, path, most)
}

/// A file of a specification: a text in ASCII AIGER where it begins with `aag` and a blank, else one in Verilog, of a
/// netlist without targets.
#[derive(Clone, Copy)]
pub struct SpecificationFile;

impl Readable for SpecificationFile {
    type Value = Netlist;

    type Error = NetlistError;

    ghost kind = { λ file. specification_kind };

    fn parse(&self, alloc: Global, bytes: &[u8]) -> Result<Netlist, Lack<NetlistError>> {
        if bytes.starts_with(b"aag ") {
            in_aiger(alloc, bytes)
        } else {
            let kind = NetlistFile {
                rule: TargetRule::Never,
            };
            kind.parse(alloc, bytes)
        }
    }
}

/// The netlist of a text in ASCII AIGER.
fn in_aiger(alloc: Global, bytes: &[u8]) -> Result<Netlist, Lack<NetlistError>>
    ensures ok { IfOk result (IsAigerText bytes.now) }
    ensures err { IfErr result (IsAigerLack bytes.now) }
{
    match eco_aiger::read(alloc, bytes) {
        Ok(netlist) => Ok(netlist),
        Err(AigerError::Line(line)) => {
            Err(Lack::Error(NetlistError::Aiger(AigerTextError::Line(line))))
        }
        Err(AigerError::DefinedTwice(variable)) => Err(Lack::Error(NetlistError::Aiger(
            AigerTextError::DefinedTwice(variable),
        ))),
        Err(AigerError::Undefined(variable)) => Err(Lack::Error(NetlistError::Aiger(
            AigerTextError::Undefined(variable),
        ))),
        Err(AigerError::Refused(refusal)) => Err(Lack::Error(NetlistError::Refused(refusal))),
        Err(AigerError::OutOfMemory) => Err(Lack::OutOfMemory),
    }
}

/// The specification of the file at this path, of which at most `most` bytes are taken; it has no targets.
pub fn specification<'a, S: Store>(
    alloc: Global,
    store: &mut S,
    path: &'a str,
    most: u64,
) -> Result<Netlist, Halt<'a, FileError<NetlistError>>>
    ensures keeps { ReadKeeps (S.view store.old) (S.view store.new) }
    ensures closed { IfOk result IsClosed }
    ensures ok { IfOk result (IsPassed (file_row specification_kind path.entry.now most) (S.view store.old) (S.view store.new)) }
    ensures err { IfErr result (Halts (oversize_of path.entry.now most) (file_row specification_kind path.entry.now most) (S.view store.old) (S.view store.new)) }
{
    read_file(alloc, store, &SpecificationFile, path, most)
}

/// Why bytes give no weights.
#[derive(Drop)]
pub enum WeightTextError {
    /// The line of this number, counted from 1, is the first that is neither blank nor a name and its weight.
    Line(u64),
    /// Every line is sound, and this is the smallest of the names that stand on two lines.
    Twice(Name),
}

/// A file of weights.
#[derive(Clone, Copy)]
pub struct WeightFile;

impl Readable for WeightFile {
    type Value = Weights;

    type Error = WeightTextError;

    ghost kind = { λ file. weight_kind };

    fn parse(&self, alloc: Global, bytes: &[u8]) -> Result<Weights, Lack<WeightTextError>> {
        match eco_weight::read(alloc, bytes) {
            Ok(weights) => Ok(weights),
            Err(WeightError::Line(number)) => Err(Lack::Error(WeightTextError::Line(number))),
            Err(WeightError::Twice(name)) => Err(Lack::Error(WeightTextError::Twice(name))),
            Err(WeightError::OutOfMemory) => Err(Lack::OutOfMemory),
        }
    }
}

/// A file of clauses (DIMACS CNF). Where it gives none, the error is the number of a line, counted from 1.
#[derive(Clone, Copy)]
pub struct CnfFile;

impl Readable for CnfFile {
    type Value = Cnf;

    type Error = u64;

    ghost kind = { λ file. cnf_kind };

    fn parse(&self, alloc: Global, bytes: &[u8]) -> Result<Cnf, Lack<u64>> {
        match read_cnf(alloc, bytes) {
            Ok(cnf) => Ok(cnf),
            Err(CnfError::CnfSyntax(line)) => Err(Lack::Error(line)),
            Err(CnfError::OutOfMemory) => Err(Lack::OutOfMemory),
        }
    }
}

/// The steps of a proof, in order.
#[derive(Drop)]
pub struct Steps {
    steps: Vec<Step>,
}

impl Model for Steps {
    ghost use Rattle.std.specs.Prelude.{List};
    ghost use Rattle.eco_check.specs.Steps.{StepValue};

    ghost Value = { List StepValue };

    ghost view = { λ steps. steps.steps.items };
}

impl Steps {
    ghost use Rattle.std.specs.Prelude.{◌≡◌};

    /// The list of these steps.
    fn of(steps: Vec<Step>) -> Steps
        ensures { result ≡ steps.items }
    {
        Steps { steps }
    }

    /// The steps in order.
    pub fn as_slice(&self) -> &[Step]
        ensures { result.now ≡ self.now }
    {
        self.steps.as_slice()
    }
}

/// A file of the steps of a proof. Where it gives none, the error is the number of the first line that is neither blank
/// nor a step's, counted from 1.
#[derive(Clone, Copy)]
pub struct TraceFile;

impl Readable for TraceFile {
    type Value = Steps;

    type Error = u64;

    ghost kind = { λ file. trace_kind };

    fn parse(&self, alloc: Global, bytes: &[u8]) -> Result<Steps, Lack<u64>> {
        match read_trace(alloc, bytes) {
            Ok(steps) => Ok(Steps::of(steps)),
            Err(TraceError::TraceSyntax(line)) => Err(Lack::Error(line)),
            Err(TraceError::OutOfMemory) => Err(Lack::OutOfMemory),
        }
    }
}

/// A file of what `synth` prints. Where it gives no report, the error is the number of the first line that can't stand
/// there or is missing, counted from 1.
#[derive(Clone, Copy)]
pub struct PrintedFile;

impl Readable for PrintedFile {
    type Value = ReportFile;

    type Error = u64;

    ghost kind = { λ file. report_kind };

    fn parse(&self, alloc: Global, bytes: &[u8]) -> Result<ReportFile, Lack<u64>> {
        match read_report(alloc, bytes) {
            Ok(report) => Ok(report),
            Err(ReportError::Line(line)) => Err(Lack::Error(line)),
            Err(ReportError::OutOfMemory) => Err(Lack::OutOfMemory),
        }
    }
}
