//! What the words of the command line come to.

ghost use Rattle.std.specs.Prelude.{◌≡◌};
ghost use Rattle.eco_words.specs.declared.answer.WordsError.TheVariants.{OutOfMemory};

use std::alloc::{AllocError, AllocFailed};
use std::fmt::{self, Debug, Display, Formatter};
use thiserror::Error;

/// What the words give of a problem: paths, each as it stands there, and a number.
#[derive(Clone, Copy)]
pub struct ProblemFiles<'a> {
    /// The netlist with targets, read.
    pub implementation: &'a str,
    /// The netlist that says what the outputs are to be, read.
    pub specification: &'a str,
    /// The file of weights, read.
    pub weight: &'a str,
    /// The netlist that tells which inputs are cared, read.
    pub care: Option<&'a str>,
    /// The weight of an input that the file of weights doesn't list; 1 where the words don't say.
    pub input_weight: u32,
}

/// What `eco synth` is given: paths, each as it stands in the words, and numbers.
#[derive(Clone, Copy)]
pub struct Synth<'a> {
    /// The files of the problem.
    pub problem: ProblemFiles<'a>,
    /// The patch, written.
    pub patch: &'a str,
    /// The patched netlist, written.
    pub out: &'a str,
    /// The most learnt clauses for one question, at least 1; 200000 where the words don't say.
    pub budget: u32,
    /// Whether it is asked what any base of a single target costs at least.
    pub bound: bool,
    /// How many questions may be spent on finding a cheaper base, for each target; None where the words don't ask for it.
    pub least: Option<u32>,
}

/// What `eco audit` is given: paths, each as it stands in the words, and numbers.
#[derive(Clone, Copy)]
pub struct Audit<'a> {
    /// The files of the problem.
    pub problem: ProblemFiles<'a>,
    /// The patch, read.
    pub patch: &'a str,
    /// The patched netlist, read.
    pub out: &'a str,
    /// What `eco synth` printed of the patch, read.
    pub report: &'a str,
    /// The most learnt clauses for one question, at least 1; 200000 where the words don't say.
    pub budget: u32,
}

/// What `eco prove` is given: paths, each as it stands in the words, and a number.
#[derive(Clone, Copy)]
pub struct Prove<'a> {
    /// The one netlist, read.
    pub left: &'a str,
    /// The netlist that it is compared with, read.
    pub right: &'a str,
    /// The clauses that have no model where the two are equal, written as DIMACS CNF.
    pub cnf: &'a str,
    /// The steps of a proof of that, written.
    pub trace: &'a str,
    /// The most learnt clauses for the question, at least 1; 200000 where the words don't say.
    pub budget: u32,
}

/// What `eco recheck` is given: paths, each as it stands in the words.
#[derive(Clone, Copy)]
pub struct Recheck<'a> {
    /// The clauses, as DIMACS CNF, read.
    pub cnf: &'a str,
    /// The steps of a proof that they have no model, read.
    pub trace: &'a str,
}

/// What `eco gen` is given: numbers.
#[derive(Clone, Copy)]
pub struct Gen {
    /// What the draws start from.
    pub seed: u64,
    /// The number of gates that are drawn, from 1 to 100000.
    pub size: u32,
    /// The number of targets, from 1 to 8, and at most the size.
    pub targets: u32,
    /// The most learnt clauses for one question, at least 1; 200000 where the words don't say.
    pub budget: u32,
}

/// The files of a change: paths, each as it stands in the words.
#[derive(Clone, Copy)]
pub struct ChangeFiles<'a> {
    /// The netlist that is to be changed, read.
    pub implementation: &'a str,
    /// The netlist that says what the outputs are to be, read.
    pub specification: &'a str,
    /// The netlist that tells which inputs are cared, read.
    pub care: Option<&'a str>,
}

/// What `eco locate` is given: paths and names, each as it stands in the words, and a number.
#[derive(Drop)]
pub struct Locate<'a> {
    /// The files of the change.
    pub change: ChangeFiles<'a>,
    /// The nets that are to be cut together, in the words' order; none if every net is to be judged alone.
    pub nets: Vec<&'a str>,
    /// The netlist with nets cut, written.
    pub cut: &'a str,
    /// The most learnt clauses for one question, at least 1; 200000 where the words don't say.
    pub budget: u32,
}

/// An option whose value is a number.
#[derive(Clone, Copy, PartialEq, Eq)]
pub enum NumberOption {
    /// `--budget`, from 1 to 4294967295.
    Budget,
    /// `--input-weight`, from 0 to 4294967295.
    InputWeight,
    /// `--seed`, from 0 to 18446744073709551615.
    Seed,
    /// `--size`, from 1 to 100000.
    Size,
    /// `--targets`, from 1 to 8, and at most the size.
    Targets,
    /// `--least`, from 1 to 4294967295.
    Least,
}

/// A command that the words give.
#[derive(Drop)]
pub enum Invocation<'a> {
    /// Find a patch.
    Synth(Synth<'a>),
    /// Check a patch, the patched netlist and the report on them.
    Audit(Audit<'a>),
    /// Prove that two netlists are equal.
    Prove(Prove<'a>),
    /// Check a proof that clauses have no model.
    Recheck(Recheck<'a>),
    /// Draw a problem and find its patch.
    Gen(Gen),
    /// Find which net to cut.
    Locate(Locate<'a>),
}

/// Why the words give no command.
#[derive(Drop, Error)]
pub enum WordsError {
    /// They ask for help or for the version: clap's text of it.
    #[error("{0}")]
    Help(String),
    /// clap finds an error in them: its text on it.
    #[error("{0}")]
    Faulty(String),
    /// This option is the first, in the order of its command, whose value is no number that it may have.
    #[error("not a number in range")]
    Number(NumberOption),
    /// Memory could not be had. This tells nothing of the words.
    #[error("out of memory")]
    OutOfMemory,
}

/// As it is displayed.
impl Debug for WordsError {
    fn fmt<W: fmt::Write>(&self, f: &mut Formatter<W>) -> fmt::Result {
        Display::fmt(self, f)
    }
}

impl From<AllocError> for WordsError {
    ghost from_gives = { λ _ e. e ≡ OutOfMemory };

    fn from(_error: AllocError) -> WordsError {
        WordsError::OutOfMemory
    }
}

impl<T: Drop> From<AllocFailed<T>> for WordsError {
    ghost from_gives = { λ _ e. e ≡ OutOfMemory };

    fn from(_error: AllocFailed<T>) -> WordsError {
        WordsError::OutOfMemory
    }
}
