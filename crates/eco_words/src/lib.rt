//! The words of the command line, read with clap: which command they are and with which options, or
//! clap's own text where they ask for help or have an error.
//!
//! An option is `--name value` or `--name=value`, in any order; a value that begins with `-` has the
//! second form, and any value may be empty. A path's option that is missing, an option that stands
//! twice, a shortened name, a word too many and an unknown or missing subcommand are errors. What
//! comes first counts, where a request for help and an error stand in one line. `eco help`, alone or with a command's name behind
//! it, asks for what `--help` does. `--care`, `--budget`,
//! `--input-weight` and `--least` may be left out; so may `--bound`, which has no value. A number's value is one to
//! twenty decimal digits, and is judged only where clap finds nothing in the whole line: `--seed` first, then `--size`,
//! `--targets`, which has to be at most the size, `--budget`, `--input-weight` and `--least`, as far as the command
//! takes them.
#![tactic(auto)]

mod answer;
mod command;
mod number;
mod reading;
mod topic;

pub use answer::{
    Audit, ChangeFiles, Gen, Invocation, Locate, NumberOption, ProblemFiles, Prove, Recheck, Synth,
    WordsError,
};
pub use reading::read;

/// The version that the program tells.
pub const VERSION: &str = "0.1.0";

/// The most learnt clauses for one question, where the words don't say.
pub const DEFAULT_BUDGET: u32 = 200_000;

/// The most that a budget may be.
pub const MOST_BUDGET: u64 = 4_294_967_295;

/// The most that a weight may be.
pub const MOST_WEIGHT: u64 = 4_294_967_295;

/// The most questions that may be spent on a cheaper base of a target.
pub const MOST_LEAST: u64 = 4_294_967_295;

/// The most that a seed may be.
pub const MOST_SEED: u64 = 18_446_744_073_709_551_615;

/// The most gates that may be drawn.
pub const MOST_SIZE: u64 = 100_000;

/// The most targets that a drawn problem may have.
pub const MOST_TARGETS: u64 = 8;
