//! Reports of patches: as values, and as the text that is printed and read.
#![tactic(auto)]

mod error;
mod file;
mod line;
mod parts;
mod reader;
mod report;
mod state;
mod step;
mod text;
mod words;

pub use eco_meaning::{Bits, Name, OutOfMemory};
pub use error::ReportError;
pub use file::{ReportFile, Word};
pub use reader::{read_report, report_reads_back};
pub use report::{BaseSignal, Bound, Least, Part, Report, TargetGroup};
pub use text::{report_text, unrectifiable_text};
