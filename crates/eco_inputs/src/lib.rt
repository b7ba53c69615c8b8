//! What a command reads: the files that its options name, of which kind each is, why one gives nothing, the problem or the
//! change that files are, and what is printed where they are none.
#![tactic(auto)]

mod changes;
mod error;
mod halt;
mod inputs;
mod kinds;
mod lines;
mod nets;
mod paths;
mod printing;
mod reading;

pub use changes::{ChangeInputs, change_inputs_of, changed};
pub use error::{InputError, PairMismatch};
pub use halt::{FileError, Halt};
pub use inputs::{Inputs, inputs_of, paired};
pub use kinds::{
    AigerTextError, CnfFile, NetlistError, NetlistFile, PrintedFile, SpecificationFile, Steps,
    TraceFile, WeightFile, WeightTextError, closed_netlist, specification,
};
pub use lines::{bits_line, line, number_line};
pub use nets::{NetFault, named_nets, net_fault_text};
pub use paths::{
    FileOption, change_files_of, change_path_of, problem_files_of, problem_path_of, refuse_repeats,
};
pub use printing::{file_error_line, input_text, line_error_line, option_name};
pub use reading::{Lack, Readable, joined, read_file};

/// The most bytes that a file of a netlist or of weights may have.
pub const MOST_BYTES: u64 = 16_777_216;

/// The most bytes that a file of clauses or of a proof may have, so that what the program writes is never too long.
pub const MOST_PROOF_BYTES: u64 = 9_223_372_036_854_775_807;
