//! What a command comes to: how it ends, which files it writes and what it prints.

ghost use Rattle.std.specs.Prelude.{◌≡◌, IfOk};
ghost use Rattle.eco_cli.specs.Answers.{IsSpentAnswer, IsTextAnswer, code_of, failed_text};

use eco_inputs::line;
use eco_netlist::OutOfMemory;
use eco_pose::Stuck;
use std::alloc::Global;

/// How a run of the program ends.
#[derive(Clone, Copy)]
pub enum Status {
    /// What was asked for is done.
    Done,
    /// The answer is no.
    No,
    /// The words are no command.
    Usage,
    /// The input is refused.
    Refused,
    /// A question to the search was given up.
    Spent,
    /// A file could not be read.
    ReadFault,
    /// A file or the text could not be written.
    WriteFault,
    /// Memory could not be had.
    OutOfMemory,
}

impl Status {
    /// The exit status of the program.
    pub fn code(self) -> u8
        ensures { result ≡ code_of self }
    {
        match self {
            Status::Done => 0,
            Status::No => 1,
            Status::Usage => 2,
            Status::Refused => 3,
            Status::Spent => 4,
            Status::ReadFault => 5,
            Status::WriteFault => 6,
            Status::OutOfMemory => 7,
        }
    }
}

/// A file to write, with all its bytes.
#[derive(Drop)]
pub struct Written<'a> {
    pub path: &'a str,
    pub bytes: Vec<u8>,
}

/// What a command comes to. All its texts are made before the first of them is written.
#[derive(Drop)]
pub struct Answer<'a> {
    /// How it ends, where all is written and printed.
    pub status: Status,
    /// The files that it writes, in this order.
    pub writes: Vec<Written<'a>>,
    /// What it prints behind them.
    pub text: Vec<u8>,
    /// The question that was given up, where the status tells of one.
    pub stuck: Option<Stuck>,
}

/// The answer that writes no file and keeps no question.
pub fn text_answer<'a>(alloc: Global, status: Status, text: Vec<u8>) -> Answer<'a>
    ensures { IsTextAnswer (code_of status) text.items result }
{
    Answer {
        status,
        writes: Vec::new(alloc),
        text,
        stuck: None,
    }
}

/// The answer that keeps a question that was given up, and writes no file.
pub fn spent_answer<'a>(alloc: Global, text: Vec<u8>, stuck: Stuck) -> Answer<'a>
    ensures { IsSpentAnswer text.items stuck result }
{
    Answer {
        status: Status::Spent,
        writes: Vec::new(alloc),
        text,
        stuck: Some(stuck),
    }
}

/// The answer where the file at this path could not be read.
pub fn unread<'a>(alloc: Global, path: &str) -> Result<Answer<'a>, OutOfMemory>
    ensures { IfOk result (IsTextAnswer 5 (failed_text path.now)) }
{
    let text = line(alloc, b"failed ", path.as_bytes())?;
    Ok(text_answer(alloc, Status::ReadFault, text))
}
