//! The netlist with nets cut, as `locate` writes it.

ghost use Rattle.std.specs.Prelude.{◌≡◌, ◌≤◌, IfOk, length};
ghost use Rattle.eco_meaning.specs.Circuit.{Circuit, names};
ghost use Rattle.eco_netlist.specs.Netlists.{names_at};
ghost use Rattle.eco_change.specs.CutProblem.{CanBeCut};
ghost use Rattle.eco_words.specs.CommandLine.{locate_options_of};
ghost use Rattle.eco_cli.specs.Choice.{IsCutAnswer, IsCutText, IsWrittenAnswer};

use crate::answer::{Answer, Status, Written};
use eco_change::{Change, cut_problem};
use eco_netlist::{NetId, OutOfMemory};
use eco_vwrite::write;
use eco_words::Locate;
use std::alloc::Global;

/// The answer that writes the netlist with these nets cut, and prints this text.
pub(crate) fn with_cut<'a>(
    alloc: Global,
    command: &Locate<'a>,
    change: &Change,
    nets: &[NetId],
    text: Vec<u8>,
) -> Result<Answer<'a>, OutOfMemory>
    requires nets { CanBeCut change.now.old nets.now }
    requires some { 1 ≤ length nets.now }
    ensures { IfOk result (IsCutAnswer (locate_options_of command.now) change.now (names_at (names change.now.old) nets.now) text.items) }
{
    match cut_text(alloc, change, nets) {
        Ok(bytes) => written(alloc, command, bytes, text),
        Err(error) => {
            drop(text);
            Err(error)
        }
    }
}

/// The text of the netlist with these nets cut.
fn cut_text(alloc: Global, change: &Change, nets: &[NetId]) -> Result<Vec<u8>, OutOfMemory>
    requires nets { CanBeCut change.now.old nets.now }
    requires some { 1 ≤ length nets.now }
    ensures { IfOk result (λ bytes. (netlist : Circuit) × IsCutText change.now (names_at (names change.now.old) nets.now) bytes.items netlist) }
{
    let problem = cut_problem(alloc, change, nets)?;
    let bytes = write(alloc, problem.implementation());
    drop(problem);
    bytes
}

/// The answer that writes these bytes and prints this text.
fn written<'a>(
    alloc: Global,
    command: &Locate<'a>,
    bytes: Vec<u8>,
    text: Vec<u8>,
) -> Result<Answer<'a>, OutOfMemory>
    ensures { IfOk result (IsWrittenAnswer (locate_options_of command.now) bytes.items text.items) }
{
    let mut writes = Vec::new(alloc);
    writes.push(Written {
        path: command.cut,
        bytes,
    })?;
    Ok(Answer {
        status: Status::Done,
        writes,
        text,
        stuck: None,
    })
}
