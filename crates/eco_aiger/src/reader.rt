//! From bytes to a checked netlist.

ghost use Rattle.std.specs.Prelude.{◌≡◌, ◌<◌, map, length, IfOk, IfErr};
ghost use Rattle.std.specs.List.{flat_map};
ghost use Rattle.eco_meaning.specs.Circuit.{names};
ghost use Rattle.eco_aiger.specs.Grammar.{IsProper};
ghost use Rattle.eco_aiger.specs.Defined.{IsDefinedOnce, IsDefined};
ghost use Rattle.eco_aiger.specs.Texts.{IsFileNetlist, RefusesFile, IsAigerText, IsRefused};
ghost use Rattle.eco_aiger.specs.Parts.{file_of};

use crate::declare::declare;
use crate::error::{AigerError, Unread};
use crate::judge::judge;
use crate::lines::lines_of;
use crate::naming::names_of;
use crate::parts::tree_of;
use crate::tree::Tree;
use eco_keyed::Keyed;
use eco_netlist::{FinishError, Netlist, TargetRule};
use std::alloc::Global;

/// The netlist of a text in ASCII AIGER. Its module is `aiger`; its ports are the inputs, then the outputs, named by
/// their symbols, or else `i0`, `i1` and so on, and `o0`, `o1` and so on. The variable v of an and-line is the wire `Qv`,
/// its complement in a right side the wire `Qvn`, where Q is the shortest of `aig_`, `aig__` and so on that begins no
/// port's name.
///
/// # Errors
///
/// Of these the first that stands: `Line` exactly where the text is not of the form; `DefinedTwice` exactly where a
/// variable stands twice among the inputs and left sides; `Undefined` exactly where an output or a right side uses one
/// that is neither; `Refused` exactly where what the text declares is no netlist. `OutOfMemory` only for want of memory.
pub fn read(alloc: Global, bytes: &[u8]) -> Result<Netlist, AigerError>
    ensures ok { IfOk result (IsAigerText bytes.now) }
    ensures refused { IfErr result (IsRefused bytes.now) }
    ensures few_nets { IfOk result (λ n. length (names n) < length bytes.now) }
    ensures few_terms { IfOk result (λ n. length (flat_map (λ g. g.terms) n.gates) < length bytes.now) }
{
    let lines = lines_of(alloc, bytes)?;
    match tree_of(alloc, Keyed::by(bytes), lines.as_slice()) {
        Ok(tree) => {
            let netlist = netlist_of(alloc, &tree);
            drop(tree);
            netlist
        }
        Err(Unread::Line(line)) => Err(AigerError::Line(line)),
        Err(Unread::OutOfMemory) => Err(AigerError::OutOfMemory),
    }
}

/// The netlist of a file.
fn netlist_of(alloc: Global, tree: &Tree) -> Result<Netlist, AigerError>
    requires { IsProper (file_of tree.now) }
    ensures ok { IfOk result (IsFileNetlist (file_of tree.now)) }
    ensures err { IfErr result (RefusesFile (file_of tree.now)) }
{
    judge(alloc, tree)?;
    finished(alloc, tree)
}

/// The netlist of a file that defines each variable once, and all that it uses.
fn finished(alloc: Global, tree: &Tree) -> Result<Netlist, AigerError>
    requires proper { IsProper (file_of tree.now) }
    requires once { IsDefinedOnce (file_of tree.now) }
    requires all { IsDefined (file_of tree.now) }
    ensures ok { IfOk result (IsFileNetlist (file_of tree.now)) }
    ensures err { IfErr result (RefusesFile (file_of tree.now)) }
{
    let names = names_of(alloc, tree)?;
    let declared = declare(alloc, &names, tree);
    drop(names);
    let draft = declared?;
    match draft.finish(TargetRule::Never) {
        Ok(netlist) => Ok(netlist),
        Err(FinishError::Refused(refusal)) => Err(AigerError::Refused(refusal)),
        Err(FinishError::OutOfMemory) => Err(AigerError::OutOfMemory),
    }
}
