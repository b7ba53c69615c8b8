//! From bytes to a checked netlist.

ghost use Rattle.std.specs.Prelude.{◌≡◌, ◌<◌, length, IfOk, IfErr};
ghost use Rattle.std.specs.List.{flat_map};
ghost use Rattle.eco_meaning.specs.Circuit.{names};
ghost use Rattle.eco_tokens.specs.Tokens.{ArePlaces};
ghost use Rattle.eco_tokens.specs.Finds.{FindsOr};
ghost use Rattle.eco_vread.specs.Syntax.{File};
ghost use Rattle.eco_vread.specs.Grammar.{IsText};
ghost use Rattle.eco_vread.specs.Meaning.{declared_of, AssignmentsHold};
ghost use Rattle.eco_vread.specs.Trees.{file_of};
ghost use Rattle.eco_vread.specs.Texts.{IsNetlistText};
ghost use Rattle.eco_vread.specs.Results.{is_syntax, IsNoRefusal, SyntaxMeans, RefusedMeans, NoTree, IsFileNetlist, FileRefused};

use crate::cursor::Cursor;
use crate::declare::declare;
use crate::error::{ParseError, ReadError};
use crate::parse::file;
use crate::prefix::{Prefix, prefix_of};
use crate::tree::Module;
use eco_keyed::Keyed;
use eco_netlist::{Draft, FinishError, Netlist, OutOfMemory, TargetRule};
use eco_tokens::{LexError, Token};
use std::alloc::Global;

/// The kinds and places of the tokens of a text, in order.
///
/// # Errors
///
/// `Syntax` exactly where the text isn't white space, comments and tokens, one after another, each token the longest
/// at its place; `OutOfMemory` only for want of memory.
pub fn tokens(alloc: Global, bytes: &[u8]) -> Result<Vec<Token>, ReadError>
    ensures found { FindsOr is_syntax (λ v. v.items) result (ArePlaces bytes.now) }
    ensures unrefused { IfErr result IsNoRefusal }
{
    match eco_tokens::tokens(alloc, bytes) {
        Ok(tokens) => Ok(tokens),
        Err(LexError::Syntax { at }) => Err(ReadError::Syntax { at }),
        Err(LexError::OutOfMemory) => Err(ReadError::OutOfMemory),
    }
}

/// The netlist of a text. An undriven net whose name has a target's form is a target under the rule `Allowed`.
///
/// # Errors
///
/// `Syntax` exactly where the text is not in the grammar, `Refused` exactly where it is and what it declares is no
/// netlist, and `OutOfMemory` only for want of memory.
pub fn read(alloc: Global, bytes: &[u8], rule: TargetRule) -> Result<Netlist, ReadError>
    ensures ok { IfOk result (IsNetlistText rule bytes.now) }
    ensures syntax { IfErr result (SyntaxMeans bytes.now) }
    ensures refused { IfErr result (RefusedMeans rule bytes.now) }
    // Each assigned net has its expression's value wherever the gates' outputs have theirs.
    ensures assigned { IfOk result (λ n. (file : File) → IsText bytes.now file → AssignmentsHold file n) }
    ensures few_nets { IfOk result (λ n. length (names n) < length bytes.now) }
    ensures few_terms { IfOk result (λ n. length (flat_map (λ g. g.terms) n.gates) < length bytes.now) }
{
    let tree = tree_of(alloc, bytes)?;
    netlist_of(alloc, bytes, tree, rule)
}

/// The syntax tree of a text. Where it has none, the error is at the first token that can't stand where it does, or at
/// the first byte that begins none, whichever is first.
fn tree_of<'a>(alloc: Global, bytes: &'a [u8]) -> Result<Module<'a>, ReadError>
    ensures text { IfOk result (λ tree. IsText bytes.now (file_of tree)) }
    ensures none { IfErr result (NoTree bytes.now) }
{
    let whole = Cursor {
        rest: bytes,
        end: bytes.len(),
    };
    match file(alloc, whole) {
        Ok(tree) => Ok(tree),
        Err(ParseError::Syntax { at }) => Err(ReadError::Syntax { at }),
        Err(ParseError::OutOfMemory) => Err(ReadError::OutOfMemory),
    }
}

/// The netlist of a text with this syntax tree.
fn netlist_of(
    alloc: Global,
    bytes: &[u8],
    tree: Module,
    rule: TargetRule,
) -> Result<Netlist, ReadError>
    requires { IsText bytes.now (file_of tree) }
    ensures ok { IfOk result (IsFileNetlist rule (file_of tree.entry)) }
    ensures refused { IfErr result (FileRefused rule (file_of tree.entry)) }
{
    let draft = draft_of(alloc, bytes, tree)?;
    match draft.finish(rule) {
        Ok(netlist) => Ok(netlist),
        Err(FinishError::Refused(refusal)) => Err(ReadError::Refused(refusal)),
        Err(FinishError::OutOfMemory) => Err(ReadError::OutOfMemory),
    }
}

/// What is declared by a text with this syntax tree.
fn draft_of(alloc: Global, bytes: &[u8], tree: Module) -> Result<Draft, OutOfMemory>
    requires { IsText bytes.now (file_of tree) }
    ensures { IfOk result (λ draft. draft ≡ declared_of (file_of tree.entry)) }
{
    let prefix = match prefix_of(alloc, bytes, &tree) {
        Ok(prefix) => prefix,
        Err(error) => {
            drop(tree);
            return Err(error);
        }
    };
    let prefix = Prefix {
        bytes: prefix.as_slice(),
    };
    declare(alloc, Keyed::by(bytes), tree, prefix)
}
