//! The check of nets that are to be cut together, and what is printed of it.

ghost use Rattle.std.specs.Prelude.{◌≡◌, ◌≤◌, ◌++◌, IfOk, OnOk, codes, length, map};
ghost use Rattle.eco_meaning.specs.Circuit.{names};
ghost use Rattle.eco_netlist.specs.Netlists.{names_at};
ghost use Rattle.eco_outside.specs.Store.{StoreView};
ghost use Rattle.eco_change.specs.CutProblem.{CanBeCut};
ghost use Rattle.eco_report.specs.Texts.{bit_digit, unrectifiable_text};
ghost use Rattle.eco_words.specs.CommandLine.{locate_options_of};
ghost use Rattle.eco_inputs.specs.Nets.{AreNamed};
ghost use Rattle.eco_cli.specs.Answers.{IsTextAnswer};
ghost use Rattle.eco_cli.specs.Choice.{IsCutAnswer, choice_text, need_line, need_lines};
ghost use Rattle.eco_cli.specs.Locate.{changes_rows, locate_rules};
ghost use Rattle.eco_cli.specs.Rules.{IsPrepared};

use crate::answer::Answer;
use crate::cutting::with_cut;
use crate::locate::{Listing, LocateStop, stopped};
use crate::printing::{add_bits, add_line};
use crate::spent::stuck_answer;
use eco_cdcl::Watched;
use eco_change::Change;
use eco_locate::{Choice, Need, check_choice};
use eco_meaning::Bits;
use eco_netlist::{NetId, OutOfMemory};
use eco_report::unrectifiable_text;
use eco_words::Locate;
use std::alloc::Global;

/// What the change is answered where these nets are to be cut together: a netlist with them cut, that they don't suffice, or a
/// question that was given up.
pub(crate) fn checked<'a>(
    alloc: Global,
    command: &Locate<'a>,
    change: &Change,
    nets: &[NetId],
) -> Result<Answer<'a>, OutOfMemory>
    requires budget { 1 ≤ (locate_options_of command.now).budget }
    requires named { AreNamed change.now.old (locate_options_of command.now).nets nets.now }
    requires some { 1 ≤ length nets.now }
    ensures { (before after : StoreView) → (changes_rows (locate_options_of command.now)).passes before.files change.now
        → IfOk result (IsPrepared (locate_rules (locate_options_of command.now)) before after) }
{
    // it is a change
    let _ = change.old();
    let limit = u64::from(command.budget);
    match check_choice(alloc, change, nets, &mut Watched::new(), limit)? {
        Choice::Suffices(needs) => {
            let text = choice_text(alloc, command.nets.as_slice(), needs.as_slice());
            drop(needs);
            with_cut(alloc, command, change, nets, text?)
        }
        Choice::Wrong(input) => left_wrong(alloc, command, input),
        Choice::GivenUp(stuck) => stuck_answer(alloc, command.budget, stuck),
    }
}

/// The answer where this input is wrong with the nets cut.
fn left_wrong<'a>(
    alloc: Global,
    command: &Locate<'a>,
    input: Bits,
) -> Result<Answer<'a>, OutOfMemory>
    ensures { IfOk result (IsTextAnswer 1 (unrectifiable_text input)) }
{
    let text = unrectifiable_text(alloc, input.as_slice());
    drop(input);
    stopped(
        alloc,
        command,
        LocateStop::NoChoice(Listing { text: text? }),
    )
}

/// What is printed of nets of these names that suffice together.
fn choice_text(alloc: Global, named: &[&str], needs: &[Need]) -> Result<Vec<u8>, OutOfMemory>
    requires { length named.now ≡ length needs.now }
    ensures { IfOk result (λ text. text.items ≡ choice_text (map (λ name. name.now) named.now) needs.now) }
{
    let mut text = Vec::new(alloc);
    add_line(&mut text, b"choice ", named.len() as u64)?;
    add_needs(&mut text, named, needs)?;
    Ok(text)
}

/// Adds the lines of these nets.
fn add_needs(text: &mut Vec<u8>, named: &[&str], needs: &[Need]) -> Result<(), OutOfMemory>
    requires { length named.now ≡ length needs.now }
    ensures { OnOk result (text.new.items ≡ text.old.items ++ need_lines (map (λ name. name.now) named.now) needs.now) }
{
    for place in 0..needs.len() {
        add_need(text, named[place], &needs[place])?;
    }
    Ok(())
}

/// Adds the line of a net.
fn add_need(text: &mut Vec<u8>, name: &str, need: &Need) -> Result<(), OutOfMemory>
    ensures { OnOk result (text.new.items ≡ text.old.items ++ need_line name.now need.now) }
{
    match need {
        Need::Needed(input) => {
            add_word(text, b"need ", name)?;
            text.extend_from_slice(b" ")?;
            add_bits(text, input.as_slice())?;
        }
        Need::Needless => add_word(text, b"needless ", name)?,
        Need::Unknown(_) => add_word(text, b"open ", name)?,
    }
    text.extend_from_slice(b"\n")?;
    Ok(())
}

/// Adds a word and a name.
fn add_word(text: &mut Vec<u8>, word: &[u8], name: &str) -> Result<(), OutOfMemory>
    ensures { OnOk result (text.new.items ≡ text.old.items ++ word.now ++ name.now) }
{
    text.extend_from_slice(word)?;
    text.extend_from_slice(name.as_bytes())?;
    Ok(())
}
