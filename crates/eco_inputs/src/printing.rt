//! What is printed of files that are no problem.

ghost use Rattle.std.specs.Prelude.{◌≡◌, ◌++◌, codes, decimal, IfOk, OnOk};
ghost use Rattle.std.specs.List.{flat_map};
ghost use Rattle.eco_inputs.specs.Paths.{option_name};
ghost use Rattle.eco_inputs.specs.Texts.{aiger_text, input_text, line_error_text, netlist_text, pair_text, refusal_text, weight_text};

use crate::error::{InputError, PairMismatch};
use crate::halt::FileError;
use crate::kinds::{AigerTextError, NetlistError, WeightTextError};
use crate::lines::{line, number_line};
use crate::paths::FileOption;
use eco_netlist::{Name, OutOfMemory, Refusal};
use itoa::Buffer;
use std::alloc::Global;

/// What is printed of files that are no problem.
pub fn input_text(alloc: Global, error: &InputError) -> Result<Vec<u8>, OutOfMemory>
    ensures { IfOk result (λ text. text.items ≡ input_text error.now) }
{
    match error {
        InputError::InNetlist(file, error) => file_error_line(alloc, option_name(*file), error),
        InputError::InWeights(error) => weight_line(alloc, error),
        InputError::Unpaired(error) => pair_line(alloc, error),
    }
}

fn weight_line(alloc: Global, error: &FileError<WeightTextError>) -> Result<Vec<u8>, OutOfMemory>
    ensures { IfOk result (λ text. text.items ≡ weight_text error.now) }
{
    match error {
        FileError::TooLong => line(alloc, b"refused weight toolong", b""),
        FileError::Within(WeightTextError::Line(number)) => number_line(
            alloc,
            b"refused weight line ",
            *number,
        ),
        FileError::Within(WeightTextError::Twice(name)) => line(
            alloc,
            b"refused weight twice ",
            name.bytes(),
        ),
    }
}

fn pair_line(alloc: Global, error: &PairMismatch) -> Result<Vec<u8>, OutOfMemory>
    ensures { IfOk result (λ text. text.items ≡ pair_text error.now) }
{
    match error {
        PairMismatch::PortsDiffer(name) => line(alloc, b"refused ports ", name.bytes()),
        PairMismatch::CareInputs(name) => line(alloc, b"refused care ports ", name.bytes()),
        PairMismatch::CareOutputs(count) => number_line(alloc, b"refused care outputs ", *count),
        PairMismatch::NoTarget => line(alloc, b"refused impl notarget", b""),
        PairMismatch::TooManyTargets(count) => {
            number_line(alloc, b"refused impl toomanytargets ", *count)
        }
    }
}

/// What is printed of an error of the file of the option of this name, if one that its bytes have is the number of a line, behind
/// this word.
pub fn line_error_line(
    alloc: Global,
    option: &[u8],
    word: &[u8],
    error: &FileError<u64>,
) -> Result<Vec<u8>, OutOfMemory>
    ensures { IfOk result (λ text. text.items ≡ line_error_text option.now word.now error.now) }
{
    let mut text = Vec::from_slice(alloc, b"refused ")?;
    text.extend_from_slice(option)?;
    match error {
        FileError::TooLong => text.extend_from_slice(b" toolong\n")?,
        FileError::Within(number) => add_line_number(&mut text, word, *number)?,
    }
    Ok(text)
}

/// Puts the word and the number of a line behind the text, each behind a blank, and ends the line.
fn add_line_number(text: &mut Vec<u8>, word: &[u8], number: u64) -> Result<(), OutOfMemory>
    ensures { OnOk result (text.new.items ≡ text.old.items ++ codes " " ++ word.now ++ codes " " ++ decimal number ++ codes "\n") }
{
    let mut buffer = Buffer::new();
    text.extend_from_slice(b" ")?;
    text.extend_from_slice(word)?;
    text.extend_from_slice(b" ")?;
    text.extend_from_slice(buffer.format(number).as_bytes())?;
    text.extend_from_slice(b"\n")?;
    Ok(())
}

/// What is printed where the file of the option of this name gives no netlist.
pub fn file_error_line(
    alloc: Global,
    option: &[u8],
    error: &FileError<NetlistError>,
) -> Result<Vec<u8>, OutOfMemory>
    ensures { IfOk result (λ text. text.items ≡ codes "refused " ++ option.now ++ codes " " ++ netlist_text error.now ++ codes "\n") }
{
    let words = file_error_words(alloc, error)?;
    let mut text = Vec::from_slice(alloc, b"refused ")?;
    text.extend_from_slice(option)?;
    text.extend_from_slice(b" ")?;
    text.extend_from_slice(words.as_slice())?;
    text.extend_from_slice(b"\n")?;
    Ok(text)
}

fn file_error_words(alloc: Global, error: &FileError<NetlistError>) -> Result<Vec<u8>, OutOfMemory>
    ensures { IfOk result (λ text. text.items ≡ netlist_text error.now) }
{
    match error {
        FileError::TooLong => Ok(Vec::from_slice(alloc, b"toolong")?),
        FileError::Within(NetlistError::Syntax(at)) => syntax_words(alloc, *at),
        FileError::Within(NetlistError::Refused(refusal)) => refusal_words(alloc, refusal),
        FileError::Within(NetlistError::Aiger(error)) => aiger_words(alloc, *error),
    }
}

fn syntax_words(alloc: Global, at: u64) -> Result<Vec<u8>, OutOfMemory>
    ensures { IfOk result (λ text. text.items ≡ codes "syntax " ++ decimal at) }
{
    numbered(alloc, b"syntax ", at)
}

fn aiger_words(alloc: Global, error: AigerTextError) -> Result<Vec<u8>, OutOfMemory>
    ensures { IfOk result (λ text. text.items ≡ aiger_text error) }
{
    match error {
        AigerTextError::Line(line) => numbered(alloc, b"aiger ", line),
        AigerTextError::DefinedTwice(variable) => numbered(alloc, b"definedtwice ", variable),
        AigerTextError::Undefined(variable) => numbered(alloc, b"undefined ", variable),
    }
}

/// A word and a number.
fn numbered(alloc: Global, word: &[u8], number: u64) -> Result<Vec<u8>, OutOfMemory>
    ensures { IfOk result (λ text. text.items ≡ word.now ++ decimal number) }
{
    let mut buffer = Buffer::new();
    let mut text = Vec::from_slice(alloc, word)?;
    text.extend_from_slice(buffer.format(number).as_bytes())?;
    Ok(text)
}

/// The name of an option, without its dashes.
pub fn option_name(file: FileOption) -> &'static [u8]
    ensures { result.now ≡ option_name file }
{
    match file {
        FileOption::Implementation => b"impl",
        FileOption::Specification => b"spec",
        FileOption::Weight => b"weight",
        FileOption::Care => b"care",
        FileOption::Patch => b"patch",
        FileOption::Out => b"out",
        FileOption::Report => b"report",
        FileOption::Cut => b"cut",
    }
}

fn refusal_words(alloc: Global, refusal: &Refusal) -> Result<Vec<u8>, OutOfMemory>
    ensures { IfOk result (λ text. text.items ≡ refusal_text refusal.now) }
{
    match refusal {
        Refusal::DeclaredTwice(name) => joined(alloc, b"declaredtwice ", name),
        Refusal::PortUndeclared(name) => joined(alloc, b"portundeclared ", name),
        Refusal::NotAPort(name) => joined(alloc, b"notaport ", name),
        Refusal::InputDriven(name) => joined(alloc, b"inputdriven ", name),
        Refusal::DrivenTwice(name) => joined(alloc, b"driventwice ", name),
        Refusal::Undriven(name) => joined(alloc, b"undriven ", name),
        Refusal::Loop(loop_names) => loop_words(alloc, loop_names.as_slice()),
    }
}

fn joined(alloc: Global, word: &[u8], name: &Name) -> Result<Vec<u8>, OutOfMemory>
    ensures { IfOk result (λ text. text.items ≡ word.now ++ name.now) }
{
    let mut text = Vec::from_slice(alloc, word)?;
    text.extend_from_slice(name.bytes())?;
    Ok(text)
}

fn loop_words(alloc: Global, names: &[Name]) -> Result<Vec<u8>, OutOfMemory>
    ensures { IfOk result (λ text. text.items ≡ codes "loop" ++ flat_map (λ name. codes " " ++ name) names.now) }
{
    let mut text = Vec::from_slice(alloc, b"loop")?;
    for name in names {
        text.extend_from_slice(b" ")?;
        text.extend_from_slice(name.bytes())?;
    }
    Ok(text)
}
