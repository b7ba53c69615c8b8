//! The reading of the words.

ghost use Rattle.std.specs.Prelude.{◌≡◌, ◌≢◌, [], codes, false, map, IfErr, IfNone, IfOk, IfSome, IsSome, Some};
ghost use Rattle.std.specs.String.{string_bytes};
ghost use Rattle.clap.specs.Words.{first_value, found_of, kind_of, subcommand_rows_of};
ghost use Rattle.eco_words.specs.CommandLine.{GivesChange, GivesFlag, GivesLeast, GivesNumber, GivesProblem, IsCause, IsCommand, IsExactlyOne, IsFirstWrong, change_options_of, gen_numbers, is_help_word, name_given, patch_numbers, problem_options_of, prove_numbers, synth_numbers};
ghost use Rattle.eco_words.specs.Steps.{all_values, numbered, AllHaveValues, HasValues, IsAnswerTo, IsEntered, IsMisread, IsMisvalued, IsOpened, IsTaken, IsTheWrong};
ghost use Rattle.eco_words.specs.Steps.{audit_required, change_required, gen_required, locate_required, problem_required, prove_required, recheck_required, synth_required};
ghost use Rattle.eco_words.specs.declared.answer.NumberOption.TheVariants.{Budget, InputWeight, Least, Seed, Size, Targets};

use crate::answer::{
    Audit, ChangeFiles, Gen, Invocation, Locate, NumberOption, ProblemFiles, Prove, Recheck, Synth,
    WordsError,
};
use crate::command::{eco_command, help_text};
use crate::number::number;
use crate::topic::asked_topic;
use crate::{
    DEFAULT_BUDGET, MOST_BUDGET, MOST_LEAST, MOST_SEED, MOST_SIZE, MOST_TARGETS, MOST_WEIGHT,
};
use clap::error::ErrorKind;
use clap::{ArgMatches, Error};
use std::alloc::{AllocError, Global};

/// Reads the words, of which the first is the program's own name. They are exactly one of a command,
/// a request, faulty and a command whose number is wrong, and the answer says which, unless memory
/// runs out.
///
/// # Errors
/// `Help` where they ask for help or for the version and `Faulty` where they have an error, each with
/// clap's text; `Number` where clap finds neither, with the first option whose number is none that it may have;
/// `OutOfMemory`.
pub fn read<'a>(alloc: Global, words: &'a [String]) -> Result<Invocation<'a>, WordsError>
    ensures command { IfOk result (IsCommand (map string_bytes words.entry.now)) }
    ensures cause { IfErr result (IsCause (map string_bytes words.entry.now)) }
    ensures one { IsExactlyOne (map string_bytes words.entry.now) }
{
    understood(alloc, words)
}

/// The same, but for the law that the four are exactly one.
#[tactic(auto, using(crate::proofs::CommandLineLemmas::helped_by_word))]
fn understood<'a>(alloc: Global, words: &'a [String]) -> Result<Invocation<'a>, WordsError>
    ensures command { IfOk result (IsCommand (map string_bytes words.entry.now)) }
    ensures cause { IfErr result (IsCause (map string_bytes words.entry.now)) }
{
    match asked_topic(words) {
        Some(topic) => Err(WordsError::Help(help_text(alloc, topic)?)),
        None => parsed(alloc, words),
    }
}

/// What clap makes of the words.
fn parsed<'a>(alloc: Global, words: &'a [String]) -> Result<Invocation<'a>, WordsError>
    requires { is_help_word (map string_bytes words.now) ≡ false }
    ensures command { IfOk result (IsCommand (map string_bytes words.entry.now)) }
    ensures cause { IfErr result (IsCause (map string_bytes words.entry.now)) }
{
    let command = eco_command(alloc)?;
    match command.try_get_matches_from(words) {
        Ok(matches) => invocation(alloc, &matches),
        Err(error) => Err(refusal(alloc, &error)?),
    }
}

/// The command that clap matched.
#[tactic(auto, using(crate::proofs::RowLemmas::taken))]
fn invocation<'a>(alloc: Global, matches: &ArgMatches<'a>) -> Result<Invocation<'a>, WordsError>
    requires { IsEntered (subcommand_rows_of matches.now) }
    ensures ok { IfOk result (IsTaken (subcommand_rows_of matches.now)) }
    ensures err { IfErr result (IsMisread (IsMisvalued (subcommand_rows_of matches.now))) }
{
    if let Some(options) = entered(matches, "synth") {
        return numbered(synth(options));
    }
    if let Some(options) = entered(matches, "audit") {
        return numbered(audit(options));
    }
    if let Some(options) = entered(matches, "prove") {
        return numbered(prove(options));
    }
    if let Some(options) = entered(matches, "recheck") {
        return numbered(recheck(options));
    }
    if let Some(options) = entered(matches, "gen") {
        return numbered(draw(options));
    }
    match entered(matches, "locate") {
        Some(options) => locate(alloc, options),
        None => unreachable!(),
    }
}

/// What was read, or that an option's value is no number that it may have.
fn numbered<'a>(read: Result<Invocation<'a>, NumberOption>) -> Result<Invocation<'a>, WordsError>
    ensures { result ≡ numbered read.entry }
{
    match read {
        Ok(invocation) => Ok(invocation),
        Err(option) => Err(WordsError::Number(option)),
    }
}

/// The options of this subcommand, where it was entered.
fn entered<'m, 'a>(matches: &'m ArgMatches<'a>, name: &str) -> Option<&'m ArgMatches<'a>>
    requires { IsEntered (subcommand_rows_of matches.now) }
    ensures some { IfSome result (λ options.
        IsOpened (subcommand_rows_of matches.now) name.now (first_value (found_of options.now)) (all_values (found_of options.now))) }
    ensures none { IfNone result (name_given (subcommand_rows_of matches.now) ≢ Some name.now) }
{
    matches.subcommand_matches(name)
}

fn synth<'a>(options: &ArgMatches<'a>) -> Result<Invocation<'a>, NumberOption>
    requires { AllHaveValues (first_value (found_of options.now)) synth_required }
    ensures ok { IfOk result (HasValues (codes "synth") (first_value (found_of options.now)) (all_values (found_of options.now))) }
    ensures err { IfErr result (IsFirstWrong (first_value (found_of options.now)) synth_numbers) }
{
    let budget = budget(options)?;
    let input_weight = input_weight(options)?;
    let least = least(options)?;
    Ok(Invocation::Synth(Synth {
        problem: problem_files(options, input_weight),
        patch: value(options, "patch"),
        out: value(options, "out"),
        budget,
        bound: flag(options, "bound"),
        least,
    }))
}

fn audit<'a>(options: &ArgMatches<'a>) -> Result<Invocation<'a>, NumberOption>
    requires { AllHaveValues (first_value (found_of options.now)) audit_required }
    ensures ok { IfOk result (HasValues (codes "audit") (first_value (found_of options.now)) (all_values (found_of options.now))) }
    ensures err { IfErr result (IsFirstWrong (first_value (found_of options.now)) patch_numbers) }
{
    let budget = budget(options)?;
    let input_weight = input_weight(options)?;
    Ok(Invocation::Audit(Audit {
        problem: problem_files(options, input_weight),
        patch: value(options, "patch"),
        out: value(options, "out"),
        report: value(options, "report"),
        budget,
    }))
}

/// The files of the problem, where an input that the file of weights doesn't list has this weight.
fn problem_files<'a>(options: &ArgMatches<'a>, input_weight: u32) -> ProblemFiles<'a>
    requires files { AllHaveValues (first_value (found_of options.now)) problem_required }
    requires weight { GivesNumber (first_value (found_of options.now)) InputWeight input_weight }
    ensures { GivesProblem (first_value (found_of options.now)) (problem_options_of result) }
{
    ProblemFiles {
        implementation: value(options, "impl"),
        specification: value(options, "spec"),
        weight: value(options, "weight"),
        care: options.get_str("care"),
        input_weight,
    }
}

fn prove<'a>(options: &ArgMatches<'a>) -> Result<Invocation<'a>, NumberOption>
    requires { AllHaveValues (first_value (found_of options.now)) prove_required }
    ensures ok { IfOk result (HasValues (codes "prove") (first_value (found_of options.now)) (all_values (found_of options.now))) }
    ensures err { IfErr result (IsFirstWrong (first_value (found_of options.now)) prove_numbers) }
{
    let budget = budget(options)?;
    Ok(Invocation::Prove(Prove {
        left: value(options, "left"),
        right: value(options, "right"),
        cnf: value(options, "cnf"),
        trace: value(options, "trace"),
        budget,
    }))
}

fn recheck<'a>(options: &ArgMatches<'a>) -> Result<Invocation<'a>, NumberOption>
    requires { AllHaveValues (first_value (found_of options.now)) recheck_required }
    ensures ok { IfOk result (HasValues (codes "recheck") (first_value (found_of options.now)) (all_values (found_of options.now))) }
    ensures err { IfErr result (IsFirstWrong (first_value (found_of options.now)) []) }
{
    let cnf = value(options, "cnf");
    let trace = value(options, "trace");
    Ok(Invocation::Recheck(Recheck { cnf, trace }))
}

/// The numbers that a problem is drawn for.
fn draw<'a>(options: &ArgMatches<'a>) -> Result<Invocation<'a>, NumberOption>
    requires { AllHaveValues (first_value (found_of options.now)) gen_required }
    ensures ok { IfOk result (HasValues (codes "gen") (first_value (found_of options.now)) (all_values (found_of options.now))) }
    ensures err { IfErr result (IsFirstWrong (first_value (found_of options.now)) gen_numbers) }
{
    let seed = seed(options)?;
    let size = size(options)?;
    let targets = targets(options, size)?;
    let budget = budget(options)?;
    Ok(Invocation::Gen(Gen {
        seed,
        size,
        targets,
        budget,
    }))
}

fn locate<'a>(alloc: Global, options: &ArgMatches<'a>) -> Result<Invocation<'a>, WordsError>
    requires { AllHaveValues (first_value (found_of options.now)) locate_required }
    ensures ok { IfOk result (HasValues (codes "locate") (first_value (found_of options.now)) (all_values (found_of options.now))) }
    ensures err { IfErr result (IsMisread (IsFirstWrong (first_value (found_of options.now)) prove_numbers)) }
{
    match budget(options) {
        Ok(budget) => Ok(Invocation::Locate(Locate {
            change: change_files(options),
            nets: values(alloc, options, "net")?,
            cut: value(options, "cut"),
            budget,
        })),
        Err(option) => Err(WordsError::Number(option)),
    }
}

/// The files of the change.
fn change_files<'a>(options: &ArgMatches<'a>) -> ChangeFiles<'a>
    requires { AllHaveValues (first_value (found_of options.now)) change_required }
    ensures { GivesChange (first_value (found_of options.now)) (change_options_of result) }
{
    let implementation = value(options, "impl");
    let specification = value(options, "spec");
    ChangeFiles {
        implementation,
        specification,
        care: options.get_str("care"),
    }
}

/// What the draws start from.
fn seed(options: &ArgMatches) -> Result<u64, NumberOption>
    requires { IsSome (first_value (found_of options.now) (codes "seed")) }
    ensures ok { IfOk result (GivesNumber (first_value (found_of options.now)) Seed) }
    ensures err { IfErr result (IsTheWrong (first_value (found_of options.now)) Seed) }
{
    match number(value(options, "seed"), MOST_SEED) {
        Some(seed) => Ok(seed),
        None => Err(NumberOption::Seed),
    }
}

/// The number of gates that are drawn.
fn size(options: &ArgMatches) -> Result<u32, NumberOption>
    requires { IsSome (first_value (found_of options.now) (codes "size")) }
    ensures ok { IfOk result (GivesNumber (first_value (found_of options.now)) Size) }
    ensures err { IfErr result (IsTheWrong (first_value (found_of options.now)) Size) }
{
    match number(value(options, "size"), MOST_SIZE) {
        Some(0) | None => Err(NumberOption::Size),
        Some(size) => Ok(size as u32),
    }
}

/// The number of targets.
fn targets(options: &ArgMatches, size: u32) -> Result<u32, NumberOption>
    requires wanted { IsSome (first_value (found_of options.now) (codes "targets")) }
    requires size { GivesNumber (first_value (found_of options.now)) Size size }
    ensures ok { IfOk result (GivesNumber (first_value (found_of options.now)) Targets) }
    ensures err { IfErr result (IsTheWrong (first_value (found_of options.now)) Targets) }
{
    match number(value(options, "targets"), MOST_TARGETS) {
        Some(0) | None => Err(NumberOption::Targets),
        Some(targets) if targets <= u64::from(size) => Ok(targets as u32),
        Some(_) => Err(NumberOption::Targets),
    }
}

/// The most learnt clauses for one question.
fn budget(options: &ArgMatches) -> Result<u32, NumberOption>
    ensures ok { IfOk result (GivesNumber (first_value (found_of options.now)) Budget) }
    ensures err { IfErr result (IsTheWrong (first_value (found_of options.now)) Budget) }
{
    match options.get_str("budget") {
        Some(text) => match number(text, MOST_BUDGET) {
            Some(0) | None => Err(NumberOption::Budget),
            Some(budget) => Ok(budget as u32),
        },
        None => Ok(DEFAULT_BUDGET),
    }
}

/// The weight of an input that the file of weights doesn't list.
fn input_weight(options: &ArgMatches) -> Result<u32, NumberOption>
    ensures ok { IfOk result (GivesNumber (first_value (found_of options.now)) InputWeight) }
    ensures err { IfErr result (IsTheWrong (first_value (found_of options.now)) InputWeight) }
{
    match options.get_str("input-weight") {
        Some(text) => match number(text, MOST_WEIGHT) {
            Some(weight) => Ok(weight as u32),
            None => Err(NumberOption::InputWeight),
        },
        None => Ok(1),
    }
}

/// The most questions that may be spent on a cheaper base of a target, where it is asked for one.
fn least(options: &ArgMatches) -> Result<Option<u32>, NumberOption>
    ensures ok { IfOk result (GivesLeast (first_value (found_of options.now) (codes "least"))) }
    ensures err { IfErr result (IsTheWrong (first_value (found_of options.now)) Least) }
{
    match options.get_str("least") {
        Some(text) => match number(text, MOST_LEAST) {
            Some(0) | None => Err(NumberOption::Least),
            Some(questions) => Ok(Some(questions as u32)),
        },
        None => Ok(None),
    }
}

/// Whether this flag is given.
fn flag(options: &ArgMatches, name: &str) -> bool
    ensures { GivesFlag (first_value (found_of options.now) name.now) result }
{
    match options.get_str(name) {
        Some(text) => text == "true",
        None => false,
    }
}

fn value<'a>(options: &ArgMatches<'a>, name: &str) -> &'a str
    requires { IsSome (first_value (found_of options.now) name.now) }
    ensures { first_value (found_of options.now) name.now ≡ Some result.now }
{
    match options.get_str(name) {
        Some(text) => text,
        None => unreachable!(),
    }
}

/// All values of an option that may be given any number of times, in order.
fn values<'a>(
    alloc: Global,
    options: &ArgMatches<'a>,
    name: &str,
) -> Result<Vec<&'a str>, AllocError>
    ensures { IfOk result (λ values. map (λ value. value.now) values.items ≡ all_values (found_of options.now) name.now) }
{
    match options.get_strs(name) {
        Some(values) => Vec::from_slice(alloc, values),
        None => Ok(Vec::new(alloc)),
    }
}

/// What an error of clap's is to the caller, with clap's text.
fn refusal(alloc: Global, error: &Error) -> Result<WordsError, AllocError>
    ensures { IfOk result (IsAnswerTo (kind_of error.now)) }
{
    let text = format!(in alloc; "{error}")?;
    match error.kind() {
        ErrorKind::DisplayHelp | ErrorKind::DisplayVersion => Ok(WordsError::Help(text)),
        ErrorKind::OutOfMemory => Ok(WordsError::OutOfMemory),
        _ => Ok(WordsError::Faulty(text)),
    }
}
