//! The files that a command names, by its options, and when two of them are one.

ghost use Rattle.std.specs.Prelude.{◌≡◌, [], MatchResult, option_copied, unwrap_or};
ghost use Rattle.std.specs.List.{list_any};
ghost use Rattle.eco_words.specs.CommandLine.{change_options_of, problem_options_of};
ghost use Rattle.eco_inputs.specs.Paths.{ArePathsApart, IsFirstRepeat, are_one, change_files_of, change_path_of, lent, option_name, problem_files_of, problem_path_of};

use eco_words::{ChangeFiles, ProblemFiles};

// ---- of any command

/// Refuses a file that two options name: of these files, in their options' order, the first whose path is also that of one
/// before it.
pub fn refuse_repeats<N: Copy>(files: &[(N, Option<&str>)]) -> Result<(), N>
    ensures { MatchResult result (λ _. ArePathsApart (lent files.now)) (IsFirstRepeat (lent files.now)) }
{
    for (index, (option, path)) in files.iter().enumerate() {
        if comes_again(&files[..index], *path) {
            return Err(*option);
        }
    }
    Ok(())
}

/// Whether this path is given, and one of these files has it.
fn comes_again<N>(files: &[(N, Option<&str>)], path: Option<&str>) -> bool
    ensures { result ≡ list_any (λ file. are_one (option_copied path.entry) (option_copied file.1)) files.now }
{
    files.iter().any(|file| are_one(path, file.1))
}

/// Whether both paths are given, and are one.
fn are_one(one: Option<&str>, other: Option<&str>) -> bool
    ensures { result ≡ are_one (option_copied one.entry) (option_copied other.entry) }
{
    match (one, other) {
        (Some(one), Some(other)) => one == other,
        _ => false,
    }
}

// ---- of a problem

/// A file of `synth`, `audit` or `locate`, by the option that names it.
#[derive(Clone, Copy)]
pub enum FileOption {
    Implementation,
    Specification,
    Weight,
    Care,
    Patch,
    Out,
    Report,
    Cut,
}

/// The path that a problem gives for an option; nothing where it gives none.
pub fn problem_path_of<'a>(problem: &ProblemFiles<'a>, file: FileOption) -> &'a str
    ensures { result.now ≡ problem_path_of (problem_options_of problem.now) file }
{
    match file {
        FileOption::Implementation => problem.implementation,
        FileOption::Specification => problem.specification,
        FileOption::Weight => problem.weight,
        FileOption::Care => given_path(problem.care),
        FileOption::Patch | FileOption::Out | FileOption::Report | FileOption::Cut => "",
    }
}

/// The path, nothing where none is given.
fn given_path<'a>(path: Option<&'a str>) -> &'a str
    ensures { result.now ≡ unwrap_or (option_copied path.entry) [] }
{
    match path {
        Some(path) => path,
        None => "",
    }
}

/// The files of a problem, in the order of their options.
pub fn problem_files_of<'a>(problem: &ProblemFiles<'a>) -> [(FileOption, Option<&'a str>); 4]
    ensures { lent result ≡ problem_files_of (problem_options_of problem.now) }
{
    [
        (FileOption::Implementation, Some(problem.implementation)),
        (FileOption::Specification, Some(problem.specification)),
        (FileOption::Weight, Some(problem.weight)),
        (FileOption::Care, problem.care),
    ]
}

// ---- of a change

/// The path that a change gives for an option; nothing where it gives none.
pub fn change_path_of<'a>(change: &ChangeFiles<'a>, file: FileOption) -> &'a str
    ensures { result.now ≡ change_path_of (change_options_of change.now) file }
{
    match file {
        FileOption::Implementation => change.implementation,
        FileOption::Specification => change.specification,
        FileOption::Care => given_path(change.care),
        _ => "",
    }
}

/// The files of a change, in the order of their options.
pub fn change_files_of<'a>(change: &ChangeFiles<'a>) -> [(FileOption, Option<&'a str>); 3]
    ensures { lent result ≡ change_files_of (change_options_of change.now) }
{
    [
        (FileOption::Implementation, Some(change.implementation)),
        (FileOption::Specification, Some(change.specification)),
        (FileOption::Care, change.care),
    ]
}
