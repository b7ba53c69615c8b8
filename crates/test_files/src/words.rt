//! What lines of words come to, and the texts that clap makes of them.

use eco_words::{Gen, Invocation, NumberOption, ProblemFiles, Synth, WordsError, read};
use std::alloc::{AllocError, Global};
use std::test::Fail;

fn words_of(alloc: Global, line: &str) -> Result<Vec<String>, AllocError> {
    let mut words = Vec::new(alloc);
    for word in line.split(' ') {
        words.push(String::from_str(alloc, word)?)?;
    }
    Ok(words)
}

/// The command with the five paths, and these words in front of them.
fn command_with(alloc: Global, option: &str) -> Result<Vec<String>, AllocError> {
    let line = format!(in alloc;
        "eco synth {option} --impl f --spec g --weight 9 --patch p --out o"
    )?;
    words_of(alloc, line.as_str())
}

/// What the words of `eco synth` give; None where they are none.
fn synth_of<'a>(alloc: Global, words: &'a [String]) -> Option<Synth<'a>> {
    match read(alloc, words) {
        Ok(Invocation::Synth(synth)) => Some(synth),
        _ => None,
    }
}

/// Whether both have the same paths, the cared netlist's among them.
fn have_same_paths(one: &Synth<'_>, other: &Synth<'_>) -> bool {
    (one.problem.implementation == other.problem.implementation)
        & (one.problem.specification == other.problem.specification)
        & (one.problem.weight == other.problem.weight)
        & (one.problem.care == other.problem.care)
        & (one.patch == other.patch)
        & (one.out == other.out)
}

/// Whether both have the same numbers and flags.
fn have_same_numbers(one: &Synth<'_>, other: &Synth<'_>) -> bool {
    (one.budget == other.budget)
        & (one.problem.input_weight == other.problem.input_weight)
        & (one.bound == other.bound)
        & (one.least == other.least)
}

/// Whether the words are those of `eco synth` that give this.
fn give(alloc: Global, words: &[String], expected: &Synth<'_>) -> bool {
    match synth_of(alloc, words) {
        Some(synth) => have_same_paths(&synth, expected) & have_same_numbers(&synth, expected),
        None => false,
    }
}

/// Lines, each with the paths that it gives.
const PATHS: [(&str, [&str; 5]); 3] = [
    (
        "eco synth --impl f.v --spec g.v --weight w.txt --patch p.v --out o.v",
        ["f.v", "g.v", "w.txt", "p.v", "o.v"],
    ),
    (
        "eco synth --out=o --patch=p --weight=w --spec=g --impl=f",
        ["f", "g", "w", "p", "o"],
    ),
    (
        "/bin/eco synth --impl= --spec=-g --weight=--help --patch a=b --out synth",
        ["", "-g", "--help", "a=b", "synth"],
    ),
];

#[test]
fn each_path_comes_from_its_option(rt: HostRuntime) -> Result<(), Fail> {
    for (line, paths) in &PATHS {
        let words = words_of(rt.alloc(), line)?;
        let expected = Synth {
            problem: ProblemFiles {
                implementation: paths[0],
                specification: paths[1],
                weight: paths[2],
                care: None,
                input_weight: 1,
            },
            patch: paths[3],
            out: paths[4],
            budget: 200_000,
            bound: false,
            least: None,
        };
        assert!(rt; give(rt.alloc(), &words, &expected), "in {line}");
    }
    Ok(())
}

/// Options, each with the cared netlist, the budget, the weight of an input and the flag that it gives.
const LEFT_OUT: [(&str, Option<&str>, u32, u32, bool); 10] = [
    ("--care c.v --budget 1", Some("c.v"), 1, 1, false),
    (
        "--budget=4294967295 --care=",
        Some(""),
        4_294_967_295,
        1,
        false,
    ),
    (
        "--input-weight 3 --care 5 --budget 0007",
        Some("5"),
        7,
        3,
        false,
    ),
    ("--bound", None, 200_000, 1, true),
    (
        "--budget 7 --bound --care=--bound",
        Some("--bound"),
        7,
        1,
        true,
    ),
    ("--input-weight 7", None, 200_000, 7, false),
    ("--input-weight=0", None, 200_000, 0, false),
    ("--input-weight=007", None, 200_000, 7, false),
    (
        "--input-weight 4294967295",
        None,
        200_000,
        4_294_967_295,
        false,
    ),
    (
        "--input-weight 00000000004294967295",
        None,
        200_000,
        4_294_967_295,
        false,
    ),
];

/// What may be left out is taken where it is given.
#[test]
fn options_that_may_be_left_out(rt: HostRuntime) -> Result<(), Fail> {
    for (option, care, budget, input_weight, bound) in &LEFT_OUT {
        let words = command_with(rt.alloc(), option)?;
        let expected = Synth {
            problem: ProblemFiles {
                implementation: "f",
                specification: "g",
                weight: "9",
                care: *care,
                input_weight: *input_weight,
            },
            patch: "p",
            out: "o",
            budget: *budget,
            bound: *bound,
            least: None,
        };
        assert!(rt; give(rt.alloc(), &words, &expected), "at {option}");
    }
    Ok(())
}

/// The option whose number is refused; None where none is.
fn wrong_number(alloc: Global, words: &[String]) -> Option<NumberOption> {
    match read(alloc, words) {
        Err(WordsError::Number(option)) => Some(option),
        _ => None,
    }
}

/// Options, each with the one whose number is refused.
const NO_NUMBERS: [(&str, NumberOption); 20] = [
    ("--budget 0", NumberOption::Budget),
    ("--budget 000", NumberOption::Budget),
    ("--budget 4294967296", NumberOption::Budget),
    ("--budget=", NumberOption::Budget),
    ("--budget=-1", NumberOption::Budget),
    ("--input-weight x --budget x", NumberOption::Budget),
    ("--input-weight 4294967296", NumberOption::InputWeight),
    ("--input-weight x", NumberOption::InputWeight),
    ("--input-weight=", NumberOption::InputWeight),
    ("--input-weight=+1", NumberOption::InputWeight),
    ("--input-weight=-1", NumberOption::InputWeight),
    (
        "--input-weight 18446744073709551616",
        NumberOption::InputWeight,
    ),
    (
        "--input-weight 000000000000000000001",
        NumberOption::InputWeight,
    ),
    ("--budget 1 --input-weight x", NumberOption::InputWeight),
    ("--least 0", NumberOption::Least),
    ("--least=00", NumberOption::Least),
    ("--least 4294967296", NumberOption::Least),
    ("--least=", NumberOption::Least),
    ("--least x --bound", NumberOption::Least),
    ("--least x --input-weight x", NumberOption::InputWeight),
];

/// Options, each with the effort that it gives.
const EFFORTS: [(&str, u32); 4] = [
    ("--least 1", 1),
    ("--least=4294967295 --bound", 4_294_967_295),
    ("--bound --least 0064", 64),
    ("--least 8 --care=--least", 8),
];

/// The effort that the words give; None where they give none.
fn effort_of(alloc: Global, words: &[String]) -> Option<u32> {
    match synth_of(alloc, words) {
        Some(synth) => synth.least,
        None => None,
    }
}

#[test]
fn efforts_for_bases_of_least_cost(rt: HostRuntime) -> Result<(), Fail> {
    for (option, effort) in &EFFORTS {
        let words = command_with(rt.alloc(), option)?;
        assert_eq!(rt; effort_of(rt.alloc(), &words), Some(*effort), "at {option}");
    }
    Ok(())
}

#[test]
fn numbers_that_are_refused(rt: HostRuntime) -> Result<(), Fail> {
    for (option, wrong) in &NO_NUMBERS {
        let words = command_with(rt.alloc(), option)?;
        assert!(rt;
            wrong_number(rt.alloc(), &words) == Some(*wrong),
            "at {option}"
        );
    }
    Ok(())
}

/// Lines, each with the option whose number is refused.
const NOT_DRAWN: [(&str, NumberOption); 8] = [
    (
        "eco gen --budget 0 --targets 9 --size 0 --seed=",
        NumberOption::Seed,
    ),
    (
        "eco gen --seed 18446744073709551616 --size 1 --targets 1",
        NumberOption::Seed,
    ),
    ("eco gen --seed 1 --size 0 --targets 2", NumberOption::Size),
    (
        "eco gen --seed 1 --size 100001 --targets 9",
        NumberOption::Size,
    ),
    (
        "eco gen --seed 1 --size 1 --targets 2",
        NumberOption::Targets,
    ),
    (
        "eco gen --seed 1 --size 9 --targets 9",
        NumberOption::Targets,
    ),
    (
        "eco gen --seed 1 --size 9 --targets 0 --budget 0",
        NumberOption::Targets,
    ),
    (
        "eco gen --seed 1 --size 2 --targets 2 --budget 0",
        NumberOption::Budget,
    ),
];

#[test]
fn the_first_wrong_number_of_a_drawn_problem_is_refused(rt: HostRuntime) -> Result<(), Fail> {
    for (line, wrong) in &NOT_DRAWN {
        let words = words_of(rt.alloc(), line)?;
        assert!(rt;
            wrong_number(rt.alloc(), &words) == Some(*wrong),
            "in {line}"
        );
    }
    Ok(())
}

/// The paths of the commands other than `eco synth`, in the order of its fields; each is empty where the words give none.
fn paths_of<'a>(alloc: Global, words: &'a [String]) -> [&'a str; 6] {
    match read(alloc, words) {
        Ok(Invocation::Audit(audit)) => [
            audit.problem.implementation,
            audit.problem.specification,
            audit.problem.weight,
            audit.patch,
            audit.out,
            audit.report,
        ],
        Ok(Invocation::Prove(prove)) => [prove.left, prove.right, prove.cnf, prove.trace, "", ""],
        Ok(Invocation::Recheck(recheck)) => ["", "", recheck.cnf, recheck.trace, "", ""],
        _ => ["", "", "", "", "", ""],
    }
}

/// Lines, each with the paths that it gives.
const COMMANDS: [(&str, [&str; 6]); 3] = [
    (
        "eco audit --report r --out o --patch p --weight w --spec g --impl f",
        ["f", "g", "w", "p", "o", "r"],
    ),
    (
        "eco prove --budget 200000 --left a --right b --cnf c --trace t",
        ["a", "b", "c", "t", "", ""],
    ),
    ("eco recheck --trace t --cnf c", ["", "", "c", "t", "", ""]),
];

#[test]
fn each_command_takes_its_own_options(rt: HostRuntime) -> Result<(), Fail> {
    for (line, paths) in &COMMANDS {
        let words = words_of(rt.alloc(), line)?;
        assert_eq!(rt; paths_of(rt.alloc(), &words), *paths, "in {line}");
    }
    Ok(())
}

/// Whether the words are those of `eco gen` that give this.
fn give_drawn(alloc: Global, words: &[String], expected: &Gen) -> bool {
    match read(alloc, words) {
        Ok(Invocation::Gen(drawn)) => {
            (drawn.seed == expected.seed)
                & (drawn.size == expected.size)
                & (drawn.targets == expected.targets)
                & (drawn.budget == expected.budget)
        }
        _ => false,
    }
}

/// Lines, each with the seed, the size, the number of targets and the budget that it gives.
const DRAWN: [(&str, u64, u32, u32, u32); 3] = [
    (
        "eco gen --seed 7 --size 2000 --targets 3",
        7,
        2000,
        3,
        200_000,
    ),
    (
        "eco gen --budget=1 --targets=8 --size=0000000000000100000 --seed=18446744073709551615",
        18_446_744_073_709_551_615,
        100_000,
        8,
        1,
    ),
    (
        "eco gen --seed 0 --size 1 --targets 1 --budget 5",
        0,
        1,
        1,
        5,
    ),
];

#[test]
fn a_problem_is_drawn_for_the_numbers_that_are_given(rt: HostRuntime) -> Result<(), Fail> {
    for (line, seed, size, targets, budget) in &DRAWN {
        let words = words_of(rt.alloc(), line)?;
        let expected = Gen {
            seed: *seed,
            size: *size,
            targets: *targets,
            budget: *budget,
        };
        assert!(rt; give_drawn(rt.alloc(), &words, &expected), "in {line}");
    }
    Ok(())
}

/// What a line gives of `eco locate`.
#[derive(Clone, Copy)]
struct Located {
    line: &'static str,
    implementation: &'static str,
    specification: &'static str,
    care: Option<&'static str>,
    nets: &'static [&'static str],
    cut: &'static str,
    budget: u32,
}

/// Whether the words are those of `eco locate` that give this.
fn give_located(alloc: Global, words: &[String], expected: &Located) -> bool {
    match read(alloc, words) {
        Ok(Invocation::Locate(locate)) => {
            (locate.change.implementation == expected.implementation)
                & (locate.change.specification == expected.specification)
                & (locate.change.care == expected.care)
                & (locate.nets.as_slice() == expected.nets)
                & (locate.cut == expected.cut)
                & (locate.budget == expected.budget)
        }
        _ => false,
    }
}

const LOCATED: [Located; 5] = [
    Located {
        line: "eco locate --impl old.v --spec new.v --cut cut.v",
        implementation: "old.v",
        specification: "new.v",
        care: None,
        nets: &[],
        cut: "cut.v",
        budget: 200_000,
    },
    Located {
        line: "eco locate --budget=1 --cut=c --care=a --spec=g --impl=f",
        implementation: "f",
        specification: "g",
        care: Some("a"),
        nets: &[],
        cut: "c",
        budget: 1,
    },
    Located {
        line: "eco locate --care= --impl= --spec=-g --cut=--help --budget 4294967295",
        implementation: "",
        specification: "-g",
        care: Some(""),
        nets: &[],
        cut: "--help",
        budget: 4_294_967_295,
    },
    Located {
        line: "/bin/eco locate --spec f --impl g --cut locate --budget 0007",
        implementation: "g",
        specification: "f",
        care: None,
        nets: &[],
        cut: "locate",
        budget: 7,
    },
    // nets in the words' order, one of them twice
    Located {
        line: "eco locate --net y --impl f --net=z[0] --spec g --net y --cut c --net=",
        implementation: "f",
        specification: "g",
        care: None,
        nets: &["y", "z[0]", "y", ""],
        cut: "c",
        budget: 200_000,
    },
];

#[test]
fn nets_are_located_for_the_words_that_are_given(rt: HostRuntime) -> Result<(), Fail> {
    for located in &LOCATED {
        let line = located.line;
        let words = words_of(rt.alloc(), line)?;
        assert!(rt; give_located(rt.alloc(), &words, located), "in {line}");
    }
    Ok(())
}

/// Lines, each with the option whose number is refused.
const NOT_LOCATED: [(&str, NumberOption); 3] = [
    (
        "eco locate --impl f --spec g --cut c --budget 0",
        NumberOption::Budget,
    ),
    (
        "eco locate --budget= --impl f --spec g --cut c --care a",
        NumberOption::Budget,
    ),
    (
        "eco locate --impl f --spec g --budget=4294967296 --cut c",
        NumberOption::Budget,
    ),
];

#[test]
fn a_budget_that_is_none_locates_no_net(rt: HostRuntime) -> Result<(), Fail> {
    for (line, wrong) in &NOT_LOCATED {
        let words = words_of(rt.alloc(), line)?;
        assert!(rt;
            wrong_number(rt.alloc(), &words) == Some(*wrong),
            "in {line}"
        );
    }
    Ok(())
}

/// Which text of clap has a part.
#[derive(Clone, Copy, PartialEq, Eq)]
enum Text {
    /// The text of help or of the version.
    Help,
    /// That of an error.
    Faulty,
}

/// The text of clap that the words come to, if it has the part.
fn text_with(alloc: Global, words: &[String], part: &str) -> Option<Text> {
    let (kind, text) = match read(alloc, words) {
        Err(WordsError::Help(text)) => (Text::Help, text),
        Err(WordsError::Faulty(text)) => (Text::Faulty, text),
        _ => return None,
    };
    if text.as_str().contains(part) {
        Some(kind)
    } else {
        None
    }
}

/// Lines that ask for help or the version, each with a part of its text.
const HELP: [(&str, &str); 29] = [
    ("eco --help", "2  usage"),
    ("eco help", "Usage: eco <COMMAND>\n"),
    (
        "/bin/eco help synth",
        "Usage: eco synth [OPTIONS] --impl <FILE>",
    ),
    ("eco help audit", "What synth printed (read)"),
    ("eco help prove", "--right <FILE>"),
    (
        "eco help recheck",
        "Usage: eco recheck --cnf <FILE> --trace <FILE>\n",
    ),
    ("eco help gen", "--targets <N>"),
    (
        "eco help locate",
        "Finds which net to cut so that one netlist can do what another does\n",
    ),
    (
        "eco help locate",
        "Usage: eco locate [OPTIONS] --impl <FILE> --spec <FILE> --cut <FILE>\n",
    ),
    (
        "eco locate --help",
        "The netlist that is to be changed (read)",
    ),
    (
        "eco locate --help",
        "The netlist with nets cut, for synth (written)",
    ),
    (
        "eco locate --budget 0 -h",
        "\n\nEffort:\n      --budget <N>  ",
    ),
    (
        "eco locate --impl f --help",
        "\n\nExample:\n  eco locate --impl old.v --spec new.v --cut cut.v\n",
    ),
    ("eco -h", "  synth "),
    ("eco -h", "  recheck "),
    ("eco -h", "  gen "),
    ("eco -h", "  locate "),
    ("eco help", "so that one netlist can do what another does\n"),
    (
        "eco gen --size 1 --help",
        "The number of targets, 1 to 8 and at most the size",
    ),
    ("eco audit -h", "--report <FILE>"),
    ("eco synth --help", "--weight <FILE>"),
    ("eco synth --help", "--care <FILE>"),
    ("eco synth --help", "--bound  "),
    ("eco synth --help", "\n\nEffort:\n      --budget <N>  "),
    ("eco synth --budget 0 --help", "[default: 200000]"),
    ("eco synth --impl f -h", "7  want of memory"),
    ("eco --version", "eco 0.1.0\n"),
    ("eco -V", "eco 0.1.0\n"),
    ("eco synth --input-weight x --help", "[default: 1]"),
];

#[test]
fn help_is_the_text_of_clap(rt: HostRuntime) -> Result<(), Fail> {
    for (line, part) in &HELP {
        let words = words_of(rt.alloc(), line)?;
        let text = text_with(rt.alloc(), &words, part);
        assert!(rt; text == Some(Text::Help), "in {line}");
    }
    Ok(())
}

/// A word that no option is, what a command lacks, and an option that is given twice: each with a part of the text.
const FAULTY: [(&str, &str); 36] = [
    ("eco help run", "unrecognized subcommand 'help'"),
    ("eco help synth --impl", "unrecognized subcommand 'help'"),
    ("eco helps", "unrecognized subcommand 'helps'"),
    ("eco synth help", "unexpected argument 'help'"),
    ("eco run", "unrecognized subcommand 'run'"),
    ("eco synth --version", "unexpected argument '--version'"),
    (
        "eco gen --seed 1 --size 1 --targets 1 --impl f",
        "unexpected argument '--impl'",
    ),
    ("eco synth --imp f", "unexpected argument '--imp'"),
    ("eco synth --impl -f", "unexpected argument '-f'"),
    ("eco synth f", "unexpected argument 'f'"),
    ("eco synth -- --impl f", "unexpected argument"),
    ("eco synth --bad --help", "unexpected argument '--bad'"),
    (
        "eco recheck --cnf c --trace t --budget 1",
        "unexpected argument '--budget'",
    ),
    (
        "eco prove --left a --right b --cnf c --trace t --input-weight 1",
        "unexpected argument '--input-weight'",
    ),
    ("eco", "Usage: eco <COMMAND>"),
    (
        "eco synth --impl f --spec g --weight w --patch p",
        "were not provided:\n  --out <FILE>\n",
    ),
    (
        "eco audit --impl f --spec g --weight w --patch p --out o",
        "were not provided:\n  --report <FILE>\n",
    ),
    (
        "eco prove --left a --cnf c --trace t",
        "were not provided:\n  --right <FILE>\n",
    ),
    (
        "eco gen --seed 1 --size 1",
        "were not provided:\n  --targets <N>\n",
    ),
    (
        "eco locate --impl f --spec g",
        "were not provided:\n  --cut <FILE>\n",
    ),
    (
        "eco locate --budget 0 --care a --cut c",
        "were not provided:\n  --impl <FILE>\n  --spec <FILE>\n",
    ),
    (
        "eco locate --impl f --spec g --cut c --weight w",
        "unexpected argument '--weight'",
    ),
    (
        "eco locate --impl f --spec g --cut c --out o",
        "unexpected argument '--out'",
    ),
    (
        "eco locate --impl f --spec g --cut c --cut c",
        "cannot be used multiple times",
    ),
    ("eco locate --cut", "a value is required for '--cut <FILE>'"),
    ("eco synth --cut c", "unexpected argument '--cut'"),
    ("eco help locate --cut", "unrecognized subcommand 'help'"),
    (
        "eco synth --impl",
        "a value is required for '--impl <FILE>'",
    ),
    (
        "eco synth --input-weight",
        "a value is required for '--input-weight <N>'",
    ),
    ("eco synth --input-weight x", "\n  --out <FILE>\n"),
    (
        "eco synth --impl f --impl g",
        "cannot be used multiple times",
    ),
    (
        "eco synth --input-weight 1 --input-weight 1",
        "cannot be used multiple times",
    ),
    (
        "eco synth --care c --care c",
        "cannot be used multiple times",
    ),
    ("eco synth --bound --bound", "cannot be used multiple times"),
    ("eco synth --bound=1", "unexpected value '1' for '--bound'"),
    ("eco audit --bound", "unexpected argument '--bound'"),
];

/// The text of help that the line asks for.
fn help_of(alloc: Global, line: &str) -> Result<Option<String>, AllocError> {
    let words = words_of(alloc, line)?;
    Ok(help_in(alloc, &words))
}

/// The text of help that the words ask for.
fn help_in(alloc: Global, words: &[String]) -> Option<String> {
    let (is_help, text) = match read(alloc, words) {
        Err(WordsError::Help(text)) => (true, text),
        Err(WordsError::Faulty(text)) => (false, text),
        _ => return None,
    };
    if is_help {
        Some(text)
    } else {
        drop(text);
        None
    }
}

/// Two lines each that ask for the same help.
const ALIKE: [(&str, &str); 7] = [
    ("eco help", "eco --help"),
    ("eco help synth", "eco synth --help"),
    ("eco help audit", "eco audit --help"),
    ("eco help prove", "eco prove -h"),
    ("eco help recheck", "eco recheck --help"),
    ("eco help gen", "eco gen --help"),
    ("eco help locate", "eco locate --help"),
];

#[test]
fn the_word_asks_for_what_the_flag_does(rt: HostRuntime) -> Result<(), Fail> {
    for (word, flag) in &ALIKE {
        let by_word = help_of(rt.alloc(), word)?;
        let by_flag = help_of(rt.alloc(), flag)?;
        assert!(rt; are_one_help(&by_word, &by_flag), "at {word}");
    }
    Ok(())
}

/// Whether both are the same text, none of whose lines has more than 80 characters.
fn are_one_help(one: &Option<String>, other: &Option<String>) -> bool {
    match (one, other) {
        (Some(one), Some(other)) => {
            (one.as_str() == other.as_str()) & one.as_str().lines().all(|line| line.len() <= 80)
        }
        _ => false,
    }
}

#[test]
fn errors_are_the_texts_of_clap(rt: HostRuntime) -> Result<(), Fail> {
    for (line, part) in &FAULTY {
        let words = words_of(rt.alloc(), line)?;
        let text = text_with(rt.alloc(), &words, part);
        assert!(rt; text == Some(Text::Faulty), "in {line}");
    }
    Ok(())
}
