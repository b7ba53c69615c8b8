//! The program's command, as clap takes it.

ghost use Rattle.std.specs.Prelude.{◌≡◌, IfOk, false};
ghost use Rattle.clap.specs.Words.{App, app_of, with_subcommand as grown};
ghost use Rattle.clap.specs.declared.Command.TheViews.{out-Command as fields_of};
ghost use Rattle.eco_words.specs.EcoCommand.{audit_app, bare_app, eco_app, gen_app, locate_app, prove_app, recheck_app, synth_app, with_change, with_flag, with_lax, with_many, with_numbers, with_proof, with_patch, with_read, with_required};

use crate::VERSION;
use crate::topic::Topic;
use clap::{Arg, ArgAction, Command};
use std::alloc::{AllocError, Global};

/// What stands behind the options: the exit statuses, which are those of all commands, and an example.
macro_rules! notes {
    ($example:literal) => {
        concat!(
            "Exit status:
  0  done
  1  answered no
  2  usage
  3  refused input
  4  budget spent
  5  read fault
  6  write fault
  7  want of memory

Example:
",
            $example
        )
    };
}

const ECO_NOTES: &str = notes!("  eco help synth    (as eco synth --help)");

const SYNTH_USAGE: &str = "eco synth [OPTIONS] --impl <FILE> --spec <FILE> --weight <FILE>
                 --patch <FILE> --out <FILE>";

const SYNTH_NOTES: &str = notes!(
    "  eco synth --least 1 --impl old.v --spec new.v --weight weights.txt \\
    --patch patch.v --out patched.v > report.txt"
);

const AUDIT_USAGE: &str = "eco audit [OPTIONS] --impl <FILE> --spec <FILE> --weight <FILE>
                 --patch <FILE> --out <FILE> --report <FILE>";

const AUDIT_NOTES: &str = notes!(
    "  eco audit --impl old.v --spec new.v --weight weights.txt \\
    --patch patch.v --out patched.v --report report.txt"
);

const PROVE_USAGE: &str = "eco prove [OPTIONS] --left <FILE> --right <FILE> --cnf <FILE>
                 --trace <FILE>";

const PROVE_NOTES: &str = notes!(
    "  eco prove --left patched.v --right new.v \\
    --cnf clauses.cnf --trace proof.txt"
);

const RECHECK_USAGE: &str = "eco recheck --cnf <FILE> --trace <FILE>";

const RECHECK_NOTES: &str = notes!("  eco recheck --cnf clauses.cnf --trace proof.txt");

const GEN_USAGE: &str = "eco gen [OPTIONS] --seed <N> --size <N> --targets <N>";

const GEN_NOTES: &str = notes!("  eco gen --seed 1 --size 100 --targets 2");

const LOCATE_USAGE: &str = "eco locate [OPTIONS] --impl <FILE> --spec <FILE> --cut <FILE>";

const LOCATE_NOTES: &str = notes!("  eco locate --impl old.v --spec new.v --cut cut.v");

const SPEC: &str = "The netlist that has the wanted outputs (read)";

const CARE: &str = "Only inputs at which its output is 1 matter (read)";

const NET: &str = "A net to be cut, given once for each of up to 16:
whether cutting just these suffices";

const CUT: &str = "The netlist with nets cut, for synth (written)";

const BUDGET: &str = "The most clauses that a question may learn,
1 to 4294967295 [default: 200000]";

const INPUT_WEIGHT: &str = "The weight of inputs that the file of weights
doesn't list, 0 to 4294967295 [default: 1]";

const LEAST: &str = "Look for cheap signals, with an effort of N (take 1; at
most 4294967295), and print what any choice costs at
least; without it the choice is greedy";

const BOUND: &str = "Of a single target, print a bound on what any choice of
signals costs, which can be checked line by line";

const SEED: &str = "What the draws start from, 0 to 18446744073709551615";

/// How help shows an option with a value: the group that it stands in, what its value is called, and what it says.
#[derive(Clone, Copy)]
struct Shown {
    group: &'static str,
    value: &'static str,
    help: &'static str,
}

/// The path of a file.
fn file(help: &'static str) -> Shown {
    Shown {
        group: "Files",
        value: "FILE",
        help,
    }
}

/// The name of a net.
fn name(help: &'static str) -> Shown {
    Shown {
        group: "Nets",
        value: "NAME",
        help,
    }
}

/// A number in this group.
fn number(group: &'static str, help: &'static str) -> Shown {
    Shown {
        group,
        value: "N",
        help,
    }
}

/// The text of help on this topic.
pub(crate) fn help_text(alloc: Global, topic: Topic) -> Result<String, AllocError> {
    let mut command = command_on(alloc, topic)?;
    let text = command.render_help();
    drop(command);
    text
}

/// The command that this topic is.
fn command_on<'a>(alloc: Global, topic: Topic) -> Result<Command<'a>, AllocError> {
    match topic {
        Topic::Program => eco_command(alloc),
        Topic::Synth => synth_command(alloc),
        Topic::Audit => audit_command(alloc),
        Topic::Prove => prove_command(alloc),
        Topic::Recheck => recheck_command(alloc),
        Topic::Gen => gen_command(alloc),
        Topic::Locate => locate_command(alloc),
    }
}

/// The program's whole command.
pub(crate) fn eco_command<'a>(alloc: Global) -> Result<Command<'a>, AllocError>
    ensures { IfOk result (λ c. app_of c ≡ eco_app) }
{
    let command = with_made(bare_command(alloc), synth_command(alloc))?;
    let command = with_made(command, audit_command(alloc))?;
    let command = with_made(command, prove_command(alloc))?;
    let command = with_made(command, recheck_command(alloc))?;
    let command = with_made(command, gen_command(alloc))?;
    with_made(command, locate_command(alloc))
}

/// The program's command without a subcommand.
fn bare_command<'a>(alloc: Global) -> Command<'a>
    ensures { app_of result ≡ bare_app }
{
    Command::new(alloc, "eco")
        .about("Finds patches for gate-level netlists")
        .override_usage("eco <COMMAND>")
        .after_help(ECO_NOTES)
        .version(VERSION)
        .subcommand_required(true)
        .disable_help_subcommand(true)
}

/// With one more subcommand, where memory sufficed to make it.
fn with_made<'a>(
    command: Command<'a>,
    made: Result<Command<'a>, AllocError>,
) -> Result<Command<'a>, AllocError>
    requires { IfOk made (λ subcommand. (fields_of subcommand).has_globals ≡ false) }
    ensures { IfOk result (λ c. (app : App) → IfOk made.entry (λ subcommand. app_of subcommand ≡ app) →
        app_of c ≡ grown (app_of command.entry) app.top) }
{
    match made {
        Ok(subcommand) => with_subcommand(command, subcommand),
        Err(error) => {
            drop(command);
            Err(error)
        }
    }
}

/// With one more subcommand.
fn with_subcommand<'a>(
    command: Command<'a>,
    subcommand: Command<'a>,
) -> Result<Command<'a>, AllocError>
    requires { (fields_of subcommand).has_globals ≡ false }
    ensures { IfOk result (λ c. app_of c ≡ grown (app_of command.entry) (app_of subcommand.entry).top) }
{
    command.subcommand(subcommand)
}

fn synth_command<'a>(alloc: Global) -> Result<Command<'a>, AllocError>
    ensures app { IfOk result (λ c. app_of c ≡ synth_app) }
    ensures local { IfOk result (λ c. (fields_of c).has_globals ≡ false) }
{
    let command = Command::new(alloc, "synth")
        .about("Finds a patch that makes one netlist do what another does")
        .override_usage(SYNTH_USAGE)
        .after_help(SYNTH_NOTES);
    let command = with_read(alloc, command)?;
    let command = with_patch(
        alloc,
        command,
        file("The patch (written)"),
        file("The patched netlist (written)"),
    )?;
    let command = with_numbers(alloc, command)?;
    let command = with_flag(alloc, command, "bound", "Report", BOUND)?;
    with_lax(alloc, command, "least", number("Effort", LEAST))
}

fn audit_command<'a>(alloc: Global) -> Result<Command<'a>, AllocError>
    ensures app { IfOk result (λ c. app_of c ≡ audit_app) }
    ensures local { IfOk result (λ c. (fields_of c).has_globals ≡ false) }
{
    let command = Command::new(alloc, "audit")
        .about(
            "Checks a patch, the patched netlist and the report on them
(but not its lines 'least ..')",
        )
        .override_usage(AUDIT_USAGE)
        .after_help(AUDIT_NOTES);
    let command = with_read(alloc, command)?;
    let command = with_patch(
        alloc,
        command,
        file("The patch (read)"),
        file("The patched netlist (read)"),
    )?;
    let command = with_required(alloc, command, "report", file("What synth printed (read)"))?;
    with_numbers(alloc, command)
}

fn prove_command<'a>(alloc: Global) -> Result<Command<'a>, AllocError>
    ensures app { IfOk result (λ c. app_of c ≡ prove_app) }
    ensures local { IfOk result (λ c. (fields_of c).has_globals ≡ false) }
{
    let command = Command::new(alloc, "prove")
        .about("Proves that two netlists are equal")
        .override_usage(PROVE_USAGE)
        .after_help(PROVE_NOTES);
    let command = with_required(alloc, command, "left", file("The one netlist (read)"))?;
    let command = with_required(alloc, command, "right", file("The other netlist (read)"))?;
    let command = with_proof(alloc, command)?;
    with_lax(alloc, command, "budget", number("Effort", BUDGET))
}

fn recheck_command<'a>(alloc: Global) -> Result<Command<'a>, AllocError>
    ensures app { IfOk result (λ c. app_of c ≡ recheck_app) }
    ensures local { IfOk result (λ c. (fields_of c).has_globals ≡ false) }
{
    let command = Command::new(alloc, "recheck")
        .about("Checks a proof that clauses have no model")
        .override_usage(RECHECK_USAGE)
        .after_help(RECHECK_NOTES);
    with_proof(alloc, command)
}

fn gen_command<'a>(alloc: Global) -> Result<Command<'a>, AllocError>
    ensures app { IfOk result (λ c. app_of c ≡ gen_app) }
    ensures local { IfOk result (λ c. (fields_of c).has_globals ≡ false) }
{
    let command = Command::new(alloc, "gen")
        .about("Draws a problem and finds a patch for it")
        .override_usage(GEN_USAGE)
        .after_help(GEN_NOTES);
    let command = with_required(alloc, command, "seed", number("Problem", SEED))?;
    let command = with_required(
        alloc,
        command,
        "size",
        number("Problem", "The number of gates, 1 to 100000"),
    )?;
    let command = with_required(
        alloc,
        command,
        "targets",
        number(
            "Problem",
            "The number of targets, 1 to 8 and at most the size",
        ),
    )?;
    with_lax(alloc, command, "budget", number("Effort", BUDGET))
}

fn locate_command<'a>(alloc: Global) -> Result<Command<'a>, AllocError>
    ensures app { IfOk result (λ c. app_of c ≡ locate_app) }
    ensures local { IfOk result (λ c. (fields_of c).has_globals ≡ false) }
{
    let command = Command::new(alloc, "locate")
        .about("Finds which net to cut so that one netlist can do what another does")
        .override_usage(LOCATE_USAGE)
        .after_help(LOCATE_NOTES);
    let command = with_change(alloc, command)?;
    let command = with_many(alloc, command, "net", name(NET))?;
    let command = with_required(alloc, command, "cut", file(CUT))?;
    with_lax(alloc, command, "budget", number("Effort", BUDGET))
}

/// With the paths of the files of a change.
fn with_change<'a>(alloc: Global, command: Command<'a>) -> Result<Command<'a>, AllocError>
    ensures app { IfOk result (λ c. app_of c ≡ with_change (app_of command.entry)) }
    ensures local { (fields_of command.entry).has_globals ≡ false
        → IfOk result (λ c. (fields_of c).has_globals ≡ false) }
{
    let command = with_required(
        alloc,
        command,
        "impl",
        file("The netlist that is to be changed (read)"),
    )?;
    let command = with_required(alloc, command, "spec", file(SPEC))?;
    with_lax(alloc, command, "care", file(CARE))
}

/// With the paths of clauses and of a proof about them.
fn with_proof<'a>(alloc: Global, command: Command<'a>) -> Result<Command<'a>, AllocError>
    ensures app { IfOk result (λ c. app_of c ≡ with_proof (app_of command.entry)) }
    ensures local { (fields_of command.entry).has_globals ≡ false
        → IfOk result (λ c. (fields_of c).has_globals ≡ false) }
{
    let command = with_required(alloc, command, "cnf", file("The clauses, as DIMACS CNF"))?;
    with_required(alloc, command, "trace", file("The steps of the proof"))
}

/// With the paths of the netlists and of the weights.
fn with_read<'a>(alloc: Global, command: Command<'a>) -> Result<Command<'a>, AllocError>
    ensures app { IfOk result (λ c. app_of c ≡ with_read (app_of command.entry)) }
    ensures local { (fields_of command.entry).has_globals ≡ false
        → IfOk result (λ c. (fields_of c).has_globals ≡ false) }
{
    let command = with_required(
        alloc,
        command,
        "impl",
        file("The netlist with targets t_0, t_1, .. (read)"),
    )?;
    let command = with_required(alloc, command, "spec", file(SPEC))?;
    let command = with_required(
        alloc,
        command,
        "weight",
        file("The weights of signals (read)"),
    )?;
    with_lax(alloc, command, "care", file(CARE))
}

/// With the paths of a patch and of the patched netlist.
fn with_patch<'a>(
    alloc: Global,
    command: Command<'a>,
    patch: Shown,
    out: Shown,
) -> Result<Command<'a>, AllocError>
    ensures app { IfOk result (λ c. app_of c ≡ with_patch (app_of command.entry)) }
    ensures local { (fields_of command.entry).has_globals ≡ false
        → IfOk result (λ c. (fields_of c).has_globals ≡ false) }
{
    let command = with_required(alloc, command, "patch", patch)?;
    with_required(alloc, command, "out", out)
}

/// With the options that are numbers.
fn with_numbers<'a>(alloc: Global, command: Command<'a>) -> Result<Command<'a>, AllocError>
    ensures app { IfOk result (λ c. app_of c ≡ with_numbers (app_of command.entry)) }
    ensures local { (fields_of command.entry).has_globals ≡ false
        → IfOk result (λ c. (fields_of c).has_globals ≡ false) }
{
    let command = with_lax(alloc, command, "budget", number("Effort", BUDGET))?;
    with_lax(
        alloc,
        command,
        "input-weight",
        number("Files", INPUT_WEIGHT),
    )
}

/// With an option that has to be given.
fn with_required<'a>(
    alloc: Global,
    command: Command<'a>,
    name: &'static str,
    shown: Shown,
) -> Result<Command<'a>, AllocError>
    ensures app { IfOk result (λ c. app_of c ≡ with_required (app_of command.entry) name.entry.now) }
    ensures local { (fields_of command.entry).has_globals ≡ false
        → IfOk result (λ c. (fields_of c).has_globals ≡ false) }
{
    let option = Arg::new(alloc, name)
        .long(name)
        .value_name(shown.value)
        .help_heading(shown.group)
        .help(shown.help)
        .action(ArgAction::Set)
        .required(true);
    command.arg(option)
}

/// With an option that may be left out.
fn with_lax<'a>(
    alloc: Global,
    command: Command<'a>,
    name: &'static str,
    shown: Shown,
) -> Result<Command<'a>, AllocError>
    ensures app { IfOk result (λ c. app_of c ≡ with_lax (app_of command.entry) name.entry.now) }
    ensures local { (fields_of command.entry).has_globals ≡ false
        → IfOk result (λ c. (fields_of c).has_globals ≡ false) }
{
    let option = Arg::new(alloc, name)
        .long(name)
        .value_name(shown.value)
        .help_heading(shown.group)
        .help(shown.help)
        .action(ArgAction::Set);
    command.arg(option)
}

/// With an option that may be given any number of times.
fn with_many<'a>(
    alloc: Global,
    command: Command<'a>,
    name: &'static str,
    shown: Shown,
) -> Result<Command<'a>, AllocError>
    ensures app { IfOk result (λ c. app_of c ≡ with_many (app_of command.entry) name.entry.now) }
    ensures local { (fields_of command.entry).has_globals ≡ false
        → IfOk result (λ c. (fields_of c).has_globals ≡ false) }
{
    let option = Arg::new(alloc, name)
        .long(name)
        .value_name(shown.value)
        .help_heading(shown.group)
        .help(shown.help)
        .action(ArgAction::Append);
    command.arg(option)
}

/// With a flag: an option without a value.
fn with_flag<'a>(
    alloc: Global,
    command: Command<'a>,
    name: &'static str,
    group: &'static str,
    help: &'static str,
) -> Result<Command<'a>, AllocError>
    ensures app { IfOk result (λ c. app_of c ≡ with_flag (app_of command.entry) name.entry.now) }
    ensures local { (fields_of command.entry).has_globals ≡ false
        → IfOk result (λ c. (fields_of c).has_globals ≡ false) }
{
    let option = Arg::new(alloc, name)
        .long(name)
        .help_heading(group)
        .help(help)
        .action(ArgAction::SetTrue);
    command.arg(option)
}
