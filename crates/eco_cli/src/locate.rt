//! The command `locate`: from two netlists to the nets that can be cut, and to the netlist with one of them cut.

ghost use Rattle.std.specs.Prelude.{◌≡◌, ◌<◌, ◌≤◌, [], ◌∷◌, ℕ, List, All, IfOk, codes, if◌then◌else◌, length};
ghost use Rattle.std.specs.Option.{option_map};
ghost use Rattle.eco_meaning.specs.Circuit.{IsDriven, names};
ghost use Rattle.eco_netlist.specs.Netlists.{AreNets, name_at};
ghost use Rattle.eco_outside.specs.Store.{ReadKeeps, StoreView};
ghost use Rattle.eco_locate.specs.Judged.{TellsAnswer};
ghost use Rattle.eco_locate.specs.declared.answer.Answer.TheVariants as answers;
ghost use Rattle.eco_words.specs.CommandLine.{locate_options_of};
ghost use Rattle.eco_inputs.specs.Changes.{AreChangeable, IsChangeOf};
ghost use Rattle.eco_inputs.specs.Nets.{AreNamed};
ghost use Rattle.eco_inputs.specs.Paths.{lent};
ghost use Rattle.eco_inputs.specs.Reading.{Ends};
ghost use Rattle.eco_cli.specs.Answers.{IsTextAnswer, code_of};
ghost use Rattle.eco_cli.specs.Choice.{IsCutAnswer};
ghost use Rattle.eco_cli.specs.Locate.{IsOpenAnswer, IsSaid, changes_rows, from_change, from_change_paths, is_hopeless, locate_files_of, locate_path_of, locate_rules, locate_text, long_locate, rules_for};
ghost use Rattle.eco_cli.specs.Rules.{IsPrepared, stop_code};

use crate::answer::{Answer, Status, spent_answer, text_answer, unread};
use crate::choice::checked;
use crate::cutting::with_cut;
use crate::found::found_text;
use crate::spent::unfinished_answer;
use eco_cdcl::Watched;
use eco_change::Change;
use eco_inputs::{
    ChangeInputs, FileOption, Halt, InputError, NetFault, change_files_of, change_inputs_of,
    change_path_of, changed, input_text, line, named_nets, net_fault_text, refuse_repeats,
};
use eco_locate::{Answer as Nets, Located, Open, locate, ranked};
use eco_netlist::{NetId, Netlist, OutOfMemory};
use eco_outside::Store;
use eco_words::Locate;
use std::alloc::Global;
use std::marker::Model;
use std::slice;

/// What is printed of the nets.
#[derive(Drop)]
pub struct Listing {
    pub(crate) text: Vec<u8>,
}

impl Model for Listing {
    ghost use Rattle.std.specs.Prelude.{ℕ, List};

    ghost Value = { List ℕ };

    ghost view = { λ listing. listing.text.items };
}

/// Why `locate` stops.
#[derive(Drop)]
pub enum LocateStop {
    /// The option names a file that an earlier option names.
    SamePath(FileOption),
    /// The files are no change.
    NoChange(InputError),
    /// The nets that the words name can't be cut together.
    BadNet(NetFault),
    /// Cutting no net alone suffices, or cutting those that the words name doesn't.
    NoChoice(Listing),
}

/// What `locate` comes to. It reads the netlist that is to be changed, the specification and the cared netlist, in this order,
/// and writes nothing.
pub fn prepare<'a, S: Store>(
    alloc: Global,
    command: &Locate<'a>,
    store: &mut S,
) -> Result<Answer<'a>, OutOfMemory>
    requires budget { 1 ≤ (locate_options_of command.now).budget }
    ensures keeps { ReadKeeps (S.view store.old) (S.view store.new) }
    ensures prepared { IfOk result (IsPrepared (locate_rules (locate_options_of command.now)) (S.view store.old) (S.view store.new)) }
{
    match change_at(alloc, command, store) {
        Ok(change) => {
            let answer = with_nets(alloc, command, &change);
            drop(change);
            answer
        }
        Err(Halt::For(stop)) => stopped(alloc, command, stop),
        Err(Halt::Unread(path)) => unread(alloc, path),
        Err(Halt::OutOfMemory) => Err(OutOfMemory),
    }
}

// ---- the change

/// The path that the command gives for an option; nothing where it gives none.
fn path_of<'a>(command: &Locate<'a>, file: FileOption) -> &'a str
    ensures { result.now ≡ locate_path_of (locate_options_of command.now) file }
{
    match file {
        FileOption::Cut => command.cut,
        file => change_path_of(&command.change, file),
    }
}

/// The command's files, in the order of its options.
fn files_of<'a>(command: &Locate<'a>) -> [(FileOption, Option<&'a str>); 4]
    ensures { lent result ≡ locate_files_of (locate_options_of command.now) }
{
    let [implementation, specification, care] = change_files_of(&command.change);
    [
        implementation,
        specification,
        care,
        (FileOption::Cut, Some(command.cut)),
    ]
}

/// The change that the files are, where no row before the first question stops the command.
fn change_at<'a, S: Store>(
    alloc: Global,
    command: &Locate<'a>,
    store: &mut S,
) -> Result<Change, Halt<'a, LocateStop>>
    ensures keeps { ReadKeeps (S.view store.old) (S.view store.new) }
    ensures ends { Ends (long_locate (locate_options_of command.now)) (changes_rows (locate_options_of command.now)) IsChangeOf (S.view store.old) (S.view store.new) result }
{
    match refuse_repeats(&files_of(command)) {
        Ok(()) => with_paths(alloc, command, store),
        Err(file) => Err(Halt::For(LocateStop::SamePath(file))),
    }
}

/// Reads the files, and sees whether they are a change.
fn with_paths<'a, S: Store>(
    alloc: Global,
    command: &Locate<'a>,
    store: &mut S,
) -> Result<Change, Halt<'a, LocateStop>>
    ensures keeps { ReadKeeps (S.view store.old) (S.view store.new) }
    ensures ends { Ends (long_locate (locate_options_of command.now)) (from_change_paths (locate_options_of command.now)) IsChangeOf (S.view store.old) (S.view store.new) result }
{
    match change_inputs_of(alloc, &command.change, store) {
        Ok(inputs) => with_inputs(command, inputs),
        Err(halt) => Err(halt.map(LocateStop::NoChange)),
    }
}

/// The change of what was read.
fn with_inputs<'a>(
    command: &Locate<'a>,
    inputs: ChangeInputs,
) -> Result<Change, Halt<'a, LocateStop>>
    requires fit { AreChangeable inputs }
    ensures { (store : StoreView) → Ends (long_locate (locate_options_of command.now)) (from_change inputs) IsChangeOf store store result }
{
    let _ = command;
    match changed(inputs) {
        Ok(change) => Ok(change),
        Err(halt) => Err(halt.map(LocateStop::NoChange)),
    }
}

// ---- its answer

/// What the change is answered with the nets that the words name.
fn with_nets<'a>(
    alloc: Global,
    command: &Locate<'a>,
    change: &Change,
) -> Result<Answer<'a>, OutOfMemory>
    requires budget { 1 ≤ (locate_options_of command.now).budget }
    ensures { (before after : StoreView) → (changes_rows (locate_options_of command.now)).passes before.files change.now
        → IfOk result (IsPrepared (locate_rules (locate_options_of command.now)) before after) }
{
    match named_nets(alloc, change.old(), command.nets.as_slice())? {
        Ok(nets) => {
            let answer = answered(alloc, command, change, nets.as_slice());
            drop(nets);
            answer
        }
        Err(fault) => stopped(alloc, command, LocateStop::BadNet(fault)),
    }
}

/// What the change is answered where the words name these nets: each net is judged alone, if there are none.
fn answered<'a>(
    alloc: Global,
    command: &Locate<'a>,
    change: &Change,
    nets: &[NetId],
) -> Result<Answer<'a>, OutOfMemory>
    requires budget { 1 ≤ (locate_options_of command.now).budget }
    requires named { AreNamed change.now.old (locate_options_of command.now).nets nets.now }
    ensures { (before after : StoreView) → (changes_rows (locate_options_of command.now)).passes before.files change.now
        → IfOk result (IsPrepared (locate_rules (locate_options_of command.now)) before after) }
{
    if nets.is_empty() {
        judged(alloc, command, change)
    } else {
        checked(alloc, command, change, nets)
    }
}

/// What the change is answered: that nothing has to be cut, a netlist with a net cut, that no net alone suffices, or a question
/// that was given up.
fn judged<'a>(
    alloc: Global,
    command: &Locate<'a>,
    change: &Change,
) -> Result<Answer<'a>, OutOfMemory>
    requires budget { 1 ≤ (locate_options_of command.now).budget }
    ensures { (before after : StoreView) → (changes_rows (locate_options_of command.now)).passes before.files change.now
        → IfOk result (IsPrepared (rules_for [] (locate_options_of command.now)) before after) }
{
    let limit = u64::from(command.budget);
    match locate(alloc, change, &mut Watched::new(), limit) {
        Ok(Nets::Equal) => equal(alloc),
        Ok(Nets::Located(located)) => listed(alloc, command, change, located),
        Err(unfinished) => unfinished_answer(alloc, command.budget, unfinished),
    }
}

/// The answer where nothing has to be cut.
fn equal<'a>(alloc: Global) -> Result<Answer<'a>, OutOfMemory>
    ensures { IfOk result (IsTextAnswer 0 (codes "equal\n")) }
{
    let text = Vec::from_slice(alloc, b"equal\n")?;
    Ok(text_answer(alloc, Status::Done, text))
}

/// What is printed of the nets, and the first of those that can be cut.
#[derive(Drop)]
pub struct Said {
    pub first: Option<NetId>,
    pub text: Vec<u8>,
}

/// The answer of nets that were judged.
fn listed<'a>(
    alloc: Global,
    command: &Locate<'a>,
    change: &Change,
    located: Located,
) -> Result<Answer<'a>, OutOfMemory>
    requires budget { 1 ≤ (locate_options_of command.now).budget }
    requires judged { TellsAnswer change.now.old change.now.goal (locate_options_of command.now).budget (answers.Located located) }
    ensures { (before after : StoreView) → (changes_rows (locate_options_of command.now)).passes before.files change.now
        → IfOk result (IsPrepared (rules_for [] (locate_options_of command.now)) before after) }
{
    match said_of(alloc, change.old(), &located) {
        Ok(said) => decided(alloc, command, change, located, said),
        Err(error) => {
            drop(located);
            Err(error)
        }
    }
}

/// What is printed, with the nets that can be cut in their order.
fn said_of(alloc: Global, f: &Netlist, located: &Located) -> Result<Said, OutOfMemory>
    requires listed { AreNets (names f.now) located.now.listed.items }
    requires open_within { All (λ o. o.net.0 < length (names f.now)) located.now.over.items }
    ensures { IfOk result (IsSaid f.now located.now) }
{
    let nets = ranked(alloc, f, located.listed.as_slice())?;
    let text = found_text(alloc, f, nets.as_slice(), located);
    let first = nets.first().map(|net| net.net);
    drop(nets);
    Ok(Said { first, text: text? })
}

/// The answer by what was said: a net is cut, or none can be.
fn decided<'a>(
    alloc: Global,
    command: &Locate<'a>,
    change: &Change,
    located: Located,
    said: Said,
) -> Result<Answer<'a>, OutOfMemory>
    requires budget { 1 ≤ (locate_options_of command.now).budget }
    requires judged { TellsAnswer change.now.old change.now.goal (locate_options_of command.now).budget (answers.Located located) }
    requires said { IsSaid change.now.old located said }
    ensures { (before after : StoreView) → (changes_rows (locate_options_of command.now)).passes before.files change.now
        → IfOk result (IsPrepared (rules_for [] (locate_options_of command.now)) before after) }
{
    // it is a change
    let _ = change.old();
    let Said { first, text } = said;
    match first {
        Some(net) => {
            drop(located);
            with_one(alloc, command, change, net, text)
        }
        None => undecided(alloc, command, located, text),
    }
}

/// The answer where no net is listed: a question that was given up, or that no net alone suffices.
fn undecided<'a>(
    alloc: Global,
    command: &Locate<'a>,
    mut located: Located,
    text: Vec<u8>,
) -> Result<Answer<'a>, OutOfMemory>
    ensures { IfOk result (IsOpenAnswer (locate_options_of command.now) located text.items) }
{
    let over = located.over.pop();
    drop(located);
    match over {
        Some(Open { stuck, .. }) => Ok(spent_answer(alloc, text, stuck)),
        None => stopped(alloc, command, LocateStop::NoChoice(Listing { text })),
    }
}

/// The answer that writes the netlist with this net cut.
fn with_one<'a>(
    alloc: Global,
    command: &Locate<'a>,
    change: &Change,
    net: NetId,
    text: Vec<u8>,
) -> Result<Answer<'a>, OutOfMemory>
    requires within { net.0 < length (names change.now.old) }
    requires driven { IsDriven change.now.old (name_at (names change.now.old) net.0) }
    ensures { IfOk result (IsCutAnswer (locate_options_of command.now) change.now (name_at (names change.now.old) net.0 ∷ []) text.items) }
{
    with_cut(alloc, command, change, slice::from_ref(&net), text)
}

/// The answer of a stop: its text, and no file.
pub(crate) fn stopped<'a>(
    alloc: Global,
    command: &Locate<'a>,
    stop: LocateStop,
) -> Result<Answer<'a>, OutOfMemory>
    ensures { IfOk result (IsTextAnswer (stop_code (locate_rules (locate_options_of command.now)) stop) (locate_text (locate_options_of command.now) stop)) }
{
    let text = stop_text(alloc, command, &stop);
    let status = stop_status(&stop);
    drop(stop);
    Ok(text_answer(alloc, status, text?))
}

/// The exit status of a stop.
fn stop_status(stop: &LocateStop) -> Status
    ensures { code_of result ≡ (if is_hopeless stop.now then 1 else 3) }
{
    match stop {
        LocateStop::NoChoice(_) => Status::No,
        LocateStop::SamePath(_) | LocateStop::NoChange(_) | LocateStop::BadNet(_) => {
            Status::Refused
        }
    }
}

/// What is printed of a stop.
fn stop_text(alloc: Global, command: &Locate<'_>, stop: &LocateStop) -> Result<Vec<u8>, OutOfMemory>
    ensures text { IfOk result (λ text. text.items ≡ locate_text (locate_options_of command.now) stop.now) }
{
    match stop {
        LocateStop::SamePath(file) => line(
            alloc,
            b"refused samepath ",
            path_of(command, *file).as_bytes(),
        ),
        LocateStop::NoChange(error) => input_text(alloc, error),
        LocateStop::BadNet(fault) => net_fault_text(alloc, command.nets.as_slice(), *fault),
        LocateStop::NoChoice(listing) => Ok(Vec::from_slice(alloc, listing.text.as_slice())?),
    }
}
