//! The end of a draft: a netlist, or the refusal that its declarations deserve.

ghost use Rattle.std.specs.Prelude.{◌≡◌, length, IfOk, IfErr};
ghost use Rattle.eco_gates.specs.Gates.{IsWithin, IsOnceDriven};
ghost use Rattle.eco_gates.specs.Ordering.{IsOrder, IsGateCircle};
ghost use Rattle.eco_netlist.specs.Building.{AreParts, AreLists, IsNumberingOf};
ghost use Rattle.eco_netlist.specs.Draft.{Declared, made};
ghost use Rattle.eco_netlist.specs.Drafted.{declared_of, IsDrafted};
ghost use Rattle.eco_netlist.specs.Refusals.{IsWellFormed, EndsIn};
ghost use Rattle.eco_netlist.specs.Netlists.{names_at};
ghost use Rattle.eco_netlist.specs.Tallies.{AreTallies};

use crate::circle::loop_names;
use crate::draft::{Declarations, Draft, FinishError, TargetRule};
use crate::making::{Lists, Parts, built};
use crate::names::chosen;
use crate::netlist::Netlist;
use crate::numbering::{Numbering, numbering_of};
use crate::placing::{counted_places, placed_gates, places_of};
use crate::refusal::Refusal;
use crate::refusal_kind::judged;
use crate::tally::{Place, Tally};
use crate::target::targets_of;
use eco_gates::{Arranged, arrange};
use eco_meaning::OutOfMemory;

/// The lists of declarations whose nets are numbered.
fn lists_of(
    declarations: &Declarations,
    rule: TargetRule,
    tallies: &[Tally],
    numbering: &Numbering,
) -> Result<Lists, OutOfMemory>
    requires drafted { IsDrafted declarations.now }
    requires tallies { AreTallies declarations.now tallies.now }
    requires numbering { IsNumberingOf rule declarations.now numbering.now }
    ensures { IfOk result (λ lists. AreLists rule declarations.now (names_at declarations.now.names.keys numbering.now.nets) lists) }
{
    let alloc = *declarations.header.allocator();
    let header = declarations.header.as_slice();
    let names = declarations.names.as_slice();
    let ports = places_of(alloc, numbering, header)?;
    let inputs = counted_places(alloc, numbering, tallies, Place::Input, header)?;
    let outputs = counted_places(alloc, numbering, tallies, Place::Output, header)?;
    let targets = targets_of(alloc, rule, names, tallies, numbering.nets())?;
    Ok(Lists {
        ports,
        inputs,
        outputs,
        targets,
    })
}

/// The nets and gates of declarations whose nets are numbered.
fn parts_of(declarations: Declarations, numbering: &Numbering) -> Result<Parts, OutOfMemory>
    requires drafted { IsDrafted declarations }
    requires numbering { (rule : TargetRule) × IsNumberingOf rule declarations numbering.now }
    ensures title { IfOk result (λ parts. parts.title ≡ declarations.title) }
    ensures names { IfOk result (λ parts. parts.names.keys ≡ names_at declarations.names.keys numbering.now.nets) }
    ensures parts { IfOk result (λ parts. (rule : TargetRule) → IsNumberingOf rule declarations numbering.now
        → AreParts rule (declared_of declarations) parts.names.keys parts.gates.items) }
{
    if numbering.is_plain() {
        return Ok(plain_parts(declarations));
    }
    let parts = placed_parts(&declarations, numbering);
    drop(declarations);
    parts
}

/// The name, nets and gates of declarations all of whose names are nets in their own order.
fn plain_parts(declarations: Declarations) -> Parts
    ensures title { result.title ≡ declarations.title }
    ensures names { result.names.keys ≡ declarations.names.keys }
    ensures gates { result.gates.items ≡ declarations.gates.items }
{
    let Declarations {
        title,
        names,
        header,
        inputs,
        outputs,
        wires,
        gates,
    } = declarations;
    drop(header);
    drop(inputs);
    drop(outputs);
    drop(wires);
    Parts {
        title,
        names,
        gates,
    }
}

/// The name, nets and gates of declarations by the places of their nets.
fn placed_parts(declarations: &Declarations, numbering: &Numbering) -> Result<Parts, OutOfMemory>
    requires drafted { IsDrafted declarations.now }
    requires numbering { (rule : TargetRule) × IsNumberingOf rule declarations.now numbering.now }
    ensures title { IfOk result (λ parts. parts.title ≡ declarations.now.title) }
    ensures names { IfOk result (λ parts. parts.names.keys ≡ names_at declarations.now.names.keys numbering.now.nets) }
    ensures parts { IfOk result (λ parts. (rule : TargetRule) → IsNumberingOf rule declarations.now numbering.now
        → AreParts rule (declared_of declarations.now) parts.names.keys parts.gates.items) }
{
    let gates = declarations.gates.as_slice();
    let gates = placed_gates(*declarations.gates.allocator(), numbering, gates)?;
    let title = declarations.title.copy()?;
    let names = chosen(&declarations.names, numbering.nets())?;
    Ok(Parts {
        title,
        names,
        gates,
    })
}

/// The numbers of the nets of declarations, and the lists by these numbers.
#[derive(Drop)]
struct Survey {
    numbering: Numbering,
    lists: Lists,
}

/// The numbers and lists of declarations that have no error but perhaps a loop.
fn surveyed(declarations: &Declarations, rule: TargetRule) -> Result<Survey, FinishError>
    requires { IsDrafted declarations.now }
    ensures numbering { IfOk result (λ survey. IsNumberingOf rule declarations.now survey.numbering) }
    ensures lists { IfOk result (λ survey. AreLists rule declarations.now
        (names_at declarations.now.names.keys survey.numbering.nets) survey.lists) }
    ensures refused { IfErr result (EndsIn rule (declared_of declarations.now)) }
{
    let tallies = judged(declarations, rule)?;
    let numbering = numbering_of(declarations, rule, tallies.as_slice())?;
    match lists_of(declarations, rule, tallies.as_slice(), &numbering) {
        Ok(lists) => Ok(Survey { numbering, lists }),
        Err(_) => {
            drop(numbering);
            Err(FinishError::OutOfMemory)
        }
    }
}

/// The refusal of declarations whose gates have this circle.
fn looped(parts: &Parts, circle: &[u64]) -> FinishError
    requires within { IsWithin (length parts.now.names.keys) parts.now.gates.items }
    requires circle { IsGateCircle parts.now.gates.items circle.now }
    ensures { (rule : TargetRule) (d : Declared) → AreParts rule d parts.now.names.keys parts.now.gates.items → EndsIn rule d result }
{
    match loop_names(&parts.names, parts.gates.as_slice(), circle) {
        Ok(names) => FinishError::Refused(Refusal::Loop(names)),
        Err(_) => FinishError::OutOfMemory,
    }
}

/// An order of the gates of declarations, or the refusal for their loop.
fn order_of(parts: &Parts) -> Result<Vec<u64>, FinishError>
    requires within { IsWithin (length parts.now.names.keys) parts.now.gates.items }
    requires once { IsOnceDriven parts.now.gates.items }
    ensures order { IfOk result (λ order. IsOrder parts.now.gates.items order.items) }
    ensures refused { IfErr result (λ error. (rule : TargetRule) (d : Declared)
        → AreParts rule d parts.now.names.keys parts.now.gates.items → EndsIn rule d error) }
{
    let alloc = *parts.gates.allocator();
    match arrange(alloc, parts.gates.as_slice(), parts.names.len())? {
        Arranged::Circle(circle) => Err(looped(parts, circle.as_slice())),
        Arranged::Order(order) => Ok(order),
    }
}

impl Draft {
    /// The netlist of the declarations, where they have no error. Else `Refused` tells the first error in the order
    /// of `Refusal`, with the smallest name that has it.
    pub fn finish(self, rule: TargetRule) -> Result<Netlist, FinishError>
        ensures ok { IfOk result (λ netlist. (netlist ≡ made rule self) × IsWellFormed rule self) }
        ensures refused { IfErr result (EndsIn rule self) }
    {
        let Draft { declarations } = self;
        let Survey { numbering, lists } = match surveyed(&declarations, rule) {
            Ok(survey) => survey,
            Err(error) => {
                drop(declarations);
                return Err(error);
            }
        };
        let parts = match parts_of(declarations, &numbering) {
            Ok(parts) => parts,
            Err(_) => {
                drop(lists);
                drop(numbering);
                return Err(FinishError::OutOfMemory);
            }
        };
        drop(numbering);
        match order_of(&parts) {
            Ok(order) => Ok(built(parts, lists, order)),
            Err(error) => {
                drop(parts);
                drop(lists);
                Err(error)
            }
        }
    }
}
