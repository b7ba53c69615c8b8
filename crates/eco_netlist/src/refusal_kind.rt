//! The errors of declarations, but for loops, and which name is reported.

ghost use Rattle.std.specs.Prelude.{◌≡◌, [], OnOk, IfOk, IfErr, length, zip};
ghost use Rattle.std.specs.Option.{option_copied};
ghost use Rattle.std.specs.List.{list_all};
ghost use Rattle.eco_meaning.specs.Names.{is_target_text, is_numeral, is_digit};
ghost use Rattle.eco_netlist.specs.Draft.{allows};
ghost use Rattle.eco_netlist.specs.Drafted.{declared_of, IsDrafted};
ghost use Rattle.eco_netlist.specs.Refusals.{NeverComes, IsWellDeclared, EndsIn};
ghost use Rattle.eco_netlist.specs.Tallies.{stands, is_free, is_refused_as, refusal_for, smaller, AreTallies, IsLeast, IsRefusedFor};

use crate::draft::{Declarations, FinishError, TargetRule};
use crate::refusal::Refusal;
use crate::tally::{Tally, tallies_of};
use eco_meaning::Name;

/// An error that a name of the declarations can have.
#[derive(Clone, Copy)]
pub(crate) enum RefusalKind {
    DeclaredTwice,
    PortUndeclared,
    NotAPort,
    InputDriven,
    DrivenTwice,
    Undriven,
}

impl RefusalKind {
    /// Whether a name with these counts has the error.
    fn stands(self, rule: TargetRule, name: &Name, tally: Tally) -> bool
        ensures { result ≡ stands self rule name.now tally }
    {
        match self {
            RefusalKind::DeclaredTwice => is_declared_twice(tally),
            RefusalKind::PortUndeclared => tally.header > 0
                && tally.inputs == 0
                && tally.outputs == 0,
            RefusalKind::NotAPort => (tally.inputs > 0 || tally.outputs > 0) && tally.header == 0,
            RefusalKind::InputDriven => tally.inputs > 0 && tally.drivers > 0,
            RefusalKind::DrivenTwice => tally.drivers > 1,
            RefusalKind::Undriven => is_undriven(rule, name, tally),
        }
    }

    /// The refusal for the error of this name.
    fn refusal(self, name: Name) -> Refusal
        ensures { result ≡ refusal_for self name }
    {
        match self {
            RefusalKind::DeclaredTwice => Refusal::DeclaredTwice(name),
            RefusalKind::PortUndeclared => Refusal::PortUndeclared(name),
            RefusalKind::NotAPort => Refusal::NotAPort(name),
            RefusalKind::InputDriven => Refusal::InputDriven(name),
            RefusalKind::DrivenTwice => Refusal::DrivenTwice(name),
            RefusalKind::Undriven => Refusal::Undriven(name),
        }
    }
}

fn is_declared_twice(tally: Tally) -> bool
    ensures { result ≡ stands RefusalKind.DeclaredTwice TargetRule.Never [] tally }
{
    tally.header > 1
        || tally.inputs > 1
        || tally.outputs > 1
        || (tally.inputs > 0 && tally.outputs > 0)
        || tally.wires > 1
}

fn is_undriven(rule: TargetRule, name: &Name, tally: Tally) -> bool
    ensures { result ≡ stands RefusalKind.Undriven rule name.now tally }
{
    (tally.outputs > 0 || tally.is_read)
        && tally.inputs == 0
        && tally.drivers == 0
        && !is_free(rule, name, tally)
}

/// The smaller of two names, where the second one counts.
pub(crate) fn smaller<'a>(least: Option<&'a Name>, name: &'a Name, counts: bool) -> Option<&'a Name>
    ensures { option_copied result ≡ smaller (option_copied least.entry) name.now counts }
{
    if !counts {
        return least;
    }
    match least {
        None => Some(name),
        Some(other) => {
            if *name < *other {
                Some(name)
            } else {
                Some(other)
            }
        }
    }
}

/// The smallest name that has the error, by the counts of each.
fn least<'a>(
    refusal_kind: RefusalKind,
    rule: TargetRule,
    names: &'a [Name],
    tallies: &[Tally],
) -> Option<&'a Name>
    requires { length tallies.now ≡ length names.now }
    ensures { IsLeast refusal_kind rule (zip names.now tallies.now) (option_copied result) }
{
    let mut least = None;
    for (net, name) in names.iter().enumerate() {
        least = smaller(least, name, refusal_kind.stands(rule, name, tallies[net]));
    }
    least
}

/// Refuses a netlist in which a name has this error.
fn reject(
    refusal_kind: RefusalKind,
    rule: TargetRule,
    declarations: &Declarations,
    tallies: &[Tally],
) -> Result<(), FinishError>
    requires tallies { AreTallies declarations.now tallies.now }
    requires drafted { IsDrafted declarations.now }
    ensures never { OnOk result (NeverComes (is_refused_as refusal_kind rule (declared_of declarations.now))) }
    ensures refused { IfErr result (IsRefusedFor refusal_kind (is_refused_as refusal_kind rule (declared_of declarations.now))) }
{
    match least(refusal_kind, rule, declarations.names.as_slice(), tallies) {
        None => Ok(()),
        Some(name) => Err(FinishError::Refused(refusal_kind.refusal(name.copy()?))),
    }
}

/// Refuses declarations with these counts, where they have an error that is no loop.
fn judge(
    rule: TargetRule,
    declarations: &Declarations,
    tallies: &[Tally],
) -> Result<(), FinishError>
    requires tallies { AreTallies declarations.now tallies.now }
    requires drafted { IsDrafted declarations.now }
    ensures sound { OnOk result (IsWellDeclared rule (declared_of declarations.now)) }
    ensures refused { IfErr result (EndsIn rule (declared_of declarations.now)) }
{
    reject(RefusalKind::DeclaredTwice, rule, declarations, tallies)?;
    reject(RefusalKind::PortUndeclared, rule, declarations, tallies)?;
    reject(RefusalKind::NotAPort, rule, declarations, tallies)?;
    reject(RefusalKind::InputDriven, rule, declarations, tallies)?;
    reject(RefusalKind::DrivenTwice, rule, declarations, tallies)?;
    reject(RefusalKind::Undriven, rule, declarations, tallies)?;
    Ok(())
}

/// How often each name stands in the declarations, where they have no error but perhaps a loop.
pub(crate) fn judged(
    declarations: &Declarations,
    rule: TargetRule,
) -> Result<Vec<Tally>, FinishError>
    requires drafted { IsDrafted declarations.now }
    ensures tallies { IfOk result (λ tallies. AreTallies declarations.now tallies.items) }
    ensures sound { OnOk result (IsWellDeclared rule (declared_of declarations.now)) }
    ensures refused { IfErr result (EndsIn rule (declared_of declarations.now)) }
{
    let tallies = tallies_of(declarations)?;
    judge(rule, declarations, tallies.as_slice())?;
    Ok(tallies)
}

/// Whether a name with these counts is a target.
pub(crate) fn is_free(rule: TargetRule, name: &Name, tally: Tally) -> bool
    ensures { result ≡ is_free rule name.now tally }
{
    rule == TargetRule::Allowed
        && has_target_form(name.bytes())
        && tally.inputs == 0
        && tally.drivers == 0
}

/// Whether the bytes have the form of a target's name: `t_` and a numeral.
fn has_target_form(bytes: &[u8]) -> bool
    ensures { result ≡ is_target_text bytes.now }
{
    if bytes.len() < 2 {
        return false;
    }
    let (front, digits) = bytes.split_at(2);
    front == b"t_".as_slice() && is_numeral(digits)
}

/// Whether the bytes are one to nine decimal digits, the first of which is 0 only in the number 0.
fn is_numeral(digits: &[u8]) -> bool
    ensures { result ≡ is_numeral digits.now }
{
    are_digits(digits)
        && !digits.is_empty()
        && digits.len() <= 9
        && (digits.len() == 1 || digits[0] != b'0')
}

fn are_digits(digits: &[u8]) -> bool
    ensures { result ≡ list_all is_digit digits.now }
{
    digits.iter().all(|digit| b'0' <= *digit && *digit <= b'9')
}
