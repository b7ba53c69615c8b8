//! From assignments to gates.

ghost use Rattle.std.specs.Prelude.{◌≡◌, ◌+◌, ◌<◌, ◌^◌, [], ◌∷◌, map, Some, vec_len, reverse, count_by, OnOk, IfOk, IsSome};
ghost use Rattle.eco_meaning.specs.Gates.{FitsKind};
ghost use Rattle.eco_vread.specs.Syntax.{name_of};
ghost use Rattle.eco_vread.specs.Meaning.{operator_kind, operators, own_nets, all_own_nets, source, expression_gates, assignment_gates};
ghost use Rattle.eco_vread.specs.Postfix.{sign_of, is_operator, expression_of, IsPostfix};
ghost use Rattle.eco_vread.specs.Postfix.Sign.{inversion, operation};
ghost use Rattle.eco_vread.specs.Views.{identifier_of};
ghost use Rattle.eco_vread.specs.Trees.{assignment_of};
ghost use Rattle.eco_vread.specs.Declaring.{with_gates, with_operator, with_sign, with_assignments, work_of, driven_by};
ghost use Rattle.eco_meaning.specs.declared.kind.Kind.TheVariants.{Buf};

use crate::assignment::Assignment;
use crate::named::{name, operand};
use crate::prefix::Prefix;
use crate::tree::{Ident, Operator, Symbol};
use eco_netlist::{Draft, Kind, Name, Operand, OutOfMemory};
use eco_text::numbered;
use std::alloc::Global;

/// The nets that an assignment's operators drive: the last one the assigned net, each other a numbered one.
#[derive(Clone, Copy, Drop)]
pub(crate) struct DrivenNets<'a> {
    pub(crate) prefix: Prefix<'a>,
    pub(crate) name: Ident<'a>,
    pub(crate) last: u64,
}

/// An expression as far as its gates are made: the operands that no operator has taken yet, the last one last, and how
/// many operators there are so far.
#[derive(Drop)]
pub(crate) struct Pending {
    pub(crate) operands: Vec<Operand>,
    pub(crate) count: u64,
}

/// The net that the operator of this number drives.
fn driven_net(alloc: Global, nets: DrivenNets, number: u64) -> Result<Name, OutOfMemory>
    ensures { IfOk result (λ net. net ≡ driven_by nets.entry number) }
{
    if number == nets.last {
        name(alloc, nets.name)
    } else {
        numbered(alloc, nets.prefix.bytes, number)
    }
}

/// The gate that stands for an operator (IEEE 1364-2005, 5.1.10).
fn kind_of(operator: Operator) -> Kind
    ensures { result ≡ operator_kind operator }
{
    match operator {
        Operator::Ampersand => Kind::And,
        Operator::Caret => Kind::Xor,
        Operator::TildeCaret => Kind::Xnor,
        Operator::CaretTilde => Kind::Xnor,
        Operator::Bar => Kind::Or,
    }
}

/// Adds the gate of the next operator, of this kind and with these inputs.
fn add_operator(
    alloc: Global,
    draft: &mut Draft,
    nets: DrivenNets,
    pending: &mut Pending,
    kind: Kind,
    terms: Vec<Operand>,
) -> Result<(), OutOfMemory>
    requires fits { FitsKind kind (vec_len terms) }
    requires few { pending.old.count + 1 < 2 ^ 64 }
    ensures { OnOk result (work_of draft.new pending.new
        ≡ with_operator (driven_by nets.entry) kind terms.items (reverse pending.old.operands.items) (work_of draft.old pending.old)) }
{
    let number = pending.count + 1;
    let out = driven_net(alloc, nets, number)?;
    let source = out.copy()?;
    draft.add_gate(kind, out, terms)?;
    pending.operands.push(Operand::Named(source))?;
    pending.count = number;
    Ok(())
}

/// Adds the gate of a `~` of the last operand.
fn add_inverse(
    alloc: Global,
    draft: &mut Draft,
    nets: DrivenNets,
    pending: &mut Pending,
) -> Result<(), OutOfMemory>
    requires some { IsSome (with_sign (driven_by nets) inversion (work_of draft.old pending.old)) }
    requires few { pending.old.count + 1 < 2 ^ 64 }
    ensures { OnOk result (with_sign (driven_by nets.entry) inversion (work_of draft.old pending.old)
        ≡ Some (work_of draft.new pending.new)) }
{
    match pending.operands.pop() {
        Some(a) => {
            let mut terms = Vec::with_capacity(alloc, 1)?;
            terms.push(a)?;
            add_operator(alloc, draft, nets, pending, Kind::Not, terms)
        }
        None => unreachable!(),
    }
}

/// Adds the gate of an operator of the last two operands.
fn add_binary(
    alloc: Global,
    draft: &mut Draft,
    nets: DrivenNets,
    pending: &mut Pending,
    operator: Operator,
) -> Result<(), OutOfMemory>
    requires some { IsSome (with_sign (driven_by nets) (operation operator) (work_of draft.old pending.old)) }
    requires few { pending.old.count + 1 < 2 ^ 64 }
    ensures { OnOk result (with_sign (driven_by nets.entry) (operation operator) (work_of draft.old pending.old)
        ≡ Some (work_of draft.new pending.new)) }
{
    match (pending.operands.pop(), pending.operands.pop()) {
        (Some(b), Some(a)) => {
            let mut terms = Vec::with_capacity(alloc, 2)?;
            terms.push(a)?;
            terms.push(b)?;
            add_operator(alloc, draft, nets, pending, kind_of(operator), terms)
        }
        _ => unreachable!(),
    }
}

/// Adds what a symbol of a postfix form stands for.
fn add_symbol(
    alloc: Global,
    draft: &mut Draft,
    nets: DrivenNets,
    pending: &mut Pending,
    symbol: Symbol,
) -> Result<(), OutOfMemory>
    requires some { IsSome (with_sign (driven_by nets) (sign_of symbol) (work_of draft.old pending.old)) }
    requires few { pending.old.count + 1 < 2 ^ 64 }
    ensures { OnOk result (with_sign (driven_by nets.entry) (sign_of symbol.entry) (work_of draft.old pending.old)
        ≡ Some (work_of draft.new pending.new)) }
{
    match symbol {
        Symbol::Term(terminal) => {
            let operand = operand(alloc, terminal)?;
            pending.operands.push(operand)?;
            Ok(())
        }
        Symbol::Inverse => add_inverse(alloc, draft, nets, pending),
        Symbol::Binary(operator) => add_binary(alloc, draft, nets, pending, operator),
        Symbol::Bracketed => Ok(()),
    }
}

/// Adds the gates of an expression in postfix form, before which there are so many operators; what gives its value.
fn add_expression(
    alloc: Global,
    draft: &mut Draft,
    nets: DrivenNets,
    before: u64,
    value: &[Symbol],
) -> Result<Operand, OutOfMemory>
    requires formed { IsPostfix (map sign_of value.now) }
    requires few { before + operators (expression_of (map sign_of value.now)) + 1 < 2 ^ 64 }
    ensures gates { OnOk result (draft.new
        ≡ with_gates draft.old (expression_gates (driven_by nets.entry) before (expression_of (map sign_of value.now)))) }
    ensures source { IfOk result (λ operand. operand ≡ source (driven_by nets.entry) before (expression_of (map sign_of value.now))) }
{
    let mut pending = Pending {
        operands: Vec::new(alloc),
        count: before,
    };
    for symbol in value {
        add_symbol(alloc, draft, nets, &mut pending, *symbol)?;
    }
    match pending.operands.pop() {
        Some(source) => Ok(source),
        None => unreachable!(),
    }
}

/// Whether an operator stands there.
fn is_operator(symbol: Symbol) -> bool
    ensures { result ≡ is_operator (sign_of symbol.entry) }
{
    match symbol {
        Symbol::Term(_) => false,
        Symbol::Inverse => true,
        Symbol::Binary(_) => true,
        Symbol::Bracketed => false,
    }
}

/// How many of the symbols are operators.
fn count_operators(value: &[Symbol]) -> usize
    ensures { result ≡ count_by (λ symbol. is_operator (sign_of symbol)) value.now }
{
    value.iter().filter(|symbol| is_operator(**symbol)).count()
}

/// How many operators an expression in postfix form has.
fn operators_of(value: &[Symbol]) -> u64
    requires { IsPostfix (map sign_of value.now) }
    ensures { result ≡ operators (expression_of (map sign_of value.now)) }
{
    count_operators(value) as u64
}

/// Adds a `buf` that drives the net of this name.
fn add_buffer(
    alloc: Global,
    draft: &mut Draft,
    out: Ident,
    source: Operand,
) -> Result<(), OutOfMemory>
    ensures { OnOk result (draft.new ≡ with_gates draft.old (record {
      kind = Buf;
      out = name_of (identifier_of out.entry);
      terms = source ∷ [];
    } ∷ [])) }
{
    let out = name(alloc, out)?;
    let mut terms = Vec::new(alloc);
    terms.push(source)?;
    draft.add_gate(Kind::Buf, out, terms)
}

/// Adds the gates of an assignment, before which so many nets are numbered; how many are then.
fn add_assignment(
    alloc: Global,
    draft: &mut Draft,
    prefix: Prefix,
    before: u64,
    assignment: &Assignment,
) -> Result<u64, OutOfMemory>
    requires { before + own_nets (assignment_of assignment.now) + 2 < 2 ^ 64 }
    ensures gates { OnOk result (draft.new
        ≡ with_gates draft.old (assignment_gates prefix.entry.bytes.now before (assignment_of assignment.now))) }
    ensures count { IfOk result (λ count. count ≡ before + own_nets (assignment_of assignment.now)) }
{
    let value = assignment.value.as_slice();
    let operators = operators_of(value);
    let nets = DrivenNets {
        prefix,
        name: assignment.name,
        last: before + operators,
    };
    let source = add_expression(alloc, draft, nets, before, value)?;
    if operators == 0 {
        add_buffer(alloc, draft, assignment.name, source)?;
        Ok(before)
    } else {
        Ok(before + (operators - 1))
    }
}

/// Adds the gates of assignments, before which so many nets are numbered; how many are then.
pub(crate) fn add_assignments(
    alloc: Global,
    draft: &mut Draft,
    prefix: Prefix,
    before: u64,
    assignments: &[Assignment],
) -> Result<u64, OutOfMemory>
    requires { before + all_own_nets (map assignment_of assignments.now) + 2 < 2 ^ 64 }
    ensures gates { OnOk result (draft.new
        ≡ with_assignments draft.old prefix.entry.bytes.now before (map assignment_of assignments.now)) }
    ensures count { IfOk result (λ count. count ≡ before + all_own_nets (map assignment_of assignments.now)) }
{
    let mut count = before;
    for assignment in assignments {
        count = add_assignment(alloc, draft, prefix, count, assignment)?;
    }
    Ok(count)
}
