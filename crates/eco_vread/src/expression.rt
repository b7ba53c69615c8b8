//! Expressions, by the precedence of operators, with a stack of what waits for an operand.

ghost use Rattle.std.specs.Prelude.{◌≡◌, ◌<◌, map, length, drop, ◌++◌, ◌∷◌, [], Some, IfOk, IfSome, IsTrue};
ghost use Rattle.eco_vread.specs.Trees.{left, Gives};
ghost use Rattle.eco_vread.specs.Views.{term_of};
ghost use Rattle.eco_vread.specs.Postfix.{sign_of, expression_of, IsPostfix};
ghost use Rattle.eco_vread.specs.Postfix.Sign.{operand};
ghost use Rattle.eco_vread.specs.Grammar.{tightness};
ghost use Rattle.eco_vread.specs.Expressions.{expression_at, reduced, joined, given, wanted, whole, operator_of, taken, closed};
ghost use Rattle.eco_vread.specs.Kept.{stack_of, signs_of, place_of, last_waiting, is_tilde_last, is_bracket_last, last_operator, GoesOn, GoesOnOrEnds};

use crate::cursor::Cursor;
use crate::error::ParseError;
use crate::tree::{Operator, Symbol, Terminal};
use crate::words::is_text;
use std::alloc::{AllocError, Global};

/// What waits for an operand: a `~`, an opening bracket, or an operator that has its left one.
#[derive(Clone, Copy, Drop)]
pub(crate) enum Waiting {
    Tilde,
    Bracket,
    Left(Operator),
}

/// An expression up to a place: what waits there for an operand, and the postfix form so far.
#[derive(Drop)]
pub(crate) struct Reading<'a> {
    pub(crate) waiting: Vec<Waiting>,
    pub(crate) value: Vec<Symbol<'a>>,
}

/// The operator that the mark stands for (IEEE 1364-2005, 5.1.10).
#[tactic(auto, unfolding(crate::specs::Expressions::operator_of))]
pub(crate) fn operator_of(text: &[u8]) -> Option<Operator>
    ensures { result ≡ operator_of text.now }
{
    if is_text(text, b"&") {
        Some(Operator::Ampersand)
    } else if is_text(text, b"^") {
        Some(Operator::Caret)
    } else if is_text(text, b"~^") {
        Some(Operator::TildeCaret)
    } else if is_text(text, b"^~") {
        Some(Operator::CaretTilde)
    } else if is_text(text, b"|") {
        Some(Operator::Bar)
    } else {
        None
    }
}

/// How tightly an operator binds (IEEE 1364-2005, table 5-4).
fn tightness(operator: Operator) -> u8
    ensures { result ≡ tightness operator }
{
    match operator {
        Operator::Ampersand => 3,
        Operator::Caret | Operator::TildeCaret | Operator::CaretTilde => 2,
        Operator::Bar => 1,
    }
}

impl<'a> Reading<'a> {
    /// What waits last.
    fn last(&self) -> Option<Waiting>
        ensures { result ≡ last_waiting (stack_of self.now) }
    {
        self.waiting.last().copied()
    }

    /// Whether a `~` waits last.
    fn is_tilde_last(&self) -> bool
        ensures { result ≡ is_tilde_last (stack_of self.now) }
    {
        matches!(self.last(), Some(Waiting::Tilde))
    }

    /// Whether a bracket waits last.
    fn is_bracket_last(&self) -> bool
        ensures { result ≡ is_bracket_last (stack_of self.now) }
    {
        matches!(self.last(), Some(Waiting::Bracket))
    }

    /// The operator that waits last, if one does.
    fn last_operator(&self) -> Option<Operator>
        ensures { result ≡ last_operator (stack_of self.now) }
    {
        match self.last() {
            Some(Waiting::Left(operator)) => Some(operator),
            _ => None,
        }
    }

    /// What waits last has its operand, and makes this part of the postfix form.
    fn finish(&mut self, symbol: Symbol<'a>) -> Result<(), AllocError>
        ensures stack { IfOk result (λ _. stack_of self.new ≡ drop 1 (stack_of self.old)) }
        ensures signs { IfOk result (λ _. signs_of self.new ≡ signs_of self.old ++ sign_of symbol.entry ∷ []) }
    {
        self.waiting.pop();
        self.value.push(symbol)?;
        Ok(())
    }

    /// Behind an operand, each `~` before it has its own.
    fn reduce(&mut self) -> Result<(), AllocError>
        ensures { IfOk result (λ _. given (stack_of self.new) (signs_of self.new)
            ≡ reduced (stack_of self.old) (signs_of self.old)) }
    {
        while self.is_tilde_last() {
            self.finish(Symbol::Inverse)?;
        }
        Ok(())
    }

    /// Behind an operand, operators that bind at least so tightly have their right one.
    fn join(&mut self, least: u8) -> Result<(), AllocError>
        ensures { IfOk result (λ _. given (stack_of self.new) (signs_of self.new)
            ≡ joined least (stack_of self.old) (signs_of self.old)) }
    {
        while let Some(operator) = self.last_operator() {
            if tightness(operator) < least {
                return Ok(());
            }
            self.finish(Symbol::Binary(operator))?;
        }
        Ok(())
    }

    /// This waits for an operand.
    fn wait(&mut self, waiting: Waiting) -> Result<(), AllocError>
        ensures { IfOk result (λ _. wanted (stack_of self.new) (signs_of self.new)
            ≡ wanted (waiting ∷ stack_of self.old) (signs_of self.old)) }
    {
        self.waiting.push(waiting)?;
        Ok(())
    }

    /// Reads an identifier or a constant.
    fn operand(&mut self, term: Terminal<'a>) -> Result<(), AllocError>
        ensures { IfOk result (λ _. given (stack_of self.new) (signs_of self.new)
            ≡ reduced (stack_of self.old) (signs_of self.old ++ operand (term_of term.entry) ∷ [])) }
    {
        self.value.push(Symbol::Term(term))?;
        self.reduce()
    }

    /// Reads a token where an operand is wanted: whether the operand stands there, and the tokens behind.
    fn before(&mut self, at: Cursor<'a>) -> Result<(bool, Cursor<'a>), ParseError>
        ensures goes { GoesOn (wanted (stack_of self.old) (signs_of self.old)) (left at.entry) self.new result }
        ensures fewer { IfOk result (λ found. length (left found.1) < length (left at.entry)) }
    {
        if let Some(next) = at.behind_mark(b"~") {
            self.wait(Waiting::Tilde)?;
            return Ok((false, next));
        }
        if let Some(next) = at.behind_mark(b"(") {
            self.wait(Waiting::Bracket)?;
            return Ok((false, next));
        }
        let (term, next) = at.term()?;
        self.operand(term)?;
        Ok((true, next))
    }

    /// Reads an operator behind its left operand.
    fn take(&mut self, operator: Operator) -> Result<(), AllocError>
        ensures { IfOk result (λ _. taken operator (joined (tightness operator) (stack_of self.old) (signs_of self.old))
            ≡ Some (wanted (stack_of self.new) (signs_of self.new))) }
    {
        self.join(tightness(operator))?;
        self.wait(Waiting::Left(operator))
    }

    /// Reads the closing bracket of what waits last.
    fn close(&mut self) -> Result<(), AllocError>
        requires { IsTrue (is_bracket_last (stack_of self.old)) }
        ensures { IfOk result (λ _. closed (given (stack_of self.old) (signs_of self.old))
            ≡ Some (given (stack_of self.new) (signs_of self.new))) }
    {
        self.finish(Symbol::Bracketed)?;
        self.reduce()
    }

    /// Reads a token behind an operand: whether an operand stands there, and the tokens behind; None where the
    /// expression ends before it.
    fn behind(&mut self, at: Cursor<'a>) -> Result<Option<(bool, Cursor<'a>)>, ParseError>
        ensures goes { GoesOnOrEnds (given (stack_of self.old) (signs_of self.old)) (left at.entry) self.new result }
        ensures fewer { IfOk result (λ o. IfSome o (λ found. length (left found.1) < length (left at.entry))) }
    {
        if let Some((operator, next)) = at.operator() {
            self.take(operator)?;
            return Ok(Some((false, next)));
        }
        self.join(1)?;
        let Some(next) = at.behind_mark(b")") else {
            return Ok(None);
        };
        if !self.is_bracket_last() {
            return Ok(None);
        }
        self.close()?;
        Ok(Some((true, next)))
    }

    /// Reads a token: whether an operand stands there, and the tokens behind; None where the expression ends before it.
    fn step(
        &mut self,
        is_behind: bool,
        at: Cursor<'a>,
    ) -> Result<Option<(bool, Cursor<'a>)>, ParseError>
        ensures goes { GoesOnOrEnds (place_of is_behind self.old) (left at.entry) self.new result }
        ensures fewer { IfOk result (λ o. IfSome o (λ found. length (left found.1) < length (left at.entry))) }
    {
        if is_behind {
            self.behind(at)
        } else {
            let found = self.before(at)?;
            Ok(Some(found))
        }
    }

    /// The whole expression, where nothing waits.
    fn end(self, at: Cursor<'a>) -> Result<(Vec<Symbol<'a>>, Cursor<'a>), ParseError>
        ensures { Gives (λ found. (map sign_of found.0.items, left found.1)) result
            (whole (given (stack_of self.entry) (signs_of self.entry)) (left at.entry)) }
    {
        let Reading { waiting, value } = self;
        if waiting.is_empty() {
            Ok((value, at))
        } else {
            Err(ParseError::Syntax { at: at.place() })
        }
    }
}

/// An expression in postfix form, up to the first token that can't belong to it (IEEE 1364-2005, 5.1).
pub(crate) fn expression<'a>(
    alloc: Global,
    at: Cursor<'a>,
) -> Result<(Vec<Symbol<'a>>, Cursor<'a>), ParseError>
    ensures given { Gives (λ found. (expression_of (map sign_of found.0.items), left found.1)) result
        (expression_at (left at.entry)) }
    ensures formed { IfOk result (λ found. IsPostfix (map sign_of found.0.items)) }
{
    let mut reading = Reading {
        waiting: Vec::new(alloc),
        value: Vec::new(alloc),
    };
    let mut here = at;
    let mut is_behind = false;
    loop {
        match reading.step(is_behind, here)? {
            Some((is_now, next)) => {
                is_behind = is_now;
                here = next;
            }
            None => return reading.end(here),
        }
    }
}
