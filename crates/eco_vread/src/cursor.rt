//! Tokens that are left to be read, and what single tokens at their front are.

use crate::error::ParseError;
use crate::expression::operator_of;
use crate::tree::{Direction, Ident, Operator, Terminal};
use crate::words::{Opening, is_text, opening_of};
use eco_tokens::{Lexeme, TokenKind, first_token};

/// What is left of a text to be read, and the length of the text.
#[derive(Clone, Copy, Drop)]
pub(crate) struct Cursor<'a> {
    pub(crate) rest: &'a [u8],
    pub(crate) end: usize,
}

impl<'a> Cursor<'a> {
    ghost use Rattle.std.specs.Prelude.{◌≡◌, ◌<◌, true, length, option_map, IfSome};
    ghost use Rattle.eco_tokens.specs.Forms.{has_form};
    ghost use Rattle.eco_tokens.specs.Said.{is_name_kind};
    ghost use Rattle.eco_vread.specs.Views.{identifier_of, term_of};
    ghost use Rattle.eco_vread.specs.Trees.{left, left_from, Gives};
    ghost use Rattle.eco_vread.specs.Fronts.{word_at, mark_at, name_at, term_at, wire_at, label_at, separator_at};
    ghost use Rattle.eco_vread.specs.Expressions.{operator_at};
    ghost use Rattle.eco_vread.specs.Parse.{direction_at, opening_at};

    /// Where the first token that is left starts, or the first byte that begins none, or where the text ends.
    pub(crate) fn place(self) -> u64 {
        let left = match first_token(self.rest) {
            Some((token, _)) => self.rest.len().saturating_sub(token.start as usize),
            None => 0,
        };
        self.end.saturating_sub(left) as u64
    }

    /// The first token that is left, and the tokens behind it; None where no token is left.
    pub(crate) fn first(self) -> Option<(Lexeme<'a>, Cursor<'a>)>
        ensures value { left self.entry ≡ left_from result }
        ensures names { IfSome result (λ found. is_name_kind found.0.kind ≡ true → has_form found.0.kind found.0.text.now ≡ true) }
        ensures fewer { IfSome result (λ found. length found.1.rest.now < length self.entry.rest.now) }
    {
        let (token, rest) = first_token(self.rest)?;
        Some((
            token,
            Cursor {
                rest,
                end: self.end,
            },
        ))
    }

    /// The tokens behind this word, if it is the first one.
    #[tactic(auto, unfolding(crate::specs::Fronts::word_at))]
    pub(crate) fn behind_word(self, text: &[u8]) -> Option<Cursor<'a>>
        ensures { option_map left result ≡ word_at text.now (left self.entry) }
    {
        let (first, next) = self.first()?;
        if matches!(first.kind, TokenKind::Word) && is_text(first.text, text) {
            Some(next)
        } else {
            None
        }
    }

    /// The tokens behind this mark, if it is the first one.
    #[tactic(auto, unfolding(crate::specs::Fronts::mark_at))]
    pub(crate) fn behind_mark(self, text: &[u8]) -> Option<Cursor<'a>>
        ensures { option_map left result ≡ mark_at text.now (left self.entry) }
    {
        let (first, next) = self.first()?;
        if matches!(first.kind, TokenKind::Mark) && is_text(first.text, text) {
            Some(next)
        } else {
            None
        }
    }

    /// The tokens behind this word, which has to be the first.
    pub(crate) fn word(self, text: &[u8]) -> Result<Cursor<'a>, ParseError>
        ensures { Gives left result (word_at text.now (left self.entry)) }
    {
        match self.behind_word(text) {
            Some(next) => Ok(next),
            None => Err(ParseError::Syntax { at: self.place() }),
        }
    }

    /// The tokens behind this mark, which has to be the first.
    pub(crate) fn mark(self, text: &[u8]) -> Result<Cursor<'a>, ParseError>
        ensures { Gives left result (mark_at text.now (left self.entry)) }
    {
        match self.behind_mark(text) {
            Some(next) => Ok(next),
            None => Err(ParseError::Syntax { at: self.place() }),
        }
    }

    /// The identifier that stands here, if one does (IEEE 1364-2005, 3.7), and the tokens behind it.
    #[tactic(auto, unfolding(crate::specs::Fronts::name_at), using(crate::proofs::Naming::namings))]
    pub(crate) fn front_name(self) -> Option<(Ident<'a>, Cursor<'a>)>
        ensures { option_map (λ found. (identifier_of found.0, left found.1)) result ≡ name_at (left self.entry) }
    {
        let (first, next) = self.first()?;
        match first.kind {
            TokenKind::Simple => Some((
                Ident {
                    escaped: false,
                    text: first.text,
                },
                next,
            )),
            TokenKind::Escaped => Some((
                Ident {
                    escaped: true,
                    text: first.text,
                },
                next,
            )),
            _ => None,
        }
    }

    /// An identifier, which has to stand here.
    pub(crate) fn name(self) -> Result<(Ident<'a>, Cursor<'a>), ParseError>
        ensures { Gives (λ found. (identifier_of found.0, left found.1)) result (name_at (left self.entry)) }
    {
        match self.front_name() {
            Some(found) => Ok(found),
            None => Err(ParseError::Syntax { at: self.place() }),
        }
    }

    /// An identifier or a constant.
    #[tactic(auto, unfolding(crate::specs::Fronts::term_at), using(crate::proofs::Naming::namings))]
    pub(crate) fn term(self) -> Result<(Terminal<'a>, Cursor<'a>), ParseError>
        ensures { Gives (λ found. (term_of found.0, left found.1)) result (term_at (left self.entry)) }
    {
        let Some((first, next)) = self.first() else {
            return Err(ParseError::Syntax { at: self.place() });
        };
        match first.kind {
            TokenKind::Simple => Ok((
                Terminal::Net(Ident {
                    escaped: false,
                    text: first.text,
                }),
                next,
            )),
            TokenKind::Escaped => Ok((
                Terminal::Net(Ident {
                    escaped: true,
                    text: first.text,
                }),
                next,
            )),
            TokenKind::Constant if is_text(first.text, b"1'b0") => Ok((Terminal::Low, next)),
            TokenKind::Constant if is_text(first.text, b"1'b1") => Ok((Terminal::High, next)),
            _ => Err(ParseError::Syntax { at: self.place() }),
        }
    }

    /// The operator that stands here, if one does (IEEE 1364-2005, 5.1.10), and the tokens behind it.
    #[tactic(auto, unfolding(crate::specs::Expressions::operator_at))]
    pub(crate) fn operator(self) -> Option<(Operator, Cursor<'a>)>
        ensures { option_map (λ found. (found.0, left found.1)) result ≡ operator_at (left self.entry) }
    {
        let (first, next) = self.first()?;
        if !matches!(first.kind, TokenKind::Mark) {
            return None;
        }
        let operator = operator_of(first.text)?;
        Some((operator, next))
    }

    /// Whether `wire` stands here, and the tokens behind it.
    #[tactic(auto, unfolding(crate::specs::Fronts::wire_at))]
    pub(crate) fn wire(self) -> (bool, Cursor<'a>)
        ensures { (result.0, left result.1) ≡ wire_at (left self.entry) }
    {
        match self.behind_word(b"wire") {
            Some(next) => (true, next),
            None => (false, self),
        }
    }

    /// The direction that stands here, with or without `wire`, if one does, and the tokens behind it.
    #[tactic(auto, unfolding(crate::specs::Parse::direction_at))]
    pub(crate) fn direction(self) -> (Option<(Direction, bool)>, Cursor<'a>)
        ensures { (result.0, left result.1) ≡ direction_at (left self.entry) }
    {
        if let Some(behind) = self.behind_word(b"input") {
            let (also_wire, next) = behind.wire();
            return (Some((Direction::In, also_wire)), next);
        }
        match self.behind_word(b"output") {
            Some(behind) => {
                let (also_wire, next) = behind.wire();
                (Some((Direction::Out, also_wire)), next)
            }
            None => (None, self),
        }
    }

    /// The name that stands here, if one does.
    #[tactic(auto, unfolding(crate::specs::Fronts::label_at))]
    pub(crate) fn label(self) -> (Option<Ident<'a>>, Cursor<'a>)
        ensures { (option_map identifier_of result.0, left result.1) ≡ label_at (left self.entry) }
    {
        match self.front_name() {
            Some((name, next)) => (Some(name), next),
            None => (None, self),
        }
    }

    /// Behind an element of a list: `true` behind a comma, `false` behind the mark that ends the list.
    #[tactic(auto, unfolding(crate::specs::Fronts::separator_at))]
    pub(crate) fn separator(self, end: &[u8]) -> Result<(bool, Cursor<'a>), ParseError>
        ensures { Gives (λ found. (found.0, left found.1)) result (separator_at end.now (left self.entry)) }
    {
        match self.behind_mark(b",") {
            Some(next) => Ok((true, next)),
            None => {
                let next = self.mark(end)?;
                Ok((false, next))
            }
        }
    }

    /// The word that a statement begins with.
    #[tactic(auto, unfolding(crate::specs::Parse::opening_at))]
    pub(crate) fn opening(self) -> Result<(Opening, Cursor<'a>), ParseError>
        ensures { Gives (λ found. (found.0, left found.1)) result (opening_at (left self.entry)) }
    {
        let Some((first, next)) = self.first() else {
            return Err(ParseError::Syntax { at: self.place() });
        };
        if !matches!(first.kind, TokenKind::Word) {
            return Err(ParseError::Syntax { at: self.place() });
        }
        match opening_of(first.text) {
            Some(opening) => Ok((opening, next)),
            None => Err(ParseError::Syntax { at: self.place() }),
        }
    }
}
