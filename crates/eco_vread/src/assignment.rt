//! Assignments as values.

ghost use Rattle.std.specs.Prelude.{map};
ghost use Rattle.eco_vread.specs.Postfix.{IsPostfix, sign_of};

use crate::tree::{Ident, Symbol};

/// An assignment to a net (IEEE 1364-2005, 6.1.3): the net's name, and the expression in postfix form.
#[derive(Drop)]
pub(crate) struct Assignment<'a> {
    pub(crate) name: Ident<'a>,
    pub(crate) value: Vec<Symbol<'a>>,
    ghost formed: { IsPostfix (map sign_of value.items) },
}
