//! Literals in 32 bits.

ghost use Rattle.std.specs.Prelude.{◌≡◌, ◌<◌, ◌^◌};

use crate::entry::{code, lit_of};
use eco_trace::Lit;
use std::marker;

/// A literal in 32 bits.
#[derive(Clone, Copy)]
pub struct Code {
    code: u32,
}

impl marker::Model for Code {
    ghost use Rattle.eco_trace.specs.declared.clause.Lit.{Lit as Literal};
    ghost use Rattle.eco_cdcl.specs.Entries.{lit_of, code_of};
    ghost use Rattle.eco_cdcl.specs.Codes.{code_lit, ap};

    ghost Value = { Literal };

    ghost view = { λ c. lit_of c.code };

    ghost inverse = { λ l. record { code = code_of l } };

    ghost inverse_ok = { λ c _. ap (λ n. record c { code = n }) (code_lit c.code) };
}

impl Code {
    ghost use Rattle.std.specs.Prelude.{◌≡◌, ◌<◌, ◌^◌};
    ghost use Rattle.eco_cdcl.specs.Entries.{code_of};

    /// The literal in 32 bits.
    pub fn new(lit: Lit) -> Code
        requires { code_of lit < 2 ^ 32 }
        ensures { result ≡ lit }
    {
        Code {
            code: code(lit) as u32,
        }
    }

    /// The literal.
    pub fn lit(self) -> Lit
        ensures { result ≡ self }
    {
        lit_of(self.code)
    }
}
