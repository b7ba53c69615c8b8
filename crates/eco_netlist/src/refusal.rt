//! Why declarations are refused.

use eco_meaning::Name;
use std::marker::Model;

/// A list of names.
#[derive(Drop)]
pub struct Names {
    items: Vec<Name>,
}

impl Model for Names {
    ghost use Rattle.std.specs.Prelude.{List, ℕ};

    ghost Value = { List (List ℕ) };

    ghost view = { λ names. names.items.items };
}

impl Names {
    ghost use Rattle.std.specs.Prelude.{◌≡◌};

    /// The list of these names.
    pub fn of(items: Vec<Name>) -> Names
        ensures { result ≡ items.items }
    {
        Names { items }
    }

    /// The names in order.
    pub fn as_slice(&self) -> &[Name]
        ensures { result.now ≡ self.now }
    {
        self.items.as_slice()
    }
}

/// The first error of a module's declarations, in this order; of several names with one error the smallest.
#[derive(Drop)]
pub enum Refusal {
    /// Twice in the header, as input, as output or as wire, or both as input and as output.
    DeclaredTwice(Name),
    /// In the header, and declared neither as input nor as output.
    PortUndeclared(Name),
    /// Declared as input or as output, and not in the header.
    NotAPort(Name),
    /// An input that a gate drives.
    InputDriven(Name),
    /// The output of two gates.
    DrivenTwice(Name),
    /// An output, or read by a gate, and neither input nor driven nor a target.
    Undriven(Name),
    /// The outputs of gates that read each other in a circle: each name's gate reads the name before it, the first
    /// name's gate the last name; each name stands once, and the smallest comes first.
    Loop(Names),
}
