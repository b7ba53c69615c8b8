//! The weights that a file gives.

ghost use Rattle.std.specs.Prelude.{◌≡◌, ◌↔◌, ℕ, [], Some, Contains};
ghost use Rattle.eco_meaning.specs.Cost.{line_weight};

use eco_keyed::Keyed;
use eco_meaning::Name;
use indexmap::IndexMap;
use std::alloc::Global;
use std::marker::Model;

/// The weights of signals: the lines of a weight file, in their order. No name stands on two of them.
#[derive(Drop)]
pub struct Weights {
    pub(crate) lines: IndexMap<Name, u32, Keyed>,
}

impl Model for Weights {
    ghost use Rattle.std.specs.List.{IsDistinct};
    ghost use Rattle.std.specs.Str.{bytes_eq};
    ghost use Rattle.eco_meaning.specs.Cost.{Weights as Lines};
    ghost use Rattle.eco_weight.specs.Files.{names_in};

    ghost Value = { Lines };

    ghost view = { λ weights. weights.lines.entries };

    ghost invariant = { λ weights. IsDistinct bytes_eq (names_in weights.lines.entries) };
}

impl Weights {
    /// The weights of a file without a line. It takes no memory.
    pub fn none(alloc: Global) -> Weights
        ensures { result ≡ [] }
    {
        Weights {
            lines: IndexMap::with_hasher(alloc, Keyed::by(b"")),
        }
    }

    /// The weight on the line of this name; None exactly where no line has it.
    pub fn of(&self, name: &Name) -> Option<u32>
        ensures value { result ≡ line_weight self.now name.now }
        ensures exactly { (weight : ℕ) → (result ≡ Some weight) ↔ Contains self.now (name.now, weight) }
    {
        self.lines.get(name).copied()
    }
}
