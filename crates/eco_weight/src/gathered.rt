//! The pairs that lines say, gathered by their names.

ghost use Rattle.std.specs.Prelude.{◌≡◌, ◌++◌, [], ◌∷◌, IfOk, IfErr, OnOk};
ghost use Rattle.eco_meaning.specs.Cost.{Weights as Lines};
ghost use Rattle.eco_meaning.specs.Names.{has};
ghost use Rattle.eco_weight.specs.Files.{names_in};
ghost use Rattle.eco_weight.specs.Gathering.{Gathers, smaller, Finishes, Refuses};

use crate::error::WeightError;
use crate::weights::Weights;
use eco_keyed::Keyed;
use eco_meaning::{Name, OutOfMemory};
use indexmap::IndexMap;
use std::alloc::Global;

/// The first pair of each name, in order, and the smallest name that came twice.
#[derive(Drop)]
pub(crate) struct Gathered {
    lines: IndexMap<Name, u32, Keyed>,
    twice: Option<Name>,
}

/// The smaller of two names.
fn smaller(least: Option<Name>, name: Name) -> Option<Name>
    ensures { result ≡ smaller least name }
{
    match least {
        None => Some(name),
        Some(other) => {
            if name < other {
                Some(name)
            } else {
                Some(other)
            }
        }
    }
}

impl Gathered {
    /// Nothing yet; `keyed` is keyed by the file.
    pub(crate) fn new(alloc: Global, keyed: Keyed) -> Gathered
        ensures { Gathers [] result.lines.entries result.twice }
    {
        Gathered {
            lines: IndexMap::with_hasher(alloc, keyed),
            twice: None,
        }
    }

    /// Whether a pair of this name was gathered.
    fn has(&self, name: &Name) -> bool
        ensures { result ≡ has (names_in self.now.lines.entries) name.now }
    {
        self.lines.contains_key(name)
    }

    /// Adds a pair behind those that were gathered.
    pub(crate) fn add(&mut self, name: Name, weight: u32) -> Result<(), OutOfMemory>
        ensures { OnOk result ((told : Lines) → Gathers told self.old.lines.entries self.old.twice
            → Gathers (told ++ (name, weight) ∷ []) self.new.lines.entries self.new.twice) }
    {
        if self.has(&name) {
            self.twice = smaller(self.twice.take(), name);
        } else {
            self.lines.insert(name, weight)?;
        }
        Ok(())
    }

    /// The weights, where no name came twice.
    pub(crate) fn finish(self) -> Result<Weights, WeightError>
        ensures ok { IfOk result (λ weights. (told : Lines) → Gathers told self.lines.entries self.twice → Finishes told weights) }
        ensures refused { IfErr result (λ e. (told : Lines) → Gathers told self.lines.entries self.twice → Refuses told e) }
    {
        let Gathered { lines, twice } = self;
        match twice {
            None => Ok(Weights { lines }),
            Some(name) => Err(WeightError::Twice(name)),
        }
    }
}
