//! Inputs whose forced bits are known.

use eco_meaning::Bits;
use std::alloc::Global;

/// Inputs that force a target to 1, and such that force it to 0, each a bit for each input of the implementation.
#[derive(Drop)]
pub struct Known {
    pub ones: Vec<Bits>,
    pub zeros: Vec<Bits>,
}

impl Known {
    ghost use Rattle.std.specs.Prelude.{◌≡◌, []};

    /// No input.
    pub fn new(alloc: Global) -> Known
        ensures ones { result.ones.items ≡ [] }
        ensures zeros { result.zeros.items ≡ [] }
    {
        Known {
            ones: Vec::new(alloc),
            zeros: Vec::new(alloc),
        }
    }
}
