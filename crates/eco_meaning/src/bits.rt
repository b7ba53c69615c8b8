//! Lists of bits.

use crate::memory::OutOfMemory;
use std::marker::Model;

/// A list of bits, as the values of signals in some order.
#[derive(Drop)]
pub struct Bits {
    bits: Vec<bool>,
}

impl Model for Bits {
    ghost use Rattle.std.specs.Prelude.{List, Bool};

    ghost Value = { List Bool };

    ghost view = { λ bits. bits.bits.items };
}

impl Bits {
    ghost use Rattle.std.specs.Prelude.{◌≡◌, IfOk};

    /// The list of these bits.
    pub fn of(bits: Vec<bool>) -> Bits
        ensures { result ≡ bits.items }
    {
        Bits { bits }
    }

    /// The bits in order.
    pub fn as_slice(&self) -> &[bool]
        ensures { result.now ≡ self.now }
    {
        self.bits.as_slice()
    }

    /// The same bits again.
    pub fn copy(&self) -> Result<Bits, OutOfMemory>
        ensures same { IfOk result (λ bits. bits ≡ self.now) }
    {
        let bits = Vec::from_slice(*self.bits.allocator(), self.bits.as_slice())?;
        Ok(Bits { bits })
    }
}
