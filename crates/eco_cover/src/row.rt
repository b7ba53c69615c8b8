//! Rows of bits.

use std::marker::Model;

/// A row: one bit for each column.
#[derive(Drop)]
pub struct Row {
    bits: Vec<bool>,
}

impl Model for Row {
    ghost use Rattle.std.specs.Prelude.{List, Bool};

    ghost Value = { List Bool };

    ghost view = { λ row. row.bits.items };
}

impl Row {
    ghost use Rattle.std.specs.Prelude.{◌≡◌};

    /// The row of these bits.
    pub fn of(bits: Vec<bool>) -> Row
        ensures { result ≡ bits.items }
    {
        Row { bits }
    }

    /// The bits in the order of the columns.
    pub fn bits(&self) -> &[bool]
        ensures { result.now ≡ self.now }
    {
        self.bits.as_slice()
    }
}
