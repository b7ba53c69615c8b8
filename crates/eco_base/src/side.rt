//! Inputs whose forced bits are known.

use eco_cover::Row;
use eco_meaning::{Bits, OutOfMemory};
use std::alloc::Global;
use std::marker::Model;
use std::mem::swap;

/// Inputs that force the target to one bit, each with the row of all signals' values there.
#[derive(Drop)]
pub(crate) struct Side {
    inputs: Vec<Bits>,
    rows: Vec<Row>,
}

impl Model for Side {
    ghost use Rattle.eco_base.specs.SideValue.{SideValue};

    ghost Value = { SideValue };

    ghost view = { λ side. record { inputs = side.inputs.items; rows = side.rows.items } };
}

impl Side {
    ghost use Rattle.std.specs.Prelude.{◌≡◌, [], ◌∷◌, ◌++◌, OnOk, IfErr};

    /// No input.
    pub(crate) fn new(alloc: Global) -> Side
        ensures { result ≡ record { inputs = []; rows = [] } }
    {
        Side {
            inputs: Vec::new(alloc),
            rows: Vec::new(alloc),
        }
    }

    /// Adds an input with its row.
    pub(crate) fn add(&mut self, input: Bits, row: Row) -> Result<(), OutOfMemory>
        ensures added { OnOk result (self.new ≡ record { inputs = self.old.inputs ++ input ∷ []; rows = self.old.rows ++ row ∷ [] }) }
        ensures failed { IfErr result (λ _. self.new.inputs ≡ self.old.inputs) }
    {
        self.rows.push(row)?;
        self.inputs.push(input)?;
        Ok(())
    }

    /// Has these inputs with these rows from now on, and leaves those that it had.
    pub(crate) fn exchange(&mut self, inputs: &mut Vec<Bits>, rows: Vec<Row>)
        ensures side { self.new ≡ record { inputs = inputs.old.items; rows = rows.items } }
        ensures inputs { inputs.new.items ≡ self.old.inputs }
    {
        swap(&mut self.inputs, inputs);
        self.rows = rows;
    }

    /// The inputs.
    pub(crate) fn inputs(&self) -> &[Bits]
        ensures { result.now ≡ self.now.inputs }
    {
        self.inputs.as_slice()
    }

    /// Their rows.
    pub(crate) fn rows(&self) -> &[Row]
        ensures { result.now ≡ self.now.rows }
    {
        self.rows.as_slice()
    }
}
