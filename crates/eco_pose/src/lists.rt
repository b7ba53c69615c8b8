//! Lists as questions hold them.

use eco_meaning::Bits;
use eco_netlist::NetId;
use std::marker::Model;

/// Rows of bits.
#[derive(Drop)]
pub struct Rows {
    rows: Vec<Bits>,
}

impl Model for Rows {
    ghost use Rattle.std.specs.Prelude.{List, Bool};

    ghost Value = { List (List Bool) };

    ghost view = { λ rows. rows.rows.items };
}

impl Rows {
    ghost use Rattle.std.specs.Prelude.{◌≡◌};

    /// The list of these rows.
    pub fn of(rows: Vec<Bits>) -> Rows
        ensures { result ≡ rows.items }
    {
        Rows { rows }
    }

    /// The rows in order.
    pub fn as_slice(&self) -> &[Bits]
        ensures { result.now ≡ self.now }
    {
        self.rows.as_slice()
    }
}

/// Nets of a netlist, by their numbers.
#[derive(Drop)]
pub struct Nets {
    nets: Vec<NetId>,
}

impl Model for Nets {
    ghost use Rattle.std.specs.Prelude.{List};
    ghost use Rattle.eco_gates.specs.declared.gate.NetId.{NetId};

    ghost Value = { List NetId };

    ghost view = { λ nets. nets.nets.items };
}

impl Nets {
    ghost use Rattle.std.specs.Prelude.{◌≡◌};

    /// The list of these nets.
    pub fn of(nets: Vec<NetId>) -> Nets
        ensures { result ≡ nets.items }
    {
        Nets { nets }
    }

    /// The nets in order.
    pub fn as_slice(&self) -> &[NetId]
        ensures { result.now ≡ self.now }
    {
        self.nets.as_slice()
    }
}
