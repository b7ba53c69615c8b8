//! Nets that are to be cut.

use eco_meaning::Name;
use std::marker::Model;

/// A net that is to be cut, by its name, with the target that is read in its place and the net that its gate drives then.
#[derive(Drop)]
pub struct CutNet {
    pub net: Name,
    pub target: Name,
    pub old: Name,
}

impl Model for CutNet {
    ghost use Rattle.eco_cutting.specs.Cuts.{Cut};

    ghost Value = { Cut };

    ghost view = { λ cut. record {
      net = cut.net;
      target = cut.target;
      old = cut.old;
    } };
}
