//! Questions.

use crate::lists::{Nets, Rows};
use eco_meaning::Bits;
use eco_netlist::Netlist;

/// What the search is asked of a problem. Bits of inputs and of targets stand in the order of the implementation's inputs
/// and of its targets' numbers.
#[derive(Drop)]
pub enum Question {
    /// For an input at which the implementation is right with none of these values of its targets.
    Rectify {
        values: Rows,
    },
    /// For two inputs with equal values of the base signals, at which the targets before this one follow the patches: at the
    /// first, this target at 0 is right with none of the listed rests, the values of the targets behind it; at the second,
    /// this target at 1.
    Separate {
        target: u64,
        patches: Netlist,
        base: Nets,
        rest: Rows,
    },
    /// For values of the targets that begin with the fixed ones and are right at the input.
    Fix {
        input: Bits,
        fixed: Bits,
    },
    /// For a cared input on which two netlists differ in an output.
    Equal {
        left: Netlist,
        right: Netlist,
        care: Option<Netlist>,
    },
}
