//! Why a netlist is no patch of another one.

use eco_meaning::Name;

/// The first reason for which a netlist is no patch of an implementation, in this order; of several names that give
/// it the smallest.
#[derive(Drop)]
pub enum Misfit {
    /// The netlist has a target, or its outputs are not the implementation's targets in order.
    Outputs,
    /// An input that is neither an input nor a gate's output of the implementation, or that the function of a target
    /// reads although it lies in the fan-out of that target or of a later one.
    Input(Name),
    /// A wire whose name the implementation has too.
    Inner(Name),
}
