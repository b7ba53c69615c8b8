//! What may be found wrong.

use eco_meaning::{Bits, Name};

/// What is found of a report, a patch and a patched netlist: the first of these that stands.
#[derive(Drop)]
pub enum Finding {
    /// The report is of no patch.
    NotPatched,
    /// The reported targets aren't the implementation's, in order.
    Targets,
    /// The patch's ports aren't the reported targets as outputs and then the reported signals as inputs, in order.
    Ports,
    /// The first reported signal that is no candidate of the target that tells it.
    Candidate(Name),
    /// The first reported signal whose weight is another.
    Weight(Name),
    /// The reported cost isn't the sum of the reported weights.
    Cost,
    /// The patch has another number of gates.
    Gates,
    /// The smallest wire of the patch whose name the implementation has too.
    Inner(Name),
    /// The first reported signal that lies behind a target which may not read it, and on which that target's function depends.
    Reach(Name),
    /// The patched netlist isn't the implementation with the patch in it.
    Splice,
    /// The first reported signal that its two inputs don't show to be needed.
    Need(Name),
    /// What the report says that a base costs at least is no such bound: the implementation has several targets, a part doesn't
    /// force the target as said, a candidate carries more than it weighs, or the total isn't the sum of the parts.
    Bound,
    /// A cared input, a bit for each of the implementation's inputs in their order, on which the patched netlist has other
    /// outputs than the specification.
    Differs(Bits),
}
