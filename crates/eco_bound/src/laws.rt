//! Laws of what a base costs at least.

ghost use Rattle.eco_bound.specs.Laws.{BoundIsLeast, AnyPatchWillDo};

/// A law of bounds: no candidates that suffice for the target cost less than the parts say. It is all one which netlist stands
/// for the patch, as no target has a function yet.
pub fn bound_is_least()
    ensures least { BoundIsLeast }
    ensures any_patch { AnyPatchWillDo }
{}
