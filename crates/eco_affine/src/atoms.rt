//! Lists of nodes whose parity is taken.

ghost use Rattle.std.specs.Prelude.{◌≡◌, ℕ, Bool, IfOk};
ghost use Rattle.eco_lists.specs.Bits.{exactly_one};
ghost use Rattle.eco_aig.specs.Edges.{value_of};
ghost use Rattle.eco_affine.specs.Forms.{parity};

use eco_aig::Edge;
use eco_meaning::OutOfMemory;

/// A parity that an edge has: its bit is that of the number of the atoms, nodes of the graph, whose bits are 1. The atoms
/// rise.
#[derive(Drop)]
pub struct Form {
    pub(crate) edge: Edge,
    pub(crate) atoms: Vec<u64>,
}

/// Takes the atom out where it is listed, and lists it where it isn't. The list rises, and goes on rising.
pub(crate) fn toggle(atoms: &mut Vec<u64>, atom: u64) -> Result<(), OutOfMemory>
    ensures { IfOk result (λ _. (w : ℕ → Bool) → parity w atoms.new.items ≡ exactly_one (w atom) (parity w atoms.old.items)) }
{
    match atoms.as_slice().binary_search(&atom) {
        Ok(place) => {
            atoms.remove(place);
        }
        Err(place) => atoms.insert(place, atom)?,
    }
    Ok(())
}

/// The same for each of the others.
pub(crate) fn toggle_all(atoms: &mut Vec<u64>, others: &[u64]) -> Result<(), OutOfMemory>
    ensures { IfOk result (λ _. (w : ℕ → Bool) → parity w atoms.new.items ≡ exactly_one (parity w others.now) (parity w atoms.old.items)) }
{
    for other in others {
        toggle(atoms, *other)?;
    }
    Ok(())
}

/// The edge, or its complement.
pub(crate) fn signed(edge: Edge, complemented: bool) -> Edge
    ensures node { result.node ≡ edge.node }
    ensures value { (w : ℕ → Bool) → value_of w result ≡ exactly_one complemented (value_of w edge) }
{
    if complemented { edge.not() } else { edge }
}
