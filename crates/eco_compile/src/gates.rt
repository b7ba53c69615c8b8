//! The edges of gates.

ghost use Rattle.std.specs.Prelude.{◌≡◌, ℕ, Bool, length, slice_get, IfOk};
ghost use Rattle.std.specs.List.{sum_by};
ghost use Rattle.eco_gates.specs.Gates.{IsGateWithin, IsWithin, IsOnceDriven, IsUndriven};
ghost use Rattle.eco_gates.specs.Evaluation.{gate_value, IsConsistentAt};
ghost use Rattle.eco_gates.specs.Ordering.{IsOrder};
ghost use Rattle.eco_aig.specs.Graph.{IsValuation, HasValue, Grows};
ghost use Rattle.eco_aig.specs.Edges.{bits_of};
ghost use Rattle.eco_compile.specs.Compiled.{AreEdges};
ghost use Rattle.eco_compile.specs.Joins.{gate_nodes};

use crate::join::{inverts, join_of, join_terms};
use eco_aig::{Aig, Edge};
use eco_gates::Gate;
use eco_meaning::OutOfMemory;

/// The edges of all nets, where the nets that no gate drives have these, in the given order of the gates.
pub(crate) fn compile_gates(
    gates: &[Gate],
    order: &[u64],
    mut edges: Vec<Edge>,
    aig: &mut Aig,
) -> Result<Vec<Edge>, OutOfMemory>
    requires edges { AreEdges aig.old edges.items }
    requires within { IsWithin (length edges.items) gates.now }
    requires once { IsOnceDriven gates.now }
    requires order { IsOrder gates.now order.now }
    ensures length { IfOk result (λ new. length new.items ≡ length edges.items) }
    ensures edges { IfOk result (λ new. AreEdges aig.new new.items) }
    ensures consistent { IfOk result (λ new. (w : ℕ → Bool) → IsValuation aig.new w → IsConsistentAt gates.now (bits_of w new.items)) }
    ensures kept { IfOk result (λ new. (net : ℕ) → IsUndriven gates.now net → slice_get new.items net ≡ slice_get edges.items net) }
    ensures grows { Grows aig.old aig.new (sum_by (λ g. gate_nodes g.kind (length g.ins)) gates.now) }
{
    for number in order {
        let gate = &gates[*number as usize];
        let edge = gate_edge(gate, edges.as_slice(), aig)?;
        edges[gate.out.0 as usize] = edge;
    }
    Ok(edges)
}

/// The edge of the gate's output, where the nets have these edges.
fn gate_edge(gate: &Gate, edges: &[Edge], aig: &mut Aig) -> Result<Edge, OutOfMemory>
    requires edges { AreEdges aig.old edges.now }
    requires within { IsGateWithin (length edges.now) gate.now }
    ensures value { IfOk result (λ e. HasValue aig.new e (λ w. gate_value (bits_of w edges.now) gate.now)) }
    ensures grows { Grows aig.old aig.new (gate_nodes gate.now.kind (length gate.now.ins)) }
{
    let edge = join_terms(join_of(gate.kind), gate.ins.as_slice(), edges, aig)?;
    if inverts(gate.kind) {
        Ok(edge.not())
    } else {
        Ok(edge)
    }
}
