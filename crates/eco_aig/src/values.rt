//! The values of nodes.

ghost use Rattle.std.specs.Prelude.{◌≡◌, ◌<◌, ℕ, Bool, length};
ghost use Rattle.eco_lists.specs.Bits.{bit_at};
ghost use Rattle.eco_aig.specs.declared.node.Node.TheVariants.{Input};
ghost use Rattle.eco_aig.specs.Edges.{value_of};
ghost use Rattle.eco_aig.specs.Graph.{FitsNode, IsValuation, AgreeAt, inputs_of};

use crate::edge::Edge;
use crate::graph::Aig;
use crate::node::Node;

impl Aig {
    /// Gives each node but the inputs its bit: then the bits are those of the one valuation that has the inputs' bits.
    pub fn fill(&self, values: &mut [bool])
        requires { length values.old ≡ length self.now }
        ensures length { length values.new ≡ length values.old }
        ensures fits { IsValuation self.now (bit_at values.new) }
        ensures kept { AgreeAt (inputs_of self.now) (bit_at values.new) (bit_at values.old) }
        ensures only { (w : ℕ → Bool) → IsValuation self.now w → AgreeAt (inputs_of self.now) w (bit_at values.old)
            → (k : ℕ) → k < length self.now → w k ≡ bit_at values.new k }
    {
        for (number, node) in self.nodes.as_slice().iter().enumerate() {
            let bit = node_bit(*node, values[number], values);
            values[number] = bit;
        }
    }
}

/// The bit of a node, which is the given one at an input.
fn node_bit(node: Node, input: bool, values: &[bool]) -> bool
    ensures fits { FitsNode (bit_at values.now) node result }
    ensures input { (number : ℕ) → node ≡ Input number → result ≡ input }
{
    match node {
        Node::Zero => false,
        Node::Input(_) => input,
        Node::And(a, b) => edge_bit(a, values) && edge_bit(b, values),
    }
}

/// The bit of an edge.
fn edge_bit(edge: Edge, values: &[bool]) -> bool
    ensures { result ≡ value_of (bit_at values.now) edge }
{
    let bit = values.get(edge.node as usize).copied().unwrap_or(false);
    bit != edge.complemented
}
