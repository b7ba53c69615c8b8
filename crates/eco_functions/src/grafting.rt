//! One graph within another.

ghost use Rattle.std.specs.Prelude.{◌≡◌, ◌<◌, ◌+◌, IfOk, OnOk, length};
ghost use Rattle.eco_aig.specs.Graph.{IsEdge, Grows, inputs_of};
ghost use Rattle.eco_functions.specs.Grafts.{IsGraft, AreImages, image_of};

use eco_aig::{Aig, Edge};
use eco_meaning::OutOfMemory;
use std::alloc::Global;

/// Copies the nodes of a graph into another one with as many inputs: its inputs are those of the other, in order. It gives the
/// edge that has the root's value there. Linear in the graph that is copied.
pub(crate) fn graft(
    alloc: Global,
    into: &mut Aig,
    from: &Aig,
    root: Edge,
) -> Result<Edge, OutOfMemory>
    requires root { IsEdge from.now root }
    requires inputs { length (inputs_of from.now) ≡ length (inputs_of into.old) }
    ensures grows { Grows into.old into.new (length from.now) }
    ensures value { IfOk result (λ e. IsGraft into.new from.now root e) }
{
    let nodes = from.nodes();
    let mut images = leaf_images(alloc, into, from)?;
    for node in 0..nodes {
        add_image(into, from, node, &mut images)?;
    }
    Ok(image(images.as_slice(), root))
}

/// The images of the constant and of the inputs. And-nodes have none yet.
fn leaf_images(alloc: Global, into: &Aig, from: &Aig) -> Result<Vec<Edge>, OutOfMemory>
    requires inputs { length (inputs_of from.now) ≡ length (inputs_of into.now) }
    ensures { IfOk result (λ images. AreImages into.now from.now 0 images.items) }
{
    // both are graphs: node 0 is the constant
    let _ = into.nodes();
    let nodes = from.nodes();
    let sources = from.inputs();
    let inputs = into.inputs();
    let mut images = vec![in alloc; Edge::ZERO; nodes as usize]?;
    for place in 0..sources.len() {
        images[sources[place] as usize] = Edge {
            node: inputs[place],
            complemented: false,
        };
    }
    Ok(images)
}

/// Adds the conjunction of the images of an and-node's operands as the image of the node.
fn add_image(
    into: &mut Aig,
    from: &Aig,
    node: u64,
    images: &mut Vec<Edge>,
) -> Result<(), OutOfMemory>
    requires node { node < length from.now }
    requires images { AreImages into.old from.now node images.old.items }
    ensures grows { Grows into.old into.new 1 }
    ensures images { OnOk result (AreImages into.new from.now (node + 1) images.new.items) }
{
    // its operands stand before the node
    let _ = from.nodes();
    let Some((first, second)) = from.pair(node) else {
        return Ok(());
    };
    let first = image(images.as_slice(), first);
    let second = image(images.as_slice(), second);
    let made = into.and(first, second)?;
    images[node as usize] = made;
    Ok(())
}

/// The image of an edge.
fn image(images: &[Edge], edge: Edge) -> Edge
    requires { edge.node < length images.now }
    ensures { result ≡ image_of images.now edge }
{
    let image = images[edge.node as usize];
    if edge.complemented {
        image.not()
    } else {
        image
    }
}
