//! The nets of a patch from a graph: their names, and the edges that they stand for.

ghost use Rattle.std.specs.Prelude.{◌≡◌, ◌≢◌, ◌<◌, ℕ, Some, IfOk, IsTrue, All, Contains, length, slice_get};
ghost use Rattle.std.specs.List.{list_all};
ghost use Rattle.eco_meaning.specs.Names.{is_printing};
ghost use Rattle.eco_meaning.specs.Circuit.{names};
ghost use Rattle.eco_netlist.specs.Netlists.{AreNets, names_at};
ghost use Rattle.eco_aig.specs.declared.edge.Edge.{Edge};
ghost use Rattle.eco_splice.specs.GraphPatch.{net_of, nets_of};
ghost use Rattle.eco_splice.specs.Marking.{place_at, ArePlaces, AreNetted};

use crate::roots::Frame;
use eco_aig::Edge;
use eco_netlist::{Name, NetId, Netlist, OutOfMemory};
use eco_text::numbered;
use std::alloc::Global;

/// Edges of a graph with the names of their nets, and for each node the places of the two edges to it, where they
/// have one.
#[derive(Drop)]
pub(crate) struct Nets {
    pub(crate) edges: Vec<Edge>,
    pub(crate) names: Vec<Name>,
    plain: Vec<usize>,
    complemented: Vec<usize>,
}

impl Nets {
    // The nets of these edges, which have the names in order.
    pub(crate) fn new(
        alloc: Global,
        nodes: u64,
        edges: Vec<Edge>,
        names: Vec<Name>,
    ) -> Result<Nets, OutOfMemory>
        requires edges { All (λ e. e.node < nodes) edges.items }
        requires once { (i j : ℕ) (e : Edge) → slice_get edges.items i ≡ Some e → slice_get edges.items j ≡ Some e → i ≡ j }
        requires names { length names.items ≡ length edges.items }
        ensures netted { IfOk result AreNetted }
        ensures edges { IfOk result (λ nets. nets.edges ≡ edges) }
        ensures names { IfOk result (λ nets. nets.names ≡ names) }
    {
        let mut plain = vec![in alloc; 0usize; nodes as usize]?;
        let mut complemented = vec![in alloc; 0usize; nodes as usize]?;
        number(edges.as_slice(), &mut plain, &mut complemented);
        Ok(Nets {
            edges,
            names,
            plain,
            complemented,
        })
    }

    // The name of the net of an edge.
    pub(crate) fn name(&self, edge: Edge) -> Result<Name, OutOfMemory>
        requires netted { AreNetted self.now }
        requires listed { Contains self.now.edges.items edge }
        ensures { IfOk result (λ name. name ≡ net_of self.now.edges.items self.now.names.items edge) }
    {
        let place = self.place(edge);
        let name = self.names[place].copy()?;
        Ok(name)
    }

    // The place of an edge.
    fn place(&self, edge: Edge) -> usize
        requires plain { edge.node < length self.now.plain.items }
        requires complemented { edge.node < length self.now.complemented.items }
        ensures { result ≡ place_at self.now.plain.items self.now.complemented.items edge }
    {
        if edge.complemented {
            self.complemented[edge.node as usize]
        } else {
            self.plain[edge.node as usize]
        }
    }
}

// Writes the place of each edge into the table of its sign.
fn number(edges: &[Edge], plain: &mut Vec<usize>, complemented: &mut Vec<usize>)
    requires plain { All (λ e. e.node < length plain.old.items) edges.now }
    requires complemented { length complemented.old.items ≡ length plain.old.items }
    requires once { (i j : ℕ) (e : Edge) → slice_get edges.now i ≡ Some e → slice_get edges.now j ≡ Some e → i ≡ j }
    ensures places { ArePlaces plain.new.items complemented.new.items edges.now }
    ensures plain { length plain.new.items ≡ length plain.old.items }
    ensures complemented { length complemented.new.items ≡ length complemented.old.items }
{
    for (place, edge) in edges.iter().enumerate() {
        set_place(*edge, place, plain, complemented);
    }
}

// Writes the place of an edge: among those of complements where it is one.
pub(crate) fn set_place(
    edge: Edge,
    place: usize,
    plain: &mut Vec<usize>,
    complemented: &mut Vec<usize>,
)
    requires plain { edge.node < length plain.old.items }
    requires complemented { edge.node < length complemented.old.items }
    ensures own { place_at plain.new.items complemented.new.items edge ≡ place }
    ensures others { (e : Edge) → e ≢ edge → place_at plain.new.items complemented.new.items e
        ≡ place_at plain.old.items complemented.old.items e }
    ensures plain_length { length plain.new.items ≡ length plain.old.items }
    ensures complemented_length { length complemented.new.items ≡ length complemented.old.items }
{
    if edge.complemented {
        complemented[edge.node as usize] = place;
    } else {
        plain[edge.node as usize] = place;
    }
}

// The names of the base signals, then those of so many wires.
pub(crate) fn net_names(
    frame: &Frame<'_>,
    base: &[NetId],
    wires: u64,
) -> Result<Vec<Name>, OutOfMemory>
    requires printing { IsTrue (list_all is_printing frame.now.prefix.now) }
    requires nets { AreNets (names frame.now.f.now) base.now }
    ensures { IfOk result (λ list. list.items ≡ nets_of frame.now.prefix.now (names_at (names frame.now.f.now) base.now) wires) }
{
    let mut list = base_names(frame.alloc, frame.f, base)?;
    for before in 0..wires {
        list.push(numbered(frame.alloc, frame.prefix, before + 1)?)?;
    }
    Ok(list)
}

// The names of these nets, in order.
pub(crate) fn base_names(
    alloc: Global,
    f: &Netlist,
    base: &[NetId],
) -> Result<Vec<Name>, OutOfMemory>
    requires { AreNets (names f.now) base.now }
    ensures { IfOk result (λ list. list.items ≡ names_at (names f.now) base.now) }
{
    let mut list = Vec::with_capacity(alloc, base.len())?;
    for net in base {
        list.push(f.name_of(*net).copy()?)?;
    }
    Ok(list)
}
