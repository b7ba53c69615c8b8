//! The patch whose first targets have the values of edges of a graph.

ghost use Rattle.std.specs.Prelude.{◌≡◌, ◌<◌, ◌+◌, ◌^◌, Bool, List, [], ◌++◌, codes, IfOk, OnOk, IsTrue, All, length};
ghost use Rattle.std.specs.List.{IsDistinct, list_all};
ghost use Rattle.std.specs.Str.{bytes_eq};
ghost use Rattle.eco_meaning.specs.Names.{is_printing};
ghost use Rattle.eco_meaning.specs.Circuit.{names, IsSignal};
ghost use Rattle.eco_netlist.specs.Netlists.{AreNets, names_at};
ghost use Rattle.eco_netlist.specs.Plain.{as_declared};
ghost use Rattle.eco_aig.specs.declared.edge.Edge.{Edge};
ghost use Rattle.eco_aig.specs.Graph.{IsGraph, IsEdge, inputs_of};
ghost use Rattle.eco_aig.specs.Reached.{AreReached};
ghost use Rattle.eco_splice.specs.Wired.{wired};
ghost use Rattle.eco_splice.specs.GraphPatch.{netted, nets_of, graph_circuit, IsGraphPatch, HasTargets, AreRooted, FitsFirst, HasRootValues, ReadsReached};
ghost use Rattle.eco_splice.specs.Marking.{AreNetted};

use crate::gates::{add_edge_gates, add_root_gates};
use crate::nets::{Nets, net_names};
use crate::prefixes::fresh_prefix;
use crate::roots::{Frame, Roots};
use crate::wires::add_wires;
use crate::wiring::netted_edges;
use eco_aig::reached;
use eco_netlist::{Draft, NetId, Netlist, OutOfMemory};
use eco_text::name_from;
use std::alloc::Global;

/// The patch that gives the first targets of `f` the values of these roots, as functions of the base signals, which
/// stand for the inputs of the graph in order. Its module is `patch`; its outputs are the targets, its inputs are the
/// base signals. It has an `and` for each and-node that a root reaches and a `not` for each complement that one of them
/// reads. It takes time and memory linear in the size of the graph, beside those for the names, and fails only for want
/// of memory.
pub fn patch_netlist(alloc: Global, f: &Netlist, roots: &Roots<'_>) -> Result<Netlist, OutOfMemory>
    requires nets { AreNets (names f.now) roots.now.base.now }
    requires distinct { IsDistinct bytes_eq (names_at (names f.now) roots.now.base.now) }
    requires signals { All (IsSignal f.now) (names_at (names f.now) roots.now.base.now) }
    requires inputs { length (inputs_of roots.now.aig.now) ≡ length roots.now.base.now }
    requires edges { All (IsEdge roots.now.aig.now) roots.now.edges.now }
    requires targets { HasTargets f.now (length roots.now.edges.now) }
    requires rooted { AreRooted f.now roots.now.aig.now roots.now.edges.now (names_at (names f.now) roots.now.base.now) }

    ensures exactly { IfOk result (IsGraphPatch f.now roots.now.aig.now roots.now.edges.now (names_at (names f.now) roots.now.base.now)) }
    ensures fits { IfOk result (FitsFirst f.now (length roots.now.edges.now)) }
    ensures ports { IfOk result (λ p. p.ports ≡ p.outputs ++ p.inputs) }
    ensures inputs { IfOk result (λ p. p.inputs ≡ names_at (names f.now) roots.now.base.now) }
    ensures values { IfOk result (HasRootValues roots.now.aig.now roots.now.edges.now) }
    ensures reads { IfOk result (ReadsReached roots.now.aig.now roots.now.edges.now (names_at (names f.now) roots.now.base.now)) }
    ensures gates { IfOk result (λ p. (marks : List Bool) → AreReached roots.now.aig.now roots.now.edges.now marks →
        length p.gates ≡ length (wired roots.now.aig.now marks) + length roots.now.edges.now) }
{
    let draft = graph_draft(alloc, f, roots)?;
    let patch = draft.finish_plain()?;
    Ok(patch)
}

// The draft of the patch, with the prefix, the marks and the targets that it takes.
fn graph_draft(alloc: Global, f: &Netlist, roots: &Roots<'_>) -> Result<Draft, OutOfMemory>
    requires nets { AreNets (names f.now) roots.now.base.now }
    requires inputs { length (inputs_of roots.now.aig.now) ≡ length roots.now.base.now }
    requires edges { All (IsEdge roots.now.aig.now) roots.now.edges.now }
    requires targets { HasTargets f.now (length roots.now.edges.now) }
    ensures exactly { IfOk result (λ draft. IsGraphPatch f.now roots.now.aig.now roots.now.edges.now (names_at (names f.now) roots.now.base.now)
        (as_declared draft)) }
    ensures graph { OnOk result (IsGraph roots.now.aig.now) }
    ensures room { IfOk result (λ draft. length draft.wires + 1 < 2 ^ 64) }
{
    // it is a graph
    let _ = roots.aig.nodes();
    let prefix = fresh_prefix(alloc, f)?;
    let marks = reached(alloc, roots.aig, roots.edges)?;
    let targets = &f.targets()[..roots.edges.len()];
    let frame = Frame {
        alloc,
        f,
        targets,
        prefix: prefix.as_slice(),
    };
    let draft = marked_draft(&frame, roots, marks.as_slice())?;
    Ok(draft)
}

// The draft of the patch, where these nodes are marked.
fn marked_draft(frame: &Frame<'_>, roots: &Roots<'_>, marks: &[bool]) -> Result<Draft, OutOfMemory>
    requires printing { IsTrue (list_all is_printing frame.now.prefix.now) }
    requires marks { AreReached roots.now.aig.now roots.now.edges.now marks.now }
    requires targets { AreNets (names frame.now.f.now) frame.now.targets.now }
    requires count { length frame.now.targets.now ≡ length roots.now.edges.now }
    requires nets { AreNets (names frame.now.f.now) roots.now.base.now }
    requires inputs { length (inputs_of roots.now.aig.now) ≡ length roots.now.base.now }
    ensures made { IfOk result (λ draft. as_declared draft ≡ graph_circuit frame.now.prefix.now roots.now.aig.now (wired roots.now.aig.now marks.now)
        (names_at (names frame.now.f.now) frame.now.targets.now) (names_at (names frame.now.f.now) roots.now.base.now) roots.now.edges.now) }
    ensures room { IfOk result (λ draft. length draft.wires + 1 < 2 ^ 64) }
{
    let name = name_from(frame.alloc, b"patch")?;
    let mut draft = Draft::new(frame.alloc, name);
    match add_patch(&mut draft, frame, roots, marks) {
        Ok(()) => Ok(draft),
        Err(error) => {
            drop(draft);
            Err(error)
        }
    }
}

// Adds what the patch has to a draft that has nothing yet, where these nodes are marked.
fn add_patch(
    draft: &mut Draft,
    frame: &Frame<'_>,
    roots: &Roots<'_>,
    marks: &[bool],
) -> Result<(), OutOfMemory>
    requires empty { draft.old ≡ record { title = codes "patch"; header = []; inputs = []; outputs = []; wires = []; gates = [] } }
    requires printing { IsTrue (list_all is_printing frame.now.prefix.now) }
    requires marks { AreReached roots.now.aig.now roots.now.edges.now marks.now }
    requires targets { AreNets (names frame.now.f.now) frame.now.targets.now }
    requires count { length frame.now.targets.now ≡ length roots.now.edges.now }
    requires nets { AreNets (names frame.now.f.now) roots.now.base.now }
    requires inputs { length (inputs_of roots.now.aig.now) ≡ length roots.now.base.now }
    ensures made { OnOk result (as_declared draft.new ≡ graph_circuit frame.now.prefix.now roots.now.aig.now (wired roots.now.aig.now marks.now)
        (names_at (names frame.now.f.now) frame.now.targets.now) (names_at (names frame.now.f.now) roots.now.base.now) roots.now.edges.now) }
    ensures room { OnOk result (length draft.new.wires + 1 < 2 ^ 64) }
{
    // it is a graph
    let _ = roots.aig.nodes();
    let nets = marked_nets(frame, roots, marks)?;
    let inputs = roots.base.len();
    let wires = nets.edges.len() - inputs;
    add_outputs(draft, frame.f, frame.targets)?;
    add_inputs(draft, frame.f, roots.base)?;
    add_wires(draft, frame.alloc, frame.prefix, wires as u64)?;
    add_edge_gates(draft, frame.alloc, roots.aig, &nets, &nets.edges[inputs..])?;
    add_root_gates(draft, frame, &nets, roots.edges)?;
    Ok(())
}

// The nets of the patch, where the nodes that some edges reach are marked.
fn marked_nets(frame: &Frame<'_>, roots: &Roots<'_>, marks: &[bool]) -> Result<Nets, OutOfMemory>
    requires printing { IsTrue (list_all is_printing frame.now.prefix.now) }
    requires marks { (edges : List Edge) × AreReached roots.now.aig.now edges marks.now }
    requires nets { AreNets (names frame.now.f.now) roots.now.base.now }
    requires inputs { length (inputs_of roots.now.aig.now) ≡ length roots.now.base.now }
    ensures netted { IfOk result AreNetted }
    ensures edges { IfOk result (λ nets. nets.edges.items ≡ netted roots.now.aig.now (wired roots.now.aig.now marks.now)) }
    ensures names { IfOk result (λ nets. nets.names.items
        ≡ nets_of frame.now.prefix.now (names_at (names frame.now.f.now) roots.now.base.now) (length (wired roots.now.aig.now marks.now))) }
{
    let nodes = roots.aig.nodes();
    let edges = netted_edges(frame.alloc, roots.aig, marks)?;
    let wires = edges.len() - roots.base.len();
    let names = net_names(frame, roots.base, wires as u64)?;
    Nets::new(frame.alloc, nodes, edges, names)
}

// Adds the targets to the header and to the outputs.
pub(crate) fn add_outputs(
    draft: &mut Draft,
    f: &Netlist,
    targets: &[NetId],
) -> Result<(), OutOfMemory>
    requires { AreNets (names f.now) targets.now }
    ensures { OnOk result (draft.new ≡ record draft.old {
      header = draft.old.header ++ names_at (names f.now) targets.now;
      outputs = draft.old.outputs ++ names_at (names f.now) targets.now;
    }) }
{
    for net in targets {
        draft.add_port(f.name_of(*net).copy()?)?;
        draft.add_output(f.name_of(*net).copy()?)?;
    }
    Ok(())
}

// Adds the base signals to the header and to the inputs.
pub(crate) fn add_inputs(draft: &mut Draft, f: &Netlist, base: &[NetId]) -> Result<(), OutOfMemory>
    requires { AreNets (names f.now) base.now }
    ensures { OnOk result (draft.new ≡ record draft.old {
      header = draft.old.header ++ names_at (names f.now) base.now;
      inputs = draft.old.inputs ++ names_at (names f.now) base.now;
    }) }
{
    for net in base {
        draft.add_port(f.name_of(*net).copy()?)?;
        draft.add_input(f.name_of(*net).copy()?)?;
    }
    Ok(())
}
