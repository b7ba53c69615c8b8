//! Inputs of a graph: more of them, and the edges to all of them, beside variables.

ghost use Rattle.std.specs.Prelude.{◌≡◌, ◌+◌, ◌++◌, IfOk, OnOk, length, map};
ghost use Rattle.eco_aig.specs.Edges.{plain};
ghost use Rattle.eco_aig.specs.Graph.{inputs_of};
ghost use Rattle.eco_functions.specs.Inputs.{HasMoreInputs};

use eco_aig::{Aig, Edge};
use eco_meaning::OutOfMemory;
use eco_netlist::NetId;
use eco_trace::Var;
use std::alloc::Global;

/// Adds an input to the graph for each of these signals, and the signals to the base.
pub(crate) fn add_inputs(
    aig: &mut Aig,
    base: &mut Vec<NetId>,
    more: &[NetId],
) -> Result<(), OutOfMemory>
    ensures inputs { OnOk result (HasMoreInputs aig.old (length more.now) aig.new) }
    ensures count { OnOk result (length aig.new ≡ length aig.old + length more.now) }
    ensures base { OnOk result (base.new.items ≡ base.old.items ++ more.now) }
{
    for net in more {
        aig.input()?;
        base.push(*net)?;
    }
    Ok(())
}

/// Variables with the edges to the inputs, in order.
pub(crate) fn input_pairs(
    alloc: Global,
    shared: &[Var],
    aig: &Aig,
) -> Result<Vec<(Var, Edge)>, OutOfMemory>
    requires count { length shared.now ≡ length (inputs_of aig.now) }
    ensures variables { IfOk result (λ pairs. map (λ p. p.0) pairs.items ≡ shared.now) }
    ensures edges { IfOk result (λ pairs. map (λ p. p.1) pairs.items ≡ map plain (inputs_of aig.now)) }
{
    let inputs = aig.inputs();
    let mut pairs = Vec::with_capacity(alloc, shared.len())?;
    for (place, var) in shared.iter().enumerate() {
        let edge = Edge {
            node: inputs[place],
            complemented: false,
        };
        pairs.push((*var, edge))?;
    }
    Ok(pairs)
}
