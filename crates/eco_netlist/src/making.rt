//! The parts of a netlist, and the netlist of its parts.

ghost use Rattle.std.specs.Prelude.{◌≡◌, IfOk};
ghost use Rattle.eco_meaning.specs.Circuit.{Circuit};
ghost use Rattle.eco_gates.specs.Ordering.{IsOrder};
ghost use Rattle.eco_netlist.specs.Building.{HasParts, HasLists};
ghost use Rattle.eco_netlist.specs.Netlists.{IsChecked};

use crate::names::NameSet;
use crate::netlist::Netlist;
use eco_gates::{Gate, NetId};
use eco_meaning::{Name, OutOfMemory};
use std::alloc::Global;

/// The module's name, the names of the nets in the order of their numbers, and the gates by these numbers.
#[derive(Drop)]
pub(crate) struct Parts {
    pub(crate) title: Name,
    pub(crate) names: NameSet,
    pub(crate) gates: Vec<Gate>,
}

/// The ports, inputs, outputs and targets of a netlist.
#[derive(Drop)]
pub(crate) struct Lists {
    pub(crate) ports: Vec<NetId>,
    pub(crate) inputs: Vec<NetId>,
    pub(crate) outputs: Vec<NetId>,
    pub(crate) targets: Vec<NetId>,
}

/// Lists of these nets.
pub(crate) fn listed(
    alloc: Global,
    ports: &[NetId],
    inputs: &[NetId],
    outputs: &[NetId],
    targets: &[NetId],
) -> Result<Lists, OutOfMemory>
    ensures ports { IfOk result (λ lists. lists.ports.items ≡ ports.now) }
    ensures inputs { IfOk result (λ lists. lists.inputs.items ≡ inputs.now) }
    ensures outputs { IfOk result (λ lists. lists.outputs.items ≡ outputs.now) }
    ensures targets { IfOk result (λ lists. lists.targets.items ≡ targets.now) }
{
    let ports = Vec::from_slice(alloc, ports)?;
    let inputs = Vec::from_slice(alloc, inputs)?;
    let outputs = Vec::from_slice(alloc, outputs)?;
    let targets = Vec::from_slice(alloc, targets)?;
    Ok(Lists {
        ports,
        inputs,
        outputs,
        targets,
    })
}

/// The checked netlist with these parts and lists, whose gates have this order.
pub(crate) fn built(parts: Parts, lists: Lists, order: Vec<u64>) -> Netlist
    requires netlist { (n : Circuit) × IsChecked n × HasParts n parts × HasLists n lists }
    requires order { IsOrder parts.gates.items order.items }
    ensures made { (n : Circuit) → HasParts n parts → HasLists n lists → result ≡ n }
{
    let Parts {
        title,
        names,
        gates,
    } = parts;
    let Lists {
        ports,
        inputs,
        outputs,
        targets,
    } = lists;
    Netlist {
        title,
        names,
        ports,
        inputs,
        outputs,
        targets,
        gates,
        order,
    }
}
