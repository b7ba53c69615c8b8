//! Reading netlists, and copying them.

use eco_netlist::{Netlist, TargetRule};
use std::alloc::Global;

/// How many nets the netlist of the text has, if the text is one.
pub fn nets(alloc: Global, text: &[u8]) -> Option<u64> {
    match eco_vread::read(alloc, text, TargetRule::Allowed) {
        Ok(netlist) => {
            let nets = netlist.nets();
            drop(netlist);
            Some(nets)
        }
        Err(error) => {
            drop(error);
            None
        }
    }
}

/// The same, counted in a copy of the netlist.
pub fn copied_nets(alloc: Global, text: &[u8]) -> Option<u64> {
    match eco_vread::read(alloc, text, TargetRule::Allowed) {
        Ok(netlist) => {
            let nets = nets_of_copy(&netlist);
            drop(netlist);
            nets
        }
        Err(error) => {
            drop(error);
            None
        }
    }
}

fn nets_of_copy(netlist: &Netlist) -> Option<u64> {
    match netlist.copy() {
        Ok(copy) => {
            let nets = copy.nets();
            drop(copy);
            Some(nets)
        }
        Err(_) => None,
    }
}
