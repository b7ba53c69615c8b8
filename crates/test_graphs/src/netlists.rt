//! The netlists that examples are made of.

use eco_netlist::Netlist;
use eco_vread::{ReadError, TargetRule, read};
use std::alloc::Global;
use std::test::Fail;

/// The netlist of a text of Verilog.
pub(crate) fn netlist(alloc: Global, text: &[u8]) -> Result<Netlist, ReadError> {
    read(alloc, text, TargetRule::Allowed)
}

/// The netlists of texts of Verilog.
pub(crate) fn netlists(alloc: Global, texts: &[&[u8]]) -> Result<Vec<Netlist>, Fail> {
    let mut netlists = Vec::new(alloc);
    for text in texts {
        netlists.push(netlist(alloc, text)?)?;
    }
    Ok(netlists)
}
