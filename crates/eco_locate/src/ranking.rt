//! Choices with their figures.

ghost use Rattle.std.specs.Prelude.{◌≡◌, IfOk, length, map};
ghost use Rattle.eco_meaning.specs.Circuit.{names};
ghost use Rattle.eco_gates.specs.Gates.{IsWithin};
ghost use Rattle.eco_gates.specs.Walk.{AreDriversBelow};
ghost use Rattle.eco_netlist.specs.Netlists.{AreNets};

use crate::cone::{cone_of, drivers_of, new_cone};
use crate::readers::{Reads, reads_of};
use eco_meaning::{Name, OutOfMemory};
use eco_netlist::{NetId, Netlist};
use std::alloc::Global;

/// A choice, with the gates in its fan-in cone and how often it is read.
#[derive(Clone, Copy)]
pub struct Ranked {
    pub net: NetId,
    /// How many gates there are in the net's fan-in cone, with the one that drives it.
    pub cone: u64,
    /// How many gates read the net, and one more for each output port that it is.
    pub readers: u64,
}

/// A choice beside its name.
#[derive(Clone, Copy)]
pub(crate) struct Entry<'f> {
    pub(crate) name: &'f Name,
    pub(crate) ranked: Ranked,
}

/// The nets with their names and figures, in the order of the list.
pub(crate) fn entries_of<'f>(
    alloc: Global,
    f: &'f Netlist,
    nets: &[NetId],
) -> Result<Vec<Entry<'f>>, OutOfMemory>
    requires { AreNets (names f.now) nets.now }
    ensures { IfOk result (λ entries. map (λ e. e.ranked.net) entries.items ≡ nets.now) }
{
    let drivers = drivers_of(alloc, f.gates(), f.nets() as usize)?;
    let reads = reads_of(alloc, f)?;
    entries_by(alloc, f, nets, drivers.as_slice(), reads.as_slice())
}

/// The same by the gates that drive the nets, and by how often each net is read.
fn entries_by<'f>(
    alloc: Global,
    f: &'f Netlist,
    nets: &[NetId],
    drivers: &[Option<u64>],
    reads: &[Reads],
) -> Result<Vec<Entry<'f>>, OutOfMemory>
    requires within { AreNets (names f.now) nets.now }
    requires length { length drivers.now ≡ length (names f.now) }
    requires below { AreDriversBelow (length f.now.gates) drivers.now }
    requires reads { length reads.now ≡ length (names f.now) }
    ensures { IfOk result (λ entries. map (λ e. e.ranked.net) entries.items ≡ nets.now) }
{
    let gates = f.gates();
    let mut cone = new_cone(alloc, gates.len())?;
    let mut entries = Vec::new(alloc);
    for net in nets {
        let ranked = Ranked {
            net: *net,
            cone: cone_of(&mut cone, gates, drivers, *net)?,
            readers: reads[net.0 as usize].count,
        };
        entries.push(Entry {
            name: f.name_of(*net),
            ranked,
        })?;
    }
    Ok(entries)
}
