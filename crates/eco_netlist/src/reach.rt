//! The fan-out of nets.

use crate::netlist::Netlist;
use eco_gates::{NetId, fan_out};
use eco_meaning::OutOfMemory;

impl Netlist {
    ghost use Rattle.std.specs.Prelude.{◌≡◌, ◌↔◌, ℕ, List, IfOk, Any, Some, true, length, slice_get};
    ghost use Rattle.eco_meaning.specs.Circuit.{names, Fan};
    ghost use Rattle.eco_netlist.specs.Netlists.{AreNets, names_at};

    /// One bit for each net: whether it lies in the fan-out of one of the nets `from`. For no nets all bits are false.
    pub fn fan_out(&self, from: &[NetId]) -> Result<Vec<bool>, OutOfMemory>
        requires { AreNets (names self.now) from.now }
        ensures length { IfOk result (λ marks. length marks.items ≡ length (names self.now)) }
        ensures fan_out { IfOk result (λ marks. (net : ℕ) (name : List ℕ) → slice_get (names self.now) net ≡ Some name →
            (slice_get marks.items net ≡ Some true)
            ↔ Any (λ source. Fan self.now source name) (names_at (names self.now) from.now)) }
    {
        let alloc = *self.ports.allocator();
        let marks = fan_out(
            alloc,
            self.gates.as_slice(),
            self.order.as_slice(),
            self.names.len(),
            from,
        )?;
        Ok(marks)
    }
}
