//! The values of nets at an input.

ghost use Rattle.std.specs.Prelude.{◌≡◌, ◌≢◌, ◌<◌, All, AllPairs, IfOk, false, length};
ghost use Rattle.std.specs.List.{slice_index_or};
ghost use Rattle.eco_netlist.specs.Values.{AreValuesAt, HasInputBits};

use crate::netlist::Netlist;
use eco_gates::NetId;
use eco_meaning::OutOfMemory;
use std::alloc::Global;

impl Netlist {
    /// The values of all nets at the input, in the order of their numbers; targets are 0.
    pub fn values_at(&self, input: &[bool]) -> Result<Vec<bool>, OutOfMemory>
        requires { length input.now ≡ length self.now.inputs }
        ensures { IfOk result (λ values. AreValuesAt self.now input.now values.items) }
    {
        let alloc = *self.ports.allocator();
        let mut values = started(alloc, self.nets() as usize, self.inputs(), input)?;
        self.fill(values.as_mut_slice());
        Ok(values)
    }
}

// A bit for each net: those of the input at the nets of the inputs.
fn started(
    alloc: Global,
    nets: usize,
    inputs: &[NetId],
    input: &[bool],
) -> Result<Vec<bool>, OutOfMemory>
    requires count { length inputs.now ≡ length input.now }
    requires within { All (λ net. net.0 < nets) inputs.now }
    requires apart { AllPairs (λ a b. a.0 ≢ b.0) inputs.now }
    ensures { IfOk result (λ bits. HasInputBits nets inputs.now input.now (length inputs.now) bits.items) }
{
    let mut bits = vec![in alloc; false; nets]?;
    for (place, net) in inputs.iter().enumerate() {
        bits[net.0 as usize] = input[place];
    }
    Ok(bits)
}
