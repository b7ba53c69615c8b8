//! Nets that are sifted at an input.

ghost use Rattle.std.specs.Prelude.{◌≡◌, ◌<◌, ◌≤◌, ◌++◌, ℕ, List, IfOk, OnOk, length, not};
ghost use Rattle.eco_meaning.specs.Circuit.{names, IsTarget};
ghost use Rattle.eco_netlist.specs.Netlists.{AreNets};
ghost use Rattle.eco_gates.specs.Words.{is_set};
ghost use Rattle.eco_lanes.specs.Mended.{AreSifted, chosen};

use crate::mending::mended;
use eco_meaning::OutOfMemory;
use eco_netlist::{NetId, Netlist};
use std::alloc::Global;

/// Nets in two lists: left are those that make all outputs as wanted if they are turned, and taken are the others.
#[derive(Drop)]
pub struct Sifted {
    pub left: Vec<NetId>,
    pub taken: Vec<NetId>,
}

/// Sifts the nets at the input, 64 at a time. The netlist has no targets.
pub fn sift(
    alloc: Global,
    f: &Netlist,
    input: &[bool],
    wanted: &[bool],
    nets: &[NetId],
) -> Result<Sifted, OutOfMemory>
    requires closed { (name : List ℕ) → IsTarget f.now name → ⊥ }
    requires input { length input.now ≡ length f.now.inputs }
    requires wanted { length wanted.now ≡ length f.now.outputs }
    requires within { AreNets (names f.now) nets.now }
    ensures { IfOk result (λ sifted. AreSifted f.now input.now wanted.now nets.now sifted.left.items sifted.taken.items) }
{
    let mut sifted = Sifted {
        left: Vec::new(alloc),
        taken: Vec::new(alloc),
    };
    let mut rest = nets;
    while !rest.is_empty() {
        let (batch, behind) = rest.split_at(rest.len().min(64));
        let word = mended(alloc, f, input, wanted, batch)?;
        part(word, batch, &mut sifted)?;
        rest = behind;
    }
    Ok(sifted)
}

/// Puts each net of the batch behind those that are left or taken, as its bit of the word tells.
fn part(word: u64, batch: &[NetId], sifted: &mut Sifted) -> Result<(), OutOfMemory>
    requires few { length batch.now ≤ 64 }
    ensures left { OnOk result (sifted.new.left.items ≡ sifted.old.left.items ++ chosen (is_set word) 0 batch.now) }
    ensures taken { OnOk result (sifted.new.taken.items ≡
        sifted.old.taken.items ++ chosen (λ place. not (is_set word place)) 0 batch.now) }
{
    for (place, net) in batch.iter().enumerate() {
        if is_one(word, place) {
            sifted.left.push(*net)?;
        } else {
            sifted.taken.push(*net)?;
        }
    }
    Ok(())
}

/// Whether the bit of the word at the place is 1.
fn is_one(word: u64, place: usize) -> bool
    requires { place < 64 }
    ensures { result ≡ is_set word place }
{
    word >> place & 1 == 1
}
