//! Patches in which what is equal stands once.

use crate::cases::{SYNTH, ended_over, store_of};
use crate::simulated::words_of;
use eco_netlist::{Kind, Netlist, TargetRule};
use eco_outside::MemStore;
use std::process::Abort;
use std::test::Fail;

/// Two targets that want one parity of four inputs, of which the specification counts the inputs in two orders.
const IMPLEMENTATION: &str =
    "module f (a, b, c, d, y, z); input a, b, c, d; output y, z; buf (y, t_0); buf (z, t_1); endmodule";

const SPECIFICATION: &str =
    "module g (a, b, c, d, y, z); input a, b, c, d; output y, z; xor (y, a, b, c, d); xor (z, d, c, b, a); endmodule";

/// The text of the patch that is written.
fn patch_text(rt: &(impl Abort + AllocGlobal)) -> Result<Vec<u8>, Fail> {
    let files = [
        ("f.v", IMPLEMENTATION.as_bytes()),
        ("g.v", SPECIFICATION.as_bytes()),
        ("w.txt", "".as_bytes()),
    ];
    let mut store = store_of(rt, &files, None)?;
    let text = written_text(rt, &mut store);
    drop(store);
    text
}

fn written_text(rt: &(impl Abort + AllocGlobal), store: &mut MemStore) -> Result<Vec<u8>, Fail> {
    let ended = ended_over(rt.alloc(), &SYNTH, &[], store)?;
    assert_eq!(rt; ended.status, 0);
    drop(ended);
    Ok(store.get("p.v").unwrap_or(b"").to_vec(rt.alloc())?)
}

fn patch(rt: &(impl Abort + AllocGlobal)) -> Result<Netlist, Fail> {
    let text = patch_text(rt)?;
    Ok(eco_vread::read(rt.alloc(), text.as_slice(), TargetRule::Never)?)
}

/// The values of what the patch's gates give, but for copies and complements.
fn gate_words(rt: &(impl Abort + AllocGlobal), patch: &Netlist) -> Result<Vec<u64>, Fail> {
    let words = words_of(rt, patch, 0)?;
    let mut found = Vec::new(rt.alloc());
    for gate in patch.gates() {
        if !matches!(gate.kind, Kind::Buf | Kind::Not) {
            found.push(words.get(gate.out.0 as usize).copied().unwrap_or(0))?;
        }
    }
    Ok(found)
}

/// Whether two gates are equal or complementary.
fn are_alike(one: u64, other: u64) -> bool {
    one == other || one == !other
}

/// Whether the word is constant, or like one of these.
fn is_needless(word: u64, others: &[u64]) -> bool {
    are_alike(word, 0) || others.iter().any(|other| are_alike(word, *other))
}

fn try_patch(rt: &(impl Abort + AllocGlobal), patch: &Netlist) -> Result<(), Fail> {
    assert_eq!(rt; patch.inputs().len(), 4);
    let words = gate_words(rt, patch)?;
    assert!(rt; !words.is_empty());
    for (place, word) in words.iter().enumerate() {
        let others = words.as_slice().get(..place).unwrap_or(&[]);
        assert!(rt; !is_needless(*word, others), "gate {place}");
    }
    Ok(())
}

#[test]
fn no_gate_of_a_patch_is_needless(rt: HostRuntime) -> Result<(), Fail> {
    let patch = patch(&rt)?;
    let held = try_patch(&rt, &patch);
    drop(patch);
    held
}
