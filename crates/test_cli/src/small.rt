//! Small functions, and how many gates their patches have at most. The numbers are reckoned by hand: gates may have any number of
//! inputs, and each output of the implementation is a target.

use crate::cases::{SYNTH, ended_over, store_of};
use crate::simulated::words_of;
use eco_netlist::{Netlist, TargetRule};
use eco_outside::MemStore;
use std::process::Abort;
use std::test::Fail;

/// An implementation whose outputs are targets, what they have to be, and the number of gates that a patch needs at most.
struct Row {
    name: &'static str,
    implementation: &'static str,
    specification: &'static str,
    /// How many blocks of 64 inputs there are.
    blocks: u64,
    gates: usize,
}

const ROWS: [Row; 8] = [
    Row {
        name: "a conjunction of three",
        implementation: "module f (a, b, c, y); input a, b, c; output y; buf (y, t_0); endmodule",
        specification: "module g (a, b, c, y); input a, b, c; output y; and (w, a, b); and (y, w, c); endmodule",
        blocks: 1,
        gates: 1,
    },
    Row {
        name: "neither of four",
        implementation: "module f (a, b, c, d, y); input a, b, c, d; output y; buf (y, t_0); endmodule",
        specification: "module g (a, b, c, d, y); input a, b, c, d; output y; or (v, a, b); or (w, c, d); nor (y, v, w); endmodule",
        blocks: 1,
        gates: 1,
    },
    Row {
        name: "the majority of three",
        implementation: "module f (a, b, c, y); input a, b, c; output y; buf (y, t_0); endmodule",
        specification: "module g (a, b, c, y); input a, b, c; output y; and (u, a, b); and (v, a, c); and (w, b, c); or (y, u, v, w); endmodule",
        blocks: 1,
        gates: 4,
    },
    Row {
        name: "one of two by a third",
        implementation: "module f (s, a, b, y); input s, a, b; output y; buf (y, t_0); endmodule",
        specification: "module g (s, a, b, y); input s, a, b; output y; not (r, s); and (v, s, a); and (w, r, b); or (y, v, w); endmodule",
        blocks: 1,
        gates: 4,
    },
    Row {
        name: "the parity of eight",
        implementation: "module f (a, b, c, d, e, i, j, k, y); input a, b, c, d, e, i, j, k; output y; buf (y, t_0); endmodule",
        specification: "module g (a, b, c, d, e, i, j, k, y); input a, b, c, d, e, i, j, k; output y; xor (v, a, b, c, d); xor (w, e, i, j, k); xor (y, v, w); endmodule",
        blocks: 4,
        gates: 1,
    },
    Row {
        name: "two parities that are one",
        implementation: "module f (a, b, c, d, y, z); input a, b, c, d; output y, z; buf (y, t_0); buf (z, t_1); endmodule",
        specification: "module g (a, b, c, d, y, z); input a, b, c, d; output y, z; xor (y, a, b, c, d); xor (z, d, c, b, a); endmodule",
        blocks: 1,
        gates: 2,
    },
    Row {
        name: "the sum and the carry of three",
        implementation: "module f (a, b, c, s, d); input a, b, c; output s, d; buf (s, t_0); buf (d, t_1); endmodule",
        specification: "module g (a, b, c, s, d); input a, b, c; output s, d; xor (s, a, b, c); and (u, a, b); and (v, a, c); and (w, b, c); or (d, u, v, w); endmodule",
        blocks: 1,
        gates: 5,
    },
    Row {
        name: "whether two numbers of four bits are equal",
        implementation: "module f (a, b, c, d, e, i, j, k, y); input a, b, c, d, e, i, j, k; output y; buf (y, t_0); endmodule",
        specification: "module g (a, b, c, d, e, i, j, k, y); input a, b, c, d, e, i, j, k; output y; xnor (u, a, e); xnor (v, b, i); xnor (w, c, j); xnor (x, d, k); and (y, u, v, w, x); endmodule",
        blocks: 4,
        gates: 5,
    },
];

fn netlist(rt: &(impl Abort + AllocGlobal), text: &[u8]) -> Result<Netlist, Fail> {
    Ok(eco_vread::read(rt.alloc(), text, TargetRule::Never)?)
}

/// The texts of the patch and of the patched netlist that are written.
fn written(
    rt: &(impl Abort + AllocGlobal),
    name: &str,
    store: &mut MemStore,
) -> Result<(Vec<u8>, Vec<u8>), Fail> {
    let ended = ended_over(rt.alloc(), &SYNTH, &[], store)?;
    assert_eq!(rt; ended.status, 0, "{name}");
    drop(ended);
    let patch = store.get("p.v").unwrap_or(b"").to_vec(rt.alloc())?;
    let patched = store.get("o.v").unwrap_or(b"").to_vec(rt.alloc())?;
    Ok((patch, patched))
}

fn texts_of(rt: &(impl Abort + AllocGlobal), row: &Row) -> Result<(Vec<u8>, Vec<u8>), Fail> {
    let files = [
        ("f.v", row.implementation.as_bytes()),
        ("g.v", row.specification.as_bytes()),
        ("w.txt", "".as_bytes()),
    ];
    let mut store = store_of(rt, &files, None)?;
    let texts = written(rt, row.name, &mut store);
    drop(store);
    texts
}

/// The number of gates of a netlist.
fn gates_of(rt: &(impl Abort + AllocGlobal), text: &[u8]) -> Result<usize, Fail> {
    let patch = netlist(rt, text)?;
    let gates = patch.gates().len();
    drop(patch);
    Ok(gates)
}

/// The values of the outputs in the rows of a block, output by output.
fn outputs_at(
    rt: &(impl Abort + AllocGlobal),
    netlist: &Netlist,
    block: u64,
) -> Result<Vec<u64>, Fail> {
    let words = words_of(rt, netlist, block)?;
    let mut outputs = Vec::new(rt.alloc());
    for net in netlist.outputs() {
        outputs.push(words.get(net.0 as usize).copied().unwrap_or(0))?;
    }
    Ok(outputs)
}

/// The values of all outputs at all inputs.
fn outputs_of(
    rt: &(impl Abort + AllocGlobal),
    text: &[u8],
    blocks: u64,
) -> Result<Vec<Vec<u64>>, Fail> {
    let netlist = netlist(rt, text)?;
    let outputs = all_outputs(rt, &netlist, blocks);
    drop(netlist);
    outputs
}

fn all_outputs(
    rt: &(impl Abort + AllocGlobal),
    netlist: &Netlist,
    blocks: u64,
) -> Result<Vec<Vec<u64>>, Fail> {
    let mut all = Vec::new(rt.alloc());
    for block in 0..blocks {
        all.push(outputs_at(rt, netlist, block)?)?;
    }
    Ok(all)
}

fn try_row(rt: &(impl Abort + AllocGlobal), row: &Row) -> Result<(), Fail> {
    let (patch, patched) = texts_of(rt, row)?;
    let gates = gates_of(rt, patch.as_slice())?;
    let found = outputs_of(rt, patched.as_slice(), row.blocks)?;
    let wanted = outputs_of(rt, row.specification.as_bytes(), row.blocks)?;
    assert_eq!(rt; found, wanted, "{}", row.name);
    assert!(rt; gates <= row.gates, "{}: {gates} gates", row.name);
    Ok(())
}

#[test]
fn small_functions_have_small_patches(rt: HostRuntime) -> Result<(), Fail> {
    for row in &ROWS {
        try_row(&rt, row)?;
    }
    Ok(())
}
