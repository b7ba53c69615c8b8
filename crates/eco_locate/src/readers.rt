//! How often nets are read.

ghost use Rattle.std.specs.Prelude.{◌≡◌, ◌<◌, IfOk, All, length};
ghost use Rattle.eco_meaning.specs.Circuit.{names};
ghost use Rattle.eco_gates.specs.Gates.{IsTermBelow, IsWithin};

use eco_meaning::OutOfMemory;
use eco_netlist::{Gate, NetId, Netlist, Term};
use std::alloc::Global;

/// How often a net is read, and the number of the gate that reads it and was counted last.
#[derive(Clone, Copy)]
pub(crate) struct Reads {
    pub(crate) count: u64,
    last: Option<u64>,
}

impl Reads {
    /// The count with this gate, which is counted once.
    fn with_gate(self, number: u64) -> Reads {
        if self.last == Some(number) {
            return self;
        }
        Reads {
            count: self.count.saturating_add(1),
            last: Some(number),
        }
    }

    /// The count with an output port.
    fn with_port(self) -> Reads {
        Reads {
            count: self.count.saturating_add(1),
            last: self.last,
        }
    }
}

/// For each net how many gates read it, and one more for each output port that it is.
pub(crate) fn reads_of(alloc: Global, f: &Netlist) -> Result<Vec<Reads>, OutOfMemory>
    ensures { IfOk result (λ reads. length reads.items ≡ length (names f.now)) }
{
    let none = Reads {
        count: 0,
        last: None,
    };
    let mut reads = vec![in alloc; none; f.nets() as usize]?;
    note_gates(reads.as_mut_slice(), f.gates());
    note_ports(reads.as_mut_slice(), f.outputs());
    Ok(reads)
}

/// Counts what the gates read.
fn note_gates(reads: &mut [Reads], gates: &[Gate])
    requires { IsWithin (length reads.old) gates.now }
    ensures { length reads.new ≡ length reads.old }
{
    for number in 0..gates.len() {
        let gate = &gates[number];
        note_terms(reads, gate.ins.as_slice(), number as u64);
    }
}

/// Counts what the inputs of the gate of this number read.
fn note_terms(reads: &mut [Reads], terms: &[Term], number: u64)
    requires { All (IsTermBelow (length reads.old)) terms.now }
    ensures { length reads.new ≡ length reads.old }
{
    for term in terms {
        note_term(reads, *term, number);
    }
}

/// Counts what an input of the gate of this number reads.
fn note_term(reads: &mut [Reads], term: Term, number: u64)
    requires { IsTermBelow (length reads.old) term }
    ensures { length reads.new ≡ length reads.old }
{
    match term {
        Term::Zero | Term::One => {}
        Term::Net(net) => {
            let index = net.0 as usize;
            reads[index] = reads[index].with_gate(number);
        }
    }
}

/// Counts the output ports.
fn note_ports(reads: &mut [Reads], outputs: &[NetId])
    requires { All (λ net. net.0 < length reads.old) outputs.now }
    ensures { length reads.new ≡ length reads.old }
{
    for net in outputs {
        let index = net.0 as usize;
        reads[index] = reads[index].with_port();
    }
}
