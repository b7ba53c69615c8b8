//! Gates over the numbers of nets.

ghost use Rattle.std.specs.Prelude.{◌≡◌, IfOk};

use eco_meaning::{Kind, OutOfMemory};
use smallvec::SmallVec;
use std::alloc::Global;
use std::marker::Model;

/// The number of a net.
#[derive(Clone, Copy, PartialEq, Eq, PartialOrd, Ord)]
pub struct NetId(pub u64);

/// What an input of a gate reads: a constant (`1'b0`, `1'b1`) or a net.
#[derive(Clone, Copy, Default, PartialEq, Eq)]
pub enum Term {
    #[default]
    Zero,
    One,
    Net(NetId),
}

/// The inputs of a gate, in order: up to two of them lie in the gate itself.
pub type Terms = SmallVec<Term, 2>;

/// A gate (IEEE 1364-2005, sections 7.2 and 7.3): its kind, the net that it drives, and what its inputs read.
#[derive(Drop)]
pub struct Gate {
    pub kind: Kind,
    pub out: NetId,
    pub ins: Terms,
}

impl Model for Gate {
    ghost use Rattle.eco_gates.specs.GateValue.{GateValue};

    ghost Value = { GateValue };

    ghost view = { λ gate. record {
      kind = gate.kind;
      out = gate.out;
      ins = gate.ins.items;
    } };
}

impl Gate {
    /// The gate of this kind that drives the net `out` and reads these terms.
    pub fn new(alloc: Global, kind: Kind, out: NetId, ins: &[Term]) -> Result<Gate, OutOfMemory>
        ensures value { IfOk result (λ gate. gate ≡ record { kind = kind; out = out; ins = ins.now }) }
    {
        let ins = SmallVec::from_slice(alloc, ins)?;
        Ok(Gate { kind, out, ins })
    }

    /// The same gate again.
    pub fn copy(&self) -> Result<Gate, OutOfMemory>
        ensures same { IfOk result (λ gate. gate ≡ self.now) }
    {
        let ins = SmallVec::from_slice(*self.ins.allocator(), self.ins.as_slice())?;
        Ok(Gate {
            kind: self.kind,
            out: self.out,
            ins,
        })
    }
}
