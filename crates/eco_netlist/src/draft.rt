//! Declarations of a module, and the netlist that they stand for.

ghost use Rattle.std.specs.Prelude.{◌≡◌, IfOk, All, map, length};
ghost use Rattle.eco_gates.specs.Gates.{IsTermBelow};
ghost use Rattle.eco_netlist.specs.Drafted.{Extends};
ghost use Rattle.eco_netlist.specs.Netlists.{named_term};
ghost use Rattle.eco_netlist.specs.declared.draft.FinishError.TheVariants.{OutOfMemory};

use crate::names::{NameSet, number};
use crate::refusal::Refusal;
use eco_gates::{Gate, NetId, Term, Terms};
use eco_keyed::Keyed;
use eco_meaning::{Kind, Name, Operand, OutOfMemory};
use indexmap::IndexSet;
use smallvec::SmallVec;
use std::alloc::{AllocError, AllocFailed, Global};
use std::fmt::{self, Debug, Display, Formatter};
use std::marker::Model;
use thiserror::Error;

/// Whether undriven nets of a target's form are targets.
#[derive(Clone, Copy, PartialEq, Eq)]
pub enum TargetRule {
    Allowed,
    Never,
}

/// Declarations over the numbers of their names.
#[derive(Drop)]
pub(crate) struct Declarations {
    pub(crate) title: Name,
    pub(crate) names: NameSet,
    pub(crate) header: Vec<NetId>,
    pub(crate) inputs: Vec<NetId>,
    pub(crate) outputs: Vec<NetId>,
    pub(crate) wires: Vec<NetId>,
    pub(crate) gates: Vec<Gate>,
}

impl Declarations {
    ghost use Rattle.std.specs.Prelude.{◌≡◌, ◌<◌, vec_len};
    ghost use Rattle.eco_gates.specs.Gates.{IsGateWithin};
    ghost use Rattle.eco_meaning.specs.Gates.{FitsKind};
    ghost use Rattle.eco_netlist.specs.Drafted.{declared_of, IsDrafted};
    ghost use Rattle.eco_netlist.specs.Netlists.{name_at, named_gate};

    /// The number of a name. What is declared stays the same.
    fn number(&mut self, name: Name) -> Result<NetId, OutOfMemory>
        requires { IsDrafted self.now }
        ensures drafted { IsDrafted self.new }
        ensures same { declared_of self.new ≡ declared_of self.old }
        ensures named { IfOk result (λ net. name_at self.new.names.keys net.0 ≡ name) }
        ensures within { IfOk result (λ net. net.0 < length self.new.names.keys) }
    {
        number(&mut self.names, name)
    }

    /// A gate over the numbers of its names. What is declared stays the same.
    fn gate(&mut self, kind: Kind, out: Name, terms: Vec<Operand>) -> Result<Gate, OutOfMemory>
        requires drafted { IsDrafted self.now }
        requires fits { FitsKind kind (vec_len terms) }
        ensures drafted { IsDrafted self.new }
        ensures same { declared_of self.new ≡ declared_of self.old }
        ensures named { IfOk result (λ gate. named_gate self.new.names.keys gate ≡ record {
          kind = kind;
          out = out;
          terms = terms.items;
        }) }
        ensures within { IfOk result (IsGateWithin (length self.new.names.keys)) }
    {
        let out = self.number(out)?;
        let ins = numbered_terms(&mut self.names, terms)?;
        Ok(Gate { kind, out, ins })
    }
}

/// The declarations of a module, in the order of the text. Each name is kept once; what is added is judged by `finish`
/// alone.
#[derive(Drop)]
pub struct Draft {
    pub(crate) declarations: Declarations,
}

impl Model for Draft {
    ghost use Rattle.eco_netlist.specs.Draft.{Declared};
    ghost use Rattle.eco_netlist.specs.Drafted.{declared_of, IsDrafted};

    ghost Value = { Declared };

    ghost view = { λ d. declared_of d.declarations };

    ghost invariant = { λ d. IsDrafted d.declarations };
}

impl Draft {
    ghost use Rattle.std.specs.Prelude.{◌≡◌, [], ◌∷◌, ◌++◌, vec_len, OnOk, OnErr};
    ghost use Rattle.eco_meaning.specs.Gates.{FitsKind};

    /// A draft of a module of this name, without declarations. What is added to it is allocated by `alloc`.
    pub fn new(alloc: Global, title: Name) -> Draft
        ensures empty { result ≡ record {
          title = title;
          header = [];
          inputs = [];
          outputs = [];
          wires = [];
          gates = [];
        } }
    {
        Draft::keyed(alloc, title, Keyed::by(b""))
    }

    /// The same for names that a file gives: `keyed` is keyed by the file, since its names could be chosen to fall on one
    /// place of a table whose hash is known beforehand.
    pub fn keyed(alloc: Global, title: Name, keyed: Keyed) -> Draft
        ensures empty { result ≡ record {
          title = title;
          header = [];
          inputs = [];
          outputs = [];
          wires = [];
          gates = [];
        } }
    {
        Draft {
            declarations: Declarations {
                title,
                names: IndexSet::with_hasher(alloc, keyed),
                header: Vec::new(alloc),
                inputs: Vec::new(alloc),
                outputs: Vec::new(alloc),
                wires: Vec::new(alloc),
                gates: Vec::new(alloc),
            },
        }
    }

    /// Adds a name to the module's header (IEEE 1364-2005, section 12.3.1). After an error nothing is added.
    pub fn add_port(&mut self, name: Name) -> Result<(), OutOfMemory>
        ensures ok { OnOk result (self.new ≡ record self.old { header = self.old.header ++ name ∷ [] }) }
        ensures err { OnErr result (self.new ≡ self.old) }
    {
        let net = self.declarations.number(name)?;
        self.declarations.header.push(net)?;
        Ok(())
    }

    /// Declares an input (IEEE 1364-2005, section 12.3.3). After an error nothing is added.
    pub fn add_input(&mut self, name: Name) -> Result<(), OutOfMemory>
        ensures ok { OnOk result (self.new ≡ record self.old { inputs = self.old.inputs ++ name ∷ [] }) }
        ensures err { OnErr result (self.new ≡ self.old) }
    {
        let net = self.declarations.number(name)?;
        self.declarations.inputs.push(net)?;
        Ok(())
    }

    /// Declares an output (IEEE 1364-2005, section 12.3.3). After an error nothing is added.
    pub fn add_output(&mut self, name: Name) -> Result<(), OutOfMemory>
        ensures ok { OnOk result (self.new ≡ record self.old { outputs = self.old.outputs ++ name ∷ [] }) }
        ensures err { OnErr result (self.new ≡ self.old) }
    {
        let net = self.declarations.number(name)?;
        self.declarations.outputs.push(net)?;
        Ok(())
    }

    /// Declares a wire (IEEE 1364-2005, section 4.2). After an error nothing is added.
    pub fn add_wire(&mut self, name: Name) -> Result<(), OutOfMemory>
        ensures ok { OnOk result (self.new ≡ record self.old { wires = self.old.wires ++ name ∷ [] }) }
        ensures err { OnErr result (self.new ≡ self.old) }
    {
        let net = self.declarations.number(name)?;
        self.declarations.wires.push(net)?;
        Ok(())
    }

    /// Adds a gate: its kind, the net that it drives, and what its inputs read (IEEE 1364-2005, section 7.1).
    /// After an error nothing is added.
    pub fn add_gate(
        &mut self,
        kind: Kind,
        out: Name,
        terms: Vec<Operand>,
    ) -> Result<(), OutOfMemory>
        requires { FitsKind kind (vec_len terms) }
        ensures ok { OnOk result (self.new ≡ record self.old {
          gates = self.old.gates ++ record { kind = kind; out = out; terms = terms.items } ∷ [];
        }) }
        ensures err { OnErr result (self.new ≡ self.old) }
    {
        let gate = self.declarations.gate(kind, out, terms)?;
        self.declarations.gates.push(gate)?;
        Ok(())
    }
}

/// What an input of a gate reads, by number.
fn numbered_term(names: &mut NameSet, term: Operand) -> Result<Term, OutOfMemory>
    ensures grown { Extends names.old.keys names.new.keys }
    ensures named { IfOk result (λ numbered. named_term names.new.keys numbered ≡ term) }
    ensures within { IfOk result (IsTermBelow (length names.new.keys)) }
{
    match term {
        Operand::Zero => Ok(Term::Zero),
        Operand::One => Ok(Term::One),
        Operand::Named(name) => Ok(Term::Net(number(names, name)?)),
    }
}

/// What the inputs of a gate read, by number.
fn numbered_terms(names: &mut NameSet, terms: Vec<Operand>) -> Result<Terms, OutOfMemory>
    ensures grown { Extends names.old.keys names.new.keys }
    ensures named { IfOk result (λ ins. map (named_term names.new.keys) ins.items ≡ terms.items) }
    ensures within { IfOk result (λ ins. All (IsTermBelow (length names.new.keys)) ins.items) }
{
    let mut ins = SmallVec::new(*terms.allocator());
    for term in terms {
        ins.push(numbered_term(names, term)?)?;
    }
    Ok(ins)
}

/// Why a draft gives no netlist.
#[derive(Drop, Error)]
pub enum FinishError {
    /// The declarations have an error.
    #[error("the declarations have an error")]
    Refused(Refusal),
    /// Memory could not be had.
    #[error("out of memory")]
    OutOfMemory,
}

/// As it is displayed.
impl Debug for FinishError {
    fn fmt<W: fmt::Write>(&self, f: &mut Formatter<W>) -> fmt::Result {
        Display::fmt(self, f)
    }
}

impl From<OutOfMemory> for FinishError {
    ghost from_gives = { λ _ e. e ≡ OutOfMemory };

    fn from(_error: OutOfMemory) -> FinishError {
        FinishError::OutOfMemory
    }
}

impl From<AllocError> for FinishError {
    ghost from_gives = { λ _ e. e ≡ OutOfMemory };

    fn from(_error: AllocError) -> FinishError {
        FinishError::OutOfMemory
    }
}

impl<T: Drop> From<AllocFailed<T>> for FinishError {
    ghost from_gives = { λ _ e. e ≡ OutOfMemory };

    fn from(_error: AllocFailed<T>) -> FinishError {
        FinishError::OutOfMemory
    }
}
