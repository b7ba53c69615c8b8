//! The gates that clauses say.

use crate::classes::Classes;
use crate::signal::Signal;
use eco_meaning::OutOfMemory;
use eco_trace::Lit;
use std::alloc::Global;

/// A gate: its output is the conjunction of the operands from `first` to before `end`, or their exclusive disjunction.
#[derive(Clone, Copy)]
pub(crate) struct Gate {
    pub(crate) is_xor: bool,
    pub(crate) out: Signal,
    pub(crate) first: usize,
    pub(crate) end: usize,
}

/// A clause of two literals.
#[derive(Clone, Copy)]
struct Pair {
    one: Lit,
    other: Lit,
}

impl Pair {
    /// The literal beside this one.
    fn beside(&self, lit: Lit) -> Option<Lit> {
        if self.one == lit {
            return Some(self.other);
        }
        if self.other == lit {
            return Some(self.one);
        }
        None
    }
}

/// A clause of three literals.
#[derive(Clone, Copy)]
struct Triple {
    one: Lit,
    two: Lit,
    three: Lit,
}

impl Triple {
    /// Whether an odd number of literals is positive.
    fn is_odd(&self) -> bool {
        (self.one.positive != self.two.positive) != self.three.positive
    }

    /// Whether the other clause has the same variables, and as the first one an odd or even number of positive literals.
    fn is_akin(&self, other: &Triple) -> bool {
        self.one.var == other.one.var
            && self.two.var == other.two.var
            && self.three.var == other.three.var
            && self.is_odd() == other.is_odd()
    }
}

/// Reads clauses one by one. A gate's clauses stand one behind the other: for a conjunction first those of two literals,
/// one for each operand, then one of all; for an exclusive disjunction four of three literals, in the first two of which
/// the output has one sign, and in the others the other one.
#[derive(Drop)]
pub(crate) struct Reader {
    /// What clauses of two literals say to be the same.
    pub(crate) classes: Classes,
    pub(crate) gates: Vec<Gate>,
    pub(crate) operands: Vec<Signal>,
    /// What clauses of one literal say to be true.
    pub(crate) truth: Option<Signal>,
    pairs: Vec<Pair>,
    triples: Vec<Triple>,
}

impl Reader {
    /// No clause was read.
    pub(crate) fn new(alloc: Global) -> Reader {
        Reader {
            classes: Classes::new(alloc),
            gates: Vec::new(alloc),
            operands: Vec::new(alloc),
            truth: None,
            pairs: Vec::new(alloc),
            triples: Vec::new(alloc),
        }
    }

    /// Forgets all; clauses of so many nodes are read next.
    pub(crate) fn begin(&mut self, nodes: usize) -> Result<(), OutOfMemory> {
        self.gates.clear();
        self.operands.clear();
        self.pairs.clear();
        self.triples.clear();
        self.truth = None;
        self.classes.begin(nodes)
    }

    /// Reads one more clause.
    pub(crate) fn read(&mut self, clause: &[Lit]) -> Result<(), OutOfMemory> {
        match clause {
            [] => Ok(()),
            [lit] => {
                self.read_unit(*lit);
                Ok(())
            }
            [one, other] => self.read_pair(*one, *other),
            _ => self.read_long(clause),
        }
    }

    fn read_unit(&mut self, lit: Lit) {
        let signal = Signal::of(lit);
        match self.truth {
            None => self.truth = Some(signal),
            Some(truth) => self.classes.join(truth, signal),
        }
    }

    /// Two clauses of two literals, where each has the complements of the other's, say that signals are the same.
    fn read_pair(&mut self, one: Lit, other: Lit) -> Result<(), OutOfMemory> {
        self.triples.clear();
        let turned = match self.pairs.last() {
            None => false,
            Some(pair) => pair.one == one.complement() && pair.other == other.complement(),
        };
        if turned {
            self.pairs.clear();
            self.classes
                .join(Signal::of(one), Signal::of(other.complement()));
            return Ok(());
        }
        self.pairs.push(Pair { one, other })?;
        Ok(())
    }

    fn read_long(&mut self, clause: &[Lit]) -> Result<(), OutOfMemory> {
        let out = self.output(clause);
        self.pairs.clear();
        match out {
            Some(out) => {
                self.triples.clear();
                self.add_conjunction(out, clause)
            }
            None => self.read_triple(clause),
        }
    }

    /// The output of the conjunction whose last clause this is.
    fn output(&self, clause: &[Lit]) -> Option<Lit> {
        let operands = clause.len().saturating_sub(1);
        let from = self.pairs.len().checked_sub(operands)?;
        let pairs = self.pairs.as_slice().get(from..)?;
        let first = pairs.first()?;
        let one = first.one.complement();
        let other = first.other.complement();
        if is_output(one, pairs, clause) {
            return Some(one);
        }
        if is_output(other, pairs, clause) {
            return Some(other);
        }
        None
    }

    /// Adds the conjunction whose output and last clause these are.
    fn add_conjunction(&mut self, out: Lit, clause: &[Lit]) -> Result<(), OutOfMemory> {
        let first = self.operands.len();
        for lit in clause {
            if *lit != out {
                self.operands.push(Signal::of(lit.complement()))?;
            }
        }
        self.gates.push(Gate {
            is_xor: false,
            out: Signal::of(out),
            first,
            end: self.operands.len(),
        })?;
        Ok(())
    }

    fn read_triple(&mut self, clause: &[Lit]) -> Result<(), OutOfMemory> {
        if let [one, two, three] = clause {
            self.triples.push(Triple {
                one: *one,
                two: *two,
                three: *three,
            })?;
            if let Some(lits) = last_parity(self.triples.as_slice()) {
                self.triples.clear();
                return self.add_parity(lits);
            }
        }
        Ok(())
    }

    /// Adds the exclusive disjunction with this output and these two operands.
    fn add_parity(&mut self, lits: Triple) -> Result<(), OutOfMemory> {
        let first = self.operands.len();
        self.operands.push(Signal::of(lits.two))?;
        self.operands.push(Signal::of(lits.three))?;
        self.gates.push(Gate {
            is_xor: true,
            out: Signal::of(lits.one),
            first,
            end: self.operands.len(),
        })?;
        Ok(())
    }
}

/// Whether the clauses of two literals say that the output implies operands of the conjunction, whose last clause is given.
fn is_output(out: Lit, pairs: &[Pair], clause: &[Lit]) -> bool {
    if clause.binary_search(&out).is_err() {
        return false;
    }
    for pair in pairs {
        match pair.beside(out.complement()) {
            None => return false,
            Some(operand) => {
                if clause.binary_search(&operand.complement()).is_err() {
                    return false;
                }
            }
        }
    }
    true
}

/// The output and the two operands of the exclusive disjunction whose clauses are the last four.
fn last_parity(triples: &[Triple]) -> Option<Triple> {
    let from = triples.len().checked_sub(4)?;
    match triples.get(from..)? {
        [first, second, third, fourth] => {
            if first.is_akin(second) && first.is_akin(third) && first.is_akin(fourth) {
                parity(first, second, third, fourth)
            } else {
                None
            }
        }
        _ => None,
    }
}

/// The same, where the clauses have the same variables, and all an odd or all an even number of positive literals.
fn parity(first: &Triple, second: &Triple, third: &Triple, fourth: &Triple) -> Option<Triple> {
    let is_odd = first.is_odd();
    if is_turned(first.one, second.one, third.one, fourth.one) {
        return Some(disjunction(is_odd, first.one, first.two, first.three));
    }
    if is_turned(first.two, second.two, third.two, fourth.two) {
        return Some(disjunction(is_odd, first.two, first.one, first.three));
    }
    if is_turned(first.three, second.three, third.three, fourth.three) {
        return Some(disjunction(is_odd, first.three, first.one, first.two));
    }
    None
}

/// Whether the first two literals have one sign, and the others the other one.
fn is_turned(first: Lit, second: Lit, third: Lit, fourth: Lit) -> bool {
    first.positive == second.positive
        && third.positive == fourth.positive
        && first.positive != third.positive
}

/// The output and the operands, where the clauses of these variables have an odd or an even number of positive literals.
fn disjunction(is_odd: bool, out: Lit, one: Lit, other: Lit) -> Triple {
    Triple {
        one: Lit {
            var: out.var,
            positive: !is_odd,
        },
        two: Lit {
            var: one.var,
            positive: true,
        },
        three: Lit {
            var: other.var,
            positive: true,
        },
    }
}
