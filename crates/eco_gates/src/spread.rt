//! Numbers of nets, spread along the gates.

ghost use Rattle.std.specs.Prelude.{◌≡◌, ◌<◌, All, length};
ghost use Rattle.eco_gates.specs.Gates.{IsGateWithin, IsTermBelow, IsWithin};
ghost use Rattle.eco_gates.specs.Ordering.{IsOrder};
ghost use Rattle.eco_gates.specs.Spread.{AreGreatest, AreLeast, AreLowered, IsGreatestRead, lowered_by, number_at, term_number};

use crate::gate::{Gate, Term};

/// Gives each net the greatest number of the nets in whose fan-out it lies, itself among them. It takes time linear in
/// the number of inputs of gates.
pub fn spread_greatest(gates: &[Gate], order: &[u64], numbers: &mut [u64])
    requires within { IsWithin (length numbers.old) gates.now }
    requires order { IsOrder gates.now order.now }
    ensures { AreGreatest gates.now numbers.old numbers.new }
{
    for number in order {
        let gate = &gates[*number as usize];
        let greatest = greatest_at(gate, numbers);
        numbers[gate.out.0 as usize] = greatest;
    }
}

/// The greatest number of the net that the gate drives and of those that it reads.
fn greatest_at(gate: &Gate, numbers: &[u64]) -> u64
    requires { IsGateWithin (length numbers.now) gate.now }
    ensures { IsGreatestRead numbers.now (number_at numbers.now gate.now.out) gate.now.ins (length gate.now.ins) result }
{
    greatest_read(numbers[gate.out.0 as usize], gate.ins.as_slice(), numbers)
}

/// The greatest of the number and of those of the nets that the terms read.
fn greatest_read(own: u64, terms: &[Term], numbers: &[u64]) -> u64
    requires { All (IsTermBelow (length numbers.now)) terms.now }
    ensures { IsGreatestRead numbers.now own terms.now (length terms.now) result }
{
    let mut greatest = own;
    for term in terms {
        greatest = greatest.max(number_of(*term, numbers));
    }
    greatest
}

/// The number of the net that the term reads, and 0 for a constant.
fn number_of(term: Term, numbers: &[u64]) -> u64
    requires { IsTermBelow (length numbers.now) term }
    ensures { result ≡ term_number numbers.now term }
{
    match term {
        Term::Zero | Term::One => 0,
        Term::Net(net) => numbers[net.0 as usize],
    }
}

/// Gives each net the least number of the nets in its fan-out, itself among them. It takes time linear in the number of
/// inputs of gates.
pub fn spread_least(gates: &[Gate], order: &[u64], numbers: &mut [u64])
    requires within { IsWithin (length numbers.old) gates.now }
    requires order { IsOrder gates.now order.now }
    ensures { AreLeast gates.now numbers.old numbers.new }
{
    for place in (0..order.len()).rev() {
        let gate = &gates[order[place] as usize];
        lower_inputs(gate, numbers);
    }
}

/// Lowers the numbers of the nets that the gate reads to that of the net that it drives where they are greater.
fn lower_inputs(gate: &Gate, numbers: &mut [u64])
    requires { IsGateWithin (length numbers.old) gate.now }
    ensures { AreLowered gate.now.ins (length gate.now.ins) (number_at numbers.old gate.now.out) numbers.old numbers.new }
{
    let most = numbers[gate.out.0 as usize];
    lower_read(gate.ins.as_slice(), most, numbers);
}

/// Lowers the numbers of the nets that the terms read to this one where they are greater.
fn lower_read(terms: &[Term], most: u64, numbers: &mut [u64])
    requires { All (IsTermBelow (length numbers.old)) terms.now }
    ensures { AreLowered terms.now (length terms.now) most numbers.old numbers.new }
{
    for term in terms {
        lower(*term, most, numbers);
    }
}

/// Lowers the number of the net that the term reads to this one where it is greater.
fn lower(term: Term, most: u64, numbers: &mut [u64])
    requires { IsTermBelow (length numbers.old) term }
    ensures { numbers.new ≡ lowered_by most numbers.old term }
{
    match term {
        Term::Zero | Term::One => {}
        Term::Net(net) => {
            let number = numbers[net.0 as usize];
            numbers[net.0 as usize] = number.min(most);
        }
    }
}
