//! Two gates each, in an order that is not the text's, in a circle, and at constants.

ghost use Rattle.eco_gates.specs.Gates.{IsTermBelow, IsWithin, IsOnceDriven};

use eco_gates::{Arranged, Gate, Kind, NetId, OutOfMemory, Term, arrange, fan_out, fill};
use std::alloc::Global;
use std::test::Fail;

/// The values of three nets, of which the first has this bit, and then the fan-out of that net; None where the gates are
/// a circle.
fn values_of(alloc: Global, gates: &[Gate], bit: bool) -> Result<Option<Vec<bool>>, OutOfMemory>
    requires within { IsWithin 3 gates.now }
    requires once { IsOnceDriven gates.now }
{
    match arrange(alloc, gates, 3)? {
        Arranged::Circle(_) => Ok(None),
        Arranged::Order(order) => {
            let mut values = vec![in alloc; bit, false, false]?;
            fill(gates, order.as_slice(), values.as_mut_slice());
            let reached = fan_out(alloc, gates, order.as_slice(), 3, &[NetId(0)])?;
            values.extend_from_slice(reached.as_slice())?;
            Ok(Some(values))
        }
    }
}

/// The values of net 0, which has this bit, of net 1, which is the first term, and of net 2, which is the complement
/// of the second term, and then the fan-out of net 0; None where the two gates are a circle.
fn outcome(
    alloc: Global,
    first: Term,
    second: Term,
    bit: bool,
) -> Result<Option<Vec<bool>>, OutOfMemory>
    requires first { IsTermBelow 3 first }
    requires second { IsTermBelow 3 second }
{
    let buffer = Gate::new(alloc, Kind::Buf, NetId(1), &[first])?;
    match Gate::new(alloc, Kind::Not, NetId(2), &[second]) {
        Ok(inverter) => {
            let gates = [buffer, inverter];
            let values = values_of(alloc, &gates, bit);
            drop(gates);
            values
        }
        Err(error) => {
            drop(buffer);
            Err(error)
        }
    }
}

/// Whether the outcome is this.
fn is_outcome(
    alloc: Global,
    first: Term,
    second: Term,
    bit: bool,
    expected: Option<&[bool]>,
) -> Result<bool, OutOfMemory>
    requires first { IsTermBelow 3 first }
    requires second { IsTermBelow 3 second }
{
    let found = outcome(alloc, first, second, bit)?;
    let is_same = found.as_ref().map(|values| values.as_slice()) == expected;
    drop(found);
    Ok(is_same)
}

#[test]
fn second_gate_first(rt: HostRuntime) -> Result<(), Fail> {
    let (first, second) = (Term::Net(NetId(2)), Term::Net(NetId(0)));
    let expected = [false, true, true, true, true, true];
    assert!(rt; is_outcome(rt.alloc(), first, second, false, Some(&expected))?);
    Ok(())
}

#[test]
fn constants_and_circle(rt: HostRuntime) -> Result<(), Fail> {
    let expected = [true, true, true, true, false, false];
    assert!(rt; is_outcome(rt.alloc(), Term::One, Term::Zero, true, Some(&expected))?);
    let (first, second) = (Term::Net(NetId(2)), Term::Net(NetId(1)));
    assert!(rt; is_outcome(rt.alloc(), first, second, true, None)?);
    Ok(())
}
