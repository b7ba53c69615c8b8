//! The clauses of a conjunction.

ghost use Rattle.eco_aig.specs.Graph.{IsEdge};

use crate::edges::and;
use crate::numbers::numbers_of;
use eco_aig::{Aig, Edge, OutOfMemory};
use eco_trace::{Cnf, Var};
use eco_tseitin::Encoder;
use std::alloc::Global;
use std::test::Fail;

/// Adds the clauses that ask for the edge's bit to be 1.
fn ask(encoder: &mut Encoder, aig: &Aig, edge: Edge) -> Result<(), OutOfMemory>
    requires { IsEdge aig.now edge }
{
    let literal = encoder.encode(aig, edge)?;
    encoder.assert_lit(literal)
}

/// The clauses that ask for the edge's bit to be 1, and the variables of the nodes 0 and 1; None where the edge is of no
/// node of the graph.
fn encoded(
    alloc: Global,
    aig: &Aig,
    edge: Edge,
) -> Result<Option<(Cnf, Option<Var>, Option<Var>)>, OutOfMemory> {
    if edge.node() >= aig.nodes() {
        return Ok(None);
    }
    let mut encoder = Encoder::new(alloc);
    match ask(&mut encoder, aig, edge) {
        Ok(()) => {
            let constant = encoder.var_of(0);
            let first = encoder.var_of(1);
            Ok(Some((encoder.finish(), constant, first)))
        }
        Err(error) => {
            drop(encoder);
            Err(error)
        }
    }
}

/// The clauses that ask for the conjunction of two new inputs.
fn conjunction(
    alloc: Global,
    aig: &mut Aig,
) -> Result<Option<(Cnf, Option<Var>, Option<Var>)>, OutOfMemory> {
    let first = aig.input()?;
    let second = aig.input()?;
    let both = and(aig, first, second)?;
    encoded(alloc, aig, both)
}

/// Whether the clauses and the variables are these.
fn is_expected(alloc: Global, made: &(Cnf, Option<Var>, Option<Var>)) -> Result<bool, Fail> {
    let expected = [-1, 2, 0, -1, 3, 0, 1, -2, -3, 0, 1, 0];
    let numbers = numbers_of(alloc, &made.0)?;
    let has_variables = (made.0.vars() == 3) & made.1.is_none() & (made.2 == Some(Var(2)));
    Ok(has_variables & (numbers.as_slice() == expected.as_slice()))
}

#[test]
fn clauses_of_a_conjunction(rt: HostRuntime) -> Result<(), Fail> {
    let mut aig = Aig::new(rt.alloc())?;
    let made = conjunction(rt.alloc(), &mut aig);
    drop(aig);
    let is_right = match &made {
        Ok(Some(made)) => is_expected(rt.alloc(), made),
        _ => Ok(false),
    };
    drop(made);
    assert!(rt; is_right?);
    Ok(())
}
