//! What may stand in place of a node, by the patterns: an edge, or some new gates.

use crate::divisors::Divisor;
use crate::emitting::Replacement;
use crate::network::Network;
use crate::observing::{Wanted, edge_value};
use crate::signature::Signature;
use eco_aig::Edge;
use eco_meaning::OutOfMemory;
use eco_simulate::mask_of;
use std::alloc::Global;

/// How many edges are tried as one operand of a conjunction.
const COVERING: usize = 200;

/// How many of the divisors are tried as operands of an exclusive disjunction.
const APART: usize = 160;

/// What may be read, and its values.
#[derive(Clone, Copy)]
pub(crate) struct Field<'f> {
    pub(crate) alloc: Global,
    pub(crate) network: &'f Network,
    pub(crate) values: &'f [Signature],
    pub(crate) divisors: &'f [Divisor],
    /// The node that is to be replaced.
    pub(crate) node: usize,
}

/// An edge that may be read. So many of the gates that would die stay for it at most.
#[derive(Clone, Copy)]
struct Operand {
    edge: Edge,
    cost: usize,
}

/// The gate at the root of new ones, and its first operand.
#[derive(Clone, Copy)]
struct First {
    operand: Operand,
    is_xor: bool,
    /// Whether it is the complement that is a conjunction.
    is_turned: bool,
}

/// What has been found, and how much has been done for it.
#[derive(Drop)]
pub(crate) struct Finding {
    pub(crate) replacement: Replacement,
    /// How many pairs of edges were looked at, nearly.
    pub(crate) work: u64,
}

impl Finding {
    /// Nothing yet.
    pub(crate) fn new(alloc: Global) -> Finding {
        Finding {
            replacement: Replacement::new(alloc),
            work: 0,
        }
    }

    /// Counts what has been done.
    pub(crate) fn count(&mut self, amount: usize) {
        self.work = self.work.saturating_add(amount as u64);
    }

    /// A constant or an edge that may stand in place of the node. Answers whether there is one.
    pub(crate) fn edge(&mut self, field: &Field, wanted: &Wanted, spare: usize) -> bool {
        self.count(field.divisors.len());
        match constant(wanted) {
            Some(edge) => {
                self.replacement.begin(field.node, edge);
                true
            }
            None => self.literal(field, wanted, spare),
        }
    }

    /// An edge that may stand in place of the node. Answers whether there is one.
    fn literal(&mut self, field: &Field, wanted: &Wanted, spare: usize) -> bool {
        match literal(field, field.divisors, wanted, spare) {
            None => false,
            Some(edge) => {
                self.replacement.begin(field.node, edge);
                true
            }
        }
    }

    /// One gate that may stand in place of the node. Answers whether there is one.
    pub(crate) fn one_gate(
        &mut self,
        field: &Field,
        wanted: &Wanted,
        spare: usize,
    ) -> Result<bool, OutOfMemory> {
        if self.conjunction(field, wanted, spare)? {
            return Ok(true);
        }
        if self.conjunction(field, &wanted.turned(), spare)? {
            self.replacement.turn();
            return Ok(true);
        }
        self.exclusive(field, wanted, spare)
    }

    /// The conjunction of two edges.
    fn conjunction(
        &mut self,
        field: &Field,
        wanted: &Wanted,
        spare: usize,
    ) -> Result<bool, OutOfMemory> {
        let covering = covering(field, wanted, spare)?;
        self.count(field.divisors.len());
        self.count(covering.len().saturating_mul(covering.len()) / 2);
        match two_of(field, covering.as_slice(), wanted, spare) {
            None => Ok(false),
            Some((first, second)) => {
                self.replacement.begin(field.node, second);
                self.replacement.extend(field.network, false, first)?;
                Ok(true)
            }
        }
    }

    /// The exclusive disjunction of two edges.
    fn exclusive(
        &mut self,
        field: &Field,
        wanted: &Wanted,
        spare: usize,
    ) -> Result<bool, OutOfMemory> {
        let divisors = field.divisors.get(..APART).unwrap_or(field.divisors);
        self.count(divisors.len().saturating_mul(divisors.len()) / 2);
        match two_apart(field, divisors, wanted, spare) {
            None => Ok(false),
            Some((first, second)) => {
                self.replacement.begin(field.node, second);
                self.replacement.extend(field.network, true, first)?;
                Ok(true)
            }
        }
    }

    /// Two gates that may stand in place of the node, of so many first operands. Answers whether there are some.
    pub(crate) fn two_gates(
        &mut self,
        field: &Field,
        wanted: &Wanted,
        spare: usize,
        breadth: usize,
    ) -> Result<bool, OutOfMemory> {
        let firsts = firsts(field, wanted, spare, breadth)?;
        self.count(field.divisors.len().saturating_mul(20));
        for first in &firsts {
            let left = spare.saturating_sub(first.operand.cost);
            if self.one_gate(field, &rest(field, wanted, first), left)? {
                self.extend(field, first)?;
                return Ok(true);
            }
        }
        Ok(false)
    }

    /// Three gates that may stand in place of the node, of so many first operands. Answers whether there are some.
    pub(crate) fn three_gates(
        &mut self,
        field: &Field,
        wanted: &Wanted,
        spare: usize,
        breadth: usize,
    ) -> Result<bool, OutOfMemory> {
        let firsts = firsts(field, wanted, spare, breadth)?;
        self.count(field.divisors.len().saturating_mul(20));
        for first in &firsts {
            let left = spare.saturating_sub(first.operand.cost);
            if self.two_gates(field, &rest(field, wanted, first), left, breadth)? {
                self.extend(field, first)?;
                return Ok(true);
            }
        }
        Ok(false)
    }

    /// Puts the gate of the first operand above what has been found for the rest.
    fn extend(&mut self, field: &Field, first: &First) -> Result<(), OutOfMemory> {
        self.replacement
            .extend(field.network, first.is_xor, first.operand.edge)?;
        if first.is_turned {
            self.replacement.turn();
        }
        Ok(())
    }
}

/// The constant that serves, where one does.
fn constant(wanted: &Wanted) -> Option<Edge> {
    if wanted.on.is_empty() {
        return Some(Edge::ZERO);
    }
    if wanted.off.is_empty() {
        return Some(Edge::ONE);
    }
    None
}

/// The edge to the node of a divisor.
fn edge_to(divisor: &Divisor, complemented: bool) -> Edge {
    Edge {
        node: divisor.node as u64,
        complemented,
    }
}

/// The values of the edge.
fn value_of(field: &Field, edge: Edge) -> Signature {
    edge_value(field.values, edge)
}

/// The first of the divisors that serves with a sign, at no more than the spare cost.
fn literal(field: &Field, divisors: &[Divisor], wanted: &Wanted, spare: usize) -> Option<Edge> {
    for divisor in divisors {
        if divisor.cost <= spare {
            if let Some(complemented) = serving_sign(field, divisor, wanted) {
                return Some(edge_to(divisor, complemented));
            }
        }
    }
    None
}

/// The sign with which the divisor serves.
fn serving_sign(field: &Field, divisor: &Divisor, wanted: &Wanted) -> Option<bool> {
    let value = field.values.get(divisor.node)?;
    if serves(wanted, value, 0) {
        return Some(false);
    }
    if serves(wanted, value, u64::MAX) {
        return Some(true);
    }
    None
}

/// Whether the values, turned where `flip` is all ones, are as wanted.
fn serves(wanted: &Wanted, value: &Signature, flip: u64) -> bool {
    wanted.on.misses(value, !flip) && wanted.off.misses(value, flip)
}

/// The edges that are 1 wherever that is wanted.
fn covering(field: &Field, wanted: &Wanted, spare: usize) -> Result<Vec<Operand>, OutOfMemory> {
    let mut list = Vec::new(field.alloc);
    for divisor in field.divisors {
        if divisor.cost <= spare && list.len() < COVERING {
            cover(&mut list, field, divisor, wanted)?;
        }
    }
    Ok(list)
}

/// Lists the divisor with the sign with which it is 1 wherever that is wanted.
fn cover(
    list: &mut Vec<Operand>,
    field: &Field,
    divisor: &Divisor,
    wanted: &Wanted,
) -> Result<(), OutOfMemory> {
    if let Some(complemented) = covering_sign(field, divisor, wanted) {
        list.push(Operand {
            edge: edge_to(divisor, complemented),
            cost: divisor.cost,
        })?;
    }
    Ok(())
}

/// The sign with which the divisor is 1 wherever that is wanted.
fn covering_sign(field: &Field, divisor: &Divisor, wanted: &Wanted) -> Option<bool> {
    let value = field.values.get(divisor.node)?;
    if wanted.on.misses(value, u64::MAX) {
        return Some(false);
    }
    if wanted.on.misses(value, 0) {
        return Some(true);
    }
    None
}

/// Two of these edges whose conjunction serves.
fn two_of(
    field: &Field,
    covering: &[Operand],
    wanted: &Wanted,
    spare: usize,
) -> Option<(Edge, Edge)> {
    for (place, first) in covering.iter().enumerate() {
        let off = wanted.off.and(&value_of(field, first.edge));
        let left = spare.saturating_sub(first.cost);
        let others = covering.get(place.saturating_add(1)..).unwrap_or(&[]);
        if let Some(second) = missing(field, others, &off, left) {
            return Some((first.edge, second));
        }
    }
    None
}

/// The first of these edges that is 0 at all of these patterns.
fn missing(field: &Field, operands: &[Operand], off: &Signature, spare: usize) -> Option<Edge> {
    for operand in operands {
        if operand.cost <= spare && is_zero_at(field, operand.edge, off) {
            return Some(operand.edge);
        }
    }
    None
}

/// Whether the edge is 0 at all of these patterns.
fn is_zero_at(field: &Field, edge: Edge, off: &Signature) -> bool {
    match field.values.get(edge.node as usize) {
        None => false,
        Some(value) => off.misses(value, mask_of(edge.complemented)),
    }
}

/// Two edges to divisors whose exclusive disjunction serves.
fn two_apart(
    field: &Field,
    divisors: &[Divisor],
    wanted: &Wanted,
    spare: usize,
) -> Option<(Edge, Edge)> {
    for (place, first) in divisors.iter().enumerate() {
        let edge = edge_to(first, false);
        let others = divisors.get(place.saturating_add(1)..).unwrap_or(&[]);
        let wanted = wanted.apart(&value_of(field, edge));
        if first.cost <= spare {
            if let Some(second) = literal(
                field,
                others,
                &wanted,
                spare.saturating_sub(first.cost),
            ) {
                return Some((edge, second));
            }
        }
    }
    None
}

/// What is wanted of the rest, where the first operand is given.
fn rest(field: &Field, wanted: &Wanted, first: &First) -> Wanted {
    let value = value_of(field, first.operand.edge);
    if first.is_xor {
        return wanted.apart(&value);
    }
    if first.is_turned {
        return wanted.turned().beside(&value);
    }
    wanted.beside(&value)
}

/// The first operands that promise most, so many conjunctions and half as many exclusive disjunctions.
fn firsts(
    field: &Field,
    wanted: &Wanted,
    spare: usize,
    breadth: usize,
) -> Result<Vec<First>, OutOfMemory> {
    let mut firsts = Vec::new(field.alloc);
    let plain = covering(field, wanted, spare)?;
    rank(&mut firsts, field, plain.as_slice(), wanted, false, breadth)?;
    let turned = covering(field, &wanted.turned(), spare)?;
    rank(
        &mut firsts,
        field,
        turned.as_slice(),
        &wanted.turned(),
        true,
        breadth,
    )?;
    rank_apart(&mut firsts, field, wanted, spare, breadth / 2)?;
    Ok(firsts)
}

/// Lists those of these operands of a conjunction that are 0 at most patterns where that is wanted.
fn rank(
    firsts: &mut Vec<First>,
    field: &Field,
    operands: &[Operand],
    wanted: &Wanted,
    is_turned: bool,
    breadth: usize,
) -> Result<(), OutOfMemory> {
    let mut order = Vec::new(field.alloc);
    for (place, operand) in operands.iter().enumerate() {
        let left = wanted.off.and(&value_of(field, operand.edge));
        order.push((left.count(), place))?;
    }
    order.sort_unstable();
    for (_, place) in order.iter().take(breadth) {
        if let Some(operand) = operands.get(*place) {
            firsts.push(First {
                operand: *operand,
                is_xor: false,
                is_turned,
            })?;
        }
    }
    Ok(())
}

/// Lists the divisors that are most like what is wanted, or its complement.
fn rank_apart(
    firsts: &mut Vec<First>,
    field: &Field,
    wanted: &Wanted,
    spare: usize,
    breadth: usize,
) -> Result<(), OutOfMemory> {
    let order = order_apart(field, wanted, spare)?;
    for (_, place) in order.iter().take(breadth) {
        if let Some(divisor) = field.divisors.get(*place) {
            firsts.push(First {
                operand: Operand {
                    edge: edge_to(divisor, false),
                    cost: divisor.cost,
                },
                is_xor: true,
                is_turned: false,
            })?;
        }
    }
    Ok(())
}

/// The divisors at no more than the spare cost, those that are most like what is wanted or its complement first.
fn order_apart(
    field: &Field,
    wanted: &Wanted,
    spare: usize,
) -> Result<Vec<(u64, usize)>, OutOfMemory> {
    let mut order = Vec::new(field.alloc);
    for (place, divisor) in field.divisors.iter().enumerate() {
        if divisor.cost <= spare {
            order.push((unlikeness(field, divisor, wanted), place))?;
        }
    }
    order.sort_unstable();
    Ok(order)
}

/// At how many patterns the divisor isn't as wanted, or isn't the complement of that, whichever are fewer.
fn unlikeness(field: &Field, divisor: &Divisor, wanted: &Wanted) -> u64 {
    let left = wanted.apart(&value_of(field, edge_to(divisor, false)));
    let ones = left.on.count();
    let zeros = left.off.count();
    if ones < zeros { ones } else { zeros }
}
