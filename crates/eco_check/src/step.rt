//! Steps of proofs, as files have them.

use std::marker::Model;

/// A step: the clause with the id `start` is resolved with further clauses one after another, each link being the
/// pivot variable and the clause's id. Ids count from 1: first the clauses that the proof begins with, then one for
/// each step.
#[derive(Drop)]
pub struct Step {
    pub start: u64,
    pub links: Vec<(u64, u64)>,
}

impl Model for Step {
    ghost use Rattle.eco_check.specs.Steps.{StepValue};

    ghost Value = { StepValue };

    ghost view = { λ step. record { start = step.start; links = step.links.items } };
}
