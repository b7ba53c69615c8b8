//! The check of proofs.

ghost use Rattle.std.specs.Prelude.{◌≡◌, ◌≢◌, ◌⊎◌, IfOk, IfErr, IsTrue, ◌↔◌, MatchBool, All, ◌≤◌, map, Err};
ghost use Rattle.eco_trace.specs.Resolution.{clauses_of};
ghost use Rattle.eco_check.specs.declared.error.CheckError.{CheckError as Cause};
ghost use Rattle.eco_check.specs.declared.error.CheckError.TheVariants.{OutOfMemory as NoMemory};
ghost use Rattle.eco_check.specs.Steps.{HasIds, IsLegalStep, LearnsStep, link_of};
ghost use Rattle.eco_check.specs.Answers.{IsProved, IsCause};

use crate::error::CheckError;
use crate::step::Step;
use bumpalo::Bump;
use eco_meaning::OutOfMemory;
use eco_trace::{Cnf, Link, NodeId, Trace, Var};
use std::alloc::Global;

/// The proof of these steps that the clauses have no model. It takes time linear in what is resolved.
pub fn check<'t>(
    alloc: Global,
    cnf: &Cnf,
    steps: &[Step],
    arena: &'t Bump,
) -> Result<Trace<'t>, CheckError>
    ensures proved { IfOk result (IsProved cnf.now.clauses steps.now) }
    ensures cause { IfErr result (IsCause cnf.now.clauses steps.now) }

    // Wherever an error has its cause, that error comes, unless memory is wanting.
    ensures exactly { (e : Cause) → e ≢ NoMemory → IsCause cnf.now.clauses steps.now e
        → (result ≡ Err e) ⊎ (result ≡ Err NoMemory) }
{
    let mut trace = Trace::new(alloc, arena, cnf)?;
    trace.is_sound();
    for (place, step) in steps.iter().enumerate() {
        if !take(alloc, &mut trace, step)? {
            return Err(CheckError::BadStep(place as u64 + 1));
        }
    }
    if trace.ends_empty() {
        Ok(trace)
    } else {
        Err(CheckError::NoEmptyClause)
    }
}

/// Learns what the step gives; false where the step isn't legal.
fn take(alloc: Global, trace: &mut Trace, step: &Step) -> Result<bool, OutOfMemory>
    ensures { IfOk result (λ taken. MatchBool taken (LearnsStep trace.old step.now trace.new)
        (IsLegalStep (clauses_of trace.old) step.now → ⊥)) }
{
    if !has_ids(step) {
        return Ok(false);
    }
    let links = links_of(alloc, step.links.as_slice())?;
    let node = trace.try_push(NodeId(step.start - 1), links.as_slice())?;
    Ok(node.is_some())
}

/// Whether the ids of the step are at least 1.
fn has_ids(step: &Step) -> bool
    ensures { IsTrue result ↔ HasIds step.now }
{
    step.start != 0 && are_ids(step.links.as_slice())
}

fn are_ids(links: &[(u64, u64)]) -> bool
    ensures { IsTrue result ↔ All (λ pair. 1 ≤ pair.1) links.now }
{
    links.iter().all(|pair| 1 <= pair.1)
}

/// The pairs as links.
fn links_of(alloc: Global, links: &[(u64, u64)]) -> Result<Vec<Link>, OutOfMemory>
    requires { All (λ pair. 1 ≤ pair.1) links.now }
    ensures { IfOk result (λ made. made.items ≡ map link_of links.now) }
{
    let mut made = Vec::with_capacity(alloc, links.len())?;
    for pair in links {
        made.push(Link {
            pivot: Var(pair.0),
            with: NodeId(pair.1 - 1),
        })?;
    }
    Ok(made)
}
