//! The files of a drawn problem.

use crate::cutting::kept_gates;
use crate::draws::Draws;
use crate::nets::{implementation, specification};
use crate::weighing::weight_text;
use eco_meaning::OutOfMemory;
use eco_vwrite::write;
use std::alloc::Global;

/// The texts of an instance: its two netlists, and the weights of signals.
#[derive(Drop)]
pub struct InstanceFiles {
    pub implementation: Vec<u8>,
    pub specification: Vec<u8>,
    pub weights: Vec<u8>,
}

ghost use Rattle.std.specs.Prelude.{◌≡◌, IfOk};
ghost use Rattle.eco_netlist.specs.declared.draft.TargetRule.TheVariants.{Allowed, Never};
ghost use Rattle.eco_plain.specs.Plain.{IsGatesText};
ghost use Rattle.eco_vwrite.specs.Written.{written};
ghost use Rattle.eco_gen.specs.Cutting.{MayCut};
ghost use Rattle.eco_gen.specs.Drawn.{drawn_netlist};
ghost use Rattle.eco_gen.specs.Instance.{CanDraw, drawn_problem};
ghost use Rattle.eco_gen.specs.Files.{AreFilesOf};

/// The text of the implementation.
fn implementation_text(alloc: Global, draws: &Draws, targets: u64) -> Result<Vec<u8>, OutOfMemory>
    requires { MayCut draws.now.size targets }
    ensures text { IfOk result (λ text. text.items ≡ written (drawn_netlist draws.now.seed draws.now.size targets)) }
    ensures read { IfOk result (λ text. IsGatesText Allowed text.items (drawn_netlist draws.now.seed draws.now.size targets)) }
{
    let netlist = implementation(alloc, draws, targets)?;
    write(alloc, &netlist)
}

/// The text of the specification.
fn specification_text(alloc: Global, draws: &Draws) -> Result<Vec<u8>, OutOfMemory>
    ensures text { IfOk result (λ text. text.items ≡ written (drawn_netlist draws.now.seed draws.now.size 0)) }
    ensures read { IfOk result (λ text. IsGatesText Never text.items (drawn_netlist draws.now.seed draws.now.size 0)) }
{
    let netlist = specification(alloc, draws)?;
    let text = write(alloc, &netlist)?;
    Ok(text)
}

/// The files of the problem that is drawn for a seed, a number of gates and a number of targets.
pub fn instance(
    alloc: Global,
    seed: u64,
    size: u64,
    targets: u64,
) -> Result<InstanceFiles, OutOfMemory>
    requires numbers { CanDraw size targets }
    ensures files { IfOk result (AreFilesOf (drawn_problem seed size targets)) }
{
    let kept = kept_gates(alloc, size, targets)?;
    let kept = kept.as_slice();
    let draws = Draws::new(alloc, seed, size, kept.len() as u64)?;
    let weights = weight_text(alloc, &draws, kept)?;
    let implementation = implementation_text(alloc, &draws, targets)?;
    let specification = specification_text(alloc, &draws)?;
    Ok(InstanceFiles {
        implementation,
        specification,
        weights,
    })
}
