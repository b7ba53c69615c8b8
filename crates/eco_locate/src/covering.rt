//! Fewer inputs that exclude the same nets.

ghost use Rattle.std.specs.Prelude.{◌≡◌, ℕ, List, All, IfOk, OnOk};
ghost use Rattle.eco_meaning.specs.Circuit.{names};
ghost use Rattle.eco_gates.specs.declared.gate.NetId.{NetId as NetIdValue};
ghost use Rattle.eco_netlist.specs.Netlists.{AreNets};
ghost use Rattle.eco_locate.specs.Judged.{Excludes, IsJudged, excluded_nets};
ghost use Rattle.eco_locate.specs.Covers.{IsCover, IsCoveredBy};

use crate::answer::{Excluding, Located};
use crate::excluded::excluded_nets;
use crate::sifting::taken_by;
use eco_change::Change;
use eco_meaning::OutOfMemory;
use eco_netlist::NetId;
use std::alloc::Global;

/// Nets that no input has taken yet, and the inputs that took the others.
#[derive(Drop)]
pub(crate) struct Cover {
    pub(crate) left: Vec<NetId>,
    pub(crate) excluding: Vec<Excluding>,
}

/// The same with few inputs, by gathering them twice.
pub(crate) fn with_few(
    alloc: Global,
    change: &Change,
    located: Located,
) -> Result<Located, OutOfMemory>
    requires { (limit : ℕ) × IsJudged change.now.old change.now.goal limit located }
    ensures { IfOk result (λ few. (limit : ℕ) →
        IsJudged change.now.old change.now.goal limit located →
        IsJudged change.now.old change.now.goal limit few) }
{
    let fewer = with_fewer(alloc, change, located)?;
    with_fewer(alloc, change, fewer)
}

/// The same with fewer inputs, if the later ones exclude nets of earlier ones too: the inputs are gone through from the last one to
/// the first, each takes all nets that it excludes, and one that finds none is left out.
fn with_fewer(alloc: Global, change: &Change, located: Located) -> Result<Located, OutOfMemory>
    requires { (limit : ℕ) × IsJudged change.now.old change.now.goal limit located }
    ensures { IfOk result (λ fewer. (limit : ℕ) →
        IsJudged change.now.old change.now.goal limit located →
        IsJudged change.now.old change.now.goal limit fewer) }
{
    match cover_of(alloc, change, located.excluding.as_slice()) {
        Ok(cover) => Ok(covered(located, cover)),
        Err(error) => {
            drop(located);
            Err(error)
        }
    }
}

/// With the inputs of the cover, if these take all nets.
fn covered(mut located: Located, cover: Cover) -> Located
    ensures { IsCoveredBy located cover result }
{
    let Cover { left, excluding } = cover;
    let done = left.is_empty();
    drop(left);
    if done {
        located.excluding = excluding;
    } else {
        drop(excluding);
    }
    located
}

/// The cover of the nets that these inputs exclude.
fn cover_of(alloc: Global, change: &Change, excluding: &[Excluding]) -> Result<Cover, OutOfMemory>
    requires within { AreNets (names change.now.old) (excluded_nets excluding.now) }
    requires excludes { All (Excludes change.now.old change.now.goal) excluding.now }
    ensures { IfOk result (IsCover change.now.old change.now.goal (excluded_nets excluding.now)) }
{
    let mut cover = Cover {
        left: excluded_nets(alloc, excluding)?,
        excluding: Vec::new(alloc),
    };
    match cover_all(alloc, change, excluding, &mut cover) {
        Ok(()) => Ok(cover),
        Err(error) => {
            drop(cover);
            Err(error)
        }
    }
}

/// Has the inputs take nets, from the last one to the first.
fn cover_all(
    alloc: Global,
    change: &Change,
    excluding: &[Excluding],
    cover: &mut Cover,
) -> Result<(), OutOfMemory>
    requires excludes { All (Excludes change.now.old change.now.goal) excluding.now }
    requires cover { (all : List NetIdValue) × IsCover change.now.old change.now.goal all cover.old }
    ensures { OnOk result ((all : List NetIdValue) → IsCover change.now.old change.now.goal all cover.old →
        IsCover change.now.old change.now.goal all cover.new) }
{
    for one in excluding.iter().rev() {
        cover_by(alloc, change, one, cover)?;
    }
    Ok(())
}

/// Has this input take the nets that it excludes.
fn cover_by(
    alloc: Global,
    change: &Change,
    one: &Excluding,
    cover: &mut Cover,
) -> Result<(), OutOfMemory>
    requires excludes { Excludes change.now.old change.now.goal one.now }
    requires within { AreNets (names change.now.old) cover.old.left.items }
    ensures { OnOk result ((all : List NetIdValue) → IsCover change.now.old change.now.goal all cover.old →
        IsCover change.now.old change.now.goal all cover.new) }
{
    let nets = taken_by(alloc, change, &one.input, &mut cover.left)?;
    if nets.is_empty() {
        return Ok(());
    }
    let input = one.input.copy()?;
    cover.excluding.push(Excluding { input, nets })?;
    Ok(())
}
