//! Names for cuts: which targets are read in the nets' places, and what the nets' gates drive from now on.

ghost use Rattle.std.specs.Prelude.{◌≡◌, ◌≢◌, ◌<◌, ℕ, List, IfOk, IfErr, OnOk, IsTrue, All, AllPairs, codes, map, length};
ghost use Rattle.std.specs.List.{list_all};
ghost use Rattle.eco_meaning.specs.Names.{has, is_printing};
ghost use Rattle.eco_meaning.specs.Circuit.{names, IsDriven, IsTarget};
ghost use Rattle.eco_netlist.specs.Netlists.{name_at, names_at, AreNets};
ghost use Rattle.eco_text.specs.Prefix.{IsFreshPrefix};
ghost use Rattle.eco_cutting.specs.declared.error.CutError.TheVariants.{Names};
ghost use Rattle.eco_cutting.specs.Cuts.{AreCuts, IsCut};
ghost use Rattle.eco_cutting.specs.NewNames.{old_name, target_name, with_target, AreFewerFree, AreLeastFree, AreAllNamed, AreOldNames};

use crate::cut_net::CutNet;
use crate::cutting::{cut_netlist, is_output};
use crate::error::CutError;
use eco_meaning::{Name, OutOfMemory};
use eco_netlist::{NetId, Netlist};
use eco_text::{fresh_prefix, name_from, numbered};
use std::alloc::Global;

/// The numbers of targets are below this one.
const NUMBERS: u64 = 1_000_000_000;

/// The names of the nets, in order.
fn names_of<'a>(alloc: Global, f: &'a Netlist) -> Result<Vec<&'a [u8]>, OutOfMemory>
    ensures { IfOk result (λ list. map (λ name. name.now) list.items ≡ names f.now) }
{
    let mut list = Vec::new(alloc);
    for net in 0..f.nets() {
        list.push(f.name_of(NetId(net)).bytes())?;
    }
    Ok(list)
}

/// The shortest of `old_`, `old__` and so on with which no net's name begins.
fn old_prefix(alloc: Global, f: &Netlist) -> Result<Vec<u8>, OutOfMemory>
    ensures fresh { IfOk result (λ prefix. IsFreshPrefix (codes "old") (names f.now) prefix.items) }
{
    let names = names_of(alloc, f)?;
    fresh_prefix(alloc, b"old", names.as_slice())
}

/// The net that the gate of a net drives from now on.
fn old_name(alloc: Global, f: &Netlist, net: &Name, prefix: &[u8]) -> Result<Name, OutOfMemory>
    requires { IsTrue (list_all is_printing prefix.now) }
    ensures { IfOk result (λ old. old ≡ old_name f.now prefix.now net.now) }
{
    if !is_output(f, net) {
        return net.copy();
    }
    let mut old = Vec::from_slice(alloc, prefix)?;
    old.extend_from_slice(net.bytes())?;
    name_from(alloc, old.as_slice())
}

/// The cut of a net, with this target.
fn cut_with(
    alloc: Global,
    f: &Netlist,
    net: &Name,
    target: Name,
    prefix: &[u8],
) -> Result<CutNet, OutOfMemory>
    requires { IsTrue (list_all is_printing prefix.now) }
    ensures { IfOk result (λ cut. cut ≡ record { net = net.now; target = target; old = old_name f.now prefix.now net.now }) }
{
    let old = old_name(alloc, f, net, prefix)?;
    let net = net.copy()?;
    Ok(CutNet { net, target, old })
}

/// Whether a net has this name.
fn is_taken(f: &Netlist, name: &Name) -> bool
    ensures { result ≡ has (names f.now) name.now }
{
    f.net_of(name).is_some()
}

/// Cuts a net with the target of this number, if that is free.
fn add_cut(
    alloc: Global,
    f: &Netlist,
    net: &Name,
    number: u64,
    prefix: &[u8],
    cuts: &mut Vec<CutNet>,
) -> Result<(), OutOfMemory>
    requires { IsTrue (list_all is_printing prefix.now) }
    ensures { OnOk result (cuts.new.items ≡ with_target f.now prefix.now net.now (target_name number) cuts.old.items) }
{
    let target = numbered(alloc, b"t_", number)?;
    if is_taken(f, &target) {
        return Ok(());
    }
    cuts.push(cut_with(alloc, f, net, target, prefix)?)?;
    Ok(())
}

/// The cuts of the nets in their order, with the free targets in the order of their numbers.
fn named_cuts(
    alloc: Global,
    f: &Netlist,
    nets: &[NetId],
    prefix: &[u8],
) -> Result<Vec<CutNet>, CutError>
    requires within { AreNets (names f.now) nets.now }
    requires printing { IsTrue (list_all is_printing prefix.now) }
    ensures ok { IfOk result (λ cuts. AreAllNamed f.now nets.now prefix.now cuts.items) }
    ensures err { IfErr result (λ error. error ≡ Names → AreFewerFree f.now (length nets.now)) }
{
    let mut cuts = Vec::new(alloc);
    for number in 0..NUMBERS {
        let Some(net) = nets.get(cuts.len()) else {
            return Ok(cuts);
        };
        add_cut(alloc, f, f.name_of(*net), number, prefix, &mut cuts)?;
    }
    if cuts.len() < nets.len() {
        return Err(CutError::Names);
    }
    Ok(cuts)
}

/// The cuts that these nets get, in the nets' order. Their targets are the free ones with the least numbers: those that
/// no net of `f` is named by.
///
/// # Errors
///
/// `Names` if too few targets are free, `OutOfMemory` only for want of memory.
pub fn cuts_for(alloc: Global, f: &Netlist, nets: &[NetId]) -> Result<Vec<CutNet>, CutError>
    requires within { AreNets (names f.now) nets.now }
    requires driven { All (λ net. IsDriven f.now (name_at (names f.now) net.0)) nets.now }
    requires once { AllPairs (λ a b. a ≢ b) (names_at (names f.now) nets.now) }
    ensures cuts { IfOk result (λ cuts. AreCuts f.now cuts.items) }
    ensures nets { IfOk result (λ cuts. map (λ c. c.net) cuts.items ≡ names_at (names f.now) nets.now) }
    ensures least { IfOk result (λ cuts. AreLeastFree f.now (map (λ c. c.target) cuts.items)) }
    ensures olds { IfOk result (λ cuts. AreOldNames f.now cuts.items) }
    ensures names { IfErr result (λ error. error ≡ Names → AreFewerFree f.now (length nets.now)) }
{
    let _ = f.nets();
    let prefix = old_prefix(alloc, f)?;
    named_cuts(alloc, f, nets, prefix.as_slice())
}

/// The netlist with these nets cut.
///
/// # Errors
///
/// `Names` if too few targets are free, `OutOfMemory` only for want of memory.
pub fn cut(alloc: Global, f: &Netlist, nets: &[NetId]) -> Result<Netlist, CutError>
    requires closed { (name : List ℕ) → IsTarget f.now name → ⊥ }
    requires within { AreNets (names f.now) nets.now }
    requires driven { All (λ net. IsDriven f.now (name_at (names f.now) net.0)) nets.now }
    requires once { AllPairs (λ a b. a ≢ b) (names_at (names f.now) nets.now) }
    ensures cut { IfOk result (IsCut f.now (names_at (names f.now) nets.now)) }
    ensures names { IfErr result (λ error. error ≡ Names → AreFewerFree f.now (length nets.now)) }
{
    let _ = f.nets();
    let cuts = cuts_for(alloc, f, nets)?;
    Ok(cut_netlist(alloc, f, cuts.as_slice())?)
}
