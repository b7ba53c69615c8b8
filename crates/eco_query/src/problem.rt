//! Problems of an implementation and a specification, and why netlists are none.

use crate::MOST_TARGETS;
use crate::inputs::{input_alone, is_input};
use crate::order::in_order;
use crate::ports::unlike_port;
use eco_meaning::{Name, OutOfMemory};
use eco_netlist::{NetId, Netlist};
use eco_weight::Weights;
use std::fmt::{self, Debug, Display, Formatter};
use std::marker::Model;
use thiserror::Error;

/// Why netlists are no problem: the first of these rows that stands.
#[derive(Drop, Error)]
pub enum PairError {
    /// The smallest name that is a port of one netlist alone, or an input of one and an output of the other.
    #[error("the ports differ")]
    PortsDiffer(Name),
    /// The smallest name that is an input of the implementation alone, or of the cared netlist alone.
    #[error("the cared netlist has other inputs")]
    CareInputs(Name),
    /// The cared netlist has this many outputs, which is not one.
    #[error("the cared netlist has {0} outputs")]
    CareOutputs(u64),
    /// The implementation has no target.
    #[error("there is no target")]
    NoTarget,
    /// The implementation has this many targets, which is more than `MOST_TARGETS`.
    #[error("{0} targets are too many")]
    TooManyTargets(u64),
    /// Memory could not be had.
    #[error("out of memory")]
    OutOfMemory,
}

/// As it is displayed.
impl Debug for PairError {
    fn fmt<W: fmt::Write>(&self, f: &mut Formatter<W>) -> fmt::Result {
        Display::fmt(self, f)
    }
}

impl From<OutOfMemory> for PairError {
    ghost use Rattle.std.specs.Prelude.{◌≡◌};
    ghost use Rattle.eco_query.specs.declared.problem.PairError.TheVariants as variants;

    ghost from_gives = { λ _ e. e ≡ variants.OutOfMemory };

    fn from(_error: OutOfMemory) -> PairError {
        PairError::OutOfMemory
    }
}

/// An implementation with targets, a specification that has the same ports and no target, perhaps a netlist that tells
/// which inputs are cared, and the weights of signals.
#[derive(Drop)]
pub struct Problem {
    implementation: Netlist,
    specification: Netlist,
    care: Option<Netlist>,
    weights: Weights,
    input_weight: u32,
    // for each net of the implementation how many of the first targets are needed to have all behind which it lies
    lasts: Vec<u64>,
}

impl Model for Problem {
    ghost use Rattle.eco_netlist.specs.Behind.{AreLastTargets};
    ghost use Rattle.eco_query.specs.Problem.{ProblemValue, goal_of, IsProblem, HasFewNets};

    ghost Value = { ProblemValue };

    ghost view = { λ p. record {
      implementation = p.implementation;
      goal = goal_of p.specification p.care;
      weights = p.weights;
      input_weight = p.input_weight;
    } };

    ghost invariant = { λ p. IsProblem p.implementation (goal_of p.specification p.care) × HasFewNets p.implementation
        × AreLastTargets p.implementation p.lasts.items };
}

impl Problem {
    ghost use Rattle.std.specs.Prelude.{◌≡◌, ◌<◌, ◌↔◌, if◌then◌else◌, length, Some, None, IsTrue, IfOk};
    ghost use Rattle.std.specs.Option.{option_copied};
    ghost use Rattle.eco_meaning.specs.Names.{has};
    ghost use Rattle.eco_meaning.specs.Circuit.{names, IsTarget};
    ghost use Rattle.eco_meaning.specs.Cost.{weight_of, IsCandidate, AreTurns};
    ghost use Rattle.eco_meaning.specs.Patch.{OfTarget};
    ghost use Rattle.eco_netlist.specs.Netlists.{AreNets, name_at, names_at};
    ghost use Rattle.eco_query.specs.Problem.{IsProblem, HasFewNets, HasTargetNumber};
    ghost use Rattle.eco_query.specs.Candidates.{IsOpen};

    /// The netlist that is to be patched.
    pub fn implementation(&self) -> &Netlist
        ensures value { result.now ≡ self.now.implementation }
        ensures problem { IsProblem self.now.implementation self.now.goal }
        ensures few_nets { HasFewNets self.now.implementation }
    {
        &self.implementation
    }

    /// The netlist that says what the outputs are to be.
    pub fn specification(&self) -> &Netlist
        ensures value { result.now ≡ self.now.goal.spec }
        ensures problem { IsProblem self.now.implementation self.now.goal }
    {
        &self.specification
    }

    /// The netlist that tells which inputs are cared, where there is one: those on which its output is 1.
    pub fn care(&self) -> Option<&Netlist>
        ensures value { option_copied result ≡ self.now.goal.care }
        ensures problem { IsProblem self.now.implementation self.now.goal }
    {
        self.care.as_ref()
    }

    /// The weight of this net of the implementation: that of its line; an input without a line has the weight of
    /// unlisted inputs; `None` exactly where it is neither.
    pub fn weight(&self, net: NetId) -> Option<u32>
        requires net { net.0 < length (names self.now.implementation) }
        ensures { result ≡ weight_of self.now.implementation self.now.weights self.now.input_weight
            (name_at (names self.now.implementation) net.0) }
    {
        match self.weights.of(self.implementation.name_of(net)) {
            Some(weight) => Some(weight),
            None => self.unlisted_weight(net),
        }
    }

    // The weight of a net without a line.
    fn unlisted_weight(&self, net: NetId) -> Option<u32>
        requires net { net.0 < length (names self.now.implementation) }
        ensures { result ≡ (if has self.now.implementation.inputs (name_at (names self.now.implementation) net.0)
            then Some self.now.input_weight else None) }
    {
        if is_input(&self.implementation, net) {
            Some(self.input_weight)
        } else {
            None
        }
    }

    // Whether the net is a target.
    fn is_target(&self, net: NetId) -> bool
        requires net { net.0 < length (names self.now.implementation) }
        ensures { IsTrue result ↔ IsTarget self.now.implementation (name_at (names self.now.implementation) net.0) }
    {
        self.implementation.targets().contains(&net)
    }

    /// Whether this net of the implementation is an input or a gate's output and lies in the fan-out of no target but
    /// those before the target `i`.
    pub(crate) fn is_open(&self, i: u64, net: NetId) -> bool
        requires net { net.0 < length (names self.now.implementation) }
        ensures { OfTarget self.now.implementation i (λ earlier target. IsTrue result
            ↔ IsOpen self.now.implementation earlier (name_at (names self.now.implementation) net.0)) }
    {
        self.lasts[net.0 as usize] <= i && !self.is_target(net)
    }

    /// Whether the function of the target `i`, counted from 0, may read this net of the implementation: an input or a
    /// gate's output that has a weight and lies in the fan-out of no target but those before the target `i`.
    pub fn candidate(&self, i: u64, net: NetId) -> bool
        requires target { HasTargetNumber self.now.implementation i }
        requires net { net.0 < length (names self.now.implementation) }
        ensures { OfTarget self.now.implementation i (λ earlier target. IsTrue result
            ↔ IsCandidate self.now.implementation self.now.weights self.now.input_weight earlier
            (name_at (names self.now.implementation) net.0)) }
    {
        self.is_open(i, net) && self.weight(net).is_some()
    }

    /// The candidates of the target `i`, counted from 0, that aren't among the paid nets, in the order of their turns: the
    /// heaviest first, of equal weights the last name in the order of bytes. The paid nets are those that the functions of
    /// earlier targets read.
    pub fn turns(&self, i: u64, paid: &[NetId]) -> Result<Vec<NetId>, OutOfMemory>
        requires target { HasTargetNumber self.now.implementation i }
        requires paid { AreNets (names self.now.implementation) paid.now }
        ensures nets { IfOk result (λ turns. AreNets (names self.now.implementation) turns.items) }
        ensures turns { IfOk result (λ turns. OfTarget self.now.implementation i (λ earlier target.
            AreTurns self.now.implementation self.now.weights self.now.input_weight earlier
            (names_at (names self.now.implementation) paid.now) (names_at (names self.now.implementation) turns.items))) }
    {
        in_order(*self.lasts.allocator(), self, i, paid)
    }
}

ghost use Rattle.std.specs.Prelude.{◌≡◌, length, Option, Some, IfSome, MatchResult};
ghost use Rattle.std.specs.Option.{option_copied, ForSome};
ghost use Rattle.eco_meaning.specs.Circuit.{Circuit};
ghost use Rattle.eco_netlist.specs.Refusals.{NeverComes};
ghost use Rattle.eco_netlist.specs.Netlists.{IsChecked};
ghost use Rattle.eco_query.specs.Ports.{is_alone, is_unlike};
ghost use Rattle.eco_query.specs.Problem.{goal_of, HasFewNets, HasSomeTargets, IsClosed, IsProblem};
ghost use Rattle.eco_query.specs.Pairing.{FitTogether, HasInputsOf, HasOneOutput, IsMisfit, Refuses};

/// The problem of the implementation `f`, the specification `g`, the cared netlist, if there is one, and the weights,
/// unless a row of `PairError` stands. The inputs that matter are those on which the cared netlist has the output 1;
/// without one, all do. An input that has no line among the weights has `input_weight`.
pub fn pair(
    f: Netlist,
    g: Netlist,
    care: Option<Netlist>,
    weights: Weights,
    input_weight: u32,
) -> Result<Problem, PairError>
    requires closed { IsClosed g }
    requires care_closed { ForSome care IsClosed }
    requires few_nets { HasFewNets f }
    ensures { MatchResult result
        (λ problem. (problem ≡ record { implementation = f; goal = goal_of g care; weights = weights; input_weight = input_weight })
        × IsProblem f (goal_of g care))
        (Refuses f g care) }
{
    examine(&f, &g, care.as_ref())?;
    let lasts = f.last_targets()?;
    Ok(Problem {
        implementation: f,
        specification: g,
        care,
        weights,
        input_weight,
        lasts,
    })
}

// Ok exactly where no row stands.
fn examine(f: &Netlist, g: &Netlist, care: Option<&Netlist>) -> Result<(), PairError>
    requires closed { IsClosed g.now }
    requires care_closed { ForSome (option_copied care) IsClosed }
    ensures { MatchResult result (λ _. IsProblem f.now (goal_of g.now (option_copied care.entry)))
        (Refuses f.now g.now (option_copied care.entry)) }
{
    let _checked = (f.nets(), g.nets());
    fit(f, g, care)?;
    examine_targets(f)
}

/// Whether the netlists fit together, whatever targets they have: the specification `g` has the ports of `f`, and the cared
/// netlist, if there is one, has the inputs of `f` and one output. If they don't, the first row of `PairError` that stands, which
/// is none of targets.
pub fn fit(f: &Netlist, g: &Netlist, care: Option<&Netlist>) -> Result<(), PairError>
    ensures { MatchResult result
        (λ _. FitTogether f.now g.now (option_copied care.entry) × IfSome (option_copied care.entry) IsChecked)
        (IsMisfit f.now g.now (option_copied care.entry)) }
{
    examine_ports(f, g)?;
    examine_care(f, care)
}

// Ok exactly where the row of ports doesn't stand.
fn examine_ports(f: &Netlist, g: &Netlist) -> Result<(), PairError>
    ensures { MatchResult result (λ _. NeverComes (is_unlike f.now g.now))
        (λ error. (care : Option Circuit) → IsMisfit f.now g.now care error) }
{
    match unlike_port(f, g) {
        None => Ok(()),
        Some(name) => Err(PairError::PortsDiffer(name.copy()?)),
    }
}

// Ok exactly where no row of the cared netlist stands.
fn examine_care(f: &Netlist, care: Option<&Netlist>) -> Result<(), PairError>
    ensures { MatchResult result
        (λ _. IfSome (option_copied care.entry) IsChecked × HasInputsOf f.now (option_copied care.entry)
        × HasOneOutput (option_copied care.entry))
        (λ error. (g : Circuit) → NeverComes (is_unlike f.now g) → IsMisfit f.now g (option_copied care.entry) error) }
{
    match care {
        None => Ok(()),
        Some(care) => examine_cared(f, care),
    }
}

// The same, where there is a cared netlist.
fn examine_cared(f: &Netlist, care: &Netlist) -> Result<(), PairError>
    ensures { MatchResult result
        (λ _. IsChecked care.now × NeverComes (is_alone f.now care.now) × (length care.now.outputs ≡ 1))
        (λ error. (g : Circuit) → NeverComes (is_unlike f.now g) → IsMisfit f.now g (Some care.now) error) }
{
    let _checked = care.nets();
    if let Some(name) = input_alone(f, care) {
        return Err(PairError::CareInputs(name.copy()?));
    }
    let outputs = care.outputs().len() as u64;
    if outputs != 1 {
        return Err(PairError::CareOutputs(outputs));
    }
    Ok(())
}

// Ok exactly where no row of targets stands.
fn examine_targets(f: &Netlist) -> Result<(), PairError>
    ensures { MatchResult result (λ _. HasSomeTargets f.now)
        (λ error. (g : Circuit) (care : Option Circuit) → FitTogether f.now g care → Refuses f.now g care error) }
{
    let targets = f.targets().len() as u64;
    if targets == 0 {
        return Err(PairError::NoTarget);
    }
    if targets > MOST_TARGETS {
        return Err(PairError::TooManyTargets(targets));
    }
    Ok(())
}
