//! A target with the patches before it, of which questions for two inputs are asked.

ghost use Rattle.std.specs.Prelude.{◌≡◌, ◌+◌, ℕ, List, [], length, All, IfOk};
ghost use Rattle.eco_meaning.specs.Circuit.{names, AreTargets};
ghost use Rattle.eco_meaning.specs.Patch.{Fits, splice_of};
ghost use Rattle.eco_netlist.specs.Netlists.{AreNets};
ghost use Rattle.eco_compile.specs.Compiled.{HasOpenNets};
ghost use Rattle.eco_pose.specs.Boards.{IsLaidOut};
ghost use Rattle.eco_desk.specs.Boards.{AreMerged, AreNetEdges, AreKnownOfSome, Continues};
ghost use Rattle.eco_desk.specs.Desks.{StaysTurn, TellsPair};

use crate::known_rows::{KnownRow, row_edges};
use crate::swept::SweptBoard;
use eco_aig::Edge;
use eco_meaning::{Bits, OutOfMemory};
use eco_netlist::{NetId, Netlist, splice};
use eco_pose::with_first;

/// The target of this number, the patches before it, and the implementation with the patches in it, whose nets have edges. The
/// rows with which the splice isn't right are listed apart by the target's bit, which comes first in each.
#[derive(Drop)]
pub(crate) struct Turn {
    pub(crate) number: u64,
    pub(crate) patches: Netlist,
    pub(crate) spliced: Netlist,
    /// The edges of the splice's nets, where its targets are 0.
    pub(crate) nets: Vec<Edge>,
    pub(crate) zeros: Vec<KnownRow>,
    pub(crate) ones: Vec<KnownRow>,
}

/// The edges of a question for two inputs: those of the base, and those that are 1 at the first input and at the second.
#[derive(Drop)]
pub(crate) struct PairEdges {
    pub(crate) base: Vec<Edge>,
    pub(crate) first: Vec<Edge>,
    pub(crate) second: Vec<Edge>,
}

impl Turn {
    /// The turn to the target, where no row was asked yet.
    pub(crate) fn new(
        swept: &mut SweptBoard,
        f: &Netlist,
        number: u64,
        patches: &Netlist,
    ) -> Result<Turn, OutOfMemory>
        requires fits { (later : List (List ℕ)) × Fits f.now patches.now later }
        requires laid_out { IsLaidOut f.now swept.old.board }
        requires merged { AreMerged swept.old }
        ensures continues { Continues swept.old swept.new }
        ensures number { IfOk result (λ turn. turn.number ≡ number) }
        ensures patches { IfOk result (λ turn. turn.patches ≡ patches.now) }
        ensures spliced { IfOk result (λ turn. turn.spliced ≡ splice_of f.now patches.now) }
        ensures left { IfOk result (λ turn. (later : List (List ℕ)) → Fits f.now patches.now later → AreTargets turn.spliced later) }
        ensures nets { IfOk result (λ turn. AreNetEdges turn.spliced swept.new.board turn.nets.items) }
        ensures zeros { IfOk result (λ turn. turn.zeros.items ≡ []) }
        ensures ones { IfOk result (λ turn. turn.ones.items ≡ []) }
    {
        let spliced = splice(f, patches)?;
        let nets = match swept.every_edge(&spliced) {
            Ok(nets) => nets,
            Err(error) => {
                drop(spliced);
                return Err(error);
            }
        };
        match patches.copy() {
            Ok(patches) => Ok(Turn {
                number,
                patches,
                spliced,
                nets,
                zeros: Vec::new(swept.alloc),
                ones: Vec::new(swept.alloc),
            }),
            Err(error) => {
                drop(spliced);
                Err(error)
            }
        }
    }

    /// The edges of a question with this base and these rests.
    pub(crate) fn pair_edges(
        &mut self,
        swept: &mut SweptBoard,
        base: &[NetId],
        rest: &[Bits],
    ) -> Result<PairEdges, OutOfMemory>
        requires zeros { AreKnownOfSome self.old.spliced swept.old.board self.old.zeros.items }
        requires ones { AreKnownOfSome self.old.spliced swept.old.board self.old.ones.items }
        requires nets { AreNetEdges self.old.spliced swept.old.board self.old.nets.items }
        requires base { AreNets (names self.old.spliced) base.now }
        requires rests { All (λ row. HasOpenNets self.old.spliced (length self.old.spliced.inputs + (1 + length row))) rest.now }
        requires merged { AreMerged swept.old }
        ensures continues { Continues swept.old swept.new }
        ensures stays { StaysTurn swept.old.board self.old swept.new.board self.new }
        ensures edges { IfOk result (TellsPair swept.old.board self.old swept.new.board base.now rest.now) }
    {
        let alloc = swept.alloc;
        let zeros = with_first(alloc, false, rest)?;
        let ones = with_first(alloc, true, rest)?;
        let base = swept.net_edges(self.nets.as_slice(), base)?;
        let first = row_edges(swept, &self.spliced, &mut self.zeros, zeros.as_slice())?;
        let second = row_edges(swept, &self.spliced, &mut self.ones, ones.as_slice())?;
        Ok(PairEdges {
            base,
            first,
            second,
        })
    }
}
