//! What cutting nets does to a netlist.

ghost use Rattle.eco_cutting.specs.Cuts.{CutIsWrongBut, CutIsRectifiable, CutIsMade, CutIsChecked};

/// A law of cuts: a netlist with nets cut is wrong exactly at the inputs at which it was wrong but for these nets, so that it
/// can be rectified exactly if they are a choice.
pub fn cuts_free_nets()
    ensures wrong { CutIsWrongBut }
    ensures rectifiable { CutIsRectifiable }
{}

/// A law of cuts: cuts of a checked netlist make a checked netlist; if it has no targets, it is the one with their nets cut.
pub fn cuts_can_be_made()
    ensures checked { CutIsChecked }
    ensures made { CutIsMade }
{}
