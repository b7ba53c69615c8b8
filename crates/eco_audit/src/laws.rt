//! What findings say of solved problems.

ghost use Rattle.eco_audit.specs.FileLaws.{OneFindingIsFirst, SoundHasNoFinding};
ghost use Rattle.eco_audit.specs.Laws.{FindingsExclude, RowsSolve};
ghost use Rattle.eco_audit.specs.Needs.{AlikeByMaps, FixedIsUnforced, UnfixedIsForced};

/// A law of findings: where one stands, the report, the patch and the patched netlist don't solve the problem; where what each
/// row asks for is right, they do.
pub fn findings_decide()
    ensures exclude { FindingsExclude }
    ensures solve { RowsSolve }
{}

/// A law of needed signals: one map that is reached at each of two inputs decides, with what values of the targets go on from it,
/// whether they force a target, and whether other signals agree on them.
pub fn reached_maps_decide()
    ensures forced { UnfixedIsForced }
    ensures unforced { FixedIsUnforced }
    ensures alike { AlikeByMaps }
{}

/// A law of what is ruled: two first findings are one, but for the input that shows other outputs.
pub fn one_finding_is_first()
    ensures { OneFindingIsFirst }
{}

/// A law of what is ruled: where the report tells a patch, and it, the patch and the patched netlist solve the problem, there
/// is no finding.
pub fn sound_has_no_finding()
    ensures { SoundHasNoFinding }
{}
