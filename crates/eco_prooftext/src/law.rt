//! Laws of the texts of clauses and of proofs.

ghost use Rattle.std.specs.Prelude.{◌≡◌, ℕ, List, map};
ghost use Rattle.eco_lists.specs.Lines.{lines_of};
ghost use Rattle.eco_trace.specs.Clauses.{Clauses};
ghost use Rattle.eco_trace.specs.Resolution.{IsLegal, Proof};
ghost use Rattle.eco_trace.specs.Verdicts.{IsRefutation};
ghost use Rattle.eco_check.specs.Answers.{IsProved};
ghost use Rattle.eco_check.specs.Steps.{StepValue};
ghost use Rattle.eco_prooftext.specs.CnfFile.{IsCnfText};
ghost use Rattle.eco_prooftext.specs.TraceFile.{IsFirstBadLine, IsTraceText};
ghost use Rattle.eco_prooftext.specs.Written.{IsWritable, IsReadBack, HasRoom, AreReadBack, step_of};

/// What `write_trace` writes of a proof of clauses with at most 2^63 - 1 variables is the text of its chains: so
/// `read_trace` gives them back. That the clauses are formed, `Cnf::clauses` hands out, and that the proof is legal and
/// has at most 2^63 - 1 clauses, `Trace::is_sound`.
pub fn reads_back()
    ensures { (clauses : Clauses) (proof : Proof) → IsWritable clauses proof → IsReadBack proof }
{}

/// What `write_cnf` writes of clauses with at most 2^63 - 1 variables is the text of these clauses: so `read_cnf` gives
/// just them back, or wants memory. That they are formed and at most 2^63 - 1, `Cnf::clauses` hands out.
pub fn clauses_read_back()
    ensures { (clauses : Clauses) → HasRoom clauses → AreReadBack clauses }
{}

/// A text says one list of clauses at most, or the steps of one proof at most; and where it says steps, no line is at
/// error.
pub fn says_once()
    ensures clauses { (bytes : List ℕ) (c d : Clauses) → IsCnfText bytes c → IsCnfText bytes d → c ≡ d }
    ensures steps { (bytes : List ℕ) (steps others : List StepValue) → IsTraceText bytes steps → IsTraceText bytes others → steps ≡ others }
    ensures sound { (bytes : List ℕ) (steps : List StepValue) (line : ℕ) → IsTraceText bytes steps → IsFirstBadLine (lines_of bytes) line → ⊥ }
{}

/// The steps that `write_trace` writes of a refutation are a proof that its clauses have no model: so `check` of them
/// answers with a proof, or wants memory.
pub fn checks()
    ensures { (clauses : Clauses) (proof : Proof) → IsLegal proof → IsRefutation clauses proof
        → IsProved clauses.clauses (map step_of proof.learnt) proof }
{}
