//! Laws of the texts of netlists.

ghost use Rattle.std.specs.Prelude.{◌≡◌, ◌↔◌, ℕ, Bool, List};
ghost use Rattle.eco_meaning.specs.Circuit.{Circuit};
ghost use Rattle.eco_aiger.specs.Syntax.{File};
ghost use Rattle.eco_aiger.specs.Grammar.{IsText};
ghost use Rattle.eco_aiger.specs.Maps.{HasAigerMap, HasConsistent};
ghost use Rattle.eco_aiger.specs.declared.error.AigerError.{AigerError as Error};
ghost use Rattle.eco_aiger.specs.declared.error.AigerError.TheVariants.{OutOfMemory as NoMemory};
ghost use Rattle.eco_aiger.specs.Texts.{IsAigerText, IsRefused, IsSameCause};

/// A law of the format: a text is that of at most one netlist. So what `read` gives is the only one.
pub fn reads_once()
    ensures { (bytes : List ℕ) (netlist other : Circuit) → IsAigerText bytes netlist → IsAigerText bytes other → netlist ≡ other }
{}

/// Another law of the format: a text of a netlist is refused for nothing, and any text for one cause at most.
pub fn refused_once()
    ensures unrefused { (bytes : List ℕ) (netlist : Circuit) (error : Error) → IsAigerText bytes netlist → IsRefused bytes error → error ≡ NoMemory }
    ensures one_cause { (bytes : List ℕ) (error other : Error) → IsRefused bytes error → IsRefused bytes other → IsSameCause error other }
{}

/// What a text means: bits of the ports, inputs first, come from a map that is consistent with its netlist exactly
/// where they come from a map of the variables of its file, which gives each left side the and of its right side.
pub fn maps_of_a_text()
    ensures { (bytes : List ℕ) (netlist : Circuit) (file : File) (bits : List Bool)
        → IsAigerText bytes netlist → IsText bytes file → HasConsistent netlist bits ↔ HasAigerMap file bits }
{}
