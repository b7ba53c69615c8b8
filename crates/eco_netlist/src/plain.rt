//! Drafts that spell out a checked netlist.

use crate::draft::{Draft, FinishError, TargetRule};
use crate::netlist::Netlist;
use eco_meaning::OutOfMemory;

impl Draft {
    ghost use Rattle.std.specs.Prelude.{◌≡◌, IfOk};
    ghost use Rattle.eco_netlist.specs.Netlists.{IsChecked};
    ghost use Rattle.eco_netlist.specs.Plain.{as_declared};

    /// The netlist that the declarations spell out, with what targets it has, where it is known to have no error.
    pub fn finish_plain(self) -> Result<Netlist, OutOfMemory>
        requires { IsChecked (as_declared self) }
        ensures plain { IfOk result (λ n. n ≡ as_declared self) }
    {
        match self.finish(TargetRule::Allowed) {
            Ok(netlist) => Ok(netlist),
            Err(FinishError::OutOfMemory) => Err(OutOfMemory),
            Err(FinishError::Refused(_)) => unreachable!(),
        }
    }
}
