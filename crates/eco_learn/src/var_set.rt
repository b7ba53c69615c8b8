//! Sets of variables.

use crate::taken::MOST_VARS;
use eco_meaning::OutOfMemory;
use eco_trace::{Lit, Var};
use std::alloc::Global;
use std::marker;

/// A set of the variables from 0 to a last one. A variable is in it where its stamp is the present one, so the set is
/// made empty in one step. With it go the literals that were put in since then.
#[derive(Drop)]
pub(crate) struct VarSet {
    stamps: Vec<u32>,
    present: u32,
    found: Vec<Lit>,
}

impl marker::Model for VarSet {
    ghost use Rattle.std.specs.Prelude.{List, Bool, ◌≤◌, ◌==◌, ◌<◌, ◌^◌, All, map};
    ghost use Rattle.eco_learn.specs.Marks.{HaveBeenFound};

    ghost Value = { List Bool };

    ghost view = { λ s. map (λ stamp. stamp == s.present) s.stamps.items };

    ghost invariant = { λ s. (1 ≤ s.present) × (s.present < 2 ^ 32) × All (λ stamp. stamp ≤ s.present) s.stamps.items
        × HaveBeenFound (map (λ stamp. stamp == s.present) s.stamps.items) s.found.items };
}

impl VarSet {
    ghost use Rattle.std.specs.Prelude.{◌≡◌, ◌+◌, ◌<◌, true, false, IfOk, OnOk, OnErr, length, replicate, slice_set, slice_index_or};
    ghost use Rattle.eco_learn.specs.Marks.{HaveBeenFound};

    /// No variable, of those from 0 to `vars`. There is no memory for more than 2^31 - 1 of them.
    pub fn new(alloc: Global, vars: u64) -> Result<VarSet, OutOfMemory>
        ensures { IfOk result (λ set. set ≡ replicate (vars + 1) false) }
    {
        if MOST_VARS < vars {
            return Err(OutOfMemory);
        }
        let stamps = vec![in alloc; 0; vars as usize + 1]?;
        Ok(VarSet {
            stamps,
            present: 1,
            found: Vec::new(alloc),
        })
    }

    /// Takes all variables out.
    pub fn clear(&mut self)
        ensures { self.new ≡ replicate (length self.old) false }
    {
        self.found.clear();
        if self.present == u32::MAX {
            self.stamps.fill(0);
            self.present = 1;
        } else {
            self.present += 1;
        }
    }

    /// Whether the variable is in the set.
    pub fn has(&self, var: Var) -> bool
        requires { var.0 < length self.now }
        ensures { result ≡ slice_index_or self.now var.0 false }
    {
        self.stamps[var.0 as usize] == self.present
    }

    /// A literal of each variable in the set, and of those that were taken out since the set was made empty.
    pub fn found(&self) -> &[Lit]
        ensures { HaveBeenFound self.now result.now }
    {
        self.found.as_slice()
    }

    /// Puts the literal's variable in.
    pub fn insert(&mut self, lit: Lit) -> Result<(), OutOfMemory>
        requires { lit.var.0 < length self.old }
        ensures ok { OnOk result (self.new ≡ slice_set self.old lit.var.0 true) }
        ensures err { OnErr result (self.new ≡ self.old) }
    {
        if self.has(lit.var) {
            return Ok(());
        }
        self.found.push(lit)?;
        self.stamps[lit.var.0 as usize] = self.present;
        Ok(())
    }

    /// Takes the variable out.
    pub fn remove(&mut self, var: Var)
        requires { var.0 < length self.old }
        ensures { self.new ≡ slice_set self.old var.0 false }
    {
        self.stamps[var.0 as usize] = 0;
    }
}
