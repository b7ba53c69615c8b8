//! The watch lists: for each literal, the clauses that watch it.

ghost use Rattle.std.specs.Prelude.{◌≡◌, [], All, length, IfOk};

use crate::entry::{Entry, code};
use eco_meaning::OutOfMemory;
use eco_trace::Lit;
use std::alloc::Global;
use std::marker;

/// For each literal of the variables from 0 to a last one, the entries of the clauses that watch it.
#[derive(Drop)]
pub struct Lists {
    lists: Vec<Vec<Entry>>,
}

impl marker::Model for Lists {
    ghost use Rattle.std.specs.Prelude.{List, map, length, ◌≤◌, ◌^◌};
    ghost use Rattle.eco_cdcl.specs.Entries.{Watch};

    ghost Value = { List (List Watch) };

    ghost view = { λ l. map (λ v. v.items) l.lists.items };

    ghost invariant = { λ l. length l.lists.items ≤ 2 ^ 32 };
}

impl Lists {
    ghost use Rattle.std.specs.Prelude.{◌≡◌, ◌+◌, ◌*◌, ◌<◌, ◌^◌, ◌++◌, ◌∷◌, [], length, slice_get, slice_set, Some, IfOk, OnOk};
    ghost use Rattle.eco_trace.specs.declared.clause.Lit.{Lit as Literal};
    ghost use Rattle.eco_cdcl.specs.Entries.{IsChanged, IsTakenOut, code_of, list_of};

    /// Empty lists for the literals of the variables up to `vars`. From 2^31 - 1 variables on memory counts as wanting.
    pub fn new(alloc: Global, vars: u64) -> Result<Lists, OutOfMemory>
        ensures count { IfOk result (λ l. length l ≡ 2 * vars + 2) }
        ensures empty { IfOk result (λ l. (x : Literal) → list_of l x ≡ []) }
    {
        if vars >= (1 << 31) - 1 {
            return Err(OutOfMemory);
        }
        Ok(Lists {
            lists: empty_lists(alloc, 2 * vars as usize + 2)?,
        })
    }

    /// The number of entries for the literal.
    pub fn len(&self, lit: Lit) -> usize
        requires { code_of lit < length self.now }
        ensures { result ≡ length (list_of self.now lit) }
    {
        self.lists[code(lit)].len()
    }

    /// An entry for the literal.
    pub fn entry(&self, lit: Lit, at: usize) -> Entry
        requires within { code_of lit < length self.now }
        requires place { at < length (list_of self.now lit) }
        ensures { slice_get (list_of self.now lit) at ≡ Some result }
    {
        let list = &self.lists[code(lit)];
        list[at]
    }

    /// Writes another entry in the place of this one.
    pub fn set(&mut self, lit: Lit, at: usize, entry: Entry)
        requires within { code_of lit < length self.old }
        requires place { at < length (list_of self.old lit) }
        ensures { IsChanged self.old self.new lit (λ old new. new ≡ slice_set old at entry) }
    {
        let list = &mut self.lists[code(lit)];
        list[at] = entry;
    }

    /// Adds an entry for the literal.
    pub fn push(&mut self, lit: Lit, entry: Entry) -> Result<(), OutOfMemory>
        requires { code_of lit < length self.old }
        ensures { OnOk result (IsChanged self.old self.new lit (λ old new. new ≡ old ++ entry ∷ [])) }
    {
        let list = &mut self.lists[code(lit)];
        list.push(entry)?;
        Ok(())
    }

    /// Takes an entry out; the last one comes into its place.
    pub fn take_out(&mut self, lit: Lit, at: usize)
        requires within { code_of lit < length self.old }
        requires place { at < length (list_of self.old lit) }
        ensures { IsChanged self.old self.new lit (IsTakenOut at) }
    {
        let list = &mut self.lists[code(lit)];
        let _entry = list.swap_remove(at);
    }
}

/// So many empty lists.
fn empty_lists(alloc: Global, count: usize) -> Result<Vec<Vec<Entry>>, OutOfMemory>
    ensures count { IfOk result (λ lists. length lists.items ≡ count) }
    ensures empty { IfOk result (λ lists. All (λ l. l.items ≡ []) lists.items) }
{
    let mut lists = Vec::with_capacity(alloc, count)?;
    for _list in 0..count {
        lists.push(Vec::new(alloc))?;
    }
    Ok(lists)
}
