//! Names of nets, and what a gate reads.

ghost use Rattle.std.specs.Prelude.{◌≡◌, Some, [], ◌∷◌};
ghost use Rattle.std.specs.List.{list_all};
ghost use Rattle.std.specs.Hash as fed;
ghost use Rattle.std.specs.Cmp.Rules.{comparing, hashing};
ghost use Rattle.std.proofs.Common.{rules};
ghost use Rattle.std.specs.Str.{bytes_eq};
ghost use Rattle.std.specs.Ordering.{nat_cmp};
ghost use Rattle.std.specs.Cmp.Lexicographic.{slice_cmp};
ghost use Rattle.eco_meaning.specs.Names.{is_name, is_printing};

use crate::memory::OutOfMemory;
use std::alloc::Global;
use std::cmp::Ordering;
use std::hash::{Hash, Hasher};
use std::marker::Model;

/// The name of a net or a module: one or more printing bytes, 33 to 126 (what an identifier of IEEE 1364-2005,
/// section 3.7, may hold). Names are compared and ordered by their bytes.
#[derive(Drop)]
pub struct Name {
    bytes: Vec<u8>,
}

impl Model for Name {
    ghost use Rattle.std.specs.Prelude.{List, ℕ, IsTrue};
    ghost use Rattle.eco_meaning.specs.Names.{is_name};

    ghost Value = { List ℕ };

    ghost view = { λ name. name.bytes.items };

    ghost invariant = { λ name. IsTrue (is_name name.bytes.items) };
}

impl Name {
    ghost use Rattle.std.specs.Prelude.{◌≡◌, IfOk, MatchOption, IsTrue, false};
    ghost use Rattle.eco_meaning.specs.Names.{is_name};

    /// The name of these bytes; None exactly where there is none or one of them is no printing byte.
    pub fn new(alloc: Global, bytes: &[u8]) -> Result<Option<Name>, OutOfMemory>
        ensures exactly { IfOk result (λ name. MatchOption name (is_name bytes.now ≡ false)
            (λ n. (n ≡ bytes.now) × IsTrue (is_name bytes.now))) }
    {
        if can_name(bytes) {
            let bytes = Vec::from_slice(alloc, bytes)?;
            Ok(Some(Name { bytes }))
        } else {
            Ok(None)
        }
    }

    /// The bytes of the name.
    pub fn bytes(&self) -> &[u8]
        ensures value { result.now ≡ self.now }
        ensures printing { IsTrue (is_name self.now) }
    {
        self.bytes.as_slice()
    }

    /// The same name again.
    pub fn copy(&self) -> Result<Name, OutOfMemory>
        ensures same { IfOk result (λ name. name ≡ self.now) }
    {
        let bytes = Vec::from_slice(*self.bytes.allocator(), self.bytes.as_slice())?;
        Ok(Name { bytes })
    }
}

fn can_name(bytes: &[u8]) -> bool
    ensures { result ≡ is_name bytes.now }
{
    !bytes.is_empty() && are_printing(bytes)
}

fn are_printing(bytes: &[u8]) -> bool
    ensures { result ≡ list_all is_printing bytes.now }
{
    bytes.iter().all(|byte| 33 <= *byte && *byte <= 126)
}

impl PartialEq for Name {
    ghost eq = { bytes_eq };

    ghost laws = { Prim.search (comparing, rules) };

    fn eq(&self, other: &Name) -> bool {
        self.bytes.as_slice() == other.bytes.as_slice()
    }
}

impl Eq for Name {
    ghost laws = { Prim.search (comparing, rules) };
}

impl PartialOrd for Name {
    ghost partial_cmp = { λ a b. Some (slice_cmp nat_cmp a b) };

    ghost laws = { Prim.search (comparing, rules) };

    fn partial_cmp(&self, other: &Name) -> Option<Ordering> {
        Some(self.cmp(other))
    }
}

impl Ord for Name {
    ghost cmp = { slice_cmp nat_cmp };

    ghost total = { Prim.search (comparing, rules) };

    ghost matches_partial_cmp = { Prim.search (comparing, rules) };

    ghost matches_eq = { Prim.search (comparing, rules) };

    fn cmp(&self, other: &Name) -> Ordering {
        self.bytes.as_slice().cmp(&other.bytes.as_slice())
    }
}

// A name is fed as one piece: no name is followed by more in what a table hashes.
impl Hash for Name {
    ghost hash_input = { λ name. name ∷ [] };

    ghost respects_eq = { Prim.search (hashing, rules) };

    fn hash<H: Hasher>(&self, state: &mut H) {
        state.write(self.bytes.as_slice());
    }
}

/// What an input of a gate reads: a constant (`1'b0`, `1'b1`) or a net.
#[derive(Drop)]
pub enum Operand {
    Zero,
    One,
    Named(Name),
}
