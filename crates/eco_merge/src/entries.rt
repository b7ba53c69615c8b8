//! Entries about nodes that edges reach.

ghost use Rattle.std.specs.Prelude.{◌≡◌, All, Contains, OnOk, filter};
ghost use Rattle.eco_lists.specs.Bits.{bit_at};
ghost use Rattle.eco_aig.specs.Graph.{IsEdge};
ghost use Rattle.eco_merge.specs.declared.loose.Loose.{Loose as Entry};
ghost use Rattle.eco_merge.specs.Counting.{IsAboutReached};
ghost use Rattle.eco_merge.specs.Marked.{are_marked};

use crate::loose::Loose;
use eco_aig::{Aig, Edge, reached};
use eco_meaning::OutOfMemory;
use std::alloc::Global;

/// Keeps the entries whose nodes the edges reach, and no others.
pub(crate) fn keep_reached(
    alloc: Global,
    aig: &Aig,
    roots: &[Edge],
    entries: &mut Vec<Loose>,
) -> Result<(), OutOfMemory>
    requires roots { All (IsEdge aig.now) roots.now }
    ensures about { OnOk result (All (IsAboutReached aig.now roots.now) entries.new.items) }
    ensures kept { OnOk result ((entry : Entry) → Contains entries.old.items entry → IsAboutReached aig.now roots.now entry
        → Contains entries.new.items entry) }
    ensures older { OnOk result (All (Contains entries.old.items) entries.new.items) }
{
    let marks = reached(alloc, aig, roots)?;
    keep_marked(marks.as_slice(), entries);
    Ok(())
}

/// Keeps the entries whose nodes have marks.
fn keep_marked(marks: &[bool], entries: &mut Vec<Loose>)
    ensures { entries.new.items ≡ filter (are_marked marks.now) entries.old.items }
{
    entries.retain(|entry| has_marks(marks, entry));
}

/// Whether the entry's nodes have marks.
fn has_marks(marks: &[bool], entry: &Loose) -> bool
    ensures { result ≡ are_marked marks.now entry.now }
{
    let is_other_marked = match entry.other {
        None => true,
        Some(other) => is_marked(marks, other),
    };
    is_marked(marks, entry.node) && is_other_marked
}

/// Whether the node has a mark.
fn is_marked(marks: &[bool], node: u64) -> bool
    ensures { result ≡ bit_at marks.now node }
{
    marks.get(node as usize).copied().unwrap_or(false)
}
