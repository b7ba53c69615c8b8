//! What is noted of the nodes of a graph.

ghost use Rattle.std.specs.Prelude.{◌≡◌, ◌≢◌, ℕ, IfOk, OnErr};
ghost use Rattle.eco_aig.specs.Marks.{mark_at};

use eco_meaning::OutOfMemory;
use std::alloc::Global;
use std::marker::Model;

/// A mark for each node of a graph that grows: the one that it was given last, or the one that all nodes have at first.
#[derive(Drop)]
pub struct Marks<M> {
    first: M,
    marks: Vec<M>,
}

impl<M> Model for Marks<M> {
    ghost use Rattle.eco_aig.specs.Marks.{MarksValue};

    ghost Value = { MarksValue M };

    ghost view = { λ m. record { first = m.first; marks = m.marks.items } };
}

impl<M: Copy> Marks<M> {
    ghost use Rattle.std.specs.Prelude.{◌≤◌, length};

    /// Each node has this mark.
    pub fn new(alloc: Global, first: M) -> Marks<M>
        ensures { (node : ℕ) → mark_at result node ≡ first }
    {
        Marks {
            first,
            marks: Vec::new(alloc),
        }
    }

    /// The node's mark.
    pub fn of(&self, node: u64) -> M
        ensures { result ≡ mark_at self.now node }
    {
        match self.marks.get(node as usize) {
            None => self.first,
            Some(mark) => *mark,
        }
    }

    /// Gives the node a mark. Where memory runs out, all marks stay.
    pub fn set(&mut self, node: u64, mark: M) -> Result<(), OutOfMemory>
        ensures given { IfOk result (λ _. mark_at self.new node ≡ mark) }
        ensures others { (other : ℕ) → other ≢ node → mark_at self.new other ≡ mark_at self.old other }
        ensures err { OnErr result (mark_at self.new node ≡ mark_at self.old node) }
    {
        self.stretch(node)?;
        if let Some(place) = self.marks.get_mut(node as usize) {
            *place = mark;
            return Ok(());
        }
        self.marks.push(mark)?;
        Ok(())
    }

    /// Lets each node before this one have a place.
    fn stretch(&mut self, node: u64) -> Result<(), OutOfMemory>
        ensures kept { (k : ℕ) → mark_at self.new k ≡ mark_at self.old k }
        ensures first { self.new.first ≡ self.old.first }
        ensures reach { IfOk result (λ _. node ≤ length self.new.marks) }
    {
        for _more in self.marks.len() as u64..node {
            self.marks.push(self.first)?;
        }
        Ok(())
    }
}
