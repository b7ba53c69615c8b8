//! What a long run tells of its progress, and who hears it. Nothing that is told or heard bears on what the run answers.

ghost use Rattle.std.specs.Prelude.{◌≡◌};

use eco_base::Target;
use eco_find::Way;

/// What a run tells.
#[derive(Clone, Copy, PartialEq, Eq)]
pub enum Event {
    /// It begins to decide whether the implementation can be rectified.
    Deciding,
    /// It begins with a target, and with choosing signals for it: the target's number, the first one being 1, how many there are,
    /// and how the signals are chosen.
    Target { number: u64, count: u64, way: Way },
    /// The signals for the target are chosen. It makes a function of them, merges what is equal, and looks for a smaller one.
    Function,
    /// It puts a question to the search: the number of the question in this run, the first one being 1.
    Question { number: u64 },
    /// The target has its function, and needs so many signals that no target before it reads.
    Base { signals: u64 },
}

/// Hears what a run tells. Nothing is promised of what it does then.
pub trait Listener {
    /// Takes in what is told.
    fn hear(&mut self, event: Event);
}

/// Tells the search of the target's engine. The target stays what it is.
pub fn tell<R: Listener>(target: &mut Target<'_, R>, event: Event)
    ensures { target.new ≡ target.old }
{
    let engine = &mut target.engine;
    engine.search.hear(event);
}

/// Ignores whatever is told.
#[derive(Drop)]
pub struct Silent {}

impl Silent {
    /// The listener that ignores all.
    pub fn new() -> Silent {
        Silent {}
    }
}

impl Listener for Silent {
    fn hear(&mut self, _event: Event) {}
}
