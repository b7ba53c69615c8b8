//! How far a run has come, in words.

ghost use Rattle.std.specs.Prelude.{Some};
ghost use Rattle.eco_cli.specs.Telling.{place_text, step_text, standing_text};

use eco_targets::{Event, Way};
use std::fmt;
use std::fmt::{Display, Formatter};

/// A target's number, the first one being 1, how many there are, and the way in which its base is chosen. With an effort, several
/// targets are gone through twice: for cheap bases, and by the greedy choice, whose patch is taken if it costs less.
#[derive(Clone, Copy)]
struct Place {
    number: u64,
    count: u64,
    way: Way,
}

/// The step that a run is at.
#[derive(Clone, Copy)]
enum Step {
    /// It decides whether the implementation can be rectified.
    Deciding,
    /// It chooses the signals for a target.
    Choosing(Place),
    /// It makes the target's function.
    Making(Place),
}

impl Step {
    /// The next step, where signals were chosen.
    fn making(self) -> Step {
        match self {
            Step::Deciding => Step::Deciding,
            Step::Choosing(place) | Step::Making(place) => Step::Making(place),
        }
    }
}

impl Display for Place {
    ghost output = { λ place. Some (place_text place) };

    fn fmt<W: fmt::Write>(&self, f: &mut Formatter<W>) -> fmt::Result {
        match self.way {
            Way::Light(_) if self.count > 1 => {
                write!(f, "pass 1 of 2: target {} of {}", self.number, self.count)
            }
            Way::Within(_) => write!(
                f,
                "pass 2 of 2, greedy for comparison: target {} of {}",
                self.number, self.count
            ),
            _ => write!(f, "target {} of {}", self.number, self.count),
        }
    }
}

impl Display for Step {
    ghost output = { λ step. Some (step_text step) };

    fn fmt<W: fmt::Write>(&self, f: &mut Formatter<W>) -> fmt::Result {
        match *self {
            Step::Deciding => write!(f, "deciding whether it can be rectified"),
            Step::Choosing(place) => match place.way {
                Way::Light(_) => write!(f, "{place}, looking for a cheap base"),
                _ => write!(f, "{place}, choosing its base"),
            },
            Step::Making(place) => write!(f, "{place}, making its function"),
        }
    }
}

/// How far a run has come. Its text is the step that the run is at, how many questions were put to the search, how many of them in
/// this step, and where it is at a target, how many signals those before it need.
#[derive(Clone, Copy)]
pub struct Standing {
    step: Step,
    questions: u64,
    /// How many questions were put before this step.
    before: u64,
    signals: u64,
}

impl Standing {
    /// Of a run that begins.
    pub fn new() -> Standing {
        Standing {
            step: Step::Deciding,
            questions: 0,
            before: 0,
            signals: 0,
        }
    }

    /// Takes in what is told.
    pub fn note(&mut self, event: Event) {
        match event {
            Event::Deciding => self.begin(Step::Deciding),
            Event::Target { number, count, way } => {
                self.begin_target(Place { number, count, way })
            }
            Event::Function => self.begin(self.step.making()),
            Event::Question { number } => self.questions = number,
            Event::Base { signals } => self.signals = self.signals.saturating_add(signals),
        }
    }

    /// It chooses the signals for this target from now on. None are chosen before the first one, also where the targets begin anew.
    fn begin_target(&mut self, place: Place) {
        if place.number == 1 {
            self.signals = 0;
        }
        self.begin(Step::Choosing(place));
    }

    /// It is at this step from now on.
    fn begin(&mut self, step: Step) {
        self.step = step;
        self.before = self.questions;
    }
}

impl Display for Standing {
    ghost output = { λ standing. Some (standing_text standing) };

    fn fmt<W: fmt::Write>(&self, f: &mut Formatter<W>) -> fmt::Result {
        let here = self.questions.saturating_sub(self.before);
        match self.step {
            Step::Deciding => write!(
                f,
                "{}, question {} ({here} in this step)",
                self.step, self.questions
            ),
            Step::Choosing(_) | Step::Making(_) => write!(
                f,
                "{}, question {} ({here} in this step), signals so far: {}",
                self.step, self.questions, self.signals
            ),
        }
    }
}
