//! What a long run tells on standard error.

use crate::line::Line;
use eco_cli::{Event, Listener, Standing};
use std::rt::Clock;
use std::time::{Duration, Instant};

/// Tells how far a run has come, by a line that is rewritten: once a second at most, and not in the first one; after the first time
/// also where a step begins, so that no line names a step that is over. Where the clock can't be had, it is rewritten for each step
/// and for each hundredth question. A text for which there is no memory is left out.
#[derive(Drop)]
pub struct Teller<'l, R> {
    runtime: R,
    line: &'l Line<R>,
    /// When the run began; nothing where the clock can't be had.
    began: Option<Instant>,
    /// When the line was last due by the clock, or the run began; nothing where the clock can't be had.
    last: Option<Instant>,
    /// Whether something was told.
    has_told: bool,
    standing: Standing,
}

impl<'l, R: Eprint + Clock + AllocGlobal> Teller<'l, R> {
    /// A teller of a run that begins now, on this line.
    pub fn new(runtime: R, line: &'l Line<R>) -> Self {
        let now = Instant::now(&runtime).ok();
        Teller {
            runtime,
            line,
            began: now,
            last: now,
            has_told: false,
            standing: Standing::new(),
        }
    }

    /// Whether the line is to be rewritten now.
    fn is_due(&mut self, event: Event) -> bool {
        match self.last {
            Some(last) => self.has_waited(last) || self.has_told && begins_step(event),
            None => is_milestone(event),
        }
    }

    /// Whether a second has passed since the last line. Then the next one counts from now.
    fn has_waited(&mut self, last: Instant) -> bool {
        match Instant::now(&self.runtime) {
            Ok(now) if now.duration_since(last) >= Duration::from_secs(1) => {
                self.last = Some(now);
                true
            }
            Ok(_) => false,
            Err(_) => {
                self.last = None;
                false
            }
        }
    }

    /// The whole seconds since the run began; nothing where the clock can't be had.
    fn seconds(&self) -> Option<u64> {
        match (self.began, Instant::now(&self.runtime)) {
            (Some(began), Ok(now)) => Some(now.duration_since(began).as_secs()),
            _ => None,
        }
    }

    /// Tells how far the run is.
    fn tell(&self) {
        let alloc = self.runtime.alloc();
        let text = match self.seconds() {
            Some(seconds) => format!(in alloc; "eco: {seconds} s, {}", self.standing),
            None => format!(in alloc; "eco: {}", self.standing),
        };
        if let Ok(text) = text {
            self.line.show(text.as_str());
        }
    }
}

impl<'l, R: Eprint + Clock + AllocGlobal> Listener for Teller<'l, R> {
    fn hear(&mut self, event: Event) {
        self.standing.note(event);
        if self.line.is_visible() && self.is_due(event) {
            self.has_told = true;
            self.tell();
        }
    }
}

/// Whether a line tells of this where the clock can't be had.
fn is_milestone(event: Event) -> bool {
    match event {
        Event::Question { number } => number % 100 == 0,
        _ => begins_step(event),
    }
}

/// Whether a step begins with this.
fn begins_step(event: Event) -> bool {
    matches!(event, Event::Target { .. } | Event::Function)
}
