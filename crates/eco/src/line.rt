//! The line on a terminal that tells how far a run has come, and standard output, which is written with that line cleared.

ghost use Rattle.eco_outside.specs.Edge.{out_view};

use eco_outside::{OutSink, Sink, SinkError};
use std::cell::Cell;

/// One line on standard error, rewritten in place.
#[derive(Drop)]
pub struct Line<R> {
    runtime: R,
    /// The most characters that it may have; None if standard error is no terminal, where nothing is shown.
    width: Option<usize>,
    /// Whether something is shown.
    stands: Cell<bool>,
}

impl<R: Eprint> Line<R> {
    /// A line that shows nothing yet, and may have so many characters.
    pub fn new(runtime: R, width: Option<usize>) -> Self {
        Line {
            runtime,
            width,
            stands: Cell::new(false),
        }
    }

    /// Whether there is a terminal to show it on.
    pub fn is_visible(&self) -> bool {
        self.width.is_some()
    }

    /// Shows this text of ASCII, as far as the width goes, in place of what it showed. What can't be written is left out.
    pub fn show(&self, text: &str) {
        if let Some(width) = self.width {
            let cut = text.get(..width).unwrap_or(text);
            let _ = eprint!(self.runtime; "\r\x1b[K{cut}");
            self.stands.set(true);
        }
    }

    /// Shows nothing more.
    pub fn clear(&self) {
        if self.stands.get() {
            let _ = eprint!(self.runtime; "\r\x1b[K");
            self.stands.set(false);
        }
    }
}

/// Standard output, in front of whose pieces the line is cleared.
#[derive(Drop)]
pub struct ClearedSink<'l, R> {
    sink: OutSink<R>,
    line: &'l Line<R>,
}

impl<'l, R: Print + Eprint> ClearedSink<'l, R> {
    /// A sink over the runtime's standard output, beside this line.
    pub fn new(runtime: R, line: &'l Line<R>) -> Self {
        ClearedSink {
            sink: OutSink::new(runtime),
            line,
        }
    }
}

impl<'l, R: Print + Eprint> Sink for ClearedSink<'l, R> {
    ghost view = { λ whole. out_view whole.sink };

    fn put(&mut self, piece: &[u8]) -> Result<(), SinkError> {
        self.line.clear();
        self.sink.put(piece)
    }
}
