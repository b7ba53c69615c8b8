//! What a long run tells: the events in their order, and how far it has come in words.

use crate::cases::{SYNTH, listed, store_of};
use eco_cli::{Event, Listener, Standing, Way, run_heard};
use eco_outside::{MemSink, Store};
use std::alloc::Global;
use std::process::Abort;
use std::test::Fail;

const FIRST_GREEDY: Event = Event::Target {
    number: 1,
    count: 2,
    way: Way::Greedy,
};

const SECOND_GREEDY: Event = Event::Target {
    number: 2,
    count: 2,
    way: Way::Greedy,
};

const FIRST_LIGHT: Event = Event::Target {
    number: 1,
    count: 2,
    way: Way::Light(8),
};

const SECOND_LIGHT: Event = Event::Target {
    number: 2,
    count: 2,
    way: Way::Light(8),
};

const FIRST_WITHIN: Event = Event::Target {
    number: 1,
    count: 2,
    way: Way::Within(8),
};

const SECOND_WITHIN: Event = Event::Target {
    number: 2,
    count: 2,
    way: Way::Within(8),
};

const ONLY_LIGHT: Event = Event::Target {
    number: 1,
    count: 1,
    way: Way::Light(8),
};

/// What is told, one after the other, of a run that begins the targets anew, and what it is at then.
const ROWS: [(Event, &str); 18] = [
    (
        Event::Deciding,
        "deciding whether it can be rectified, question 0 (0 in this step)",
    ),
    (
        Event::Question { number: 1 },
        "deciding whether it can be rectified, question 1 (1 in this step)",
    ),
    (
        FIRST_LIGHT,
        "pass 1 of 2: target 1 of 2, looking for a cheap base, question 1 (0 in this step), signals so far: 0",
    ),
    (
        Event::Question { number: 2 },
        "pass 1 of 2: target 1 of 2, looking for a cheap base, question 2 (1 in this step), signals so far: 0",
    ),
    (
        Event::Question { number: 3 },
        "pass 1 of 2: target 1 of 2, looking for a cheap base, question 3 (2 in this step), signals so far: 0",
    ),
    (
        Event::Function,
        "pass 1 of 2: target 1 of 2, making its function, question 3 (0 in this step), signals so far: 0",
    ),
    (
        Event::Question { number: 4 },
        "pass 1 of 2: target 1 of 2, making its function, question 4 (1 in this step), signals so far: 0",
    ),
    (
        Event::Base { signals: 3 },
        "pass 1 of 2: target 1 of 2, making its function, question 4 (1 in this step), signals so far: 3",
    ),
    (
        SECOND_LIGHT,
        "pass 1 of 2: target 2 of 2, looking for a cheap base, question 4 (0 in this step), signals so far: 3",
    ),
    (
        Event::Function,
        "pass 1 of 2: target 2 of 2, making its function, question 4 (0 in this step), signals so far: 3",
    ),
    (
        Event::Base { signals: 2 },
        "pass 1 of 2: target 2 of 2, making its function, question 4 (0 in this step), signals so far: 5",
    ),
    (
        FIRST_WITHIN,
        "pass 2 of 2, greedy for comparison: target 1 of 2, choosing its base, question 4 (0 in this step), signals so far: 0",
    ),
    (
        Event::Question { number: 5 },
        "pass 2 of 2, greedy for comparison: target 1 of 2, choosing its base, question 5 (1 in this step), signals so far: 0",
    ),
    (
        Event::Function,
        "pass 2 of 2, greedy for comparison: target 1 of 2, making its function, question 5 (0 in this step), signals so far: 0",
    ),
    (
        Event::Base { signals: 4 },
        "pass 2 of 2, greedy for comparison: target 1 of 2, making its function, question 5 (0 in this step), signals so far: 4",
    ),
    (
        FIRST_GREEDY,
        "target 1 of 2, choosing its base, question 5 (0 in this step), signals so far: 0",
    ),
    (
        Event::Function,
        "target 1 of 2, making its function, question 5 (0 in this step), signals so far: 0",
    ),
    (
        ONLY_LIGHT,
        "target 1 of 1, looking for a cheap base, question 5 (0 in this step), signals so far: 0",
    ),
];

#[test]
fn a_run_of_two_targets(rt: HostRuntime) -> Result<(), Fail> {
    let mut standing = Standing::new();
    for (event, text) in ROWS {
        standing.note(event);
        is_told(&rt, standing, text)?;
    }
    Ok(())
}

fn is_told(rt: &(impl Abort + AllocGlobal), standing: Standing, text: &str) -> Result<(), Fail> {
    let told = format!(in rt.alloc(); "{standing}")?;
    assert_eq!(rt; told.as_str(), text);
    Ok(())
}

/// Keeps what is told but for the questions, and counts these.
#[derive(Drop)]
struct Record {
    events: Vec<Event>,
    questions: u64,
    /// Whether each question so far had the next number, and all else is kept.
    is_whole: bool,
}

impl Record {
    fn keep(&mut self, event: Event) {
        if self.events.push(event).is_err() {
            self.is_whole = false;
        }
    }

    fn count(&mut self, number: u64) {
        self.is_whole = self.is_whole && number.checked_sub(1) == Some(self.questions);
        self.questions = number;
    }
}

impl Listener for Record {
    fn hear(&mut self, event: Event) {
        match event {
            Event::Question { number } => self.count(number),
            _ => self.keep(event),
        }
    }
}

const BASE_OF_TWO: Event = Event::Base { signals: 2 };

const NO_BASE: Event = Event::Base { signals: 0 };

/// Two targets, of which the first one has to read both inputs, and the other one nothing else.
const FILES: [(&str, &[u8]); 3] = [
    (
        "f.v",
        b"module f (a, b, y, z); input a, b; output y, z; buf (y, t_0); buf (z, t_1); endmodule",
    ),
    (
        "g.v",
        b"module g (a, b, y, z); input a, b; output y, z; and (y, a, b); or (z, a, b); endmodule",
    ),
    ("w.txt", b""),
];

/// The words of a run behind those of the paths, and what it tells but for the questions.
struct Row {
    more: &'static [&'static str],
    events: &'static [Event],
}

const RUNS: [Row; 2] = [
    Row {
        more: &[],
        events: &[
            Event::Deciding,
            FIRST_GREEDY,
            Event::Function,
            BASE_OF_TWO,
            SECOND_GREEDY,
            Event::Function,
            NO_BASE,
        ],
    },
    Row {
        more: &["--least", "8"],
        events: &[
            Event::Deciding,
            FIRST_LIGHT,
            Event::Function,
            BASE_OF_TWO,
            SECOND_LIGHT,
            Event::Function,
            NO_BASE,
            // the greedy choices, which are made for all of several targets too
            FIRST_WITHIN,
            Event::Function,
            BASE_OF_TWO,
            SECOND_WITHIN,
            Event::Function,
            NO_BASE,
        ],
    },
];

#[test]
fn what_two_runs_tell(rt: HostRuntime) -> Result<(), Fail> {
    for row in &RUNS {
        try_row(&rt, row)?;
    }
    Ok(())
}

fn try_row(rt: &(impl Abort + AllocGlobal), row: &Row) -> Result<(), Fail> {
    let mut store = store_of(rt, &FILES, None)?;
    let mut record = Record {
        events: Vec::new(rt.alloc()),
        questions: 0,
        is_whole: true,
    };
    let status = heard_status(rt.alloc(), row.more, &mut store, &mut record);
    drop(store);
    let held = match status {
        Ok(status) => {
            compare(rt, row, status, &record);
            Ok(())
        }
        Err(error) => Err(error),
    };
    drop(record);
    held
}

/// The exit status of a run that the record hears.
fn heard_status(
    alloc: Global,
    more: &[&str],
    store: &mut impl Store,
    record: &mut Record,
) -> Result<u8, Fail> {
    let mut words = listed(alloc, &SYNTH)?;
    for word in more {
        words.push(String::from_str(alloc, word)?)?;
    }
    let mut sink = MemSink::new(alloc, Vec::new(alloc), 0);
    let outcome = run_heard(alloc, words.as_slice(), store, &mut sink, record);
    let status = outcome.status;
    drop(outcome);
    drop(sink);
    Ok(status)
}

fn compare(rt: &impl Abort, row: &Row, status: u8, record: &Record) {
    assert_eq!(rt; status, 0);
    assert!(rt; record.is_whole);
    assert!(rt; record.questions > 0);
    assert!(rt; record.events.as_slice() == row.events);
}
