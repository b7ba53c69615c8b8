//! The program: the top call over the system's files and standard output. Of a long run it tells on standard error, if that is a
//! terminal.
#![tactic(auto)]

mod line;
mod telling;

use eco_cli::run_heard;
use eco_outside::FileStore;
use line::{ClearedSink, Line};
use std::io::IsTerminal;
use std::process::ExitCode;
use std::rt::Env;
use std::{env, io};
use telling::Teller;

/// Does what the words ask for, and ends with its status: 2 where the words aren't UTF-8, 7 where they can't be had.
fn main(rt: HostRuntime) -> ExitCode {
    match words(&rt) {
        Ok(words) => {
            let mut store = FileStore::new(rt.alloc(), &rt);
            let line = Line::new(&rt, width(&rt));
            let mut sink = ClearedSink::new(&rt, &line);
            let mut teller = Teller::new(&rt, &line);
            let outcome = run_heard(
                rt.alloc(),
                words.as_slice(),
                &mut store,
                &mut sink,
                &mut teller,
            );
            line.clear();
            ExitCode::from(outcome.status)
        }
        Err(error) => ExitCode::from(status_without_words(&error)),
    }
}

/// How many characters a line on standard error may have, so that it stays one: one less than the terminal's columns, which are those
/// that `COLUMNS` gives, or 80. None if it is no terminal.
fn width(rt: &HostRuntime) -> Option<usize> {
    if rt.stderr().is_terminal() {
        let columns = columns(rt).unwrap_or(80);
        Some(columns.saturating_sub(1))
    } else {
        None
    }
}

/// The number that the variable `COLUMNS` gives; None if it gives none.
fn columns(rt: &(impl Env + AllocGlobal)) -> Option<usize> {
    match env::var(rt, "COLUMNS") {
        Ok(text) => text.as_str().parse::<usize>().ok(),
        Err(_) => None,
    }
}

fn words(rt: &(impl Env + AllocGlobal)) -> io::Result<Vec<String>> {
    let mut words = Vec::new(rt.alloc());
    for word in env::args(rt)? {
        words.push(word)?;
    }
    Ok(words)
}

fn status_without_words(error: &io::Error) -> u8 {
    if error.kind() == io::ErrorKind::InvalidData {
        2
    } else {
        7
    }
}
