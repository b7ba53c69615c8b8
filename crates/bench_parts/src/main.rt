//! Parts of the program by themselves, to measure them.
//!
//!     bench_parts search CNF LIMIT        the search's answer, and how many clauses, literals and links its proof has
//!     bench_parts read NETLIST            how many nets a netlist has
//!     bench_parts copy NETLIST            the same of a copy, made as a splice is made
//!     bench_parts interpolate CNF TRACE   how many nodes an interpolant's graph has; the last clause is the second part
//!
//! Without words it tries each part on a small text.
#![tactic(auto)]

mod interpolating;
mod reading;
mod samples;
mod searching;

use interpolating::interpolant_nodes;
use reading::{copied_nets, nets};
use searching::{Answer, searched};
use std::rt::{Env, Files};
use std::{env, fs, io};

fn words(rt: &(impl Env + AllocGlobal)) -> io::Result<Vec<String>> {
    let mut words = Vec::new(rt.alloc());
    for word in env::args(rt)? {
        words.push(word)?;
    }
    Ok(words)
}

/// The number of these digits. What is no number gives any.
fn number_of(digits: &[u8]) -> u64 {
    let mut number = 0u64;
    for digit in digits {
        number = number.wrapping_mul(10).wrapping_add(u64::from(*digit & 15));
    }
    number
}

/// Writes a count, or that there is none.
fn tell_count(rt: &impl Print, count: Option<u64>) -> io::Result<()> {
    match count {
        Some(count) => println!(rt; "{count}"),
        None => println!(rt; "none"),
    }
}

/// Writes what the search says of the clauses.
fn tell_search(rt: &(impl Print + AllocGlobal), clauses: &[u8], limit: u64) -> io::Result<()> {
    match searched(rt.alloc(), clauses, limit) {
        Some(Answer { word, size }) => println!(rt;
            "{word} {} {} {}",
            size.learnt, size.literals, size.links
        ),
        None => println!(rt; "none"),
    }
}

/// Measures the part on the file, and on what the last word says.
fn tell(
    rt: &(impl Print + Files + AllocGlobal),
    part: &str,
    file: &[u8],
    more: &str,
) -> io::Result<()> {
    if part == "search" {
        return tell_search(rt, file, number_of(more.as_bytes()));
    }
    if part == "interpolate" {
        let proof = fs::read(rt, more)?;
        return tell_count(rt, interpolant_nodes(rt.alloc(), file, proof.as_slice()));
    }
    if part == "copy" {
        return tell_count(rt, copied_nets(rt.alloc(), file));
    }
    if part == "read" {
        return tell_count(rt, nets(rt.alloc(), file));
    }
    tell_count(rt, None)
}

/// Tries each part on a small text. Of the search it tells the answer alone.
fn try_all(rt: &(impl Print + AllocGlobal)) -> io::Result<()> {
    let word = match searched(rt.alloc(), samples::PIGEONS.as_bytes(), 1000) {
        Some(answer) => answer.word,
        None => "none",
    };
    println!(rt; "{word}")?;
    tell_count(rt, nets(rt.alloc(), samples::CHAIN.as_bytes()))?;
    tell_count(rt, copied_nets(rt.alloc(), samples::CHAIN.as_bytes()))?;
    let (clauses, proof) = samples::STEPS;
    tell_count(
        rt,
        interpolant_nodes(rt.alloc(), clauses.as_bytes(), proof.as_bytes()),
    )
}

fn word_at(words: &[String], place: usize) -> &str {
    match words.get(place) {
        Some(word) => word.as_str(),
        None => "",
    }
}

/// Measures what the words name.
fn measure(rt: &(impl Print + Files + AllocGlobal), words: &[String]) -> io::Result<()> {
    let file = fs::read(rt, word_at(words, 2))?;
    let told = tell(rt, word_at(words, 1), file.as_slice(), word_at(words, 3));
    drop(file);
    told
}

fn main(rt: HostRuntime) -> io::Result<()> {
    let words = words(&rt)?;
    let told = if words.len() > 2 {
        measure(&rt, words.as_slice())
    } else {
        try_all(&rt)
    };
    drop(words);
    told
}
