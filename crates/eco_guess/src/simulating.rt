//! Simulation: a word for each node of a graph.

use crate::opened::Opened;
use crate::patterns::Patterns;
use eco_aig::{Aig, Edge};
use eco_meaning::OutOfMemory;
use eco_simulate::turned;
use std::alloc::Global;

/// The word in this place, 0 where there is none.
pub(crate) fn word_at(words: &[u64], place: usize) -> u64 {
    words.get(place).copied().unwrap_or(0)
}

/// The word of an edge.
pub(crate) fn edge_word(words: &[u64], edge: Edge) -> u64 {
    let word = word_at(words, edge.node as usize);
    turned(word, edge.complemented)
}

/// Lets the edge have this word.
pub(crate) fn put_word(words: &mut Vec<u64>, edge: Edge, word: u64) {
    if let Some(place) = words.get_mut(edge.node as usize) {
        *place = turned(word, edge.complemented);
    }
}

/// Gives the node its word, if it is an and-node.
pub(crate) fn simulate_node(aig: &Aig, node: u64, words: &mut Vec<u64>) {
    if let Some((first, second)) = aig.pair(node) {
        let word = edge_word(words.as_slice(), first) & edge_word(words.as_slice(), second);
        if let Some(place) = words.get_mut(node as usize) {
            *place = word;
        }
    }
}

/// Gives all and-nodes their words.
pub(crate) fn simulate(aig: &Aig, words: &mut Vec<u64>) {
    for node in 0..aig.nodes() {
        simulate_node(aig, node, words);
    }
}

/// A word for each node of a graph, 0 at all but the inputs, which have those of the patterns.
pub(crate) fn input_words(
    alloc: Global,
    aig: &Aig,
    inputs: &[Edge],
    patterns: &Patterns,
    place: usize,
) -> Result<Vec<u64>, OutOfMemory> {
    let mut words = vec![in alloc; 0; aig.nodes() as usize]?;
    for (number, input) in inputs.iter().enumerate() {
        put_word(&mut words, *input, patterns.word(number, place));
    }
    Ok(words)
}

/// At which patterns the output of this number isn't as it is wanted.
pub(crate) fn wrong_word(opened: &Opened, output: usize, words: &[u64]) -> u64 {
    let value = opened.outputs.get(output).copied().unwrap_or(Edge::ZERO);
    let wanted = opened.wanted.get(output).copied().unwrap_or(value);
    let unlike = edge_word(words, value) ^ edge_word(words, wanted);
    unlike & edge_word(words, opened.cared)
}
