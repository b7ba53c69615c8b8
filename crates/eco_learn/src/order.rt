//! The order in which a search decides.

use crate::taken::MOST_VARS;
use eco_meaning::OutOfMemory;
use eco_trace::Var;
use std::alloc::Global;

/// The place of a variable that is not in the heap.
const NOWHERE: usize = usize::MAX;

/// No heap is deeper.
const DEPTH: usize = 64;

/// Above this score all scores are made smaller.
const MOST_SCORE: f64 = 1e100;

const SMALLER: f64 = 1e-100;

/// What a score gains grows by this factor, so that activity counts for less the longer ago it was.
const GROWTH: f64 = 1.0526315789473684;

/// The variables that may be decided next, by their activity: a heap. Nothing is claimed of it but that it is safe; a
/// search asks the trail whether a variable is open.
#[derive(Drop)]
pub struct Order {
    heap: Vec<u32>,
    places: Vec<usize>,
    scores: Vec<f64>,
    gain: f64,
}

impl Order {
    /// All variables from 1 to `vars`, none of which was active yet. There is no memory for more than 2^31 - 1 of them.
    pub fn new(alloc: Global, vars: u64) -> Result<Order, OutOfMemory> {
        if MOST_VARS < vars {
            return Err(OutOfMemory);
        }
        let mut heap = Vec::with_capacity(alloc, vars as usize)?;
        let mut places = Vec::with_capacity(alloc, vars as usize + 1)?;
        places.push(NOWHERE)?;
        for place in 0..vars {
            heap.push(place as u32 + 1)?;
            places.push(place as usize)?;
        }
        let scores = vec![in alloc; 0.0; vars as usize + 1]?;
        Ok(Order {
            heap,
            places,
            scores,
            gain: 1.0,
        })
    }

    /// Takes out the variable of the highest activity; of several, one with the least number.
    pub fn next(&mut self) -> Option<Var> {
        let first = self.at(0);
        let last = self.heap.pop();
        match (first, last) {
            (Some(first), Some(last)) => {
                self.note(first, NOWHERE);
                if first != last {
                    self.sink(last);
                }
                Some(Var(u64::from(first)))
            }
            _ => None,
        }
    }

    /// Puts the variable back in, unless it is there.
    pub fn put(&mut self, var: Var) {
        if let Ok(number) = u32::try_from(var.0) {
            if self.place(number) == Some(NOWHERE) {
                let place = self.heap.len();
                if self.heap.push(number).is_ok() {
                    self.rise(place, number);
                }
            }
        }
    }

    /// The variable was active.
    pub fn raise(&mut self, var: Var) {
        if let Ok(number) = u32::try_from(var.0) {
            self.gain_score(number);
            match self.place(number) {
                Some(place) => self.rise_from(place, number),
                None => (),
            }
        }
    }

    /// Lets activity count for less the longer ago it was.
    pub fn fade(&mut self) {
        self.gain = self.gain * GROWTH;
    }

    fn gain_score(&mut self, number: u32) {
        let index = number as usize;
        if index < self.scores.len() {
            let score = self.scores[index] + self.gain;
            self.scores[index] = score;
            if MOST_SCORE < score {
                self.make_smaller();
            }
        }
    }

    /// Makes all scores smaller, in the same order.
    fn make_smaller(&mut self) {
        for score in self.scores.iter_mut() {
            *score = *score * SMALLER;
        }
        self.gain = self.gain * SMALLER;
    }

    /// The variable at this place of the heap.
    fn at(&self, place: usize) -> Option<u32> {
        self.heap.get(place).copied()
    }

    /// The variable's place in the heap.
    fn place(&self, number: u32) -> Option<usize> {
        self.places.get(number as usize).copied()
    }

    fn score(&self, number: u32) -> f64 {
        self.scores.get(number as usize).copied().unwrap_or(0.0)
    }

    /// Whether the first variable is to be decided before the second.
    fn is_before(&self, first: u32, second: u32) -> bool {
        let score = self.score(first);
        let other = self.score(second);
        other < score || (score == other && first < second)
    }

    /// Notes the variable's place.
    fn note(&mut self, number: u32, place: usize) {
        let index = number as usize;
        if index < self.places.len() {
            self.places[index] = place;
        }
    }

    /// Writes the variable to a place of the heap.
    fn write(&mut self, place: usize, number: u32) {
        if place < self.heap.len() {
            self.heap[place] = number;
            self.note(number, place);
        }
    }

    /// Lets a variable that is in the heap rise from its place.
    fn rise_from(&mut self, place: usize, number: u32) {
        if place != NOWHERE {
            self.rise(place, number);
        }
    }

    /// Lets the variable rise from this place, which is free, past those that come behind it.
    fn rise(&mut self, from: usize, number: u32) {
        let mut place = from;
        for _ in 0..DEPTH {
            match self.passed(place, number) {
                None => break,
                Some(parent) => {
                    self.write(place, parent);
                    place = place.saturating_sub(1) / 2;
                }
            }
        }
        self.write(place, number);
    }

    /// The variable above the place, if it comes behind this one.
    fn passed(&self, place: usize, number: u32) -> Option<u32> {
        if place == 0 {
            return None;
        }
        match self.at((place - 1) / 2) {
            Some(parent) if self.is_before(number, parent) => Some(parent),
            _ => None,
        }
    }

    /// Lets the variable sink from the top, which is free, past those that come before it.
    fn sink(&mut self, number: u32) {
        let mut place = 0;
        for _ in 0..DEPTH {
            let child = self.first_child(place);
            match self.at(child) {
                Some(below) if self.is_before(below, number) => {
                    self.write(place, below);
                    place = child;
                }
                _ => break,
            }
        }
        self.write(place, number);
    }

    /// The place below this one whose variable comes first.
    fn first_child(&self, place: usize) -> usize {
        let left = place.saturating_mul(2).saturating_add(1);
        let right = left.saturating_add(1);
        match (self.at(left), self.at(right)) {
            (Some(one), Some(other)) if self.is_before(other, one) => right,
            _ => left,
        }
    }
}
