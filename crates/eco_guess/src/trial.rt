//! Choices that are tried at all patterns.

use crate::bounds::{FIRST_WORDS, TRIES, WORK};
use crate::choosing::choose;
use crate::finding::{Field, Work};
use crate::form::Form;
use crate::opened::{Hints, Opened};
use crate::patterns::Patterns;
use crate::rows::{Plan, put_target};
use crate::simulating::{input_words, simulate, wrong_word};
use eco_aig::Aig;
use eco_meaning::OutOfMemory;
use std::alloc::Global;

/// What is guessed about.
#[derive(Clone, Copy)]
pub(crate) struct Scene<'s> {
    pub(crate) alloc: Global,
    pub(crate) opened: &'s Opened<'s>,
    pub(crate) group: &'s [usize],
    /// The graph that references are edges of.
    pub(crate) graph: &'s Aig,
    pub(crate) hints: &'s Hints<'s>,
    pub(crate) patterns: Patterns<'s>,
}

/// The words at which rows were simulated: for each a word for each node of the graph, and the patterns at which each row is
/// right.
#[derive(Drop)]
struct Sample {
    columns: Vec<Vec<u64>>,
    rows: Vec<Vec<u64>>,
    work: Work,
}

/// A function for each target of the group, with which the implementation is right at all patterns.
pub(crate) fn forms_of(scene: &Scene) -> Result<Option<Vec<Form>>, OutOfMemory> {
    let plan = Plan::new(scene.alloc, scene.opened, scene.group)?;
    let mut sample = Sample {
        columns: Vec::new(scene.alloc),
        rows: Vec::new(scene.alloc),
        work: Work::new(WORK),
    };
    let forms = sample.search(scene, &plan);
    drop(sample);
    drop(plan);
    forms
}

impl Sample {
    /// Chooses functions at few words, and again with each word more at which the choice is wrong.
    fn search(&mut self, scene: &Scene, plan: &Plan) -> Result<Option<Vec<Form>>, OutOfMemory> {
        self.begin(scene, plan)?;
        for _ in 0..TRIES {
            match self.attempt(scene, plan)? {
                Attempt::None => return Ok(None),
                Attempt::Right(forms) => return Ok(Some(forms)),
                Attempt::Wrong => (),
            }
        }
        Ok(None)
    }

    /// The words that are simulated first.
    fn begin(&mut self, scene: &Scene, plan: &Plan) -> Result<(), OutOfMemory> {
        for place in 0..scene.patterns.seen_words().saturating_add(FIRST_WORDS) {
            self.add(scene, plan, place)?;
        }
        Ok(())
    }

    /// Simulates all rows at the word in this place, if as much may still be done. Answers whether it was done.
    fn add(&mut self, scene: &Scene, plan: &Plan, place: usize) -> Result<bool, OutOfMemory> {
        let rows = 1_usize << (scene.group.len() % 32);
        if !self.work.spend(plan.steps() as u64, rows) {
            return Ok(false);
        }
        let column = graph_words(scene, place)?;
        self.columns.push(column)?;
        let rows = plan.rows_at(
            scene.alloc,
            scene.opened,
            scene.group,
            &scene.patterns,
            place,
        )?;
        self.rows.push(rows)?;
        Ok(true)
    }

    /// One choice, which is tried at all patterns.
    fn attempt(&mut self, scene: &Scene, plan: &Plan) -> Result<Attempt, OutOfMemory> {
        let field = Field {
            alloc: scene.alloc,
            nodes: scene.graph.nodes(),
            columns: self.columns.as_slice(),
            nets: scene.hints.nets,
        };
        let targets = scene.group.len();
        let forms = match choose(&field, self.rows.as_slice(), targets, &mut self.work)? {
            None => return Ok(Attempt::None),
            Some(forms) => forms,
        };
        match failing(scene, plan, forms.as_slice())? {
            None => Ok(Attempt::Right(forms)),
            Some(place) => {
                if self.add(scene, plan, place)? {
                    Ok(Attempt::Wrong)
                } else {
                    Ok(Attempt::None)
                }
            }
        }
    }
}

/// What came of one choice.
enum Attempt {
    /// There is none, or too much would have to be done.
    None,
    /// It is right at all patterns.
    Right(Vec<Form>),
    /// It is wrong somewhere: there is one more word.
    Wrong,
}

/// The first word with a pattern at which the implementation isn't right with these functions.
fn failing(scene: &Scene, plan: &Plan, forms: &[Form]) -> Result<Option<usize>, OutOfMemory> {
    for place in 0..scene.patterns.words() {
        if is_wrong(scene, plan, forms, place)? {
            return Ok(Some(place));
        }
    }
    Ok(None)
}

/// Whether the implementation isn't right with these functions at some pattern of this word.
fn is_wrong(scene: &Scene, plan: &Plan, forms: &[Form], place: usize) -> Result<bool, OutOfMemory> {
    let words = graph_words(scene, place)?;
    let opened = scene.opened;
    let mut values = input_words(
        scene.alloc,
        opened.graph,
        opened.inputs,
        &scene.patterns,
        place,
    )?;
    for (target, form) in scene.group.iter().zip(forms.iter()) {
        put_target(opened, *target, form.word(words.as_slice()), &mut values);
    }
    simulate(opened.graph, &mut values);
    Ok(is_some_wrong(opened, plan, values.as_slice()))
}

/// Whether one of the group's outputs isn't as it is wanted at some pattern.
fn is_some_wrong(opened: &Opened, plan: &Plan, values: &[u64]) -> bool {
    for output in &plan.outputs {
        if wrong_word(opened, *output, values) != 0 {
            return true;
        }
    }
    false
}

/// The words of all nodes of the graph that references are edges of.
fn graph_words(scene: &Scene, place: usize) -> Result<Vec<u64>, OutOfMemory> {
    let mut words = input_words(
        scene.alloc,
        scene.graph,
        scene.hints.inputs,
        &scene.patterns,
        place,
    )?;
    simulate(scene.graph, &mut words);
    Ok(words)
}
