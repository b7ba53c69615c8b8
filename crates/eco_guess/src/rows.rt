//! At which patterns the implementation is right with each row of values of a group's targets.

use crate::opened::Opened;
use crate::patterns::Patterns;
use crate::simulating::{input_words, put_word, simulate, simulate_node, wrong_word};
use eco_aig::Edge;
use eco_meaning::OutOfMemory;
use eco_simulate::mask_of;
use std::alloc::Global;

/// The order in which what lies behind a group's targets is simulated: the nodes that an output reaches, before those that
/// the next ones reach too.
#[derive(Drop)]
pub(crate) struct Plan {
    /// For each node that is simulated the first output that reaches it, and its number; operands come first.
    steps: Vec<(usize, u64)>,
    /// The outputs that the group reaches.
    pub(crate) outputs: Vec<usize>,
}

impl Plan {
    /// The plan for the targets of a group.
    pub(crate) fn new(
        alloc: Global,
        opened: &Opened,
        group: &[usize],
    ) -> Result<Plan, OutOfMemory> {
        let behind = behind_marks(alloc, opened, group)?;
        let outputs = outputs_behind(alloc, opened, behind.as_slice())?;
        let firsts = first_outputs(alloc, opened, outputs.as_slice())?;
        let mut steps = Vec::new(alloc);
        for (node, first) in firsts.iter().enumerate() {
            if *first < usize::MAX && behind.get(node).copied().unwrap_or(false) {
                steps.push((*first, node as u64))?;
            }
        }
        steps.sort_unstable();
        Ok(Plan { steps, outputs })
    }

    /// How many nodes are simulated for a row at most.
    pub(crate) fn steps(&self) -> usize {
        self.steps.len()
    }

    /// At which patterns of the words all outputs are right. Where none is left, the other outputs are passed over.
    fn right_word(&self, opened: &Opened, words: &mut Vec<u64>) -> u64 {
        let mut right = u64::MAX;
        let mut from = 0;
        for output in &self.outputs {
            let until = self.steps.partition_point(|step| step.0 <= *output);
            simulate_steps(opened, self.steps.get(from..until).unwrap_or(&[]), words);
            right = right & !wrong_word(opened, *output, words.as_slice());
            if right == 0 {
                return 0;
            }
            from = until;
        }
        right
    }

    /// For each row of values of the group's targets the patterns of this word at which the implementation is right with it. The
    /// value of the group's first target is the lowest bit of a row's number.
    pub(crate) fn rows_at(
        &self,
        alloc: Global,
        opened: &Opened,
        group: &[usize],
        patterns: &Patterns,
        place: usize,
    ) -> Result<Vec<u64>, OutOfMemory> {
        let mut words = input_words(alloc, opened.graph, opened.inputs, patterns, place)?;
        simulate(opened.graph, &mut words);
        let mut rows = Vec::new(alloc);
        for row in 0..1_u64 << (group.len() % 64) {
            put_row(opened, group, row, &mut words);
            rows.push(self.right_word(opened, &mut words))?;
        }
        Ok(rows)
    }
}

/// Simulates these nodes.
fn simulate_steps(opened: &Opened, steps: &[(usize, u64)], words: &mut Vec<u64>) {
    for step in steps {
        simulate_node(opened.graph, step.1, words);
    }
}

/// Lets the group's targets have the values of a row.
fn put_row(opened: &Opened, group: &[usize], row: u64, words: &mut Vec<u64>) {
    for (place, target) in group.iter().enumerate() {
        let bit = (row >> (place % 64)) & 1 == 1;
        put_target(opened, *target, mask_of(bit), words);
    }
}

/// Lets the target of this number have the word.
pub(crate) fn put_target(opened: &Opened, target: usize, word: u64, words: &mut Vec<u64>) {
    if let Some(edge) = opened.targets.get(target) {
        put_word(words, *edge, word);
    }
}

/// One bit for each node: whether it lies behind one of the group's targets.
fn behind_marks(alloc: Global, opened: &Opened, group: &[usize]) -> Result<Vec<bool>, OutOfMemory> {
    let mut marks = vec![in alloc; false; opened.graph.nodes() as usize]?;
    for target in group {
        mark_target(opened, *target, &mut marks);
    }
    for node in 0..opened.graph.nodes() {
        mark_behind(opened, node, &mut marks);
    }
    Ok(marks)
}

/// Marks the target of this number.
fn mark_target(opened: &Opened, target: usize, marks: &mut Vec<bool>) {
    if let Some(edge) = opened.targets.get(target) {
        set_mark(marks, edge.node as usize);
    }
}

/// Marks the node.
fn set_mark(marks: &mut Vec<bool>, node: usize) {
    if let Some(mark) = marks.get_mut(node) {
        *mark = true;
    }
}

/// Whether the edge goes to a node with a mark.
fn is_marked(marks: &[bool], edge: Edge) -> bool {
    marks.get(edge.node as usize).copied().unwrap_or(false)
}

/// Marks an and-node of which an operand has a mark.
fn mark_behind(opened: &Opened, node: u64, marks: &mut Vec<bool>) {
    if let Some((first, second)) = opened.graph.pair(node) {
        if is_marked(marks.as_slice(), first) || is_marked(marks.as_slice(), second) {
            set_mark(marks, node as usize);
        }
    }
}

/// The outputs whose nodes have marks.
fn outputs_behind(
    alloc: Global,
    opened: &Opened,
    marks: &[bool],
) -> Result<Vec<usize>, OutOfMemory> {
    let mut outputs = Vec::new(alloc);
    for (number, output) in opened.outputs.iter().enumerate() {
        if is_marked(marks, *output) {
            outputs.push(number)?;
        }
    }
    Ok(outputs)
}

/// For each node the first of these outputs that reaches it, the last number of all where none does.
fn first_outputs(
    alloc: Global,
    opened: &Opened,
    outputs: &[usize],
) -> Result<Vec<usize>, OutOfMemory> {
    let nodes = opened.graph.nodes();
    let mut firsts = vec![in alloc; usize::MAX; nodes as usize]?;
    for number in outputs {
        if let Some(edge) = opened.outputs.get(*number) {
            lower(&mut firsts, *edge, *number);
        }
    }
    for node in (0..nodes).rev() {
        lower_operands(opened, node, &mut firsts);
    }
    Ok(firsts)
}

/// Lets the node of the edge have this number, if it has a greater one.
fn lower(firsts: &mut Vec<usize>, edge: Edge, number: usize) {
    if let Some(first) = firsts.get_mut(edge.node as usize) {
        if number < *first {
            *first = number;
        }
    }
}

/// Lets the operands of the node have its number, if they have greater ones.
fn lower_operands(opened: &Opened, node: u64, firsts: &mut Vec<usize>) {
    let number = firsts.get(node as usize).copied().unwrap_or(usize::MAX);
    if let Some((first, second)) = opened.graph.pair(node) {
        lower(firsts, first, number);
        lower(firsts, second, number);
    }
}
