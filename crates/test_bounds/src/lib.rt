//! Bounds of small problems by all of their tuples of two inputs, beside what was counted by hand.
#![tactic(auto)]

#[cfg(test)]
mod examples;
#[cfg(test)]
mod problems;
#[cfg(test)]
mod tuples;
