//! Which single nets of small netlists can be cut and how they are ranked, beside what was found by hand and by trying all inputs
//! and values.
#![tactic(auto)]

#[cfg(test)]
mod examples;
#[cfg(test)]
mod judging;
#[cfg(test)]
mod ranking;
