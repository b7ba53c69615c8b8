//! Tests of the top call: worked examples from the bytes of the files to the bytes that are written and printed.
#![tactic(auto)]

#[cfg(test)]
mod audits;
#[cfg(test)]
mod bounds;
#[cfg(test)]
mod budgets;
#[cfg(test)]
mod cases;
#[cfg(test)]
mod chosen;
#[cfg(test)]
mod drawn;
#[cfg(test)]
mod examples;
#[cfg(test)]
mod faults;
#[cfg(test)]
mod forms;
#[cfg(test)]
mod hostile;
#[cfg(test)]
mod least;
#[cfg(test)]
mod lengths;
#[cfg(test)]
mod located;
#[cfg(test)]
mod merged;
#[cfg(test)]
mod problems;
#[cfg(test)]
mod proofs;
#[cfg(test)]
mod refusals;
#[cfg(test)]
mod several;
#[cfg(test)]
mod simulated;
#[cfg(test)]
mod small;
#[cfg(test)]
mod told;
#[cfg(test)]
mod weighed;
#[cfg(test)]
mod words;
