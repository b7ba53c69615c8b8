//! Examples of what is read and written: words of the command line, Verilog, AIGER, weights, reports, clauses and proofs,
//! numbers and names, and the store and the sinks. Only public names are used.
#![tactic(auto)]

#[cfg(test)]
mod aiger;
#[cfg(test)]
mod keyed;
#[cfg(test)]
mod numbers;
#[cfg(test)]
mod outside;
#[cfg(test)]
mod proofs;
#[cfg(test)]
mod reports;
#[cfg(test)]
mod tokens;
#[cfg(test)]
mod verilog;
#[cfg(test)]
mod weights;
#[cfg(test)]
mod words;
