//! Searches on problems whose answer is known or is looked at again: both refuters on the same formulas, random ones and some at the
//! edge, with each model, each proof and what was learnt before the limit; proofs step by step; what is kept of columns that
//! tell rows apart; light hitting sets and their floors.
#![tactic(auto)]

#[cfg(test)]
mod asking;
#[cfg(test)]
mod covers;
#[cfg(test)]
mod floors;
#[cfg(test)]
mod formulas;
#[cfg(test)]
mod freshness;
#[cfg(test)]
mod guided;
#[cfg(test)]
mod hitting;
#[cfg(test)]
mod proofs_checked;
#[cfg(test)]
mod puzzles;
#[cfg(test)]
mod replay;
#[cfg(test)]
mod resolution;
#[cfg(test)]
mod rows;
#[cfg(test)]
mod scans;
#[cfg(test)]
mod tests;
#[cfg(test)]
mod watching;
