//! Guessed references of small problems, which a plain loop over all inputs tries. Only public names are used.
#![tactic(auto)]

#[cfg(test)]
mod examples;
#[cfg(test)]
mod guesses;
#[cfg(test)]
mod problems;
#[cfg(test)]
mod trying;
