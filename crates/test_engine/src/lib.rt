//! Questions of drawn problems, posed plainly and asked by an engine, beside the answers that plain loops over all inputs and
//! all values of the targets find. The definitions are in `specs/`.
#![tactic(auto)]

#[cfg(test)]
mod askable;
#[cfg(test)]
mod asking;
#[cfg(test)]
mod bits;
#[cfg(test)]
mod choosing;
#[cfg(test)]
mod comparing;
#[cfg(test)]
mod counted;
#[cfg(test)]
mod counting;
#[cfg(test)]
mod draws;
#[cfg(test)]
mod fixing;
#[cfg(test)]
mod front;
#[cfg(test)]
mod kept;
#[cfg(test)]
mod netlists;
#[cfg(test)]
mod patches;
#[cfg(test)]
mod problems;
#[cfg(test)]
mod rectifying;
#[cfg(test)]
mod rows;
#[cfg(test)]
mod searches;
#[cfg(test)]
mod separating;
#[cfg(test)]
mod series;
#[cfg(test)]
mod table;
#[cfg(test)]
mod tally;
#[cfg(test)]
mod values;
#[cfg(test)]
mod view;
