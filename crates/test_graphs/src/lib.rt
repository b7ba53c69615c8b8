//! Examples of what stands between a netlist and a question: gates in order, graphs and what is merged in them, clauses of
//! a side, miters, the clauses of equality, interpolants, problems, and problems that are drawn. Only public names are used.
#![tactic(auto)]

#[cfg(test)]
mod bits;
#[cfg(test)]
mod compiled;
#[cfg(test)]
mod drawn;
#[cfg(test)]
mod edges;
#[cfg(test)]
mod encoded;
#[cfg(test)]
mod equality;
#[cfg(test)]
mod forms;
#[cfg(test)]
mod gates;
#[cfg(test)]
mod graphs;
#[cfg(test)]
mod interpolants;
#[cfg(test)]
mod merging;
#[cfg(test)]
mod miters;
#[cfg(test)]
mod netlists;
#[cfg(test)]
mod numbers;
#[cfg(test)]
mod parities;
#[cfg(test)]
mod problems;
#[cfg(test)]
mod resubstitution;
#[cfg(test)]
mod sides;
#[cfg(test)]
mod sweeping;
