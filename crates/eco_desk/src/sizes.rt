//! How many variables a question may have, as far as 64 bits reach.

ghost use Rattle.std.specs.Prelude.{◌≡◌, ◌≤◌, ◌+◌, ◌*◌, length, IsTrue};
ghost use Rattle.std.specs.List.{sum_by};
ghost use Rattle.std.specs.Option.{option_copied};
ghost use Rattle.eco_pose.specs.Shapes.{problem_size, size_of, size_of_some};
ghost use Rattle.eco_desk.specs.Sizes.{capped};

use eco_gates::Gate;
use eco_netlist::Netlist;
use eco_pose::{Posed, Problem};

/// Whether the clauses of a question, which lists so many rows and has this netlist of its own, have few variables.
pub(crate) fn has_few(problem: &Problem, rows: usize, own: Option<&Netlist>, posed: &Posed) -> bool
    ensures { IsTrue result → posed.now.clauses.vars ≤ 8 * (rows + 1)
        * (problem_size problem.now.implementation problem.now.goal + size_of_some (option_copied own.entry)) }
{
    posed.cnf().vars() <= most_variables(problem, rows as u64, own)
}

/// So many variables such clauses may have.
fn most_variables(problem: &Problem, rows: u64, own: Option<&Netlist>) -> u64
    ensures { result ≡ capped (8 * (rows + 1)
        * (problem_size problem.now.implementation problem.now.goal + size_of_some (option_copied own.entry))) }
{
    let size = problem_size(problem).saturating_add(size_of_some(own));
    8_u64
        .saturating_mul(rows.saturating_add(1))
        .saturating_mul(size)
}

/// One more than the sizes of the problem's netlists together.
fn problem_size(problem: &Problem) -> u64
    ensures { result ≡ capped (problem_size problem.now.implementation problem.now.goal) }
{
    1_u64
        .saturating_add(size_of(problem.implementation()))
        .saturating_add(size_of(problem.specification()))
        .saturating_add(size_of_some(problem.care()))
}

/// The size of the netlist, where there is one.
fn size_of_some(netlist: Option<&Netlist>) -> u64
    ensures { result ≡ capped (size_of_some (option_copied netlist.entry)) }
{
    match netlist {
        None => 0,
        Some(netlist) => size_of(netlist),
    }
}

/// The number of the netlist's nets and of the inputs of its gates.
fn size_of(netlist: &Netlist) -> u64
    ensures { result ≡ capped (size_of netlist.now) }
{
    netlist.nets().saturating_add(terms(netlist.gates()))
}

/// The number of the inputs of these gates.
fn terms(gates: &[Gate]) -> u64
    ensures { result ≡ capped (sum_by (λ g. length g.ins) gates.now) }
{
    let mut total = 0_u64;
    for gate in gates {
        total = total.saturating_add(gate.ins.len() as u64);
    }
    total
}
