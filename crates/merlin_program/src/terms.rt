//! What a variable adds to a row.

ghost use Rattle.std.specs.Prelude.{ℕ, ℤ, ◌≡◌, ◌≤◌, ◌<◌, ◌^◌, pos};
ghost use Rattle.cutoff_program.specs.Flows.{net_out, rate_over, length_of};
ghost use Rattle.merlin_program.specs.Kept.{term_in_row};

use cutoff_program::flow::{Problem, Variable};
use merlin_model::policy::Objective;
use program_walks::cost;

/// The kinds of rows: what net_out a vertex of a flow, what is put on a link, and what is added to the length of all walks.
#[derive(Clone, Copy)]
pub enum RowTerm {
    Leaves { flow: usize, vertex: usize },
    Over(usize),
    Length,
}

/// Out of a vertex of a flow counts 1, into it -1.
fn leaves_of(flow: usize, vertex: usize, variable: &Variable) -> i64
    ensures { result ≡ net_out flow vertex variable.now }
{
    if variable.flow == flow {
        if variable.edge.from == vertex {
            1
        } else if variable.edge.to == vertex {
            -1
        } else {
            0
        }
    } else {
        0
    }
}

/// What a variable puts on a link.
pub fn rate_on(link: usize, variable: &Variable) -> u64
    ensures { result ≡ rate_over link variable.now }
{
    match variable.edge.crosses {
        None => 0,
        Some(l) => { if l == link { variable.rate } else { 0 } }
    }
}

/// What a variable adds to the row that bounds the length.
pub fn length_added(problem: &Problem, variable: &Variable) -> u64
    requires { variable.now.rate ≤ 10 ^ 9 }
    ensures value { result ≡ length_of problem.now.objective problem.now variable.now }
    ensures small { result < 2 ^ 62 }
{
    match problem.objective {
        Objective::Shortest => cost(problem, variable),
        _ => 0,
    }
}

/// What a variable adds to a row.
pub fn added(problem: &Problem, of: RowTerm, variable: &Variable) -> i64
    requires { variable.now.rate ≤ 10 ^ 9 }
    ensures { result ≡ term_in_row problem.now of variable.now }
{
    match of {
        RowTerm::Leaves { flow, vertex } => leaves_of(flow, vertex, variable),
        RowTerm::Over(link) => rate_on(link, variable) as i64,
        RowTerm::Length => length_added(problem, variable) as i64,
    }
}
