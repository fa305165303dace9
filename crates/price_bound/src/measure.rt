//! What is added up along a path.

ghost use Rattle.std.specs.Prelude.{ℕ, ◌≡◌, ◌≤◌, ◌<◌, ◌*◌, ◌^◌, length};
ghost use Rattle.cutoff_program.specs.Flows.{variables_of, rate_over};
ghost use Rattle.merlin_program.specs.Kept.{variable_at};
ghost use Rattle.price_bound.specs.Asked.{measured};

use cutoff_program::flow::Variable;
use merlin_program::MerlinProgram;

/// What the edges of a path cost, or what they put on one link.
#[derive(Clone, Copy)]
pub enum Measure {
    Cost,
    Rate(usize),
}

// What a variable puts on a link.
fn rate_on(link: usize, variable: &Variable) -> u64
    ensures { result ≡ rate_over link variable.now }
{
    match variable.edge.crosses {
        None => 0,
        Some(l) => { if l == link { variable.rate } else { 0 } }
    }
}

/// What a variable adds.
pub fn term(program: &MerlinProgram, measure: Measure, number: usize) -> u64
    requires { number < length (variables_of program.now.problem) }
    ensures value { let problem = program.now.problem in
        result ≡ measured problem measure (variable_at problem number) }
    ensures small { result ≤ 10 ^ 9 }
{
    cutoff_program::laws::variables_are_small();
    match measure {
        Measure::Cost => program.cost(number),
        Measure::Rate(link) => rate_on(link, &program.edges()[number]),
    }
}
