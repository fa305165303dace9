//! The value of walks, from what they put on each link.

ghost use Rattle.std.specs.Prelude.{◌≡◌, ◌≤◌, ◌^◌, length, map, sum_by, if◌then◌else◌};
ghost use Rattle.merlin_model.specs.Rates.{greatest_of};
ghost use Rattle.merlin_model.specs.Assignments.{greatest_ratio, ratio_lt};
ghost use Rattle.merlin_model.specs.Words.{crosses as crosses_between, crossings};
ghost use Rattle.cutoff_program.specs.Limits.{IsProblem};
ghost use Rattle.program_walks.specs.Loads.{load_by, load_on_link, ratio_on_link, cost_on_link, value_by_walks, AreSmallLoads, AreSimpleWalks, IsValueOfWalks};

use cutoff_program::flow::Problem;
use merlin_model::network::DirectedLink;
use merlin_model::policy::{Objective, Symbol, Value};
use sqlite_items::Items;

/// Whether a step leads from one location to another.
fn crosses(first: Symbol, second: Symbol, from: usize, to: usize) -> bool
    ensures { result ≡ crosses_between from to (first, second) }
{
    first.loc == from && second.loc == to && from != to
}

/// How often a walk goes from one location to another.
fn crossings_of(walk: &[Symbol], from: usize, to: usize) -> u64
    ensures { result ≡ crossings walk.now from to }
{
    let mut count = 0;
    let mut place = walk.len();
    while place > 1 {
        place -= 1;
        if crosses(walk[place - 1], walk[place], from, to) {
            count += 1;
        }
    }
    count
}

/// What walks put on a link.
fn load_of(problem: &Problem, walks: &[Items<Symbol>], directed: &DirectedLink) -> u64
    requires walks { length walks.now ≡ length problem.now.flows }
    requires small { load_on_link problem.now walks.now directed.now ≤ 2 ^ 45 }
    ensures { result ≡ load_on_link problem.now walks.now directed.now }
{
    let mut load = 0;
    let mut number = walks.len();
    while number > 0 {
        number -= 1;
        let crossings = crossings_of(walks[number].as_slice(), directed.from, directed.to);
        load += problem.flows.as_slice()[number].rate * crossings;
    }
    load
}

/// What the loads on all links cost.
fn length_of(problem: &Problem, walks: &[Items<Symbol>]) -> u64
    requires walks { length walks.now ≡ length problem.now.flows }
    requires small { AreSmallLoads problem.now walks.now }
    ensures { result ≡ sum_by (cost_on_link problem.now walks.now) problem.now.links }
{
    let mut all = 0;
    let mut link = problem.links.len();
    while link > 0 {
        link -= 1;
        let directed = problem.links.as_slice()[link];
        all += load_of(problem, walks, &directed) * u64::from(directed.weight);
    }
    all
}

/// The greatest load.
fn greatest_load(problem: &Problem, walks: &[Items<Symbol>]) -> u64
    requires walks { length walks.now ≡ length problem.now.flows }
    requires small { AreSmallLoads problem.now walks.now }
    ensures { result ≡ greatest_of (map (load_on_link problem.now walks.now) problem.now.links) }
{
    let mut greatest = 0;
    let mut link = problem.links.len();
    while link > 0 {
        link -= 1;
        let directed = problem.links.as_slice()[link];
        greatest = load_of(problem, walks, &directed).max(greatest);
    }
    greatest
}

/// The first of two ratios, unless the second is greater.
pub fn greater(first: (u64, u64), second: (u64, u64)) -> (u64, u64)
    ensures { result ≡ (if ratio_lt first second then second else first) }
{
    if u128::from(first.0) * u128::from(second.1) < u128::from(second.0) * u128::from(first.1) {
        second
    } else {
        first
    }
}

/// The greatest load of a capacity, as the first that is as great.
fn greatest_ratio_of(problem: &Problem, walks: &[Items<Symbol>]) -> (u64, u64)
    requires walks { length walks.now ≡ length problem.now.flows }
    requires small { AreSmallLoads problem.now walks.now }
    ensures { result ≡
        greatest_ratio (map (ratio_on_link problem.now walks.now) problem.now.links) }
{
    let mut greatest = (0, 1);
    let mut link = problem.links.len();
    while link > 0 {
        link -= 1;
        let directed = problem.links.as_slice()[link];
        let load = load_of(problem, walks, &directed);
        greatest = greater((load, directed.capacity), greatest);
    }
    greatest
}

/// The value of walks, one for each flow, as the objective has it.
pub fn value_by(problem: &Problem, walks: &[Items<Symbol>]) -> Value
    requires walks { length walks.now ≡ length problem.now.flows }
    requires small { AreSmallLoads problem.now walks.now }
    ensures { result ≡ value_by_walks problem.now walks.now }
{
    match problem.objective {
        Objective::Shortest => Value::Whole(length_of(problem, walks)),
        Objective::Reserved => Value::Whole(greatest_load(problem, walks)),
        Objective::Ratio => {
            let (load, capacity) = greatest_ratio_of(problem, walks);
            Value::Ratio { load, capacity }
        }
    }
}

/// The value of walks that are allowed and simple, one for each flow.
pub fn value_of_walks(
    problem: &Problem,
    symbols: &[Items<Symbol>],
    walks: &[Items<Symbol>],
) -> Value
    requires is { IsProblem problem.now }
    requires walks { AreSimpleWalks problem.now symbols.now walks.now }
    ensures { IsValueOfWalks problem.now symbols.now walks.now result }
{
    let _ = symbols;
    value_by(problem, walks)
}
