//! The guaranteed statements of a policy over a network: their flows, their program, and their walks.

ghost use Rattle.std.specs.Prelude.{◌≤◌, length, IfSome};
ghost use Rattle.merlin_model.specs.Assignments.{AreAllEnds};
ghost use Rattle.policy_parser.specs.Policies.{IsParsed};
ghost use Rattle.policy_check.specs.declared.guarantees.TheConstants.{MAX_GUARANTEES};
ghost use Rattle.merlin_compile.specs.Provisions.{IsCheckOfSome};

use crate::lines::Lines;
use crate::store::{Store, content};
use crate::texts::parted;
use crate::{parts, searches};
use merlin_model::policy::{Ends, Objective, Value};
use policy_check::{Checked, check, ends};
use policy_parser::{Policy, parse};
use std::alloc::Global;
use topology::{Topology, read};

/// What is asked of the guaranteed statements of a policy, for an objective. The words begin with POLICY, TOPOLOGY and OBJECTIVE.
#[derive(Clone, Copy)]
pub enum Asked {
    /// `flows|..`: for each statement its rate, the symbols of the vertices of its product, and the edges, those over a link with its number
    Flows,
    /// `sizes|..`: how many statements, vertices, edges, variables and rows there are
    Sizes,
    /// `program|..|CUTOFF`: the program at the cutoff, or without one where the word is empty
    Program,
    /// `uppers|..|CUTOFF`: for each variable whether it may be 1 at the cutoff
    Uppers,
    /// `bound|..`: what no value is below, from each statement by itself
    Bound,
    /// `point|..|CUTOFF|WALK|..`: the variables that walks set to 1, what they reach, whether they are a solution at the cutoff, and the walks of this point
    Point,
    /// `search|..|BUDGET`: what a search with so many nodes finds, and how many nodes its tree has
    Search,
    /// `walks|..|BUDGET`: the same with the walks in place of the number
    Walks,
    /// `loads|..|BUDGET`: the same with what the walks put on each link
    Loads,
    /// `certificate|..|BUDGET`: the tree alone
    Certificate,
}

/// What the command of this name asks.
pub fn asked_of(command: &str) -> Option<Asked> {
    match command {
        "flows" => Some(Asked::Flows),
        "sizes" => Some(Asked::Sizes),
        "program" => Some(Asked::Program),
        "uppers" => Some(Asked::Uppers),
        "bound" => Some(Asked::Bound),
        "point" => Some(Asked::Point),
        "search" => Some(Asked::Search),
        "walks" => Some(Asked::Walks),
        "loads" => Some(Asked::Loads),
        "certificate" => Some(Asked::Certificate),
        _ => None,
    }
}

/// An objective, by its word.
pub fn objective_of(word: &str) -> Option<Objective> {
    match word {
        "shortest" => Some(Objective::Shortest),
        "ratio" => Some(Objective::Ratio),
        "reserved" => Some(Objective::Reserved),
        _ => None,
    }
}

/// Adds a value.
pub fn add_value(out: &mut Lines, value: Value) {
    match value {
        Value::Whole(number) => out.add_number(number),
        Value::Ratio { load, capacity } => {
            out.add_number(load);
            out.add("/");
            out.add_number(capacity);
        }
    }
}

// What is asked of the statements with these ends.
fn of_ends(
    alloc: Global,
    net: &Topology,
    checked: &Checked,
    ends: &[Ends],
    asked: Asked,
    words: &str,
    out: &mut Lines,
)
    requires checked { IsCheckOfSome net.now checked.now }
    requires ends { AreAllEnds net.now checked.now.policy ends.now }
    requires few { length ends.now ≤ MAX_GUARANTEES }
{
    match asked {
        Asked::Search | Asked::Walks | Asked::Loads | Asked::Certificate => {
            searches::answer_to(alloc, net, checked, ends, asked, words, out)
        }
        _ => parts::answer_to(alloc, net, checked, ends, asked, words, out),
    }
}

fn of_checked(
    alloc: Global,
    net: &Topology,
    checked: &Checked,
    asked: Asked,
    words: &str,
    out: &mut Lines,
)
    requires { IsCheckOfSome net.now checked.now }
{
    match ends(alloc, checked, net) {
        Ok(ends) => of_ends(alloc, net, checked, &ends, asked, words, out),
        Err(_) => out.answer(1, "no ends"),
    }
}

fn of_policy(
    alloc: Global,
    net: &Topology,
    policy: &Policy,
    asked: Asked,
    words: &str,
    out: &mut Lines,
)
    requires { IsParsed policy.now }
{
    match check(alloc, policy, net) {
        Ok(checked) => of_checked(alloc, net, &checked, asked, words, out),
        Err(_) => out.answer(1, "no check"),
    }
}

fn of_text(alloc: Global, net: &Topology, text: &[u8], asked: Asked, words: &str, out: &mut Lines) {
    match parse(alloc, text) {
        Ok(policy) => of_policy(alloc, net, &policy, asked, words, out),
        Err(_) => out.answer(1, "no policy"),
    }
}

/// What is asked of the guaranteed statements of a policy over a network, or which of the two there is not.
pub fn answer_to(alloc: Global, words: &str, store: &Store, asked: Asked, out: &mut Lines) {
    let (policy, words) = parted(words);
    let (topology, words) = parted(words);
    let text = content(store, policy);
    match read(alloc, content(store, topology)) {
        Ok(net) => of_text(alloc, &net, text, asked, words, out),
        Err(_) => out.answer(1, "no topology"),
    }
}
