//! The automata, rates and ends of guaranteed statements, from which their program is made, and why it is not.

ghost use Rattle.std.specs.Prelude.{◌≤◌, length, map, IsTrue};
ghost use Rattle.std.specs.List.{AllByRecursion};
ghost use Rattle.merlin_model.specs.Networks.{IsHost};
ghost use Rattle.policy_flows.specs.Layouts.{HasParts};

use crate::guaranteed::{Asked, objective_of};
use crate::lines::Lines;
use crate::texts::parted;
use crate::{flows, programs};
use merlin_base::OutOfMemory;
use merlin_model::limits::MAX_RATE;
use merlin_model::policy::{Ends, Objective};
use merlin_program::{ProgramFault, new as program_of};
use path_automaton::Automaton;
use policy_check::Checked;
use policy_flows::lay_out;
use std::alloc::Global;
use topology::Topology;

/// Why statements have no program.
pub fn answer_fault(out: &mut Lines, fault: &ProgramFault) {
    out.add("1\n");
    match fault {
        ProgramFault::Vertices { count } => {
            out.add("vertices");
            out.add_numbers(&[*count]);
        }
        ProgramFault::Edges { count } => {
            out.add("edges");
            out.add_numbers(&[*count]);
        }
        ProgramFault::Heavy { statement, link } => {
            out.add("heavy");
            out.add_numbers(&[*statement as u64, *link as u64]);
        }
        ProgramFault::OutOfMemory => out.cut(),
    }
    out.add("\n");
}

// The automaton of each statement.
fn automata_of<'a>(alloc: Global, checked: &'a Checked) -> Result<Vec<&'a Automaton>, OutOfMemory> {
    let mut automata = Vec::new(alloc);
    for statement in 0..checked.statements() {
        automata.push(checked.automaton(statement))?;
    }
    Ok(automata)
}

fn is_host(net: &Topology, loc: usize) -> bool
    ensures { IsTrue result → IsHost net.now loc }
{
    loc < net.locations() && net.host(loc).is_some()
}

// Whether there is an automaton and a rate for a statement, which is between hosts.
fn has_parts(net: &Topology, automata: &[&Automaton], rates: &[u64], ends: Ends) -> bool
    ensures { IsTrue result →
        HasParts net.now (map (λ a. a.now) automata.now) rates.now ends }
{
    let statement = ends.statement;
    statement < automata.len()
        && automata[statement].symbols() == net.symbols().len()
        && statement < rates.len()
        && rates[statement] <= MAX_RATE
        && is_host(net, ends.src)
        && is_host(net, ends.dst)
}

// Whether each statement has them.
fn have_parts(net: &Topology, automata: &[&Automaton], rates: &[u64], ends: &[Ends]) -> bool
    ensures { IsTrue result → AllByRecursion
        (HasParts net.now (map (λ a. a.now) automata.now) rates.now) ends.now }
{
    for named in ends {
        if !has_parts(net, automata, rates, *named) {
            return false;
        }
    }
    true
}

// The lines of the flows, or why there are none.
fn of_flows(
    alloc: Global,
    net: &Topology,
    automata: &[&Automaton],
    rates: &[u64],
    ends: &[Ends],
    objective: Objective,
    out: &mut Lines,
)
    requires { AllByRecursion
        (HasParts net.now (map (λ a. a.now) automata.now) rates.now) ends.now }
{
    match lay_out(alloc, net, automata, rates, ends, objective) {
        Ok(layout) => flows::describe(net, &layout, out),
        Err(fault) => answer_fault(out, &fault),
    }
}

// What is asked of the program, or why there is none.
fn of_program(
    alloc: Global,
    net: &Topology,
    automata: &[&Automaton],
    rates: &[u64],
    ends: &[Ends],
    objective: Objective,
    asked: Asked,
    words: &str,
    out: &mut Lines,
)
    requires few { length ends.now ≤ 64 }
    requires parts { AllByRecursion
        (HasParts net.now (map (λ a. a.now) automata.now) rates.now) ends.now }
{
    match program_of(alloc, net, automata, rates, ends, objective) {
        Ok(program) => programs::answer_to(alloc, net, &program, asked, words, out),
        Err(fault) => answer_fault(out, &fault),
    }
}

// What is asked of statements with these automata and rates.
fn of_parts(
    alloc: Global,
    net: &Topology,
    automata: &[&Automaton],
    rates: &[u64],
    ends: &[Ends],
    asked: Asked,
    words: &str,
    out: &mut Lines,
)
    requires { length ends.now ≤ 64 }
{
    let (word, words) = parted(words);
    let objective = objective_of(word);
    if !have_parts(net, automata, rates, ends) {
        out.answer(1, "no parts");
        return;
    }
    match (objective, asked) {
        (None, _) => out.answer(1, "no objective"),
        (Some(objective), Asked::Flows) => {
            of_flows(alloc, net, automata, rates, ends, objective, out)
        }
        (Some(objective), _) => of_program(
            alloc, net, automata, rates, ends, objective, asked, words, out,
        ),
    }
}

/// What is asked of the program of guaranteed statements.
pub fn answer_to(
    alloc: Global,
    net: &Topology,
    checked: &Checked,
    ends: &[Ends],
    asked: Asked,
    words: &str,
    out: &mut Lines,
)
    requires { length ends.now ≤ 64 }
{
    let rates = checked.rates().min.as_slice();
    match automata_of(alloc, checked) {
        Ok(automata) => of_parts(
            alloc,
            net,
            automata.as_slice(),
            rates,
            ends,
            asked,
            words,
            out,
        ),
        Err(_) => out.cut(),
    }
}
