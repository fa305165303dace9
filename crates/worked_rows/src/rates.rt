//! Localised rates.

use crate::lines::Lines;
use localise::{RateFault, Rates, localise};
use merlin_base::{Name, OutOfMemory};
use policy_parser::{Policy, Statement};
use std::alloc::Global;

// The ids of the statements, in order.
fn ids_of(alloc: Global, statements: &[Statement]) -> Result<Vec<Name>, OutOfMemory> {
    let mut ids = Vec::new(alloc);
    for statement in statements {
        ids.push(statement.id.copy(alloc)?)?;
    }
    Ok(ids)
}

// The line of a statement: its id, its minimum, and its maximum if it is capped.
fn add_rates(out: &mut Lines, id: &Name, min: u64, max: Option<u64>) {
    out.add_bytes(id.bytes());
    out.add(" min");
    out.add_numbers(&[min]);
    match max {
        Some(max) => {
            out.add(" max");
            out.add_numbers(&[max]);
        }
        None => out.add(" uncapped"),
    }
    out.add("\n");
}

// Status 0 and a line for each id.
fn describe(out: &mut Lines, ids: &[Name], rates: &Rates) {
    out.add("0\n");
    for (place, id) in ids.iter().enumerate() {
        match (rates.min.get(place), rates.max.get(place)) {
            (Some(min), Some(max)) => add_rates(out, id, *min, *max),
            _ => out.add("no rates\n"),
        }
    }
}

// A word and an id.
fn add_id(out: &mut Lines, word: &str, id: &Name) {
    out.add(word);
    out.add_bytes(id.bytes());
}

// Why there are no rates.
fn answer_fault(out: &mut Lines, fault: &RateFault) {
    out.add("1\nrefused: ");
    match fault {
        RateFault::UnknownId { id } => add_id(out, "unknown id ", id),
        RateFault::RepeatedId { id } => add_id(out, "repeated id ", id),
        RateFault::ConstantTooLarge { term } => {
            out.add("constant in term");
            out.add_numbers(&[*term as u64]);
        }
        RateFault::LocalisedConflict { id, min, max } => {
            add_id(out, "conflict ", id);
            out.add(" min");
            out.add_numbers(&[*min]);
            out.add(" max");
            out.add_numbers(&[*max]);
        }
        RateFault::OutOfMemory => out.cut(),
    }
    out.add("\n");
}

fn answer(alloc: Global, policy: &Policy, ids: &[Name], out: &mut Lines) {
    match localise(alloc, &policy.formula, ids) {
        Ok(rates) => describe(out, ids, &rates),
        Err(fault) => answer_fault(out, &fault),
    }
}

/// The localised rates of each statement of a policy, or why there are none.
pub fn answer_to(alloc: Global, policy: &Policy, out: &mut Lines) {
    match ids_of(alloc, policy.statements.as_slice()) {
        Ok(ids) => answer(alloc, policy, &ids, out),
        Err(_) => out.cut(),
    }
}
