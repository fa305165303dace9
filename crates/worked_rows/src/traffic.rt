//! Which statements a packet belongs to, and whether rates meet a formula.

use crate::lines::Lines;
use crate::packets::packet_from;
use crate::texts::verdict;
use merlin_base::{Name, OutOfMemory, name_from};
use merlin_model::policy::Pred;
use packet_model::Packet;
use policy_parser::{Policy, Statement};
use predicate_logic::holds;
use rate_formula::{Formula, meets};
use std::alloc::Global;

// Whether an equal predicate says the same of the packet. It is so too where memory runs out.
fn copy_agrees(alloc: Global, pred: &Pred, packet: &Packet, does_hold: bool) -> bool {
    match pred.copy(alloc) {
        Ok(copy) => holds(&copy, packet) == does_hold,
        Err(_) => true,
    }
}

// The line of a statement: its id, and whether its predicate holds of the packet, and so does an equal predicate.
fn add_verdict(alloc: Global, out: &mut Lines, statement: &Statement, packet: &Packet) {
    let does_hold = holds(&statement.pred, packet);
    out.add_bytes(statement.id.bytes());
    out.add(" ");
    out.add(verdict(does_hold));
    if !copy_agrees(alloc, &statement.pred, packet, does_hold) {
        out.add(" and no");
    }
    out.add("\n");
}

// Status 0 and a line for each statement.
fn add_verdicts(alloc: Global, out: &mut Lines, policy: &Policy, packet: &Packet) {
    out.add("0\n");
    for statement in policy.statements.as_slice() {
        add_verdict(alloc, out, statement, packet);
    }
}

/// For each statement of a policy whether its predicate holds of the packet.
pub fn predicates(alloc: Global, policy: &Policy, packet: &str, out: &mut Lines) {
    match packet_from(packet) {
        Some(packet) => add_verdicts(alloc, out, policy, &packet),
        None => out.answer(1, "no packet"),
    }
}

// The id and the rate of a word such as `x=20`.
fn halves(word: &str) -> (&str, &str) {
    word.split_once('=').unwrap_or((word, ""))
}

// The ids of words such as `x=20`.
fn ids_of(alloc: Global, words: &str) -> Result<Vec<Name>, OutOfMemory> {
    let mut ids = Vec::new(alloc);
    for word in words.split('|') {
        ids.push(name_from(alloc, halves(word).0.as_bytes())?)?;
    }
    Ok(ids)
}

// Their rates in kbit/s.
fn rates_of(alloc: Global, words: &str) -> Result<Vec<u64>, OutOfMemory> {
    let mut rates = Vec::new(alloc);
    for word in words.split('|') {
        rates.push(halves(word).1.parse::<u64>().unwrap_or(0))?;
    }
    Ok(rates)
}

// Whether the rates meet the formula.
fn answer_meeting(formula: &Formula, ids: &[Name], rates: &[u64], out: &mut Lines) {
    if ids.len() != rates.len() {
        out.answer(1, "no rate for each id");
    } else {
        out.answer(0, verdict(meets(formula, ids, rates)));
    }
}

// Whether these ids with the rates of the words meet the formula.
fn answer_ids(alloc: Global, formula: &Formula, ids: &[Name], words: &str, out: &mut Lines) {
    match rates_of(alloc, words) {
        Ok(rates) => answer_meeting(formula, ids, &rates, out),
        Err(_) => out.cut(),
    }
}

// Whether the ids and rates of these words meet the formula.
fn answer_usage(alloc: Global, formula: &Formula, words: &str, out: &mut Lines) {
    match ids_of(alloc, words) {
        Ok(ids) => answer_ids(alloc, formula, &ids, words, out),
        Err(_) => out.cut(),
    }
}

/// Whether the rates of these words meet the formula of a policy, of which a copy is made.
pub fn formula(alloc: Global, policy: &Policy, words: &str, out: &mut Lines) {
    match policy.formula.copy(alloc) {
        Ok(copy) => answer_usage(alloc, &copy, words, out),
        Err(_) => out.cut(),
    }
}
