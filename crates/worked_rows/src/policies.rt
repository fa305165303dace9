//! What a policy text stands for, as a short text, and what else is asked of a policy.

ghost use Rattle.std.specs.List.{AllByRecursion};
ghost use Rattle.merlin_model.specs.Predicates.{IsPred};

use crate::lines::Lines;
use crate::store::{Store, content};
use crate::texts::parted;
use crate::{automata, rates, sizes, splits, traffic};
use merlin_model::policy::{Field, Pred, Test};
use policy_grammar::written::RawPath;
use policy_parser::{Policy, PolicyFault, Statement, parse};
use rate_formula::print_formula;
use std::alloc::Global;

fn field_text(field: Field) -> &'static str {
    match field {
        Field::EthSrc => "eth.src",
        Field::EthDst => "eth.dst",
        Field::IpSrc => "ip.src",
        Field::IpDst => "ip.dst",
        Field::Proto => "proto",
        Field::Sport => "sport",
        Field::Dport => "dport",
    }
}

// A field and its value.
fn add_value(out: &mut Lines, field: Field, value: u64) {
    out.add(field_text(field));
    out.add("=");
    out.add_number(value);
}

// A field and an IPv4 address in its four numbers.
fn add_ip(out: &mut Lines, field: Field, value: u64) {
    out.add(field_text(field));
    let [.., a, b, c, d] = value.to_be_bytes();
    for (place, byte) in [a, b, c, d].iter().enumerate() {
        out.add(if place == 0 { "=" } else { "." });
        out.add_number(u64::from(*byte));
    }
}

fn add_test(out: &mut Lines, test: Test) {
    match test {
        Test::Is {
            field: field @ (Field::IpSrc | Field::IpDst),
            value,
        } => add_ip(out, field, value),
        Test::Is { field, value } => add_value(out, field, value),
        Test::Port {
            proto,
            field,
            value,
        } => {
            out.add_number(u64::from(proto));
            out.add(".");
            add_value(out, field, u64::from(value));
        }
        Test::Within {
            field,
            value,
            length,
        } => {
            add_ip(out, field, value);
            out.add("/");
            out.add_number(u64::from(length));
        }
    }
}

#[cycle(add_pred)]
fn add_pred(out: &mut Lines, pred: &Pred) {
    match pred {
        Pred::Yes => out.add("yes"),
        Pred::No => out.add("no"),
        Pred::Test(test) => add_test(out, *test),
        Pred::All(preds) => add_preds(out, "all(", preds.as_slice()),
        Pred::AnyOf(preds) => add_preds(out, "any(", preds.as_slice()),
        Pred::Not(pred) => {
            out.add("not(");
            add_pred(out, pred.get());
            out.add(")");
        }
    }
}

#[cycle(add_pred)]
fn add_preds(out: &mut Lines, open: &str, preds: &[Pred]) {
    out.add(open);
    for (place, pred) in preds.iter().enumerate() {
        if place > 0 {
            out.add(" ");
        }
        add_pred(out, pred);
    }
    out.add(")");
}

#[cycle(add_path)]
fn add_path(out: &mut Lines, path: &RawPath) {
    match path {
        RawPath::Dot => out.add("."),
        RawPath::Named { name, at } => {
            out.add_bytes(name.bytes());
            out.add("@");
            out.add_number(*at as u64);
        }
        RawPath::Cat(parts) => add_paths(out, "cat(", parts.as_slice()),
        RawPath::Alt(parts) => add_paths(out, "alt(", parts.as_slice()),
        RawPath::Star(part) => {
            out.add("star(");
            add_path(out, part.get());
            out.add(")");
        }
        RawPath::Not(part) => {
            out.add("not(");
            add_path(out, part.get());
            out.add(")");
        }
    }
}

#[cycle(add_path)]
fn add_paths(out: &mut Lines, open: &str, parts: &[RawPath]) {
    out.add(open);
    for (place, part) in parts.iter().enumerate() {
        if place > 0 {
            out.add(" ");
        }
        add_path(out, part);
    }
    out.add(")");
}

fn add_statement(out: &mut Lines, statement: &Statement) {
    out.add_bytes(statement.id.bytes());
    out.add(" : ");
    add_pred(out, &statement.pred);
    out.add(" -> ");
    add_path(out, &statement.path);
    out.add("\n");
}

// The line of the default, if there is one.
fn add_default(out: &mut Lines, path: Option<&RawPath>) {
    if let Some(path) = path {
        out.add("default -> ");
        add_path(out, path);
        out.add("\n");
    }
}

// Status 0, a line for each statement, for the default and for all terms, where there are any.
fn describe(alloc: Global, out: &mut Lines, policy: &Policy) {
    out.add("0\n");
    for statement in policy.statements.as_slice() {
        add_statement(out, statement);
    }
    add_default(out, policy.default_path.as_ref());
    if !policy.formula.terms.is_empty() {
        out.add_name(print_formula(alloc, &policy.formula));
        out.add("\n");
    }
}

// Status 1, what is wrong, and with which name.
fn answer_name(out: &mut Lines, what: &str, name: &[u8]) {
    out.add("1\n");
    out.add(what);
    out.add(" ");
    out.add_bytes(name);
    out.add("\n");
}

// Status 1 and why a text stands for no policy.
fn answer_fault(out: &mut Lines, fault: &PolicyFault) {
    match fault {
        PolicyFault::BadByte { at } => out.answer_at("byte", *at),
        PolicyFault::BadNumber { at } => out.answer_at("number", *at),
        PolicyFault::Syntax { at } => out.answer_at("syntax", *at),
        PolicyFault::DuplicateSet { name } => answer_name(out, "duplicate set", name.bytes()),
        PolicyFault::MixedSet { name } => answer_name(out, "mixed set", name.bytes()),
        PolicyFault::UnknownSet { name } => answer_name(out, "unknown set", name.bytes()),
        PolicyFault::TooManyStatements { count } => {
            out.add("1\n");
            out.add_number(*count as u64);
            out.add(" statements\n");
        }
        PolicyFault::DuplicateId { id } => answer_name(out, "duplicate id", id.bytes()),
        PolicyFault::OutOfMemory => out.cut(),
    }
}

// Status 0 and the statement at a place, from 0.
fn describe_one(out: &mut Lines, policy: &Policy, place: &str) {
    out.add("0\n");
    let place = place.parse::<usize>().unwrap_or(usize::MAX);
    if let Some(statement) = policy.statements.get(place) {
        add_statement(out, statement);
    }
}

/// What is asked of a policy.
#[derive(Clone, Copy)]
pub enum Asked {
    /// `policy|FILE`: all of it
    Whole,
    /// `size|FILE`: how large it is
    Size,
    /// `statement|FILE|PLACE`: one statement, counted from 0
    Statement,
    /// `holds|FILE|PACKET`: for each statement whether its predicate holds of the packet
    Holds,
    /// `meets|FILE|ID=RATE|..`: whether these rates meet a copy of its formula, where any other id uses none
    Meets,
    /// `rates|FILE`: the localised rates of each statement, or why there are none
    Rates,
    /// `automaton|FILE|SYMBOLS`: a line for each state of the automaton of its default path over the symbols
    Table,
    /// `states|FILE|SYMBOLS`: the number of these states
    States,
    /// `accepts|FILE|SYMBOLS|WORDS`: for each line of the file WORDS whether the automaton accepts this word of symbols
    Accepts,
    /// `overlap|FILE`: the first two statements whose predicates share a packet, and the least packet that they share
    Overlap,
    /// `outside|FILE`: the least packet of which no predicate holds
    Outside,
    /// `common|FILE`: the least packet of which all predicates hold
    Common,
    /// `cells|FILE|PACKET`: a line for each cell between the hosts that the packet names, with its protocol, ports and owner
    Cells,
    /// `count|FILE|PACKET`: how many of these cells name both ports, the source port, the destination port, the protocol alone, and nothing
    CellCount,
}

fn answer(alloc: Global, policy: &Policy, asked: Asked, words: &str, store: &Store, out: &mut Lines)
    requires { AllByRecursion (λ s. IsPred s.pred) policy.now.statements }
{
    match asked {
        Asked::Whole => describe(alloc, out, policy),
        Asked::Size => sizes::describe(out, policy),
        Asked::Statement => describe_one(out, policy, words),
        Asked::Holds => traffic::predicates(alloc, policy, words, out),
        Asked::Meets => traffic::formula(alloc, policy, words, out),
        Asked::Rates => rates::answer_to(alloc, policy, out),
        Asked::Table | Asked::States | Asked::Accepts => {
            automata::answer_to(alloc, policy, asked, words, store, out)
        }
        Asked::Overlap | Asked::Outside | Asked::Common | Asked::Cells | Asked::CellCount => {
            splits::answer_to(alloc, policy, asked, words, out)
        }
    }
}

/// What is asked of the policy of a text, or why it stands for none.
pub fn answer_to(alloc: Global, words: &str, store: &Store, asked: Asked, out: &mut Lines) {
    let (file, words) = parted(words);
    match parse(alloc, content(store, file)) {
        Ok(policy) => answer(alloc, &policy, asked, words, store, out),
        Err(fault) => answer_fault(out, &fault),
    }
}
