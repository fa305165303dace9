//! What a policy allows beside another over one network.

ghost use Rattle.std.specs.Prelude.{IfSome};
ghost use Rattle.policy_parser.specs.Policies.{IsParsed};
ghost use Rattle.policy_check.specs.Checked.{HasAutomata};
ghost use Rattle.topology.specs.Symbols.{network_symbols};

use crate::lines::Lines;
use crate::store::{Store, content};
use crate::texts::parted;
use merlin_model::policy::Symbol;
use negotiator::{Comparison, Contact, WidePath, compare_policies};
use packet_model::print_packet;
use policy_check::{Checked, check};
use policy_parser::{Policy, parse};
use std::alloc::Global;
use topology::{Topology, read};

// The policy over a network, if it keeps all rules there.
fn checked_of(alloc: Global, policy: &Policy, net: &Topology) -> Option<Checked>
    requires { IsParsed policy.now }
    ensures { IfSome result (HasAutomata (network_symbols net.now)) }
{
    match check(alloc, policy, net) {
        Ok(checked) => Some(checked),
        Err(_) => None,
    }
}

// The policy of a text over a network, if it is one that keeps all rules there.
fn checked_from(alloc: Global, text: &[u8], net: &Topology) -> Option<Checked>
    ensures { IfSome result (HasAutomata (network_symbols net.now)) }
{
    match parse(alloc, text) {
        Ok(policy) => checked_of(alloc, &policy, net),
        Err(_) => None,
    }
}

/// A symbol behind a blank: the name of its location, and behind a colon that of its function.
pub fn add_symbol(out: &mut Lines, net: &Topology, symbol: &Symbol) {
    out.add(" ");
    if symbol.loc < net.locations() {
        out.add_bytes(net.name(symbol.loc).bytes());
    }
    if let Some(function) = symbol.fun.and_then(|number| net.functions().get(number)) {
        out.add(":");
        out.add_bytes(function.name.bytes());
    }
}

// The line of a packet and a walk that the child allows it, and the parent does not.
fn add_path(alloc: Global, out: &mut Lines, net: &Topology, path: &WidePath) {
    out.add("wider path ");
    out.add_name(print_packet(alloc, &path.packet));
    for symbol in path.word.as_slice() {
        add_symbol(out, net, symbol);
    }
    out.add("\n");
}

fn are_in_touch(contacts: &[Contact], child: usize, parent: usize) -> bool {
    contacts.iter().any(|contact| contact.child == child && contact.parent == parent)
}

// A line for each statement of the child: its number, and those of the parent's statements that it touches.
fn add_contacts(out: &mut Lines, contacts: &[Contact], child: usize, statements: usize) {
    out.add_number(child as u64);
    out.add(" touches");
    for parent in 0..statements {
        if are_in_touch(contacts, child, parent) {
            out.add_numbers(&[parent as u64]);
        }
    }
    out.add("\n");
}

// Status 0, which statements touch, and the least packet and walk that the child has over the parent, if it has any.
fn describe(
    alloc: Global,
    out: &mut Lines,
    net: &Topology,
    statements: (usize, usize),
    found: &Comparison,
) {
    let (parents, children) = statements;
    out.add("0\n");
    for child in 0..children {
        add_contacts(out, &found.contacts, child, parents);
    }
    match &found.wide {
        Some(path) => add_path(alloc, out, net, path),
        None => out.add("keeps paths\n"),
    }
}

fn compare(alloc: Global, parent: &Checked, child: &Checked, net: &Topology, out: &mut Lines)
    requires parent { HasAutomata (network_symbols net.now) parent.now }
    requires child { HasAutomata (network_symbols net.now) child.now }
{
    let statements = (parent.statements(), child.statements());
    match compare_policies(alloc, parent, child, net) {
        Ok(found) => describe(alloc, out, net, statements, &found),
        Err(_) => out.cut(),
    }
}

fn compare_text(alloc: Global, parent: &Checked, child: &[u8], net: &Topology, out: &mut Lines)
    requires { HasAutomata (network_symbols net.now) parent.now }
{
    match checked_from(alloc, child, net) {
        Some(child) => compare(alloc, parent, &child, net, out),
        None => out.answer(1, "no child"),
    }
}

fn compare_texts(alloc: Global, parent: &[u8], child: &[u8], net: &Topology, out: &mut Lines) {
    match checked_from(alloc, parent, net) {
        Some(parent) => compare_text(alloc, &parent, child, net, out),
        None => out.answer(1, "no parent"),
    }
}

/// `compare|PARENT|CHILD|TOPOLOGY`: which statements of the child touch which of the parent, by their numbers, and the least packet to which the child
/// allows a walk that the parent does not, with the least such walk.
pub fn answer_to(alloc: Global, words: &str, store: &Store, out: &mut Lines) {
    let (parent, words) = parted(words);
    let (child, topology) = parted(words);
    let (parent, child) = (content(store, parent), content(store, child));
    match read(alloc, content(store, topology)) {
        Ok(net) => compare_texts(alloc, parent, child, &net, out),
        Err(_) => out.answer(1, "no topology"),
    }
}
