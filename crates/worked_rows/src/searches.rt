//! What a search finds for guaranteed statements.

ghost use Rattle.std.specs.Prelude.{◌<◌, ◌≤◌, length, IfSome};
ghost use Rattle.merlin_model.specs.Assignments.{AreAllEnds};
ghost use Rattle.policy_check.specs.declared.guarantees.TheConstants.{MAX_GUARANTEES};
ghost use Rattle.merlin_compile.specs.Provisions.{IsCheckOfSome};

use crate::guaranteed::{Asked, add_value, objective_of};
use crate::lines::Lines;
use crate::loads::add_loads;
use crate::parts::answer_fault;
use crate::points::add_walk;
use crate::texts::parted;
use certificate_text::print_tree;
use merlin_model::certificate::Tree;
use merlin_model::limits::MAX_NODES;
use merlin_model::policy::{Ends, Objective, Symbol, Value};
use policy_check::Checked;
use sqlite_items::Items;
use std::alloc::Global;
use topology::Topology;
use walk_search::{WalksFound, find_walks};

// How many splits, leaves and open ends there are.
fn nodes_of(tree: &Tree) -> u64 {
    match tree {
        Tree::Leaf(_) | Tree::Unclosed => 1,
        Tree::Split { zero, one, .. } => {
            nodes_of(zero.get())
                .saturating_add(nodes_of(one.get()))
                .saturating_add(1)
        }
    }
}

fn add_walks(out: &mut Lines, net: &Topology, walks: &[Items<Symbol>]) {
    for walk in walks {
        add_walk(out, net, walk.as_slice());
    }
}

fn add_nodes(out: &mut Lines, tree: &Tree) {
    out.add("nodes");
    out.add_numbers(&[nodes_of(tree)]);
    out.add("\n");
}

// The lines of walks, or of what they put on each link, or how many nodes the tree has.
fn add_rest(
    out: &mut Lines,
    net: &Topology,
    rates: &[u64],
    ends: &[Ends],
    walks: &[Items<Symbol>],
    tree: &Tree,
    asked: Asked,
) {
    match asked {
        Asked::Walks => add_walks(out, net, walks),
        Asked::Loads => add_loads(out, net, rates, ends, walks),
        _ => add_nodes(out, tree),
    }
}

fn add_least(out: &mut Lines, value: Value) {
    out.add("least ");
    add_value(out, value);
    out.add("\n");
}

// The line of what there is at best, and a value that nothing is below.
fn add_spent(out: &mut Lines, best: Option<Value>, bound: Value) {
    out.add("budget best ");
    match best {
        Some(value) => add_value(out, value),
        None => out.add("none"),
    }
    out.add(" bound ");
    add_value(out, bound);
    out.add("\n");
}

fn walks_of(best: &Option<(Value, Items<Items<Symbol>>)>) -> &[Items<Symbol>] {
    match best {
        Some((_, walks)) => walks.as_slice(),
        None => &[],
    }
}

// Status 0, and what was found.
fn describe(
    out: &mut Lines,
    net: &Topology,
    rates: &[u64],
    ends: &[Ends],
    found: &WalksFound,
    asked: Asked,
) {
    out.add("0\n");
    match found {
        WalksFound::Least { value, walks, tree } => {
            add_least(out, *value);
            add_rest(out, net, rates, ends, walks.as_slice(), tree, asked);
        }
        WalksFound::Infeasible { tree } => {
            out.add("infeasible\n");
            add_rest(out, net, rates, ends, &[], tree, asked);
        }
        WalksFound::Budget { best, bound, tree } => {
            add_spent(out, best.as_ref().map(|best| best.0), *bound);
            add_rest(out, net, rates, ends, walks_of(best), tree, asked);
        }
    }
}

fn tree_of(found: &WalksFound) -> &Tree {
    match found {
        WalksFound::Least { tree, .. } => tree,
        WalksFound::Infeasible { tree } => tree,
        WalksFound::Budget { tree, .. } => tree,
    }
}

// What is asked of what was found.
fn answer(
    alloc: Global,
    out: &mut Lines,
    net: &Topology,
    rates: &[u64],
    ends: &[Ends],
    found: &WalksFound,
    asked: Asked,
) {
    match asked {
        Asked::Certificate => {
            out.add("0\n");
            out.add_name(print_tree(alloc, tree_of(found)));
        }
        _ => describe(out, net, rates, ends, found, asked),
    }
}

// A number of nodes that a search may have.
fn budget_from(text: &str) -> Option<usize>
    ensures some { IfSome result (λ budget. 0 < budget) }
    ensures most { IfSome result (λ budget. budget ≤ MAX_NODES) }
{
    let budget = text.parse::<usize>().ok()?;
    if budget == 0 || MAX_NODES < budget {
        return None;
    }
    Some(budget)
}

// What a search with so many nodes finds.
fn of_budget(
    alloc: Global,
    net: &Topology,
    checked: &Checked,
    ends: &[Ends],
    objective: Objective,
    budget: usize,
    asked: Asked,
    out: &mut Lines,
)
    requires checked { IsCheckOfSome net.now checked.now }
    requires ends { AreAllEnds net.now checked.now.policy ends.now }
    requires few { length ends.now ≤ MAX_GUARANTEES }
    requires some { 0 < budget }
    requires most { budget ≤ MAX_NODES }
{
    policy_configuration::laws::checked_policies_are_sound();
    let _sound = checked.statements();
    let _numbers = checked.automata();
    let rates = checked.rates().min.as_slice();
    match find_walks(alloc, net, checked, ends, objective, budget) {
        Ok(found) => answer(alloc, out, net, rates, ends, &found, asked),
        Err(fault) => answer_fault(out, &fault),
    }
}

/// What a search finds for guaranteed statements, and how many nodes its tree has.
pub fn answer_to(
    alloc: Global,
    net: &Topology,
    checked: &Checked,
    ends: &[Ends],
    asked: Asked,
    words: &str,
    out: &mut Lines,
)
    requires checked { IsCheckOfSome net.now checked.now }
    requires ends { AreAllEnds net.now checked.now.policy ends.now }
    requires few { length ends.now ≤ MAX_GUARANTEES }
{
    let (word, words) = parted(words);
    match (objective_of(word), budget_from(words)) {
        (Some(objective), Some(budget)) => of_budget(
            alloc, net, checked, ends, objective, budget, asked, out,
        ),
        _ => out.answer(1, "no objective and budget"),
    }
}
