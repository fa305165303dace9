//! Each answer of a search, by two choosers.

ghost use Rattle.std.specs.Prelude.{◌<◌, ◌≤◌};

use crate::items::{TwoItems, Wanted};
use crate::settling::{Settling, first_free, last_free};
use bound_search::{Outcome, Search};
use integer_program::Fixed;
use merlin_model::OutOfMemory;
use merlin_model::certificate::Tree;
use merlin_model::limits::MAX_NODES;
use std::alloc::Global;
use std::test::Fail;

// The variables of a tree's splits in preorder, with `.` for a leaf and `?` for an open end.
fn shape(out: &mut String, tree: &Tree) -> Result<(), OutOfMemory> {
    match tree {
        Tree::Leaf(_) => out.push_str(".")?,
        Tree::Split {
            variable,
            zero,
            one,
        } => {
            write!(out, "{variable}")?;
            shape(out, zero.get())?;
            shape(out, one.get())?;
        }
        Tree::Unclosed => out.push_str("?")?,
    }
    Ok(())
}

fn told(alloc: Global, outcome: &Outcome<u64>) -> Result<String, OutOfMemory> {
    let mut out = String::new(alloc);
    match outcome {
        Outcome::Least {
            point,
            cutoff,
            tree,
        } => {
            out.push_str("least ")?;
            for is_taken in point.as_slice() {
                write!(out, "{is_taken} ")?;
            }
            write!(out, "{cutoff} ")?;
            shape(&mut out, tree)?;
        }
        Outcome::Infeasible { tree } => {
            out.push_str("none ")?;
            shape(&mut out, tree)?;
        }
        Outcome::Budget { best, tree } => {
            if best.is_some() {
                out.push_str("some ")?;
            }
            out.push_str("spent ")?;
            shape(&mut out, tree)?;
        }
    }
    Ok(out)
}

// The nearest budget that a search may have.
fn budget_of(nodes: usize) -> usize
    ensures some { 0 < result }
    ensures most { result ≤ MAX_NODES }
{
    if nodes == 0 {
        1
    } else if MAX_NODES < nodes {
        MAX_NODES
    } else {
        nodes
    }
}

// What the two choosers come to, the one that answers the first free variable and then the other.
fn both(
    alloc: Global,
    wanted: Wanted,
    offers_both: bool,
    nodes: usize,
) -> Result<(String, String), OutOfMemory> {
    let program = TwoItems { wanted };
    let mut first = Search::new(program, Settling { offers_both }, |fixed: &Fixed| {
        first_free(fixed)
    });
    let mut last = Search::new(program, Settling { offers_both }, |fixed: &Fixed| {
        last_free(fixed)
    });
    let budget = budget_of(nodes);
    let low = first.run(alloc, budget)?;
    let high = last.run(alloc, budget)?;
    Ok((told(alloc, &low)?, told(alloc, &high)?))
}

const CASES: [(Wanted, bool, usize, &str, &str); 9] = [
    (
        Wanted::One,
        false,
        5,
        "least false true 1 .",
        "least false true 1 .",
    ),
    (Wanted::One, false, 1, "spent ?", "spent ?"),
    (Wanted::One, false, 4, "spent 0??", "spent 1??"),
    (
        Wanted::Both,
        false,
        7,
        "least true true 3 01..1..",
        "least true true 3 10..0..",
    ),
    (Wanted::Both, false, 6, "spent 01..?", "spent 10..?"),
    (
        Wanted::Both,
        true,
        6,
        "some spent 01..?",
        "some spent 10..?",
    ),
    (Wanted::One, true, 1, "some spent ?", "some spent ?"),
    (Wanted::Three, true, 7, "none 01..1..", "none 10..0.."),
    (Wanted::Three, false, 3, "spent 0??", "spent 1??"),
];

#[test]
fn two_choosers_find_the_same_value(rt: HostRuntime) -> Result<(), Fail> {
    let alloc = rt.alloc();
    for (wanted, offers_both, budget, low, high) in CASES {
        let found = both(alloc, wanted, offers_both, budget)?;
        assert_eq!(rt; found.0.as_str(), low);
        assert_eq!(rt; found.1.as_str(), high);
    }
    Ok(())
}
