//! Texts as trees: recursive descent over the lines of the nodes, in preorder.

ghost use Rattle.std.specs.Prelude.{ℕ, ◌≡◌, ◌≤◌, ◌<◌, ◌+◌, ◌-◌, ◌^◌, ◌++◌, List, length, Ok, IfOk, IfErr, OnOk, Option, Bool};
ghost use Rattle.std.specs.List.{AllByRecursion};
ghost use Rattle.merlin_model.specs.declared.certificate.Tree.{Tree};
ghost use Rattle.merlin_model.specs.Trees.{nodes_of};
ghost use Rattle.merlin_base.specs.Faults.{IsFirstWrongLine, GoesWrong};
ghost use Rattle.merlin_base.specs.NodeTexts.{node_lines, nodes_in, IsNodeLine, IsWithin};
ghost use Rattle.certificate_text.specs.TreeTexts.{tree_text, IsTreeText};
ghost use Rattle.certificate_text.specs.Outcomes.{IsLineFault};
ghost use Rattle.certificate_text.specs.TreeAnswers.{IsTreeFault};

use crate::fault::LineFault;
use crate::line::{Line, read_line};
use certificate::Tree;
use merlin_base::strip_front;
use merlin_model::OutOfMemory;
use merlin_model::limits::MAX_NODES;
use sqlite_items::Boxed;
use std::alloc::{AllocError, Global};

// Beside the one that a tree has at least, so many nodes may stand in a text.
const FURTHER_NODES: usize = MAX_NODES - 1;

/// Why a text is no tree: the start of the first line with which no tree goes on, or the length where lines are missing.
#[derive(Clone, Copy)]
pub enum TreeTextFault {
    BadTree { at: usize },
    OutOfMemory,
}

// A split over two trees.
fn split(alloc: Global, variable: usize, zero: Tree, one: Tree) -> Result<Tree, AllocError>
    ensures { IfOk result (λ tree. tree ≡ Tree.Split variable zero one) }
{
    Ok(Tree::Split {
        variable,
        zero: Boxed::new(alloc, zero)?,
        one: Boxed::new(alloc, one)?,
    })
}

// The tree with which the text begins, what stands behind it, and how many more nodes may follow those that are owed.
fn read_nodes(alloc: Global, text: &[u8], spare: usize) -> Result<(Tree, &[u8], usize), LineFault>
    ensures text { IfOk result (λ r. text.now ≡ node_lines r.0 ++ r.1.now) }
    ensures spare { IfOk result (λ r. r.2 + length (nodes_in r.0) ≡ spare + 1) }
    ensures each { IfOk result (λ r. AllByRecursion IsNodeLine (nodes_in r.0)) }
    ensures err { let goes_wrong = GoesWrong node_lines (IsWithin (spare + 1)) text.now in
        IfErr result (IsLineFault goes_wrong) }
{
    let (line, rest) = read_line(alloc, text)?;
    match line {
        Line::Leaf(weights) => Ok((Tree::Leaf(weights), rest, spare)),
        Line::Open => Ok((Tree::Unclosed, rest, spare)),
        Line::Split(variable) => {
            if spare < 2 {
                return Err(LineFault::Wrong(text.len()));
            }
            let (zero, rest, spare) = read_nodes(alloc, rest, spare - 2)?;
            let (one, rest, spare) = read_nodes(alloc, rest, spare)?;
            Ok((split(alloc, variable, zero, one)?, rest, spare))
        }
    }
}

// The tree that stands between the first line and the last.
fn read_whole_tree(alloc: Global, text: &[u8]) -> Result<Tree, LineFault>
    ensures ok { IfOk result (λ tree. (text.now ≡ tree_text tree) × IsTreeText tree) }
    ensures err { IfErr result (IsLineFault (λ left. (left ≤ length text.now)
        × IsFirstWrongLine tree_text IsTreeText text.now (length text.now - left))) }
{
    let Some(nodes) = strip_front(text, b"tree\n") else {
        return Err(LineFault::Wrong(text.len()));
    };
    let (tree, rest, _spare) = read_nodes(alloc, nodes, FURTHER_NODES)?;
    let Some(more) = strip_front(rest, b"end\n") else {
        return Err(LineFault::Wrong(rest.len()));
    };
    if more.is_empty() {
        Ok(tree)
    } else {
        Err(LineFault::Wrong(more.len()))
    }
}

/// The tree that a text stands for. Where it is none, the fault is at the start of the first line with which no tree goes on.
pub fn read_tree(alloc: Global, bytes: &[u8]) -> Result<Tree, TreeTextFault>
    ensures ok { IfOk result (λ tree. (bytes.now ≡ tree_text tree) × IsTreeText tree) }
    ensures few { IfOk result (λ tree. (box : List (Option Bool)) →
        length (nodes_of tree box) ≤ MAX_NODES) }
    ensures only { (tree : Tree) → IsTreeText tree → bytes.now ≡ tree_text tree →
        OnOk result (result ≡ Ok tree) }
    ensures err { IfErr result (IsTreeFault bytes.now) }
{
    match read_whole_tree(alloc, bytes) {
        Ok(tree) => Ok(tree),
        Err(LineFault::Wrong(left)) => Err(TreeTextFault::BadTree {
            at: bytes.len() - left,
        }),
        Err(LineFault::Memory) => Err(TreeTextFault::OutOfMemory),
    }
}
