//! The node lines of a tree, and where they stop: recursive descent over the lines, in preorder, which keeps none of them.

ghost use Rattle.std.specs.Prelude.{ℕ, ◌≡◌, ◌≤◌, ◌<◌, ◌+◌, ◌^◌, ◌++◌, ◌∷◌, List, Bool, length, IfSome, IfNone, IfOk, IfErr};
ghost use Rattle.std.specs.Fmt.{decimal};
ghost use Rattle.merlin_base.specs.Faults.{GoesWrong};
ghost use Rattle.merlin_base.specs.NodeTexts.{node_lines, nodes_text, IsTakenTree};
ghost use Rattle.merlin_base.specs.Skipping.{BeginsNumberLine, BeginsWeightsLine, BeginsNodeLine, BeginsTree, BeginsNodes, EndsNodesAt, StopsNodesAt};

use crate::cuts::strip_front;
use crate::lexemes::split_at_byte;
use crate::limits::NUMBERS;
use crate::number_texts::read_number;
use crate::pairs::are_pairs;
use merlin_model::limits::{MAX_NODES, MAX_WEIGHT};

// The greatest weight, as the reader of numbers takes it.
const GREATEST_WEIGHT: usize = MAX_WEIGHT as usize;

// Beside the one that a tree has at least, so many nodes may stand in a text.
const FURTHER_NODES: usize = MAX_NODES - 1;

// What stands behind the number and the newline with which the text begins.
fn skip_number_line(text: &[u8]) -> Option<&[u8]>
    ensures some { IfSome result (λ rest. BeginsNumberLine text.now rest.now) }
    ensures none { IfNone result ((rest : List ℕ) → ¬ BeginsNumberLine text.now rest) }
{
    let (digits, rest) = split_at_byte(text, b'\n')?;
    read_number(digits)?;
    Some(rest)
}

// What stands behind the weights and the newline with which the text begins.
fn skip_weights_line(text: &[u8]) -> Option<&[u8]>
    ensures some { IfSome result (λ rest. BeginsWeightsLine text.now rest.now) }
    ensures none { IfNone result ((rest : List ℕ) → ¬ BeginsWeightsLine text.now rest) }
{
    let (line, rest) = split_at_byte(text, b'\n')?;
    if are_pairs(line, NUMBERS, GREATEST_WEIGHT) {
        Some(rest)
    } else {
        None
    }
}

// Whether the line of a node with which the text begins is a split, and what stands behind the line.
fn skip_line(text: &[u8], unclosed: bool) -> Option<(bool, &[u8])>
    ensures some { IfSome result (λ r. BeginsNodeLine unclosed text.now r.0 r.1.now) }
    ensures none { IfNone result ((split : Bool) (rest : List ℕ) →
        ¬ BeginsNodeLine unclosed text.now split rest) }
{
    if let Some(digits) = strip_front(text, b"split ") {
        let rest = skip_number_line(digits)?;
        return Some((true, rest));
    }
    if let Some(weights) = strip_front(text, b"leaf") {
        let rest = skip_weights_line(weights)?;
        return Some((false, rest));
    }
    if !unclosed {
        return None;
    }
    let rest = strip_front(text, b"open\n")?;
    Some((false, rest))
}

// What stands behind the tree with which the text begins, and how many more nodes may follow those that are owed. An error says how much is
// left from the first wrong line on.
fn skip_tree(text: &[u8], unclosed: bool, spare: usize) -> Result<(&[u8], usize), usize>
    ensures ok { IfOk result (λ r. BeginsTree unclosed spare text.now r.0.now r.1) }
    ensures err { IfErr result (GoesWrong node_lines (IsTakenTree unclosed (spare + 1)) text.now) }
{
    let Some((split, rest)) = skip_line(text, unclosed) else {
        return Err(text.len());
    };
    if !split {
        return Ok((rest, spare));
    }
    if spare < 2 {
        return Err(text.len());
    }
    let (behind, left) = skip_tree(rest, unclosed, spare - 2)?;
    skip_tree(behind, unclosed, left)
}

// What stands behind the tree and the line `end` with which the text begins.
fn skip_whole(text: &[u8], unclosed: bool) -> Result<&[u8], usize>
    ensures ok { IfOk result (λ rest. BeginsNodes unclosed text.now rest.now) }
    ensures err { IfErr result (GoesWrong nodes_text (IsTakenTree unclosed MAX_NODES) text.now) }
{
    let (rest, _) = skip_tree(text, unclosed, FURTHER_NODES)?;
    match strip_front(rest, b"end\n") {
        Some(more) => Ok(more),
        None => Err(rest.len()),
    }
}

/// The place after the line `end`, where from a place on the node lines of one tree of up to `MAX_NODES` nodes and then that line stand. A line
/// `open` is taken only where `unclosed` is true. An error is the start of the first line with which no such text goes on, or the length where
/// lines are missing. Places are byte offsets.
pub fn skip_nodes(bytes: &[u8], at: usize, unclosed: bool) -> Result<usize, usize>
    requires { at ≤ length bytes.now }
    ensures ok { IfOk result (EndsNodesAt unclosed bytes.now at) }
    ensures err { IfErr result (StopsNodesAt unclosed bytes.now at) }
{
    match skip_whole(&bytes[at..], unclosed) {
        Ok(rest) => Ok(bytes.len() - rest.len()),
        Err(left) => Err(bytes.len() - left),
    }
}
