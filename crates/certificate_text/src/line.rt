//! The lines of nodes.

ghost use Rattle.std.specs.Prelude.{ℕ, ◌≡◌, ◌<◌, ◌^◌, ◌++◌, ◌∷◌, [], ℤ, map, length, List, IfSome, IfNone, IfOk, IfErr, Option};
ghost use Rattle.std.specs.Fmt.{decimal};
ghost use Rattle.merlin_model.specs.Trees.{Node};
ghost use Rattle.merlin_model.specs.declared.certificate.Weight.{Weight};
ghost use Rattle.merlin_base.specs.declared.limits.TheConstants.{MAX_DIGITS};
ghost use Rattle.merlin_base.specs.Pairs.{pairs_text, ArePairs};
ghost use Rattle.merlin_base.specs.NodeTexts.{pair_of, node_line, IsNodeLine};
ghost use Rattle.certificate_text.specs.Outcomes.{IsLineFault, node_of};

use crate::fault::LineFault;
use crate::pairs::read_pairs;
use certificate::Weight;
use merlin_base::limits::NUMBERS;
use merlin_base::{read_number, split_at_byte, strip_front};
use merlin_model::OutOfMemory;
use merlin_model::limits::MAX_WEIGHT;
use sqlite_items::Items;
use std::alloc::Global;

// the greatest weight, as the reader of numbers takes it
const GREATEST_WEIGHT: usize = MAX_WEIGHT as usize;

/// The line of a node.
#[derive(Drop)]
pub enum Line {
    Split(usize),
    Leaf(Items<Weight>),
    Open,
}

/// The number that fills the rest of a line, and what stands behind the line.
pub fn number_line(text: &[u8]) -> Option<(usize, &[u8])>
    ensures some { IfSome result (λ r.
        (text.now ≡ decimal r.0 ++ 10 ∷ r.1.now) × (r.0 < 10 ^ MAX_DIGITS)) }
    ensures none { IfNone result ((n : ℕ) (rest : List ℕ) → n < 10 ^ MAX_DIGITS →
        text.now ≡ decimal n ++ 10 ∷ rest → ⊥) }
{
    let Some((digits, rest)) = split_at_byte(text, b'\n') else {
        return None;
    };
    match read_number(digits) {
        Some(number) => Some((number, rest)),
        None => None,
    }
}

// Pairs as weights.
fn weights_of(alloc: Global, pairs: &[(usize, i64)]) -> Result<Items<Weight>, OutOfMemory>
    ensures { IfOk result (λ weights. map pair_of weights ≡ pairs.now) }
{
    let mut weights = Items::new(alloc);
    for (row, weight) in pairs {
        weights.push(Weight {
            row: *row,
            weight: *weight,
        })?;
    }
    Ok(weights)
}

// The weights that fill the rest of a line, and what stands behind the line.
fn weights_line(alloc: Global, text: &[u8]) -> Result<Option<(Items<Weight>, &[u8])>, OutOfMemory>
    ensures some { IfOk result (λ o. IfSome o (λ r.
        (text.now ≡ pairs_text (map pair_of r.0) ++ 10 ∷ r.1.now)
        × ArePairs (10 ^ MAX_DIGITS) MAX_WEIGHT (map pair_of r.0))) }
    ensures none { IfOk result (λ o. IfNone o ((weights : List Weight) (rest : List ℕ) →
        ArePairs (10 ^ MAX_DIGITS) MAX_WEIGHT (map pair_of weights) →
        text.now ≡ pairs_text (map pair_of weights) ++ 10 ∷ rest → ⊥)) }
{
    let Some((line, rest)) = split_at_byte(text, b'\n') else {
        return Ok(None);
    };
    match read_pairs(alloc, line, NUMBERS, GREATEST_WEIGHT)? {
        Some(pairs) => Ok(Some((weights_of(alloc, pairs.as_slice())?, rest))),
        None => Ok(None),
    }
}

/// The line of a node with which the text begins, and what stands behind it.
pub fn read_line(alloc: Global, text: &[u8]) -> Result<(Line, &[u8]), LineFault>
    ensures ok { IfOk result (λ r.
        (text.now ≡ node_line (node_of r.0) ++ r.1.now) × IsNodeLine (node_of r.0)) }
    ensures err { IfErr result (IsLineFault (λ left. (left ≡ length text.now)
        × ((node : Node) (rest : List ℕ) → IsNodeLine node →
        text.now ≡ node_line node ++ rest → ⊥))) }
{
    if let Some(rest) = strip_front(text, b"split ") {
        return match number_line(rest) {
            Some((variable, rest)) => Ok((Line::Split(variable), rest)),
            None => Err(LineFault::Wrong(text.len())),
        };
    }
    if let Some(rest) = strip_front(text, b"leaf") {
        return match weights_line(alloc, rest)? {
            Some((weights, rest)) => Ok((Line::Leaf(weights), rest)),
            None => Err(LineFault::Wrong(text.len())),
        };
    }
    if let Some(rest) = strip_front(text, b"open\n") {
        return Ok((Line::Open, rest));
    }
    Err(LineFault::Wrong(text.len()))
}
