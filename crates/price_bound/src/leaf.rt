//! A leaf from numbers at vertices.

ghost use Rattle.std.specs.Prelude.{ℕ, ◌≡◌, ◌≤◌, ◌<◌, ◌+◌, ◌^◌, ◌++◌, [], length, List, IfOk, OnOk};
ghost use Rattle.std.specs.List.{All};
ghost use Rattle.cutoff_program.specs.declared.flow.Problem.{Problem};
ghost use Rattle.price_candidates.specs.Leaves.{with_weight, flow_weights, leaf_from};
ghost use Rattle.price_bound.specs.Priced.{pricing_of, rest, IsPricedIn};

use merlin_model::OutOfMemory;
use merlin_model::certificate::Weight;
use sqlite_items::Items;
use std::alloc::Global;

/// What is priced beside the rows of flows.
#[derive(Clone, Copy)]
pub enum Priced {
    Nothing,
    Lengths,
    Link(usize),
}

/// Puts a row's weight after the others, if it is not 0.
fn put(weights: &mut Items<Weight>, row: usize, weight: u64) -> Result<(), OutOfMemory>
    requires { weight ≤ 2 ^ 60 }
    ensures { OnOk result (weights.new ≡ weights.old ++ with_weight row weight []) }
{
    if weight != 0 {
        let weight = weight as i64;
        weights.push(Weight { row, weight })?;
    }
    Ok(())
}

/// Puts the weight of the priced row after those of the rows of flows, which are so many.
fn put_priced(
    weights: &mut Items<Weight>,
    rows: usize,
    links: usize,
    pricing: Priced,
) -> Result<(), OutOfMemory>
    requires few { rows + links < 2 ^ 63 }
    requires is_in { IsPricedIn links (pricing_of pricing) }
    ensures { OnOk result (weights.new ≡ weights.old ++ rest links (pricing_of pricing) rows) }
{
    match pricing {
        Priced::Nothing => Ok(()),
        Priced::Lengths => put(weights, rows + links, 1),
        Priced::Link(link) => put(weights, rows + link, 1),
    }
}

/// The leaf by numbers at the vertices of all flows, one after the other.
pub fn leaf(
    alloc: Global,
    at: &[u64],
    links: usize,
    pricing: Priced,
) -> Result<Items<Weight>, OutOfMemory>
    requires low { All (λ m. m ≤ 2 ^ 60) at.now }
    requires few { length at.now + links < 2 ^ 63 }
    requires is_in { IsPricedIn links (pricing_of pricing) }
    ensures { (problem : Problem) (numbers : ℕ → ℕ → ℕ) →
        at.now ≡ flow_weights numbers 0 problem.flows → links ≡ length problem.links →
        IfOk result (λ weights. weights ≡ leaf_from problem numbers (pricing_of pricing)) }
{
    let mut weights = Items::new(alloc);
    for (row, weight) in at.iter().enumerate() {
        put(&mut weights, row, *weight)?;
    }
    put_priced(&mut weights, at.len(), links, pricing)?;
    Ok(weights)
}
