//! The vertices that a search has reached and not yet settled, by what it costs to come to them, in
//! a binary heap (Williams 1964).

ghost use Rattle.std.specs.Prelude.{◌≡◌, [], OnOk, MatchOption};
ghost use Rattle.graph_search.specs.Frontiers.{HasAlso, IsTakenOut};

use merlin_model::OutOfMemory;
use std::alloc::Global;
use std::cmp::Reverse;
use std::collections::BinaryHeap;
use std::marker::Model;

/// Costs, each with a vertex. A vertex may stand there more than once.
#[derive(Drop)]
pub struct Frontier {
    heap: BinaryHeap<Reverse<(u128, usize)>>,
}

impl Model for Frontier {
    ghost use Rattle.std.specs.Prelude.{ℕ, List, map};
    ghost use Rattle.std.specs.BinaryHeap.{heap_items, IsHeap};
    ghost use Rattle.graph_search.specs.Frontiers.{entry_cmp};

    ghost Value = { List (ℕ × ℕ) };

    ghost view = { λ frontier. map (λ entry. entry.0) (heap_items frontier.heap) };

    ghost invariant = { λ frontier. IsHeap entry_cmp (heap_items frontier.heap) };
}

impl Frontier {
    /// One without an entry.
    pub fn new(alloc: Global) -> Frontier
        ensures { result ≡ [] }
    {
        Frontier {
            heap: BinaryHeap::new(alloc),
        }
    }

    /// Puts a vertex beside the others, with what it costs to come to it.
    pub fn push(&mut self, cost: u128, vertex: usize) -> Result<(), OutOfMemory>
        ensures { OnOk result (HasAlso (cost, vertex) self.old self.new) }
    {
        self.heap.push(Reverse((cost, vertex)))?;
        Ok(())
    }

    /// Takes out an entry of least cost. None where there is no entry.
    pub fn pop(&mut self) -> Option<(u128, usize)>
        ensures { MatchOption result ((self.old ≡ []) × (self.new ≡ []))
            (λ entry. IsTakenOut entry self.old self.new) }
    {
        match self.heap.pop() {
            Some(Reverse(entry)) => Some(entry),
            None => None,
        }
    }
}
