//! Vertices by numbers, each with its place in a list.

ghost use Rattle.std.specs.Prelude.{◌≡◌, ◌<◌, ◌^◌, [], length, slice_get, Contains, IfOk, MatchOption, Some};
ghost use Rattle.product_graph.specs.Numbered.{IsPut};

use indexmap::IndexSet;
use merlin_model::OutOfMemory;
use std::alloc::Global;
use std::marker::Model;

/// The number of a symbol, with the state after it.
#[derive(Clone, Copy, PartialEq, Eq, Hash)]
pub struct NumberedVertex {
    pub symbol: usize,
    pub state: usize,
}

/// Different vertices, in the order in which they were put there.
#[derive(Drop)]
pub struct VertexSet {
    set: IndexSet<NumberedVertex>,
}

impl Model for VertexSet {
    ghost use Rattle.std.specs.Prelude.{List};
    ghost use Rattle.product_graph.specs.declared.vertex_set.NumberedVertex.{NumberedVertex};

    ghost Value = { List NumberedVertex };

    ghost view = { λ vertices. vertices.set.keys };
}

impl VertexSet {
    /// One without a vertex.
    pub fn new(alloc: Global) -> VertexSet
        ensures { result ≡ [] }
    {
        VertexSet {
            set: IndexSet::new(alloc),
        }
    }

    /// The vertices.
    pub fn as_slice(&self) -> &[NumberedVertex]
        ensures { result.now ≡ self.now }
    {
        self.set.as_slice()
    }

    /// The number of vertices.
    pub fn len(&self) -> usize
        ensures count { result ≡ length self.now }
        ensures small { result < 2 ^ 63 }
    {
        self.set.len()
    }

    /// The vertex at a place. None behind the last one.
    pub fn get(&self, place: usize) -> Option<NumberedVertex>
        ensures { result ≡ slice_get self.now place }
    {
        self.set.get_index(place).copied()
    }

    /// Puts a vertex behind the others, unless it is among them, and says at which place it is.
    pub fn put(&mut self, vertex: NumberedVertex) -> Result<usize, OutOfMemory>
        ensures { IfOk result (λ place. IsPut vertex place self.old self.new) }
    {
        let (place, _) = self.set.insert_full(vertex)?;
        Ok(place)
    }

    /// The place of a vertex. None where it is not among them.
    pub fn place(&self, vertex: NumberedVertex) -> Option<usize>
        ensures { MatchOption result (¬ Contains self.now vertex)
            (λ place. slice_get self.now place ≡ Some vertex) }
    {
        self.set.get_index_of(&vertex)
    }
}
