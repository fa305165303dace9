//! The walks along the edges of a product.

ghost use Rattle.std.specs.Prelude.{◌≡◌, ◌<◌, length, slice_get, Some, IfOk};
ghost use Rattle.std.specs.List.{AllByRecursion};
ghost use Rattle.product_graph.specs.Walks.{IsPathBy, word_by, departure_by, vertex_symbol_at, edge_at};

use crate::span::Product;
use merlin_model::OutOfMemory;
use merlin_model::policy::Symbol;
use sqlite_items::Items;
use std::alloc::Global;

impl Product {
    /// The edge of a number.
    fn edge(&self, number: usize) -> (usize, usize)
        requires { number < length self.now.edges }
        ensures is { result ≡ edge_at self.now number }
        ensures from { result.0 < length self.now.vertices }
        ensures to { result.1 < length self.now.vertices }
    {
        self.edges.as_slice()[number]
    }

    /// The symbol of a vertex.
    fn symbol(&self, vertex: usize) -> Symbol
        requires { vertex < length self.now.vertices }
        ensures { result ≡ vertex_symbol_at self.now vertex }
    {
        self.vertices.as_slice()[vertex].symbol
    }

    /// The symbol that the first of the edges leaves, if there is an edge.
    fn departure(&self, alloc: Global, edges: &[usize]) -> Result<Items<Symbol>, OutOfMemory>
        requires { AllByRecursion (λ k. k < length self.now.edges) edges.now }
        ensures { IfOk result (λ walk. walk ≡ departure_by self.now edges.now) }
    {
        let mut walk = Items::new(alloc);
        match edges {
            [first, ..] => {
                walk.push(self.symbol(self.edge(*first).0))?;
                Ok(walk)
            }
            [] => Ok(walk),
        }
    }

    /// The walk over these edges, which lead from a start to the end.
    pub fn walk_of(&self, alloc: Global, edges: &[usize]) -> Result<Items<Symbol>, OutOfMemory>
        requires { IsPathBy self.now edges.now }
        ensures { IfOk result (λ walk. walk ≡ word_by self.now edges.now) }
    {
        let mut walk = self.departure(alloc, edges)?;
        for number in edges {
            walk.push(self.symbol(self.edge(*number).1))?;
        }
        Ok(walk)
    }
}
