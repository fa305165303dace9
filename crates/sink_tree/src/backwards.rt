//! A product walked backwards, from its end.

ghost use Rattle.std.specs.Prelude.{◌<◌, length, IfOk};
ghost use Rattle.graph_search.specs.Graphs.{ArePotentials};
ghost use Rattle.sink_tree.specs.Backwards.{turned_edges};

use graph_search::{Edge, Graph, Potentials, least};
use merlin_model::OutOfMemory;
use product_graph::Product;
use std::alloc::Global;

/// The vertices of a product, with its edges turned round, each at the cost of one.
#[derive(Clone, Copy)]
struct Backwards<'a> {
    product: &'a Product,
}

impl Graph for Backwards<'_> {
    ghost size = { λ it. length it.product.now.vertices };

    ghost edges_of = { λ it. turned_edges it.product.now.edges };

    fn vertices(&self) -> usize {
        self.product.vertices().len()
    }

    fn edges(&self) -> usize {
        self.product.edges().len()
    }

    fn edge(&self, number: usize) -> Edge {
        let (from, to) = self.product.edges()[number];
        Edge {
            from: to,
            to: from,
            cost: 1,
        }
    }
}

/// How many edges lead from each vertex to the end, along a path with the fewest.
pub fn distances(alloc: Global, product: &Product, end: usize) -> Result<Potentials, OutOfMemory>
    requires { end < length product.now.vertices }
    ensures { IfOk result (ArePotentials (length product.now.vertices)
        (turned_edges product.now.edges) end) }
{
    // so many edges that their costs can be added
    let _ = product.edges();
    least(alloc, &Backwards { product }, end)
}
