//! The sink tree of a product: breadth-first distances to the end (Moore 1959), and from each vertex
//! the first edge that comes one nearer.

ghost use Rattle.std.specs.Prelude.{◌≡◌, ◌<◌, length, IfOk};
ghost use Rattle.merlin_model.specs.Networks.{Network};
ghost use Rattle.rules_model.specs.Products.{SymbolAutomaton};
ghost use Rattle.product_graph.specs.declared.span.Span2.{Span2};
ghost use Rattle.product_graph.specs.Products.{IsTrimmed, IsProduct, dest_of};
ghost use Rattle.sink_tree.specs.Trees.{next_in, IsSinkTree};

use crate::backwards::distances;
use crate::nearest::nearest;
use graph_search::Potentials;
use merlin_model::OutOfMemory;
use product_graph::Product;
use sqlite_items::Items;
use std::alloc::Global;

/// For each vertex of a product the one that comes next on the way to the end.
#[derive(Drop)]
pub struct SinkTree {
    next: Items<Option<usize>>,
}

impl SinkTree {
    /// The vertex that comes next. None exactly at the end.
    pub fn next(&self, vertex: usize) -> Option<usize>
        requires { vertex < length self.now.next }
        ensures { result ≡ next_in self.now vertex }
    {
        self.next.as_slice()[vertex]
    }
}

/// The sink tree of a product. From each vertex the next ones lead to the end over the fewest edges;
/// of the vertices from which as few are left the first one comes next.
pub fn tree(alloc: Global, product: &Product) -> Result<SinkTree, OutOfMemory>
    ensures size { (net : Network) (a : SymbolAutomaton) (span : Span2) →
        IsProduct net a span product.now →
        IfOk result (λ tree. length tree.next ≡ length product.now.vertices) }
    ensures tree { (net : Network) (a : SymbolAutomaton) (span : Span2) →
        IsTrimmed net a span product.now →
        IfOk result (λ tree. IsSinkTree net a (dest_of span) product.now (next_in tree)) }
{
    let edges = product.edges();
    let Some(end) = product.end() else {
        return Ok(SinkTree {
            next: Items::new(alloc),
        });
    };
    let Potentials {
        distance,
        before: _,
    } = distances(alloc, product, end)?;
    let next = nearest(alloc, edges, distance.as_slice())?;
    Ok(SinkTree { next })
}
