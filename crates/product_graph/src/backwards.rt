//! From which places one comes to another, over numbered edges that are walked backwards.

ghost use Rattle.std.specs.Prelude.{◌<◌, ◌+◌, ◌^◌, None, IfOk};
ghost use Rattle.std.proofs.Props.{props};
ghost use Rattle.graph_search.specs.Graphs.{ArePotentials};
ghost use Rattle.product_graph.specs.Inside.{AreEdgesInside};
ghost use Rattle.product_graph.specs.Reversed.{reversed_edges};

use graph_search::{Edge, Graph, Potentials, least};
use merlin_model::OutOfMemory;
use sqlite_items::Items;
use std::alloc::Global;

/// Edges between so many places, each turned round, at the cost of one.
#[derive(Drop)]
pub struct ReversedEdges {
    pub edges: Items<(usize, usize)>,
    pub places: usize,
    ghost inside: { AreEdgesInside places edges None } by { Prim.hlevel props },
}

impl Graph for ReversedEdges {
    ghost size = { λ it. it.places };

    ghost edges_of = { λ it. reversed_edges it.edges };

    fn vertices(&self) -> usize {
        self.places
    }

    fn edges(&self) -> usize {
        self.edges.len()
    }

    fn edge(&self, number: usize) -> Edge {
        let (from, to) = self.edges.as_slice()[number];
        Edge {
            from: to,
            to: from,
            cost: 1,
        }
    }
}

/// How many edges lead from each place to the last one, along a path with the fewest.
pub fn edges_left(
    alloc: Global,
    edges: Items<(usize, usize)>,
    last: usize,
) -> Result<Potentials, OutOfMemory>
    requires places { last + 1 < 2 ^ 64 }
    requires edges { AreEdgesInside (last + 1) edges None }
    ensures { IfOk result (ArePotentials (last + 1) (reversed_edges edges) last) }
{
    // so many edges that their costs can be added
    let _ = edges.as_slice();
    let graph = ReversedEdges {
        edges,
        places: last + 1,
    };
    least(alloc, &graph, last)
}
