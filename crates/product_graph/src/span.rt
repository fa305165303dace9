//! Products, and between which hosts they stand.

ghost use Rattle.std.specs.Prelude.{◌≡◌, length};
ghost use Rattle.std.proofs.Props.{props};
ghost use Rattle.product_graph.specs.Inside.{AreEdgesInside};

use merlin_model::policy::Symbol;
use sqlite_items::Items;

/// The hosts of a product: from one to another, or from all others to one.
#[derive(Clone, Copy)]
pub enum Span2 {
    Pair { src: usize, dst: usize },
    All { dst: usize },
}

/// A symbol with the state after it.
#[derive(Clone, Copy)]
pub struct Vertex {
    pub symbol: Symbol,
    pub state: usize,
}

/// A product. Its vertices and edges are numbered from 0. Without a vertex no walk is allowed.
#[derive(Drop)]
pub struct Product {
    pub(crate) vertices: Items<Vertex>,
    pub(crate) edges: Items<(usize, usize)>,
    pub(crate) starts: Items<usize>,
    pub(crate) end: Option<usize>,
    ghost inside: { AreEdgesInside (length vertices) edges end } by { Prim.hlevel props },
}

impl Product {
    /// The vertices: first those where walks start, by location, then those between the hosts, by
    /// location, function (none first) and state, and last the end.
    pub fn vertices(&self) -> &[Vertex]
        ensures { result.now ≡ self.now.vertices }
    {
        self.vertices.as_slice()
    }

    /// The edges, each from one vertex to another, in the order of the vertices.
    pub fn edges(&self) -> &[(usize, usize)]
        ensures edges { result.now ≡ self.now.edges }
        ensures inside { AreEdgesInside (length self.now.vertices) self.now.edges self.now.end }
    {
        self.edges.as_slice()
    }

    /// The vertices where walks start.
    pub fn starts(&self) -> &[usize]
        ensures { result.now ≡ self.now.starts }
    {
        self.starts.as_slice()
    }

    /// The vertex where walks end. None where no walk is allowed.
    pub fn end(&self) -> Option<usize>
        ensures { result ≡ self.now.end }
    {
        self.end
    }
}
