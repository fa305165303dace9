//! What tables are made from.

use predicate_split::Cell;
use product_graph::Vertex;
use sqlite_items::Items;

/// What a tag stands for: a group, and the state and the function of a vertex.
#[derive(Clone, Copy, PartialEq, Eq, PartialOrd, Ord)]
pub struct TagKey {
    pub group: usize,
    pub state: usize,
    pub fun: Option<usize>,
}

/// A vertex, and the place of the vertex that follows it. None where the end follows.
#[derive(Clone, Copy)]
pub struct Step {
    pub vertex: Vertex,
    pub next: Option<usize>,
}

/// The vertices of the product of a group for one destination, also those at hosts where walks start,
/// but not the end. They follow each other in the sink tree for best effort, in its walk for a
/// guaranteed statement.
#[derive(Drop)]
pub struct Branch {
    pub dest: usize,
    pub steps: Items<Step>,
}

/// The branches of a group, by ascending destination, and the queue of a guaranteed statement.
#[derive(Drop)]
pub struct GroupBranches {
    pub queue: Option<u16>,
    pub branches: Items<Branch>,
}

/// A cell of a pair of hosts, by their locations, with the group of the statement that owns it.
#[derive(Clone, Copy)]
pub struct OwnedCell {
    pub source: usize,
    pub dest: usize,
    pub cell: Cell,
    pub group: usize,
}
