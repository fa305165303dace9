//! Lists by vertex in which nothing is known yet.

ghost use Rattle.std.specs.Prelude.{◌≡◌, None, false, replicate, IfOk};

use merlin_model::OutOfMemory;
use sqlite_items::Items;
use std::alloc::Global;

/// No cost for any vertex.
pub fn no_costs(alloc: Global, vertices: usize) -> Result<Items<Option<u128>>, OutOfMemory>
    ensures { IfOk result (λ list. list ≡ replicate vertices None) }
{
    Ok(Items::from_vec(vec![in alloc; None; vertices]?))
}

/// No edge for any vertex.
pub fn no_edges(alloc: Global, vertices: usize) -> Result<Items<Option<usize>>, OutOfMemory>
    ensures { IfOk result (λ list. list ≡ replicate vertices None) }
{
    Ok(Items::from_vec(vec![in alloc; None; vertices]?))
}

/// No vertex is marked.
pub fn no_marks(alloc: Global, vertices: usize) -> Result<Items<bool>, OutOfMemory>
    ensures { IfOk result (λ list. list ≡ replicate vertices false) }
{
    Ok(Items::from_vec(vec![in alloc; false; vertices]?))
}
