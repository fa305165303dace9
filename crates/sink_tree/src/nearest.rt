//! Of each vertex the next one from which the fewest edges are left.

ghost use Rattle.std.specs.Prelude.{◌≡◌, ◌<◌, ◌↔◌, length, replicate, None, MatchOption, ⊤};
ghost use Rattle.std.specs.Prelude.{IfOk, IsTrue};
ghost use Rattle.std.specs.List.{slice_index_or};
ghost use Rattle.sink_tree.specs.Nearest.{steps_at, IsNearer, IsChosen, AreAmong, AreNearest};

use merlin_model::OutOfMemory;
use sqlite_items::Items;
use std::alloc::Global;

/// How many edges are left from a vertex.
fn steps(distance: &[Option<u128>], vertex: usize) -> u128
    requires { vertex < length distance.now }
    ensures { result ≡ steps_at distance.now vertex }
{
    distance[vertex].unwrap_or(0)
}

/// Whether nothing is known yet, or fewer edges are left from the vertex than from what is known, or
/// as many, and it comes earlier.
fn is_better(distance: &[Option<u128>], known: Option<usize>, vertex: usize) -> bool
    requires vertex { vertex < length distance.now }
    requires known { MatchOption known ⊤ (λ other. other < length distance.now) }
    ensures { IsTrue result ↔ IsNearer distance.now known vertex }
{
    match known {
        None => true,
        Some(other) => {
            let here = steps(distance, vertex);
            let there = steps(distance, other);
            here < there || here == there && vertex < other
        }
    }
}

/// Takes the end of an edge as the vertex that comes next, where it is better than what is known.
fn choose(next: &mut Items<Option<usize>>, distance: &[Option<u128>], from: usize, to: usize)
    requires from { from < length next.old }
    requires to { to < length distance.now }
    requires known { MatchOption (slice_index_or next.old from None) ⊤
        (λ other. other < length distance.now) }
    ensures { IsChosen distance.now from to next.old next.new }
{
    if is_better(distance, next.as_slice()[from], to) {
        next.set(from, Some(to));
    }
}

/// No vertex comes next.
fn nothing_next(alloc: Global, vertices: usize) -> Result<Items<Option<usize>>, OutOfMemory>
    ensures { IfOk result (λ next. next ≡ replicate vertices None) }
{
    Ok(Items::from_vec(vec![in alloc; None; vertices]?))
}

/// For each vertex the next one from which the fewest edges are left, the first among equals. None
/// where no edge leaves it.
pub fn nearest(
    alloc: Global,
    edges: &[(usize, usize)],
    distance: &[Option<u128>],
) -> Result<Items<Option<usize>>, OutOfMemory>
    requires { AreAmong (length distance.now) edges.now }
    ensures { IfOk result (AreNearest distance.now edges.now) }
{
    let mut next = nothing_next(alloc, distance.len())?;
    for edge in edges {
        choose(&mut next, distance, edge.0, edge.1);
    }
    Ok(next)
}
