//! The vertices of a product that tables have entries for, and how many entries they make: one each, and one more for each
//! vertex with a function at the same location.

ghost use Rattle.std.specs.Prelude.{◌≡◌, ◌<◌, ◌+◌, ◌^◌, ◌++◌, ◌∷◌, [], length, map, filter};
ghost use Rattle.std.specs.Prelude.{is_some, slice_set, IfOk, OnOk, MatchOption, if◌then◌else◌};
ghost use Rattle.std.specs.List.{slice_index_or};
ghost use Rattle.product_graph.specs.Products.{vertex_of};
ghost use Rattle.openflow_rules.specs.Planning.{entries_in};
ghost use Rattle.openflow_rules.specs.Gathered.{is_inner, AreVerticesWithin, CountsFunctions, IsRoomAfter};

use merlin_model::OutOfMemory;
use product_graph::Vertex;
use sqlite_items::Items;
use std::alloc::Global;
use topology::Topology;

/// Adds the vertex, if it is at no host.
fn add_if_inner(
    net: &Topology,
    vertex: Vertex,
    inner: &mut Items<Vertex>,
) -> Result<(), OutOfMemory>
    requires { vertex.symbol.loc < length net.now.locations }
    ensures { OnOk result (inner.new ≡ inner.old ++ filter (is_inner net.now) (vertex ∷ [])) }
{
    if net.host(vertex.symbol.loc).is_none() {
        inner.push(vertex)?;
    }
    Ok(())
}

/// The vertices that are at no host.
pub fn inner_vertices(
    alloc: Global,
    net: &Topology,
    vertices: &[Vertex],
) -> Result<Items<Vertex>, OutOfMemory>
    requires { AreVerticesWithin (length net.now.locations) vertices.now }
    ensures { IfOk result (λ inner. inner ≡ filter (is_inner net.now) vertices.now) }
{
    let mut inner = Items::new(alloc);
    for vertex in vertices {
        add_if_inner(net, *vertex, &mut inner)?;
    }
    Ok(inner)
}

/// Counts the vertex at its location, if it has a function.
fn count_function(counts: &mut Items<usize>, vertex: Vertex)
    requires within { vertex.symbol.loc < length counts.old }
    requires small { slice_index_or counts.old vertex.symbol.loc 0 + 1 < 2 ^ 64 }
    ensures { counts.new ≡ (if is_some vertex.symbol.fun
        then slice_set counts.old vertex.symbol.loc
        (slice_index_or counts.old vertex.symbol.loc 0 + 1)
        else counts.old) }
{
    if vertex.symbol.fun.is_some() {
        let count = counts.as_slice()[vertex.symbol.loc];
        counts.set(vertex.symbol.loc, count + 1);
    }
}

/// For each of the locations how many vertices with a function are there.
fn functions_by_location(
    alloc: Global,
    locations: usize,
    vertices: &[Vertex],
) -> Result<Items<usize>, OutOfMemory>
    requires { AreVerticesWithin locations vertices.now }
    ensures { IfOk result (CountsFunctions vertices.now locations) }
{
    let mut counts = Items::from_vec(vec![in alloc; 0; locations]?);
    for vertex in vertices {
        count_function(&mut counts, *vertex);
    }
    Ok(counts)
}

/// What is left of the room after the entries of these vertices. None where there is no room for them.
fn entries_left(counts: &[usize], vertices: &[Vertex], room: u64) -> Option<u64>
    requires at { AreVerticesWithin (length counts.now) vertices.now }
    requires counts { CountsFunctions vertices.now (length counts.now) counts.now }
    ensures { MatchOption result (room < entries_in (map vertex_of vertices.now))
        (λ left. left + entries_in (map vertex_of vertices.now) ≡ room) }
{
    let mut left = room;
    for vertex in vertices {
        let functions = counts[vertex.symbol.loc] as u64;
        if functions >= left {
            return None;
        }
        left -= functions + 1;
    }
    Some(left)
}

/// What is left of the room after the entries of these vertices. None where there is no room for them,
/// or was none before.
pub fn room_after(
    alloc: Global,
    locations: usize,
    vertices: &[Vertex],
    room: Option<u64>,
) -> Result<Option<u64>, OutOfMemory>
    requires { AreVerticesWithin locations vertices.now }
    ensures { IfOk result (IsRoomAfter room (entries_in (map vertex_of vertices.now))) }
{
    let Some(room) = room else {
        return Ok(None);
    };
    let counts = functions_by_location(alloc, locations, vertices)?;
    Ok(entries_left(counts.as_slice(), vertices, room))
}
