//! How frames leave the locations of vertices.

ghost use Rattle.std.specs.Prelude.{ℕ, ◌≡◌, ◌<◌, ◌^◌, ◌==◌, ◌&&◌, ◌++◌, true, false};
ghost use Rattle.std.specs.Prelude.{[], ◌∷◌, List, Option, Some, length, map, find, slice_get};
ghost use Rattle.std.specs.Prelude.{IfOk, OnOk, IfSome, IfNone};
ghost use Rattle.merlin_model.specs.Networks.{Pairwise, from_a, from_b, directed_links};
ghost use Rattle.rules_model.specs.Products.{Vertex as PathVertex};
ghost use Rattle.rules_model.specs.Tables.{IsBelowKey, tag_key_of};
ghost use Rattle.product_graph.specs.Products.{vertex_of};
ghost use Rattle.rule_tables.specs.Branches.{key_of, vertex_at, next_step_at, LeadsOn};
ghost use Rattle.rule_tables.specs.Hops.{stands_at, functions_in, IsOnwardFrom, IsOnwardPlace, IsTagged, IsGoingOn};
ghost use Rattle.rule_tables.specs.Hops.{CanHop, IsHopMade};

use crate::branches::{Branch, Step, TagKey};
use crate::tags::tag_number;
use merlin_model::OutOfMemory;
use merlin_model::network::{DirectedLink, Link};
use product_graph::Vertex;
use sqlite_items::{Items, at};
use std::alloc::Global;
use topology::Topology;

/// The functions that run at a location, and the place of the vertex at the next one. None is the end.
#[derive(Drop)]
pub(crate) struct Onward {
    pub(crate) functions: Items<usize>,
    pub(crate) next: Option<usize>,
}

/// The functions that run at a location, the directed link that the frame takes then, and its tag from
/// then on.
#[derive(Drop)]
pub(crate) struct Hop {
    pub(crate) functions: Items<usize>,
    pub(crate) link: DirectedLink,
    pub(crate) tag: Option<u16>,
}

/// The step at a place of a branch.
pub(crate) fn step_of(branch: &Branch, place: usize) -> Option<Step>
    ensures { result ≡ slice_get branch.now.steps place }
{
    branch.steps.get(place).copied()
}

/// Whether the vertex at a place is at a location.
fn is_at(steps: &[Step], place: usize, loc: usize) -> bool
    ensures { result ≡ stands_at (vertex_at steps.now place) loc }
{
    match at(steps, place) {
        Some(step) => step.vertex.symbol.loc == loc,
        None => false,
    }
}

/// The place that follows a place, if its vertex is at the location.
fn next_here(steps: &[Step], place: usize, loc: usize) -> Option<usize>
    ensures some { IfSome result (λ n. (next_step_at steps.now place ≡ Some (Some n))
        × (stands_at (vertex_at steps.now n) loc ≡ true)) }
    ensures none { IfNone result ((n : ℕ) → next_step_at steps.now place ≡ Some (Some n) →
        stands_at (vertex_at steps.now n) loc ≡ false) }
{
    let step = at(steps, place)?;
    let next = step.next?;
    if is_at(steps, next, loc) {
        Some(next)
    } else {
        None
    }
}

/// The place that follows a place. None is the end.
fn next_of(steps: &[Step], place: usize) -> Option<usize>
    ensures { (next : Option ℕ) → next_step_at steps.now place ≡ Some next → result ≡ next }
{
    let step = at(steps, place)?;
    step.next
}

/// Adds the function of the vertex at a place, if it has one.
fn add_function(
    functions: &mut Items<usize>,
    steps: &[Step],
    place: usize,
) -> Result<(), OutOfMemory>
    ensures { OnOk result
        (functions.new ≡ functions.old ++ functions_in (vertex_at steps.now place)) }
{
    if let Some(step) = at(steps, place) {
        if let Some(fun) = step.vertex.symbol.fun {
            functions.push(fun)?;
        }
    }
    Ok(())
}

/// What runs at a location from the vertex at a place on, up to the first vertex at another location.
fn onward_from(
    alloc: Global,
    steps: &[Step],
    start: usize,
    loc: usize,
) -> Result<Onward, OutOfMemory>
    ensures { (v : PathVertex) (us : List PathVertex) → vertex_at steps.now start ≡ Some v →
        LeadsOn steps.now start us → v.symbol.loc ≡ loc →
        IfOk result (IsOnwardFrom steps.now v us) }
{
    let mut functions = Items::new(alloc);
    let mut place = start;
    for _step in 0..steps.len() {
        add_function(&mut functions, steps, place)?;
        let Some(next) = next_here(steps, place, loc) else {
            break;
        };
        place = next;
    }
    Ok(Onward {
        functions,
        next: next_of(steps, place),
    })
}

/// A link as it is taken from one location to another, if it joins them.
fn directed_between(link: &Link, from: usize, to: usize) -> Option<DirectedLink>
    ensures { result ≡ find (λ w. (w.from == from) && (w.to == to))
        (from_a link.now ∷ from_b link.now ∷ []) }
{
    if link.a == from && link.b == to {
        Some(DirectedLink {
            from: link.a,
            out_port: link.aport,
            to: link.b,
            in_port: link.bport,
            capacity: link.capacity,
            back: link.back,
            weight: link.weight,
        })
    } else if link.b == from && link.a == to {
        Some(DirectedLink {
            from: link.b,
            out_port: link.bport,
            to: link.a,
            in_port: link.aport,
            capacity: link.back,
            back: link.capacity,
            weight: link.weight,
        })
    } else {
        None
    }
}

/// The directed link from one location to another.
fn link_between(net: &Topology, from: usize, to: usize) -> Option<DirectedLink>
    ensures { result ≡ find (λ w. (w.from == from) && (w.to == to)) (directed_links net.now) }
{
    for link in net.links() {
        if let Some(directed) = directed_between(link, from, to) {
            return Some(directed);
        }
    }
    None
}

/// What a tag of a vertex stands for.
pub(crate) fn key_at(group: usize, vertex: &Vertex) -> TagKey
    ensures { key_of result ≡ tag_key_of group (vertex_of vertex.now) }
{
    TagKey {
        group,
        state: vertex.state,
        fun: vertex.symbol.fun,
    }
}

/// The location where a frame goes on, and its tag there: those of the vertex at a place, or the
/// destination, untagged. None where the vertex has no tag.
fn going_on(
    tags: &[TagKey],
    group: usize,
    branch: &Branch,
    next: Option<usize>,
) -> Option<(usize, Option<u16>)>
    requires { length tags.now < 2 ^ 16 }
    ensures { (o : Option (PathVertex × List PathVertex)) →
        Pairwise IsBelowKey (map key_of tags.now) → IsOnwardPlace branch.now.steps o next →
        IsTagged (map key_of tags.now) group o →
        IsGoingOn (map key_of tags.now) group branch.now.dest o result }
{
    let Some(place) = next else {
        return Some((branch.dest, None));
    };
    let step = branch.steps.get(place)?;
    let tag = tag_number(tags, &key_at(group, &step.vertex))?;
    Some((step.vertex.symbol.loc, Some(tag)))
}

/// How a frame leaves the location of the vertex at a place. None where the places that follow don't
/// lead to the end, a vertex there has no tag, or no link leads on.
pub(crate) fn hop_from(
    alloc: Global,
    net: &Topology,
    tags: &[TagKey],
    group: usize,
    branch: &Branch,
    place: usize,
) -> Result<Option<Hop>, OutOfMemory>
    requires { length tags.now < 2 ^ 16 }
    ensures { (v : PathVertex) (us : List PathVertex) →
        vertex_at branch.now.steps place ≡ Some v → LeadsOn branch.now.steps place us →
        Pairwise IsBelowKey (map key_of tags.now) →
        CanHop net.now (map key_of tags.now) group branch.now.dest v us →
        IfOk result (IsHopMade net.now (map key_of tags.now) group branch.now.dest v us) }
{
    let Some(step) = step_of(branch, place) else {
        return Ok(None);
    };
    let loc = step.vertex.symbol.loc;
    let Onward { functions, next } = onward_from(alloc, branch.steps.as_slice(), place, loc)?;
    let Some((to, tag)) = going_on(tags, group, branch, next) else {
        return Ok(None);
    };
    match link_between(net, loc, to) {
        Some(link) => Ok(Some(Hop {
            functions,
            link,
            tag,
        })),
        None => Ok(None),
    }
}
