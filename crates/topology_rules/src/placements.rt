//! The places of packet functions.
ghost use Rattle.std.specs.Prelude.{◌≡◌, ◌↔◌, IfOk, IfErr, OnOk, IfSome, IfNone, IsTrue, All};
ghost use Rattle.std.specs.List.{AllByRecursion};
ghost use Rattle.topology_shape.specs.Described.{described_by};
ghost use Rattle.topology_rules.specs.Clashes.{IsFirstFailure};
ghost use Rattle.topology_rules.specs.Rules.{IsMiddleboxAmong, ArePlacesAmong, IsPlacedAmong, HasHosts, KeepsRules};
ghost use Rattle.topology_rules.specs.Faults.{Breaks};

use crate::fault::NetFault;
use crate::repeats::first_repeated;
use merlin_model::network::{FnDecl, Location, LocationKind};
use std::alloc::{AllocError, Global};
use topology_shape::Shape;

fn is_middlebox(locations: &[Location], loc: usize) -> bool
    ensures { IsTrue result ↔ IsMiddleboxAmong locations.now loc }
{
    match locations.get(loc) {
        Some(location) => matches!(location.kind, LocationKind::Middlebox),
        None => false,
    }
}

fn are_middleboxes(locations: &[Location], places: &[usize]) -> bool
    ensures { IsTrue result ↔ All (IsMiddleboxAmong locations.now) places.now }
{
    places.iter().all(|place| is_middlebox(locations, *place))
}

// Whether the places are middleboxes, none of them twice.
fn are_places(alloc: Global, locations: &[Location], places: &[usize]) -> Result<bool, AllocError>
    ensures { IfOk result (λ are. IsTrue are ↔ ArePlacesAmong locations.now places.now) }
{
    if !are_middleboxes(locations, places) {
        return Ok(false);
    }
    match first_repeated(alloc, places)? {
        Some(_) => Ok(false),
        None => Ok(true),
    }
}

// The first function that is not placed so.
fn misplaced(
    alloc: Global,
    locations: &[Location],
    functions: &[FnDecl],
) -> Result<Option<usize>, AllocError>
    ensures some { IfOk result (λ o. IfSome o
        (IsFirstFailure (IsPlacedAmong locations.now) functions.now)) }
    ensures none { IfOk result (λ o. IfNone o
        (AllByRecursion (IsPlacedAmong locations.now) functions.now)) }
{
    for (place, function) in functions.iter().enumerate() {
        if !are_places(alloc, locations, function.places.as_slice())? {
            return Ok(Some(place));
        }
    }
    Ok(None)
}

/// Asks that functions be placed at middleboxes, at each at most once.
pub(crate) fn ask_placements(alloc: Global, shape: &Shape) -> Result<(), NetFault>
    requires { HasHosts (described_by shape.now) }
    ensures ok { OnOk result (KeepsRules (described_by shape.now)) }
    ensures err { IfErr result (Breaks (described_by shape.now)) }
{
    match misplaced(alloc, shape.named.locations(), &shape.functions)? {
        Some(place) => Err(NetFault::Placement {
            name: shape.functions[place].name.copy(alloc)?,
        }),
        None => Ok(()),
    }
}
