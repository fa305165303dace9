//! Names that are borne twice.
ghost use Rattle.std.specs.Prelude.{◌≡◌, ◌<◌, ◌++◌, ℕ, Some, length, map, slice_get, IfOk, IfErr, IfSome, IfNone, OnOk};
ghost use Rattle.merlin_model.specs.Networks.{names_of};
ghost use Rattle.topology_shape.specs.Format.{location_names};
ghost use Rattle.topology_shape.specs.Described.{described_by};
ghost use Rattle.topology_rules.specs.Clashes.{IsFirstClash, HasNoClash};
ghost use Rattle.topology_rules.specs.Rules.{AreOne, IsSmall, HasNames};
ghost use Rattle.topology_rules.specs.Faults.{Breaks};

use crate::fault::NetFault;
use crate::repeats::first_repeated;
use merlin_base::{Name, OutOfMemory, name_from};
use merlin_model::network::{FnDecl, Location};
use std::alloc::{AllocError, Global};
use topology_shape::Shape;

/// A copy of the name of a location.
pub(crate) fn name_at(
    alloc: Global,
    locations: &[Location],
    loc: usize,
) -> Result<Name, OutOfMemory>
    requires { loc < length locations.now }
    ensures { IfOk result (λ name. slice_get (location_names locations.now) loc ≡ Some name) }
{
    locations[loc].name.copy(alloc)
}

// The names of the locations, then those of the functions.
fn names_in<'a>(
    alloc: Global,
    locations: &'a [Location],
    functions: &'a [FnDecl],
) -> Result<Vec<&'a [u8]>, AllocError>
    ensures { IfOk result (λ names. map (λ n. n.now) names.items
        ≡ map (λ l. l.name) locations.now ++ map (λ f. f.name) functions.now) }
{
    let mut names = Vec::new(alloc);
    for location in locations {
        names.push(location.name.bytes())?;
    }
    for function in functions {
        names.push(function.name.bytes())?;
    }
    Ok(names)
}

// The place of the first name that stands before it too.
fn repeated_name(alloc: Global, names: &[&[u8]]) -> Result<Option<usize>, AllocError>
    ensures some { IfOk result (λ o. IfSome o (IsFirstClash AreOne (map (λ n. n.now) names.now))) }
    ensures none { IfOk result (λ o. IfNone o (HasNoClash AreOne (map (λ n. n.now) names.now))) }
{
    first_repeated(alloc, names)
}

/// Asks that no two locations or functions have one name.
pub(crate) fn ask_names(alloc: Global, shape: &Shape) -> Result<(), NetFault>
    requires { IsSmall (described_by shape.now) }
    ensures ok { OnOk result (HasNames (described_by shape.now)) }
    ensures err { IfErr result (Breaks (described_by shape.now)) }
{
    let names = names_in(alloc, shape.named.locations(), &shape.functions)?;
    match repeated_name(alloc, &names)? {
        Some(place) => Err(NetFault::DuplicateName {
            name: name_from(alloc, names[place])?,
        }),
        None => Ok(()),
    }
}
