//! Locations, and which number a name has among them.
ghost use Rattle.std.specs.Prelude.{◌≡◌, ℕ, Some, IfOk, IfSome, IfNone, slice_get};
ghost use Rattle.topology_shape.specs.Format.{location_names};
ghost use Rattle.topology_shape.specs.Numbering.{IsNumbering};

use indexmap::IndexMap;
use merlin_model::network::Location;
use std::alloc::{AllocError, Global};
use std::marker::Model;

/// Locations, seen as their list, with a table of their numbers by name.
#[derive(Drop)]
pub struct NamedLocations {
    locations: Vec<Location>,
    // of locations that share a name the number of one
    numbers: IndexMap<Vec<u8>, usize>,
}

impl Model for NamedLocations {
    ghost use Rattle.std.specs.Prelude.{List};
    ghost use Rattle.merlin_model.specs.declared.network.Location.{Location};

    ghost Value = { List Location };

    ghost use Rattle.topology_shape.specs.Kept.{locations_kept, AreNumbered};

    ghost view = { locations_kept };

    ghost invariant = { AreNumbered };
}

// The numbers of the locations by name, each of the last that bears it.
fn numbers_of(alloc: Global, locations: &[Location]) -> Result<IndexMap<Vec<u8>, usize>, AllocError>
    ensures { IfOk result (λ numbers.
        IsNumbering numbers.entries (location_names locations.now)) }
{
    let mut numbers = IndexMap::new(alloc);
    for (number, location) in locations.iter().enumerate() {
        let name = Vec::from_slice(alloc, location.name.bytes())?;
        numbers.insert(name, number)?;
    }
    Ok(numbers)
}

impl NamedLocations {
    /// These locations.
    pub(crate) fn new(alloc: Global, locations: Vec<Location>) -> Result<Self, AllocError>
        ensures { IfOk result (λ named. named ≡ locations.items) }
    {
        let numbers = numbers_of(alloc, &locations)?;
        Ok(NamedLocations { locations, numbers })
    }

    /// The locations, in order.
    pub fn locations(&self) -> &[Location]
        ensures { result.now ≡ self.now }
    {
        &self.locations
    }

    /// The number of a location of this name. None where no location has it.
    pub fn find(&self, name: &[u8]) -> Option<usize>
        ensures some { IfSome result (λ loc.
            slice_get (location_names self.now) loc ≡ Some name.now) }
        ensures none { IfNone result ((loc : ℕ) →
            ¬ (slice_get (location_names self.now) loc ≡ Some name.now)) }
    {
        self.numbers.get(name).copied()
    }
}
