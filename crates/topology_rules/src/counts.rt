//! How much of everything there is.
ghost use Rattle.std.specs.Prelude.{◌≡◌, ◌<◌, ◌≤◌, ◌+◌, min, IfOk, IfErr, OnOk, length};
ghost use Rattle.topology_shape.specs.Described.{described_by};
ghost use Rattle.topology_rules.specs.declared.limits.TheConstants.{MAX_PLACEMENTS};
ghost use Rattle.topology_rules.specs.Counts.{host_addresses, placements};
ghost use Rattle.topology_rules.specs.Rules.{IsSmall};
ghost use Rattle.topology_rules.specs.Faults.{Breaks, IsExcess};

use crate::fault::NetFault;
use crate::limits::{MAX_FUNCTIONS, MAX_HOSTS, MAX_LINKS, MAX_LOCATIONS, MAX_PLACEMENTS};
use merlin_base::name_from;
use merlin_model::network::{FnDecl, Location, LocationKind};
use std::alloc::Global;
use topology_shape::Shape;

// How many locations are hosts.
fn host_count(locations: &[Location]) -> usize
    ensures { result ≡ length (host_addresses locations.now) }
{
    let mut count = 0;
    for location in locations {
        if let LocationKind::Host(_) = location.kind {
            count += 1;
        }
    }
    count
}

// How many places functions have in all, counted to the limit plus one.
fn placement_count(functions: &[FnDecl]) -> usize
    ensures { result ≡ min (placements functions.now) (MAX_PLACEMENTS + 1) }
{
    let mut count = 0;
    for function in functions {
        let more = function.places.len();
        if more > MAX_PLACEMENTS - count {
            return MAX_PLACEMENTS + 1;
        }
        count += more;
    }
    count
}

// Asks that there be no more than the limit of something.
fn ask_count(alloc: Global, what: &str, count: usize, limit: usize) -> Result<(), NetFault>
    requires { limit < MAX_PLACEMENTS + 1 }
    ensures ok { OnOk result (count ≤ limit) }
    ensures err { IfErr result (IsExcess what.now count limit) }
{
    if count <= limit {
        return Ok(());
    }
    let what = name_from(alloc, what.as_bytes())?;
    Err(NetFault::TooLarge {
        what,
        count: limit as u64 + 1,
    })
}

/// Asks that the shape be within all limits.
pub(crate) fn ask_counts(alloc: Global, shape: &Shape) -> Result<(), NetFault>
    ensures ok { OnOk result (IsSmall (described_by shape.now)) }
    ensures err { IfErr result (Breaks (described_by shape.now)) }
{
    let locations = shape.named.locations();
    ask_count(alloc, "locations", locations.len(), MAX_LOCATIONS)?;
    ask_count(alloc, "hosts", host_count(locations), MAX_HOSTS)?;
    ask_count(alloc, "links", shape.links.len(), MAX_LINKS)?;
    ask_count(alloc, "functions", shape.functions.len(), MAX_FUNCTIONS)?;
    ask_count(
        alloc,
        "placements",
        placement_count(&shape.functions),
        MAX_PLACEMENTS,
    )
}
