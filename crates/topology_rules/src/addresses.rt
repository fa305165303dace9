//! Hosts that share an address.
ghost use Rattle.std.specs.Prelude.{◌≡◌, IfOk, IfErr, IfSome, IfNone, OnOk};
ghost use Rattle.topology_shape.specs.Described.{described_by};
ghost use Rattle.topology_rules.specs.Clashes.{IsFirstClash, HasNoClash};
ghost use Rattle.topology_rules.specs.Rules.{ShareAddress, HasNames, HasAddresses};
ghost use Rattle.topology_rules.specs.Faults.{Breaks};

use crate::fault::NetFault;
use crate::names::name_at;
use indexmap::IndexSet;
use merlin_model::network::{Location, LocationKind};
use std::alloc::{AllocError, Global};
use topology_shape::Shape;

// The first host that shares an address with an earlier one.
fn sharing_host(alloc: Global, locations: &[Location]) -> Result<Option<usize>, AllocError>
    ensures some { IfOk result (λ o. IfSome o (IsFirstClash ShareAddress locations.now)) }
    ensures none { IfOk result (λ o. IfNone o (HasNoClash ShareAddress locations.now)) }
{
    let mut eths = IndexSet::new(alloc);
    let mut ips = IndexSet::new(alloc);
    for (loc, location) in locations.iter().enumerate() {
        if let LocationKind::Host(address) = location.kind {
            if !eths.insert(address.eth)? {
                return Ok(Some(loc));
            }
            if !ips.insert(address.ip)? {
                return Ok(Some(loc));
            }
        }
    }
    Ok(None)
}

/// Asks that hosts differ in both addresses.
pub(crate) fn ask_addresses(alloc: Global, shape: &Shape) -> Result<(), NetFault>
    requires { HasNames (described_by shape.now) }
    ensures ok { OnOk result (HasAddresses (described_by shape.now)) }
    ensures err { IfErr result (Breaks (described_by shape.now)) }
{
    let locations = shape.named.locations();
    match sharing_host(alloc, locations)? {
        Some(loc) => Err(NetFault::DuplicateAddress {
            name: name_at(alloc, locations, loc)?,
        }),
        None => Ok(()),
    }
}
