//! Locations out of JSON objects.
ghost use Rattle.std.specs.Prelude.{codes, IfOk, IfErr};
ghost use Rattle.serde_json.specs.View.{view};
ghost use Rattle.topology_shape.specs.Json.{HasElements};
ghost use Rattle.topology_shape.specs.Format.{IsLocationOf, HasKind};
ghost use Rattle.topology_shape.specs.Wrong.{IsFirstUnmet, kind_demands, IsWrongLocation, AreWrongLocations};
ghost use Rattle.topology_shape.specs.Faults.{FailsAs, FailsAsElement};

use crate::fault::{ElementFault, ShapeFault, wrong_element, wrong_part};
use crate::members::{ip_under, items_under, mac_under, name_under, text_under};
use merlin_base::name_from;
use merlin_model::network::{HostAddress, Location, LocationKind};
use serde_json::Value;
use std::alloc::Global;

// What stands there, or the first member that is wrong of it.
fn kind_of(value: &Value) -> Result<LocationKind, &'static str>
    ensures ok { IfOk result (HasKind (view value.now)) }
    ensures err { IfErr result (λ member. IsFirstUnmet (kind_demands (view value.now)) member.now) }
{
    match text_under(value, "kind").ok_or(".kind")? {
        "host" => {
            let eth = mac_under(value, "eth").ok_or(".eth")?;
            let ip = ip_under(value, "ip").ok_or(".ip")?;
            Ok(LocationKind::Host(HostAddress { eth, ip }))
        }
        "switch" => Ok(LocationKind::Switch),
        "middlebox" => Ok(LocationKind::Middlebox),
        _ => Err(".kind"),
    }
}

// The location that an object describes.
fn location_of(alloc: Global, value: &Value) -> Result<Location, ElementFault>
    ensures ok { IfOk result (IsLocationOf (view value.now)) }
    ensures err { IfErr result (FailsAsElement (IsWrongLocation (view value.now))) }
{
    if !value.is_object() {
        return Err(ElementFault::WrongMember(""));
    }
    let Some(name) = name_under(value) else {
        return Err(ElementFault::WrongMember(".name"));
    };
    let kind = match kind_of(value) {
        Ok(kind) => kind,
        Err(member) => return Err(ElementFault::WrongMember(member)),
    };
    let name = name_from(alloc, name)?;
    Ok(Location { name, kind })
}

/// The locations of the topology.
pub(crate) fn locations_in(alloc: Global, value: &Value) -> Result<Vec<Location>, ShapeFault>
    ensures ok { IfOk result (λ locations.
        HasElements IsLocationOf (codes "locations") (view value.now) locations.items) }
    ensures err { IfErr result (FailsAs (AreWrongLocations (view value.now))) }
{
    let Some(items) = items_under(value, "locations") else {
        return Err(wrong_part(alloc, "locations"));
    };
    let mut locations = Vec::new(alloc);
    for (place, item) in items.iter().enumerate() {
        match location_of(alloc, item) {
            Ok(location) => locations.push(location)?,
            Err(fault) => return Err(wrong_element(alloc, "locations", place, fault)),
        }
    }
    Ok(locations)
}
