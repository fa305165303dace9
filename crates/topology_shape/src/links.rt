//! Links out of JSON objects.
ghost use Rattle.std.specs.Prelude.{◌≡◌, ℕ, codes, IfOk, IfErr, IfSome, IfNone};
ghost use Rattle.serde_json.specs.View.{view};
ghost use Rattle.topology_shape.specs.Json.{HasElements};
ghost use Rattle.topology_shape.specs.Format.{HasEnd, HasOtherEnd, HasPort, HasCapacity, HasBack, HasWeight, IsLinkOf, location_names};
ghost use Rattle.topology_shape.specs.Wrong.{IsWrongLink, AreWrongLinks};
ghost use Rattle.topology_shape.specs.Faults.{FailsAs};

use crate::fault::{ShapeFault, wrong_member, wrong_part};
use crate::limits::{MAX_LINK_WEIGHT, MAX_PORT};
use crate::members::{items_under, number_up_to, text_under};
use crate::named::NamedLocations;
use merlin_base::rate_value;
use merlin_model::network::Link;
use serde_json::Value;
use std::alloc::Global;

fn end_of(value: &Value, key: &str, named: &NamedLocations) -> Option<usize>
    ensures some { IfSome result (HasEnd (location_names named.now) key.now (view value.now)) }
    ensures none { IfNone result ((loc : ℕ) →
        ¬ HasEnd (location_names named.now) key.now (view value.now) loc) }
{
    named.find(text_under(value, key)?.as_bytes())
}

// The end `b`, which has another name than the end `a`.
fn other_end_of(value: &Value, named: &NamedLocations) -> Option<usize>
    ensures some { IfSome result (HasOtherEnd (location_names named.now) (view value.now)) }
    ensures none { IfNone result ((loc : ℕ) →
        ¬ HasOtherEnd (location_names named.now) (view value.now) loc) }
{
    let name = text_under(value, "b")?.as_bytes();
    match text_under(value, "a") {
        Some(other) if other.as_bytes() == name => None,
        _ => named.find(name),
    }
}

fn port_of(value: &Value, key: &str) -> Option<u16>
    ensures some { IfSome result (HasPort key.now (view value.now)) }
    ensures none { IfNone result ((port : ℕ) → ¬ HasPort key.now (view value.now) port) }
{
    match number_up_to(value, key, MAX_PORT)? {
        0 => None,
        port => Some(port as u16),
    }
}

// The rate under a key, at least 1 kbit/s.
fn capacity_under(value: &Value, key: &str) -> Option<u64>
    ensures some { IfSome result (HasCapacity key.now (view value.now)) }
    ensures none { IfNone result ((capacity : ℕ) →
        ¬ HasCapacity key.now (view value.now) capacity) }
{
    match rate_value(text_under(value, key)?.as_bytes())? {
        0 => None,
        capacity => Some(capacity),
    }
}

// What a link carries from `b` to `a`, which is its capacity where nothing is said of it.
fn back_of(value: &Value, capacity: u64) -> Option<u64>
    ensures some { IfSome result (HasBack (view value.now) capacity) }
    ensures none { IfNone result ((other back : ℕ) → ¬ HasBack (view value.now) other back) }
{
    match value.get("back") {
        Some(_) => capacity_under(value, "back"),
        None => Some(capacity),
    }
}

fn weight_of(value: &Value) -> Option<u32>
    ensures some { IfSome result (HasWeight (view value.now)) }
    ensures none { IfNone result ((weight : ℕ) → ¬ HasWeight (view value.now) weight) }
{
    if value.get("weight").is_none() {
        return Some(1);
    }
    match number_up_to(value, "weight", MAX_LINK_WEIGHT)? {
        0 => None,
        weight => Some(weight as u32),
    }
}

// The link that an object describes, or the first member that is wrong of it.
fn link_of(value: &Value, named: &NamedLocations) -> Result<Link, &'static str>
    ensures ok { IfOk result (IsLinkOf (location_names named.now) (view value.now)) }
    ensures err { IfErr result (λ member.
        IsWrongLink (location_names named.now) (view value.now) member.now) }
{
    if !value.is_object() {
        return Err("");
    }
    let a = end_of(value, "a", named).ok_or(".a")?;
    let aport = port_of(value, "aport").ok_or(".aport")?;
    let b = other_end_of(value, named).ok_or(".b")?;
    let bport = port_of(value, "bport").ok_or(".bport")?;
    let capacity = capacity_under(value, "capacity").ok_or(".capacity")?;
    let back = back_of(value, capacity).ok_or(".back")?;
    let weight = weight_of(value).ok_or(".weight")?;
    Ok(Link {
        a,
        aport,
        b,
        bport,
        capacity,
        back,
        weight,
    })
}

/// The links of the topology.
pub(crate) fn links_in(
    alloc: Global,
    value: &Value,
    named: &NamedLocations,
) -> Result<Vec<Link>, ShapeFault>
    ensures ok { IfOk result (λ links. HasElements (IsLinkOf (location_names named.now))
        (codes "links") (view value.now) links.items) }
    ensures err { IfErr result (FailsAs
        (AreWrongLinks (location_names named.now) (view value.now))) }
{
    let Some(items) = items_under(value, "links") else {
        return Err(wrong_part(alloc, "links"));
    };
    let mut links = Vec::new(alloc);
    for (place, item) in items.iter().enumerate() {
        match link_of(item, named) {
            Ok(link) => links.push(link)?,
            Err(member) => return Err(wrong_member(alloc, "links", place, member)),
        }
    }
    Ok(links)
}
