//! From the bytes to the demands.
ghost use Rattle.std.specs.Prelude.{◌≡◌, ◌+◌, ◌<◌, ◌^◌, ℕ, List, Option, None, Some, map, IfOk, IfErr};
ghost use Rattle.serde_json.specs.View.{view};
ghost use Rattle.topology_shape.specs.Json.{IsJson};
ghost use Rattle.fair_share.specs.Reading.{names_written, names_before, IsPlaceOfCap, IsKnown, AreCapsOf, AreTenantsOf, AreFew, AreDemandsOf, IsDemandsText, IsFirstUnknown, AreRefused, RefusesDemands};
ghost use Rattle.fair_share.specs.Failing.{AreLawful, FailsAsUnknown, FailsAsTooLarge};

use crate::cap::{Cap, Tenant};
use crate::demands::Demands;
use crate::entry::{NamedRate, NamedRates, entries_of};
use crate::fault::DemandFault;
use crate::limits::{MAX_CAPS, MAX_TENANTS};
use crate::names::{ask_names, cap_named};
use merlin_base::{Name, OutOfMemory, name_from};
use serde_json::Value;
use std::alloc::Global;
use std::str;

fn value_of(alloc: Global, bytes: &[u8]) -> Result<Value, DemandFault>
    ensures ok { IfOk result (λ v. IsJson bytes.now (view v)) }
    ensures err { IfErr result (RefusesDemands bytes.now) }
{
    let Ok(text) = str::from_utf8(bytes) else {
        return Err(DemandFault::Json);
    };
    match Value::from_str(alloc, text) {
        Ok(value) => Ok(value),
        Err(fault) if fault.is_memory() => Err(DemandFault::OutOfMemory),
        Err(_) => Err(DemandFault::Json),
    }
}

// The fault of too many.
fn excess(alloc: Global, what: &str, limit: usize) -> DemandFault
    requires { limit < 2 ^ 32 }
    ensures { FailsAsTooLarge what.now (limit + 1) result }
{
    match name_from(alloc, what.as_bytes()) {
        Ok(what) => DemandFault::TooLarge {
            what,
            count: limit as u64 + 1,
        },
        Err(OutOfMemory) => DemandFault::OutOfMemory,
    }
}

// Fails where there are too many caps or tenants.
fn ask_counts(alloc: Global, entries: &NamedRates) -> Result<(), DemandFault>
    ensures ok { IfOk result (λ _. AreFew entries.now) }
    ensures err { IfErr result (AreRefused entries.now) }
{
    if entries.caps.len() > MAX_CAPS {
        return Err(excess(alloc, "caps", MAX_CAPS));
    }
    if entries.tenants.len() > MAX_TENANTS {
        return Err(excess(alloc, "tenants", MAX_TENANTS));
    }
    Ok(())
}

// The place of the cap that something is under, by its name.
fn place_of(alloc: Global, caps: &[Cap], under: &Option<Name>) -> Result<Option<usize>, DemandFault>
    ensures ok { IfOk result (IsPlaceOfCap (map (λ cap. cap.name) caps.now) under.now) }
    ensures err { IfErr result (FailsAsUnknown (λ name. (under.now ≡ Some name)
        × ((place : Option ℕ) → ¬ IsPlaceOfCap (map (λ cap. cap.name) caps.now) under.now place))) }
{
    let Some(name) = under else {
        return Ok(None);
    };
    match cap_named(caps, name.bytes()) {
        Some(place) => Ok(Some(place)),
        None => {
            let name = name.copy(alloc)?;
            Err(DemandFault::UnknownCap { name })
        }
    }
}

// The caps, each under one of those before it.
fn caps_of(alloc: Global, entries: &[NamedRate]) -> Result<Vec<Cap>, DemandFault>
    ensures ok { IfOk result (λ caps. AreCapsOf entries.now caps.items) }
    ensures err { IfErr result (FailsAsUnknown (IsFirstUnknown
        (names_before entries.now) entries.now)) }
{
    let mut caps = Vec::with_capacity(alloc, entries.len())?;
    for place in 0..entries.len() {
        let entry = &entries[place];
        let under = place_of(alloc, &caps, &entry.under)?;
        let name = entry.name.copy(alloc)?;
        let rate = entry.rate;
        caps.push(Cap { name, rate, under })?;
    }
    Ok(caps)
}

// The tenants, each under one of the caps.
fn tenants_of(
    alloc: Global,
    caps: &[Cap],
    entries: &[NamedRate],
) -> Result<Vec<Tenant>, DemandFault>
    ensures ok { IfOk result (λ tenants.
        AreTenantsOf (map (λ cap. cap.name) caps.now) entries.now tenants.items) }
    ensures err { IfErr result (FailsAsUnknown
        (IsFirstUnknown (λ _. map (λ cap. cap.name) caps.now) entries.now)) }
{
    let mut tenants = Vec::with_capacity(alloc, entries.len())?;
    for place in 0..entries.len() {
        let entry = &entries[place];
        let under = place_of(alloc, caps, &entry.under)?;
        let name = entry.name.copy(alloc)?;
        let demand = entry.rate;
        tenants.push(Tenant {
            name,
            demand,
            under,
        })?;
    }
    Ok(tenants)
}

// The demands that entries are.
fn numbered(alloc: Global, entries: &NamedRates) -> Result<Demands, DemandFault>
    requires { AreLawful entries.now }
    ensures ok { IfOk result (AreDemandsOf entries.now) }
    ensures err { IfErr result (AreRefused entries.now) }
{
    ask_counts(alloc, entries)?;
    ask_names(alloc, entries)?;
    let caps = caps_of(alloc, &entries.caps)?;
    let tenants = tenants_of(alloc, &caps, &entries.tenants)?;
    Ok(Demands { caps, tenants })
}

/// The demands that the JSON text stands for.
///
/// # Errors
/// The first rule that is broken, in the order of the variants of `DemandFault`; `OutOfMemory` where memory ran out.
pub fn read(alloc: Global, bytes: &[u8]) -> Result<Demands, DemandFault>
    ensures ok { IfOk result (IsDemandsText bytes.now) }
    ensures err { IfErr result (RefusesDemands bytes.now) }
{
    let value = value_of(alloc, bytes)?;
    let entries = entries_of(alloc, &value)?;
    numbered(alloc, &entries)
}
