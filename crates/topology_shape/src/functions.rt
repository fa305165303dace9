//! Packet functions out of JSON objects.
ghost use Rattle.std.specs.Prelude.{◌≡◌, ℕ, List, codes, IfOk, IfErr, IfSome, IfNone};
ghost use Rattle.serde_json.specs.View.{view};
ghost use Rattle.topology_shape.specs.Json.{HasElements};
ghost use Rattle.topology_shape.specs.Format.{IsPlaceOf, IsFunctionOf, HasFunctions, location_names};
ghost use Rattle.topology_shape.specs.Wrong.{IsWrongFunction, AreWrongFunctions};
ghost use Rattle.topology_shape.specs.Faults.{FailsAs, FailsAsElement};

use crate::fault::{ElementFault, ShapeFault, wrong_element, wrong_part};
use crate::members::{items_under, name_under};
use crate::named::NamedLocations;
use crate::settings::set_of;
use merlin_base::name_from;
use merlin_model::network::FnDecl;
use serde_json::Value;
use sqlite_items::Items;
use std::alloc::{AllocError, Global};

fn place_of(value: &Value, named: &NamedLocations) -> Option<usize>
    ensures some { IfSome result (IsPlaceOf (location_names named.now) (view value.now)) }
    ensures none { IfNone result ((loc : ℕ) →
        ¬ IsPlaceOf (location_names named.now) (view value.now) loc) }
{
    let name = value.as_str()?.as_bytes();
    Some(named.find(name).unwrap_or(named.locations().len()))
}

// The places of a function. None where they are missing or wrong.
fn places_of(
    alloc: Global,
    value: &Value,
    named: &NamedLocations,
) -> Result<Option<Items<usize>>, AllocError>
    ensures some { IfOk result (λ o. IfSome o (λ places.
        HasElements (IsPlaceOf (location_names named.now)) (codes "places") (view value.now)
        places)) }
    ensures none { IfOk result (λ o. IfNone o ((places : List ℕ) →
        ¬ HasElements (IsPlaceOf (location_names named.now)) (codes "places") (view value.now)
        places)) }
{
    let Some(items) = items_under(value, "places") else {
        return Ok(None);
    };
    let mut places = Vec::new(alloc);
    for item in items {
        let Some(place) = place_of(item, named) else {
            return Ok(None);
        };
        places.push(place)?;
    }
    Ok(Some(Items::from_vec(places)))
}

// The function that an object declares.
fn function_of(alloc: Global, value: &Value, named: &NamedLocations) -> Result<FnDecl, ElementFault>
    ensures ok { IfOk result (IsFunctionOf (location_names named.now) (view value.now)) }
    ensures err { IfErr result (FailsAsElement
        (IsWrongFunction (location_names named.now) (view value.now))) }
{
    if !value.is_object() {
        return Err(ElementFault::WrongMember(""));
    }
    let Some(name) = name_under(value) else {
        return Err(ElementFault::WrongMember(".name"));
    };
    let Some(places) = places_of(alloc, value, named)? else {
        return Err(ElementFault::WrongMember(".places"));
    };
    let Some(set) = set_of(alloc, value)? else {
        return Err(ElementFault::WrongMember(".set"));
    };
    let name = name_from(alloc, name)?;
    Ok(FnDecl { name, places, set })
}

/// The packet functions of the topology, none where nothing is said of them.
pub(crate) fn functions_in(
    alloc: Global,
    value: &Value,
    named: &NamedLocations,
) -> Result<Vec<FnDecl>, ShapeFault>
    ensures ok { IfOk result (λ functions.
        HasFunctions (location_names named.now) (view value.now) functions.items) }
    ensures err { IfErr result (FailsAs
        (AreWrongFunctions (location_names named.now) (view value.now))) }
{
    let mut functions = Vec::new(alloc);
    if value.get("functions").is_none() {
        return Ok(functions);
    }
    let Some(items) = items_under(value, "functions") else {
        return Err(wrong_part(alloc, "functions"));
    };
    for (place, item) in items.iter().enumerate() {
        match function_of(alloc, item, named) {
            Ok(function) => functions.push(function)?,
            Err(fault) => return Err(wrong_element(alloc, "functions", place, fault)),
        }
    }
    Ok(functions)
}
