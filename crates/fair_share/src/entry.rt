//! Caps and tenants out of JSON objects, by name.
ghost use Rattle.std.specs.Prelude.{◌≡◌, ◌≢◌, ℕ, List, Option, map, IfOk, IfErr, IfSome, IfNone, MatchOption, codes};
ghost use Rattle.std.specs.String.{string_bytes};
ghost use Rattle.serde_json.specs.Data.{Data};
ghost use Rattle.serde_json.specs.View.{view};
ghost use Rattle.fair_share.specs.declared.entry.PartFault.TheVariants as part;
ghost use Rattle.topology_shape.specs.Json.{HasText, HasItems};
ghost use Rattle.topology_shape.specs.Format.{HasName};
ghost use Rattle.fair_share.specs.Format.{HasRate, HasUnder, IsEntryOf, HasEntries, AreEntriesOf};
ghost use Rattle.fair_share.specs.Shape.{IsWrongPart, IsWrongEntryArray, AreMisshapenDemands, entry_words};
ghost use Rattle.fair_share.specs.Failing.{FailsAsShape, FailsAsPart};

use crate::fault::DemandFault;
use merlin_base::{Name, OutOfMemory, is_name, name_from, rate_value};
use serde_json::Value;
use std::alloc::Global;

/// A cap or a tenant as it is written: its name, its rate in kbit/s, and the name that it is under, if any.
#[derive(Drop)]
pub struct NamedRate {
    pub name: Name,
    pub rate: u64,
    pub under: Option<Name>,
}

/// Caps and tenants as they are written.
#[derive(Drop)]
pub struct NamedRates {
    pub caps: Vec<NamedRate>,
    pub tenants: Vec<NamedRate>,
}

/// A part of an element: the element as an object, or one of its members.
#[derive(Clone, Copy)]
pub enum ElementPart {
    Itself,
    Name,
    Rate,
    Under,
}

// Why an element is no entry.
#[derive(Clone, Copy)]
enum PartFault {
    Wrong(ElementPart),
    OutOfMemory,
}

impl From<OutOfMemory> for PartFault {
    ghost from_gives = { λ _ gives. gives ≡ part.OutOfMemory };

    fn from(_: OutOfMemory) -> Self {
        PartFault::OutOfMemory
    }
}

// The text under a name.
fn text_under<'v>(value: &'v Value, key: &str) -> Option<&'v str>
    ensures some { IfSome result (λ text. HasText key.now (view value.now) text.now) }
    ensures none { IfNone result ((text : List ℕ) → ¬ HasText key.now (view value.now) text) }
{
    value.get(key).and_then(Value::as_str)
}

fn name_of(value: &Value) -> Option<&str>
    ensures some { IfSome result (λ name. HasName (view value.now) name.now) }
    ensures none { IfNone result ((name : List ℕ) → ¬ HasName (view value.now) name) }
{
    let text = text_under(value, "name")?;
    if is_name(text.as_bytes()) {
        Some(text)
    } else {
        None
    }
}

fn rate_of(value: &Value, key: &str) -> Option<u64>
    ensures some { IfSome result (HasRate key.now (view value.now)) }
    ensures none { IfNone result ((rate : ℕ) → ¬ HasRate key.now (view value.now) rate) }
{
    let text = text_under(value, key)?;
    rate_value(text.as_bytes())
}

// The name that an element is under, if it has such a member. None where that member is no text.
fn under_of(value: &Value) -> Option<Option<&str>>
    ensures some { IfSome result (λ under.
        MatchOption under (HasUnder (view value.now) Option.None)
        (λ text. HasUnder (view value.now) (Option.Some text.now))) }
    ensures none { IfNone result ((under : Option (List ℕ)) → ¬ HasUnder (view value.now) under) }
{
    let Some(member) = value.get("under") else {
        return Some(None);
    };
    let text = member.as_str()?;
    Some(Some(text))
}

// A name that is kept, if there is one.
fn kept_name(alloc: Global, text: Option<&str>) -> Result<Option<Name>, OutOfMemory>
    ensures { IfOk result (λ name. MatchOption text.entry (name ≡ Option.None) (λ t. name
        ≡ Option.Some t.now)) }
{
    match text {
        Some(text) => Ok(Some(name_from(alloc, text.as_bytes())?)),
        None => Ok(None),
    }
}

// The entry that an object describes.
fn entry_of(alloc: Global, value: &Value, rate_key: &str) -> Result<NamedRate, PartFault>
    ensures ok { IfOk result (IsEntryOf rate_key.now (view value.now)) }
    ensures err { IfErr result (FailsAsPart (IsWrongPart rate_key.now (view value.now))) }
{
    if !value.is_object() {
        return Err(PartFault::Wrong(ElementPart::Itself));
    }
    let Some(name) = name_of(value) else {
        return Err(PartFault::Wrong(ElementPart::Name));
    };
    let Some(rate) = rate_of(value, rate_key) else {
        return Err(PartFault::Wrong(ElementPart::Rate));
    };
    let Some(under) = under_of(value) else {
        return Err(PartFault::Wrong(ElementPart::Under));
    };
    let under = kept_name(alloc, under)?;
    let name = name_from(alloc, name.as_bytes())?;
    Ok(NamedRate { name, rate, under })
}

// The fault of this shape.
fn shape_fault(alloc: Global, what: &str) -> DemandFault
    ensures { FailsAsShape (λ words. words ≡ what.now) result }
{
    match name_from(alloc, what.as_bytes()) {
        Ok(what) => DemandFault::Shape { what },
        Err(OutOfMemory) => DemandFault::OutOfMemory,
    }
}

// The words for a part of an element of an array.
fn words_for(
    alloc: Global,
    key: &str,
    rate_key: &str,
    place: usize,
    part: ElementPart,
) -> Result<String, OutOfMemory>
    ensures { IfOk result (λ words. string_bytes words
        ≡ entry_words key.now rate_key.now place part) }
{
    match part {
        ElementPart::Itself => Ok(format!(in alloc; "{key}[{place}]")?),
        ElementPart::Name => Ok(format!(in alloc; "{key}[{place}].name")?),
        ElementPart::Rate => Ok(format!(in alloc; "{key}[{place}].{rate_key}")?),
        ElementPart::Under => Ok(format!(in alloc; "{key}[{place}].under")?),
    }
}

// The fault of a part of an element of an array.
fn element_fault(
    alloc: Global,
    key: &str,
    rate_key: &str,
    place: usize,
    part: ElementPart,
) -> DemandFault
    ensures { FailsAsShape (λ words. words ≡ entry_words key.now rate_key.now place part) result }
{
    match words_for(alloc, key, rate_key, place, part) {
        Ok(words) => shape_fault(alloc, &words),
        Err(OutOfMemory) => DemandFault::OutOfMemory,
    }
}

fn items_under<'v>(value: &'v Value, key: &str) -> Option<&'v Vec<Value>>
    ensures some { IfSome result (λ items.
        HasItems key.now (view value.now) (map view items.now.items)) }
    ensures none { IfNone result ((items : List Data) → ¬ HasItems key.now (view value.now) items) }
{
    value.get(key).and_then(Value::as_array)
}

// The entries that the array under a name has.
fn entries_under(
    alloc: Global,
    value: &Value,
    key: &str,
    rate_key: &str,
) -> Result<Vec<NamedRate>, DemandFault>
    ensures ok { IfOk result (λ entries. HasEntries key.now rate_key.now
        (view value.now) entries.items) }
    ensures err { IfErr result (FailsAsShape
        (IsWrongEntryArray key.now rate_key.now (view value.now))) }
{
    let Some(array) = items_under(value, key) else {
        return Err(shape_fault(alloc, key));
    };
    let items = array.as_slice();
    let mut entries = Vec::new(alloc);
    for place in 0..items.len() {
        let item = &items[place];
        match entry_of(alloc, item, rate_key) {
            Ok(entry) => entries.push(entry)?,
            Err(PartFault::Wrong(part)) => {
                return Err(element_fault(alloc, key, rate_key, place, part));
            }
            Err(PartFault::OutOfMemory) => return Err(DemandFault::OutOfMemory),
        }
    }
    Ok(entries)
}

/// The caps and tenants that the value describes.
pub(crate) fn entries_of(alloc: Global, value: &Value) -> Result<NamedRates, DemandFault>
    ensures ok { IfOk result (AreEntriesOf (view value.now)) }
    ensures err { IfErr result (FailsAsShape (AreMisshapenDemands (view value.now))) }
{
    if !value.is_object() {
        return Err(shape_fault(alloc, "top"));
    }
    let caps = entries_under(alloc, value, "caps", "rate")?;
    let tenants = entries_under(alloc, value, "tenants", "demand")?;
    Ok(NamedRates { caps, tenants })
}
