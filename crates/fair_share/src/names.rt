//! The names of caps and tenants: that no two are alike, and which cap one is.
ghost use Rattle.std.specs.Prelude.{◌≡◌, ◌++◌, ◌↔◌, IsTrue, ℕ, List, None, Some, map, OnOk, IfOk, IfErr, IfSome, IfNone, slice_get};
ghost use Rattle.merlin_model.specs.Networks.{AreDifferent};
ghost use Rattle.fair_share.specs.Reading.{names_written, all_names, IsFirstRepeatedName};
ghost use Rattle.fair_share.specs.Failing.{key_texts, FailsAsRepeated};

use crate::cap::Cap;
use crate::entry::{NamedRate, NamedRates};
use crate::fault::DemandFault;
use indexmap::IndexSet;
use std::alloc::Global;

// Adds names behind those that are there, if no two are alike.
fn add_names(
    alloc: Global,
    entries: &[NamedRate],
    numbers: &mut IndexSet<Vec<u8>>,
) -> Result<(), DemandFault>
    requires { AreDifferent (key_texts numbers.old.keys) }
    ensures ok { OnOk result ((key_texts numbers.new.keys
        ≡ key_texts numbers.old.keys ++ names_written entries.now)
        × AreDifferent (key_texts numbers.new.keys)) }
    ensures err { IfErr result (FailsAsRepeated
        (IsFirstRepeatedName (key_texts numbers.old.keys ++ names_written entries.now))) }
{
    for entry in entries {
        let name = Vec::from_slice(alloc, entry.name.bytes())?;
        if !numbers.insert(name)? {
            let repeated = entry.name.copy(alloc)?;
            return Err(DemandFault::DuplicateName { name: repeated });
        }
    }
    Ok(())
}

// Fails where two names are alike.
pub(crate) fn ask_names(alloc: Global, entries: &NamedRates) -> Result<(), DemandFault>
    ensures ok { IfOk result (λ _. AreDifferent (all_names entries.now)) }
    ensures err { IfErr result (FailsAsRepeated (IsFirstRepeatedName (all_names entries.now))) }
{
    let mut numbers = IndexSet::new(alloc);
    add_names(alloc, &entries.caps, &mut numbers)?;
    add_names(alloc, &entries.tenants, &mut numbers)
}

fn has_name(cap: &Cap, name: &[u8]) -> bool
    ensures { IsTrue result ↔ (cap.now.name ≡ name.now) }
{
    cap.name.bytes() == name
}

// The place of the cap of this name.
pub(crate) fn cap_named(caps: &[Cap], name: &[u8]) -> Option<usize>
    ensures some { IfSome result (λ c. slice_get (map (λ cap. cap.name) caps.now) c
        ≡ Some name.now) }
    ensures none { IfNone result ((c : ℕ) →
        ¬ (slice_get (map (λ cap. cap.name) caps.now) c ≡ Some name.now)) }
{
    for index in 0..caps.len() {
        let cap = &caps[index];
        if has_name(cap, name) {
            return Some(index);
        }
    }
    None
}
