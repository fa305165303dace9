//! The first key that stands before it too.
ghost use Rattle.std.specs.Prelude.{IfOk, IfSome, IfNone};
ghost use Rattle.std.specs.List.{IsDistinct};
ghost use Rattle.topology_rules.specs.Clashes.{IsFirstRepeated};

use indexmap::IndexSet;
use std::alloc::{AllocError, Global};
use std::hash::Hash;

/// The place of the first key that stands before it too.
pub(crate) fn first_repeated<K: Copy + Eq + Hash>(
    alloc: Global,
    keys: &[K],
) -> Result<Option<usize>, AllocError>
    ensures some { IfOk result (λ o. IfSome o (IsFirstRepeated K.eq keys.now)) }
    ensures none { IfOk result (λ o. IfNone o (IsDistinct K.eq keys.now)) }
{
    let mut seen = IndexSet::new(alloc);
    for (place, key) in keys.iter().enumerate() {
        if !seen.insert(*key)? {
            return Ok(Some(place));
        }
    }
    Ok(None)
}
