//! Lists of pairs as texts.

ghost use Rattle.std.specs.Prelude.{ℕ, ◌≡◌, ◌≤◌, ◌<◌, ◌^◌, ◌++◌, ◌∷◌, ℤ, nat_abs, length, List, IfSome, IfNone, IfOk, Option};
ghost use Rattle.merlin_base.specs.declared.limits.TheConstants.{MAX_DIGITS};
ghost use Rattle.merlin_base.specs.Pairs.{pairs_text, ArePairs};

use merlin_base::read_pair;
use merlin_model::OutOfMemory;
use sqlite_items::Items;
use std::alloc::Global;

/// The pairs that the text is, where their first numbers ascend below a bound and their second ones are within a limit and not 0.
pub fn read_pairs(
    alloc: Global,
    text: &[u8],
    bound: usize,
    limit: usize,
) -> Result<Option<Items<(usize, i64)>>, OutOfMemory>
    requires bound { bound ≤ 10 ^ MAX_DIGITS }
    requires limit { limit ≤ 2 ^ 60 }
    ensures some { IfOk result (λ o. IfSome o (λ pairs.
        (text.now ≡ pairs_text pairs) × ArePairs bound limit pairs)) }
    ensures none { IfOk result (λ o. IfNone o ((pairs : List (ℕ × ℤ)) →
        ArePairs bound limit pairs → text.now ≡ pairs_text pairs → ⊥)) }
{
    let mut pairs = Items::new(alloc);
    let mut rest = text;
    let mut next = 0;
    while !rest.is_empty() {
        let Some((pair, others)) = read_pair(rest, limit) else {
            return Ok(None);
        };
        if pair.0 < next {
            return Ok(None);
        }
        if bound <= pair.0 {
            return Ok(None);
        }
        if pair.1 == 0 {
            return Ok(None);
        }
        next = pair.0 + 1;
        pairs.push(pair)?;
        rest = others;
    }
    Ok(Some(pairs))
}
