//! Lists of pairs as texts: a blank, a number, a colon and a whole number for each.

ghost use Rattle.std.specs.Prelude.{ℕ, ◌≡◌, ◌≤◌, ◌<◌, ◌^◌, ◌++◌, ℤ, nat_abs, List, Bool, true, false, IfSome, IfNone};
ghost use Rattle.merlin_base.specs.declared.limits.TheConstants.{MAX_DIGITS};
ghost use Rattle.merlin_base.specs.Pairs.{pair_text, IsEmptyOrBegins};
ghost use Rattle.merlin_base.specs.Skipping.{IsPairsText};

use crate::cuts::{cut_before, strip_front};
use crate::lexemes::split_at_byte;
use crate::number_texts::{read_number, read_whole};

/// The pair with which the text begins, and what stands behind it.
pub fn read_pair(text: &[u8], limit: usize) -> Option<((usize, i64), &[u8])>
    requires { limit ≤ 2 ^ 60 }
    ensures some { IfSome result (λ r. (text.now ≡ pair_text r.0 ++ r.1.now) ×
        (r.0.0 < 10 ^ MAX_DIGITS) × (nat_abs r.0.1 ≤ limit) × IsEmptyOrBegins 32 r.1.now) }
    ensures none { IfNone result ((pair : ℕ × ℤ) (rest : List ℕ) → pair.0 < 10 ^ MAX_DIGITS →
        nat_abs pair.1 ≤ limit → IsEmptyOrBegins 32 rest → text.now ≡ pair_text pair ++ rest → ⊥) }
{
    let Some(numbers) = strip_front(text, b" ") else {
        return None;
    };
    let Some((first, behind)) = split_at_byte(numbers, b':') else {
        return None;
    };
    let (second, rest) = cut_before(behind, b' ');
    let Some(number) = read_number(first) else {
        return None;
    };
    let Some(whole) = read_whole(second, limit) else {
        return None;
    };
    Some(((number, whole), rest))
}

/// Whether the text is pairs whose first numbers ascend below a bound and whose second ones are within a limit and not 0.
pub fn are_pairs(text: &[u8], bound: usize, limit: usize) -> bool
    requires bound { bound ≤ 10 ^ MAX_DIGITS }
    requires limit { limit ≤ 2 ^ 60 }
    ensures yes { result ≡ true → IsPairsText bound limit text.now }
    ensures no { result ≡ false → ¬ IsPairsText bound limit text.now }
{
    let mut rest = text;
    let mut next = 0;
    while !rest.is_empty() {
        let Some((pair, others)) = read_pair(rest, limit) else {
            return false;
        };
        if pair.0 < next || bound <= pair.0 || pair.1 == 0 {
            return false;
        }
        next = pair.0 + 1;
        rest = others;
    }
    true
}
