//! Numbers as texts, without a leading zero.

ghost use Rattle.std.specs.Prelude.{ℕ, ◌≡◌, ◌≤◌, ◌<◌, ◌^◌, ℤ, nat_abs, IfSome, IfNone};
ghost use Rattle.merlin_base.specs.declared.limits.TheConstants.{MAX_DIGITS};
ghost use Rattle.std.specs.Fmt.{decimal, signed_decimal};

use crate::cuts::strip_front;
use crate::lexemes::read_decimal;

/// The number of at most `MAX_DIGITS` digits that the text is.
pub fn read_number(text: &[u8]) -> Option<usize>
    ensures some { IfSome result (λ n. (text.now ≡ decimal n) × (n < 10 ^ MAX_DIGITS)) }
    ensures none { IfNone result ((n : ℕ) → n < 10 ^ MAX_DIGITS → text.now ≡ decimal n → ⊥) }
{
    match read_decimal(text) {
        Some(number) => Some(number as usize),
        None => None,
    }
}

/// The number up to a limit that the text is.
fn read_up_to(text: &[u8], limit: usize) -> Option<usize>
    requires { limit < 10 ^ MAX_DIGITS }
    ensures some { IfSome result (λ n. (text.now ≡ decimal n) × (n ≤ limit)) }
    ensures none { IfNone result ((n : ℕ) → n ≤ limit → text.now ≡ decimal n → ⊥) }
{
    match read_number(text) {
        Some(number) => { if number <= limit { Some(number) } else { None } }
        None => None,
    }
}

/// The whole number that the text is, if it is within a limit. A negative one has one `-` before it, and 0 has none.
pub fn read_whole(text: &[u8], limit: usize) -> Option<i64>
    requires { limit ≤ 2 ^ 60 }
    ensures some { IfSome result (λ z. (text.now ≡ signed_decimal z) × (nat_abs z ≤ limit)) }
    ensures none { IfNone result ((z : ℤ) → nat_abs z ≤ limit → text.now ≡ signed_decimal z → ⊥) }
{
    match strip_front(text, b"-") {
        Some(digits) => match read_up_to(digits, limit) {
            Some(size) => {
                if size == 0 {
                    None
                } else {
                    Some(-(size as i64))
                }
            }
            None => None,
        },
        None => match read_up_to(text, limit) {
            Some(size) => Some(size as i64),
            None => None,
        },
    }
}
