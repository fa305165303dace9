//! Numbers of classes: one to four hexadecimal digits in lower case, the first of them not 0.

ghost use Rattle.std.specs.Prelude.{ℕ, ◌≡◌, ◌+◌, ◌*◌, ◌<◌, ◌≤◌, ◌++◌, ◌∷◌, [], false, List, IfSome, IfNone};
ghost use Rattle.std.specs.Fmt.{digits, digit_glyph};
ghost use Rattle.config_lines.specs.Words.{IsLimited};
ghost use Rattle.config_lines.specs.Hosts.{IsGlyph};

use merlin_base::split_at_byte;

// The value of a digit.
fn digit_of(byte: u8) -> Option<u16>
    ensures some { IfSome result (λ v. (byte ≡ digit_glyph false v) × (v < 16)) }
    ensures none { IfNone result (¬ IsGlyph byte) }
{
    match byte {
        b'0'..=b'9' => Some(u16::from(byte - b'0')),
        b'a'..=b'f' => Some(u16::from(byte - b'a') + 10),
        _ => None,
    }
}

// The number that a first digit is.
fn first_digit(byte: u8) -> Option<u16>
    ensures some { IfSome result (λ n. (byte ∷ [] ≡ digits 16 false n) × IsLimited 1 15 n) }
    ensures none { IfNone result ((v : ℕ) → 0 < v → v < 16 →
        byte ≡ digit_glyph false v → ⊥) }
{
    let digit = digit_of(byte)?;
    if digit == 0 { None } else { Some(digit) }
}

// The number with one digit more.
fn with_digit(number: u16, byte: u8) -> Option<u16>
    requires { IsLimited 1 4095 number }
    ensures some { IfSome result (λ n. (digits 16 false n ≡ digits 16 false number ++ byte ∷ [])
        × (n ≤ 16 * number + 15) × (16 * number ≤ n)) }
    ensures none { IfNone result (¬ IsGlyph byte) }
{
    let digit = digit_of(byte)?;
    Some(16 * number + digit)
}

/// The number of a class that the word is.
fn read_class(word: &[u8]) -> Option<u16>
    ensures some { IfSome result (λ n. (word.now ≡ digits 16 false n) × IsLimited 1 65535 n) }
    ensures none { IfNone result ((n : ℕ) → IsLimited 1 65535 n →
        word.now ≡ digits 16 false n → ⊥) }
{
    match word {
        [a] => first_digit(*a),
        [a, b] => {
            let first = first_digit(*a)?;
            with_digit(first, *b)
        }
        [a, b, c] => {
            let first = first_digit(*a)?;
            let front = with_digit(first, *b)?;
            with_digit(front, *c)
        }
        [a, b, c, d] => {
            let first = first_digit(*a)?;
            let front = with_digit(first, *b)?;
            let front = with_digit(front, *c)?;
            with_digit(front, *d)
        }
        _ => None,
    }
}

/// The number of a class before the first such byte, and what stands behind that byte.
pub(crate) fn class_then(text: &[u8], byte: u8) -> Option<(u16, &[u8])>
    requires { byte < 48 }
    ensures some { IfSome result (λ r.
        (text.now ≡ digits 16 false r.0 ++ byte ∷ r.1.now) × IsLimited 1 65535 r.0) }
    ensures none { IfNone result ((n : ℕ) (rest : List ℕ) → IsLimited 1 65535 n →
        text.now ≡ digits 16 false n ++ byte ∷ rest → ⊥) }
{
    let (word, rest) = split_at_byte(text, byte)?;
    let class = read_class(word)?;
    Some((class, rest))
}
