//! Readers of single lexemes.
ghost use Rattle.std.specs.Prelude.{◌≡◌, ◌+◌, ◌*◌, ◌≤◌, ◌<◌, ◌↔◌, ℕ, List, IsTrue, IfSome, IfNone, length, ◌⊎◌, ◌++◌, ◌∷◌};
ghost use Rattle.merlin_base.specs.declared.limits.TheConstants.{MAX_DIGITS};
ghost use Rattle.merlin_base.specs.Lexemes.{AreDigits, IsDecimal, IsLetter, IsDigit, IsName, IsNameByte, AreNameBytes, IsIdentifier, is_word as is_word_of, number_of, IsHexDigit, IsHexPair, IsThen, IsMac, IsOctet, IsIp, Lacks, unit_of, IsRate};

use crate::limits::{MAX_DIGITS, MAX_NAME_BYTES};
use merlin_model::limits::MAX_RATE;

// The number that the digits stand for, if these are digits.
fn digits_value(digits: &[u8]) -> Option<u64>
    requires { length digits.now ≤ MAX_DIGITS }
    ensures value { IfSome result (λ n. AreDigits digits.now × (n ≡ number_of digits.now)) }
    ensures none { IfNone result (AreDigits digits.now → ⊥) }
{
    let mut value = 0u64;
    for digit in digits {
        if !digit.is_ascii_digit() {
            return None;
        }
        value = 10 * value + u64::from(*digit - b'0');
    }
    Some(value)
}

/// The number that the text stands for. None where it isn't 1 to `MAX_DIGITS` digits without a leading zero.
pub fn read_decimal(text: &[u8]) -> Option<u64>
    ensures value { IfSome result (IsDecimal text.now) }
    ensures none { IfNone result ((n : ℕ) → IsDecimal text.now n → ⊥) }
{
    match text {
        [] => None,
        [b'0', _, ..] => None,
        _ if text.len() > MAX_DIGITS => None,
        _ => digits_value(text),
    }
}

/// Whether the byte is an ASCII letter or an underscore.
pub fn is_letter(byte: u8) -> bool
    ensures { IsTrue result ↔ IsLetter byte }
{
    byte.is_ascii_alphabetic() || byte == b'_'
}

/// Whether the byte is an ASCII digit.
pub fn is_digit(byte: u8) -> bool
    ensures { IsTrue result ↔ IsDigit byte }
{
    byte.is_ascii_digit()
}

/// Whether the byte is an ASCII letter, a digit or an underscore.
pub fn is_name_byte(byte: u8) -> bool
    ensures { IsTrue result ↔ IsNameByte byte }
{
    is_letter(byte) || is_digit(byte)
}

fn are_name_bytes(bytes: &[u8]) -> bool
    ensures { IsTrue result ↔ AreNameBytes bytes.now }
{
    bytes.iter().all(|byte| is_name_byte(*byte))
}

/// Whether the text is a letter or underscore, then letters, digits and underscores, of any length.
pub fn is_identifier(text: &[u8]) -> bool
    ensures { IsTrue result ↔ IsIdentifier text.now }
{
    match text {
        [] => false,
        [first, rest @ ..] => is_letter(*first) && are_name_bytes(rest),
    }
}

fn is_word(text: &[u8]) -> bool
    ensures { result ≡ is_word_of text.now }
{
    text == b"true".as_slice()
        || text == b"false".as_slice()
        || text == b"and".as_slice()
        || text == b"or".as_slice()
        || text == b"foreach".as_slice()
        || text == b"in".as_slice()
        || text == b"cross".as_slice()
        || text == b"default".as_slice()
        || text == b"at".as_slice()
        || text == b"max".as_slice()
        || text == b"min".as_slice()
}

/// Whether the text is one name.
pub fn is_name(text: &[u8]) -> bool
    ensures { IsTrue result ↔ IsName text.now }
{
    text.len() <= MAX_NAME_BYTES && is_identifier(text) && !is_word(text)
}

fn hex_digit_value(byte: u8) -> Option<u8>
    ensures some { IfSome result (IsHexDigit byte) }
    ensures none { IfNone result ((value : ℕ) → IsHexDigit byte value → ⊥) }
{
    match byte {
        b'0'..=b'9' => Some(byte - b'0'),
        b'a'..=b'f' => Some(byte - b'a' + 10),
        b'A'..=b'F' => Some(byte - b'A' + 10),
        _ => None,
    }
}

fn hex_pair_value(text: &[u8]) -> Option<u8>
    ensures some { IfSome result (IsHexPair text.now) }
    ensures none { IfNone result ((n : ℕ) → IsHexPair text.now n → ⊥) }
{
    match text {
        [a, b] => {
            let high = hex_digit_value(*a)?;
            let low = hex_digit_value(*b)?;
            Some(16 * high + low)
        }
        _ => None,
    }
}

// A pair, a colon and the rest.
fn pair_then(text: &[u8]) -> Option<(u8, &[u8])>
    ensures some { IfSome result (λ r. IsThen IsHexPair 58 text.now r.0 r.1.now) }
    ensures none { IfNone result ((n : ℕ) (rest : List ℕ) →
        IsThen IsHexPair 58 text.now n rest → ⊥) }
{
    match text {
        [_, _, b':', rest @ ..] => {
            let pair = hex_pair_value(&text[..2])?;
            Some((pair, rest))
        }
        _ => None,
    }
}

/// The number of a text of six pairs of hexadecimal digits, joined by colons.
pub fn mac_value(text: &[u8]) -> Option<u64>
    ensures value { IfSome result (IsMac text.now) }
    ensures none { IfNone result ((n : ℕ) → IsMac text.now n → ⊥) }
{
    let (a, rest) = pair_then(text)?;
    let (b, rest) = pair_then(rest)?;
    let (c, rest) = pair_then(rest)?;
    let (d, rest) = pair_then(rest)?;
    let (e, rest) = pair_then(rest)?;
    let f = hex_pair_value(rest)?;
    let high = 65536 * u64::from(a) + 256 * u64::from(b) + u64::from(c);
    let low = 65536 * u64::from(d) + 256 * u64::from(e) + u64::from(f);
    Some(16_777_216 * high + low)
}

fn octet(text: &[u8]) -> Option<u8>
    ensures some { IfSome result (IsOctet text.now) }
    ensures none { IfNone result ((n : ℕ) → IsOctet text.now n → ⊥) }
{
    let number = read_decimal(text)?;
    u8::try_from(number).ok()
}

/// What stands before the first such byte, and what stands after it. None where there is no such byte.
pub fn split_at_byte(text: &[u8], byte: u8) -> Option<(&[u8], &[u8])>
    ensures some { IfSome result (λ r.
        (text.now ≡ r.0.now ++ byte ∷ r.1.now) × Lacks byte r.0.now) }
    ensures none { IfNone result (Lacks byte text.now) }
{
    for (place, other) in text.iter().enumerate() {
        if *other == byte {
            return Some((&text[..place], &text[place + 1..]));
        }
    }
    None
}

// An octet, a dot and the rest.
fn octet_then(text: &[u8]) -> Option<(u8, &[u8])>
    ensures some { IfSome result (λ r. IsThen IsOctet 46 text.now r.0 r.1.now) }
    ensures none { IfNone result ((n : ℕ) (rest : List ℕ) → IsThen IsOctet 46 text.now n rest → ⊥) }
{
    let (first, rest) = split_at_byte(text, b'.')?;
    let value = octet(first)?;
    Some((value, rest))
}

/// The number of a text of four numbers to 255, joined by dots.
pub fn ip_value(text: &[u8]) -> Option<u32>
    ensures value { IfSome result (IsIp text.now) }
    ensures none { IfNone result ((n : ℕ) → IsIp text.now n → ⊥) }
{
    let (a, rest) = octet_then(text)?;
    let (b, rest) = octet_then(rest)?;
    let (c, rest) = octet_then(rest)?;
    let d = octet(rest)?;
    let high = 256 * u32::from(a) + u32::from(b);
    let low = 256 * u32::from(c) + u32::from(d);
    Some(65536 * high + low)
}

fn unit_factor(unit: &[u8]) -> Option<u64>
    ensures { result ≡ unit_of unit.now }
{
    if unit == b"kbps".as_slice() {
        Some(1)
    } else if unit == b"Mbps".as_slice() {
        Some(1000)
    } else if unit == b"Gbps".as_slice() {
        Some(1_000_000)
    } else if unit == b"KB/s".as_slice() {
        Some(8)
    } else if unit == b"MB/s".as_slice() {
        Some(8000)
    } else if unit == b"GB/s".as_slice() {
        Some(8_000_000)
    } else {
        None
    }
}

/// The rate of a text in kbit/s: a number and its unit.
pub fn rate_value(text: &[u8]) -> Option<u64>
    ensures value { IfSome result (IsRate text.now) }
    ensures none { IfNone result ((rate : ℕ) → IsRate text.now rate → ⊥) }
{
    if text.len() < 4 {
        return None;
    }
    let (digits, unit) = text.split_at(text.len() - 4);
    let factor = unit_factor(unit)?;
    let number = read_decimal(digits)?;
    let rate = u128::from(number) * u128::from(factor);
    if rate > u128::from(MAX_RATE) {
        return None;
    }
    Some(rate as u64)
}
