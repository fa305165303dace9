//! Addresses as they stand in a line.

ghost use Rattle.std.specs.Prelude.{ℕ, ◌≡◌, ◌<◌, ◌++◌, ◌∷◌, List, false, IfSome, IfNone};
ghost use Rattle.std.specs.Fmt.{digit_glyph};
ghost use Rattle.merlin_base.specs.Addresses.{mac_text, ip_text};
ghost use Rattle.config_lines.specs.Parts.{IsMacNumber, IsIpNumber};

use merlin_base::{ip_value, mac_value, split_at_byte};

// A hexadecimal digit, in lower case.
fn hex_digit(value: u8) -> u8
    requires { value < 16 }
    ensures { result ≡ digit_glyph false value }
{
    if value < 10 {
        b'0' + value
    } else {
        b'a' + (value - 10)
    }
}

// The text of an Ethernet address, of which the lowest 48 bits count.
fn mac_bytes(eth: u64) -> [u8; 17]
    ensures { result ≡ mac_text eth }
{
    let [_, _, a, b, c, d, e, f] = eth.to_be_bytes();
    [
        hex_digit(a / 16),
        hex_digit(a % 16),
        b':',
        hex_digit(b / 16),
        hex_digit(b % 16),
        b':',
        hex_digit(c / 16),
        hex_digit(c % 16),
        b':',
        hex_digit(d / 16),
        hex_digit(d % 16),
        b':',
        hex_digit(e / 16),
        hex_digit(e % 16),
        b':',
        hex_digit(f / 16),
        hex_digit(f % 16),
    ]
}

/// The Ethernet address that the word is. Its digits are in lower case.
pub(crate) fn read_mac(word: &[u8]) -> Option<u64>
    ensures some { IfSome result (λ n. (word.now ≡ mac_text n) × IsMacNumber n) }
    ensures none { IfNone result ((n : ℕ) → IsMacNumber n → word.now ≡ mac_text n → ⊥) }
{
    let eth = mac_value(word)?;
    let text = mac_bytes(eth);
    if word == text.as_slice() {
        Some(eth)
    } else {
        None
    }
}

/// The Ethernet address before the first blank, and what stands behind that.
pub(crate) fn mac_then(text: &[u8]) -> Option<(u64, &[u8])>
    ensures some { IfSome result (λ r.
        (text.now ≡ mac_text r.0 ++ 32 ∷ r.1.now) × IsMacNumber r.0) }
    ensures none { IfNone result ((n : ℕ) (rest : List ℕ) → IsMacNumber n →
        text.now ≡ mac_text n ++ 32 ∷ rest → ⊥) }
{
    let (word, rest) = split_at_byte(text, b' ')?;
    let eth = read_mac(word)?;
    Some((eth, rest))
}

/// The IPv4 address that the word is.
pub(crate) fn read_ip(word: &[u8]) -> Option<u32>
    ensures some { IfSome result (λ n. (word.now ≡ ip_text n) × IsIpNumber n) }
    ensures none { IfNone result ((n : ℕ) → IsIpNumber n → word.now ≡ ip_text n → ⊥) }
{
    ip_value(word)
}

/// The IPv4 address before the first blank, and what stands behind that.
pub(crate) fn ip_then(text: &[u8]) -> Option<(u32, &[u8])>
    ensures some { IfSome result (λ r.
        (text.now ≡ ip_text r.0 ++ 32 ∷ r.1.now) × IsIpNumber r.0) }
    ensures none { IfNone result ((n : ℕ) (rest : List ℕ) → IsIpNumber n →
        text.now ≡ ip_text n ++ 32 ∷ rest → ⊥) }
{
    let (word, rest) = split_at_byte(text, b' ')?;
    let ip = read_ip(word)?;
    Some((ip, rest))
}
