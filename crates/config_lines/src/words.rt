//! Single words of a line, each with the byte behind it.

ghost use Rattle.std.specs.Prelude.{ℕ, ◌≡◌, ◌≤◌, ◌<◌, ◌^◌, ◌++◌, ◌∷◌, List, Some, IfSome, IfNone};
ghost use Rattle.std.specs.Fmt.{decimal};
ghost use Rattle.merlin_model.specs.Networks.{Network};
ghost use Rattle.config_text.specs.Lines.{name_at, rate_with_unit};
ghost use Rattle.config_lines.specs.Words.{IsLimited, HasFewDigits, IsLocation};

use merlin_base::{is_identifier, read_number, split_at_byte, strip_front};
use topology::Topology;
use topology_shape::limits::MAX_PORT;

/// The greatest port.
pub(crate) const GREATEST_PORT: u16 = MAX_PORT as u16;

/// The number within a range that the word is.
pub(crate) fn read_short(word: &[u8], least: u16, most: u16) -> Option<u16>
    ensures some { IfSome result (λ n. (word.now ≡ decimal n) × IsLimited least most n) }
    ensures none { IfNone result ((n : ℕ) → IsLimited least most n →
        word.now ≡ decimal n → ⊥) }
{
    let number = read_number(word)?;
    if number < usize::from(least) {
        return None;
    }
    if usize::from(most) < number {
        return None;
    }
    Some(number as u16)
}

/// The number within a range before the first such byte, and what stands behind that byte.
pub(crate) fn short_then(text: &[u8], byte: u8, least: u16, most: u16) -> Option<(u16, &[u8])>
    requires { byte < 48 }
    ensures some { IfSome result (λ r.
        (text.now ≡ decimal r.0 ++ byte ∷ r.1.now) × IsLimited least most r.0) }
    ensures none { IfNone result ((n : ℕ) (rest : List ℕ) → IsLimited least most n →
        text.now ≡ decimal n ++ byte ∷ rest → ⊥) }
{
    let (word, rest) = split_at_byte(text, byte)?;
    let number = read_short(word, least, most)?;
    Some((number, rest))
}

/// The number of few digits before the first such byte, and what stands behind that byte.
pub(crate) fn number_then(text: &[u8], byte: u8) -> Option<(u64, &[u8])>
    requires { byte < 48 }
    ensures some { IfSome result (λ r.
        (text.now ≡ decimal r.0 ++ byte ∷ r.1.now) × HasFewDigits r.0) }
    ensures none { IfNone result ((n : ℕ) (rest : List ℕ) → HasFewDigits n →
        text.now ≡ decimal n ++ byte ∷ rest → ⊥) }
{
    let (word, rest) = split_at_byte(text, byte)?;
    let number = read_number(word)?;
    Some((number as u64, rest))
}

/// The rate before its unit and a text behind that, and what stands behind the two.
pub(crate) fn rate_then<'a>(text: &'a [u8], behind: &[u8]) -> Option<(u64, &'a [u8])>
    ensures some { IfSome result (λ r.
        (text.now ≡ rate_with_unit r.0 ++ (behind.now ++ r.1.now)) × HasFewDigits r.0) }
    ensures none { IfNone result ((n : ℕ) (rest : List ℕ) → HasFewDigits n →
        text.now ≡ rate_with_unit n ++ (behind.now ++ rest) → ⊥) }
{
    let (word, rest) = split_at_byte(text, b'k')?;
    let number = read_number(word)?;
    let rest = strip_front(rest, b"bit")?;
    let rest = strip_front(rest, behind)?;
    Some((number as u64, rest))
}

/// The location whose name the word is.
pub(crate) fn location_of(net: &Topology, word: &[u8]) -> Option<usize>
    ensures some { IfSome result (λ loc.
        (word.now ≡ name_at net.now loc) × IsLocation net.now loc) }
    ensures none { IfNone result ((loc : ℕ) → IsLocation net.now loc →
        word.now ≡ name_at net.now loc → ⊥) }
{
    if !is_identifier(word) {
        return None;
    }
    net.find(word)
}

/// The location whose name stands before the first blank, and what stands behind that.
pub(crate) fn location_then<'a>(net: &Topology, text: &'a [u8]) -> Option<(usize, &'a [u8])>
    ensures some { IfSome result (λ r.
        (text.now ≡ name_at net.now r.0 ++ 32 ∷ r.1.now) × IsLocation net.now r.0) }
    ensures none { IfNone result ((loc : ℕ) (rest : List ℕ) → IsLocation net.now loc →
        text.now ≡ name_at net.now loc ++ 32 ∷ rest → ⊥) }
{
    let (word, rest) = split_at_byte(text, b' ')?;
    let loc = location_of(net, word)?;
    Some((loc, rest))
}
