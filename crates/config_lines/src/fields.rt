//! The fields that a match names, read from the left: each key stands behind those before it.

ghost use Rattle.std.specs.Prelude.{ℕ, ◌≡◌, ◌++◌, ◌∷◌, List, codes, IfSome, IfNone};
ghost use Rattle.std.specs.Fmt.{decimal};
ghost use Rattle.merlin_base.specs.Addresses.{ip_text};
ghost use Rattle.merlin_model.specs.declared.config.Match.{Match as Stated};
ghost use Rattle.config_text.specs.Lines.{match_text};
ghost use Rattle.config_lines.specs.declared.fields.Key.{Key as Name};
ghost use Rattle.config_lines.specs.Words.{IsLimited};
ghost use Rattle.config_lines.specs.Parts.{IsLineMatch, IsIpNumber};
ghost use Rattle.config_lines.specs.Fields.{key_word, key_rank, vlan_number_text, field_value_text, IsValue, field_text, vlan_of_tag, match_with};

use crate::addresses::{read_ip, read_mac};
use crate::limits::MAX_TAG;
use crate::words::{GREATEST_PORT, read_short};
use merlin_base::{cut_before, split_at_byte, strip_front};
use merlin_model::config::{ANY, Match, Vlan};

/// A field of a match.
#[derive(Clone, Copy)]
pub enum Key {
    InPort,
    DlSrc,
    DlDst,
    DlVlan,
    DlType,
    NwProto,
    NwSrc,
    NwDst,
    TpSrc,
    TpDst,
}

// The key that stands before the first `=`, and what stands behind that.
fn read_key(text: &[u8]) -> Option<(Key, &[u8])>
    ensures some { IfSome result (λ r. text.now ≡ key_word r.0 ++ 61 ∷ r.1.now) }
    ensures none { IfNone result ((key : Name) (rest : List ℕ) →
        text.now ≡ key_word key ++ 61 ∷ rest → ⊥) }
{
    if let Some(rest) = strip_front(text, b"in_port=") {
        return Some((Key::InPort, rest));
    }
    if let Some(rest) = strip_front(text, b"dl_src=") {
        return Some((Key::DlSrc, rest));
    }
    if let Some(rest) = strip_front(text, b"dl_dst=") {
        return Some((Key::DlDst, rest));
    }
    if let Some(rest) = strip_front(text, b"dl_vlan=") {
        return Some((Key::DlVlan, rest));
    }
    if let Some(rest) = strip_front(text, b"dl_type=") {
        return Some((Key::DlType, rest));
    }
    if let Some(rest) = strip_front(text, b"nw_proto=") {
        return Some((Key::NwProto, rest));
    }
    if let Some(rest) = strip_front(text, b"nw_src=") {
        return Some((Key::NwSrc, rest));
    }
    if let Some(rest) = strip_front(text, b"nw_dst=") {
        return Some((Key::NwDst, rest));
    }
    if let Some(rest) = strip_front(text, b"tp_src=") {
        return Some((Key::TpSrc, rest));
    }
    let rest = strip_front(text, b"tp_dst=")?;
    Some((Key::TpDst, rest))
}

// The place of a field among all.
fn rank(key: Key) -> usize
    ensures { result ≡ key_rank key }
{
    match key {
        Key::InPort => 0,
        Key::DlSrc => 1,
        Key::DlDst => 2,
        Key::DlVlan => 3,
        Key::DlType => 4,
        Key::NwProto => 5,
        Key::NwSrc => 6,
        Key::NwDst => 7,
        Key::TpSrc => 8,
        Key::TpDst => 9,
    }
}

// The tag that the word is, 0 for `none`.
fn read_vlan(word: &[u8]) -> Option<u64>
    ensures some { IfSome result (λ n.
        (word.now ≡ vlan_number_text n) × IsLimited 0 4094 n) }
    ensures none { IfNone result ((n : ℕ) → IsLimited 0 4094 n →
        word.now ≡ vlan_number_text n → ⊥) }
{
    if word == b"none".as_slice() {
        return Some(0);
    }
    let tag = read_short(word, 1, MAX_TAG)?;
    Some(u64::from(tag))
}

// The number within a range that the word is, among the numbers of all fields.
fn read_up_to(word: &[u8], least: u16, most: u16) -> Option<u64>
    ensures some { IfSome result (λ n. (word.now ≡ decimal n) × IsLimited least most n) }
    ensures none { IfNone result ((n : ℕ) → IsLimited least most n →
        word.now ≡ decimal n → ⊥) }
{
    let number = read_short(word, least, most)?;
    Some(u64::from(number))
}

// The IPv4 address that the word is, among the numbers of all fields.
fn read_wide_ip(word: &[u8]) -> Option<u64>
    ensures some { IfSome result (λ n. (word.now ≡ ip_text n) × IsIpNumber n) }
    ensures none { IfNone result ((n : ℕ) → IsIpNumber n → word.now ≡ ip_text n → ⊥) }
{
    let ip = read_ip(word)?;
    Some(u64::from(ip))
}

// 0, where the word is the Ethernet type of IPv4.
fn read_type(word: &[u8]) -> Option<u64>
    ensures some { IfSome result (λ n. (word.now ≡ codes "0x0800") × (n ≡ 0)) }
    ensures none { IfNone result ((n : ℕ) → n ≡ 0 → word.now ≡ codes "0x0800" → ⊥) }
{
    if word == b"0x0800".as_slice() {
        Some(0)
    } else {
        None
    }
}

// The number of this field that the word is.
fn read_value(key: Key, word: &[u8]) -> Option<u64>
    ensures some { IfSome result (λ n. (word.now ≡ field_value_text key n) × IsValue key n) }
    ensures none { IfNone result ((n : ℕ) → IsValue key n →
        word.now ≡ field_value_text key n → ⊥) }
{
    match key {
        Key::InPort => read_up_to(word, 1, GREATEST_PORT),
        Key::DlSrc => read_mac(word),
        Key::DlDst => read_mac(word),
        Key::DlVlan => read_vlan(word),
        Key::DlType => read_type(word),
        Key::NwProto => read_up_to(word, 0, 255),
        Key::NwSrc => read_wide_ip(word),
        Key::NwDst => read_wide_ip(word),
        Key::TpSrc => read_up_to(word, 0, 65535),
        Key::TpDst => read_up_to(word, 0, 65535),
    }
}

// The tag of this number, or that there is none for 0.
fn vlan_of(number: u16) -> Vlan
    ensures { result ≡ vlan_of_tag number }
{
    if number == 0 {
        Vlan::Untagged
    } else {
        Vlan::Tag(number)
    }
}

// The match with this field set.
fn with(fits: Match, key: Key, number: u64) -> Match
    requires { IsValue key number }
    ensures { result ≡ match_with fits key number }
{
    let mut fits = fits;
    match key {
        Key::InPort => fits.in_port = Some(number as u16),
        Key::DlSrc => fits.dl_src = Some(number),
        Key::DlDst => fits.dl_dst = Some(number),
        Key::DlVlan => fits.dl_vlan = Some(vlan_of(number as u16)),
        Key::DlType => fits.dl_type = true,
        Key::NwProto => fits.nw_proto = Some(number as u8),
        Key::NwSrc => fits.nw_src = Some(number as u32),
        Key::NwDst => fits.nw_dst = Some(number as u32),
        Key::TpSrc => fits.tp_src = Some(number as u16),
        Key::TpDst => fits.tp_dst = Some(number as u16),
    }
    fits
}

// The field that the part is.
fn read_field(part: &[u8]) -> Option<(Key, u64)>
    ensures some { IfSome result (λ r. (part.now ≡ field_text r.0 r.1) × IsValue r.0 r.1) }
    ensures none { IfNone result ((key : Name) (n : ℕ) → IsValue key n →
        part.now ≡ field_text key n → ⊥) }
{
    let (key, word) = read_key(part)?;
    let number = read_value(key, word)?;
    Some((key, number))
}

// The match that the word is: `any`, or fields joined by commas.
fn read_match(word: &[u8]) -> Option<Match>
    ensures some { IfSome result (λ m. (word.now ≡ match_text m) × IsLineMatch m) }
    ensures none { IfNone result ((m : Stated) → IsLineMatch m →
        word.now ≡ match_text m → ⊥) }
{
    if word == b"any".as_slice() {
        return Some(ANY);
    }
    let mut fits = ANY;
    let mut least = 0;
    let mut rest = word;
    'fields: loop {
        let (part, behind) = cut_before(rest, b',');
        let (key, number) = read_field(part)?;
        if rank(key) < least {
            return None;
        }
        fits = with(fits, key, number);
        let Some(more) = strip_front(behind, b",") else {
            return Some(fits);
        };
        least = rank(key) + 1;
        rest = more;
    }
}

/// The match before the first blank, and what stands behind that.
pub(crate) fn match_then(text: &[u8]) -> Option<(Match, &[u8])>
    ensures some { IfSome result (λ r.
        (text.now ≡ match_text r.0 ++ 32 ∷ r.1.now) × IsLineMatch r.0) }
    ensures none { IfNone result ((m : Stated) (rest : List ℕ) → IsLineMatch m →
        text.now ≡ match_text m ++ 32 ∷ rest → ⊥) }
{
    let (word, rest) = split_at_byte(text, b' ')?;
    let fits = read_match(word)?;
    Some((fits, rest))
}
