// The first piece of a text: a blank, a comment or a lexeme.
ghost use Rattle.std.specs.Prelude.{◌≡◌, ◌≢◌, ◌<◌, ◌≤◌, ◌↔◌, ℕ, List, [], ◌∷◌, ◌++◌, All, length, take, drop, slice_index, IsTrue, IfSome, IfNone, Some, codes};
ghost use Rattle.merlin_base.specs.Lexemes.{IsLetter, IsDigit, IsDecimal};
ghost use Rattle.merlin_text.specs.Tokens.{EndsBefore, IsBlank, IsMacAt, BeginsNoMac, BeginsNoPiece, IsLexeme, IsPrefix, sort_of, verbal, numeral, spelling, written};
ghost use Rattle.merlin_text.specs.declared.token.Kind.{Kind};
ghost use Rattle.merlin_text.specs.declared.token.Kind.TheVariants as kinds;
ghost use Rattle.merlin_text.specs.declared.token.Word.{Word};
ghost use Rattle.merlin_text.specs.declared.token.Sign.{Sign};
ghost use Rattle.merlin_text.specs.Fronts.{IsByteOf, IsFront};

use crate::{Kind, Sign, Word};
use merlin_base::{
    ip_value, is_digit, is_letter, is_name, is_name_byte, mac_value, rate_value, read_decimal,
    split_at_byte,
};

// The sorts of bytes that go on together.
#[derive(Clone, Copy)]
enum Run {
    Comment,
    Name,
    Digits,
    Mac,
}

// A piece at the front of a text: so many bytes, and the kind of a lexeme.
#[derive(Clone, Copy)]
pub struct Front {
    pub length: usize,
    pub kind: Option<Kind>,
}

fn is_blank(byte: u8) -> bool
    ensures { IsTrue result ↔ IsBlank byte }
{
    byte == b' ' || byte == b'\t' || byte == b'\r' || byte == b'\n'
}

fn goes_on(run: Run, byte: u8) -> bool
    ensures { IsTrue result ↔ IsByteOf run byte }
{
    match run {
        Run::Comment => byte != b'\n',
        Run::Name => is_name_byte(byte),
        Run::Digits => {
            byte.is_ascii_alphanumeric() || byte == b'.' || byte == b':' || byte == b'/'
        }
        Run::Mac => is_name_byte(byte) || byte == b':',
    }
}

// How many bytes go on together from the first.
fn run_length(text: &[u8], run: Run) -> usize
    ensures within { result ≤ length text.now }
    ensures each { All (IsByteOf run) (take result text.now) }
    ensures longest { EndsBefore (IsByteOf run) (drop result text.now) }
{
    for (length, byte) in text.iter().enumerate() {
        if !goes_on(run, *byte) {
            return length;
        }
    }
    text.len()
}

fn ends_before(rest: &[u8], run: Run) -> bool
    ensures { IsTrue result ↔ EndsBefore (IsByteOf run) rest.now }
{
    match rest {
        [] => true,
        [next, ..] => !goes_on(run, *next),
    }
}

const MAC_LENGTH: usize = 17;

// The Mac at the front of the text.
fn front_mac(text: &[u8]) -> Option<u64>
    ensures some { IfSome result (λ mac. IsFront text.now 17 (Some (kinds.Mac mac))) }
    ensures none { IfNone result (BeginsNoMac text.now) }
{
    if text.len() < MAC_LENGTH {
        return None;
    }
    let (front, rest) = text.split_at(MAC_LENGTH);
    let mac = mac_value(front)?;
    if ends_before(rest, Run::Mac) {
        Some(mac)
    } else {
        None
    }
}

fn word_of(text: &[u8]) -> Option<Word>
    ensures some { IfSome result (λ word. text.now ≡ spelling word) }
    ensures none { IfNone result ((word : Word) → text.now ≢ spelling word) }
{
    if text == b"true".as_slice() {
        Some(Word::True)
    } else if text == b"false".as_slice() {
        Some(Word::False)
    } else if text == b"and".as_slice() {
        Some(Word::And)
    } else if text == b"or".as_slice() {
        Some(Word::Or)
    } else if text == b"foreach".as_slice() {
        Some(Word::Foreach)
    } else if text == b"in".as_slice() {
        Some(Word::In)
    } else if text == b"cross".as_slice() {
        Some(Word::Cross)
    } else if text == b"default".as_slice() {
        Some(Word::Default)
    } else if text == b"at".as_slice() {
        Some(Word::At)
    } else if text == b"max".as_slice() {
        Some(Word::Max)
    } else if text == b"min".as_slice() {
        Some(Word::Min)
    } else {
        None
    }
}

// What a run of name bytes is.
fn verbal_kind(text: &[u8]) -> Option<Kind>
    ensures some { IfSome result (λ kind. IsLexeme (Some kind) text.now ×
        (sort_of (Some kind) ≡ verbal)) }
    ensures none { IfNone result ((kind : Kind) → sort_of (Some kind) ≡ verbal →
        IsLexeme (Some kind) text.now → ⊥) }
{
    match word_of(text) {
        Some(word) => Some(Kind::Word(word)),
        None if is_name(text) => Some(Kind::Name),
        None => None,
    }
}

// The number of a text, to 65,535.
fn small_number(text: &[u8]) -> Option<u32>
    ensures some { IfSome result (λ n. IsDecimal text.now n × (n ≤ 65535)) }
    ensures none { IfNone result ((n : ℕ) → IsDecimal text.now n → n ≤ 65535 → ⊥) }
{
    let number = read_decimal(text)?;
    if number > 65_535 {
        return None;
    }
    Some(number as u32)
}

// The number of a text, to 32.
fn prefix_length(text: &[u8]) -> Option<u8>
    ensures some { IfSome result (λ n. IsDecimal text.now n × (n ≤ 32)) }
    ensures none { IfNone result ((n : ℕ) → IsDecimal text.now n → n ≤ 32 → ⊥) }
{
    let number = read_decimal(text)?;
    if number > 32 {
        return None;
    }
    Some(number as u8)
}

// The address and the length of a block of addresses, as they are written.
fn prefix_value(text: &[u8]) -> Option<(u32, u8)>
    ensures some { IfSome result (λ r. IsPrefix text.now r.0 r.1) }
    ensures none { IfNone result ((value bits : ℕ) → IsPrefix text.now value bits → ⊥) }
{
    let (address, number) = split_at_byte(text, b'/')?;
    let value = ip_value(address)?;
    let length = prefix_length(number)?;
    Some((value, length))
}

// What a run that begins with a digit is.
fn numeral_kind(text: &[u8]) -> Option<Kind>
    ensures some { IfSome result (λ kind. IsLexeme (Some kind) text.now ×
        (sort_of (Some kind) ≡ numeral)) }
    ensures none { IfNone result ((kind : Kind) → sort_of (Some kind) ≡ numeral →
        IsLexeme (Some kind) text.now → ⊥) }
{
    if let Some(number) = small_number(text) {
        Some(Kind::Number(number))
    } else if let Some(rate) = rate_value(text) {
        Some(Kind::Rate(rate))
    } else if let Some(ip) = ip_value(text) {
        Some(Kind::Ip(ip))
    } else if let Some((value, length)) = prefix_value(text) {
        Some(Kind::Prefix { value, length })
    } else {
        None
    }
}

// The sign of one byte.
fn short_sign(byte: u8) -> Option<Sign>
    ensures some { IfSome result (λ sign. written sign ≡ byte ∷ []) }
    ensures none { IfNone result ((sign : Sign) → written sign ≢ byte ∷ []) }
{
    match byte {
        b'[' => Some(Sign::OpenList),
        b']' => Some(Sign::CloseList),
        b'(' => Some(Sign::OpenGroup),
        b')' => Some(Sign::CloseGroup),
        b'{' => Some(Sign::OpenSet),
        b'}' => Some(Sign::CloseSet),
        b':' => Some(Sign::Colon),
        b';' => Some(Sign::Semicolon),
        b',' => Some(Sign::Comma),
        b'=' => Some(Sign::Equals),
        b'+' => Some(Sign::Plus),
        b'*' => Some(Sign::Star),
        b'!' => Some(Sign::Bang),
        b'.' => Some(Sign::Dot),
        b'|' => Some(Sign::Bar),
        _ => None,
    }
}

// The sign of two bytes at the front of a text.
fn long_sign(text: &[u8]) -> Option<Sign>
    requires { BeginsNoMac text.now }
    ensures some { IfSome result (λ sign.
        IsFront text.now (length (written sign)) (Some (kinds.Sign sign))) }
    ensures no_becomes { IfNone result (take 2 text.now ≢ codes ":=") }
    ensures no_arrow { IfNone result (take 2 text.now ≢ codes "->") }
{
    if text.len() < 2 {
        return None;
    }
    let front = &text[..2];
    if front == b":=".as_slice() {
        Some(Sign::Becomes)
    } else if front == b"->".as_slice() {
        Some(Sign::Arrow)
    } else {
        None
    }
}

// The sign at the front of a text.
fn front_sign(text: &[u8]) -> Option<Sign>
    requires some { 0 < length text.now }
    requires no_mac { BeginsNoMac text.now }
    ensures some { IfSome result (λ sign.
        IsFront text.now (length (written sign)) (Some (kinds.Sign sign))) }
    ensures none { IfNone result ((sign : Sign) (rest : List ℕ) → text.now ≢ written sign ++ rest) }
{
    match long_sign(text) {
        Some(sign) => Some(sign),
        None => short_sign(text[0]),
    }
}

fn sign_length(sign: Sign) -> usize
    ensures { result ≡ length (written sign) }
{
    match sign {
        Sign::Becomes | Sign::Arrow => 2,
        _ => 1,
    }
}

// The name or word at the front of a text that begins with a letter.
fn front_verbal(text: &[u8]) -> Option<Front>
    requires some { 0 < length text.now }
    requires no_mac { BeginsNoMac text.now }
    requires letter { IsLetter (slice_index text.now 0) }
    ensures some { IfSome result (λ front. IsFront text.now front.length front.kind) }
    ensures none { IfNone result (BeginsNoPiece text.now) }
{
    let length = run_length(text, Run::Name);
    let kind = verbal_kind(&text[..length])?;
    Some(Front {
        length,
        kind: Some(kind),
    })
}

// The number, rate or address at the front of a text that begins with a digit.
fn front_numeral(text: &[u8]) -> Option<Front>
    requires some { 0 < length text.now }
    requires no_mac { BeginsNoMac text.now }
    requires digit { IsDigit (slice_index text.now 0) }
    ensures some { IfSome result (λ front. IsFront text.now front.length front.kind) }
    ensures none { IfNone result (BeginsNoPiece text.now) }
{
    let length = run_length(text, Run::Digits);
    let kind = numeral_kind(&text[..length])?;
    Some(Front {
        length,
        kind: Some(kind),
    })
}

// The piece at the front of a text.
pub fn front_of(text: &[u8]) -> Option<Front>
    requires { 0 < length text.now }
    ensures some { IfSome result (λ front. IsFront text.now front.length front.kind) }
    ensures none { IfNone result (BeginsNoPiece text.now) }
{
    if let Some(mac) = front_mac(text) {
        return Some(Front {
            length: MAC_LENGTH,
            kind: Some(Kind::Mac(mac)),
        });
    }
    let first = text[0];
    if is_blank(first) {
        Some(Front {
            length: 1,
            kind: None,
        })
    } else if first == b'#' {
        Some(Front {
            length: run_length(text, Run::Comment),
            kind: None,
        })
    } else if is_letter(first) {
        front_verbal(text)
    } else if is_digit(first) {
        front_numeral(text)
    } else {
        let sign = front_sign(text)?;
        Some(Front {
            length: sign_length(sign),
            kind: Some(Kind::Sign(sign)),
        })
    }
}
