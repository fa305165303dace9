//! Divisions as texts, a line for each tenant.
ghost use Rattle.std.specs.Prelude.{◌≡◌, ◌++◌, ◌∷◌, [], ◌<◌, ◌≤◌, ℕ, ⊤, List, OnOk, IfOk, IfErr, IfSome, IfNone, Option, MatchOption, Some, slice_get, length};
ghost use Rattle.std.specs.Fmt.{decimal};
ghost use Rattle.fair_share.specs.declared.share.Share.{Share};
ghost use Rattle.fair_share.specs.declared.cap.Tenant.{Tenant};
ghost use Rattle.merlin_model.specs.declared.limits.TheConstants.{MAX_RATE};
ghost use Rattle.fair_share.specs.declared.share_text.SharesFault.TheVariants as fault;
ghost use Rattle.fair_share.specs.Filling.{demands};
ghost use Rattle.fair_share.specs.ShareTexts.{AreNamed, HaveNames, AreShares, cap_bound_text, share_lines, share_words, share_line, IsShare, IsSharesText, IsSharesFault};

use crate::cap::{Cap, Tenant};
use crate::demands::Demands;
use crate::names::cap_named;
use crate::share::Share;
use merlin_base::{Name, OutOfMemory, name_from, read_number, split_at_byte, strip_front};
use merlin_model::limits::MAX_RATE;
use std::alloc::{AllocError, AllocFailed, Global};

/// Why a text is no division: the start of the first line that is wrong or unfinished, or the length where lines are missing.
#[derive(Clone, Copy)]
pub enum SharesFault {
    BadShares { at: usize },
    OutOfMemory,
}

impl From<AllocError> for SharesFault {
    ghost from_gives = { λ _ gives. gives ≡ fault.OutOfMemory };

    fn from(_: AllocError) -> Self {
        SharesFault::OutOfMemory
    }
}

impl<T: Drop> From<AllocFailed<T>> for SharesFault {
    ghost from_gives = { λ _ gives. gives ≡ fault.OutOfMemory };

    fn from(_: AllocFailed<T>) -> Self {
        SharesFault::OutOfMemory
    }
}

// The rate that the text is, within its limit.
fn rate_of(text: &[u8]) -> Option<u64>
    ensures some { IfSome result (λ rate. (text.now ≡ decimal rate) × (rate ≤ MAX_RATE)) }
    ensures none { IfNone result ((rate : ℕ) → rate ≤ MAX_RATE → ¬ (text.now ≡ decimal rate)) }
{
    let number = read_number(text)?;
    let rate = number as u64;
    if rate <= MAX_RATE { Some(rate) } else { None }
}

// The bound with which the text begins, up to the newline, and what stands behind that.
fn read_bound<'t>(caps: &[Cap], text: &'t [u8]) -> Option<(Option<usize>, &'t [u8])>
    requires { AreNamed caps.now }
    ensures some { IfSome result (λ r. (text.now ≡
        (cap_bound_text caps.now r.0 ++ 10 ∷ []) ++ r.1.now)
        × MatchOption r.0 ⊤ (λ c. c < length caps.now)) }
    ensures none { IfNone result ((cap : Option ℕ) (rest : List ℕ) →
        MatchOption cap ⊤ (λ c. c < length caps.now) →
        ¬ (text.now ≡ (cap_bound_text caps.now cap ++ 10 ∷ []) ++ rest)) }
{
    if let Some(rest) = strip_front(text, b"demand\n") {
        return Some((None, rest));
    }
    let named = strip_front(text, b"cap ")?;
    let (name, rest) = split_at_byte(named, b'\n')?;
    let cap = cap_named(caps, name)?;
    Some((Some(cap), rest))
}

// The share of a tenant with whose line the text begins, and what stands behind that line.
fn read_share<'t>(caps: &[Cap], tenant: &Tenant, text: &'t [u8]) -> Option<(Share, &'t [u8])>
    requires { AreNamed caps.now }
    ensures some { IfSome result (λ r. (text.now ≡ share_line caps.now tenant.now r.0 ++ r.1.now)
        × IsShare caps.now r.0) }
    ensures none { IfNone result ((share : Share) (rest : List ℕ) → IsShare caps.now share →
        ¬ (text.now ≡ share_line caps.now tenant.now share ++ rest)) }
{
    let named = strip_front(text, b"share ")?;
    let behind = strip_front(named, tenant.name.bytes())?;
    let number = strip_front(behind, b" ")?;
    let (digits, unit) = split_at_byte(number, b'k')?;
    let rate = rate_of(digits)?;
    let bound = strip_front(unit, b"bps ")?;
    let (cap, rest) = read_bound(caps, bound)?;
    Some((Share { rate, cap }, rest))
}

// The shares of tenants whose lines the text is, or the start of the first wrong line.
fn read_lines(
    alloc: Global,
    caps: &[Cap],
    tenants: &[Tenant],
    text: &[u8],
) -> Result<Vec<Share>, SharesFault>
    requires caps { AreNamed caps.now }
    requires tenants { HaveNames tenants.now }
    ensures ok { IfOk result (λ shares. IsSharesText
        (demands caps.now tenants.now) text.now shares.items) }
    ensures err { IfErr result (IsSharesFault (demands caps.now tenants.now) text.now) }
{
    let mut shares = Vec::with_capacity(alloc, tenants.len())?;
    let mut rest = text;
    for index in 0..tenants.len() {
        let tenant = &tenants[index];
        let Some((share, others)) = read_share(caps, tenant, rest) else {
            let at = text.len() - rest.len();
            return Err(SharesFault::BadShares { at });
        };
        shares.push(share)?;
        rest = others;
    }
    if !rest.is_empty() {
        let at = text.len() - rest.len();
        return Err(SharesFault::BadShares { at });
    }
    Ok(shares)
}

/// The division that a text stands for: a share for each tenant.
///
/// # Errors
/// `BadShares` where the text is no list of such lines, with the start of the first line that is wrong or unfinished, or the length where lines are missing;
/// `OutOfMemory` where memory ran out.
pub fn read_shares(
    alloc: Global,
    bytes: &[u8],
    demands: &Demands,
) -> Result<Vec<Share>, SharesFault>
    ensures ok { IfOk result (λ shares. IsSharesText demands.now bytes.now shares.items) }
    ensures only { IfOk result (λ shares. (other : List Share) →
        IsSharesText demands.now bytes.now other → other ≡ shares.items) }
    ensures err { IfErr result (IsSharesFault demands.now bytes.now) }
{
    read_lines(alloc, &demands.caps, &demands.tenants, bytes)
}

// Adds the text of a bound.
fn push_bound(caps: &[Cap], cap: Option<usize>, text: &mut Vec<u8>) -> Result<(), OutOfMemory>
    requires { MatchOption cap ⊤ (λ c. c < length caps.now) }
    ensures { OnOk result (text.new.items ≡ text.old.items ++ cap_bound_text caps.now cap) }
{
    match cap {
        None => text.extend_from_slice(b"demand")?,
        Some(cap) => {
            text.extend_from_slice(b"cap ")?;
            text.extend_from_slice(caps[cap].name.bytes())?;
        }
    }
    Ok(())
}

// The line of a tenant.
fn line_text(
    alloc: Global,
    caps: &[Cap],
    tenant: &Tenant,
    share: Share,
) -> Result<Name, OutOfMemory>
    requires { IsShare caps.now share }
    ensures { IfOk result (λ line. line ≡ share_line caps.now tenant.now share) }
{
    let rate = share.rate;
    let rate = format!(in alloc; " {rate}kbps ")?;
    let mut text = Vec::from_slice(alloc, b"share ")?;
    text.extend_from_slice(tenant.name.bytes())?;
    text.extend_from_slice(rate.as_bytes())?;
    push_bound(caps, share.cap, &mut text)?;
    text.push(b'\n')?;
    name_from(alloc, &text)
}

// The lines of tenants.
fn lines_of(
    alloc: Global,
    caps: &[Cap],
    tenants: &[Tenant],
    shares: &[Share],
) -> Result<Vec<Name>, OutOfMemory>
    requires { AreShares (demands caps.now tenants.now) shares.now }
    ensures { IfOk result (λ lines. lines.items ≡ share_lines
        (demands caps.now tenants.now) shares.now) }
{
    let mut lines = Vec::with_capacity(alloc, tenants.len())?;
    for index in 0..tenants.len() {
        let tenant = &tenants[index];
        let line = line_text(alloc, caps, tenant, shares[index])?;
        lines.push(line)?;
    }
    Ok(lines)
}

/// The lines of a division, each with its newline. Together they are the text that `read_shares` reads.
///
/// # Errors
/// Where memory ran out.
pub fn print_shares(
    alloc: Global,
    demands: &Demands,
    shares: &[Share],
) -> Result<Vec<Name>, OutOfMemory>
    requires { AreShares demands.now shares.now }
    ensures { IfOk result (λ lines. lines.items ≡ share_lines demands.now shares.now) }
{
    lines_of(alloc, &demands.caps, &demands.tenants, shares)
}
