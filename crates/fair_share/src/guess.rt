//! How far shares may rise together. What is found here is tried and not trusted: no proof rests on it.
ghost use Rattle.std.specs.Prelude.{◌≡◌, ℕ, length, slice_index_or, false, true, IfOk};
ghost use Rattle.fair_share.specs.Shares.{IsForest, HavePlaces};

use crate::cap::{Cap, Tenant};
use crate::share::Share;
use crate::sums::sums_of;
use merlin_base::OutOfMemory;
use std::alloc::Global;

// 1 for each tenant that rises and asks for more, else 0.
fn ones_of(
    alloc: Global,
    tenants: &[Tenant],
    shares: &[Share],
    rising: &[bool],
) -> Result<Vec<Share>, OutOfMemory>
    requires shares { length shares.now ≡ length tenants.now }
    requires rising { length rising.now ≡ length tenants.now }
    ensures { IfOk result (λ ones. length ones.items ≡ length tenants.now) }
{
    let mut ones = Vec::with_capacity(alloc, tenants.len())?;
    for index in 0..tenants.len() {
        let asks_more = rising[index] && shares[index].rate < tenants[index].demand;
        ones.push(Share {
            rate: u64::from(asks_more),
            cap: None,
        })?;
    }
    Ok(ones)
}

// How many tenants beneath each cap rise and ask for more.
pub(crate) fn counts_of(
    alloc: Global,
    caps: &[Cap],
    tenants: &[Tenant],
    shares: &[Share],
    rising: &[bool],
) -> Result<Vec<u128>, OutOfMemory>
    requires forest { IsForest caps.now }
    requires places { HavePlaces caps.now tenants.now }
    requires shares { length shares.now ≡ length tenants.now }
    requires rising { length rising.now ≡ length tenants.now }
    ensures { IfOk result (λ counts. length counts.items ≡ length caps.now) }
{
    let ones = ones_of(alloc, tenants, shares, rising)?;
    sums_of(alloc, caps, tenants, &ones)
}

// How far each of so many may rise in what room a cap has left; as far as they like where there is none of them.
fn share_in_room(rate: u64, used: u128, count: u128) -> u64 {
    if count == 0 {
        return u64::MAX;
    }
    let share = u128::from(rate).saturating_sub(used) / count;
    u64::try_from(share).unwrap_or(u64::MAX)
}

// How far all that rise may go, as each cap by itself has room.
pub(crate) fn common_rise(caps: &[Cap], used: &[u128], counts: &[u128]) -> u64
    requires used { length used.now ≡ length caps.now }
    requires counts { length counts.now ≡ length caps.now }
{
    let mut far = u64::MAX;
    for index in 0..caps.len() {
        far = far.min(share_in_room(caps[index].rate, used[index], counts[index]));
    }
    far
}

// Which caps can't give 1 to each that asks, or are under such a cap.
fn scarce_caps(
    alloc: Global,
    caps: &[Cap],
    used: &[u128],
    counts: &[u128],
) -> Result<Vec<bool>, OutOfMemory>
    requires forest { IsForest caps.now }
    requires used { length used.now ≡ length caps.now }
    requires counts { length counts.now ≡ length caps.now }
    ensures { IfOk result (λ scarce. length scarce.items ≡ length caps.now) }
{
    let mut scarce = Vec::with_capacity(alloc, caps.len())?;
    for index in 0..caps.len() {
        let cap = &caps[index];
        let short = u128::from(cap.rate).saturating_sub(used[index]) < counts[index];
        scarce.push(short || is_scarce(&scarce, cap.under))?;
    }
    Ok(scarce)
}

fn is_scarce(scarce: &[bool], under: Option<usize>) -> bool {
    match under {
        Some(cap) => cap < scarce.len() && scarce[cap],
        None => false,
    }
}

// Of those that rise, the tenants beneath no cap that is short.
pub(crate) fn unhindered(
    alloc: Global,
    caps: &[Cap],
    tenants: &[Tenant],
    rising: &[bool],
    used: &[u128],
    counts: &[u128],
) -> Result<Vec<bool>, OutOfMemory>
    requires forest { IsForest caps.now }
    requires used { length used.now ≡ length caps.now }
    requires counts { length counts.now ≡ length caps.now }
    requires rising { length rising.now ≡ length tenants.now }
    ensures as_many { IfOk result (λ easy. length easy.items ≡ length tenants.now) }
    ensures rise { IfOk result (λ easy. (i : ℕ) → slice_index_or easy.items i false ≡ true →
        slice_index_or rising.now i false ≡ true) }
{
    let scarce = scarce_caps(alloc, caps, used, counts)?;
    let mut easy = Vec::with_capacity(alloc, tenants.len())?;
    for index in 0..tenants.len() {
        easy.push(rising[index] && !is_scarce(&scarce, tenants[index].under))?;
    }
    Ok(easy)
}
