//! Filling caps: shares rise together, level by level, until caps are full and demands are met.
//!
//! Progressive filling, as it is known from max-min fairness (Bertsekas and Gallager, Data Networks), over whole numbers and caps within caps. All that
//! rise go to a level at once where the division of that level is feasible; how far is found by trying. From a level from which not all can go
//! on together, they go on by 1, those that no short cap holds back together, the others one after the other as long as their caps have room. Who
//! gets nothing then is beneath a cap that is full.
ghost use Rattle.std.specs.Prelude.{◌≡◌, ℕ, ◌≤◌, ◌<◌, ◌+◌, ◌-◌, ◌^◌, ◌↔◌, length, slice_index, slice_index_or, slice_get, false, Some, IsTrue, IfOk, IfSome};
ghost use Rattle.fair_share.specs.declared.cap.Cap.{Cap};
ghost use Rattle.fair_share.specs.declared.cap.Tenant.{Tenant};
ghost use Rattle.fair_share.specs.Shares.{IsForest, HavePlaces, IsFeasible, share_rates};
ghost use Rattle.fair_share.specs.Filling.{demands, AreUsed, IsFilled, IsBetweenLevels, IsRaised, IsFinalShare, share_at};

use crate::cap::{Cap, Tenant};
use crate::climb::{add_up, has_room};
use crate::guess::{common_rise, counts_of, unhindered};
use crate::share::Share;
use crate::sums::sums_of;
use merlin_base::OutOfMemory;
use std::alloc::Global;

// Shares, and what they use of each cap.
#[derive(Drop)]
pub(crate) struct Given {
    pub(crate) shares: Vec<Share>,
    pub(crate) used: Vec<u128>,
}

// What a share becomes at a level.
fn share_of(rises: bool, share: u64, demand: u64, level: u64) -> u64
    ensures { result ≡ share_at rises share demand level }
{
    if !rises {
        share
    } else if level < demand {
        level
    } else {
        demand
    }
}

// The shares in which those that rise have a level, or all that they ask for, and the others what they had.
fn shares_at(
    alloc: Global,
    tenants: &[Tenant],
    shares: &[Share],
    rising: &[bool],
    level: u64,
) -> Result<Vec<Share>, OutOfMemory>
    requires shares { length shares.now ≡ length tenants.now }
    requires rising { length rising.now ≡ length tenants.now }
    ensures as_many { IfOk result (λ next. length next.items ≡ length tenants.now) }
    ensures each { IfOk result (λ next. (i : ℕ) (tenant : Tenant) →
        slice_get tenants.now i ≡ Some tenant →
        slice_index (share_rates next.items) i
        ≡ share_at (slice_index_or rising.now i false) (slice_index
        (share_rates shares.now) i) tenant.demand level) }
{
    let mut next = Vec::with_capacity(alloc, tenants.len())?;
    for index in 0..tenants.len() {
        let tenant = &tenants[index];
        let rate = share_of(rising[index], shares[index].rate, tenant.demand, level);
        next.push(Share { rate, cap: None })?;
    }
    Ok(next)
}

// Whether no cap is passed.
fn are_within(caps: &[Cap], used: &[u128]) -> bool
    requires { length used.now ≡ length caps.now }
    ensures { IsTrue result ↔ ((c : ℕ) (cap : Cap) → slice_get caps.now c ≡ Some cap →
        slice_index used.now c ≤ cap.rate) }
{
    for index in 0..caps.len() {
        let cap = &caps[index];
        if u128::from(cap.rate) < used[index] {
            return false;
        }
    }
    true
}

// The division in which those that rise have a level, or all that they ask for, and the others what they had; none where it passes a cap.
fn at_level(
    alloc: Global,
    caps: &[Cap],
    tenants: &[Tenant],
    shares: &[Share],
    rising: &[bool],
    level: u64,
) -> Result<Option<Given>, OutOfMemory>
    requires forest { IsForest caps.now }
    requires places { HavePlaces caps.now tenants.now }
    requires feasible { IsFeasible (demands caps.now tenants.now) (share_rates shares.now) }
    requires rising { length rising.now ≡ length tenants.now }
    requires shares { length shares.now ≡ length tenants.now }
    ensures { IfOk result (λ found. IfSome found (λ given.
        IsRaised (demands caps.now tenants.now) (share_rates shares.now) rising.now level
        (share_rates given.shares.items) given.used.items)) }
{
    let next = shares_at(alloc, tenants, shares, rising, level)?;
    let used = sums_of(alloc, caps, tenants, &next)?;
    if are_within(caps, &used) {
        Ok(Some(Given { shares: next, used }))
    } else {
        Ok(None)
    }
}

// One more for a tenant that rises from a level and asks for more, where its caps have room; else it is settled.
fn one_more(
    caps: &[Cap],
    tenants: &[Tenant],
    level: u64,
    index: usize,
    shares: &mut [Share],
    rising: &mut [bool],
    used: &mut [u128],
)
    requires forest { IsForest caps.now }
    requires places { HavePlaces caps.now tenants.now }
    requires within { index < length tenants.now }
    requires shares { length shares.old ≡ length tenants.now }
    requires rising { length rising.old ≡ length tenants.now }
    requires used { length used.old ≡ length caps.now }
    ensures shares { length shares.new ≡ length tenants.now }
    ensures rising { length rising.new ≡ length tenants.now }
    ensures used { length used.new ≡ length caps.now }
    ensures step { IsBetweenLevels (demands caps.now tenants.now)
        (share_rates shares.old) rising.old used.old level index →
        IsBetweenLevels (demands caps.now tenants.now)
        (share_rates shares.new) rising.new used.new level (index + 1) }
{
    let tenant = &tenants[index];
    let share = shares[index].rate;
    if !rising[index] {
        return;
    }
    if share > level {
        return;
    }
    if share >= tenant.demand {
        return;
    }
    if !has_room(caps, tenant.under, used, 1) {
        rising[index] = false;
        return;
    }
    add_up(caps, tenant.under, 1, used);
    shares[index] = Share {
        rate: share + 1,
        cap: None,
    };
}

// One more for each in turn that has not gone on from the level.
fn next_level(
    caps: &[Cap],
    tenants: &[Tenant],
    level: u64,
    shares: &mut [Share],
    rising: &mut [bool],
    used: &mut [u128],
)
    requires forest { IsForest caps.now }
    requires places { HavePlaces caps.now tenants.now }
    requires between { IsBetweenLevels (demands caps.now tenants.now)
        (share_rates shares.old) rising.old used.old level 0 }
    ensures { IsFilled (demands caps.now tenants.now)
        (share_rates shares.new) rising.new used.new (level + 1) }
{
    for index in 0..tenants.len() {
        one_more(caps, tenants, level, index, shares, rising, used);
    }
}

// Takes those that no short cap holds back on from a level by 1.
fn take_on(
    alloc: Global,
    caps: &[Cap],
    tenants: &[Tenant],
    level: u64,
    given: &mut Given,
    rising: &[bool],
) -> Result<(), OutOfMemory>
    requires forest { IsForest caps.now }
    requires places { HavePlaces caps.now tenants.now }
    requires below { level < 2 ^ 64 - 1 }
    requires filled { IsFilled (demands caps.now tenants.now)
        (share_rates given.old.shares.items) rising.now given.old.used.items level }
    ensures { IfOk result (λ _. IsBetweenLevels (demands caps.now tenants.now)
        (share_rates given.new.shares.items) rising.now given.new.used.items level 0) }
{
    let counts = counts_of(alloc, caps, tenants, &given.shares, rising)?;
    let easy = unhindered(alloc, caps, tenants, rising, &given.used, &counts)?;
    if let Some(found) = at_level(alloc, caps, tenants, &given.shares, &easy, level + 1)? {
        *given = found;
    }
    Ok(())
}

// The next level to try: some steps on while each was feasible, else half way.
fn next_try(low: u64, high: u64, step: u64, halves: bool) -> u64
    requires { low < high }
    ensures { (low < result) × (result ≤ high) }
{
    if halves || step == 0 {
        high - (high - low) / 2
    } else if high - low < step {
        high
    } else {
        low + step
    }
}

// The step after a level that was feasible: small after the first, then growing.
fn next_step(step: u64, grown: bool) -> u64 {
    if grown { step.saturating_mul(2) } else { 1 }
}

// How far all that rise may go at least.
fn first_step(
    alloc: Global,
    caps: &[Cap],
    tenants: &[Tenant],
    given: &Given,
    rising: &[bool],
) -> Result<u64, OutOfMemory>
    requires forest { IsForest caps.now }
    requires places { HavePlaces caps.now tenants.now }
    requires shares { length given.now.shares.items ≡ length tenants.now }
    requires rising { length rising.now ≡ length tenants.now }
    requires used { length given.now.used.items ≡ length caps.now }
{
    let counts = counts_of(alloc, caps, tenants, &given.shares, rising)?;
    Ok(common_rise(caps, &given.used, &counts))
}

// From a level to a higher one that is feasible: as far as the caps tell, then by growing steps, then by halves.
fn rise(
    alloc: Global,
    caps: &[Cap],
    tenants: &[Tenant],
    level: u64,
    top: u64,
    given: &mut Given,
    rising: &[bool],
) -> Result<u64, OutOfMemory>
    requires forest { IsForest caps.now }
    requires places { HavePlaces caps.now tenants.now }
    requires filled { IsFilled (demands caps.now tenants.now)
        (share_rates given.old.shares.items) rising.now given.old.used.items level }
    requires below { level ≤ top }
    ensures filled { IfOk result (λ higher. IsFilled (demands caps.now tenants.now)
        (share_rates given.new.shares.items) rising.now given.new.used.items higher) }
    ensures bounds { IfOk result (λ higher. (level ≤ higher) × (higher ≤ top)) }
{
    let mut low = level;
    let mut high = top;
    let far = first_step(alloc, caps, tenants, given, rising)?;
    let mut step = far.max(1);
    let mut grown = far == 0;
    let mut halves = false;
    'tries: while low < high {
        let middle = next_try(low, high, step, halves);
        match at_level(alloc, caps, tenants, &given.shares, rising, middle)? {
            Some(found) => {
                *given = found;
                low = middle;
                step = next_step(step, grown);
                grown = true;
            }
            None => {
                high = middle - 1;
                halves = true;
            }
        }
    }
    Ok(low)
}

// The greatest demand.
fn greatest_demand(tenants: &[Tenant]) -> u64
    ensures { (i : ℕ) (tenant : Tenant) → slice_get tenants.now i ≡ Some tenant →
        tenant.demand ≤ result }
{
    let mut top = 0;
    for tenant in tenants {
        if top < tenant.demand {
            top = tenant.demand;
        }
    }
    top
}

// A division in which each tenant has what it asks for or is bounded by a cap, and what it uses of each cap.
pub(crate) fn fill(alloc: Global, caps: &[Cap], tenants: &[Tenant]) -> Result<Given, OutOfMemory>
    requires forest { IsForest caps.now }
    requires places { HavePlaces caps.now tenants.now }
    ensures feasible { IfOk result (λ given. IsFeasible (demands caps.now tenants.now)
        (share_rates given.shares.items)) }
    ensures used { IfOk result (λ given. AreUsed (demands caps.now tenants.now)
        (share_rates given.shares.items) given.used.items) }
    ensures settled { IfOk result (λ given. (i : ℕ) (tenant : Tenant) →
        slice_get tenants.now i ≡ Some tenant →
        IsFinalShare (demands caps.now tenants.now) (share_rates given.shares.items) tenant
        (slice_index (share_rates given.shares.items) i)) }
{
    let top = greatest_demand(tenants);
    let none = Share { rate: 0, cap: None };
    let mut rising = vec![in alloc; true; tenants.len()]?;
    let shares = vec![in alloc; none; tenants.len()]?;
    let used = vec![in alloc; 0; caps.len()]?;
    let mut given = Given { shares, used };
    let mut level = 0;
    'levels: while level < top {
        level = rise(alloc, caps, tenants, level, top, &mut given, &rising)?;
        if level < top {
            take_on(alloc, caps, tenants, level, &mut given, &rising)?;
            next_level(
                caps,
                tenants,
                level,
                &mut given.shares,
                &mut rising,
                &mut given.used,
            );
            level += 1;
        }
    }
    Ok(given)
}
