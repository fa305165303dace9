//! What is given beneath each cap, in one pass over the tenants and one over the caps.
//!
//! A cap stands behind the one that it is under, so caps hand what is given directly under them up in the reverse of their order, and each sum is whole when
//! it is handed on: sums over a forest from its leaves.
ghost use Rattle.std.specs.Prelude.{◌≡◌, ◌==◌, ◌<◌, ◌+◌, ◌^◌, ℕ, ⊤, List, length, replicate, slice_index, false, if◌then◌else◌, MatchOption, IfOk};
ghost use Rattle.std.specs.Option.{option_map_or};
ghost use Rattle.fair_share.specs.declared.cap.Tenant.{Tenant};
ghost use Rattle.fair_share.specs.Shares.{IsForest, HavePlaces, share_rates};
ghost use Rattle.fair_share.specs.Filling.{demands, AreDirect, AreUsed, AreSomeDirect};

use crate::cap::{Cap, Tenant};
use crate::share::Share;
use merlin_base::OutOfMemory;
use std::alloc::Global;

// Hands the sums of all caps up.
fn pour(caps: &[Cap], sums: &mut [u128])
    requires forest { IsForest caps.now }
    requires direct { AreSomeDirect caps.now sums.old }
    ensures as_many { length sums.new ≡ length caps.now }
    ensures used { (ts : List Tenant) (xs : List ℕ) → AreDirect caps.now ts xs sums.old →
        AreUsed (demands caps.now ts) xs sums.new }
{
    let mut left = caps.len();
    'caps: while left > 0 {
        left -= 1;
        let cap = &caps[left];
        let sum = sums[left];
        if let Some(above) = cap.under {
            let sum_above = sums[above];
            sums[above] = sum_above + sum;
        }
    }
}

// Adds what a tenant is given to the sum of the cap that it is directly under.
fn add_direct(under: Option<usize>, share: u64, sums: &mut [u128])
    requires place { MatchOption under ⊤ (λ c. c < length sums.old) }
    requires room { (c : ℕ) → c < length sums.old → slice_index sums.old c + share < 2 ^ 128 }
    ensures as_many { length sums.new ≡ length sums.old }
    ensures each { (c : ℕ) → c < length sums.old →
        slice_index sums.new c
        ≡ slice_index sums.old c + (if option_map_or (λ k. k == c) under false then share else 0) }
{
    if let Some(cap) = under {
        let sum = sums[cap];
        sums[cap] = sum + u128::from(share);
    }
}

// Makes zeros the sums of what the tenants beneath each cap are given.
pub(crate) fn sum_up(caps: &[Cap], tenants: &[Tenant], shares: &[Share], sums: &mut [u128])
    requires forest { IsForest caps.now }
    requires places { HavePlaces caps.now tenants.now }
    requires as_many { length shares.now ≡ length tenants.now }
    requires zeros { sums.old ≡ replicate (length caps.now) 0 }
    ensures { AreUsed (demands caps.now tenants.now) (share_rates shares.now) sums.new }
{
    for index in 0..tenants.len() {
        let tenant = &tenants[index];
        add_direct(tenant.under, shares[index].rate, sums);
    }
    pour(caps, sums);
}

// What the tenants beneath each cap are given.
pub(crate) fn sums_of(
    alloc: Global,
    caps: &[Cap],
    tenants: &[Tenant],
    shares: &[Share],
) -> Result<Vec<u128>, OutOfMemory>
    requires forest { IsForest caps.now }
    requires places { HavePlaces caps.now tenants.now }
    requires as_many { length shares.now ≡ length tenants.now }
    ensures { IfOk result (λ sums.
        AreUsed (demands caps.now tenants.now) (share_rates shares.now) sums.items) }
{
    let mut sums = vec![in alloc; 0; caps.len()]?;
    sum_up(caps, tenants, shares, &mut sums);
    Ok(sums)
}
