//! The fair division, with a line for each tenant.
ghost use Rattle.std.specs.Prelude.{◌≡◌, ℕ, List, length, IfOk};
ghost use Rattle.std.specs.List.{AllZip};
ghost use Rattle.fair_share.specs.declared.cap.Tenant.{Tenant};
ghost use Rattle.fair_share.specs.Shares.{IsForest, HavePlaces, IsSound, IsBestDivision, share_rates};
ghost use Rattle.fair_share.specs.ShareTexts.{AreShares};
ghost use Rattle.fair_share.specs.Filling.{demands, IsCapPlace, AreUsed, AreTops, IsFinalShare, IsNamed};

use crate::cap::{Cap, Tenant};
use crate::climb::full_cap;
use crate::demands::Demands;
use crate::fill::fill;
use crate::share::Share;
use crate::tops::top_all;
use merlin_base::OutOfMemory;
use std::alloc::Global;

// A tenant's line: the demand, or else the innermost cap that is full and holds no share above its own by more than 1.
fn line_of(caps: &[Cap], tenant: &Tenant, rate: u64, used: &[u128], tops: &[u64]) -> Share
    requires forest { IsForest caps.now }
    requires place { IsCapPlace caps.now tenant.now.under }
    requires used { length used.now ≡ length caps.now }
    requires tops { length tops.now ≡ length caps.now }
    ensures rate { result.rate ≡ rate }
    ensures named { (tenants : List Tenant) (shares : List ℕ) →
        AreUsed (demands caps.now tenants) shares used.now →
        AreTops (demands caps.now tenants) shares tops.now →
        IsFinalShare (demands caps.now tenants) shares tenant.now rate →
        IsNamed (demands caps.now tenants) shares tenant.now result }
{
    if rate == tenant.demand {
        return Share { rate, cap: None };
    }
    let cap = full_cap(caps, tenant.under, used, tops, rate);
    Share { rate, cap }
}

// The fair division of what caps have among tenants.
fn divided(alloc: Global, caps: &[Cap], tenants: &[Tenant]) -> Result<Vec<Share>, OutOfMemory>
    requires forest { IsForest caps.now }
    requires places { HavePlaces caps.now tenants.now }
    ensures sound { IfOk result (λ shares. IsSound (demands caps.now tenants.now) shares.items) }
    ensures named { IfOk result (λ shares.
        AllZip (IsNamed (demands caps.now tenants.now)
        (share_rates shares.items)) tenants.now shares.items) }
{
    let given = fill(alloc, caps, tenants)?;
    let shares = given.shares.as_slice();
    let mut tops = vec![in alloc; 0; caps.len()]?;
    top_all(caps, tenants, shares, &mut tops);
    let mut lines: Vec<Share> = Vec::new(alloc);
    for index in 0..tenants.len() {
        let tenant = &tenants[index];
        let line = line_of(caps, tenant, shares[index].rate, &given.used, &tops);
        lines.push(line)?;
    }
    Ok(lines)
}

/// The fair division in the order of the tenants. Each line names the demand where the share is the demand, else the innermost cap that
/// makes the line right.
///
/// # Errors
/// Where memory ran out.
pub fn divide(alloc: Global, demands: &Demands) -> Result<Vec<Share>, OutOfMemory>
    ensures sound { IfOk result (λ shares. IsSound demands.now shares.items) }
    ensures best { IfOk result (λ shares. IsBestDivision demands.now (share_rates shares.items)) }
    ensures named { IfOk result (λ shares.
        AllZip (IsNamed demands.now (share_rates shares.items)) demands.now.tenants shares.items) }
    ensures lines { IfOk result (λ shares. AreShares demands.now shares.items) }
{
    divided(alloc, &demands.caps, &demands.tenants)
}
