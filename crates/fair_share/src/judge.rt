//! Whether a division is fair, line by line.
ghost use Rattle.std.specs.Prelude.{◌≡◌, ◌≤◌, ◌↔◌, ℕ, List, length, IfNone, IsTrue, MatchBool, MatchOption};
ghost use Rattle.fair_share.specs.declared.limits.TheConstants.{MAX_CAPS};
ghost use Rattle.fair_share.specs.declared.cap.Tenant.{Tenant};
ghost use Rattle.fair_share.specs.Shares.{IsForest, HavePlaces, IsSound, IsUnsound, IsFirstUnsound, IsBestDivision, share_rates};
ghost use Rattle.fair_share.specs.Filling.{demands, IsCapPlace, AreUsed, AreTops, IsRightBy, IsFine};

use crate::cap::{Cap, Tenant};
use crate::climb::{has_room, is_bound, is_under};
use crate::demands::Demands;
use crate::limits::MAX_CAPS;
use crate::share::Share;
use crate::sums::sum_up;
use crate::tops::top_all;

// Whether a tenant's line is right: the share is the demand, or the cap that it names is above the tenant, full, and holds no share above by
// more than 1.
fn is_right(caps: &[Cap], tenant: &Tenant, share: Share, used: &[u128], tops: &[u64]) -> bool
    requires forest { IsForest caps.now }
    requires place { IsCapPlace caps.now tenant.now.under }
    requires used { length used.now ≡ length caps.now }
    requires tops { length tops.now ≡ length caps.now }
    ensures { IsTrue result ↔ IsRightBy caps.now used.now tops.now tenant.now share }
{
    match share.cap {
        None => share.rate == tenant.demand,
        Some(place) => {
            if !is_under(caps, tenant.under, place) {
                return false;
            }
            let cap = &caps[place];
            is_bound(used[place], cap.rate, tops[place], share.rate)
        }
    }
}

// Whether a tenant's line isn't right, or it is given more than it asks for, or is beneath a cap that is passed.
fn is_unsound(caps: &[Cap], tenant: &Tenant, share: Share, used: &[u128], tops: &[u64]) -> bool
    requires forest { IsForest caps.now }
    requires place { IsCapPlace caps.now tenant.now.under }
    requires used { length used.now ≡ length caps.now }
    requires tops { length tops.now ≡ length caps.now }
    ensures { (tenants : List Tenant) (shares : List ℕ) →
        AreUsed (demands caps.now tenants) shares used.now →
        AreTops (demands caps.now tenants) shares tops.now →
        MatchBool result (IsUnsound (demands caps.now tenants) shares tenant.now share)
        (IsFine (demands caps.now tenants) shares tenant.now share) }
{
    if tenant.demand < share.rate {
        return true;
    }
    if !is_right(caps, tenant, share, used, tops) {
        return true;
    }
    !has_room(caps, tenant.under, used, 0)
}

// The first tenant at fault.
fn first_unsound(
    caps: &[Cap],
    tenants: &[Tenant],
    shares: &[Share],
    used: &[u128],
    tops: &[u64],
) -> Option<usize>
    requires forest { IsForest caps.now }
    requires places { HavePlaces caps.now tenants.now }
    requires as_many { length shares.now ≡ length tenants.now }
    requires used { AreUsed (demands caps.now tenants.now) (share_rates shares.now) used.now }
    requires tops { AreTops (demands caps.now tenants.now) (share_rates shares.now) tops.now }
    ensures { MatchOption result (IsSound (demands caps.now tenants.now) shares.now)
        (IsFirstUnsound (demands caps.now tenants.now) shares.now) }
{
    for index in 0..tenants.len() {
        let tenant = &tenants[index];
        if is_unsound(caps, tenant, shares[index], used, tops) {
            return Some(index);
        }
    }
    None
}

// The first tenant at fault, by sums and tops that are made first.
fn judged(caps: &[Cap], tenants: &[Tenant], shares: &[Share]) -> Option<usize>
    requires few { length caps.now ≤ MAX_CAPS }
    requires forest { IsForest caps.now }
    requires places { HavePlaces caps.now tenants.now }
    requires as_many { length shares.now ≡ length tenants.now }
    ensures { MatchOption result (IsSound (demands caps.now tenants.now) shares.now)
        (IsFirstUnsound (demands caps.now tenants.now) shares.now) }
{
    let mut used = [0; MAX_CAPS];
    let mut tops = [0; MAX_CAPS];
    let used = &mut used[..caps.len()];
    let tops = &mut tops[..caps.len()];
    sum_up(caps, tenants, shares, used);
    top_all(caps, tenants, shares, tops);
    first_unsound(caps, tenants, shares, used, tops)
}

/// The first tenant whose line isn't right, whose share exceeds its demand, or that is beneath a cap that is passed. None where the division is feasible
/// and every line is right; it is then the best there is. It takes no memory.
pub fn fair(demands: &Demands, shares: &[Share]) -> Option<usize>
    requires { length shares.now ≡ length demands.now.tenants }
    ensures sound { MatchOption result (IsSound demands.now shares.now)
        (IsFirstUnsound demands.now shares.now) }
    ensures best { IfNone result (IsBestDivision demands.now (share_rates shares.now)) }
{
    judged(&demands.caps, &demands.tenants, shares)
}
