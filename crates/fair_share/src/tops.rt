//! The greatest share beneath each cap.
ghost use Rattle.std.specs.Prelude.{◌≡◌, length, replicate};
ghost use Rattle.fair_share.specs.Shares.{IsForest, HavePlaces, share_rates};
ghost use Rattle.fair_share.specs.Filling.{demands, AreTops};

use crate::cap::{Cap, Tenant};
use crate::climb::top_up;
use crate::share::Share;

// Makes zeros the greatest shares beneath each cap.
pub(crate) fn top_all(caps: &[Cap], tenants: &[Tenant], shares: &[Share], tops: &mut [u64])
    requires forest { IsForest caps.now }
    requires places { HavePlaces caps.now tenants.now }
    requires as_many { length shares.now ≡ length tenants.now }
    requires zeros { tops.old ≡ replicate (length caps.now) 0 }
    ensures { AreTops (demands caps.now tenants.now) (share_rates shares.now) tops.new }
{
    for index in 0..tenants.len() {
        let tenant = &tenants[index];
        top_up(caps, tenant.under, shares[index].rate, tops);
    }
}
