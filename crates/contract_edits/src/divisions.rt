//! Demands and their divisions, as they are read, made and judged.

ghost use Rattle.std.specs.Prelude.{◌≡◌, List, length, IfOk, IfErr, IfNone, MatchOption};
ghost use Rattle.std.specs.List.{AllZip};
ghost use Rattle.fair_share.specs.declared.share.Share.{Share};
ghost use Rattle.fair_share.specs.Shares.{IsSound, IsFirstUnsound, IsBestDivision, share_rates};
ghost use Rattle.fair_share.specs.Filling.{IsNamed};
ghost use Rattle.fair_share.specs.Reading.{IsDemandsText, RefusesDemands};
ghost use Rattle.fair_share.specs.ShareTexts.{AreShares, IsSharesText, IsSharesFault};

use fair_share::{DemandFault, Demands, Share, SharesFault, divide, fair, read, read_shares};
use merlin_base::OutOfMemory;
use std::alloc::Global;

/// What `read` answers.
pub fn demands(alloc: Global, bytes: &[u8]) -> Result<Demands, DemandFault>
    ensures ok { IfOk result (IsDemandsText bytes.now) }
    ensures err { IfErr result (RefusesDemands bytes.now) }
{
    match read(alloc, bytes) {
        Ok(demands) => Ok(demands),
        Err(fault) => Err(fault),
    }
}

/// What `divide` answers.
pub fn division(alloc: Global, demands: &Demands) -> Result<Vec<Share>, OutOfMemory>
    ensures sound { IfOk result (λ shares. IsSound demands.now shares.items) }
    ensures best { IfOk result (λ shares. IsBestDivision demands.now (share_rates shares.items)) }
    ensures named { IfOk result (λ shares.
        AllZip (IsNamed demands.now (share_rates shares.items)) demands.now.tenants shares.items) }
    ensures lines { IfOk result (λ shares. AreShares demands.now shares.items) }
{
    divide(alloc, demands)
}

/// What `read_shares` answers.
pub fn written_division(
    alloc: Global,
    bytes: &[u8],
    demands: &Demands,
) -> Result<Vec<Share>, SharesFault>
    ensures ok { IfOk result (λ shares. IsSharesText demands.now bytes.now shares.items) }
    ensures only { IfOk result (λ shares. (other : List Share) →
        IsSharesText demands.now bytes.now other → other ≡ shares.items) }
    ensures err { IfErr result (IsSharesFault demands.now bytes.now) }
{
    read_shares(alloc, bytes, demands)
}

/// What `fair` answers.
pub fn first_at_fault(demands: &Demands, shares: &[Share]) -> Option<usize>
    requires { length shares.now ≡ length demands.now.tenants }
    ensures sound { MatchOption result (IsSound demands.now shares.now)
        (IsFirstUnsound demands.now shares.now) }
    ensures best { IfNone result (IsBestDivision demands.now (share_rates shares.now)) }
{
    fair(demands, shares)
}
