//! Laws about divisions. Each is the contract of a function that does nothing.

ghost use Rattle.std.specs.Prelude.{◌≡◌, ℕ, ◌≤◌, ◌<◌, ◌+◌, List, map, sum, sum_by, min, length, slice_index, slice_set, slice_get, Some, if◌then◌else◌};
ghost use Rattle.fair_share.specs.declared.share.Share.{Share};
ghost use Rattle.fair_share.specs.Shares.{Demands, IsDemands, AreNested, IsFeasible, AreRight, IsSound, IsFirstUnsound, share_rates, IsBestDivision};
ghost use Rattle.fair_share.specs.Shares.{IsAscendingForm, IsBoundBy, shares_beneath, is_beneath};
ghost use Rattle.fair_share.specs.Filling.{AreUsed, HaveRoomAbove};
ghost use Rattle.fair_share.specs.Examples.{campus, campus_shares};
ghost use Rattle.fair_share.specs.declared.cap.Tenant.{Tenant};
ghost use Rattle.fair_share.specs.declared.fault.DemandFault.{DemandFault};
ghost use Rattle.fair_share.specs.declared.fault.DemandFault.TheVariants as fault;
ghost use Rattle.fair_share.specs.Reading.{IsDemandsText, RefusesDemands};
ghost use Rattle.fair_share.specs.ShareTexts.{IsSharesText};

/// A division that keeps to demands and caps, and of which each line is right, is best.
pub fn right_lines_are_best()
    ensures level { (d : Demands) (shares : List Share) → AreNested d →
        IsFeasible d (share_rates shares) → AreRight d shares →
        (t : ℕ) (other : List ℕ) → IsFeasible d other →
        sum_by (min t) other ≤ sum_by (min t) (share_rates shares) }
    ensures best { (d : Demands) (shares : List Share) → AreNested d →
        IsFeasible d (share_rates shares) → AreRight d shares →
        IsBestDivision d (share_rates shares) }
{}

/// Bytes stand for one list of caps and one of tenants, which keep the rules, and are not refused besides.
pub fn one_demands()
    ensures one { (bytes : List ℕ) (d other : Demands) → IsDemandsText bytes d →
        IsDemandsText bytes other → d ≡ other }
    ensures apart { (bytes : List ℕ) (d : Demands) (cause : DemandFault) →
        IsDemandsText bytes d → RefusesDemands bytes cause → cause ≡ fault.OutOfMemory }
    ensures keeps { (bytes : List ℕ) (d : Demands) → IsDemandsText bytes d → IsDemands d }
{}

/// Bytes stand for one division. It is sound, or one tenant is the first at fault, and not both.
pub fn one_verdict()
    ensures division { (d : Demands) (bytes : List ℕ) (shares other : List Share) → IsDemands d →
        IsSharesText d bytes shares → IsSharesText d bytes other → shares ≡ other }
    ensures apart { (d : Demands) (shares : List Share) (place : ℕ) → IsSound d shares →
        ¬ IsFirstUnsound d shares place }
    ensures first { (d : Demands) (shares : List Share) (place other : ℕ) →
        IsFirstUnsound d shares place → IsFirstUnsound d shares other → other ≡ place }
{}

/// Numbers can be put in order.
pub fn any_list_in_order()
    ensures { (xs : List ℕ) → (ys : List ℕ) × IsAscendingForm xs ys }
{}

/// Where shares only rise and stay feasible, the cap that bounds a share that stays bounds it still.
pub fn rising_keeps_bounds()
    ensures { (d : Demands) (shares higher : List ℕ) (tenant : Tenant) (share c : ℕ) →
        IsFeasible d higher → length shares ≡ length d.tenants → length higher ≡ length shares →
        ((i : ℕ) → i < length shares → slice_index shares i ≤ slice_index higher i) →
        IsBoundBy d shares tenant share c → IsBoundBy d higher tenant share c }
{}

/// One more for a tenant that asks for more is feasible where each cap above it has room.
pub fn one_more_is_feasible()
    ensures feasible { (d : Demands) (shares used : List ℕ) (i : ℕ) (tenant : Tenant) →
        IsFeasible d shares → AreUsed d shares used → slice_get d.tenants i ≡ Some tenant →
        slice_index shares i < tenant.demand → HaveRoomAbove d.caps tenant.under used 1 →
        IsFeasible d (slice_set shares i (slice_index shares i + 1)) }
    ensures used { (d : Demands) (shares : List ℕ) (i c more : ℕ) (tenant : Tenant) →
        length shares ≡ length d.tenants → slice_get d.tenants i ≡ Some tenant →
        sum (shares_beneath d c (slice_set shares i (slice_index shares i + more))) ≡ sum
        (shares_beneath d c shares) + (if is_beneath d c tenant then more else 0) }
{}

/// In the worked example the lab is shared evenly, and the rest of the campus goes to z; with less for z its line isn't right, with x above y by more than 1 the
/// line of y isn't, and with more for z the campus is passed.
pub fn worked_division()
    ensures feasible { IsFeasible campus (share_rates (campus_shares 10 10 25)) }
    ensures right { AreRight campus (campus_shares 10 10 25) }
    ensures best { IsBestDivision campus (share_rates (campus_shares 10 10 25)) }
    ensures not_full { ¬ AreRight campus (campus_shares 10 10 24) }
    ensures uneven { ¬ AreRight campus (campus_shares 12 8 25) }
    ensures passed { ¬ IsFeasible campus (share_rates (campus_shares 10 10 26)) }
{}
