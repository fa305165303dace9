//! From a tenant up through its caps.
ghost use Rattle.std.specs.Prelude.{◌≡◌, ℕ, ◌≤◌, ◌<◌, ◌+◌, ◌↔◌, max, true, IsTrue, length, slice_index, Bool, MatchBool, MatchOption, if◌then◌else◌};
ghost use Rattle.fair_share.specs.Shares.{IsForest, is_on_way};
ghost use Rattle.fair_share.specs.Filling.{IsCapPlace, HaveRoomAbove, IsBlocked, IsFullAt, IsInnermost};

use crate::cap::Cap;

// Whether each cap from a place up has room for an amount beside what is used.
pub(crate) fn has_room(caps: &[Cap], start: Option<usize>, used: &[u128], amount: u128) -> bool
    requires forest { IsForest caps.now }
    requires place { IsCapPlace caps.now start }
    requires as_many { length used.now ≡ length caps.now }
    ensures { MatchBool result (HaveRoomAbove caps.now start used.now amount)
        (IsBlocked caps.now start used.now amount) }
{
    let mut at = start;
    let mut left = caps.len();
    'up: while left > 0 {
        let Some(place) = at else {
            return true;
        };
        let cap = &caps[place];
        let rate = u128::from(cap.rate);
        let taken = used[place];
        if rate < taken || rate - taken < amount {
            return false;
        }
        at = cap.under;
        left -= 1;
    }
    true
}

// Adds an amount to what is used of each cap from a place up.
pub(crate) fn add_up(caps: &[Cap], start: Option<usize>, amount: u128, used: &mut [u128])
    requires forest { IsForest caps.now }
    requires place { IsCapPlace caps.now start }
    requires as_many { length used.old ≡ length caps.now }
    requires room { HaveRoomAbove caps.now start used.old amount }
    ensures as_many { length used.new ≡ length caps.now }
    ensures each { (c : ℕ) → c < length caps.now →
        slice_index used.new c ≡ slice_index used.old c + (if is_on_way caps.now
        (length caps.now) start c then amount else 0) }
{
    let mut at = start;
    let mut left = caps.len();
    'up: while left > 0 {
        let Some(place) = at else {
            return;
        };
        let cap = &caps[place];
        let _rate = cap.rate;
        let taken = used[place];
        used[place] = taken + amount;
        at = cap.under;
        left -= 1;
    }
}

// The greater of two numbers.
fn greater(a: u64, b: u64) -> u64
    ensures { result ≡ max a b }
{
    if a < b { b } else { a }
}

// Raises the top of each cap from a place up to a share.
pub(crate) fn top_up(caps: &[Cap], start: Option<usize>, share: u64, tops: &mut [u64])
    requires forest { IsForest caps.now }
    requires place { IsCapPlace caps.now start }
    requires as_many { length tops.old ≡ length caps.now }
    ensures as_many { length tops.new ≡ length caps.now }
    ensures each { (c m : ℕ) → c < length caps.now →
        (slice_index tops.new c ≤ m) ↔ ((slice_index tops.old c ≤ m) × (is_on_way caps.now
        (length caps.now) start c ≡ true → share ≤ m)) }
{
    let mut at = start;
    let mut left = caps.len();
    'up: while left > 0 {
        let Some(place) = at else {
            return;
        };
        let cap = &caps[place];
        tops[place] = greater(tops[place], share);
        at = cap.under;
        left -= 1;
    }
}

// Whether a cap is full and its top is above a share by at most 1.
pub(crate) fn is_bound(used: u128, rate: u64, top: u64, share: u64) -> bool
    ensures { IsTrue result ↔ ((used ≡ rate) × (top ≤ share + 1)) }
{
    used == u128::from(rate) && (top <= share || top - share == 1)
}

// The innermost cap from a place up that is full and holds no share above one by more than 1.
pub(crate) fn full_cap(
    caps: &[Cap],
    start: Option<usize>,
    used: &[u128],
    tops: &[u64],
    share: u64,
) -> Option<usize>
    requires forest { IsForest caps.now }
    requires place { IsCapPlace caps.now start }
    requires used { length used.now ≡ length caps.now }
    requires tops { length tops.now ≡ length caps.now }
    ensures { MatchOption result ((c : ℕ) →
        ¬ IsFullAt caps.now start used.now tops.now share c)
        (IsInnermost caps.now start used.now tops.now share) }
{
    let mut at = start;
    let mut left = caps.len();
    'up: while left > 0 {
        let Some(place) = at else {
            return None;
        };
        let cap = &caps[place];
        if is_bound(used[place], cap.rate, tops[place], share) {
            return Some(place);
        }
        at = cap.under;
        left -= 1;
    }
    None
}

// Whether a cap is met on the way up from a place.
pub(crate) fn is_under(caps: &[Cap], start: Option<usize>, wanted: usize) -> bool
    requires forest { IsForest caps.now }
    requires place { IsCapPlace caps.now start }
    ensures is { result ≡ is_on_way caps.now (length caps.now) start wanted }
    ensures within { IsTrue result → wanted < length caps.now }
{
    let mut at = start;
    let mut left = caps.len();
    'up: while left > 0 {
        let Some(place) = at else {
            return false;
        };
        if place == wanted {
            return true;
        }
        let cap = &caps[place];
        at = cap.under;
        left -= 1;
    }
    false
}
