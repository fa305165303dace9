//! Whether rates meet a formula.

ghost use Rattle.std.specs.Prelude.{◌≡◌, ◌↔◌, IsTrue, length};
ghost use Rattle.merlin_model.specs.Rates.{Meets, KeepsBound, total_of, rate_of_part};
ghost use Rattle.rate_formula.specs.Usage.{rate_among};

use crate::formula::Formula;
use merlin_model::Name;
use merlin_model::policy::{Bound, Part, Term};

/// Whether each term holds where these ids use these rates in kbit/s, and any other id uses none. Of an id that stands
/// twice the first rate counts.
pub fn meets(formula: &Formula, ids: &[Name], usage: &[u64]) -> bool
    requires { length ids.now ≡ length usage.now }
    ensures { IsTrue result ↔ Meets (rate_among ids.now usage.now) formula.now.terms }
{
    for term in formula.terms.as_slice() {
        if !keeps_bound(term, ids, usage) {
            return false;
        }
    }
    true
}

/// Whether the sum of a term is within its bound.
fn keeps_bound(term: &Term, ids: &[Name], usage: &[u64]) -> bool
    requires { length ids.now ≡ length usage.now }
    ensures { IsTrue result ↔
        KeepsBound term.now.bound (total_of (rate_among ids.now usage.now) term.now) term.now.rate }
{
    let total = total(term, ids, usage);
    match term.bound {
        Bound::Max => total <= u128::from(term.rate),
        Bound::Min => u128::from(term.rate) <= total,
    }
}

/// The sum of a term.
fn total(term: &Term, ids: &[Name], usage: &[u64]) -> u128
    requires { length ids.now ≡ length usage.now }
    ensures { result ≡ total_of (rate_among ids.now usage.now) term.now }
{
    let mut total: u128 = 0;
    for part in term.parts.as_slice() {
        total += u128::from(rate_of(part, ids, usage));
    }
    total
}

/// The rate that a part of a sum stands for.
fn rate_of(part: &Part, ids: &[Name], usage: &[u64]) -> u64
    requires { length ids.now ≡ length usage.now }
    ensures { result ≡ rate_of_part (rate_among ids.now usage.now) part.now }
{
    match part {
        Part::Id(id) => rate_among(id, ids, usage),
        Part::Constant(rate) => *rate,
    }
}

/// The rate of an id.
fn rate_among(id: &Name, ids: &[Name], usage: &[u64]) -> u64
    requires { length ids.now ≡ length usage.now }
    ensures { result ≡ rate_among ids.now usage.now id.now }
{
    for (place, other) in ids.iter().enumerate() {
        if other.bytes() == id.bytes() {
            return usage[place];
        }
    }
    0
}
