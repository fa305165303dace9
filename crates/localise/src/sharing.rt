//! How a term is divided among its ids.

ghost use Rattle.std.specs.Prelude.{◌≡◌, ◌<◌, ◌+◌, [], List, ℕ, IfSome, IfNone, length, sum_by};
ghost use Rattle.std.specs.Option.{option_map};
ghost use Rattle.merlin_model.specs.Rates.{share, constant_of_part, amount_of, ids_of};
ghost use Rattle.localise.specs.Faults.{repeats_in, repeated_ids};
ghost use Rattle.localise.specs.Limits.{held_for, together, limits_in, limits_of};

use crate::table::{Table, note};
use merlin_model::policy::{Part, Term};

/// The share at a place, counted from 0, of an amount that is divided among so many parts. Shares differ by at most 1, the first are the larger
/// ones, and all sum to the amount.
pub fn share(amount: u64, parts: u64, place: u64) -> u64
    requires { place < parts }
    ensures { result ≡ share amount parts place }
{
    let whole = amount / parts;
    if place < amount % parts {
        whole + 1
    } else {
        whole
    }
}

// The rate of a constant; an id has none.
fn constant_of(part: &Part) -> u64
    ensures { result ≡ constant_of_part part.now }
{
    match part {
        Part::Id(_) => 0,
        Part::Constant(rate) => *rate,
    }
}

// What the constants of a term leave of its rate. None where they sum above it.
pub(crate) fn left_of(term: &Term) -> Option<u64>
    ensures some { IfSome result (λ left.
        left + sum_by constant_of_part term.now.parts ≡ term.now.rate) }
    ensures none { IfNone result (term.now.rate < sum_by constant_of_part term.now.parts) }
{
    let mut left = term.rate;
    for part in term.parts.as_slice() {
        left = left.checked_sub(constant_of(part))?;
    }
    Some(left)
}

// What is divided among the ids of a term.
fn amount(term: &Term) -> u64
    ensures { result ≡ amount_of term.now }
{
    left_of(term).unwrap_or(0)
}

// How many ids a term has.
fn id_count(term: &Term) -> u64
    ensures { result ≡ length (ids_of term.now) }
{
    let mut count = 0;
    for part in term.parts.as_slice() {
        if let Part::Id(_) = part {
            count += 1;
        }
    }
    count
}

// Notes the share of each id in a term.
fn share_term(table: &mut Table<'_>, term: &Term)
    requires { repeats_in (ids_of term.now) ≡ [] }
    ensures { (name : List ℕ) → held_for table.new name ≡
        option_map (λ l. together l (limits_in name term.now)) (held_for table.old name) }
{
    let amount = amount(term);
    let count = id_count(term);
    let mut place = 0;
    for part in term.parts.as_slice() {
        let Part::Id(id) = part else { continue };
        note(table, id, term.bound, share(amount, count, place));
        place += 1;
    }
}

// Notes the shares of all ids in all terms.
pub(crate) fn share_all(table: &mut Table<'_>, terms: &[Term])
    requires { repeated_ids terms.now ≡ [] }
    ensures { (name : List ℕ) → held_for table.new name ≡
        option_map (λ l. together l (limits_of terms.now name)) (held_for table.old name) }
{
    for term in terms {
        share_term(table, term);
    }
}
