//! How many classes the predicates have.

ghost use Rattle.std.specs.Prelude.{◌≡◌, ◌≤◌, ◌<◌, ◌⊎◌, [], ◌∷◌, false, not, filter, IfOk, IfSome, MatchOption};
ghost use Rattle.std.specs.List.{list_all};
ghost use Rattle.predicate_logic.specs.Residues.{residues};
ghost use Rattle.predicate_split.specs.Classes.{is_decided as decided, proto_with, class_count};

use crate::parts::parts;
use merlin_model::OutOfMemory;
use merlin_model::policy::{Field, Pred};
use predicate_logic::{all_alike, partial};
use sqlite_items::Items;
use std::alloc::Global;

/// Whether the predicate is Yes or No.
pub(crate) fn is_decided(pred: &Pred) -> bool
    ensures { result ≡ decided pred.now }
{
    matches!(pred, Pred::Yes | Pred::No)
}

/// Whether the predicates are all Yes or No.
fn are_decided(preds: &[Pred]) -> bool
    ensures { result ≡ list_all decided preds.now }
{
    preds.iter().all(is_decided)
}

/// What is left of the predicates, without what is Yes or No.
fn open_residues(
    alloc: Global,
    preds: &[Pred],
    field: Field,
    value: u64,
) -> Result<Items<Pred>, OutOfMemory>
    ensures { IfOk result (λ rest. rest ≡
        filter (λ pred. not (decided pred)) (residues field value preds.now)) }
{
    let mut open = Items::new(alloc);
    for pred in preds {
        let left = partial(alloc, pred, field, value)?;
        if !is_decided(&left) {
            open.push(left)?;
        }
    }
    Ok(open)
}

/// The protocol once a field is fixed.
fn proto_after(field: Field, value: u64, proto: u64) -> u64
    ensures { result ≡ proto_with field value proto }
{
    match field {
        Field::Proto => value,
        _ => proto,
    }
}

/// The count, if there is room for it.
fn within(count: u64, room: u64) -> Option<u64>
    ensures { MatchOption result (room < count) (λ n. (n ≡ count) × (n ≤ room)) }
{
    if count <= room { Some(count) } else { None }
}

/// The number of classes, or None where there is no room for so many.
#[cycle(count_from)]
pub(crate) fn count_from(
    alloc: Global,
    preds: &[Pred],
    fields: &[Field],
    proto: u64,
    room: u64,
) -> Result<Option<u64>, OutOfMemory>
    ensures { IfOk result (λ found. MatchOption found
        (room < class_count fields.now proto preds.now)
        (λ n. (n ≡ class_count fields.now proto preds.now) × (n ≤ room))) }
{
    if are_decided(preds) {
        return Ok(within(1, room));
    }
    match fields.split_first() {
        Some((field, rest)) => count_within(alloc, preds, *field, rest, proto, room),
        None => Ok(within(1, room)),
    }
}

/// Predicates whose classes were counted.
#[derive(Drop)]
struct Counted {
    preds: Items<Pred>,
    proto: u64,
    count: u64,
}

/// What was counted last, and what was counted before it and is something else.
#[derive(Drop)]
struct RecentCounts {
    last: Counted,
    earlier: Counted,
}

/// The count for these predicates, if they are those that were counted.
fn count_in(counted: &Counted, preds: &[Pred], proto: u64) -> Option<u64>
    ensures { IfSome result (λ n. (n ≡ counted.now.count) × (preds.now ≡ counted.now.preds) ×
        (proto ≡ counted.now.proto)) }
{
    if proto == counted.proto && all_alike(preds, counted.preds.as_slice()) {
        return Some(counted.count);
    }
    None
}

/// The two that were counted last, once this is counted.
fn renewed_counts(recent: RecentCounts, counted: Counted) -> RecentCounts
    ensures last { (result.last ≡ recent.last) ⊎ (result.last ≡ counted) }
    ensures earlier { (result.earlier ≡ recent.last) ⊎ (result.earlier ≡ recent.earlier) }
{
    if count_in(&recent.last, counted.preds.as_slice(), counted.proto).is_some() {
        return recent;
    }
    RecentCounts {
        last: counted,
        earlier: recent.last,
    }
}

/// The count for what is left at a part. Most often it is what was left at one of the parts before, and not counted again.
#[cycle(count_from)]
fn next_count(
    alloc: Global,
    recent: &RecentCounts,
    left: &[Pred],
    rest: &[Field],
    proto: u64,
    room: u64,
) -> Result<Option<u64>, OutOfMemory>
    requires last { recent.now.last.count ≡
        class_count rest.now recent.now.last.proto recent.now.last.preds }
    requires earlier { recent.now.earlier.count ≡
        class_count rest.now recent.now.earlier.proto recent.now.earlier.preds }
    ensures { IfOk result (λ found. MatchOption found
        (room < class_count rest.now proto left.now)
        (λ n. (n ≡ class_count rest.now proto left.now) × (n ≤ room))) }
{
    if let Some(count) = count_in(&recent.last, left, proto) {
        return Ok(within(count, room));
    }
    if let Some(count) = count_in(&recent.earlier, left, proto) {
        return Ok(within(count, room));
    }
    count_from(alloc, left, rest, proto, room)
}

/// No predicate has one class.
fn nothing_counted(alloc: Global, proto: u64) -> Counted
    ensures preds { result.preds ≡ [] }
    ensures proto { result.proto ≡ proto }
    ensures count { result.count ≡ 1 }
{
    Counted {
        preds: Items::new(alloc),
        proto,
        count: 1,
    }
}

/// The same, where the next field and those after it are told apart and some predicate is neither Yes nor No.
#[cycle(count_from)]
fn count_within(
    alloc: Global,
    preds: &[Pred],
    field: Field,
    rest: &[Field],
    proto: u64,
    room: u64,
) -> Result<Option<u64>, OutOfMemory>
    requires { list_all decided preds.now ≡ false }
    ensures { IfOk result (λ found. MatchOption found
        (room < class_count (field ∷ rest.now) proto preds.now)
        (λ n. (n ≡ class_count (field ∷ rest.now) proto preds.now) × (n ≤ room))) }
{
    let values = parts(alloc, preds, field, proto)?;
    let mut recent = RecentCounts {
        last: nothing_counted(alloc, proto),
        earlier: nothing_counted(alloc, proto),
    };
    let mut count = 0;
    for value in &values {
        let left = open_residues(alloc, preds, field, *value)?;
        let proto = proto_after(field, *value, proto);
        let next = next_count(alloc, &recent, left.as_slice(), rest, proto, room - count)?;
        match next {
            Some(more) => {
                count += more;
                let counted = Counted {
                    preds: left,
                    proto,
                    count: more,
                };
                recent = renewed_counts(recent, counted);
            }
            None => return Ok(None),
        }
    }
    Ok(Some(count))
}
