//! Predicates that share a packet.

ghost use Rattle.std.specs.Prelude.{◌≡◌, ◌⊎◌, ◌∷◌, true, IfOk, IfSome, IfNone};
ghost use Rattle.std.specs.List.{AllByRecursion, list_all};
ghost use Rattle.merlin_model.specs.Predicates.{IsPred};
ghost use Rattle.merlin_model.specs.Packets.{Packet as Header, IsPacket};
ghost use Rattle.packet_model.specs.Texts.{all_fields};
ghost use Rattle.predicate_split.specs.Parts.{field_parts};
ghost use Rattle.predicate_split.specs.Classes.{is_decided as decided};
ghost use Rattle.predicate_split.specs.Walks.{IsRest, AreFresh, IsUnfixed};
ghost use Rattle.predicate_split.specs.Overlaps.{placed_from, IsFirstSharing, ShareNothing, preds_in, pair_at as pair_of, holder as holder_of, trimmed, entry_residues, IsNoLater, IsLeastPair};

use crate::count::is_decided;
use crate::parts::parts_where;
use merlin_model::OutOfMemory;
use merlin_model::policy::{Field, Pred};
use packet_model::Packet;
use predicate_logic::{alike, collect, collect_prefixes, holds, partial};
use sqlite_items::Items;
use std::alloc::Global;

/// What is left of a predicate, with its place.
#[derive(Drop)]
pub struct PlacedPred {
    pub place: usize,
    pub pred: Pred,
}

/// The place of the first predicate that holds of the packet.
pub(crate) fn holder(entries: &[PlacedPred], packet: &Packet) -> Option<usize>
    ensures { result ≡ holder_of entries.now packet.now }
{
    for entry in entries {
        if holds(&entry.pred, packet) {
            return Some(entry.place);
        }
    }
    None
}

/// The places of the first two that do.
fn pair_at(entries: &[PlacedPred], packet: &Packet) -> Option<(usize, usize)>
    ensures { result ≡ pair_of entries.now packet.now }
{
    for (index, entry) in entries.iter().enumerate() {
        if holds(&entry.pred, packet) {
            return match holder(&entries[index + 1..], packet) {
                Some(second) => Some((entry.place, second)),
                None => None,
            };
        }
    }
    None
}

/// The earlier of two pairs.
fn earlier(left: Option<(usize, usize)>, right: Option<(usize, usize)>) -> Option<(usize, usize)>
    ensures left { IsNoLater result left }
    ensures right { IsNoLater result right }
    ensures either { (result ≡ left) ⊎ (result ≡ right) }
{
    let Some(found) = left else {
        return right;
    };
    let Some(known) = right else {
        return left;
    };
    if found.0 < known.0 || found.0 == known.0 && found.1 <= known.1 {
        return left;
    }
    right
}

/// Whether all of the predicates are Yes or No.
fn are_settled(entries: &[PlacedPred]) -> bool
    ensures { result ≡ list_all decided (preds_in entries.now) }
{
    for entry in entries {
        if !is_decided(&entry.pred) {
            return false;
        }
    }
    true
}

/// The parts of the field for the predicates in the entries.
fn parts_for(
    alloc: Global,
    entries: &[PlacedPred],
    field: Field,
    proto: u64,
) -> Result<Vec<u64>, OutOfMemory>
    ensures { IfOk result (λ parts. parts.items ≡ field_parts field proto (preds_in entries.now)) }
{
    let mut named = Vec::new(alloc);
    let mut blocks = Vec::new(alloc);
    for entry in entries {
        collect(&entry.pred, field, &mut named)?;
        collect_prefixes(&entry.pred, field, &mut blocks)?;
    }
    parts_where(alloc, named, blocks, field, proto)
}

/// What is left of the predicates that can still be among the first two to hold.
fn entries_left(
    alloc: Global,
    entries: &[PlacedPred],
    field: Field,
    value: u64,
) -> Result<Items<PlacedPred>, OutOfMemory>
    ensures { IfOk result (λ kept. kept ≡ trimmed 2 (entry_residues field value entries.now)) }
{
    let mut kept = Items::new(alloc);
    let mut wanted: usize = 2;
    for entry in entries {
        let place = entry.place;
        match partial(alloc, &entry.pred, field, value)? {
            Pred::No => {}
            Pred::Yes => {
                kept.push(PlacedPred {
                    place,
                    pred: Pred::Yes,
                })?;
                if wanted < 2 {
                    return Ok(kept);
                }
                wanted = 1;
            }
            pred => kept.push(PlacedPred { place, pred })?,
        }
    }
    Ok(kept)
}

/// The least pair of places whose predicates share a packet with the fields that are fixed, or one that was known before.
#[cycle(pair_from)]
fn pair_from(
    alloc: Global,
    entries: &[PlacedPred],
    fields: &[Field],
    packet: Packet,
    known: Option<(usize, usize)>,
) -> Result<Option<(usize, usize)>, OutOfMemory>
    requires rest { IsRest fields.now }
    requires fresh { AreFresh fields.now packet.proto (preds_in entries.now) }
    requires opened { IsUnfixed fields.now packet }
    requires packet { IsPacket packet }
    ensures { IfOk result (IsLeastPair fields.now packet entries.now known) }
{
    if entries.len() < 2 {
        return Ok(known);
    }
    if are_settled(entries) {
        return Ok(earlier(pair_at(entries, &packet), known));
    }
    match fields.split_first() {
        Some((field, rest)) => pair_within(alloc, entries, *field, rest, packet, known),
        None => Ok(earlier(pair_at(entries, &packet), known)),
    }
}

/// Whether the entries are the same, in the same order.
fn are_same(left: &[PlacedPred], right: &[PlacedPred]) -> bool
    ensures { result ≡ true → left.now ≡ right.now }
{
    if left.len() != right.len() {
        return false;
    }
    for (index, entry) in left.iter().enumerate() {
        if entry.place != right[index].place || !alike(&entry.pred, &right[index].pred) {
            return false;
        }
    }
    true
}

/// What was left at the last part, and what was left at the parts before it and is something else.
#[derive(Drop)]
struct RecentPreds {
    last: Items<PlacedPred>,
    earlier: Items<PlacedPred>,
}

/// Whether these are one of the two.
fn are_recent(recent: &RecentPreds, entries: &[PlacedPred]) -> bool
    ensures { result ≡ true →
        (entries.now ≡ recent.now.last) ⊎ (entries.now ≡ recent.now.earlier) }
{
    are_same(entries, recent.last.as_slice()) || are_same(entries, recent.earlier.as_slice())
}

/// The two that were left last, once these are left.
fn renewed_preds(recent: RecentPreds, entries: Items<PlacedPred>) -> RecentPreds
    ensures last { (result.last ≡ recent.last) ⊎ (result.last ≡ entries) }
    ensures earlier { (result.earlier ≡ recent.last) ⊎ (result.earlier ≡ recent.earlier) }
{
    if are_same(entries.as_slice(), recent.last.as_slice()) {
        return recent;
    }
    RecentPreds {
        last: entries,
        earlier: recent.last,
    }
}

/// The same, unless what is left is what was left before: then the pair that is known is no later.
#[cycle(pair_from)]
fn pair_unless(
    alloc: Global,
    entries: &[PlacedPred],
    recent: &RecentPreds,
    fields: &[Field],
    packet: Packet,
    known: Option<(usize, usize)>,
) -> Result<Option<(usize, usize)>, OutOfMemory>
    requires rest { IsRest fields.now }
    requires fresh { AreFresh fields.now packet.proto (preds_in entries.now) }
    requires opened { IsUnfixed fields.now packet }
    requires packet { IsPacket packet }
    requires last { (q : Header) → IsPacket q → IsNoLater known (pair_of recent.now.last q) }
    requires earlier { (q : Header) → IsPacket q →
        IsNoLater known (pair_of recent.now.earlier q) }
    ensures { IfOk result (IsLeastPair fields.now packet entries.now known) }
{
    if are_recent(recent, entries) {
        return Ok(known);
    }
    pair_from(alloc, entries, fields, packet, known)
}

/// The same, where the next field and those after it are told apart.
#[cycle(pair_from)]
fn pair_within(
    alloc: Global,
    entries: &[PlacedPred],
    field: Field,
    rest: &[Field],
    packet: Packet,
    known: Option<(usize, usize)>,
) -> Result<Option<(usize, usize)>, OutOfMemory>
    requires rest { IsRest (field ∷ rest.now) }
    requires fresh { AreFresh (field ∷ rest.now) packet.proto (preds_in entries.now) }
    requires opened { IsUnfixed (field ∷ rest.now) packet }
    ensures { IfOk result (IsLeastPair (field ∷ rest.now) packet entries.now known) }
{
    let values = parts_for(alloc, entries, field, packet.value(Field::Proto))?;
    let mut found = known;
    let mut recent = RecentPreds {
        last: Items::new(alloc),
        earlier: Items::new(alloc),
    };
    for value in &values {
        let left = entries_left(alloc, entries, field, *value)?;
        found = pair_unless(
            alloc,
            left.as_slice(),
            &recent,
            rest,
            packet.with(field, *value),
            found,
        )?;
        recent = renewed_preds(recent, left);
    }
    Ok(found)
}

/// The predicates with their places.
fn entries_of(alloc: Global, preds: &[Pred]) -> Result<Items<PlacedPred>, OutOfMemory>
    ensures { IfOk result (λ entries. entries ≡ placed_from 0 preds.now) }
{
    let mut entries = Items::new(alloc);
    for (place, pred) in preds.iter().enumerate() {
        let pred = pred.copy(alloc)?;
        entries.push(PlacedPred { place, pred })?;
    }
    Ok(entries)
}

/// The least pair of places whose predicates share a packet.
pub(crate) fn least_pair(
    alloc: Global,
    preds: &[Pred],
    fields: &[Field],
    zero: Packet,
) -> Result<Option<(usize, usize)>, OutOfMemory>
    requires preds { AllByRecursion IsPred preds.now }
    requires fields { fields.now ≡ all_fields }
    requires opened { IsUnfixed all_fields zero }
    requires packet { IsPacket zero }
    ensures some { IfOk result (λ found.
        IfSome found (λ pair. IsFirstSharing preds.now pair.0 pair.1)) }
    ensures none { IfOk result (λ found. IfNone found (ShareNothing preds.now)) }
{
    let entries = entries_of(alloc, preds)?;
    pair_from(alloc, entries.as_slice(), fields, zero, None)
}
