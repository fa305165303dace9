//! What a field is split into. Blocks of addresses are told apart by halving the values, as in a binary trie of prefixes
//! (D. R. Morrison, "PATRICIA", J. ACM 15, 1968).

ghost use Rattle.std.specs.Prelude.{◌≡◌, ◌≤◌, ◌+◌, ◌++◌, ◌^◌, suc, [], ◌∷◌, Bool, not, if◌then◌else◌, filter, IfOk, OnOk, option_to_list};
ghost use Rattle.std.specs.List.{flat_map, list_any};
ghost use Rattle.std.specs.List.Sorted.{IsStrictlyIncreasing};
ghost use Rattle.predicate_logic.specs.Mentions.{ascending as ascending_of};
ghost use Rattle.predicate_split.specs.Parts.{bits_of, has_field as has_field_of, least_from as least_of, least_within as least_in, is_whole as whole, begins_below as below, find_others as finding, find_in_halves as in_halves, parts_within as parts_in, field_parts};

use merlin_model::OutOfMemory;
use merlin_model::policy::{Field, Pred};
use predicate_logic::{ascending, collect_all, collect_all_prefixes};
use std::alloc::Global;

/// How many bits a value of the field has.
fn bits(field: Field) -> u32
    ensures bits { result ≡ bits_of field }
    ensures few { result ≤ 48 }
    ensures below { 0 + 2 ^ result ≤ 2 ^ 48 }
{
    match field {
        Field::EthSrc | Field::EthDst => 48,
        Field::IpSrc | Field::IpDst => 32,
        Field::Proto => 8,
        Field::Sport | Field::Dport => 16,
    }
}

/// Whether packets of the protocol have the field.
pub(crate) fn has_field(field: Field, proto: u64) -> bool
    ensures { result ≡ has_field_of field proto }
{
    match field {
        Field::Sport | Field::Dport => proto == 6 || proto == 17,
        _ => true,
    }
}

/// The least number, from this one on, that is not among ascending ones.
pub(crate) fn least_from(low: u64, named: &[u64]) -> u64
    requires { low ≤ 2 ^ 48 }
    ensures { result ≡ least_of low named.now }
{
    let mut passed: usize = 0;
    for value in named {
        let least = low + passed as u64;
        if *value > least {
            return least;
        }
        if *value == least {
            passed += 1;
        }
    }
    low + passed as u64
}

/// The least of so many bits' values from this one on that is not mentioned.
fn least_within(bits: u32, low: u64, named: &[u64]) -> Option<u64>
    requires bits { bits ≤ 48 }
    requires low { low + 2 ^ bits ≤ 2 ^ 48 }
    ensures { result ≡ least_in bits low named.now }
{
    let least = least_from(low, named);
    if least < low + (1 << bits) {
        return Some(least);
    }
    None
}

/// Whether the block has as many addresses as there are values of so many bits.
fn is_whole(bits: u32, block: (u64, u8)) -> bool
    requires { bits ≤ 48 }
    ensures { result ≡ whole bits block }
{
    u32::from(block.1) + bits == 32
}

/// The blocks of both halves of some values, and whether a block had them all.
#[derive(Drop)]
struct Halves {
    left: Vec<(u64, u8)>,
    right: Vec<(u64, u8)>,
    is_closed: bool,
}

/// The blocks by halves, without those that have all values.
fn split_blocks(
    alloc: Global,
    blocks: Vec<(u64, u8)>,
    bits: u32,
    middle: u64,
) -> Result<Halves, OutOfMemory>
    requires { bits ≤ 48 }
    ensures left { IfOk result (λ halves. halves.left.items ≡
        filter (below middle) (filter (λ b. not (whole bits b)) blocks.items)) }
    ensures right { IfOk result (λ halves. halves.right.items ≡
        filter (λ b. not (below middle b)) (filter (λ b. not (whole bits b)) blocks.items)) }
    ensures closed { IfOk result (λ halves. halves.is_closed ≡ list_any (whole bits) blocks.items) }
{
    let mut halves = Halves {
        left: Vec::new(alloc),
        right: Vec::new(alloc),
        is_closed: false,
    };
    for block in &blocks {
        if is_whole(bits, *block) {
            halves.is_closed = true;
        } else if block.0 < middle {
            halves.left.push(*block)?;
        } else {
            halves.right.push(*block)?;
        }
    }
    Ok(halves)
}

/// The least value of no block among those of so many bits from this one on, if there is one. The least values of all parts within the blocks are added.
#[cycle(find_others)]
fn find_others(
    alloc: Global,
    blocks: Vec<(u64, u8)>,
    named: &[u64],
    low: u64,
    bits: u32,
    found: &mut Vec<u64>,
) -> Result<Option<u64>, OutOfMemory>
    requires bits { bits ≤ 48 }
    requires low { low + 2 ^ bits ≤ 2 ^ 48 }
    ensures own { IfOk result (λ own. own ≡ (finding bits low blocks.items named.now).0) }
    ensures added { OnOk result (found.new.items ≡
        found.old.items ++ (finding bits low blocks.items named.now).1) }
{
    if bits == 0 || blocks.is_empty() {
        return Ok(least_within(bits, low, named));
    }
    let halves = split_blocks(alloc, blocks, bits, low + (1 << (bits - 1)))?;
    let is_closed = halves.is_closed;
    let own = find_in_halves(alloc, halves, named, low, bits - 1, found)?;
    if !is_closed {
        return Ok(own);
    }
    if let Some(least) = own {
        found.push(least)?;
    }
    Ok(None)
}

/// The same over the blocks of both halves.
#[cycle(find_others)]
fn find_in_halves(
    alloc: Global,
    halves: Halves,
    named: &[u64],
    low: u64,
    bits: u32,
    found: &mut Vec<u64>,
) -> Result<Option<u64>, OutOfMemory>
    requires bits { bits ≤ 47 }
    requires low { low + 2 ^ suc bits ≤ 2 ^ 48 }
    ensures own { IfOk result (λ own.
        own ≡ (in_halves bits low halves.left.items halves.right.items named.now).0) }
    ensures added { OnOk result (found.new.items ≡ found.old.items ++
        (in_halves bits low halves.left.items halves.right.items named.now).1) }
{
    if halves.left.is_empty() && halves.right.is_empty() {
        return Ok(least_within(bits + 1, low, named));
    }
    let left = find_others(alloc, halves.left, named, low, bits, found)?;
    let right = find_others(alloc, halves.right, named, low + (1 << bits), bits, found)?;
    Ok(left.or(right))
}

/// The parts of the values of so many bits where these are mentioned and these blocks are named.
#[tactic(auto, unfolding(crate::specs::Parts::parts_within))]
fn parts_within(
    alloc: Global,
    named: Vec<u64>,
    blocks: Vec<(u64, u8)>,
    bits: u32,
) -> Result<Vec<u64>, OutOfMemory>
    requires bits { bits ≤ 48 }
    requires below { 0 + 2 ^ bits ≤ 2 ^ 48 }
    ensures { IfOk result (λ parts. parts.items ≡
        parts_in bits blocks.items (ascending_of named.items)) }
{
    let mut parts = ascending(named);
    let mut found = Vec::new(alloc);
    let own = find_others(alloc, blocks, &parts, 0, bits, &mut found)?;
    parts.extend_from_slice(&found)?;
    if let Some(least) = own {
        parts.push(least)?;
    }
    Ok(ascending(parts))
}

/// The parts of the field where these values are mentioned and these blocks are named.
pub(crate) fn parts_where(
    alloc: Global,
    named: Vec<u64>,
    blocks: Vec<(u64, u8)>,
    field: Field,
    proto: u64,
) -> Result<Vec<u64>, OutOfMemory>
    ensures { IfOk result (λ parts. parts.items ≡
        (if has_field_of field proto then
        parts_in (bits_of field) blocks.items (ascending_of named.items) else 0 ∷ [])) }
{
    if has_field(field, proto) {
        return parts_within(alloc, named, blocks, bits(field));
    }
    let mut zero = Vec::new(alloc);
    zero.push(0)?;
    Ok(zero)
}

/// The parts of the field for some predicates.
pub(crate) fn parts(
    alloc: Global,
    preds: &[Pred],
    field: Field,
    proto: u64,
) -> Result<Vec<u64>, OutOfMemory>
    ensures { IfOk result (λ parts. parts.items ≡ field_parts field proto preds.now) }
{
    let mut named = Vec::new(alloc);
    collect_all(preds, field, &mut named)?;
    let mut blocks = Vec::new(alloc);
    collect_all_prefixes(preds, field, &mut blocks)?;
    parts_where(alloc, named, blocks, field, proto)
}
