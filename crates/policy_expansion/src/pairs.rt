//! The pairs that two sets give, and how many there are.
ghost use Rattle.std.specs.Prelude.{◌≡◌, ◌+◌, ◌<◌, ◌++◌, length, map, filter, IfOk, IfSome, IfNone, OnOk};
ghost use Rattle.policy_expansion.specs.WrittenOut.{unlike, pairs, pairs_from};

use policy_grammar::written::Literal;
use std::alloc::{AllocError, Global};

// Whether two addresses differ, in kind or in number.
fn are_unlike(a: Literal, b: Literal) -> bool
    ensures { result ≡ unlike a b }
{
    match (a, b) {
        (Literal::Mac(a), Literal::Mac(b)) => a != b,
        (Literal::Ip(a), Literal::Ip(b)) => a != b,
        (Literal::Mac(_), Literal::Ip(_)) | (Literal::Ip(_), Literal::Mac(_)) => true,
    }
}

fn count_unlike(a: Literal, inner: &[Literal]) -> usize
    ensures { result ≡ length (filter (unlike a) inner.now) }
{
    inner.iter().filter(|b| are_unlike(a, **b)).count()
}

// What the pairs leave of some room. None where they do not fit: then no more are looked at than fit.
pub(crate) fn room_after_pairs(outer: &[Literal], inner: &[Literal], room: usize) -> Option<usize>
    ensures some { IfSome result (λ left. left + length (pairs outer.now inner.now) ≡ room) }
    ensures none { IfNone result (room < length (pairs outer.now inner.now)) }
{
    if inner.is_empty() {
        return Some(room);
    }
    let mut left = room;
    for a in outer {
        left = left.checked_sub(count_unlike(*a, inner))?;
    }
    Some(left)
}

// The pairs, those with the first address of the outer set first.
pub(crate) fn pairs_of(
    alloc: Global,
    outer: &[Literal],
    inner: &[Literal],
) -> Result<Vec<(Literal, Literal)>, AllocError>
    ensures { IfOk result (λ found. found.items ≡ pairs outer.now inner.now) }
{
    let mut found = Vec::new(alloc);
    if inner.is_empty() {
        return Ok(found);
    }
    for a in outer {
        push_pairs(&mut found, *a, inner)?;
    }
    Ok(found)
}

fn push_pairs(
    found: &mut Vec<(Literal, Literal)>,
    a: Literal,
    inner: &[Literal],
) -> Result<(), AllocError>
    ensures { OnOk result (found.new.items ≡ found.old.items ++ pairs_from inner.now a) }
{
    for b in inner {
        if are_unlike(a, *b) {
            found.push((a, *b))?;
        }
    }
    Ok(())
}
