//! The numbers of tags, by binary search.

ghost use Rattle.std.specs.Prelude.{◌≡◌, ◌<◌, ◌^◌, ◌↔◌, length, map, Contains, IsTrue, IfSome, IfNone};
ghost use Rattle.merlin_model.specs.Networks.{Pairwise};
ghost use Rattle.rules_model.specs.Products.{function_place};
ghost use Rattle.rules_model.specs.Tables.{IsBelowKey};
ghost use Rattle.rule_tables.specs.Branches.{key_of, IsTagNumber};
ghost use Rattle.rule_tables.specs.Searches.{IsCountBelow};

use crate::branches::TagKey;

/// Whether a function comes before another, where none is first.
fn is_before(a: Option<usize>, b: Option<usize>) -> bool
    ensures { IsTrue result ↔ (function_place a < function_place b) }
{
    match b {
        None => false,
        Some(b) => match a {
            None => true,
            Some(a) => a < b,
        },
    }
}

/// Whether a key comes before another: by group, state and function.
fn is_below(a: &TagKey, b: &TagKey) -> bool
    ensures { IsTrue result ↔ IsBelowKey (key_of a.now) (key_of b.now) }
{
    if a.group != b.group {
        a.group < b.group
    } else if a.state != b.state {
        a.state < b.state
    } else {
        is_before(a.fun, b.fun)
    }
}

fn is_same(a: &TagKey, b: &TagKey) -> bool
    ensures { IsTrue result ↔ (a.now ≡ b.now) }
{
    a.group == b.group && a.state == b.state && a.fun == b.fun
}

/// How many of the tags come before a key, where they ascend.
fn count_below(tags: &[TagKey], key: &TagKey) -> usize
    ensures { Pairwise IsBelowKey (map key_of tags.now) → IsCountBelow tags.now key.now result }
{
    let mut low = 0;
    let mut high = tags.len();
    while low < high {
        let middle = low + (high - low) / 2;
        if is_below(&tags[middle], key) {
            low = middle + 1;
        } else {
            high = middle;
        }
    }
    low
}

/// The number of the tag of a key. Tags count from 1.
pub(crate) fn tag_number(tags: &[TagKey], key: &TagKey) -> Option<u16>
    requires { length tags.now < 2 ^ 16 }
    ensures some { IfSome result (λ n. IsTagNumber (map key_of tags.now) (key_of key.now) n) }
    ensures none { IfNone result (Pairwise IsBelowKey (map key_of tags.now) →
        ¬ Contains (map key_of tags.now) (key_of key.now)) }
{
    let place = count_below(tags, key);
    if place < tags.len() && is_same(&tags[place], key) {
        Some(place as u16 + 1)
    } else {
        None
    }
}
