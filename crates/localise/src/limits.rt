//! The rates between which an id is kept.

ghost use Rattle.std.specs.Prelude.{◌≡◌, Some};
ghost use Rattle.localise.specs.Limits.{limits_from, together, lesser};

use merlin_model::policy::Bound;

// An id is to use at least the floor, and at most the cap if there is one.
#[derive(Clone, Copy)]
pub(crate) struct Limits {
    pub(crate) floor: u64,
    pub(crate) cap: Option<u64>,
}

impl Limits {
    // What a share under one kind of bound asks.
    pub(crate) fn from_share(bound: Bound, share: u64) -> Limits
        ensures { result ≡ limits_from (Some share) bound }
    {
        match bound {
            Bound::Max => Limits {
                floor: 0,
                cap: Some(share),
            },
            Bound::Min => Limits {
                floor: share,
                cap: None,
            },
        }
    }

    // The limits that ask both.
    pub(crate) fn joined(self, other: Limits) -> Limits
        ensures { result ≡ together self other }
    {
        Limits {
            floor: self.floor.max(other.floor),
            cap: lesser_cap(self.cap, other.cap),
        }
    }
}

// The lesser of two caps, where there are two.
fn lesser_cap(one: Option<u64>, other: Option<u64>) -> Option<u64>
    ensures { result ≡ lesser one other }
{
    match (one, other) {
        (Some(one), Some(other)) => Some(one.min(other)),
        (Some(one), None) => Some(one),
        (None, other) => other,
    }
}
