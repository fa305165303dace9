//! Why a text has not the shape of a topology.
ghost use Rattle.std.specs.Prelude.{◌≡◌};
ghost use Rattle.topology_shape.specs.declared.fault.ShapeFault.TheVariants as fault;
ghost use Rattle.topology_shape.specs.declared.fault.ElementFault.TheVariants as element;
ghost use Rattle.topology_shape.specs.Faults.{FailsAs, FailsAt};
ghost use Rattle.topology_shape.specs.Wrong.{element_words};

use merlin_base::{Name, OutOfMemory as NoMemory, name_from};
use std::alloc::{AllocError, AllocFailed, Global};

/// Why a text has not the shape of a topology. `Wrong`: the first part that is missing or wrong, as `links[2].b`.
#[derive(Drop)]
pub enum ShapeFault {
    Json,
    Wrong { what: Name },
    OutOfMemory,
}

impl From<AllocError> for ShapeFault {
    ghost from_gives = { λ _ gives. gives ≡ fault.OutOfMemory };

    fn from(_: AllocError) -> Self {
        ShapeFault::OutOfMemory
    }
}

impl<T: Drop> From<AllocFailed<T>> for ShapeFault {
    ghost from_gives = { λ _ gives. gives ≡ fault.OutOfMemory };

    fn from(_: AllocFailed<T>) -> Self {
        ShapeFault::OutOfMemory
    }
}

/// Why a value describes no element of an array: its first member that is missing or wrong, as `.b`, or nothing where the element itself is.
#[derive(Clone, Copy)]
pub(crate) enum ElementFault {
    WrongMember(&'static str),
    NoMemory,
}

impl From<AllocError> for ElementFault {
    ghost from_gives = { λ _ gives. gives ≡ element.NoMemory };

    fn from(_: AllocError) -> Self {
        ElementFault::NoMemory
    }
}

impl<T: Drop> From<AllocFailed<T>> for ElementFault {
    ghost from_gives = { λ _ gives. gives ≡ element.NoMemory };

    fn from(_: AllocFailed<T>) -> Self {
        ElementFault::NoMemory
    }
}

impl From<NoMemory> for ElementFault {
    ghost from_gives = { λ _ gives. gives ≡ element.NoMemory };

    fn from(_: NoMemory) -> Self {
        ElementFault::NoMemory
    }
}

/// The fault of a member of the topology itself.
pub(crate) fn wrong_part(alloc: Global, what: &str) -> ShapeFault
    ensures { FailsAs (λ words. words ≡ what.now) result }
{
    match name_from(alloc, what.as_bytes()) {
        Ok(what) => ShapeFault::Wrong { what },
        Err(_) => ShapeFault::OutOfMemory,
    }
}

/// The fault of a member of the element at a place of an array.
pub(crate) fn wrong_member(alloc: Global, key: &str, place: usize, member: &str) -> ShapeFault
    ensures { FailsAs (λ words. words ≡ element_words key.now place member.now) result }
{
    match format!(in alloc; "{key}[{place}]{member}") {
        Ok(text) => wrong_part(alloc, text.as_str()),
        Err(_) => ShapeFault::OutOfMemory,
    }
}

/// The fault of the element at a place of an array.
pub(crate) fn wrong_element(
    alloc: Global,
    key: &str,
    place: usize,
    fault: ElementFault,
) -> ShapeFault
    ensures { FailsAt key.now place fault result }
{
    match fault {
        ElementFault::WrongMember(member) => wrong_member(alloc, key, place, member),
        ElementFault::NoMemory => ShapeFault::OutOfMemory,
    }
}
