//! Locations, links and packet functions.

use crate::name::Name;
use crate::policy::Field;
use sqlite_items::Items;

/// The addresses of a host: 48 bits of Ethernet, 32 bits of IPv4.
#[derive(Clone, Copy, PartialEq, Eq)]
pub struct HostAddress {
    pub eth: u64,
    pub ip: u32,
}

/// What stands at a location, with the addresses of a host.
#[derive(Clone, Copy)]
pub enum LocationKind {
    Host(HostAddress),
    Switch,
    Middlebox,
}

/// What stands at a location.
#[derive(Clone, Copy, PartialEq, Eq)]
pub enum Place {
    Host,
    Switch,
    Middlebox,
}

/// A named place in the network. Locations are numbered from 0 in the order of the topology.
#[derive(Drop)]
pub struct Location {
    pub name: Name,
    pub kind: LocationKind,
}

/// A link between two locations by number, each with its port. `capacity` is what it carries from `a` to `b`, and `back` from `b` to `a`,
/// both in kbit/s. `weight`, from 1 to 1000, is what each kbit/s costs that is reserved on it.
#[derive(Clone, Copy)]
pub struct Link {
    pub a: usize,
    pub aport: u16,
    pub b: usize,
    pub bport: u16,
    pub capacity: u64,
    pub back: u64,
    pub weight: u32,
}

/// A link as it is seen from one end: from a port of one location to a port of another. `capacity` is that of this direction, and `back` that of
/// the other, both in kbit/s.
#[derive(Clone, Copy)]
pub struct DirectedLink {
    pub from: usize,
    pub out_port: u16,
    pub to: usize,
    pub in_port: u16,
    pub capacity: u64,
    pub back: u64,
    pub weight: u32,
}

/// A packet function: its name, the middleboxes where it is placed, and the fields that it sets.
#[derive(Drop)]
pub struct FnDecl {
    pub name: Name,
    pub places: Items<usize>,
    pub set: Items<(Field, u64)>,
}
