//! Predicates, path expressions and bandwidth terms.

use crate::name::Name;
use sqlite_items::{Boxed, Items};

/// The fields of a packet, in the order in which packets are compared.
#[derive(Clone, Copy, PartialEq, Eq)]
pub enum Field {
    EthSrc,
    EthDst,
    IpSrc,
    IpDst,
    Proto,
    Sport,
    Dport,
}

/// A test: a field has a value, a port has one under a protocol, or an IPv4 address is in the block of addresses (RFC 4632) whose first `length`
/// bits are those of `value`. A block has a length up to 31, and its further bits are 0.
#[derive(Clone, Copy)]
pub enum Test {
    Is {
        field: Field,
        value: u64,
    },
    Port {
        proto: u8,
        field: Field,
        value: u16,
    },
    Within {
        field: Field,
        value: u64,
        length: u8,
    },
}

/// A predicate on packets. `All` of none holds always, `AnyOf` of none never.
#[derive(Drop)]
pub enum Pred {
    Yes,
    No,
    Test(Test),
    All(Items<Pred>),
    AnyOf(Items<Pred>),
    Not(Boxed<Pred>),
}

/// A location, or a location with one function that runs there.
#[derive(Clone, Copy, PartialEq, Eq)]
pub struct Symbol {
    pub loc: usize,
    pub fun: Option<usize>,
}

/// A path expression over numbered locations and functions.
#[derive(Drop)]
pub enum Path {
    Nothing,
    Empty,
    Dot,
    Loc(usize),
    Fun(usize),
    Cat(Boxed<Path>, Boxed<Path>),
    Alt(Items<Path>),
    Star(Boxed<Path>),
    Not(Boxed<Path>),
}

/// A part of a sum in a term: a statement's id, or a rate in kbit/s.
#[derive(Drop)]
pub enum Part {
    Id(Name),
    Constant(u64),
}

/// Whether a term bounds from above or from below.
#[derive(Clone, Copy, PartialEq, Eq)]
pub enum Bound {
    Max,
    Min,
}

/// A term of the bandwidth formula: the sum of the parts is at most, or at least, the rate.
#[derive(Drop)]
pub struct Term {
    pub bound: Bound,
    pub parts: Items<Part>,
    pub rate: u64,
}

/// What makes one assignment better than another: all that is reserved, the greatest load of a capacity, or the greatest load.
#[derive(Clone, Copy, PartialEq, Eq)]
pub enum Objective {
    Shortest,
    Ratio,
    Reserved,
}

/// The value of an assignment: a number of kbit/s, or a load of a capacity as it stands.
#[derive(Clone, Copy, PartialEq, Eq)]
pub enum Value {
    Whole(u64),
    Ratio { load: u64, capacity: u64 },
}

/// A guaranteed statement and its one pair of hosts.
#[derive(Clone, Copy)]
pub struct Ends {
    pub statement: usize,
    pub src: usize,
    pub dst: usize,
}
