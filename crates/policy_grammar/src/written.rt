//! Policies as they are written, before sets and `foreach` are written out.

use merlin_model::name::Name;
use merlin_model::policy::{Bound, Pred, Term};
use sqlite_items::{Boxed, Items};

/// A path expression over names as they are written, each with the byte at which it starts.
#[derive(Drop)]
pub enum RawPath {
    Dot,
    Named { name: Name, at: usize },
    Cat(Items<RawPath>),
    Alt(Items<RawPath>),
    Star(Boxed<RawPath>),
    Not(Boxed<RawPath>),
}

/// An address in a set.
#[derive(Clone, Copy, PartialEq, Eq)]
pub enum Literal {
    Mac(u64),
    Ip(u32),
}

/// A set under its name, with its addresses as they are written.
#[derive(Drop)]
pub struct WrittenSet {
    pub name: Name,
    pub literals: Items<Literal>,
}

/// A bound of one statement's own rate, in kbit/s.
#[derive(Clone, Copy)]
pub struct Limit {
    pub bound: Bound,
    pub rate: u64,
}

/// A statement, with the limits that stand after `at`.
#[derive(Drop)]
pub struct WrittenStatement {
    pub id: Name,
    pub pred: Pred,
    pub path: RawPath,
    pub limits: Items<Limit>,
}

/// An item of the list: a statement, or one for each pair from two sets.
#[derive(Drop)]
pub enum Item {
    One(WrittenStatement),
    ForEach {
        outer: Name,
        inner: Name,
        statement: WrittenStatement,
    },
}

/// A policy as it is written.
#[derive(Drop)]
pub struct WrittenPolicy {
    pub sets: Items<WrittenSet>,
    pub items: Items<Item>,
    pub default_path: Option<RawPath>,
    pub terms: Items<Term>,
}

/// The fields that a test may name.
#[derive(Clone, Copy)]
pub enum Tested {
    EthSrc,
    EthDst,
    IpSrc,
    IpDst,
    IpProto,
    TcpSrc,
    TcpDst,
    UdpSrc,
    UdpDst,
}
