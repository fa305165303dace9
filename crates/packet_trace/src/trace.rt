//! The trace of a packet.

use packet_model::Packet;
use sqlite_items::Items;

/// The record of a location that a packet leaves: the functions that ran there, the queue that it was sent through, and
/// the class that its host put it in.
#[derive(Drop)]
pub struct Visit {
    pub loc: usize,
    pub functions: Items<usize>,
    pub queue: Option<u16>,
    pub class: Option<u16>,
}

/// How a trace ends.
#[derive(Clone, Copy)]
pub enum End {
    Delivered { host: usize, packet: Packet },
    Dropped { loc: usize },
    StillRunning,
}

/// What is seen of a packet: the locations that it leaves, and its end. A trace that is still running tells no location.
#[derive(Drop)]
pub struct Trace {
    pub visits: Items<Visit>,
    pub end: End,
}

/// After how many hops a trace stops.
pub const MAX_HOPS: usize = 65536;
