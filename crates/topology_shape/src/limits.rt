//! Limits of single members, for code and definitions alike.

/// The greatest number of a port.
pub const MAX_PORT: u64 = 65279;

/// The greatest weight of a link.
pub const MAX_LINK_WEIGHT: u64 = 1000;

/// The greatest port that a packet function sets.
pub const MAX_SET_PORT: u64 = 65535;
