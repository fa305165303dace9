//! Limits of numbers in the lines of a result. That of ports is in `topology_shape::limits`.

/// The greatest VLAN tag, which is at least 1.
pub const MAX_TAG: u16 = 4094;

/// The greatest number of a queue, which is at least 1.
pub const MAX_QUEUE: u16 = 64;
