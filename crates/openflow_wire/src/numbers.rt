//! Numbers of OpenFlow 1.0.0, and numbers as bytes.

/// The greatest number of a port.
pub const GREATEST_PORT: u16 = 65279;

/// The port by which a frame came in, as an action names it.
pub const IN_PORT: u16 = 0xfff8;

/// The greatest VLAN tag.
pub const MAX_VLAN: u16 = 4094;

/// What stands in the place of a tag for a frame without one.
pub const NO_VLAN: u16 = 0xffff;

/// The greatest number of a queue.
pub const MAX_QUEUE_ID: u16 = 64;

/// The Ethernet type of IPv4.
pub const IPV4: u16 = 0x0800;

/// A number of one, two, four, six or eight bytes.
#[derive(Clone, Copy)]
pub enum Number {
    Byte(u8),
    Short(u16),
    Word(u32),
    Mac(u64),
    Long(u64),
}
