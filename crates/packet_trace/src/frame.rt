//! Frames.

use packet_model::Packet;

/// A frame at a location, where it came in by a port, with a VLAN tag or untagged. A packet that starts at its host has
/// port 0.
#[derive(Clone, Copy)]
pub(crate) struct Frame {
    pub loc: usize,
    pub port: u16,
    pub tag: Option<u16>,
    pub packet: Packet,
}
