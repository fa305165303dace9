//! Packets: seven header fields, their text, and what sets and compares them.
#![tactic(auto)]

mod fields;
mod printing;
mod reading;

pub use fields::{Packet, packet_of, proper};
pub use merlin_model::network::HostAddress;
pub use merlin_model::policy::Field;
pub use printing::print_packet;
pub use reading::{PacketFault, parse_packet};
