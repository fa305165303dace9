//! Which frames a message matches, from its bytes.

ghost use Rattle.std.specs.Prelude.{◌≡◌, ◌≤◌, ◌+◌, length, None, IfSome};
ghost use Rattle.openflow_wire.specs.declared.numbers.TheConstants.{MAX_VLAN};
ghost use Rattle.openflow_wire.specs.Messages.{message_fault};
ghost use Rattle.openflow_wire.specs.Frames.{tag_number, agrees_at, ethernet_matches, network_matches, matches_frame};

use crate::numbers::{IPV4, NO_VLAN};
use crate::reading::{is_left_out, number_at, wildcards};
use packet_model::{Field, Packet};

// Whether a field is left out of the match, by a bit of the wildcards, or holds a number.
fn agrees_at(message: &[u8], bit: u32, at: usize, width: usize, n: u64) -> bool
    requires whole { 72 ≤ length message.now }
    requires bit { bit ≤ 31 }
    requires there { at + width ≤ 72 }
    requires wide { 1 ≤ width × width ≤ 8 }
    ensures { result ≡ agrees_at message.now bit at width n }
{
    is_left_out(bit, wildcards(message)) || number_at(message, at, width) == n
}

fn tag_number(tag: Option<u16>) -> u16
    ensures { result ≡ tag_number tag }
{
    tag.unwrap_or(NO_VLAN)
}

fn ethernet_matches(message: &[u8], port: u16, tag: Option<u16>, packet: &Packet) -> bool
    requires { 72 ≤ length message.now }
    ensures { result ≡ ethernet_matches message.now port tag packet.now }
{
    agrees_at(message, 0, 12, 2, u64::from(port))
        && agrees_at(message, 2, 14, 6, packet.value(Field::EthSrc))
        && agrees_at(message, 3, 20, 6, packet.value(Field::EthDst))
        && agrees_at(message, 1, 26, 2, u64::from(tag_number(tag)))
        && agrees_at(message, 4, 30, 2, u64::from(IPV4))
}

fn network_matches(message: &[u8], packet: &Packet) -> bool
    requires { 72 ≤ length message.now }
    ensures { result ≡ network_matches message.now packet.now }
{
    agrees_at(message, 5, 33, 1, packet.value(Field::Proto))
        && agrees_at(message, 13, 36, 4, packet.value(Field::IpSrc))
        && agrees_at(message, 19, 40, 4, packet.value(Field::IpDst))
        && agrees_at(message, 6, 44, 2, packet.value(Field::Sport))
        && agrees_at(message, 7, 46, 2, packet.value(Field::Dport))
}

/// Whether a message matches a frame of IPv4 that came in by a port, with a tag of at most 4094 or untagged. The bytes are a message.
pub fn matches(message: &[u8], port: u16, tag: Option<u16>, packet: &Packet) -> bool
    requires taken { message_fault message.now ≡ None }
    requires tag { IfSome tag (λ n. n ≤ MAX_VLAN) }
    ensures { result ≡ matches_frame message.now port tag packet.now }
{
    ethernet_matches(message, port, tag, packet) && network_matches(message, packet)
}
