//! Packets: their texts, what sets one field, and whether one is proper between two hosts.

use crate::lines::Lines;
use crate::texts::{parted, verdict};
use packet_model::{Field, HostAddress, Packet, PacketFault, parse_packet, print_packet};
use std::alloc::Global;
use topology::Topology;

/// The packet of a text, and None where it is none.
pub fn packet_from(text: &str) -> Option<Packet> {
    parse_packet(text.as_bytes()).ok()
}

/// `packet|PACKET`: the packet as it is printed, or where its text is wrong.
pub fn reading(alloc: Global, text: &str, out: &mut Lines) {
    match parse_packet(text.as_bytes()) {
        Ok(packet) => {
            out.add("0\n");
            out.add_name(print_packet(alloc, &packet));
            out.add("\n");
        }
        Err(PacketFault::BadPacket { at }) => out.answer_at("packet", at),
    }
}

fn field_from(word: &str) -> Option<Field> {
    match word {
        "eth.src" => Some(Field::EthSrc),
        "eth.dst" => Some(Field::EthDst),
        "ip.src" => Some(Field::IpSrc),
        "ip.dst" => Some(Field::IpDst),
        "ip.proto" => Some(Field::Proto),
        "sport" => Some(Field::Sport),
        "dport" => Some(Field::Dport),
        _ => None,
    }
}

// The packet with a field set, where the value is one that the field can have.
fn changed(packet: &Packet, field: Field, value: u64) -> Option<Packet> {
    match field {
        Field::EthSrc | Field::EthDst if value < 1 << 48 => Some(packet.with(field, value)),
        Field::IpSrc | Field::IpDst if value < 1 << 32 => Some(packet.with(field, value)),
        Field::Proto if value < 1 << 8 => Some(packet.with(field, value)),
        Field::Sport | Field::Dport if value < 1 << 16 => Some(packet.with(field, value)),
        _ => None,
    }
}

// The packet of some words with a field of it set, and the field.
fn set_of(words: &str) -> Option<(Packet, Field)> {
    let (text, setting) = parted(words);
    let (word, value) = setting.split_once('=')?;
    let field = field_from(word)?;
    let value = value.parse::<u64>().ok()?;
    let packet = changed(&packet_from(text)?, field, value)?;
    Some((packet, field))
}

/// `set|PACKET|FIELD=VALUE`: the packet with this field, and the value that it has then.
pub fn setting(alloc: Global, words: &str, out: &mut Lines) {
    match set_of(words) {
        Some((packet, field)) => {
            out.add("0\n");
            out.add_name(print_packet(alloc, &packet));
            out.add("\n");
            out.add_number(packet.value(field));
            out.add("\n");
        }
        None => out.answer(1, "nothing is set"),
    }
}

/// The addresses of the host of this name.
fn address_of(net: &Topology, name: &str) -> Option<HostAddress> {
    let loc = net.find(name.as_bytes())?;
    if loc < net.locations() {
        net.host(loc)
    } else {
        None
    }
}

// Whether a packet is proper between the hosts of these names.
fn is_proper(net: &Topology, text: &str, names: &str) -> Option<bool> {
    let (from, to) = parted(names);
    let packet = packet_from(text)?;
    let (from, to) = (address_of(net, from)?, address_of(net, to)?);
    Some(packet_model::proper(&packet, from, to))
}

/// Whether the packet of some words is one from the first host to the second.
pub fn properness(net: &Topology, words: &str, out: &mut Lines) {
    let (text, names) = parted(words);
    match is_proper(net, text, names) {
        Some(is_proper) => out.answer(0, verdict(is_proper)),
        None => out.answer(1, "no packet and hosts"),
    }
}
