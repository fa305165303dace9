//! A packet, seen as its seven numbers.

ghost use Rattle.std.specs.Prelude.{◌≡◌, ◌↔◌, IsTrue, IfSome, IfNone};
ghost use Rattle.merlin_model.specs.Packets.{IsPacket, field_of};
ghost use Rattle.merlin_model.specs.Predicates.{IsInRange};
ghost use Rattle.packet_model.specs.Fields.{has_ports, packet_with, IsBetween, TellsProper};

use merlin_model::network::HostAddress;
use merlin_model::policy::Field;
use std::marker::Model;

/// The header of a packet: 48-bit Ethernet addresses, 32-bit IPv4 addresses, the IP protocol, and ports, which are 0
/// under every protocol but TCP (6) and UDP (17). Packets are ordered by their fields in this order.
#[derive(Clone, Copy, PartialEq, Eq)]
pub struct Packet {
    pub(crate) eth_src: u64,
    pub(crate) eth_dst: u64,
    pub(crate) ip_src: u32,
    pub(crate) ip_dst: u32,
    pub(crate) proto: u8,
    pub(crate) sport: u16,
    pub(crate) dport: u16,
}

impl Model for Packet {
    ghost use Rattle.merlin_model.specs.Packets.{Packet as Header, IsPacket};

    ghost Value = { Header };

    ghost view = { λ a. record {
      eth_src = a.eth_src;
      eth_dst = a.eth_dst;
      ip_src = a.ip_src;
      ip_dst = a.ip_dst;
      proto = a.proto;
      sport = a.sport;
      dport = a.dport;
    } };

    ghost invariant = { λ a. IsPacket (record {
      eth_src = a.eth_src;
      eth_dst = a.eth_dst;
      ip_src = a.ip_src;
      ip_dst = a.ip_dst;
      proto = a.proto;
      sport = a.sport;
      dport = a.dport;
    }) };

    ghost inverse = { λ p. record {
      eth_src = p.eth_src;
      eth_dst = p.eth_dst;
      ip_src = p.ip_src;
      ip_dst = p.ip_dst;
      proto = p.proto;
      sport = p.sport;
      dport = p.dport;
    } };
}

/// The packet with these fields. None where an Ethernet address has more than 48 bits, or where a port is not 0 under a
/// protocol that has no ports.
pub fn packet_of(
    eth_src: u64,
    eth_dst: u64,
    ip_src: u32,
    ip_dst: u32,
    proto: u8,
    sport: u16,
    dport: u16,
) -> Option<Packet>
    ensures some { IfSome result (λ p. (p ≡ record {
      eth_src = eth_src;
      eth_dst = eth_dst;
      ip_src = ip_src;
      ip_dst = ip_dst;
      proto = proto;
      sport = sport;
      dport = dport;
    }) ×
        IsPacket p) }
    ensures none { IfNone result (IsPacket (record {
      eth_src = eth_src;
      eth_dst = eth_dst;
      ip_src = ip_src;
      ip_dst = ip_dst;
      proto = proto;
      sport = sport;
      dport = dport;
    }) → ⊥) }
{
    if eth_src >= 1 << 48 || eth_dst >= 1 << 48 {
        return None;
    }
    if !has_ports(proto) && (sport != 0 || dport != 0) {
        return None;
    }
    Some(Packet {
        eth_src,
        eth_dst,
        ip_src,
        ip_dst,
        proto,
        sport,
        dport,
    })
}

/// Whether packets of the protocol have ports.
pub(crate) fn has_ports(proto: u8) -> bool
    ensures { result ≡ has_ports proto }
{
    proto == 6 || proto == 17
}

impl Packet {
    /// The packet whose fields are all 0.
    pub(crate) fn zero() -> Packet
        ensures zero { result ≡ record {
          eth_src = 0;
          eth_dst = 0;
          ip_src = 0;
          ip_dst = 0;
          proto = 0;
          sport = 0;
          dport = 0;
        } }
        ensures packet { IsPacket result }
    {
        Packet {
            eth_src: 0,
            eth_dst: 0,
            ip_src: 0,
            ip_dst: 0,
            proto: 0,
            sport: 0,
            dport: 0,
        }
    }

    /// A field of the packet.
    pub fn value(&self, field: Field) -> u64
        ensures value { result ≡ field_of field self.now }
        ensures range { IsInRange field result }
        ensures packet { IsPacket self.now }
    {
        match field {
            Field::EthSrc => self.eth_src,
            Field::EthDst => self.eth_dst,
            Field::IpSrc => self.ip_src as u64,
            Field::IpDst => self.ip_dst as u64,
            Field::Proto => self.proto as u64,
            Field::Sport => self.sport as u64,
            Field::Dport => self.dport as u64,
        }
    }

    /// The packet with one field set. Where its protocol then has no ports, both are 0.
    pub fn with(&self, field: Field, value: u64) -> Packet
        requires { IsInRange field value }
        ensures with { result ≡ packet_with self.now field value }
        ensures packet { IsPacket result }
    {
        let mut packet = *self;
        match field {
            Field::EthSrc => packet.eth_src = value,
            Field::EthDst => packet.eth_dst = value,
            Field::IpSrc => packet.ip_src = value as u32,
            Field::IpDst => packet.ip_dst = value as u32,
            Field::Proto => packet.proto = value as u8,
            Field::Sport => packet.sport = value as u16,
            Field::Dport => packet.dport = value as u16,
        }
        if !has_ports(packet.proto) {
            packet.sport = 0;
            packet.dport = 0;
        }
        packet
    }
}

/// Whether the packet is proper from one host to another: it bears both source addresses of the one and both destination addresses of the other.
pub fn proper(packet: &Packet, src: HostAddress, dst: HostAddress) -> bool
    ensures between { IsTrue result ↔ IsBetween packet.now src dst }
    ensures in_network { TellsProper result packet.now src dst }
{
    src != dst
        && packet.eth_src == src.eth
        && packet.ip_src == src.ip
        && packet.eth_dst == dst.eth
        && packet.ip_dst == dst.ip
}
