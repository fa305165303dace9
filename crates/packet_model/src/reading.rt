//! Packets from their texts.

ghost use Rattle.std.specs.Prelude.{◌≡◌, ℕ, ◌∷◌, ◌<◌, length, Ok, Err, IfOk, IfErr, IfSome, IfNone};
ghost use Rattle.merlin_model.specs.Packets.{Packet as Header, IsPacket, field_of};
ghost use Rattle.merlin_model.specs.Predicates.{IsPort};
ghost use Rattle.packet_model.specs.Fields.{packet_with};
ghost use Rattle.packet_model.specs.Texts.{IsValueText, IsPacketText, IsFirstWrong, parts_of, later_parts, fault_place};
ghost use Rattle.packet_model.specs.declared.reading.PacketFault.TheVariants.{BadPacket};

use crate::fields::{Packet, packet_of};
use merlin_base::{ip_value, mac_value, read_decimal};
use merlin_model::policy::Field;

/// Why a text is no packet. The place is a byte offset.
#[derive(Clone, Copy)]
pub enum PacketFault {
    BadPacket { at: usize },
}

/// The packet of a text such as `00:00:00:00:00:01,00:00:00:00:00:02,10.0.0.1,10.0.0.2,6,1000,80`. Macs may have
/// digits of either case. The fault names the start of the first part that is wrong or missing, which is the length of
/// the text where a comma is missing, and the comma before whatever follows the seventh part.
pub fn parse_packet(text: &[u8]) -> Result<Packet, PacketFault>
    ensures packet { IfOk result (IsPacketText text.now) }
    ensures place { IfErr result (λ fault. IsFirstWrong text.now (fault_place fault)) }
    ensures only { (p : Header) → IsPacketText text.now p → result ≡ Ok p }
    ensures only_place { (at : ℕ) → IsFirstWrong text.now at → result ≡ Err (BadPacket at) }
{
    let fields = [
        Field::EthSrc,
        Field::EthDst,
        Field::IpSrc,
        Field::IpDst,
        Field::Proto,
        Field::Sport,
        Field::Dport,
    ];
    let mut packet = Packet::zero();
    let mut rest = Some(text);
    for field in fields {
        let Some(unread) = rest else {
            return Err(PacketFault::BadPacket { at: text.len() });
        };
        let (part, after) = first_part(unread);
        let Some(read) = read_field(&packet, field, part) else {
            let at = text.len() - unread.len();
            return Err(PacketFault::BadPacket { at });
        };
        packet = read;
        rest = after;
    }
    match rest {
        None => Ok(packet),
        Some(more) => Err(PacketFault::BadPacket {
            at: text.len() - more.len() - 1,
        }),
    }
}

/// The text up to its first comma, and what follows it.
fn first_part(text: &[u8]) -> (&[u8], Option<&[u8]>)
    ensures parts { parts_of text.now ≡ result.0.now ∷ later_parts result.1 }
    ensures shorter { IfSome result.1 (λ after. length after.now < length text.now) }
{
    for (place, byte) in text.iter().enumerate() {
        if *byte == b',' {
            return (&text[..place], Some(&text[place + 1..]));
        }
    }
    (text, None)
}

/// The packet with the field that the part names. None where the part is no such text, or a port that the packet cannot
/// have.
fn read_field(packet: &Packet, field: Field, part: &[u8]) -> Option<Packet>
    ensures is_packet { IfSome result IsPacket }
    ensures some { IfSome result (λ read.
        (read ≡ packet_with packet.now field (field_of field read))
        × IsValueText field part.now (field_of field read)) }
    ensures none { IfNone result ((p : Header) → IsPacket p →
        (IsPort field → p.proto ≡ packet.now.proto) →
        IsValueText field part.now (field_of field p) → ⊥) }
{
    let value = field_value(field, part)?;
    let read = packet.with(field, value);
    if read.value(field) == value {
        Some(read)
    } else {
        None
    }
}

/// The value of a field's text.
fn field_value(field: Field, part: &[u8]) -> Option<u64>
    ensures value { IfSome result (IsValueText field part.now) }
    ensures none { IfNone result ((n : ℕ) → IsValueText field part.now n → ⊥) }
{
    match field {
        Field::EthSrc | Field::EthDst => mac_value(part),
        Field::IpSrc | Field::IpDst => Some(u64::from(ip_value(part)?)),
        Field::Proto => read_decimal(part).filter(|number| *number < 1 << 8),
        Field::Sport | Field::Dport => read_decimal(part).filter(|number| *number < 1 << 16),
    }
}
