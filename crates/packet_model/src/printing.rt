//! Packets as texts.

ghost use Rattle.std.specs.Prelude.{◌≡◌, ◌++◌, ◌∷◌, [], IfOk};
ghost use Rattle.std.specs.List.{join_with_byte};
ghost use Rattle.packet_model.specs.Texts.{packet_text, IsPacketText};

use crate::fields::Packet;
use merlin_base::{Name, OutOfMemory, ip_text, mac_text, name_from};
use std::alloc::Global;

/// The text of a packet, such as `00:00:00:00:00:01,00:00:00:00:00:02,10.0.0.1,10.0.0.2,6,1000,80`, with Macs in lower
/// case. It reads back to the same packet.
pub fn print_packet(alloc: Global, packet: &Packet) -> Result<Name, OutOfMemory>
    ensures text { IfOk result (λ text. text ≡ packet_text packet.now) }
    ensures reads_back { IfOk result (λ text. IsPacketText text packet.now) }
{
    let addresses = [
        mac_text(alloc, packet.eth_src)?,
        mac_text(alloc, packet.eth_dst)?,
        ip_text(alloc, packet.ip_src)?,
        ip_text(alloc, packet.ip_dst)?,
    ];
    let Packet {
        proto,
        sport,
        dport,
        ..
    } = *packet;
    let numbers = format!(in alloc; "{proto},{sport},{dport}")?;
    join_parts(alloc, &addresses, &numbers)
}

/// These parts, each with a comma after it, and a last part.
fn join_parts(alloc: Global, parts: &[Name], last: &str) -> Result<Name, OutOfMemory>
    ensures { IfOk result (λ text. text ≡ join_with_byte 44 (parts.now ++ last.now ∷ [])) }
{
    let mut text = Vec::new(alloc);
    for part in parts {
        text.extend_from_slice(part.bytes())?;
        text.push(b',')?;
    }
    text.extend_from_slice(last.as_bytes())?;
    name_from(alloc, &text)
}
