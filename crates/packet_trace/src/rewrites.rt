//! What packet functions do by their declarations.

ghost use Rattle.std.specs.Prelude.{◌≡◌};
ghost use Rattle.packet_trace.specs.Rewrites.{may_set, with_member, rewritten};

use packet_model::{Field, Packet};
use topology::FnDecl;

// Whether a field may be set to a value: the value is in its range, and the field is not the destination that switches go by.
fn may_set(field: Field, value: u64) -> bool
    ensures { result ≡ may_set field value }
{
    match field {
        Field::EthSrc => value < 1 << 48,
        Field::EthDst => false,
        Field::IpSrc | Field::IpDst => value < 1 << 32,
        Field::Proto => value < 1 << 8,
        Field::Sport | Field::Dport => value < 1 << 16,
    }
}

fn with_member(member: (Field, u64), packet: Packet) -> Packet
    ensures with { result ≡ with_member member packet }
    ensures keeps { result.eth_dst ≡ packet.eth_dst }
{
    let (field, value) = member;
    if may_set(field, value) {
        packet.with(field, value)
    } else {
        packet
    }
}

/// The packet that a function leaves by its declaration: with each field of its `set` list set in turn, but for the destination Ethernet
/// address and values out of their field's range, which no topology that is read has.
pub fn declared(decl: &FnDecl, packet: Packet) -> Packet
    ensures rewritten { result ≡ rewritten decl.now packet }
    ensures keeps { result.eth_dst ≡ packet.eth_dst }
{
    let mut changed = packet;
    for member in decl.set.as_slice() {
        changed = with_member(*member, changed);
    }
    changed
}
