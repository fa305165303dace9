//! What a host does with a packet that starts there, as iptables reads its lists: OUTPUT goes by its first line that fits;
//! POSTROUTING is read to its first RETURN that fits, and the last CLASSIFY before it that fits counts.

ghost use Rattle.std.specs.Prelude.{◌≡◌, option_map};
ghost use Rattle.merlin_model.specs.Machine.{agrees, host_fits, output_of, class_of, leaves, is_dropped_by, class_by, uplink_of};
ghost use Rattle.topology.specs.Look.{far_end};

use crate::fitting::agrees;
use config_text::{HostLine, HostMatch};
use packet_model::{Field, Packet};
use topology::Topology;

fn host_fits(fits: &HostMatch, packet: &Packet) -> bool
    ensures { result ≡ host_fits fits.now packet.now }
{
    u64::from(fits.src) == packet.value(Field::IpSrc)
        && u64::from(fits.dst) == packet.value(Field::IpDst)
        && agrees(fits.proto.map(u64::from), packet.value(Field::Proto))
        && agrees(fits.sport.map(u64::from), packet.value(Field::Sport))
        && agrees(fits.dport.map(u64::from), packet.value(Field::Dport))
}

// What a line of OUTPUT that fits says: whether it drops.
fn output_of(line: &HostLine, host: usize, packet: &Packet) -> Option<bool>
    ensures { result ≡ output_of host packet.now line.now }
{
    match line {
        HostLine::Output {
            host: at,
            fits,
            drop,
        } if *at == host && host_fits(fits, packet) => Some(*drop),
        _ => None,
    }
}

// The class of a CLASSIFY that fits.
fn class_of(line: &HostLine, host: usize, packet: &Packet) -> Option<u16>
    ensures { result ≡ class_of host packet.now line.now }
{
    match line {
        HostLine::Classify {
            host: at,
            fits,
            class,
        } if *at == host && host_fits(fits, packet) => Some(*class),
        _ => None,
    }
}

// Whether the line is a RETURN of POSTROUTING that fits.
fn leaves(line: &HostLine, host: usize, packet: &Packet) -> bool
    ensures { result ≡ leaves host packet.now line.now }
{
    match line {
        HostLine::Leave { host: at, fits } => *at == host && host_fits(fits, packet),
        _ => false,
    }
}

/// Whether the first line of OUTPUT that fits drops the packet.
pub(crate) fn is_dropped(lines: &[HostLine], host: usize, packet: &Packet) -> bool
    ensures { result ≡ is_dropped_by lines.now host packet.now }
{
    for line in lines {
        if let Some(drop) = output_of(line, host, packet) {
            return drop;
        }
    }
    false
}

/// The class of the last CLASSIFY that fits before the first RETURN that does.
pub(crate) fn class_by(lines: &[HostLine], host: usize, packet: &Packet) -> Option<u16>
    ensures { result ≡ class_by lines.now host packet.now }
{
    let mut class = None;
    for line in lines {
        if leaves(line, host, packet) {
            return class;
        }
        class = class_of(line, host, packet).or(class);
    }
    class
}

/// The location and the port at the other end of the host's link. None where it has none.
pub(crate) fn link_of(net: &Topology, host: usize) -> Option<(usize, u16)>
    ensures { result ≡ option_map far_end (uplink_of net.now host) }
{
    for link in net.links() {
        if link.a == host {
            return Some((link.b, link.bport));
        }
        if link.b == host {
            return Some((link.a, link.aport));
        }
    }
    None
}
