//! The rule that acts at a switch, as OpenFlow has it: of the rules that fit, the first among those of the highest priority. One
//! pass over the rules keeps the best so far.

ghost use Rattle.std.specs.Prelude.{◌≡◌, ◌<◌, ◌+◌, length, IfSome, IfNone};
ghost use Rattle.merlin_model.specs.declared.config.Rule.{Rule};
ghost use Rattle.merlin_model.specs.Machine.{agrees, vlan_agrees, fits, is_for, ActsAt};
ghost use Rattle.packet_trace.specs.Fitting.{frame, frame_of, link_fits, network_fits, NoneFits, beats, IsBestBelow};

use crate::frame::Frame;
use config_text::{Match, Rule, Vlan};
use packet_model::{Field, Packet};

// Whether a field of a match, if it is named, has this value.
pub(crate) fn agrees(named: Option<u64>, value: u64) -> bool
    ensures { result ≡ agrees named value }
{
    match named {
        None => true,
        Some(named) => named == value,
    }
}

fn vlan_agrees(named: Option<Vlan>, tag: Option<u16>) -> bool
    ensures { result ≡ vlan_agrees named tag }
{
    match named {
        None => true,
        Some(Vlan::Untagged) => tag.is_none(),
        Some(Vlan::Tag(named)) => tag == Some(named),
    }
}

// Whether the arrival port, the Ethernet addresses and the tag fit.
fn link_fits(wanted: &Match, frame: &Frame) -> bool
    ensures { result ≡ link_fits wanted.now (frame_of frame.now) }
{
    agrees(wanted.in_port.map(u64::from), u64::from(frame.port))
        && agrees(wanted.dl_src, frame.packet.value(Field::EthSrc))
        && agrees(wanted.dl_dst, frame.packet.value(Field::EthDst))
        && vlan_agrees(wanted.dl_vlan, frame.tag)
}

// Whether the protocol and the IPv4 addresses fit too.
fn network_fits(wanted: &Match, frame: &Frame) -> bool
    ensures { result ≡ network_fits wanted.now (frame_of frame.now) }
{
    let packet = &frame.packet;
    link_fits(wanted, frame)
        && agrees(wanted.nw_proto.map(u64::from), packet.value(Field::Proto))
        && agrees(wanted.nw_src.map(u64::from), packet.value(Field::IpSrc))
        && agrees(wanted.nw_dst.map(u64::from), packet.value(Field::IpDst))
}

fn fits(wanted: &Match, frame: &Frame) -> bool
    ensures { result ≡ fits wanted.now (frame_of frame.now) }
{
    network_fits(wanted, frame)
        && agrees(
            wanted.tp_src.map(u64::from),
            frame.packet.value(Field::Sport),
        )
        && agrees(
            wanted.tp_dst.map(u64::from),
            frame.packet.value(Field::Dport),
        )
}

fn is_for(rule: &Rule, frame: &Frame) -> bool
    ensures { result ≡ is_for (frame_of frame.now) rule.now }
{
    rule.loc == frame.loc && fits(&rule.fits, frame)
}

// Whether a rule of this priority comes before the best so far, which stands at a place and has a priority.
fn beats(best: Option<(usize, u16)>, priority: u16) -> bool
    ensures { result ≡ beats best priority }
{
    match best {
        None => true,
        Some((_, highest)) => highest < priority,
    }
}

// The best of the rules before a place, and of the rule at it.
fn better(
    rules: &[Rule],
    best: Option<(usize, u16)>,
    place: usize,
    frame: &Frame,
) -> Option<(usize, u16)>
    requires place { place < length rules.now }
    requires best { IsBestBelow rules.now (frame_of frame.now) place best }
    ensures { IsBestBelow rules.now (frame_of frame.now) (place + 1) result }
{
    let rule = &rules[place];
    if beats(best, rule.priority) && is_for(rule, frame) {
        Some((place, rule.priority))
    } else {
        best
    }
}

/// The place of the rule that acts on a frame at a switch: of the rules there that fit, the first whose priority is the
/// highest. None where no rule fits.
pub fn fitting_rule(
    rules: &[Rule],
    loc: usize,
    port: u16,
    tag: Option<u16>,
    packet: &Packet,
) -> Option<usize>
    ensures some { IfSome result (λ place. (rule : Rule)
        × ActsAt rules.now (frame loc port tag packet.now) place rule) }
    ensures none { IfNone result (NoneFits rules.now (frame loc port tag packet.now)) }
{
    let frame = Frame {
        loc,
        port,
        tag,
        packet: *packet,
    };
    let mut best = None;
    for place in 0..rules.len() {
        best = better(rules, best, place, &frame);
    }
    let (place, _) = best?;
    Some(place)
}
