//! Packets between two hosts that stand for all others: each value of the protocol and of the ports that is mentioned, with the least of all others.

ghost use Rattle.std.specs.Prelude.{◌≡◌, ◌<◌, ◌^◌, ◌++◌, ◌∷◌, [], ◌≢◌, false, List, ℕ, IfOk, OnOk};
ghost use Rattle.std.specs.List.{AllByRecursion, flat_map};
ghost use Rattle.merlin_model.specs.declared.policy.Field.{Field};
ghost use Rattle.merlin_model.specs.Predicates.{IsPred};
ghost use Rattle.packet_model.specs.Fields.{has_ports as has_ports_of};
ghost use Rattle.predicate_logic.specs.Mentions.{mentions, ascending as ascending_of};
ghost use Rattle.predicate_logic.specs.Residues.{residues};
ghost use Rattle.predicate_split.specs.Parts.{least_from};
ghost use Rattle.predicate_split.specs.Cells.{between_hosts, packet_between, protos};
ghost use Rattle.negotiator.specs.StandIns.{least_other, ports_told as told, packets_to, packets_from, packets_under as under_proto, other_packets, packets_left as all_left, HasSmallPorts, AreFreeOfPorts, IsHostAddress, AreStandIns};

use merlin_model::OutOfMemory;
use merlin_model::network::HostAddress;
use merlin_model::policy::{Field, Pred};
use packet_model::{Packet, packet_of};
use predicate_logic::{ascending, collect_all, partial};
use sqlite_items::Items;
use std::alloc::Global;

// Adds what is left of a predicate where the field has this value.
fn push_residue(
    alloc: Global,
    pred: &Pred,
    field: Field,
    value: u64,
    left: &mut Items<Pred>,
) -> Result<(), OutOfMemory>
    ensures { OnOk result (left.new ≡ left.old ++ residues field value (pred.now ∷ [])) }
{
    let rest = partial(alloc, pred, field, value)?;
    left.push(rest)?;
    Ok(())
}

// What is left of the predicates where the field has this value.
fn left_at(
    alloc: Global,
    preds: &[Pred],
    field: Field,
    value: u64,
) -> Result<Items<Pred>, OutOfMemory>
    ensures { IfOk result (λ left. left ≡ residues field value preds.now) }
{
    let mut left = Items::new(alloc);
    for pred in preds {
        push_residue(alloc, pred, field, value, &mut left)?;
    }
    Ok(left)
}

// What is left of the predicates between two hosts.
fn left_between(
    alloc: Global,
    preds: &[Pred],
    src: HostAddress,
    dst: HostAddress,
) -> Result<Items<Pred>, OutOfMemory>
    ensures { IfOk result (λ left. left ≡ between_hosts src dst preds.now) }
{
    let left = left_at(alloc, preds, Field::EthSrc, src.eth)?;
    let left = left_at(alloc, left.as_slice(), Field::EthDst, dst.eth)?;
    let left = left_at(alloc, left.as_slice(), Field::IpSrc, u64::from(src.ip))?;
    left_at(alloc, left.as_slice(), Field::IpDst, u64::from(dst.ip))
}

// The values that the predicates mention for the field, ascending, each once.
fn named_by(alloc: Global, preds: &[Pred], field: Field) -> Result<Vec<u64>, OutOfMemory>
    ensures { IfOk result (λ values. values.items ≡
        ascending_of (flat_map (mentions field) preds.now)) }
{
    let mut values = Vec::new(alloc);
    collect_all(preds, field, &mut values)?;
    Ok(ascending(values))
}

// The least number that is not among ascending ones.
fn least_unnamed(named: &[u64]) -> u64
    ensures { result ≡ least_from 0 named.now }
{
    let mut passed: usize = 0;
    for value in named {
        let least = passed as u64;
        if *value > least {
            return least;
        }
        if *value == least {
            passed += 1;
        }
    }
    passed as u64
}

// Ascending numbers, and the least that is not among them, where it is below the limit.
fn with_least(mut named: Vec<u64>, limit: u64) -> Result<Vec<u64>, OutOfMemory>
    ensures { IfOk result (λ values. values.items ≡ named.items ++ least_other limit named.items) }
{
    let least = least_unnamed(&named);
    if least < limit {
        named.push(least)?;
    }
    Ok(named)
}

fn has_ports(proto: u8) -> bool
    ensures { result ≡ has_ports_of proto }
{
    proto == 6 || proto == 17
}

// The ports that are told apart under a protocol, by what is left of the predicates.
fn ports_told(
    alloc: Global,
    under: &[Pred],
    field: Field,
    proto: u8,
) -> Result<Vec<u64>, OutOfMemory>
    ensures { IfOk result (λ ports. ports.items ≡ told field under.now proto) }
{
    if !has_ports(proto) {
        return Ok(vec![in alloc; 0; 1]?);
    }
    let named = named_by(alloc, under, field)?;
    with_least(named, 1 << 16)
}

// Adds the packet between two hosts with this protocol and these ports.
fn push_packet(
    src: HostAddress,
    dst: HostAddress,
    proto: u8,
    sport: u16,
    dport: u16,
    packets: &mut Vec<Packet>,
) -> Result<(), OutOfMemory>
    requires src { IsHostAddress src }
    requires dst { IsHostAddress dst }
    requires ports { has_ports_of proto ≡ false → (sport ≡ 0) × (dport ≡ 0) }
    ensures { OnOk result (packets.new.items ≡
        packets.old.items ++ (packet_between src dst proto sport dport ∷ [])) }
{
    if let Some(packet) = packet_of(src.eth, dst.eth, src.ip, dst.ip, proto, sport, dport) {
        packets.push(packet)?;
    }
    Ok(())
}

// Adds the packets with this protocol and source port and each of these destination ports.
fn add_to(
    src: HostAddress,
    dst: HostAddress,
    proto: u8,
    sport: u16,
    dports: &[u64],
    packets: &mut Vec<Packet>,
) -> Result<(), OutOfMemory>
    requires src { IsHostAddress src }
    requires dst { IsHostAddress dst }
    requires small { AllByRecursion (λ n. n < 2 ^ 16) dports.now }
    requires sport { has_ports_of proto ≡ false → sport ≡ 0 }
    requires dports { AreFreeOfPorts proto dports.now }
    ensures { OnOk result (packets.new.items ≡
        packets.old.items ++ packets_to src dst dports.now proto sport) }
{
    for dport in dports {
        push_packet(src, dst, proto, sport, *dport as u16, packets)?;
    }
    Ok(())
}

// Adds the packets with this protocol and each of these ports.
fn add_from(
    src: HostAddress,
    dst: HostAddress,
    proto: u8,
    sports: &[u64],
    dports: &[u64],
    packets: &mut Vec<Packet>,
) -> Result<(), OutOfMemory>
    requires src { IsHostAddress src }
    requires dst { IsHostAddress dst }
    requires small_sports { AllByRecursion (λ n. n < 2 ^ 16) sports.now }
    requires small_dports { AllByRecursion (λ n. n < 2 ^ 16) dports.now }
    requires sports { AreFreeOfPorts proto sports.now }
    requires dports { AreFreeOfPorts proto dports.now }
    ensures { OnOk result (packets.new.items ≡
        packets.old.items ++ packets_from src dst sports.now dports.now proto) }
{
    for sport in sports {
        add_to(src, dst, proto, *sport as u16, dports, packets)?;
    }
    Ok(())
}

// Adds the packets under a protocol that is mentioned.
fn add_under(
    alloc: Global,
    src: HostAddress,
    dst: HostAddress,
    left: &[Pred],
    proto: u8,
    packets: &mut Vec<Packet>,
) -> Result<(), OutOfMemory>
    requires src { IsHostAddress src }
    requires dst { IsHostAddress dst }
    requires ports { HasSmallPorts left.now proto }
    ensures { OnOk result (packets.new.items ≡
        packets.old.items ++ under_proto src dst left.now proto) }
{
    let under = left_at(alloc, left, Field::Proto, u64::from(proto))?;
    let sports = ports_told(alloc, under.as_slice(), Field::Sport, proto)?;
    let dports = ports_told(alloc, under.as_slice(), Field::Dport, proto)?;
    add_from(src, dst, proto, &sports, &dports, packets)
}

// Adds the packets under each of these protocols.
fn add_all(
    alloc: Global,
    src: HostAddress,
    dst: HostAddress,
    left: &[Pred],
    named: &[u64],
    packets: &mut Vec<Packet>,
) -> Result<(), OutOfMemory>
    requires src { IsHostAddress src }
    requires dst { IsHostAddress dst }
    requires named { AllByRecursion (λ n. n < 2 ^ 8) named.now }
    requires ports { (proto : ℕ) → HasSmallPorts left.now proto }
    ensures { OnOk result (packets.new.items ≡
        packets.old.items ++ flat_map (under_proto src dst left.now) named.now) }
{
    for proto in named {
        add_under(alloc, src, dst, left, *proto as u8, packets)?;
    }
    Ok(())
}

// Adds the packet under the least protocol that is not among these.
fn add_other(
    src: HostAddress,
    dst: HostAddress,
    named: &[u64],
    packets: &mut Vec<Packet>,
) -> Result<(), OutOfMemory>
    requires src { IsHostAddress src }
    requires dst { IsHostAddress dst }
    ensures { OnOk result (packets.new.items ≡
        packets.old.items ++ other_packets src dst named.now) }
{
    let proto = least_unnamed(named);
    if proto < 1 << 8 {
        push_packet(src, dst, proto as u8, 0, 0, packets)?;
    }
    Ok(())
}

// The packets that stand for all others, by what is left of the predicates.
fn packets_left(
    alloc: Global,
    src: HostAddress,
    dst: HostAddress,
    left: &[Pred],
) -> Result<Vec<Packet>, OutOfMemory>
    requires src { IsHostAddress src }
    requires dst { IsHostAddress dst }
    requires named { AllByRecursion (λ n. n < 2 ^ 8) (protos left.now) }
    requires ports { (proto : ℕ) → HasSmallPorts left.now proto }
    ensures { IfOk result (λ packets. packets.items ≡ all_left src dst left.now) }
{
    let mut packets = Vec::new(alloc);
    let named = named_by(alloc, left, Field::Proto)?;
    add_all(alloc, src, dst, left, &named, &mut packets)?;
    add_other(src, dst, &named, &mut packets)?;
    Ok(packets)
}

/// Packets between two hosts, of which one is no later than each packet between them and is judged alike by all of the predicates.
pub(crate) fn stand_ins(
    alloc: Global,
    preds: &[Pred],
    src: HostAddress,
    dst: HostAddress,
) -> Result<Vec<Packet>, OutOfMemory>
    requires preds { AllByRecursion IsPred preds.now }
    requires src { IsHostAddress src }
    requires dst { IsHostAddress dst }
    requires differ { src ≢ dst }
    ensures { IfOk result (λ packets. AreStandIns preds.now src dst packets.items) }
{
    let left = left_between(alloc, preds, src, dst)?;
    packets_left(alloc, src, dst, left.as_slice())
}
