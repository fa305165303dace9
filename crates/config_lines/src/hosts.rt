//! Lines of hosts: classes of tc, and lists of iptables.

ghost use Rattle.std.specs.Prelude.{ℕ, ◌≡◌, ◌≢◌, ◌⊎◌, ◌++◌, ◌∷◌, Bool, true, false, Option, None, List, IfSome, IfNone};
ghost use Rattle.std.specs.Fmt.{decimal};
ghost use Rattle.merlin_model.specs.declared.config.HostMatch.{HostMatch as Matched};
ghost use Rattle.merlin_model.specs.declared.config.HostLine.{HostLine as Stated};
ghost use Rattle.config_text.specs.Lines.{proto_text, host_of};
ghost use Rattle.config_lines.specs.declared.hosts.Ports.{Ports as Named};
ghost use Rattle.config_lines.specs.Words.{IsOptional};
ghost use Rattle.config_lines.specs.Parts.{HasOneByte, HasTwoBytes, IsHostMatch};
ghost use Rattle.config_lines.specs.Lines.{IsClass, AreHostNumbers, host_line, IsHostLine};
ghost use Rattle.config_lines.specs.Hosts.{option_then, ports_then, ArePorts, match_then, AreRates, class_then, target_then, verdict_then, postrouting, host_then};

use crate::addresses::ip_then;
use crate::classes::class_then as read_class_then;
use crate::words::{location_then, rate_then, read_short, short_then};
use merlin_base::{split_at_byte, strip_front};
use merlin_model::config::{HostLine, HostMatch};
use topology::Topology;

/// What a line of iptables says of protocol and ports.
#[derive(Clone, Copy)]
pub struct Ports {
    pub proto: Option<u8>,
    pub sport: Option<u16>,
    pub dport: Option<u16>,
}

// The protocol that the word names.
fn read_proto(word: &[u8]) -> Option<u8>
    ensures some { IfSome result (λ n. (word.now ≡ proto_text n) × HasOneByte n) }
    ensures none { IfNone result ((n : ℕ) → HasOneByte n → word.now ≡ proto_text n → ⊥) }
{
    if word == b"tcp".as_slice() {
        return Some(6);
    }
    if word == b"udp".as_slice() {
        return Some(17);
    }
    let number = read_short(word, 0, 255)?;
    if number == 6 {
        return None;
    }
    if number == 17 {
        return None;
    }
    Some(number as u8)
}

// The protocol before the first blank, and what stands behind that.
fn proto_then(text: &[u8]) -> Option<(u8, &[u8])>
    ensures some { IfSome result (λ r.
        (text.now ≡ proto_text r.0 ++ 32 ∷ r.1.now) × HasOneByte r.0) }
    ensures none { IfNone result ((n : ℕ) (rest : List ℕ) → HasOneByte n →
        text.now ≡ proto_text n ++ 32 ∷ rest → ⊥) }
{
    let (word, rest) = split_at_byte(text, b' ')?;
    let proto = read_proto(word)?;
    Some((proto, rest))
}

// Whether packets of the protocol have ports: those of TCP and UDP.
fn has_ports(proto: u8) -> bool
    ensures yes { result ≡ true → (proto ≡ 6) ⊎ (proto ≡ 17) }
    ensures no { result ≡ false → (proto ≢ 6) × (proto ≢ 17) }
{
    proto == 6 || proto == 17
}

// The port behind this option, if the text begins with the option, and what stands behind the two.
fn port_then<'a>(text: &'a [u8], name: &[u8]) -> Option<(Option<u16>, &'a [u8])>
    ensures some { IfSome result (λ r. (text.now ≡ option_then name.now decimal r.0 r.1.now)
        × IsOptional HasTwoBytes r.0) }
    ensures plain { IfSome result (λ r. r.0 ≡ None → (rest : List ℕ) →
        text.now ≡ name.now ++ rest → ⊥) }
    ensures begins { IfNone result ((rest : List ℕ) × (text.now ≡ name.now ++ rest)) }
    ensures none { IfNone result ((n : ℕ) (rest : List ℕ) → HasTwoBytes n →
        text.now ≡ name.now ++ (decimal n ++ 32 ∷ rest) → ⊥) }
{
    let Some(rest) = strip_front(text, name) else {
        return Some((None, text));
    };
    let (port, rest) = short_then(rest, b' ', 0, 65535)?;
    Some((Some(port), rest))
}

// The protocol and the ports with which the text begins, and what stands behind the option that names the target.
fn read_ports(text: &[u8]) -> Option<(Ports, &[u8])>
    ensures some { IfSome result (λ r. (text.now ≡ ports_then r.0 r.1.now) × ArePorts r.0) }
    ensures none { IfNone result ((ports : Named) (rest : List ℕ) → ArePorts ports →
        text.now ≡ ports_then ports rest → ⊥) }
{
    let Some(rest) = strip_front(text, b"-p ") else {
        let rest = strip_front(text, b"-j ")?;
        let ports = Ports {
            proto: None,
            sport: None,
            dport: None,
        };
        return Some((ports, rest));
    };
    let (proto, rest) = proto_then(rest)?;
    if !has_ports(proto) {
        let rest = strip_front(rest, b"-j ")?;
        let ports = Ports {
            proto: Some(proto),
            sport: None,
            dport: None,
        };
        return Some((ports, rest));
    }
    let (sport, rest) = port_then(rest, b"--sport ")?;
    let (dport, rest) = port_then(rest, b"--dport ")?;
    let rest = strip_front(rest, b"-j ")?;
    let ports = Ports {
        proto: Some(proto),
        sport,
        dport,
    };
    Some((ports, rest))
}

// What a line of iptables matches, and what stands behind the option that names its target.
fn read_host_match(text: &[u8]) -> Option<(HostMatch, &[u8])>
    ensures some { IfSome result (λ r. (text.now ≡ match_then r.0 r.1.now) × IsHostMatch r.0) }
    ensures none { IfNone result ((m : Matched) (rest : List ℕ) → IsHostMatch m →
        text.now ≡ match_then m rest → ⊥) }
{
    let rest = strip_front(text, b"-s ")?;
    let (src, rest) = ip_then(rest)?;
    let rest = strip_front(rest, b"-d ")?;
    let (dst, rest) = ip_then(rest)?;
    let (ports, rest) = read_ports(rest)?;
    let Ports {
        proto,
        sport,
        dport,
    } = ports;
    let fits = HostMatch {
        src,
        dst,
        proto,
        sport,
        dport,
    };
    Some((fits, rest))
}

// Rate and ceiling of a class.
fn read_rates(text: &[u8]) -> Option<((u16, u64, u64), &[u8])>
    ensures some { IfSome result (λ r.
        (text.now ≡ class_then r.0.0 r.0.1 r.0.2 r.1.now) × AreRates r.0.0 r.0.1 r.0.2) }
    ensures none { IfNone result ((class rate ceil : ℕ) (rest : List ℕ) →
        AreRates class rate ceil → text.now ≡ class_then class rate ceil rest → ⊥) }
{
    let (class, rest) = read_class_then(text, b' ')?;
    let rest = strip_front(rest, b"htb rate ")?;
    let (rate, rest) = rate_then(rest, b" ceil ")?;
    let (ceil, rest) = rate_then(rest, b"\n")?;
    Some(((class, rate, ceil), rest))
}

// What a line of POSTROUTING does: it gives a class, or it leaves the list.
fn read_target(text: &[u8]) -> Option<(Option<u16>, &[u8])>
    ensures some { IfSome result (λ r. (text.now ≡ target_then r.0 r.1.now)
        × IsOptional IsClass r.0) }
    ensures none { IfNone result ((class : Option ℕ) (rest : List ℕ) →
        IsOptional IsClass class →
        text.now ≡ target_then class rest → ⊥) }
{
    if let Some(rest) = strip_front(text, b"RETURN\n") {
        return Some((None, rest));
    }
    let rest = strip_front(text, b"CLASSIFY --set-class 1:")?;
    let (class, rest) = read_class_then(rest, b'\n')?;
    Some((Some(class), rest))
}

// What a line of OUTPUT does: whether it drops.
fn read_verdict(text: &[u8]) -> Option<(bool, &[u8])>
    ensures some { IfSome result (λ r. text.now ≡ verdict_then r.0 r.1.now) }
    ensures none { IfNone result ((drop : Bool) (rest : List ℕ) →
        text.now ≡ verdict_then drop rest → ⊥) }
{
    if let Some(rest) = strip_front(text, b"DROP\n") {
        return Some((true, rest));
    }
    let rest = strip_front(text, b"RETURN\n")?;
    Some((false, rest))
}

// The line of the host by what stands behind the host's name, and what stands behind the line.
fn read_host_words(host: usize, text: &[u8]) -> Option<(HostLine, &[u8])>
    ensures some { IfSome result (λ r. (text.now ≡ host_then r.0 r.1.now) × AreHostNumbers r.0
        × (host_of r.0 ≡ host)) }
    ensures none { IfNone result ((line : Stated) (rest : List ℕ) → AreHostNumbers line →
        text.now ≡ host_then line rest → ⊥) }
{
    if let Some(rest) = strip_front(text, b"tc qdisc add dev eth0 root handle 1: htb\n") {
        return Some((HostLine::Root { host }, rest));
    }
    if let Some(rest) = strip_front(text, b"tc class add dev eth0 parent 1: classid 1:") {
        let ((class, rate, ceil), rest) = read_rates(rest)?;
        let line = HostLine::Class {
            host,
            class,
            rate,
            ceil,
        };
        return Some((line, rest));
    }
    if let Some(rest) = strip_front(text, b"iptables -t mangle -A POSTROUTING ") {
        let (fits, rest) = read_host_match(rest)?;
        let (class, rest) = read_target(rest)?;
        return Some((postrouting(host, fits, class), rest));
    }
    let rest = strip_front(text, b"iptables -A OUTPUT ")?;
    let (fits, rest) = read_host_match(rest)?;
    let (drop, rest) = read_verdict(rest)?;
    Some((HostLine::Output { host, fits, drop }, rest))
}

// A line of POSTROUTING, which gives a class if there is one.
fn postrouting(host: usize, fits: HostMatch, class: Option<u16>) -> HostLine
    ensures { result ≡ postrouting host fits class }
{
    match class {
        Some(class) => HostLine::Classify { host, fits, class },
        None => HostLine::Leave { host, fits },
    }
}

/// The line of a host with which the text begins, and what stands behind it. None where it begins with no such line.
pub fn read_host<'a>(net: &Topology, text: &'a [u8]) -> Option<(HostLine, &'a [u8])>
    ensures some { IfSome result (λ r.
        (text.now ≡ host_line net.now r.0 ++ r.1.now) × IsHostLine net.now r.0) }
    ensures none { IfNone result ((line : Stated) (rest : List ℕ) → IsHostLine net.now line →
        text.now ≡ host_line net.now line ++ rest → ⊥) }
{
    let rest = strip_front(text, b"host ")?;
    let (host, rest) = location_then(net, rest)?;
    let (line, rest) = read_host_words(host, rest)?;
    Some((line, rest))
}
