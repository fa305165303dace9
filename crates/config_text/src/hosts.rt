//! What hosts do: classes of tc, and lists of iptables.

ghost use Rattle.std.specs.Prelude.{◌≡◌, ◌++◌, ◌∷◌, [], ℕ, List, OnOk, IfOk, string_bytes, codes};
ghost use Rattle.std.specs.Fmt.{decimal};
ghost use Rattle.config_text.specs.Words.{line as whole_line, option_words, spaced};
ghost use Rattle.config_text.specs.Lines.{class_text, classify_text, verdict_text, proto_text, host_match_words, host_words, host_text};

use crate::line::Line;
use merlin_base::{Name, OutOfMemory};
use merlin_model::config::{HostLine, HostMatch};
use std::alloc::Global;

const POSTROUTING: &[u8] = b"iptables -t mangle -A POSTROUTING";

const OUTPUT: &[u8] = b"iptables -A OUTPUT";

fn proto(line: &mut Line, proto: u8) -> Result<(), OutOfMemory>
    ensures { OnOk result (line.new ≡ line.old ++ proto_text proto) }
{
    match proto {
        6 => line.text(b"tcp"),
        17 => line.text(b"udp"),
        _ => line.number(u64::from(proto)),
    }
}

fn proto_words(line: &mut Line, value: Option<u8>) -> Result<(), OutOfMemory>
    ensures { OnOk result (line.new ≡ line.old
        ++ spaced (option_words (codes "-p") proto_text value)) }
{
    if let Some(value) = value {
        line.text(b" -p ")?;
        proto(line, value)?;
    }
    Ok(())
}

fn port_words(line: &mut Line, name: &[u8], port: Option<u16>) -> Result<(), OutOfMemory>
    ensures { OnOk result (line.new ≡ line.old ++ spaced (option_words name.now decimal port)) }
{
    if let Some(port) = port {
        line.word(name)?;
        line.number_word(u64::from(port))?;
    }
    Ok(())
}

fn host_match_words(line: &mut Line, fits: &HostMatch) -> Result<(), OutOfMemory>
    ensures { OnOk result (line.new ≡ line.old ++ spaced (host_match_words fits.now)) }
{
    line.text(b" -s ")?;
    line.ip(fits.src)?;
    line.text(b" -d ")?;
    line.ip(fits.dst)?;
    proto_words(line, fits.proto)?;
    port_words(line, b"--sport", fits.sport)?;
    port_words(line, b"--dport", fits.dport)
}

fn class_text(alloc: Global, class: u16, rate: u64, ceil: u64) -> Result<String, OutOfMemory>
    ensures { IfOk result (λ text. string_bytes text ≡ class_text class rate ceil) }
{
    Ok(format!(in alloc;
        "tc class add dev eth0 parent 1: classid 1:{class:x} htb rate {rate}kbit ceil {ceil}kbit"
    )?)
}

fn classify_text(alloc: Global, class: u16) -> Result<String, OutOfMemory>
    ensures { IfOk result (λ text. string_bytes text ≡ classify_text class) }
{
    Ok(format!(in alloc; "-j CLASSIFY --set-class 1:{class:x}")?)
}

fn verdict_text(drop: bool) -> &'static [u8]
    ensures { result.now ≡ verdict_text drop }
{
    if drop { b"-j DROP" } else { b"-j RETURN" }
}

// A list of iptables, what a line of it matches, and what the line does.
fn list_words(
    line: &mut Line,
    list: &[u8],
    fits: &HostMatch,
    target: &[u8],
) -> Result<(), OutOfMemory>
    ensures { OnOk result (line.new ≡ line.old
        ++ spaced (list.now ∷ host_match_words fits.now ++ target.now ∷ [])) }
{
    line.word(list)?;
    host_match_words(line, fits)?;
    line.word(target)
}

// What the line says of its host.
fn host_words(alloc: Global, line: &mut Line, host: &HostLine) -> Result<(), OutOfMemory>
    ensures { OnOk result (line.new ≡ line.old ++ spaced (host_words host.now)) }
{
    match host {
        HostLine::Root { .. } => line.word(b"tc qdisc add dev eth0 root handle 1: htb"),
        HostLine::Class {
            class,
            rate,
            ceil,
            ..
        } => line.word(class_text(alloc, *class, *rate, *ceil)?.as_bytes()),
        HostLine::Classify { fits, class, .. } => {
            let target = classify_text(alloc, *class)?;
            list_words(line, POSTROUTING, fits, target.as_bytes())
        }
        HostLine::Leave { fits, .. } => list_words(line, POSTROUTING, fits, b"-j RETURN"),
        HostLine::Output { fits, drop, .. } => list_words(line, OUTPUT, fits, verdict_text(*drop)),
    }
}

/// The line of a host, from its name.
pub(crate) fn host_line(
    alloc: Global,
    line: &mut Line,
    location: &Name,
    host: &HostLine,
) -> Result<(), OutOfMemory>
    ensures { OnOk result (line.new ≡ whole_line (host_text location.now host.now)) }
{
    line.begin(b"host")?;
    line.word(location.bytes())?;
    host_words(alloc, line, host)?;
    line.byte(b'\n')
}
