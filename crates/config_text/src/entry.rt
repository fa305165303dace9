//! What a configuration has a line of: a rule, a middlebox's part, a queue, or a command for a host.

ghost use Rattle.std.specs.Prelude.{◌≡◌, ◌<◌, ℕ, List, length, OnOk};
ghost use Rattle.std.specs.List.{All};
ghost use Rattle.merlin_model.specs.Networks.{Network};
ghost use Rattle.config_text.specs.Words.{line as whole_line};
ghost use Rattle.config_text.specs.Lines.{host_of, name_at, rule_text, process_text, queue_text, host_text};

use crate::hosts::host_line;
use crate::line::Line;
use crate::rules::{process_line, queue_line, rule_line};
use merlin_base::OutOfMemory;
use merlin_model::config::{HostLine, Process, Queue, Rule};
use std::alloc::Global;
use topology::Topology;

/// What has a line in a configuration.
pub(crate) trait Entry {
    ghost use Rattle.merlin_model.specs.Networks.{Network};

    /// It names locations and functions of the network alone.
    ghost is_over: { Network → Self → Type 0 };

    /// Its line, with the newline.
    ghost line_of: { Network → Self → List ℕ };

    /// Writes its line.
    fn write(&self, alloc: Global, net: &Topology, line: &mut Line) -> Result<(), OutOfMemory>
        requires { is_over net.now self.now }
        ensures { OnOk result (line.new ≡ line_of net.now self.now) };
}

impl Entry for Rule {
    ghost is_over = { λ net rule. rule.loc < length net.locations };

    ghost line_of = { λ net rule. whole_line (rule_text (name_at net rule.loc) rule) };

    fn write(&self, _alloc: Global, net: &Topology, line: &mut Line) -> Result<(), OutOfMemory> {
        rule_line(line, net.name(self.loc), self)
    }
}

impl Entry for Process {
    ghost is_over = { λ net process. (process.loc < length net.locations)
        × All (λ f. f < length net.functions) process.functions };

    ghost line_of = { λ net process.
        whole_line (process_text (name_at net process.loc) net.functions process) };

    fn write(&self, _alloc: Global, net: &Topology, line: &mut Line) -> Result<(), OutOfMemory> {
        process_line(line, net.name(self.loc), net.functions(), self)
    }
}

impl Entry for Queue {
    ghost is_over = { λ net queue. queue.loc < length net.locations };

    ghost line_of = { λ net queue. whole_line (queue_text (name_at net queue.loc) queue) };

    fn write(&self, _alloc: Global, net: &Topology, line: &mut Line) -> Result<(), OutOfMemory> {
        queue_line(line, net.name(self.loc), self)
    }
}

// The host of a line.
fn host_of(host: &HostLine) -> usize
    ensures { result ≡ host_of host.now }
{
    match host {
        HostLine::Root { host } => *host,
        HostLine::Class { host, .. } => *host,
        HostLine::Classify { host, .. } => *host,
        HostLine::Leave { host, .. } => *host,
        HostLine::Output { host, .. } => *host,
    }
}

impl Entry for HostLine {
    ghost is_over = { λ net host. host_of host < length net.locations };

    ghost line_of = { λ net host. whole_line (host_text (name_at net (host_of host)) host) };

    fn write(&self, alloc: Global, net: &Topology, line: &mut Line) -> Result<(), OutOfMemory> {
        host_line(alloc, line, net.name(host_of(self)), self)
    }
}
