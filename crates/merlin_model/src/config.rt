//! The lines of a configuration.

ghost use Rattle.std.specs.Prelude.{◌≡◌, List, IfOk};
ghost use Rattle.merlin_model.specs.declared.config.Action.{Action};

use crate::name::OutOfMemory;
use smallvec::SmallVec;
use sqlite_items::Items;
use std::alloc::Global;
use std::marker::Model;

/// Where a frame leaves: by the port that it came in by, or by a port that is named.
#[derive(Clone, Copy)]
pub enum Out {
    InPort,
    Port(u16),
}

/// An action of OpenFlow 1.0.0. `Enqueue` names a queue of the port. The default fills unused places of a short list.
#[derive(Clone, Copy, Default)]
pub enum Action {
    SetVlan(u16),
    #[default]
    StripVlan,
    Output(Out),
    Enqueue(Out, u16),
}

/// The actions of a rule, in order. A list of none drops the frame.
#[derive(Drop)]
pub struct Actions {
    kept: SmallVec<Action, 2>,
}

impl Model for Actions {
    ghost Value = { List Action };

    ghost view = { λ actions. actions.kept.items };
}

impl Actions {
    /// These actions.
    pub fn from_slice(alloc: Global, actions: &[Action]) -> Result<Self, OutOfMemory>
        ensures { IfOk result (λ kept. kept ≡ actions.now) }
    {
        let kept = SmallVec::from_slice(alloc, actions)?;
        Ok(Actions { kept })
    }

    /// The actions.
    pub fn as_slice(&self) -> &[Action]
        ensures { result.now ≡ self.now }
    {
        self.kept.as_slice()
    }
}

/// What a match says of the VLAN tag.
#[derive(Clone, Copy)]
pub enum Vlan {
    Untagged,
    Tag(u16),
}

/// The match of a rule. A field that is not named fits anything; `dl_type` says whether IPv4 is named.
#[derive(Clone, Copy)]
pub struct Match {
    pub in_port: Option<u16>,
    pub dl_src: Option<u64>,
    pub dl_dst: Option<u64>,
    pub dl_vlan: Option<Vlan>,
    pub dl_type: bool,
    pub nw_proto: Option<u8>,
    pub nw_src: Option<u32>,
    pub nw_dst: Option<u32>,
    pub tp_src: Option<u16>,
    pub tp_dst: Option<u16>,
}

/// The match that names nothing.
pub const ANY: Match = Match {
    in_port: None,
    dl_src: None,
    dl_dst: None,
    dl_vlan: None,
    dl_type: false,
    nw_proto: None,
    nw_src: None,
    nw_dst: None,
    tp_src: None,
    tp_dst: None,
};

/// A rule of a switch.
#[derive(Drop)]
pub struct Rule {
    pub loc: usize,
    pub priority: u16,
    pub fits: Match,
    pub actions: Actions,
}

impl Rule {
    /// An equal rule.
    pub fn copy(&self, alloc: Global) -> Result<Self, OutOfMemory>
        ensures { IfOk result (λ copy. copy ≡ self.now) }
    {
        Ok(Rule {
            loc: self.loc,
            priority: self.priority,
            fits: self.fits,
            actions: Actions::from_slice(alloc, self.actions.as_slice())?,
        })
    }
}

/// A line of a middlebox: the functions that run on frames with this tag and destination, and how they leave. Queue 0 means none.
#[derive(Drop)]
pub struct Process {
    pub loc: usize,
    pub tag: u16,
    pub eth_dst: u64,
    pub functions: Items<usize>,
    pub next_tag: u16,
    pub port: u16,
    pub queue: u16,
}

impl Process {
    /// An equal line.
    pub fn copy(&self, alloc: Global) -> Result<Self, OutOfMemory>
        ensures { IfOk result (λ copy. copy ≡ self.now) }
    {
        Ok(Process {
            loc: self.loc,
            tag: self.tag,
            eth_dst: self.eth_dst,
            functions: Items::from_slice(alloc, self.functions.as_slice())?,
            next_tag: self.next_tag,
            port: self.port,
            queue: self.queue,
        })
    }
}

/// A queue of a port, with its rate in kbit/s.
#[derive(Clone, Copy)]
pub struct Queue {
    pub loc: usize,
    pub port: u16,
    pub queue: u16,
    pub rate: u64,
}

/// What a line of iptables matches.
#[derive(Clone, Copy)]
pub struct HostMatch {
    pub src: u32,
    pub dst: u32,
    pub proto: Option<u8>,
    pub sport: Option<u16>,
    pub dport: Option<u16>,
}

/// A line for a host: the root and the classes of tc, and the lists POSTROUTING (`Classify`, and `Leave` for RETURN) and OUTPUT of iptables.
#[derive(Clone, Copy)]
pub enum HostLine {
    Root {
        host: usize,
    },
    Class {
        host: usize,
        class: u16,
        rate: u64,
        ceil: u64,
    },
    Classify {
        host: usize,
        fits: HostMatch,
        class: u16,
    },
    Leave {
        host: usize,
        fits: HostMatch,
    },
    Output {
        host: usize,
        fits: HostMatch,
        drop: bool,
    },
}

/// A configuration.
#[derive(Drop)]
pub struct Config {
    pub rules: Items<Rule>,
    pub processes: Items<Process>,
    pub queues: Items<Queue>,
    pub hosts: Items<HostLine>,
}
