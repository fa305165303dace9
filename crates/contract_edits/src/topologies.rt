//! Topologies, as they are read and looked at.

ghost use Rattle.std.specs.Prelude.{◌≡◌, ◌<◌, ℕ, Some, length, option_map, IfOk, IfErr, IfSome, IfNone};
ghost use Rattle.merlin_model.specs.Networks.{address_of, AreLinked};
ghost use Rattle.merlin_model.specs.Machine.{link_at};
ghost use Rattle.topology_rules.specs.Faults.{IsTopology, Refuses};
ghost use Rattle.topology.specs.Look.{name_of, far_end};

use std::alloc::Global;
use topology::{HostAddress, NetFault, Topology, read};

/// What `read` answers.
pub fn network(alloc: Global, bytes: &[u8]) -> Result<Topology, NetFault>
    ensures ok { IfOk result (IsTopology bytes.now) }
    ensures err { IfErr result (λ fault. Refuses fault bytes.now) }
{
    match read(alloc, bytes) {
        Ok(net) => Ok(net),
        Err(fault) => Err(fault),
    }
}

/// What `find` answers.
pub fn location(net: &Topology, name: &[u8]) -> Option<usize>
    ensures some { IfSome result (λ loc. name_of net.now loc ≡ Some name.now) }
    ensures none { IfNone result ((loc : ℕ) → name_of net.now loc ≡ Some name.now → ⊥) }
{
    net.find(name)
}

/// What `host` answers.
pub fn address(net: &Topology, loc: usize) -> Option<HostAddress>
    requires { loc < length net.now.locations }
    ensures { result ≡ address_of net.now loc }
{
    net.host(loc)
}

/// What `neighbour` answers.
pub fn neighbour(net: &Topology, loc: usize, port: u16) -> Option<(usize, u16)>
    requires { loc < length net.now.locations }
    ensures { result ≡ option_map far_end (link_at net.now loc port) }
{
    net.neighbour(loc, port)
}

/// What `port_to` answers.
pub fn port(net: &Topology, from: usize, to: usize) -> Option<u16>
    requires from { from < length net.now.locations }
    requires to { to < length net.now.locations }
    ensures some { IfSome result (λ port. (linked : AreLinked net.now from to)
        × (linked.link.out_port ≡ port)) }
    ensures none { IfNone result (AreLinked net.now from to → ⊥) }
{
    net.port_to(from, to)
}
