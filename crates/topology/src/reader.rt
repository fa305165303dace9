//! From the bytes to the topology.
ghost use Rattle.std.specs.Prelude.{IfOk, IfErr};
ghost use Rattle.topology_rules.specs.Faults.{IsTopology, Refuses};

use crate::net::Topology;
use std::alloc::Global;
use topology_rules::NetFault;
use topology_rules::laws::one_network;

/// The network that the JSON text describes.
///
/// # Errors
/// The first that applies, in the order of the variants of `NetFault`.
pub fn read(alloc: Global, bytes: &[u8]) -> Result<Topology, NetFault>
    ensures ok { IfOk result (IsTopology bytes.now) }
    ensures err { IfErr result (λ fault. Refuses fault bytes.now) }
{
    one_network();
    let shape = topology_rules::read(alloc, bytes)?;
    Ok(Topology::new(alloc, shape)?)
}
