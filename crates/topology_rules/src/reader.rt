//! From the bytes to a described network that keeps the rules.
ghost use Rattle.std.specs.Prelude.{IfOk, IfErr, OnOk};
ghost use Rattle.topology_shape.specs.Described.{described_by};
ghost use Rattle.topology_shape.specs.Forms.{AreWellFormed};
ghost use Rattle.topology_shape.specs.Faults.{IsShapeText};
ghost use Rattle.topology_rules.specs.Rules.{KeepsRules};
ghost use Rattle.topology_rules.specs.Faults.{Breaks, IsTopology, IsShapeRefusal, Refuses};

use crate::addresses::ask_addresses;
use crate::counts::ask_counts;
use crate::fault::NetFault;
use crate::hosts::ask_hosts;
use crate::links::{ask_links, ask_ports, directed_links_of};
use crate::names::ask_names;
use crate::placements::ask_placements;
use std::alloc::Global;
use topology_shape::Shape;
use topology_shape::laws::one_shape;

// Asks all rules in their order.
fn ask_rules(alloc: Global, shape: &Shape) -> Result<(), NetFault>
    requires { AreWellFormed (described_by shape.now) }
    ensures ok { OnOk result (KeepsRules (described_by shape.now)) }
    ensures err { IfErr result (Breaks (described_by shape.now)) }
{
    ask_counts(alloc, shape)?;
    ask_names(alloc, shape)?;
    ask_addresses(alloc, shape)?;
    let directed_links = directed_links_of(alloc, &shape.links)?;
    ask_ports(alloc, shape, &directed_links)?;
    ask_links(alloc, shape)?;
    ask_hosts(alloc, shape, &directed_links)?;
    ask_placements(alloc, shape)
}

fn shape_of(alloc: Global, bytes: &[u8]) -> Result<Shape, NetFault>
    ensures ok { IfOk result (λ shape. IsShapeText bytes.now (described_by shape)) }
    ensures err { IfErr result (IsShapeRefusal bytes.now) }
{
    Ok(topology_shape::read(alloc, bytes)?)
}

/// The network that the JSON text describes, if it keeps all rules.
///
/// # Errors
/// The first that applies, in the order of the variants of `NetFault`.
pub fn read(alloc: Global, bytes: &[u8]) -> Result<Shape, NetFault>
    ensures ok { IfOk result (λ shape. IsTopology bytes.now (described_by shape)) }
    ensures err { IfErr result (λ fault. Refuses fault bytes.now) }
{
    one_shape();
    let shape = shape_of(alloc, bytes)?;
    match ask_rules(alloc, &shape) {
        Ok(()) => Ok(shape),
        Err(fault) => Err(fault),
    }
}
