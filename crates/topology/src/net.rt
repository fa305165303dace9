//! A topology, and what is looked up in it.
ghost use Rattle.std.specs.Prelude.{◌≡◌, ◌<◌, ℕ, Some, length, option_map, slice_get, IfOk, IfSome, IfNone};
ghost use Rattle.merlin_model.specs.Networks.{address_of, AreLinked};
ghost use Rattle.merlin_model.specs.Machine.{link_at};
ghost use Rattle.topology_shape.specs.Described.{described_by};
ghost use Rattle.topology.specs.Lawful.{IsTopologyNetwork};
ghost use Rattle.topology.specs.Look.{name_of, place_at, far_end};
ghost use Rattle.topology.specs.Symbols.{network_symbols};

use crate::symbols::symbols_of;
use crate::tables::{LinkTables, link_tables};
use merlin_base::Name;
use merlin_model::network::{FnDecl, HostAddress, Link, Location, LocationKind, Place};
use merlin_model::policy::Symbol;
use std::alloc::{AllocError, Global};
use std::marker::Model;
use topology_rules::directed_links_of;
use topology_shape::Shape;

/// A network that was read, with tables for what is looked up. Locations, links and functions are numbered from 0 in the order of the text,
/// symbols by location, and at each location first the one without a function, then that of each function there.
#[derive(Drop)]
pub struct Topology {
    shape: Shape,
    tables: LinkTables,
    symbols: Vec<Symbol>,
}

impl Model for Topology {
    ghost use Rattle.merlin_model.specs.Networks.{Network};

    ghost Value = { Network };

    ghost use Rattle.topology.specs.Kept.{network_of, IsIndexed};

    ghost view = { network_of };

    ghost invariant = { IsIndexed };
}

impl Topology {
    /// The network of a shape, which keeps all laws.
    pub(crate) fn new(alloc: Global, shape: Shape) -> Result<Self, AllocError>
        requires { IsTopologyNetwork (described_by shape) }
        ensures { IfOk result (λ net. net ≡ described_by shape) }
    {
        let directed_links = directed_links_of(alloc, &shape.links)?;
        let tables = link_tables(alloc, &directed_links)?;
        let symbols = symbols_of(alloc, shape.named.locations().len(), &shape.functions)?;
        Ok(Topology {
            shape,
            tables,
            symbols,
        })
    }

    fn all_locations(&self) -> &[Location]
        ensures { result.now ≡ self.now.locations }
    {
        self.shape.named.locations()
    }

    /// The number of locations. They keep the laws of networks and the limits of the format.
    pub fn locations(&self) -> usize
        ensures count { result ≡ length self.now.locations }
        ensures lawful { IsTopologyNetwork self.now }
    {
        self.shape.named.locations().len()
    }

    /// The name of a location.
    pub fn name(&self, loc: usize) -> &Name
        requires { loc < length self.now.locations }
        ensures { name_of self.now loc ≡ Some result.now }
    {
        &self.all_locations()[loc].name
    }

    /// What stands at a location.
    pub fn place(&self, loc: usize) -> Place
        requires { loc < length self.now.locations }
        ensures { place_at self.now loc ≡ Some result }
    {
        match self.all_locations()[loc].kind {
            LocationKind::Host(_) => Place::Host,
            LocationKind::Switch => Place::Switch,
            LocationKind::Middlebox => Place::Middlebox,
        }
    }

    /// The addresses of the host at a location. None where there is no host.
    pub fn host(&self, loc: usize) -> Option<HostAddress>
        requires { loc < length self.now.locations }
        ensures { result ≡ address_of self.now loc }
    {
        match self.all_locations()[loc].kind {
            LocationKind::Host(address) => Some(address),
            LocationKind::Switch | LocationKind::Middlebox => None,
        }
    }

    /// The links, in the order of the text.
    pub fn links(&self) -> &[Link]
        ensures { result.now ≡ self.now.links }
    {
        &self.shape.links
    }

    /// The packet functions, in the order of the text.
    pub fn functions(&self) -> &[FnDecl]
        ensures { result.now ≡ self.now.functions }
    {
        &self.shape.functions
    }

    /// The symbols: each location alone, then with each function that is placed there.
    pub fn symbols(&self) -> &[Symbol]
        ensures { result.now ≡ network_symbols self.now }
    {
        &self.symbols
    }

    /// The number of the location of this name. None where no location has it.
    pub fn find(&self, name: &[u8]) -> Option<usize>
        ensures some { IfSome result (λ loc. name_of self.now loc ≡ Some name.now) }
        ensures none { IfNone result ((loc : ℕ) → name_of self.now loc ≡ Some name.now → ⊥) }
    {
        self.shape.named.find(name)
    }

    /// The location and the port at the other end of the link at this port. None where the port has no link.
    pub fn neighbour(&self, loc: usize, port: u16) -> Option<(usize, u16)>
        requires { loc < length self.now.locations }
        ensures { result ≡ option_map far_end (link_at self.now loc port) }
    {
        self.tables.far_ends.get(&(loc, port)).copied()
    }

    /// The port of the first location on its link to the second. None where they are not linked.
    pub fn port_to(&self, from: usize, to: usize) -> Option<u16>
        requires from { from < length self.now.locations }
        requires to { to < length self.now.locations }
        ensures some { IfSome result (λ port. (linked : AreLinked self.now from to)
            × (linked.link.out_port ≡ port)) }
        ensures none { IfNone result (AreLinked self.now from to → ⊥) }
    {
        self.tables.ports.get(&(from, to)).copied()
    }
}
