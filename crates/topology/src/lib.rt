//! Topologies: a network read from its JSON text, and what is looked up in it.
#![tactic(auto)]

pub mod laws;
mod net;
mod reader;
mod symbols;
mod tables;

pub use merlin_model::network::{
    DirectedLink, FnDecl, HostAddress, Link, Location, LocationKind, Place,
};
pub use merlin_model::policy::{Ends, Symbol};
pub use net::Topology;
pub use reader::read;
pub use topology_rules::{NetFault, directed_links_of};
