//! The shape of a topology: which locations, links and functions a JSON text describes, whether or not they are a network.
#![tactic(auto)]

mod fault;
mod functions;
pub mod laws;
pub mod limits;
mod links;
mod locations;
mod members;
mod named;
mod reader;
mod settings;

pub use fault::ShapeFault;
pub use named::NamedLocations;
pub use reader::{Shape, read};
