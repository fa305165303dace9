//! Least paths through graphs of numbered vertices and edges.
#![tactic(auto)]

mod blank;
mod departures;
mod frontier;
mod graph;
mod paths;
mod search;

pub use graph::{Edge, Graph};
pub use merlin_model::OutOfMemory;
pub use paths::{Potentials, least};
