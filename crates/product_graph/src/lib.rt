//! Products of an automaton with a network: the vertices and edges between hosts over which the
//! walks of a path lead.
#![tactic(auto)]

mod backwards;
mod followers;
mod joining;
mod kept;
pub mod laws;
mod leading;
mod product;
mod rows;
mod search;
mod span;
mod starts;
mod vertex_set;
mod walks;

pub use followers::Followers;
pub use merlin_model::OutOfMemory;
pub use product::{build, build_over, followers_of};
pub use span::{Product, Span2, Vertex};
