//! Sink trees: which vertex of a product comes next on the way to its end.
#![tactic(auto)]

mod backwards;
mod nearest;
mod next;

pub use merlin_model::OutOfMemory;
pub use next::{SinkTree, tree};
