//! Whether each walk of one path between two hosts is a walk of another, and the least walk that is
//! not.
#![tactic(auto)]

mod inclusion;
mod search;
mod ways;

pub use inclusion::included;
pub use merlin_model::OutOfMemory;
