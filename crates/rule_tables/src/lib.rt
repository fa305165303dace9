//! The rules of switches and the `process` lines of middleboxes, from the vertices that follow each other and the cells of each pair of hosts.
#![tactic(auto)]

mod assembly;
mod branches;
mod buckets;
mod entries;
mod hops;
mod lines;
mod rows;
mod tags;

pub use assembly::{Tables, tables_of};
pub use branches::{Branch, GroupBranches, OwnedCell, Step, TagKey};
pub use merlin_model::OutOfMemory;
