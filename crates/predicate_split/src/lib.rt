//! Packets told apart by predicates: the least at which predicates hold, and the cells of a pair of hosts.
#![tactic(auto)]

mod between;
mod count;
mod fault;
mod grids;
pub mod laws;
mod least;
mod left;
mod pair_cells;
mod pairs;
mod parts;
mod stretches;
mod witness;

pub use between::holds_between;
pub use fault::{MAX_CELLS, MAX_CLASSES, SplitFault};
pub use pair_cells::{Cell, cells};
pub use witness::{least_common, least_outside, overlap};
