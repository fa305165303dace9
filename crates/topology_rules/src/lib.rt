//! The rules of topologies: the first that a described network breaks, in a fixed order.
#![tactic(auto)]

mod addresses;
mod counts;
mod fault;
mod hosts;
pub mod laws;
pub mod limits;
mod links;
mod names;
mod placements;
mod reader;
mod repeats;

pub use fault::NetFault;
pub use links::directed_links_of;
pub use reader::read;
