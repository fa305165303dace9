//! What the names in the paths of a policy stand for over a topology.
#![tactic(auto)]

mod fault;
mod faulty;
pub mod laws;
mod names;
mod numbering;
mod resolving;

pub use fault::NameFault;
pub use resolving::numbered_paths;
