//! Policies as they are written, turned into the statements and terms that they stand for.
#![tactic(auto)]

mod expansion;
mod faults;
pub mod laws;
pub mod limits;
mod literals;
mod pairs;
mod policy;
mod sets;
mod writing;

pub use expansion::expand;
pub use policy::{ExpansionFault, Policy, Statement};
