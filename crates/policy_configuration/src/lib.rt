//! The configuration of a checked policy with walks for its guarantees, and what a caller that compiles rests on.
#![tactic(auto)]

mod configuration;
pub mod laws;
pub mod one_limit;

pub use configuration::configuration_of;
pub use merlin_model::OutOfMemory;
