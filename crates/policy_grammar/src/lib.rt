//! Policies as they are written, and which texts are policies.
#![tactic(auto)]

pub mod laws;
pub mod limits;
mod path_copy;
pub mod rows;
pub mod written;
