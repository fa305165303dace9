//! What policies, networks, configurations and certificates are, and what they mean.
//! The types are plain data; the definitions over them are in `specs/`.
#![tactic(auto)]

pub mod certificate;
pub mod config;
pub mod laws;
pub mod limits;
pub mod name;
pub mod network;
pub mod policy;
mod pred_copy;

pub use name::{Name, OutOfMemory, name_from};
