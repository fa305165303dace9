//! The tables of a policy, and what they do with packets.
#![tactic(auto)]

pub mod attached_host;
pub mod laws;
pub mod priorities;
