//! The texts of `compile` line by line, but for the configuration and the certificate: the head of a result, of no result and of a spent budget.
#![tactic(auto)]

mod heads;
pub mod laws;
mod lines;
mod queued;
mod walks;

pub use config_text::Load;
pub use heads::{budget_head, infeasible_head, ok_head};
pub use merlin_base::{Name, OutOfMemory};
pub use queued::loads_from;
