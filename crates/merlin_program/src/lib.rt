//! The program of guaranteed statements, at a cutoff or without one, its rows kept once as flat lists.
#![tactic(auto)]

mod building;
pub mod laws;
mod loads;
mod program;
mod reading;
mod rooms;
mod rows;
mod terms;

pub use building::new;
pub use policy_flows::ProgramFault;
pub use program::{MerlinProgram, program_of};
