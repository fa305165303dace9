//! From the bytes of a policy and a topology to walks for the guarantees, the configuration of all devices and a certificate.
#![tactic(auto)]

mod compiler;
mod fault;
mod identifying;
pub mod laws;
mod outcome;
mod provisioning;
mod writing;

pub use compiler::compile;
pub use fault::{CompileFault, compile_fault_text};
pub use outcome::{Compiled, Partial, Solved};
pub use writing::{partial_head, solved_head};
