//! What a configuration does with a packet, hop by hop.
#![tactic(auto)]

mod fitting;
mod frame;
mod hosts;
mod moves;
mod processes;
mod rewrites;
mod trace;
mod tracer;

pub use fitting::fitting_rule;
pub use processes::fitting_process;
pub use rewrites::declared;
pub use trace::{End, MAX_HOPS, Trace, Visit};
pub use tracer::{Next, Tracer};
