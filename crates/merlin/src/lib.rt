//! The program as one call: from the words of a command over files to lines on a sink.
#![tactic(auto)]

mod commands;
mod compile;
mod delegate;
mod fair;
mod fairness;
mod handing;
mod inputs;
pub mod laws;
mod program;
mod reading;
mod refine;
mod refute;
mod report;
mod trace;
mod trace_lines;
mod unwire;
mod wire;

pub use compile::{DEFAULT_BUDGET, MAX_BUDGET};
pub use packet_trace::{End, Trace, Tracer, Visit};
pub use program::run;
pub use reading::{RESULT_LIMIT, TEXT_LIMIT};
pub use refute::TREE_LIMIT;
