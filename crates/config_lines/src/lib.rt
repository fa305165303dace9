//! The lines of a result over a topology, read one by one: rules, middleboxes, queues, hosts, loads and walks.
#![tactic(auto)]

mod actions;
mod addresses;
mod classes;
mod fields;
mod hosts;
pub mod limits;
mod loads;
mod processes;
mod queues;
mod rules;
mod walks;
mod words;

pub use hosts::read_host;
pub use loads::read_load;
pub use processes::read_process;
pub use queues::read_queue;
pub use rules::read_rule;
pub use walks::read_walk;
