//! What guarantees and caps become: queues at the ports of links, and the classes and filters of hosts.
#![tactic(auto)]

mod host_texts;
mod hosts;
pub mod laws;
mod links;
mod rates;
mod reaches;
mod standings;

pub use hosts::host_lines;
pub use links::queues;
pub use merlin_model::OutOfMemory;
