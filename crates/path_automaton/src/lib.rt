//! Deterministic automata of path expressions.
#![tactic(auto)]

mod automaton;
mod classes;
mod exploring;
mod fault;
pub mod laws;
mod living;
mod states;

pub use automaton::{Automaton, build};
pub use exploring::MAX_STATES;
pub use fault::AutomatonFault;
pub use merlin_model::OutOfMemory;
