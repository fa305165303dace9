//! Whether a policy and a topology fit each other, and between which hosts what is guaranteed goes.
#![tactic(auto)]

mod automata;
mod checked;
mod checking;
mod fault;
mod guarantees;
pub mod laws;
mod listing;
mod pairs;
mod rules;

pub use checked::Checked;
pub use checking::check;
pub use fault::{CheckFault, EndsFault};
pub use guarantees::{MAX_GUARANTEES, ends};
