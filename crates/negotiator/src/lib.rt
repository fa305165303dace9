//! Whether one policy may stand in the place of another.
#![tactic(auto)]

mod asking;
mod comparing;
mod contacts;
mod counting;
mod fault;
mod known;
mod marking;
mod paths;
mod refining;
mod stand_ins;
mod sums;
mod verdicts;

pub use comparing::{Comparison, compare_policies};
pub use contacts::Contact;
pub use fault::RefineFault;
pub use merlin_model::OutOfMemory;
pub use paths::WidePath;
pub use refining::refine;
