//! Programs in zeros and ones, seen through a trait, and what may be asked of them.
#![tactic(auto)]

pub mod fixed;
pub mod plain;
pub mod program;
pub mod relaxation;
pub mod solution;

pub use fixed::{Fixed, is_open};
pub use merlin_model::certificate::Weight;
pub use plain::{PlainProgram, PlainRow};
pub use program::Program;
pub use relaxation::{Relaxation, Verdict};
pub use solution::is_solution;
