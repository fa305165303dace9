//! Bandwidth formulas: what they ask of rates, and how they are written.
#![tactic(auto)]

mod formula;
pub mod laws;
mod meeting;
mod printing;

pub use formula::Formula;
pub use meeting::meets;
pub use merlin_model::policy::{Bound, Part, Term};
pub use printing::print_formula;
