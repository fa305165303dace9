//! Certificates that a program has no solution: trees of splits whose leaves add up weighted rows.
#![tactic(auto)]

mod checker;
mod cutoffs;
mod leaf;
mod sums;

pub use checker::{Checker, TreeFault, new};
pub use cutoffs::smaller_cutoffs;
pub use leaf::{Workspace, leaf_refutes};
pub use merlin_model::certificate::{Tree, Weight};
