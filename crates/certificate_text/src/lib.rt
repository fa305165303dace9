//! Refuting trees and plain programs as texts.
#![tactic(auto)]

mod fault;
mod line;
mod pairs;
mod program;
mod tree;
mod writing;

pub use program::{ProgramTextFault, read_program};
pub use tree::{TreeTextFault, read_tree};
pub use writing::{print_tree, write_tree};
