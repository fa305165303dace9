//! What is tried of a box of the program.
#![tactic(auto)]

pub mod candidates;
