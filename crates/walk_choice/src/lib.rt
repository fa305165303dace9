//! Where a search over the program of guaranteed statements splits a box: at the first edge at which the least walk of a statement may
//! still go another way.
#![tactic(auto)]

mod choice;
mod copies;
mod crowding;
mod ways;

pub use choice::{WalkChoice, new};
