//! Searches over a small program that takes cutoffs. What its answers are worth is proved of every program; these tests show that
//! each answer comes, and that two choosers find the same value.
#![tactic(auto)]

pub mod items;
pub mod settling;
#[cfg(test)]
mod tests;
