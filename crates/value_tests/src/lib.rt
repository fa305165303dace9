//! Worked values: what definitions give at values that no text stands for yet. Each is the contract of a function that does nothing, which the check
//! proves by computing both sides; the crates below are proved to do as the definitions say. All else stands in the files of rows of `worked_rows`.
#![tactic(auto)]

pub mod files;
pub mod paths;
pub mod printing;
pub mod results;
pub mod tracing;
pub mod values;
