//! Policies read from their text by recursive descent with one token of look-ahead: a reader for each production of the grammar in
//! docs/LANGUAGE.md, and for each reader a state of the machine of policy_grammar that it takes over.
#![tactic(auto)]

mod fault;
mod items;
pub mod laws;
mod parsing;
mod paths;
mod pred_parsing;
mod predicates;
mod reading;
mod sets;
mod signs;
mod terms;

pub use fault::PolicyFault;
pub use parsing::parse;
pub use policy_expansion::{Policy, Statement};
pub use policy_grammar::written::RawPath;
pub use pred_parsing::parse_pred;
