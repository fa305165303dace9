//! What refusals are called in the line that tells of them.
#![tactic(auto)]

mod refusals;
mod wider;

pub use merlin_base::{Name, OutOfMemory};
pub use refusals::{
    check_fault_text, ends_fault_text, heavy_text, net_fault_text, plain_text, policy_fault_text,
    program_fault_text, push_named, rule_fault_text, text_with_name,
};
pub use wider::wider_text;
