//! From the texts of a delegation tree, of a topology and of the policies that the tree names to the line that says whether every node is accepted.
#![tactic(auto)]

pub mod laws;
mod lines;
mod naming;
mod nodes;
mod reply;
mod verdict;

pub use lines::{delegate_line, delegate_status};
pub use merlin_base::{Name, OutOfMemory, Status};
pub use reply::DelegateReply;
pub use verdict::delegate_reply;
