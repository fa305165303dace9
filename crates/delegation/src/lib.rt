//! Delegation trees: policies under policies, each for the packets of its scope. What a tree promises, whether it is accepted, and the composition of its nodes.
#![tactic(auto)]

mod composing;
mod counting;
mod fault;
mod joining;
mod judging;
pub mod laws;
mod node;
mod own_policies;
mod rating;
mod scopes;
mod whole_trees;

pub use counting::ask_count;
pub use fault::DelegationFault;
pub use joining::join;
pub use merlin_model::OutOfMemory;
pub use node::Node;
pub use rating::{RatedPolicy, RatedStatement, rate, write};
pub use whole_trees::{compose, judge};
