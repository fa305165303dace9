//! Nodes of delegation trees.

use merlin_model::Name;
use merlin_model::policy::Pred;
use policy_expansion::Policy;

/// A node of a delegation tree: its own policy, for the packets of its scope. Nodes are numbered from 0. Each but the first has an earlier one as
/// its parent, and the scope of the first is not looked at.
#[derive(Drop)]
pub struct Node {
    pub name: Name,
    pub parent: Option<usize>,
    pub scope: Pred,
    pub policy: Policy,
}
