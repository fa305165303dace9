//! Nodes of delegation trees as their text gives them.

use merlin_base::Name;

/// A node of a delegation tree: its name, the file of its policy, the place of the node that it is under, and the text of its scope. The first
/// is under no other, and its scope is empty.
#[derive(Drop)]
pub struct TreeEntry {
    pub name: Name,
    pub policy: String,
    pub parent: Option<usize>,
    pub scope: Name,
}
