//! Limits of delegation trees, for definitions and code alike.

/// How many nodes a delegation tree may have.
pub const MAX_TREE_NODES: usize = 64;
