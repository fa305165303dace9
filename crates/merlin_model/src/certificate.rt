//! Refuting trees.

use sqlite_items::{Boxed, Items};

/// A row of a program and what it is multiplied by.
#[derive(Clone, Copy)]
pub struct Weight {
    pub row: usize,
    pub weight: i64,
}

/// A certificate. A leaf refutes its box by weighted rows, a split looks at both values of a variable, and an open end refutes nothing.
#[derive(Drop)]
pub enum Tree {
    Leaf(Items<Weight>),
    Split {
        variable: usize,
        zero: Boxed<Tree>,
        one: Boxed<Tree>,
    },
    Unclosed,
}
