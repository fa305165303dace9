//! A search for a least point of a program, by branch and bound: a box that a relaxation leaves undecided is split at a variable.
//! Each tree is grown whole at one cutoff; a better point starts it anew at its own. So the answer comes with its certificate:
//! a tree that refutes the program below the point, or a tree whose nodes are spent.
#![tactic(auto)]

mod boxes;
mod grow;
mod outcome;
mod search;

pub use outcome::Outcome;
pub use search::Search;
