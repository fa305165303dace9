//! Delegation trees as texts: which nodes a JSON text describes, by name, and which of them each is under.
#![tactic(auto)]

mod entry;
mod fault;
pub mod laws;
pub mod limits;
mod names;
mod reader;
mod written;

pub use entry::TreeEntry;
pub use fault::EntryFault;
pub use reader::read;
