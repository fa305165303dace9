//! Walks for guaranteed statements: the program of the statements, a search over it, and the walks of what it finds.
#![tactic(auto)]

mod checked_policy;
mod finding;
mod found;
pub mod laws;
mod search;
mod words;

pub use checked_policy::find_walks;
pub use finding::find_walks_of;
pub use found::WalksFound;
pub use policy_flows::ProgramFault;
pub use words::words_of;
