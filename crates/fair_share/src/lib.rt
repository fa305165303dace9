//! Dividing capacities fairly: caps within caps, the tenants beneath them, which division is best, and divisions as texts.
#![tactic(auto)]

mod cap;
mod climb;
mod demands;
mod dividing;
mod entry;
mod fault;
mod fill;
mod guess;
mod judge;
pub mod laws;
pub mod limits;
mod names;
mod reader;
mod share;
mod share_text;
mod sums;
mod tops;

pub use demands::Demands;
pub use dividing::divide;
pub use fault::DemandFault;
pub use judge::fair;
pub use reader::read;
pub use share::Share;
pub use share_text::{SharesFault, print_shares, read_shares};
