//! What a bandwidth formula gives to each statement by itself.
#![tactic(auto)]

mod asking;
mod fault;
pub mod laws;
mod limits;
mod localising;
mod sharing;
mod table;

pub use fault::RateFault;
pub use localising::{Rates, localise};
pub use sharing::share;
