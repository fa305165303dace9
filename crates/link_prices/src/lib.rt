//! What prices on several links and rerouting find of a box of the program of guaranteed statements: weights for a leaf, or paths. What is
//! found is a candidate alone. Whoever uses it tests it, so no clause rests on how it is found; all numbers are whole.
#![tactic(auto)]

mod breakout;
mod congestion;
mod demand;
mod leaf;
pub mod numbers;
mod pricing;
mod routing;
mod spread;
mod subgradient;
mod trial;

pub use trial::{LinkPrices, Trial, new, try_prices};
