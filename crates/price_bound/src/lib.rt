//! What is found of a box of the program by whole-number prices on links and shortest walks.
#![tactic(auto)]

mod costs;
mod floors;
mod flow_graph;
mod leaf;
mod loads;
mod measure;
mod numbers;
mod permitted;
mod prices;
mod spread;
mod trials;
mod tried;

pub use prices::{Prices, new};
