//! Between walks and points of the program: least paths of flows over chosen variables, the points of walks, the walks of points, and
//! the bound that takes each flow by itself.
#![tactic(auto)]

mod assignments;
mod backwards;
mod crossing;
pub mod laws;
mod marking;
mod paths;
mod separate;
mod solutions;
mod values;
mod widest;

pub use assignments::walks_of_point;
pub use backwards::cost;
pub use paths::{LeastPath, least_path};
pub use separate::separate_bound;
pub use solutions::point_of_walks;
pub use values::value_of_walks;
