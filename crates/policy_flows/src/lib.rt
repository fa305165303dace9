//! The flows of guaranteed statements over the links of a network: of each statement the product of its automaton with the
//! network between its hosts, with its rate.
#![tactic(auto)]

mod edges;
mod fault;
mod flows;
mod layout;
mod limits;
mod weights;

pub use fault::ProgramFault;
pub use layout::{Layout, lay_out};
pub use limits::{MAX_PRODUCT_EDGES, MAX_PRODUCT_VERTICES};
