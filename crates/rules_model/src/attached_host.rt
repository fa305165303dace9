//! Hosts as they stand in a network.

use merlin_model::network::{DirectedLink, HostAddress};

/// A host: its location, its addresses, and its directed link to the first switch.
#[derive(Clone, Copy)]
pub struct AttachedHost {
    pub loc: usize,
    pub address: HostAddress,
    pub link: DirectedLink,
}
