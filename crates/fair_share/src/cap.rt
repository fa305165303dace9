//! Caps and the tenants beneath them.

use merlin_base::Name;

/// A capacity in kbit/s. It is under an earlier cap, or under none. Caps go by their place.
#[derive(Drop)]
pub struct Cap {
    pub name: Name,
    pub rate: u64,
    pub under: Option<usize>,
}

/// A tenant with the rate that it asks for in kbit/s, and the cap that it is under, if any.
#[derive(Drop)]
pub struct Tenant {
    pub name: Name,
    pub demand: u64,
    pub under: Option<usize>,
}
