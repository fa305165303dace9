//! What a tenant is given.

/// What a tenant is given in kbit/s, and why not more: the cap that bounds it, by its place, or its own demand.
#[derive(Clone, Copy)]
pub struct Share {
    pub rate: u64,
    pub cap: Option<usize>,
}
