//! The limits of demands. That of rates is in `merlin_model::limits`.

/// The most caps.
pub const MAX_CAPS: usize = 256;

/// The most tenants.
pub const MAX_TENANTS: usize = 4096;
