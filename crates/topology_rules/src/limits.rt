//! Limits of a topology, for code and definitions alike.

/// How many locations a topology may have.
pub const MAX_LOCATIONS: usize = 256;

/// How many of them may be hosts.
pub const MAX_HOSTS: usize = 128;

/// How many links it may have.
pub const MAX_LINKS: usize = 1024;

/// How many packet functions it may have.
pub const MAX_FUNCTIONS: usize = 64;

/// How many places its functions may have in all.
pub const MAX_PLACEMENTS: usize = 1024;
