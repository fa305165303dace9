//! Limits that definitions and code share.

/// How great a rate may be, in kbit/s: of a limit, of a term of a formula, and the capacity of a link.
pub const MAX_RATE: u64 = 1_000_000_000;

/// How many variables a program may have.
pub const MAX_VARIABLES: usize = 32_768;

/// How many rows a program may have.
pub const MAX_ROWS: usize = 16_384;

/// How great a coefficient of a row may be, whatever its sign.
pub const MAX_COEFFICIENT: u64 = 1_000_000_000;

/// How great the right side of a row may be, whatever its sign: 2 to the power of 45.
pub const MAX_RIGHT_SIDE: u64 = 1 << 45;

/// How great a multiplier in a leaf of a certificate may be, whatever its sign: 2 to the power of 60.
pub const MAX_WEIGHT: u64 = 1 << 60;

/// How many nodes a certificate may have, and so the greatest budget of a search.
pub const MAX_NODES: usize = 4_096;
