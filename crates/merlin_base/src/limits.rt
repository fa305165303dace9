//! Limits of single lexemes, which definitions and code share. That of rates is in `merlin_model::limits`.

/// How many bytes a name may have.
pub const MAX_NAME_BYTES: usize = 32;

/// How many digits a number may have.
pub const MAX_DIGITS: usize = 19;

/// How many numbers have at most so many digits: 10 to the power of `MAX_DIGITS`.
pub const NUMBERS: usize = 10_000_000_000_000_000_000;
