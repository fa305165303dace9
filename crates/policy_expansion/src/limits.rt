//! Limits of a policy, for definitions and code alike.

/// How many statements a policy may have, with the default.
pub const MAX_STATEMENTS: usize = 4_096;
