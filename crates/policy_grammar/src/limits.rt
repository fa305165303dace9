//! Limits of a policy's predicates and paths, for definitions and code alike.

/// How many brackets and bangs of a predicate or a path may be open at once.
pub const MAX_NESTING: usize = 128;

/// How many tests a predicate may have.
pub const MAX_TESTS: usize = 4_096;

/// How many names and dots a path may have.
pub const MAX_PATH_NAMES: usize = 2_048;
