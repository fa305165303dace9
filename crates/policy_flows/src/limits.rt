//! How much the products of all guaranteed statements may have together.

/// How many vertices.
pub const MAX_PRODUCT_VERTICES: usize = 8_192;

/// How many edges.
pub const MAX_PRODUCT_EDGES: usize = 32_768;
