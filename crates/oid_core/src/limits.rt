//! How long names are.

/// How many sub-identifiers a name has at most (RFC 2578, 3.5).
pub const MAX_NUMBERS: usize = 128;

/// How many of them take no memory.
pub const INLINE_NUMBERS: usize = 24;
