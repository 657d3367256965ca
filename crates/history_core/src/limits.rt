//! Limits of a history.

/// How many entries are kept at most: an event past them moves the base.
pub const MAX_ENTRIES: usize = 4096;
