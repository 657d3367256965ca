//! How many datagrams each cause dropped.
use std::sync::Wait;

/// How many datagrams each cause dropped, each modulo 2^32.
#[derive(Clone, Copy, Debug, Default, PartialEq, Eq)]
pub struct DropCounts {
    /// Longer than a request may be.
    pub too_long: u32,
    /// No message (RFC 1901, section 3).
    pub malformed: u32,
    /// Of another version.
    pub bad_version: u32,
    /// Of no kind of request.
    pub bad_kind: u32,
    /// For want of memory.
    pub memory: u32,
}

/// Gives how many datagrams each cause dropped, as of the intervals that ended. What it may give is a
/// relation, since other threads count on.
pub trait DropTally {
    ghost use Rattle.live_control.specs.declared.tally.DropCounts.{DropCounts};

    // It may give this.
    ghost reports: { Self → DropCounts → Type 0 };

    /// The counts of the intervals that ended.
    fn dropped<R: Wait>(&self, rt: &R) -> DropCounts
        ensures { reports self.now result };
}
