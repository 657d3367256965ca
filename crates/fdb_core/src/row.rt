//! One learned address.

use frame_core::Mac;

/// The shortest aging time by which addresses age out, in seconds (IEEE 802.1D-2004, Table 7-5).
pub const MIN_AGING_TIME: u32 = 10;

/// The longest aging time by which addresses age out, in seconds (IEEE 802.1D-2004, Table 7-5).
/// Every age is below it.
pub const MAX_AGING_TIME: u32 = 1_000_000;

/// A learned address (IEEE 802.1D-2004, 7.9.2).
#[derive(Clone, Copy, Debug, PartialEq, Eq)]
pub struct LearnedRow {
    /// The address.
    pub address: Mac,
    /// The number of the port on which a frame from the address came last.
    pub port: u16,
    /// How many seconds ago that was.
    pub age: u32,
}
