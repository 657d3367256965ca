//! What became of an address that was to be learned (IEEE 802.1D-2004, 7.8).
/// What learning an address did.
#[derive(Clone, Copy, Debug, PartialEq, Eq)]
pub enum Learnt {
    /// The address was not known, and is now.
    New,
    /// The address was known on another port, and has moved.
    Moved,
    /// The address was known on this port, and is young again.
    Same,
    /// The address is not known, and the table has as many rows as it may have. Nothing changed.
    Full,
    /// The address is not known, and there was no memory for its row. Nothing changed.
    Memory,
}
