//! What is kept of bindings that are to be sent.

use crate::source::Stand;

/// What is kept of a binding that is to be sent: where its name stands among the numbers of all names,
/// whether its value is endOfMibView (RFC 3416, 4.2.3), and where a walk stands at the name.
#[derive(Clone, Copy, Debug, PartialEq, Eq)]
pub struct SentBinding {
    /// The place of the first number of its name.
    pub start: usize,
    /// The place behind the last number of its name.
    pub end: usize,
    /// Whether the value is endOfMibView.
    pub is_end: bool,
    /// Where a walk stands at the name.
    pub stand: Stand,
}
