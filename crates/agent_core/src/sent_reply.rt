//! What was put into a buffer.
use message_core::ErrorStatus;

/// What is known of a reply that stands in the buffer.
#[derive(Clone, Copy, Debug, PartialEq, Eq)]
pub struct SentReply {
    /// How many octets it has.
    pub length: usize,
    /// Its error-status, tooBig where it had been too long.
    pub status: ErrorStatus,
    /// Its error-index: the number of a binding, or 0.
    pub index: i32,
}

/// What is known of the reply to a request that reads.
#[derive(Clone, Copy, Debug, PartialEq, Eq)]
pub struct ReadReply {
    /// The reply.
    pub sent: SentReply,
    /// The number of the binding for which a name was made that found no memory, where one was.
    pub unnamed: Option<usize>,
}
