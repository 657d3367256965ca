//! The limits of messages, in octets.

/// The longest datagram that is read, and the longest request that is written, in octets: 2,048.
pub const MAX_REQUEST: usize = 2048;

/// The longest reply that is written, in octets: 1,472, which an Ethernet frame holds beside the
/// headers of IP and UDP.
pub const MAX_REPLY: usize = 1472;

/// The longest community of a request that is answered, in octets: 255.
pub const MAX_COMMUNITY: usize = 255;

/// How many octets of a string take no memory: 24.
pub const INLINE_OCTETS: usize = 24;
