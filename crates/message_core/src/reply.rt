//! A response (RFC 3416, section 3).
use crate::binding::Bindings;
use crate::octets::Octets;
use crate::status::ErrorStatus;

/// A reply: what a message of version 2c with a Response says.
pub struct Reply {
    /// The request-id of the request that it answers.
    pub id: i32,
    /// The error-status.
    pub status: ErrorStatus,
    /// The error-index: the number of the faulty binding from 1 on, or 0.
    pub index: i32,
    /// The community of the request that it answers.
    pub community: Octets,
    /// The variable bindings.
    pub bindings: Bindings,
}

// By hand: who drops one then knows nothing of its parts.
impl Drop for Reply {
    fn drop(self) {
        let Reply {
            id: _id,
            status: _status,
            index: _index,
            community: _community,
            bindings: _bindings,
        } = self;
    }
}
