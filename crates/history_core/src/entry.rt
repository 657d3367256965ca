//! What is kept of one event.
use crate::egress::Egress;
use crate::kept_event::KeptEvent;
use audit_core::Audit;
use message_core::Octets;

/// What is kept of one event.
#[derive(Drop)]
pub struct Entry {
    /// The event. A request with variable bindings is kept as its shortest encoding, if that has
    /// at most `MAX_REQUEST` octets.
    pub event: KeptEvent,
    /// Whether there was no memory for the learned row of a frame's source.
    pub no_room: bool,
    /// The number of the variable whose commit failed in a Set, where a device failed (RFC 3416,
    /// 4.2.5). Which settings could not be restored, the audit says.
    pub failed: Option<usize>,
    /// The number of the binding of a GetNext or a GetBulk for which a name above 24 numbers was made,
    /// where there was no memory for it: the reply is genErr with this index, or tooBig where that is too
    /// long (RFC 3416, 4.2.2 and 4.2.3).
    pub unnamed: Option<usize>,
    /// The ports by which a frame went out.
    pub egress: Egress,
    /// The octets of the reply to a request that was not dropped.
    pub reply: Option<Octets>,
    /// The audit of a request.
    pub audit: Option<Audit>,
}
