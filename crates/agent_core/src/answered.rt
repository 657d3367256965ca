//! What is reported of a request that was answered.
use audit_core::Audit;

/// What a request is answered.
#[derive(Drop)]
pub enum Answered {
    /// A reply of so many octets, which stands in the buffer; the audit; and the number of the
    /// variable whose commit failed, since a device did (RFC 3416, 4.2.5), where one did.
    Reply(usize, Audit, Option<usize>),
    /// A reply of so many octets, which stands in the buffer: genErr, or tooBig where that is too long,
    /// since there was no memory for a name above 24 numbers (RFC 3416, 4.2.2 and 4.2.3); the audit; and
    /// the number of the binding for which the name was made.
    Unnamed(usize, Audit, usize),
    /// The request is dropped, since its community or its context is not known; the audit says
    /// which.
    NoReply(Audit),
}
