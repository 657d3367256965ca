//! What became of an event.
use crate::event::Event;
use crate::receipt::Receipt;
use audit_core::Audit;
use decision::Cause;

/// What became of an event.
#[derive(Drop)]
pub enum Applied {
    /// It was entered: its receipt, and the audit of a request. The reply to a request stands in the
    /// buffer, and what the ports send. An event of a port that is not there is entered, and changes
    /// nothing.
    Done(Receipt, Option<Audit>),
    /// A request was entered that is dropped for this cause: there is no reply.
    Dropped(Receipt, Cause, Audit),
    /// There was no memory: nothing was entered and nothing changed, and the event comes back. The
    /// buffer holds genErr, or tooBig where that does not fit, for a request that is not dropped
    /// (RFC 3416, 4.2.1).
    Short(Event),
    /// No number is left for an entry: nothing was entered and nothing changed, and the event comes
    /// back.
    HistoryFull(Event),
}
