//! What is reported of an event to its caller.
ghost use Rattle.std.specs.Prelude.{◌≡◌, ◌↔◌, ◌<◌, ◌⊎◌, length, IsTrue, IfOk, IfSome, OnErr};
ghost use Rattle.history_core.specs.Receipts.{TakesMemory, IsLong};

use crate::egress::Egress;
use crate::event::ReceiptEvent;
use message_core::Octets;
use std::alloc::{AllocError, Global};

/// What is reported of an event to its caller.
#[derive(Drop)]
pub struct Receipt {
    /// The number of its entry.
    pub number: u64,
    /// The event; of a policy, that it was one.
    pub event: ReceiptEvent,
    /// The ports by which a frame went out.
    pub egress: Egress,
    /// The octets of the reply to a request that was not dropped.
    pub reply: Option<Octets>,
}

impl Receipt {
    /// A copy. Takes memory only for a request with a community of more than `INLINE_OCTETS` octets
    /// or with variable bindings, and for a reply of more than `INLINE_OCTETS` octets.
    pub fn try_copy(&self, alloc: Global) -> Result<Receipt, AllocError>
        ensures value { IfOk result (λ copy. copy ≡ self.now) }
        ensures some { OnErr result (TakesMemory self.now.event ⊎ IsLong self.now.reply) }
    {
        let event = self.event.try_copy(alloc)?;
        let reply = copied_reply(alloc, &self.reply)?;
        Ok(Receipt {
            number: self.number,
            event,
            egress: self.egress.copy(),
            reply,
        })
    }

    /// Whether two receipts are equal: number, event, egress and reply. Takes no memory.
    pub fn same(&self, other: &Receipt) -> bool
        ensures { IsTrue result ↔ (self.now ≡ other.now) }
    {
        self.number == other.number
            && self.event.same(&other.event)
            && self.egress.same(&other.egress)
            && same_reply(&self.reply, &other.reply)
    }
}

// A copy of a reply, or none.
fn copied_reply(alloc: Global, reply: &Option<Octets>) -> Result<Option<Octets>, AllocError>
    ensures value { IfOk result (λ copy. copy ≡ reply.now) }
    ensures long { OnErr result (IsLong reply.now) }
{
    match reply {
        Some(octets) => Ok(Some(octets.try_copy(alloc)?)),
        None => Ok(None),
    }
}

// Whether two replies are one, or both none.
pub(crate) fn same_reply(one: &Option<Octets>, other: &Option<Octets>) -> bool
    ensures { IsTrue result ↔ (one.now ≡ other.now) }
{
    match (one, other) {
        (Some(one), Some(other)) => one.same(other),
        (None, None) => true,
        _ => false,
    }
}
