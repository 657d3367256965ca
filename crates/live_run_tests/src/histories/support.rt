//! Events for histories.
ghost use Rattle.std.specs.Prelude.{IfOk};
ghost use Rattle.history_core.specs.Steps.{IsEncodable};

use crate::fixtures::message::{Message, octets_of};
use agent_core::Buffer;
use history_core::{Applied, Event, Kept, Receipt};
use message_core::decode;
use setphase_core::MibObject;
use std::alloc::Global;
use std::test::Fail;

/// The event of a request.
pub fn request_of(alloc: Global, message: &Message<'_>) -> Result<Event, Fail>
    ensures { IfOk result (λ event. IsEncodable event) }
{
    let octets = octets_of(alloc, message)?;
    match decode(alloc, &octets) {
        Ok(request) => Ok(Event::Request(request)),
        Err(_) => Err(Fail::from("a request")),
    }
}

// The receipt of an event that was entered, and not dropped.
fn receipt_in(applied: Applied) -> Result<Receipt, Fail> {
    match applied {
        Applied::Done(receipt, _) => Ok(receipt),
        _ => Err(Fail::from("an entry")),
    }
}

/// The receipt of an event that is entered, and not dropped.
pub fn entered<O: MibObject>(
    alloc: Global,
    history: &mut Kept<O>,
    event: Event,
) -> Result<Receipt, Fail>
    requires { IsEncodable event }
{
    let mut buffer = Buffer::new();
    receipt_in(history.apply(alloc, event, &mut buffer))
}
