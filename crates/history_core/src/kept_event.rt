//! An event, as an entry keeps it.
ghost use Rattle.std.specs.Prelude.{◌≡◌, ◌↔◌, IsTrue, IfOk, OnErr, MatchOption};
ghost use Rattle.history_core.specs.Encoded.{IsKeptEncoded, IsEncodedEvent, IsDuplicateOf, request_of};
ghost use Rattle.history_core.specs.Receipts.{reported_of, TakesMemory};
ghost use Rattle.history_core.specs.Steps.{IsEncodable};

use crate::duplicate::{Duplicate, encode, encoding};
use crate::event::{Event, ReceiptEvent};
use message_core::{Octets, Request, decode};
use std::alloc::{AllocError, Global};
use std::marker::Model;

/// An event, as an entry keeps it, seen as the event: a request with variable bindings as its
/// shortest encoding, if that has at most `MAX_REQUEST` octets, and any other event as it is. So a
/// kept request takes about the octets of its datagram.
pub struct KeptEvent {
    form: Form,
}

// How an event is kept.
#[derive(Drop)]
enum Form {
    // As it is.
    Whole(Event),
    // A request, as its shortest encoding.
    Encoded(Octets),
}

// By hand: who drops one then knows nothing of its parts.
impl Drop for KeptEvent {
    fn drop(self) {
        let KeptEvent { form: _form } = self;
    }
}

impl Model for KeptEvent {
    ghost use Rattle.history_core.specs.declared.event.Event.{Event};

    ghost Value = { Event };

    ghost use Rattle.history_core.specs.Forms.{event_in, IsForm};

    ghost view = { λ k. event_in k.form };

    ghost invariant = { λ k. IsForm k.form };
}

impl KeptEvent {
    /// An event to keep. Takes memory only for a request with a community of more than `INLINE_OCTETS`
    /// octets or with variable bindings.
    pub fn of(alloc: Global, event: Event) -> Result<KeptEvent, AllocError>
        requires { IsEncodable event }
        ensures value { IfOk result (λ kept. kept ≡ event) }
        ensures some { OnErr result (TakesMemory (reported_of event)) }
    {
        let duplicate = Duplicate::of(alloc, &event)?;
        let (kept, _reported) = parted(event, duplicate);
        Ok(kept)
    }

    /// The shortest encoding of a request that is kept as that.
    pub fn encoded(&self) -> Option<&[u8]>
        ensures { MatchOption result (¬ IsKeptEncoded self.now)
            (λ octets. IsEncodedEvent octets.now self.now) }
    {
        match &self.form {
            Form::Whole(_) => None,
            Form::Encoded(octets) => Some(octets.as_slice()),
        }
    }

    /// A copy of the request of an event that is one. Takes memory only for a request with a
    /// community of more than `INLINE_OCTETS` octets or with variable bindings.
    pub fn request(&self, alloc: Global) -> Result<Option<Request>, AllocError>
        ensures value { IfOk result (λ request. request ≡ request_of self.now) }
        ensures some { OnErr result (TakesMemory (reported_of self.now)) }
    {
        match &self.form {
            Form::Whole(Event::Request(request)) => Ok(Some(request.try_copy(alloc)?)),
            Form::Whole(_) => Ok(None),
            Form::Encoded(octets) => match decode(alloc, octets.as_slice()) {
                Ok(request) => Ok(Some(request)),
                Err(_) => Err(AllocError),
            },
        }
    }

    /// Whether a receipt with this reports this event. Takes no memory.
    pub fn is_reported_by(&self, reported: &ReceiptEvent) -> bool
        ensures { IsTrue result ↔ (reported_of self.now ≡ reported.now) }
    {
        match (&self.form, reported) {
            (Form::Whole(event), _) => event.is_reported_by(reported),
            (Form::Encoded(octets), ReceiptEvent::Request(request)) => {
                encode(octets.as_slice(), request)
            }
            (Form::Encoded(_), _) => false,
        }
    }
}

/// An event as its entry keeps it, and what its receipt reports of it. Takes no memory.
pub(crate) fn parted(event: Event, duplicate: Duplicate) -> (KeptEvent, ReceiptEvent)
    requires { IsDuplicateOf event duplicate }
    ensures kept { result.0 ≡ event }
    ensures reported { result.1 ≡ reported_of event }
{
    match (event, duplicate) {
        (event, Duplicate::Copied(reported)) => {
            let form = Form::Whole(event);
            (KeptEvent { form }, reported)
        }
        (Event::Request(request), Duplicate::Encoded(octets)) => {
            let form = Form::Encoded(octets);
            (KeptEvent { form }, ReceiptEvent::Request(request))
        }
        (_, Duplicate::Encoded(_)) => unreachable!(),
    }
}
