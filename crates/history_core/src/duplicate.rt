//! What stands for an event a second time, since its entry and its receipt each have it.
ghost use Rattle.std.specs.Prelude.{◌≡◌, ◌≢◌, ◌↔◌, ◌≤◌, ◌<◌, [], length, IsTrue, IsSome, IfOk, OnErr, MatchOption};
ghost use Rattle.message_core.specs.Canon.{canon_request};
ghost use Rattle.message_core.specs.Encodable.{AreEncodable};
ghost use Rattle.message_core.specs.declared.limits.TheConstants.{MAX_REQUEST};
ghost use Rattle.message_core.specs.declared.request.Request.{Request};
ghost use Rattle.history_core.specs.Encoded.{IsShort, IsEncodingOf, IsDuplicateOf};
ghost use Rattle.history_core.specs.Receipts.{reported_of, TakesMemory};
ghost use Rattle.history_core.specs.Steps.{IsEncodable};

use crate::event::{Event, ReceiptEvent};
use crate::ranges::{are_encodable, known_request};
use message_core::{MAX_REQUEST, Octets, Request, encode_request};
use std::alloc::{AllocError, Global};

// The most octets of a usual request: a space of so many is cleared sooner than one of `MAX_REQUEST`.
const USUAL_REQUEST: usize = 384;

/// What stands for an event a second time, since its entry and its receipt each have it. It is made
/// before the event happens, while want of memory can still be reported.
#[derive(Drop)]
pub enum Duplicate {
    /// The shortest encoding of a request, at most [`MAX_REQUEST`] octets: the entry keeps it, and
    /// the receipt has the request itself.
    Encoded(Octets),
    /// A copy for the receipt: the entry keeps the event itself.
    Copied(ReceiptEvent),
}

impl Duplicate {
    /// What stands for this event a second time: the shortest encoding of a request with variable
    /// bindings, if that has at most [`MAX_REQUEST`] octets, and a copy of any other. Takes memory
    /// only for a request with a community of more than `INLINE_OCTETS` octets or with variable
    /// bindings.
    pub fn of(alloc: Global, event: &Event) -> Result<Duplicate, AllocError>
        requires { IsEncodable event.now }
        ensures value { IfOk result (λ duplicate. IsDuplicateOf event.now duplicate) }
        ensures some { OnErr result (TakesMemory (reported_of event.now)) }
    {
        if let Event::Request(request) = event {
            if let Some(octets) = encoding(alloc, request)? {
                return Ok(Duplicate::Encoded(octets));
            }
        }
        Ok(Duplicate::Copied(event.reported(alloc)?))
    }
}

/// The shortest encoding of a request with variable bindings, if that has at most [`MAX_REQUEST`]
/// octets. Takes memory only where there are bindings.
#[inline(always)]
pub(crate) fn encoding(alloc: Global, request: &Request) -> Result<Option<Octets>, AllocError>
    requires { AreEncodable request.now.bindings }
    ensures value { IfOk result (λ found. MatchOption found (¬ IsShort request.now)
        (λ octets. IsEncodingOf octets request.now)) }
    ensures some { OnErr result (request.now.bindings ≢ []) }
{
    if !has_bindings(request) {
        return Ok(None);
    }
    match encoding_over(alloc, request, &mut [0; USUAL_REQUEST])? {
        Some(octets) => Ok(Some(octets)),
        None => long_encoding(alloc, request),
    }
}

// As `encoding`, of a request with variable bindings, over `MAX_REQUEST` octets; apart, so that a usual request
// does not clear them.
#[inline(never)]
fn long_encoding(alloc: Global, request: &Request) -> Result<Option<Octets>, AllocError>
    requires encodable { AreEncodable request.now.bindings }
    requires some { request.now.bindings ≢ [] }
    ensures value { IfOk result (λ found. MatchOption found (¬ IsShort request.now)
        (λ octets. IsEncodingOf octets request.now)) }
{
    encoding_over(alloc, request, &mut [0; MAX_REQUEST])
}

// The shortest encoding of a request with variable bindings, if the space that is lent holds it.
#[inline(always)]
fn encoding_over(
    alloc: Global,
    request: &Request,
    space: &mut [u8],
) -> Result<Option<Octets>, AllocError>
    requires encodable { AreEncodable request.now.bindings }
    requires some { request.now.bindings ≢ [] }
    requires most { length space.old ≤ MAX_REQUEST }
    ensures value { IfOk result (λ found. MatchOption found
        (length space.old < length (canon_request request.now))
        (λ octets. IsEncodingOf octets request.now)) }
    ensures fits { IfOk result (λ found. IsSome found →
        length (canon_request request.now) ≤ length space.old) }
{
    known_request(request);
    match encode_request(request, space) {
        Ok(octets) => Ok(Some(Octets::from_slice(alloc, octets)?)),
        Err(_) => Ok(None),
    }
}

// Whether a request has variable bindings.
fn has_bindings(request: &Request) -> bool
    ensures { IsTrue result ↔ (request.now.bindings ≢ []) }
{
    !request.bindings.as_slice().is_empty()
}

/// Whether octets that encode a request encode this one. Takes no memory.
pub(crate) fn encode(octets: &[u8], request: &Request) -> bool
    ensures { (kept : Request) → IsEncodingOf octets.now kept →
        IsTrue result ↔ (kept ≡ request.now) }
{
    if !are_encodable(request.bindings.as_slice()) {
        return false;
    }
    known_request(request);
    match encode_request(request, &mut [0; MAX_REQUEST]) {
        Ok(own) => same_octets(own, octets),
        Err(_) => false,
    }
}

// Whether two strings of octets are equal.
fn same_octets(one: &[u8], other: &[u8]) -> bool
    ensures { IsTrue result ↔ (one.now ≡ other.now) }
{
    one == other
}
