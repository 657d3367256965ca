//! Asks an agent, again and again until it answers.
ghost use Rattle.std.specs.Prelude.{◌≡◌, ◌≤◌, [], ◌∷◌, length, Ok, Err, IfOk, IfErr, IfSome};
ghost use Rattle.message_core.specs.Canon.{canon_request};
ghost use Rattle.message_core.specs.Encodable.{AreEncodable};
ghost use Rattle.wire_core.specs.Acts.{sent};
ghost use Rattle.manager_core.specs.Asks.{Try, try_acts, Becomes, HasAsked};

use crate::fault::ManagerFault;
use crate::hearing::hear;
use message_core::{Binding, Bindings, MAX_REQUEST, Request, encode_request};
use std::alloc::Global;
use std::net::SocketAddr;
use wire_core::{Received, Wire};

/// How many octets a manager lends to a receive: one more than a datagram may have, so that one
/// that is too long is seen to be so.
pub const RECEIVE_SPACE: usize = MAX_REQUEST + 1;

/// The bindings that an agent answers to a request, which is sent at most so many times (RFC 3416,
/// section 4.2).
///
/// Each try sends the request's shortest encoding and receives once. A try is used up where the
/// datagram cannot be sent, nothing comes, the wire is closed or fails, or a Response of another
/// request-id comes. Each other datagram ends the ask. Takes memory for what is received.
///
/// # Errors
/// `Timeout` where all tries are used up. `BadReply` where the datagram is no Response, or the
/// Response to this request-id is of another community. `Error` where its status is not noError.
/// `Memory` where there is none for the Response.
pub fn ask<W: Wire>(
    alloc: Global,
    wire: &mut W,
    peer: SocketAddr,
    request: &Request,
    tries: u32,
) -> Result<Vec<Binding>, ManagerFault>
    requires encodable { AreEncodable request.now.bindings }
    requires fits { length (canon_request request.now) ≤ MAX_REQUEST }
    ensures answered { IfOk result (λ found.
        HasAsked W.went peer request.now tries wire.old (Ok found.items) wire.new) }
    ensures faulted { IfErr result (λ fault.
        HasAsked W.went peer request.now tries wire.old (Err fault) wire.new) }
{
    match ask_for(alloc, wire, peer, request, tries) {
        Ok(bindings) => Ok(bindings.into_vec()),
        Err(fault) => Err(fault),
    }
}

/// The same, with the bindings as they stand in a reply. Each of them has an encoding.
pub(crate) fn ask_for<W: Wire>(
    alloc: Global,
    wire: &mut W,
    peer: SocketAddr,
    request: &Request,
    tries: u32,
) -> Result<Bindings, ManagerFault>
    requires encodable { AreEncodable request.now.bindings }
    requires fits { length (canon_request request.now) ≤ MAX_REQUEST }
    ensures asked { HasAsked W.went peer request.now tries wire.old result wire.new }
    ensures encodable { IfOk result AreEncodable }
{
    let mut space = [0u8; MAX_REQUEST];
    match encode_request(request, &mut space) {
        Ok(octets) => send_for(alloc, wire, peer, request, octets, tries),
        Err(_) => unreachable!(),
    }
}

// Tries so many times.
fn send_for<W: Wire>(
    alloc: Global,
    wire: &mut W,
    peer: SocketAddr,
    request: &Request,
    octets: &[u8],
    tries: u32,
) -> Result<Bindings, ManagerFault>
    requires { octets.now ≡ canon_request request.now }
    ensures asked { HasAsked W.went peer request.now tries wire.old result wire.new }
    ensures encodable { IfOk result AreEncodable }
{
    for _i in 0..tries {
        if let Some(end) = try_once(alloc, wire, peer, request, octets) {
            return end;
        }
    }
    Err(ManagerFault::Timeout(tries))
}

// One try: whether it ends the ask, and how.
fn try_once<W: Wire>(
    alloc: Global,
    wire: &mut W,
    peer: SocketAddr,
    request: &Request,
    octets: &[u8],
) -> Option<Result<Bindings, ManagerFault>>
    ensures tried { (t : Try) × Becomes request.now t result
        × W.went wire.old (try_acts peer octets.now t) wire.new }
    ensures encodable { IfSome result (λ end. IfOk end AreEncodable) }
{
    match wire.send(peer, octets) {
        Ok(()) => listen(alloc, wire, peer, request, octets),
        Err(_) => None,
    }
}

// What follows a datagram that was sent.
fn listen<W: Wire>(
    alloc: Global,
    wire: &mut W,
    peer: SocketAddr,
    request: &Request,
    octets: &[u8],
) -> Option<Result<Bindings, ManagerFault>>
    ensures tried { (a : W) → W.went a (sent peer octets.now ∷ []) wire.old →
        (t : Try) × Becomes request.now t result × W.went a (try_acts peer octets.now t) wire.new }
    ensures encodable { IfSome result (λ end. IfOk end AreEncodable) }
{
    let mut space = [0u8; RECEIVE_SPACE];
    match wire.receive(&mut space) {
        Ok(Received::Datagram(len, _)) => hear(alloc, request, &space[..len]),
        Ok(Received::Nothing) => None,
        Ok(Received::Closed) => None,
        Err(_) => None,
    }
}
