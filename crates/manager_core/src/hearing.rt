//! What a manager makes of a datagram.
ghost use Rattle.std.specs.Prelude.{◌≡◌, IfSome, IfOk};
ghost use Rattle.message_core.specs.Encodable.{AreEncodable};
ghost use Rattle.manager_core.specs.Replies.{IsReported, IsHeard, fault_of};

use crate::fault::ManagerFault;
use message_core::{Bindings, DropCause, ErrorStatus, Reply, Request, decode_reply};
use std::alloc::Global;
use std::mem::replace;

/// What a datagram that came after a request says to it: nothing, as the reply to another request
/// does, or how the ask ends.
pub fn hear(
    alloc: Global,
    request: &Request,
    datagram: &[u8],
) -> Option<Result<Bindings, ManagerFault>>
    ensures heard { IsHeard request.now datagram.now result }
    ensures encodable { IfSome result (λ end. IfOk end AreEncodable) }
{
    match decode_reply(alloc, datagram) {
        Ok(reply) => read_outcome(alloc, request, reply),
        Err(cause) => Some(Err(fault_of(cause))),
    }
}

// How an ask ends by a datagram that gives no reply.
fn fault_of(cause: DropCause) -> ManagerFault
    ensures { result ≡ fault_of cause }
{
    match cause {
        DropCause::Memory => ManagerFault::Memory,
        _ => ManagerFault::BadReply,
    }
}

// What a reply says to a request.
fn read_outcome(
    alloc: Global,
    request: &Request,
    mut reply: Reply,
) -> Option<Result<Bindings, ManagerFault>>
    requires { AreEncodable reply.bindings }
    ensures reported { IsReported request.now reply result }
    ensures encodable { IfSome result (λ end. IfOk end AreEncodable) }
{
    if reply.id != request.id {
        return None;
    }
    if !reply.community.same(&request.community) {
        return Some(Err(ManagerFault::BadReply));
    }
    if reply.status != ErrorStatus::NoError {
        return Some(Err(ManagerFault::Error(reply.status, reply.index)));
    }
    Some(Ok(replace(&mut reply.bindings, Bindings::new(alloc))))
}
