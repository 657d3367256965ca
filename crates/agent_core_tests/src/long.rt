//! GetNext and GetBulk over names that take memory, and over names that take none (RFC 3416, 4.2.2 and
//! 4.2.3).
ghost use Rattle.std.specs.Prelude.{IfOk};
ghost use Rattle.message_core.specs.Encodable.{AreEncodable};

use crate::messages::{
    BULK, BULK_END, BULK_END_REPLY, BULK_REPLY, FIRST, FIRST_REPLY, NEXT_END, NEXT_END_REPLY,
    SECOND, SECOND_REPLY,
};
use crate::ports::long_registry;
use crate::worlds::open_world;
use agent_core::{Answered, Buffer, answer};
use audit_core::UnrestoredSpace;
use message_core::{ErrorStatus, Request, decode};
use std::alloc::{AllocError, Global};
use std::test::Fail;

/// How a request is answered.
#[derive(Clone, Copy, Debug, PartialEq, Eq)]
enum Outcome {
    /// A reply, its error-status by the audit, and whether it has the expected octets.
    Reply(ErrorStatus, bool),
    /// genErr for want of memory for a name of the binding of this number.
    Unnamed(usize),
    /// Memory was refused for anything else.
    Short,
    /// No reply.
    Dropped,
}

/// noError, with the expected octets and no note.
const AS_EXPECTED: Outcome = Outcome::Reply(ErrorStatus::NoError, true);

// The octets of a message in hexadecimal.
fn octets_of(alloc: Global, text: &str) -> Result<Vec<u8>, Fail> {
    Ok(hex::decode(alloc, text.as_bytes()).ok().ok_or("octets")?)
}

fn request_of(alloc: Global, text: &str) -> Result<Request, Fail>
    ensures { IfOk result (λ request. AreEncodable request.bindings) }
{
    let octets = octets_of(alloc, text)?;
    match decode(alloc, octets.as_slice()) {
        Ok(request) => Ok(request),
        Err(_) => Err(Fail::from("a request")),
    }
}

// How a request is answered whose reply is to have these octets.
fn outcome_of(alloc: Global, request: &str, reply: &str) -> Result<Outcome, Fail> {
    let mut world = open_world(alloc)?;
    let mut registry = long_registry(alloc)?;
    let request = request_of(alloc, request)?;
    let reply = octets_of(alloc, reply)?;
    let unrestored = UnrestoredSpace::reserved(alloc)?;
    let mut buffer = Buffer::new();
    let answered = answer(
        alloc,
        &mut registry,
        &mut world,
        &request,
        &mut buffer,
        unrestored,
    );
    Ok(outcome_by(answered, buffer.reply() == reply.as_slice()))
}

// The same by its answer, and by whether the buffer has the expected octets.
fn outcome_by(answered: Result<Answered, AllocError>, same: bool) -> Outcome {
    match answered {
        Ok(Answered::Reply(_, audit, _)) => Outcome::Reply(audit.status, same),
        Ok(Answered::Unnamed(_, _, number)) => Outcome::Unnamed(number),
        Ok(Answered::NoReply(_)) => Outcome::Dropped,
        Err(_) => Outcome::Short,
    }
}

// From a name of three numbers before each object to its first instance.
#[test]
fn next_makes_names_of_up_to_128_numbers(rt: HostRuntime) -> Result<(), Fail> {
    assert_eq!(rt; outcome_of(rt.alloc(), FIRST, FIRST_REPLY)?, AS_EXPECTED);
    Ok(())
}

// From the first instance of each object to its second.
#[test]
fn next_goes_on_from_names_of_up_to_128_numbers(rt: HostRuntime) -> Result<(), Fail> {
    assert_eq!(rt; outcome_of(rt.alloc(), SECOND, SECOND_REPLY)?, AS_EXPECTED);
    Ok(())
}

// The third column is all ten instances; the first two are at their end.
#[test]
fn bulk_walks_all_as_its_third_column(rt: HostRuntime) -> Result<(), Fail> {
    assert_eq!(rt; outcome_of(rt.alloc(), BULK, BULK_REPLY)?, AS_EXPECTED);
    Ok(())
}

// Names of 23, 24, 25, 113 and 128 numbers, under which nothing follows.
#[test]
fn the_end_has_the_asked_name(rt: HostRuntime) -> Result<(), Fail> {
    assert_eq!(rt;
        outcome_of(rt.alloc(), NEXT_END, NEXT_END_REPLY)?,
        AS_EXPECTED
    );
    assert_eq!(rt;
        outcome_of(rt.alloc(), BULK_END, BULK_END_REPLY)?,
        AS_EXPECTED
    );
    Ok(())
}
