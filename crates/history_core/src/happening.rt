//! What an event does to a world and the objects that show it.
ghost use Rattle.std.specs.Prelude.{◌≡◌, ◌≢◌, ◌<◌, ◌≤◌, None, [], true, List, length, IfOk, OnOk, OnErr};
ghost use Rattle.std.specs.Option.{ForSome};
ghost use Rattle.message_core.specs.Encodable.{AreEncodable};
ghost use Rattle.message_core.specs.declared.limits.TheConstants.{INLINE_OCTETS};
ghost use Rattle.setphase_core.specs.Objects.{ObjectState};
ghost use Rattle.history_core.specs.Steps.{has_port, cause_in, IsEncodable, AreAtRest, MayTakeMemory, failure_octets};
ghost use Rattle.history_core.specs.Happening.{quiet, audit_reported, happened_by, Happens};

use crate::egress::Egress;
use crate::event::Event;
use agent_core::{Answered, Buffer, answer, short_reply};
use audit_core::{Audit, UnrestoredSpace};
use bridge_core::Bridge;
use decision::{Cause, Decision, decide};
use frame_core::FrameIn;
use message_core::{Kind, MAX_REPLY, Octets, Request, ReservedOctets};
use setphase_core::{MibObject, Registry, World};
use std::alloc::{AllocError, Global};

/// What became of an event, beside what stands in the buffer.
#[derive(Drop)]
pub struct EventOutcome {
    /// Whether there was no memory for the learned row of a frame's source.
    pub no_room: bool,
    /// The number of the variable whose commit failed in a Set.
    pub failed: Option<usize>,
    /// The number of the binding of a request for which a name above 24 numbers was made, where there was
    /// no memory for it.
    pub unnamed: Option<usize>,
    /// The ports by which a frame goes out.
    pub egress: Egress,
    /// The octets of the reply to a request that is not dropped.
    pub reply: Option<Octets>,
    /// A copy of them.
    pub reported_reply: Option<Octets>,
    /// The audit of a request.
    pub audit: Option<Audit>,
    /// A copy of it.
    pub reported_audit: Option<Audit>,
}

/// What became of an event that is no frame and no request.
pub fn quiet() -> EventOutcome
    ensures { result ≡ quiet }
{
    EventOutcome {
        no_room: false,
        failed: None,
        unnamed: None,
        egress: Egress::none(),
        reply: None,
        reported_reply: None,
        audit: None,
        reported_audit: None,
    }
}

// Whether a bridge has a port of this number.
fn has_port(bridge: &Bridge, port: u16) -> bool
    ensures { result ≡ has_port bridge.now port }
{
    1 <= port && usize::from(port) <= bridge.ports()
}

// A frame comes in by a port.
fn take_frame(
    world: &mut World,
    port: u16,
    frame: &FrameIn,
    buffer: &mut Buffer,
    happened: &mut EventOutcome,
)
    requires reply { buffer.old.reply ≡ [] }
    requires bpdus { buffer.old.bpdus ≡ [] }
    requires quiet { happened.old ≡ quiet }
    ensures { (objects : List ObjectState) → Happens objects world.old
        (Event.Frame port frame.now) happened.new objects world.new buffer.new }
{
    if !has_port(&world.bridge, port) {
        return;
    }
    let forwarding = world.bridge.frame(port, frame);
    buffer.send(forwarding.bpdus);
    happened.no_room = forwarding.no_room;
    happened.egress = Egress::of(forwarding.egress);
}

// A second passes. Nothing is left but what the ports send.
fn pass_second(world: &mut World, buffer: &mut Buffer)
    requires { buffer.old.reply ≡ [] }
    ensures { (objects : List ObjectState) →
        Happens objects world.old Event.Tick quiet objects world.new buffer.new }
{
    buffer.send(world.bridge.tick());
}

// The link of a port goes up, or down. Nothing is left but what the ports send.
fn turn_link(world: &mut World, port: u16, up: bool, buffer: &mut Buffer)
    requires reply { buffer.old.reply ≡ [] }
    requires bpdus { buffer.old.bpdus ≡ [] }
    ensures { (objects : List ObjectState) →
        Happens objects world.old (Event.Link port up) quiet objects world.new buffer.new }
{
    if !has_port(&world.bridge, port) {
        return;
    }
    buffer.send(world.bridge.link(port, up));
}

// A reply and its copy. They take memory only for more than `INLINE_OCTETS`.
fn copies(alloc: Global, reply: &[u8]) -> Result<(Octets, Octets), AllocError>
    ensures entered { IfOk result (λ replies. replies.0 ≡ reply.now) }
    ensures reported { IfOk result (λ replies. replies.1 ≡ reply.now) }
    ensures inline { OnErr result (INLINE_OCTETS < length reply.now) }
{
    let entered = Octets::from_slice(alloc, reply)?;
    let reported = entered.try_copy(alloc)?;
    Ok((entered, reported))
}

// Memory for a reply and its copy, reserved where want of memory can still be reported.
#[derive(Drop)]
struct ReservedReplies {
    entered: ReservedOctets,
    reported: ReservedOctets,
}

// What is reserved for a Set, and for no other request: memory for its reply and its copy, and for the
// settings that could not be restored, in its audit and in the copy of that.
#[derive(Drop)]
struct Reserved {
    replies: Option<ReservedReplies>,
    entered: UnrestoredSpace,
    reported: UnrestoredSpace,
}

impl ReservedReplies {
    // Memory for any reply, twice.
    fn reserved(alloc: Global) -> Result<ReservedReplies, AllocError>
        ensures entered { IfOk result (λ spaces. MAX_REPLY ≤ spaces.entered) }
        ensures reported { IfOk result (λ spaces. MAX_REPLY ≤ spaces.reported) }
    {
        let entered = ReservedOctets::reserved(alloc, MAX_REPLY)?;
        let reported = ReservedOctets::reserved(alloc, MAX_REPLY)?;
        Ok(ReservedReplies { entered, reported })
    }

    // A reply and its copy.
    fn filled(self, reply: &[u8]) -> (Octets, Octets)
        requires entered { length reply.now ≤ self.entered }
        requires reported { length reply.now ≤ self.reported }
        ensures entered { result.0 ≡ reply.now }
        ensures reported { result.1 ≡ reply.now }
    {
        let ReservedReplies { entered, reported } = self;
        (entered.filled(reply), reported.filled(reply))
    }
}

// What is reserved for a request of this kind: for a Set memory for any reply and for any settings,
// since what that writes cannot be taken back where there is then no memory.
fn reserved_for(alloc: Global, kind: Kind) -> Result<Reserved, AllocError>
    ensures set { IfOk result (λ reserved. reserved.replies ≡ None → kind ≢ Kind.Set) }
    ensures entered { IfOk result (λ reserved.
        ForSome reserved.replies (λ r. MAX_REPLY ≤ r.entered)) }
    ensures reported { IfOk result (λ reserved. ForSome reserved.replies (λ r. MAX_REPLY ≤ r.reported)) }
    ensures entered_keys { IfOk result (λ reserved. kind ≡ Kind.Set → reserved.entered ≡ true) }
    ensures reported_keys { IfOk result (λ reserved. kind ≡ Kind.Set → reserved.reported ≡ true) }
{
    match kind {
        Kind::Set => Ok(Reserved {
            replies: Some(ReservedReplies::reserved(alloc)?),
            entered: UnrestoredSpace::reserved(alloc)?,
            reported: UnrestoredSpace::reserved(alloc)?,
        }),
        Kind::Get | Kind::GetNext | Kind::GetBulk => Ok(Reserved {
            replies: None,
            entered: UnrestoredSpace::none(),
            reported: UnrestoredSpace::none(),
        }),
    }
}

// A reply and its copy: of their own size where there is memory for that, and else in what was
// reserved, if anything was.
fn replies_in(
    alloc: Global,
    spaces: Option<ReservedReplies>,
    reply: &[u8],
) -> Result<(Octets, Octets), AllocError>
    requires entered { ForSome spaces (λ r. length reply.now ≤ r.entered) }
    requires reported { ForSome spaces (λ r. length reply.now ≤ r.reported) }
    ensures entered { IfOk result (λ replies. replies.0 ≡ reply.now) }
    ensures reported { IfOk result (λ replies. replies.1 ≡ reply.now) }
    ensures none { OnErr result (spaces ≡ None) }
    ensures inline { OnErr result (INLINE_OCTETS < length reply.now) }
{
    match copies(alloc, reply) {
        Ok(own) => Ok(own),
        Err(error) => match spaces {
            Some(spaces) => Ok(spaces.filled(reply)),
            None => Err(error),
        },
    }
}

// The outcome of an answered request, where these octets are its reply, if it has one, and the settings
// that could not be restored are copied into this memory. The entry keeps the copy of the audit, whose
// list of denied bindings takes no more memory than it needs.
fn record_outcome(
    alloc: Global,
    answered: Answered,
    replies: (Octets, Octets),
    space: UnrestoredSpace,
    happened: &mut EventOutcome,
) -> Result<(), AllocError>
    requires replies { replies.0 ≡ replies.1 }
    requires space { (audit_reported answered).unrestored ≢ [] → space ≡ true }
    requires quiet { happened.old ≡ quiet }
    ensures happened { OnOk result (happened.new ≡ happened_by answered replies.0) }
    ensures denied { OnErr result ((audit_reported answered).denied ≢ []) }
{
    match answered {
        Answered::Reply(_, audit, failed) => {
            let (reply, reported_reply) = replies;
            happened.audit = Some(audit.try_copy_in(alloc, space)?);
            happened.reported_audit = Some(audit);
            happened.failed = failed;
            happened.reply = Some(reply);
            happened.reported_reply = Some(reported_reply);
        }
        Answered::Unnamed(_, audit, number) => {
            let (reply, reported_reply) = replies;
            happened.audit = Some(audit.try_copy_in(alloc, space)?);
            happened.reported_audit = Some(audit);
            happened.unnamed = Some(number);
            happened.reply = Some(reply);
            happened.reported_reply = Some(reported_reply);
        }
        Answered::NoReply(audit) => {
            happened.audit = Some(audit.try_copy_in(alloc, space)?);
            happened.reported_audit = Some(audit);
        }
    }
    Ok(())
}

// A request comes. Want of memory for its reply or its audit changes nothing: of a Set the memory for
// its reply and for what could not be undone is there first, and one that is dropped is counted, and
// has no reply that takes memory.
fn answer_request<O: MibObject>(
    alloc: Global,
    registry: &mut Registry<O>,
    world: &mut World,
    request: &Request,
    buffer: &mut Buffer,
    happened: &mut EventOutcome,
) -> Result<(), AllocError>
    requires encodable { AreEncodable request.now.bindings }
    requires at_rest { AreAtRest registry.old }
    requires quiet { happened.old ≡ quiet }
    ensures happens { OnOk result (Happens registry.old world.old
        (Event.Request request.now) happened.new registry.new world.new buffer.new) }
    ensures world { OnErr result (world.new ≡ world.old) }
    ensures objects { OnErr result (registry.new ≡ registry.old) }
{
    let Reserved {
        replies: spaces,
        entered,
        reported,
    } = reserved_for(alloc, request.kind)?;
    let answered = answer(alloc, registry, world, request, buffer, entered)?;
    let replies = replies_in(alloc, spaces, buffer.reply())?;
    record_outcome(alloc, answered, replies, reported, happened)
}

/// An event happens. What becomes of it is put into a place that is lent for it, and quiet, so that it
/// is not moved about. A request and a policy may find no memory, and then nothing else has changed.
pub fn happen<O: MibObject>(
    alloc: Global,
    registry: &mut Registry<O>,
    world: &mut World,
    event: &Event,
    buffer: &mut Buffer,
    happened: &mut EventOutcome,
) -> Result<(), AllocError>
    requires encodable { IsEncodable event.now }
    requires at_rest { AreAtRest registry.old }
    requires reply { buffer.old.reply ≡ [] }
    requires bpdus { buffer.old.bpdus ≡ [] }
    requires quiet { happened.old ≡ quiet }
    ensures happens { OnOk result (Happens registry.old world.old event.now
        happened.new registry.new world.new buffer.new) }
    ensures takes { OnErr result (MayTakeMemory event.now) }
    ensures world { OnErr result (world.new ≡ world.old) }
    ensures objects { OnErr result (registry.new ≡ registry.old) }
{
    match event {
        Event::Frame { port, frame } => {
            take_frame(world, *port, frame, buffer, happened);
            Ok(())
        }
        Event::Tick => {
            pass_second(world, buffer);
            Ok(())
        }
        Event::Link { port, up } => {
            turn_link(world, *port, *up, buffer);
            Ok(())
        }
        Event::Policy(policy) => {
            world.policy = policy.try_copy(alloc)?;
            Ok(())
        }
        Event::Request(request) => {
            answer_request(alloc, registry, world, request, buffer, happened)
        }
    }
}

/// Why a decision drops a request, where it does.
pub fn cause_in(decision: &Decision) -> Option<Cause>
    ensures { result ≡ cause_in decision.now }
{
    match decision {
        Decision::Drop(cause) => Some(cause.copy()),
        Decision::Empty | Decision::Refused(_) | Decision::Allowed { .. } => None,
    }
}

/// Puts what answers an event for which there was no memory into the buffer: the reply to a request
/// that is not dropped, and nothing else. Takes no memory.
pub fn put_failure(world: &World, event: &Event, buffer: &mut Buffer)
    requires { IsEncodable event.now }
    ensures reply { buffer.new.reply ≡ failure_octets world.now event.now }
    ensures bpdus { buffer.new.bpdus ≡ [] }
{
    buffer.clear();
    if let Event::Request(request) = event {
        if cause_in(&decide(&world.policy, request)).is_none() {
            short_reply(request, buffer);
        }
    }
}
