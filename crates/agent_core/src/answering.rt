//! Answers a request: the decision, the reply by its kind, the audit (RFC 3416, 4.2).
ghost use Rattle.std.specs.Prelude.{◌≡◌, ◌≢◌, ◌≤◌, ◌<◌, [], None, Some, true, length, IfOk, IfErr, OnErr};
ghost use Rattle.message_core.specs.Canon.{canon_reply};
ghost use Rattle.message_core.specs.Encodable.{AreEncodable};
ghost use Rattle.message_core.specs.declared.limits.TheConstants.{MAX_COMMUNITY};
ghost use Rattle.vacm_core.specs.Families.{in_view};
ghost use Rattle.decision.specs.Deciding.{decision_on};
ghost use Rattle.setphase_core.specs.Registry.{rows_of, prefixes_of, instances};
ghost use Rattle.agent_core.specs.Replies.{kind_reply, failure_reply, name_failure_reply};
ghost use Rattle.agent_core.specs.Denying.{denied_in};
ghost use Rattle.agent_core.specs.Answers.{IsSent, IsSentRead, IsSentBy, IsRead, IsStep, drop_audit, reply_audit, with_count_of};
ghost use Rattle.agent_core.specs.Lacking.{LacksNameOf, IfName, HasNoLookup};
ghost use Rattle.agent_core.specs.Sets.{greatest_index};

use crate::answered::Answered;
use crate::buffer::Buffer;
use crate::bulk::get_bulk;
use crate::denying::denied_bindings;
use crate::getting::get_all;
use crate::nexts::get_next_all;
use crate::request_view::RequestView;
use crate::sent_reply::{ReadReply, SentReply};
use crate::served::Served;
use crate::sets::answer_set;
use crate::shortage::Shortage;
use crate::source::Source;
use crate::whole::Whole;
use audit_core::{Audit, DeniedBindings, Unrestored, UnrestoredSpace};
use decision::{AccessKey, Cause, Decision, decide};
use message_core::{ErrorStatus, Kind, Request};
use setphase_core::{MibObject, Registry, World};
use std::alloc::{AllocError, Global};
use std::marker::Brand;
use std::sync::ledger::{Blank, Ledger};
use steps::Steps;
use vacm_core::Name;

/// Answers a request by RFC 3416, 4.2, over what the objects show of the world, as its policy lets
/// the caller see it (RFC 3415, 3.2). The buffer holds the reply in its minimal encoding, or
/// nothing where the request is dropped; a drop is counted, modulo 2^32.
/// A Set that is authorized tests all its variables, and then gives all of them their values, or none
/// but those that could not be undone where a device failed (4.2.5). Settings that differ from
/// those of before are settled once, and the buffer holds what each port sends. A request of
/// another kind changes nothing else in the world, and nothing in the objects.
/// Objects that the view is seen to hide whole (`Vacm::hides_all`) are passed over: their instances
/// are neither searched nor read. No clause says so: the reply is that over all instances.
/// A hidden instance that one name of a request has passed is not passed again. How often a request asks for a
/// successor is a clause of `get_bulk`, `get_next_all` and `get_all`, and of none here.
///
/// The caller hands in a request whose names and OBJECT IDENTIFIER values have an encoding, as
/// `decode` gives it, and for a Set memory for the settings that a failing device may keep from being
/// undone.
///
/// Only where there is no memory for a name above `INLINE_NUMBERS`, 24, numbers that a GetNext or a GetBulk
/// makes, the reply may be genErr with the number of the binding for which it is made, or tooBig where that
/// is too long (RFC 3416, 4.2.2 and 4.2.3).
///
/// # Errors
/// Only memory can fail: then the buffer is empty, the world is as before, and the request is one
/// that is authorized for a view and reads, or a Set that is refused with noAccess, or one that is
/// not refused and writes a setting of a static row. A request that is dropped or refused, one
/// without bindings and every other Set take none.
pub fn answer<O: MibObject>(
    alloc: Global,
    registry: &mut Registry<O>,
    world: &mut World,
    request: &Request,
    buffer: &mut Buffer,
    space: UnrestoredSpace,
) -> Result<Answered, AllocError>
    requires encodable { AreEncodable request.now.bindings }
    requires space { request.now.kind ≡ Kind.Set → space ≡ true }
    ensures { IsStep registry.old world.old request.now result buffer.new world.new registry.new }
{
    buffer.clear();
    match decide(&world.policy, request) {
        Decision::Drop(cause) => {
            count(world, &cause);
            Ok(drop_request(alloc, request, cause))
        }
        Decision::Empty => {
            let none = DeniedBindings::new(alloc);
            let sent = buffer.put(request, ErrorStatus::NoError, 0, &[]);
            Ok(reply_with(request, Decision::Empty, none, sent))
        }
        Decision::Refused(why) => {
            let none = DeniedBindings::new(alloc);
            let asked = request.bindings.as_slice();
            let sent = buffer.put(request, ErrorStatus::AuthorizationError, 0, asked);
            Ok(reply_with(request, Decision::Refused(why), none, sent))
        }
        Decision::Allowed { row, view } => match request.kind {
            Kind::Set => answer_set(alloc, registry, world, request, row, view, buffer, space),
            Kind::Get | Kind::GetNext | Kind::GetBulk => {
                answer_read(alloc, registry, world, request, row, view, buffer)
            }
        },
    }
}

// Answers a request that reads in a view.
fn answer_read<O: MibObject>(
    alloc: Global,
    registry: &Registry<O>,
    world: &World,
    request: &Request,
    row: AccessKey,
    view: Name,
    buffer: &mut Buffer,
) -> Result<Answered, AllocError>
    requires community { length request.now.community ≤ MAX_COMMUNITY }
    requires encodable { AreEncodable request.now.bindings }
    requires reads { request.now.kind ≢ Kind.Set }
    ensures reply { IfOk result (λ reported. IsRead (kind_reply (prefixes_of (rows_of registry.now))
        (in_view world.now.policy.vacm.families view)
        (instances (rows_of registry.now) world.now) request.now request.now.kind)
        request.now (Decision.Allowed row view)
        (denied_in world.now.policy.vacm.families view request.now request.now.kind)
        (LacksNameOf (in_view world.now.policy.vacm.families view)
        (instances (rows_of registry.now) world.now) request.now request.now.kind)
        reported buffer.new.reply) }
    ensures bpdus { buffer.new.bpdus ≡ buffer.old.bpdus }
    ensures err { OnErr result (buffer.new ≡ buffer.old) }
{
    let denied = denied_bindings(alloc, world.policy.vacm(), &view, request)?;
    let blank = Blank::new(1);
    let read = send_read::<O, Brand>(
        alloc, registry, world, &view, request, &denied, buffer, blank,
    )?;
    let decision = Decision::Allowed { row, view };
    Ok(match read.unnamed {
        None => reply_with(request, decision, denied, read.sent),
        Some(number) => unnamed_with(alloc, request, decision, number, read.sent),
    })
}

// Counts a request that this cause drops (RFC 3418, snmpInBadCommunityNames; RFC 3413,
// snmpUnknownContexts).
fn count(world: &mut World, cause: &Cause)
    ensures { world.new ≡ with_count_of world.old cause.now }
{
    match cause {
        Cause::UnknownCommunity => {
            world.bad_communities = world.bad_communities.wrapping_add(1);
        }
        Cause::NoSuchContext(_) => {
            world.unknown_contexts = world.unknown_contexts.wrapping_add(1);
        }
    }
}

// What a request is answered that is dropped. Takes no memory.
fn drop_request(alloc: Global, request: &Request, cause: Cause) -> Answered
    ensures { result ≡ Answered.NoReply (drop_audit request.now cause) }
{
    Answered::NoReply(Audit {
        kind: request.kind,
        status: ErrorStatus::NoError,
        index: 0,
        decision: Decision::Drop(cause),
        denied: DeniedBindings::new(alloc),
        unrestored: Unrestored::none(),
    })
}

// The audit of a request that changes nothing and whose reply stands in the buffer.
fn audit_with(
    request: &Request,
    decision: Decision,
    denied: DeniedBindings,
    sent: SentReply,
) -> Audit
    ensures { result ≡ record {
      kind = request.now.kind;
      status = sent.status;
      index = sent.index;
      decision = decision;
      denied = denied;
      unrestored = [];
    } }
{
    Audit {
        kind: request.kind,
        status: sent.status,
        index: sent.index,
        decision,
        denied,
        unrestored: Unrestored::none(),
    }
}

// What a request is answered whose reply stands in the buffer.
fn reply_with(
    request: &Request,
    decision: Decision,
    denied: DeniedBindings,
    sent: SentReply,
) -> Answered
    ensures { result ≡ Answered.Reply sent.length (record {
      kind = request.now.kind;
      status = sent.status;
      index = sent.index;
      decision = decision;
      denied = denied;
      unrestored = [];
    }) None }
{
    Answered::Reply(
        sent.length,
        audit_with(request, decision, denied, sent),
        None,
    )
}

// What a request is answered that reads, where there was no memory for a name that is made for the
// binding of this number: nothing is denied.
fn unnamed_with(
    alloc: Global,
    request: &Request,
    decision: Decision,
    number: usize,
    sent: SentReply,
) -> Answered
    ensures { result ≡ Answered.Unnamed sent.length (record {
      kind = request.now.kind;
      status = sent.status;
      index = sent.index;
      decision = decision;
      denied = [];
      unrestored = [];
    }) number }
{
    let none = DeniedBindings::new(alloc);
    Answered::Unnamed(
        sent.length,
        audit_with(request, decision, none, sent),
        number,
    )
}

/// Writes the reply to a request that found no memory (RFC 3416, 4.2.1): genErr, index 0, its own
/// bindings, or tooBig where that is too long.
/// It takes no memory, and answers how many octets the reply has. The community has at most
/// `MAX_COMMUNITY`, 255, octets, and the names and OBJECT IDENTIFIER values have an encoding:
/// `answer` fails for no other request.
pub fn short_reply(request: &Request, buffer: &mut Buffer) -> usize
    requires community { length request.now.community ≤ MAX_COMMUNITY }
    requires encodable { AreEncodable request.now.bindings }
    ensures reply { buffer.new.reply ≡ canon_reply (failure_reply request.now) }
    ensures len { result ≡ length buffer.new.reply }
    ensures bpdus { buffer.new.bpdus ≡ buffer.old.bpdus }
{
    buffer
        .put(request, ErrorStatus::GenErr, 0, request.bindings.as_slice())
        .length
}

// Puts the reply to a request that is allowed in a view, and of which these bindings are denied, into
// the buffer. A Get of which none is denied is answered as where every name is seen: so no name is
// searched in the view again. Its steps are counted in the ledger of a blank, and by no clause here.
fn send_read<O: MibObject, L: Ledger>(
    alloc: Global,
    registry: &Registry<O>,
    world: &World,
    view: &Name,
    request: &Request,
    denied: &DeniedBindings,
    buffer: &mut Buffer,
    blank: Blank,
) -> Result<ReadReply, AllocError>
    requires community { length request.now.community ≤ MAX_COMMUNITY }
    requires encodable { AreEncodable request.now.bindings }
    requires reads { request.now.kind ≢ Kind.Set }
    requires denied { denied.now ≡
        denied_in world.now.policy.vacm.families view.now request.now request.now.kind }
    requires name { blank.name ≡ L.name }
    requires parts { blank.parts ≡ L.parts }
    requires some { 0 < blank.parts }
    ensures sent { IfOk result (λ read. IsSentRead (kind_reply (prefixes_of (rows_of registry.now))
        (in_view world.now.policy.vacm.families view.now)
        (instances (rows_of registry.now) world.now) request.now request.now.kind) request.now
        (LacksNameOf (in_view world.now.policy.vacm.families view.now)
        (instances (rows_of registry.now) world.now) request.now request.now.kind)
        read buffer.new.reply) }
    ensures bpdus { buffer.new.bpdus ≡ buffer.old.bpdus }
    ensures err { OnErr result (buffer.new ≡ buffer.old) }
{
    let mut steps: Steps<L> = Steps::new(blank);
    if request.kind == Kind::Get && denied.is_empty() {
        let whole = Whole { registry, world };
        return send_kind(alloc, &whole, request, buffer, &mut steps);
    }
    let names = request.bindings.as_slice().len();
    let view = RequestView::of(alloc, world.policy.vacm(), view, registry, names);
    let served = Served {
        registry,
        world,
        view,
    };
    send_kind(alloc, &served, request, buffer, &mut steps)
}

// What is known of the answer to a request that reads, which is put into the buffer, from any source and
// under any view; or for what there was no memory.
fn put_read<S: Source<L>, L: Ledger>(
    alloc: Global,
    source: &S,
    request: &Request,
    buffer: &mut Buffer,
    steps: &mut Steps<L>,
) -> Result<SentReply, Shortage>
    requires community { length request.now.community ≤ MAX_COMMUNITY }
    requires encodable { AreEncodable request.now.bindings }
    requires reads { request.now.kind ≢ Kind.Set }
    ensures sent { IfOk result (λ sent. IsSent (kind_reply (S.objects source.now) (S.shows source.now)
        (S.instances source.now) request.now request.now.kind) sent buffer.new.reply) }
    ensures bpdus { buffer.new.bpdus ≡ buffer.old.bpdus }
    ensures err { OnErr result (buffer.new ≡ buffer.old) }
    ensures lacks { IfErr result (IfName (LacksNameOf (S.shows source.now) (S.instances source.now)
        request.now request.now.kind)) }
    ensures other { result ≡ Err Shortage.Other → request.now.kind ≢ Kind.Get → steps.new ≡ steps.old }
{
    let asked = request.bindings.as_slice();
    source.known();
    match request.kind {
        Kind::Get => {
            let answers = get_all(alloc, source, asked, steps)?;
            Ok(buffer.put(request, ErrorStatus::NoError, 0, answers.as_slice()))
        }
        Kind::GetNext => {
            let answers = get_next_all(alloc, source, asked, steps)?;
            Ok(buffer.put(request, ErrorStatus::NoError, 0, answers.as_slice()))
        }
        Kind::GetBulk => {
            let answers = get_bulk(alloc, source, request, steps)?;
            Ok(buffer.put_encoded(request, &answers))
        }
        Kind::Set => unreachable!(),
    }
}

// Puts genErr with the number of a binding into the buffer, for which a name was made that found no
// memory, or tooBig where that is too long. Fails only above the greatest error-index, which no decoded
// request reaches.
fn send_unnamed(
    request: &Request,
    number: usize,
    buffer: &mut Buffer,
) -> Result<ReadReply, AllocError>
    requires community { length request.now.community ≤ MAX_COMMUNITY }
    requires encodable { AreEncodable request.now.bindings }
    ensures unnamed { IfOk result (λ read. read.unnamed ≡ Some number) }
    ensures sent { IfOk result (λ read.
        IsSent (name_failure_reply request.now number) read.sent buffer.new.reply) }
    ensures bpdus { buffer.new.bpdus ≡ buffer.old.bpdus }
    ensures err { OnErr result (buffer.new ≡ buffer.old) }
    ensures most { OnErr result (greatest_index < number) }
{
    let Ok(index) = i32::try_from(number) else {
        return Err(AllocError);
    };
    let asked = request.bindings.as_slice();
    Ok(ReadReply {
        sent: buffer.put(request, ErrorStatus::GenErr, index, asked),
        unnamed: Some(number),
    })
}

// Puts the reply to a request, by its kind, into the buffer, from any source and under any view. Of a
// GetNext and a GetBulk it fails ahead of any lookup alone: what is refused later is memory for a name,
// and is answered. (Names above the greatest error-index no request has that is decoded.)
fn send_kind<S: Source<L>, L: Ledger>(
    alloc: Global,
    source: &S,
    request: &Request,
    buffer: &mut Buffer,
    steps: &mut Steps<L>,
) -> Result<ReadReply, AllocError>
    requires community { length request.now.community ≤ MAX_COMMUNITY }
    requires encodable { AreEncodable request.now.bindings }
    requires reads { request.now.kind ≢ Kind.Set }
    ensures sent { IfOk result (λ read.
        IsSentRead (kind_reply (S.objects source.now) (S.shows source.now)
        (S.instances source.now) request.now request.now.kind) request.now
        (LacksNameOf (S.shows source.now) (S.instances source.now) request.now request.now.kind)
        read buffer.new.reply) }
    ensures bpdus { buffer.new.bpdus ≡ buffer.old.bpdus }
    ensures err { OnErr result (buffer.new ≡ buffer.old) }
    ensures other { OnErr result (HasNoLookup request.now steps.old steps.new) }
{
    match put_read(alloc, source, request, buffer, steps) {
        Ok(sent) => Ok(ReadReply {
            sent,
            unnamed: None,
        }),
        Err(Shortage::Name(number)) => send_unnamed(request, number, buffer),
        Err(Shortage::Other) => Err(AllocError),
    }
}
