//! Writes a reply or a request in its shortest encoding (RFC 3417, section 8; X.690).
ghost use Rattle.std.specs.Prelude.{◌≡◌, ◌<◌, ◌≤◌, ◌+◌, ◌^◌, [], drop, length, pos, IfOk, OnErr};
ghost use Rattle.std.specs.List.{flat_map};
ghost use Rattle.ber_core.specs.Encoding.{canon_tlv};
ghost use Rattle.oid_core.specs.Name.{HasRoot, canon_name};
ghost use Rattle.message_core.specs.Tags as tags;
ghost use Rattle.message_core.specs.Encodable.{IsEncodableValue, IsEncodableBinding, AreEncodable};
ghost use Rattle.message_core.specs.Canon.{canon_name_tlv, canon_value, canon_binding, canon_bindings, canon_tail, canon_body, canon_inside, canon_message, canon_reply, canon_request, answer_to};
ghost use Rattle.message_core.specs.Listed.{listed_bindings};
ghost use Rattle.message_core.specs.declared.limits.TheConstants.{MAX_REQUEST};
ghost use Rattle.ber_core.specs.Writing.{Prepends};

use crate::binding::Binding;
use crate::encoded::EncodedBindings;
use crate::limits::MAX_REPLY;
use crate::reply::Reply;
use crate::request::Request;
use crate::status::ErrorStatus;
use crate::tag;
use crate::value::Value;
use ber_core::{BerFault, Out, Tag};
use oid_core::put_name;
use thiserror::Error;

/// The message is longer than the buffer.
#[derive(Clone, Copy, Debug, PartialEq, Eq, Error)]
#[error("the message is longer than the buffer")]
pub struct TooBig;

/// What a message says beside its version.
#[derive(Drop)]
struct Message<'a> {
    tag: Tag,
    id: i32,
    first: i32,
    second: i32,
    community: &'a [u8],
    list: Listed<'a>,
}

/// The bindings of a message, or their octets.
#[derive(Drop)]
enum Listed<'a> {
    Bindings(&'a [Binding]),
    Encoded(&'a EncodedBindings),
}

#[inline(always)]
#[tactic(auto, unfolding(ber_core::specs::Encoding::canon_tlv))]
fn put_oid(out: &mut Out<'_>, name: &[u32]) -> Result<(), BerFault>
    requires { HasRoot name.now }
    ensures same_reference { out.new.space.ghost_name ≡ out.old.space.ghost_name }
    ensures puts { Prepends out.old out.new result (canon_name_tlv name.now) }
{
    let mark = out.len();
    put_name(out, name)?;
    let len = out.len() - mark;
    out.put_tlv_head(Tag(tag::OBJECT_IDENTIFIER), len)
}

// Writes a value without content: NULL, or an exception (RFC 3416, section 3).
#[tactic(auto, unfolding(ber_core::specs::Encoding::canon_tlv))]
fn put_empty(out: &mut Out<'_>, tag: u8) -> Result<(), BerFault>
    ensures same_reference { out.new.space.ghost_name ≡ out.old.space.ghost_name }
    ensures puts { Prepends out.old out.new result (canon_tlv tag []) }
{
    out.put_tlv_head(Tag(tag), 0)
}

/// Writes the shortest encoding of a value in front of what is written.
///
/// `NoRoom` where it does not fit. The caller ensures that a name can be encoded.
pub fn put_value(out: &mut Out<'_>, value: &Value) -> Result<(), BerFault>
    requires { IsEncodableValue value.now }
    ensures same_reference { out.new.space.ghost_name ≡ out.old.space.ghost_name }
    ensures puts { Prepends out.old out.new result (canon_value value.now) }
{
    match value {
        Value::Integer(number) => out.put_i32(Tag(tag::INTEGER), *number),
        Value::OctetString(octets) => out.put_tlv(Tag(tag::OCTET_STRING), octets.as_slice()),
        Value::Null => put_empty(out, tag::NULL),
        Value::ObjectIdentifier(name) => put_oid(out, name.as_slice()),
        Value::IpAddress(address) => out.put_tlv(Tag(tag::IP_ADDRESS), address),
        Value::Counter32(count) => out.put_u32(Tag(tag::COUNTER32), *count),
        Value::Gauge32(level) => out.put_u32(Tag(tag::GAUGE32), *level),
        Value::TimeTicks(ticks) => out.put_u32(Tag(tag::TIME_TICKS), *ticks),
        Value::Opaque(octets) => out.put_tlv(Tag(tag::OPAQUE), octets.as_slice()),
        Value::Counter64(count) => out.put_u64(Tag(tag::COUNTER64), *count),
        Value::NoSuchObject => put_empty(out, tag::NO_SUCH_OBJECT),
        Value::NoSuchInstance => put_empty(out, tag::NO_SUCH_INSTANCE),
        Value::EndOfMibView => put_empty(out, tag::END_OF_MIB_VIEW),
    }
}

/// Writes the shortest encoding of the variable binding of a name and a value (RFC 3416, section 3:
/// VarBind) in front of what is written.
///
/// `NoRoom` where it does not fit. The caller ensures that a name can be encoded.
#[inline(always)]
#[tactic(auto, unfolding(ber_core::specs::Encoding::canon_tlv, crate::specs::Canon::canon_binding))]
pub fn put_binding(out: &mut Out<'_>, name: &[u32], value: &Value) -> Result<(), BerFault>
    requires { IsEncodableBinding (record { name = name.now; value = value.now }) }
    ensures same_reference { out.new.space.ghost_name ≡ out.old.space.ghost_name }
    ensures puts { Prepends out.old out.new result
        (canon_binding (record { name = name.now; value = value.now })) }
{
    let mark = out.len();
    put_value(out, value)?;
    put_oid(out, name)?;
    let len = out.len() - mark;
    out.put_tlv_head(Tag(tag::SEQUENCE), len)
}

fn put_bindings(out: &mut Out<'_>, bindings: &[Binding]) -> Result<(), BerFault>
    requires { AreEncodable bindings.now }
    ensures same_reference { out.new.space.ghost_name ≡ out.old.space.ghost_name }
    ensures puts { Prepends out.old out.new result (flat_map canon_binding bindings.now) }
{
    let mut i = bindings.len();
    while i > 0 {
        i -= 1;
        put_binding(out, bindings[i].name.as_slice(), &bindings[i].value)?;
    }
    Ok(())
}

// Writes the content of a list of bindings.
fn put_listed(out: &mut Out<'_>, list: &Listed<'_>) -> Result<(), BerFault>
    requires { AreEncodable (listed_bindings list.now) }
    ensures same_reference { out.new.space.ghost_name ≡ out.old.space.ghost_name }
    ensures puts { Prepends out.old out.new result (canon_bindings (listed_bindings list.now)) }
{
    match list {
        Listed::Bindings(bindings) => put_bindings(out, bindings),
        Listed::Encoded(bindings) => out.put_octets(bindings.octets()),
    }
}

#[tactic(auto, unfolding(ber_core::specs::Encoding::canon_tlv))]
fn put_list(out: &mut Out<'_>, list: &Listed<'_>) -> Result<(), BerFault>
    requires { AreEncodable (listed_bindings list.now) }
    ensures same_reference { out.new.space.ghost_name ≡ out.old.space.ghost_name }
    ensures puts { Prepends out.old out.new result (canon_tlv tags.sequence
        (canon_bindings (listed_bindings list.now))) }
{
    let mark = out.len();
    put_listed(out, list)?;
    let len = out.len() - mark;
    out.put_tlv_head(Tag(tag::SEQUENCE), len)
}

#[tactic(auto, unfolding(crate::specs::Canon::canon_tail))]
fn put_tail(out: &mut Out<'_>, second: i32, list: &Listed<'_>) -> Result<(), BerFault>
    requires { AreEncodable (listed_bindings list.now) }
    ensures same_reference { out.new.space.ghost_name ≡ out.old.space.ghost_name }
    ensures puts { Prepends out.old out.new result (canon_tail second (listed_bindings list.now)) }
{
    put_list(out, list)?;
    out.put_i32(Tag(tag::INTEGER), second)
}

#[tactic(auto, unfolding(crate::specs::Canon::canon_body))]
fn put_body(out: &mut Out<'_>, message: &Message<'_>) -> Result<(), BerFault>
    requires { AreEncodable (listed_bindings message.now.list) }
    ensures same_reference { out.new.space.ghost_name ≡ out.old.space.ghost_name }
    ensures puts { let m = message.now in Prepends out.old out.new result
        (canon_body m.id m.first m.second (listed_bindings m.list)) }
{
    put_tail(out, message.second, &message.list)?;
    out.put_i32(Tag(tag::INTEGER), message.first)?;
    out.put_i32(Tag(tag::INTEGER), message.id)
}

#[tactic(auto, unfolding(ber_core::specs::Encoding::canon_tlv))]
fn put_pdu(out: &mut Out<'_>, message: &Message<'_>) -> Result<(), BerFault>
    requires { AreEncodable (listed_bindings message.now.list) }
    ensures same_reference { out.new.space.ghost_name ≡ out.old.space.ghost_name }
    ensures puts { let m = message.now in Prepends out.old out.new result (canon_tlv m.tag.0
        (canon_body m.id m.first m.second (listed_bindings m.list))) }
{
    let mark = out.len();
    put_body(out, message)?;
    let len = out.len() - mark;
    out.put_tlv_head(message.tag, len)
}

#[tactic(auto, unfolding(crate::specs::Canon::canon_inside))]
fn put_inside(out: &mut Out<'_>, message: &Message<'_>) -> Result<(), BerFault>
    requires { AreEncodable (listed_bindings message.now.list) }
    ensures same_reference { out.new.space.ghost_name ≡ out.old.space.ghost_name }
    ensures puts { let m = message.now in Prepends out.old out.new result
        (canon_inside m.community.now m.tag.0 (canon_body m.id m.first m.second (listed_bindings m.list))) }
{
    put_pdu(out, message)?;
    out.put_tlv(Tag(tag::OCTET_STRING), message.community)?;
    out.put_i32(Tag(tag::INTEGER), 1)
}

#[tactic(auto, unfolding(ber_core::specs::Encoding::canon_tlv, crate::specs::Canon::canon_message))]
fn put_message(out: &mut Out<'_>, message: &Message<'_>) -> Result<(), BerFault>
    requires { AreEncodable (listed_bindings message.now.list) }
    ensures same_reference { out.new.space.ghost_name ≡ out.old.space.ghost_name }
    ensures puts { let m = message.now in Prepends out.old out.new result
        (canon_message m.community.now m.tag.0 (canon_body m.id m.first m.second (listed_bindings m.list))) }
{
    let mark = out.len();
    put_inside(out, message)?;
    let len = out.len() - mark;
    out.put_tlv_head(Tag(tag::SEQUENCE), len)
}

/// Writes a message to the end of a space, and answers where it begins there. What stands before it, or if it
/// does not fit, in the whole space, may be any.
#[inline(always)]
fn encode(message: &Message<'_>, space: &mut [u8]) -> Result<usize, TooBig>
    requires names { AreEncodable (listed_bindings message.now.list) }
    requires small { length space.old < 2 ^ 32 }
    ensures ok { let m = message.now in IfOk result (λ start.
        drop start space.new ≡ canon_message m.community.now m.tag.0
        (canon_body m.id m.first m.second (listed_bindings m.list))) }
    ensures at_end { let m = message.now in IfOk result (λ start. start + length
        (canon_message m.community.now m.tag.0 (canon_body m.id m.first m.second (listed_bindings m.list)))
        ≡ length space.old) }
    ensures too_big { let m = message.now in OnErr result (length space.old < length
        (canon_message m.community.now m.tag.0 (canon_body m.id m.first m.second (listed_bindings m.list)))) }
    ensures same_length { length space.new ≡ length space.old }
{
    let mut out = Out::new(space);
    if put_message(&mut out, message).is_err() {
        return Err(TooBig);
    }
    let len = out.len();
    Ok(space.len() - len)
}

/// Writes the shortest encoding of a reply to the end of the buffer, and answers where it begins there. It has
/// at most `MAX_REPLY` octets.
///
/// For a reply that stands alone, without its request; an agent answers by [`encode_answer`], which
/// borrows the request.
///
/// What stands before it may be any. `TooBig` exactly where it is longer than `MAX_REPLY` octets; the buffer may
/// then hold anything. Takes no memory. The caller ensures that each binding has an encoding
/// (`Binding::is_encodable`): its name, and an OBJECT IDENTIFIER value, begin as X.690, 8.19.4 asks.
pub fn encode_reply(reply: &Reply, buffer: &mut [u8; MAX_REPLY]) -> Result<usize, TooBig>
    requires { AreEncodable reply.now.bindings }
    ensures ok { IfOk result (λ start. drop start buffer.new ≡ canon_reply reply.now) }
    ensures at_end { IfOk result (λ start. start + length (canon_reply reply.now) ≡ MAX_REPLY) }
    ensures too_big { OnErr result (MAX_REPLY < length (canon_reply reply.now)) }
{
    let message = Message {
        tag: Tag(tag::RESPONSE),
        id: reply.id,
        first: reply.status.code(),
        second: reply.index,
        community: reply.community.as_slice(),
        list: Listed::Bindings(reply.bindings.as_slice()),
    };
    encode(&message, buffer)
}

/// Writes the shortest encoding of the reply to a request that has this status, index and bindings,
/// as `encode_reply` does.
///
/// The request-id and the community are the request's (RFC 3416, section 4.2). Takes no memory and
/// copies nothing. The caller ensures that each binding has an encoding (`Binding::is_encodable`): its
/// name, and an OBJECT IDENTIFIER value, begin as X.690, 8.19.4 asks. `decode` gives only requests
/// whose bindings have one.
pub fn encode_answer(
    request: &Request,
    status: ErrorStatus,
    index: i32,
    bindings: &[Binding],
    buffer: &mut [u8; MAX_REPLY],
) -> Result<usize, TooBig>
    requires { AreEncodable bindings.now }
    ensures ok { IfOk result (λ start.
        drop start buffer.new ≡ canon_reply (answer_to request.now status index bindings.now)) }
    ensures at_end { IfOk result (λ start. start + length
        (canon_reply (answer_to request.now status index bindings.now)) ≡ MAX_REPLY) }
    ensures too_big { OnErr result (MAX_REPLY < length
        (canon_reply (answer_to request.now status index bindings.now))) }
{
    let message = Message {
        tag: Tag(tag::RESPONSE),
        id: request.id,
        first: status.code(),
        second: index,
        community: request.community.as_slice(),
        list: Listed::Bindings(bindings),
    };
    encode(&message, buffer)
}

/// Writes the shortest encoding of the reply to a request with noError, index 0 and these bindings (RFC
/// 3416, 4.2) to the end of the buffer, and answers where it begins there. It has at most `MAX_REPLY`, 1,472,
/// octets.
///
/// What stands before it may be any. `TooBig` exactly where it is longer; the buffer may then hold anything.
/// Takes no memory.
pub fn encode_no_error(
    request: &Request,
    bindings: &EncodedBindings,
    buffer: &mut [u8; MAX_REPLY],
) -> Result<usize, TooBig>
    ensures ok { IfOk result (λ start.
        drop start buffer.new ≡ canon_reply (answer_to request.now ErrorStatus.NoError (pos 0) bindings.now)) }
    ensures at_end { IfOk result (λ start. start + length
        (canon_reply (answer_to request.now ErrorStatus.NoError (pos 0) bindings.now)) ≡ MAX_REPLY) }
    ensures too_big { OnErr result (MAX_REPLY < length
        (canon_reply (answer_to request.now ErrorStatus.NoError (pos 0) bindings.now))) }
{
    bindings.known();
    let message = Message {
        tag: Tag(tag::RESPONSE),
        id: request.id,
        first: ErrorStatus::NoError.code(),
        second: 0,
        community: request.community.as_slice(),
        list: Listed::Encoded(bindings),
    };
    encode(&message, buffer)
}

/// Writes the shortest encoding of a request to the end of a space of at most `MAX_REQUEST` octets, and gives
/// its octets there.
///
/// `TooBig` exactly where it is longer than the space, which may then hold anything. Takes no memory. The caller
/// ensures that each binding has an encoding (`Binding::is_encodable`): its name, and an OBJECT IDENTIFIER
/// value, begin as X.690, 8.19.4 asks.
pub fn encode_request<'a>(request: &Request, space: &'a mut [u8]) -> Result<&'a [u8], TooBig>
    requires encodable { AreEncodable request.now.bindings }
    requires most { length space.old ≤ MAX_REQUEST }
    ensures ok { IfOk result (λ octets. octets.now ≡ canon_request request.now) }
    ensures fits { IfOk result (λ _. length (canon_request request.now) ≤ length space.old) }
    ensures too_big { OnErr result (length space.old < length (canon_request request.now)) }
{
    let message = Message {
        tag: Tag(request.kind.tag()),
        id: request.id,
        first: request.first,
        second: request.second,
        community: request.community.as_slice(),
        list: Listed::Bindings(request.bindings.as_slice()),
    };
    let start = encode(&message, space)?;
    Ok(&space[start..])
}
