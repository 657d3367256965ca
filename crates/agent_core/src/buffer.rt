//! What an event gives to send: a buffer for one reply, and what is put into it (RFC 3416, 4.2:
//! tooBig), and the BPDUs of the ports.
ghost use Rattle.std.specs.Prelude.{◌≡◌, ◌≤◌, ◌-◌, ℤ, [], drop, length, pos, take};
ghost use Rattle.std.specs.Option.{option_copied};
ghost use Rattle.message_core.specs.Canon.{canon_reply, answer_to};
ghost use Rattle.message_core.specs.Encodable.{AreEncodable};
ghost use Rattle.message_core.specs.declared.limits.TheConstants.{MAX_COMMUNITY, MAX_REPLY};
ghost use Rattle.agent_core.specs.Replies.{reply_within_limit};
ghost use Rattle.agent_core.specs.Sets.{is_too_long, too_long_reply};
ghost use Rattle.agent_core.specs.Answers.{IsSent};
ghost use Rattle.agent_core.specs.Buffered.{bpdu_of};

use crate::sent_reply::SentReply;
use arrayvec::ArrayVec;
use bridge_core::Bpdus;
use frame_core::Bpdu;
use message_core::laws::short_reply_fits;
use message_core::{
    Binding, EncodedBindings, ErrorStatus, MAX_REPLY, Request, TooBig, encode_answer,
    encode_no_error,
};
use std::marker::Model;

/// A buffer for what one event gives to send: one reply of at most `MAX_REPLY`, 1,472, octets, and what
/// each port sends. It takes no memory.
pub struct Buffer {
    // The reply stands where it was written, at the end.
    octets: [u8; MAX_REPLY],
    length: usize,
    bpdus: Bpdus,
}

// By hand, so that who lets one go knows nothing of its parts.
impl Drop for Buffer {
    fn drop(self) {
        let Buffer {
            octets: _octets,
            length: _length,
            bpdus: _bpdus,
        } = self;
    }
}

impl Model for Buffer {
    ghost use Rattle.std.specs.Prelude.{◌≤◌, ◌-◌, drop, take};
    ghost use Rattle.message_core.specs.declared.limits.TheConstants.{MAX_REPLY};
    ghost use Rattle.agent_core.specs.Buffered.{Buffered};

    ghost Value = { Buffered };

    ghost view = { λ b. record { reply = take b.length (drop (MAX_REPLY - b.length) b.octets); bpdus = b.bpdus.items } };

    ghost invariant = { λ b. b.length ≤ MAX_REPLY };
}

impl Buffer {
    /// A buffer with nothing in it.
    pub fn new() -> Buffer
        ensures reply { result.reply ≡ [] }
        ensures bpdus { result.bpdus ≡ [] }
    {
        Buffer {
            octets: [0; MAX_REPLY],
            length: 0,
            bpdus: ArrayVec::new(),
        }
    }

    /// The octets of the reply, none where there is no reply.
    pub fn reply(&self) -> &[u8]
        ensures reply { result.now ≡ self.now.reply }
        ensures most { length result.now ≤ MAX_REPLY }
    {
        &self.octets[MAX_REPLY - self.length..]
    }

    /// What a port sends, if it sends something. Ports count from 1.
    pub fn bpdu(&self, port: u16) -> Option<&Bpdu>
        ensures { option_copied result ≡ bpdu_of self.now.bpdus port }
    {
        let place = usize::from(port).checked_sub(1)?;
        self.bpdus.as_slice().get(place)?.as_ref()
    }

    /// What the ports send, from port 1 on; none where a Set settled nothing (IEEE 802.1D-2004,
    /// 17.21.20).
    pub fn bpdus(&self) -> &[Option<Bpdu>]
        ensures { result.now ≡ self.now.bpdus }
    {
        self.bpdus.as_slice()
    }

    /// Empties the buffer.
    pub fn clear(&mut self)
        ensures reply { self.new.reply ≡ [] }
        ensures bpdus { self.new.bpdus ≡ [] }
    {
        self.length = 0;
        self.bpdus.clear();
    }

    /// Puts the reply to a request in, or tooBig without bindings where that is too long (RFC 3416,
    /// 4.2.1), and says what was put. Takes no memory.
    pub(crate) fn put(
        &mut self,
        request: &Request,
        status: ErrorStatus,
        index: i32,
        bindings: &[Binding],
    ) -> SentReply
        requires community { length request.now.community ≤ MAX_COMMUNITY }
        requires encodable { AreEncodable bindings.now }
        ensures sent { IsSent (reply_within_limit (answer_to request.now status index bindings.now))
            result self.new.reply }
        ensures bpdus { self.new.bpdus ≡ self.old.bpdus }
    {
        let sent = put_sized(request, status, index, bindings, &mut self.octets);
        self.length = sent.length;
        sent
    }

    /// Puts the reply to a request with noError and these bindings in, or tooBig without bindings where
    /// that is too long, and says what was put (RFC 3416, 4.2.3). What `get_bulk` gives always fits. Takes
    /// no memory.
    pub(crate) fn put_encoded(&mut self, request: &Request, bindings: &EncodedBindings) -> SentReply
        requires { length request.now.community ≤ MAX_COMMUNITY }
        ensures sent { IsSent (reply_within_limit
            (answer_to request.now ErrorStatus.NoError (pos 0) bindings.now)) result self.new.reply }
        ensures bpdus { self.new.bpdus ≡ self.old.bpdus }
    {
        let sent = put_encoded_sized(request, bindings, &mut self.octets);
        self.length = sent.length;
        sent
    }

    /// Puts tooBig without bindings in, whatever the length of the request's own (RFC 3416, 4.2.5),
    /// and says what was put. Takes no memory.
    pub(crate) fn put_too_long(&mut self, request: &Request) -> SentReply
        requires { length request.now.community ≤ MAX_COMMUNITY }
        ensures sent { IsSent (too_long_reply request.now) result self.new.reply }
        ensures bpdus { self.new.bpdus ≡ self.old.bpdus }
    {
        self.length = put_too_big(request, &mut self.octets);
        SentReply {
            length: self.length,
            status: ErrorStatus::TooBig,
            index: 0,
        }
    }

    /// Whether the response to a Set may be too long for a reply: its own bindings beside a status
    /// of one octet and an index of four. It leaves no reply. Takes no memory.
    pub(crate) fn is_too_long(&mut self, request: &Request) -> bool
        requires { AreEncodable request.now.bindings }
        ensures too_long { result ≡ is_too_long request.now }
        ensures reply { self.new.reply ≡ [] }
        ensures bpdus { self.new.bpdus ≡ self.old.bpdus }
    {
        self.length = 0;
        let bindings = request.bindings.as_slice();
        let status = ErrorStatus::GenErr;
        encode_answer(request, status, i32::MAX, bindings, &mut self.octets).is_err()
    }

    /// Keeps what the ports send, from port 1 on.
    pub fn send(&mut self, bpdus: Bpdus)
        ensures bpdus { self.new.bpdus ≡ bpdus.items }
        ensures reply { self.new.reply ≡ self.old.reply }
    {
        self.bpdus = bpdus;
    }
}

// Writes the reply to a request, or tooBig without bindings where that is too long.
fn put_sized(
    request: &Request,
    status: ErrorStatus,
    index: i32,
    bindings: &[Binding],
    octets: &mut [u8; MAX_REPLY],
) -> SentReply
    requires community { length request.now.community ≤ MAX_COMMUNITY }
    requires encodable { AreEncodable bindings.now }
    ensures sent { IsSent (reply_within_limit (answer_to request.now status index bindings.now))
        result (take result.length (drop (MAX_REPLY - result.length) octets.new)) }
    ensures most { result.length ≤ MAX_REPLY }
{
    match encode_answer(request, status, index, bindings, octets) {
        Ok(start) => SentReply {
            length: MAX_REPLY - start,
            status,
            index,
        },
        Err(TooBig) => SentReply {
            length: put_too_big(request, octets),
            status: ErrorStatus::TooBig,
            index: 0,
        },
    }
}

// The same for a reply that has no error, whose bindings are encoded already.
fn put_encoded_sized(
    request: &Request,
    bindings: &EncodedBindings,
    octets: &mut [u8; MAX_REPLY],
) -> SentReply
    requires { length request.now.community ≤ MAX_COMMUNITY }
    ensures sent { IsSent (reply_within_limit
        (answer_to request.now ErrorStatus.NoError (pos 0) bindings.now))
        result (take result.length (drop (MAX_REPLY - result.length) octets.new)) }
    ensures most { result.length ≤ MAX_REPLY }
{
    match encode_no_error(request, bindings, octets) {
        Ok(start) => SentReply {
            length: MAX_REPLY - start,
            status: ErrorStatus::NoError,
            index: 0,
        },
        Err(TooBig) => SentReply {
            length: put_too_big(request, octets),
            status: ErrorStatus::TooBig,
            index: 0,
        },
    }
}

// Writes tooBig without bindings, which fits beside a community of at most `MAX_COMMUNITY` octets.
fn put_too_big(request: &Request, octets: &mut [u8; MAX_REPLY]) -> usize
    requires { length request.now.community ≤ MAX_COMMUNITY }
    ensures reply { take result (drop (MAX_REPLY - result) octets.new)
        ≡ canon_reply (answer_to request.now ErrorStatus.TooBig (pos 0) []) }
    ensures len { result ≡ length (canon_reply (answer_to request.now ErrorStatus.TooBig
        (pos 0) [])) }
    ensures most { result ≤ MAX_REPLY }
{
    short_reply_fits();
    match encode_answer(request, ErrorStatus::TooBig, 0, &[], octets) {
        Ok(start) => MAX_REPLY - start,
        Err(TooBig) => unreachable!(),
    }
}
