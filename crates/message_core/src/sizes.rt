//! How many octets a reply leaves its bindings.
ghost use Rattle.std.specs.Prelude.{◌≡◌, ◌≤◌, ◌+◌, ◌↔◌, length, List, pos};
ghost use Rattle.ber_core.specs.Encoding.{canon_tlv};
ghost use Rattle.message_core.specs.Tags as tags;
ghost use Rattle.message_core.specs.Canon.{canon_bindings, canon_reply, answer_to};
ghost use Rattle.message_core.specs.declared.binding.Binding.{Binding};

use crate::lengths::integer_len;
use crate::limits::{MAX_COMMUNITY, MAX_REPLY};
use crate::request::Request;
use crate::status::ErrorStatus;

// A tag and the length of 256 to 65,535 octets (X.690, 8.1.3.5).
const LONG_HEAD: usize = 4;

// The version of a message (RFC 1901, section 3).
const VERSION: i32 = 1;

// The octets of a community of at most `MAX_COMMUNITY` octets with its tag and its length.
#[tactic(auto, using(crate::proofs::Measures::short_tlv, crate::proofs::Measures::middle_tlv))]
fn community_len(community: &[u8]) -> usize
    requires { length community.now ≤ MAX_COMMUNITY }
    ensures len { result ≡ length (canon_tlv tags.octet_string community.now) }
    ensures most { result ≤ MAX_COMMUNITY + 3 }
{
    if community.len() < 128 {
        community.len() + 2
    } else {
        community.len() + 3
    }
}

/// The octets that bindings may have in a reply to a request with noError and index 0, so that it
/// has at most `MAX_REPLY`.
///
/// The community has at most `MAX_COMMUNITY` octets. Takes no memory.
pub fn bindings_space(request: &Request) -> usize
    requires { length request.now.community ≤ MAX_COMMUNITY }
    ensures space { (bindings : List Binding) →
        (length (canon_bindings bindings) ≤ result) ↔
        (length (canon_reply (answer_to request.now ErrorStatus.NoError (pos 0) bindings))
        ≤ MAX_REPLY) }
    ensures most { result ≤ MAX_REPLY }
{
    let version = integer_len(VERSION);
    let community = community_len(request.community.as_slice());
    let id = integer_len(request.id);
    let status = integer_len(ErrorStatus::NoError.code());
    let index = integer_len(0);
    MAX_REPLY - 3 * LONG_HEAD - (version + community + id + status + index)
}
