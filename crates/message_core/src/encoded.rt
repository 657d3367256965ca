//! Bindings that are kept in their shortest encoding.
ghost use Rattle.std.specs.Prelude.{◌≡◌, ◌≤◌, ◌<◌, ◌^◌, ◌+◌, ◌-◌, ◌++◌, [], ◌∷◌, length, take, drop, nat_le, IsTrue, IfOk, false, MatchOption};
ghost use Rattle.message_core.specs.Encodable.{IsEncodableBinding, AreEncodable};
ghost use Rattle.message_core.specs.Canon.{canon_binding, canon_bindings};
ghost use Rattle.message_core.specs.declared.limits.TheConstants.{MAX_REPLY};
ghost use Rattle.oid_core.specs.declared.limits.TheConstants.{MAX_NUMBERS};

use crate::limits::MAX_REPLY;
use crate::ranges::{known_numbers, known_value};
use crate::value::Value;
use crate::writing::put_binding;
use ber_core::Out;
use std::alloc::{AllocError, Global};
use std::marker::Model;

/// Variable bindings in their shortest encoding, one behind the other (RFC 3416, section 3: the content
/// of a VarBindList), of at most `MAX_REPLY`, 1,472, octets.
pub struct EncodedBindings {
    // Boxed, so that bindings are moved without their octets.
    octets: Box<[u8; MAX_REPLY]>,
    len: usize,
}

// By hand: who drops one then knows nothing of its parts.
impl Drop for EncodedBindings {
    fn drop(self) {
        let EncodedBindings {
            octets: _octets,
            len: _len,
        } = self;
    }
}

impl Model for EncodedBindings {
    ghost use Rattle.std.specs.Prelude.{List, ◌≡◌, ◌≤◌, take, length};
    ghost use Rattle.message_core.specs.declared.binding.Binding.{Binding};
    ghost use Rattle.message_core.specs.declared.limits.TheConstants.{MAX_REPLY};
    ghost use Rattle.message_core.specs.Encoded.{bindings_in, AreShortest};

    ghost Value = { List Binding };

    ghost view = { λ e. bindings_in (take e.len e.octets.value) };

    ghost invariant = { λ e. (e.len ≤ MAX_REPLY) × (length e.octets.value ≡ MAX_REPLY) ×
        AreShortest (take e.len e.octets.value) };
}

// Copies the octets of a slice from a place on to its front. Most often they do not reach over that place,
// and are copied at once.
fn copy_to_front(space: &mut [u8], start: usize)
    requires { start ≤ length space.old }
    ensures front { take (length space.old - start) space.new ≡ drop start space.old }
    ensures same_length { length space.new ≡ length space.old }
{
    let len = space.len() - start;
    if start < len {
        space.copy_within(start.., 0);
        return;
    }
    let (front, back) = space.split_at_mut(start);
    front[..len].copy_from_slice(back);
}

// The length of the shortest encoding of a binding that is written to the front of a slice, where it
// fits there. Where it does not, the slice may hold anything.
fn write_front(space: &mut [u8], name: &[u32], value: &Value) -> Option<usize>
    requires small { length space.old < 2 ^ 32 }
    requires encodable { IsEncodableBinding (record { name = name.now; value = value.now }) }
    ensures { let octets = canon_binding (record { name = name.now; value = value.now }) in
        MatchOption result (length space.old < length octets) (λ len.
        (len ≡ length octets) × (len ≤ length space.old) × (take len space.new ≡ octets)) }
{
    let mut out = Out::new(space);
    if put_binding(&mut out, name, value).is_err() {
        return None;
    }
    let len = out.len();
    let start = space.len() - len;
    copy_to_front(space, start);
    Some(len)
}

// The length of the shortest encoding of a binding that is written behind so many octets, where there are
// then at most `most` octets. Where there are more, what stands behind those octets may be anything.
fn write_behind(
    octets: &mut [u8; MAX_REPLY],
    len: usize,
    most: usize,
    name: &[u32],
    value: &Value,
) -> Option<usize>
    requires within { len ≤ most }
    requires most { most ≤ MAX_REPLY }
    requires encodable { IsEncodableBinding (record { name = name.now; value = value.now }) }
    ensures front { take len octets.new ≡ take len octets.old }
    ensures same_length { length octets.new ≡ length octets.old }
    ensures written { let more = canon_binding (record { name = name.now; value = value.now }) in
        MatchOption result (most < len + length more) (λ count.
        (count ≡ length more) × (len + count ≤ most)
        × (take (len + count) octets.new ≡ take len octets.old ++ more)) }
{
    write_front(&mut octets[len..most], name, value)
}

impl EncodedBindings {
    /// No bindings. Takes memory for `MAX_REPLY`, 1,472, octets: so adding one takes none.
    ///
    /// # Errors
    /// `AllocError` where there is no such memory.
    pub fn new(alloc: Global) -> Result<EncodedBindings, AllocError>
        ensures { IfOk result (λ bindings. bindings ≡ []) }
    {
        Ok(EncodedBindings {
            octets: Box::new(alloc, [0; MAX_REPLY])?,
            len: 0,
        })
    }

    /// Adds the binding of a name and a value at the end, where all bindings then have at most `most`
    /// octets, and says whether it did. `most` is at most `MAX_REPLY`, and the bindings have at most so many
    /// octets already. Takes no memory. The caller ensures that the name has at most `MAX_NUMBERS`
    /// sub-identifiers, and that it, and an OBJECT IDENTIFIER value, begin as X.690, 8.19.4 asks.
    pub fn push(&mut self, name: &[u32], value: &Value, most: usize) -> bool
        requires short { length name.now ≤ MAX_NUMBERS }
        requires encodable { IsEncodableBinding (record { name = name.now; value = value.now }) }
        requires most { most ≤ MAX_REPLY }
        requires within { length (canon_bindings self.old) ≤ most }
        ensures fits { result ≡ nat_le (length (canon_bindings
            (self.old ++ record { name = name.now; value = value.now } ∷ []))) most }
        ensures taken { IsTrue result →
            self.new ≡ self.old ++ record { name = name.now; value = value.now } ∷ [] }
        ensures full { result ≡ false → self.new ≡ self.old }
    {
        known_numbers(name);
        known_value(value);
        match write_behind(&mut self.octets, self.len, most, name, value) {
            None => false,
            Some(len) => {
                self.len += len;
                true
            }
        }
    }

    /// Hands on that each binding's name, and an OBJECT IDENTIFIER value, begin as X.690, 8.19.4 asks. It does
    /// nothing.
    pub fn known(&self)
        ensures { AreEncodable self.now }
    {
        let _len = self.len;
    }

    /// The shortest encodings of the bindings, one behind the other: at most `MAX_REPLY` octets.
    pub fn octets(&self) -> &[u8]
        ensures octets { result.now ≡ canon_bindings self.now }
        ensures most { length result.now ≤ MAX_REPLY }
    {
        &self.octets[..self.len]
    }
}
