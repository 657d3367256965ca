//! The bindings of a GetBulk that fit so far (RFC 3416, 4.2.3).
ghost use Rattle.std.specs.Prelude.{◌≡◌, ◌<◌, ◌≤◌, ◌+◌, ◌-◌, ◌++◌, vec_capacity, [], ◌∷◌, IfOk, IsTrue, false, length, drop, get_or, slice_get, Some};
ghost use Rattle.std.specs.List.{list_all};
ghost use Rattle.oid_core.specs.Name.{HasRoot};
ghost use Rattle.oid_core.specs.declared.limits.TheConstants.{MAX_NUMBERS};
ghost use Rattle.message_core.specs.Instances.{names_of};
ghost use Rattle.message_core.specs.Encodable.{IsEncodableBinding, AreEncodable};
ghost use Rattle.message_core.specs.declared.limits.TheConstants.{MAX_REPLY};
ghost use Rattle.agent_core.specs.Reading.{end_under};
ghost use Rattle.agent_core.specs.Bulk.{all_end, is_end};
ghost use Rattle.agent_core.specs.Fitting.{total, fit_into, most_successors};

use crate::sent_binding::SentBinding;
use crate::source::Stand;
use message_core::{EncodedBindings, MAX_REPLY, Value};
use oid_core::MAX_NUMBERS;
use std::alloc::{AllocError, Global};
use std::marker::Model;

// How many octets a binding has at least: its head, and the heads of its name and its value.
const LEAST_BINDING: usize = 6;

/// How many successors need to be found at most for the bindings that fit: one for each, and one that does
/// not fit.
pub const MOST_SUCCESSORS: usize = MAX_REPLY / LEAST_BINDING + 1;

/// The bindings of a GetBulk's reply so far, and the octets that they may have (RFC 3416, 4.2.3: as
/// many as fit).
#[derive(Drop)]
pub struct FittingBindings {
    bindings: EncodedBindings,
    // The numbers of their names, one name behind the other.
    numbers: Vec<u32>,
    // What is kept of each.
    sent: Vec<SentBinding>,
    space: usize,
}

impl Model for FittingBindings {
    ghost use Rattle.std.specs.Prelude.{◌<◌, ◌≤◌, ◌+◌, ◌/◌, map, vec_capacity};
    ghost use Rattle.oid_core.specs.declared.limits.TheConstants.{MAX_NUMBERS};
    ghost use Rattle.agent_core.specs.Fitting.{least_binding};
    ghost use Rattle.agent_core.specs.Sending.{Sending, IsSending};

    ghost Value = { Sending };

    ghost view = { λ s. record {
      space = s.space;
      bindings = s.bindings;
      stands = map (λ sent. sent.stand) s.sent.items;
    } };

    ghost invariant = { λ s.
        IsSending (record {
          space = s.space;
          bindings = s.bindings;
          stands = map (λ sent. sent.stand) s.sent.items;
        }) s.numbers.items s.sent.items × (s.space / least_binding < vec_capacity s.sent)
        × (s.space + MAX_NUMBERS ≤ vec_capacity s.numbers) };
}

// Appends numbers, for which there is memory, one by one: most indexes are of one number.
fn push_numbers(numbers: &mut Vec<u32>, more: &[u32])
    requires { length numbers.old.items + length more.now ≤ vec_capacity numbers.old }
    ensures items { numbers.new.items ≡ numbers.old.items ++ more.now }
    ensures capacity { vec_capacity numbers.new ≡ vec_capacity numbers.old }
{
    for number in more {
        numbers.push_reserved(*number);
    }
}

// Appends the numbers of a name, for which there is memory.
fn push_name(numbers: &mut Vec<u32>, prefix: &[u32], index: &[u32])
    requires { length numbers.old.items + length (prefix.now ++ index.now) ≤ vec_capacity numbers.old }
    ensures items { numbers.new.items ≡ numbers.old.items ++ (prefix.now ++ index.now) }
    ensures capacity { vec_capacity numbers.old ≤ vec_capacity numbers.new }
{
    numbers.extend_from_slice(prefix).unwrap();
    push_numbers(numbers, index);
}

impl FittingBindings {
    /// No bindings, which may have `space` octets, at most `MAX_REPLY`. Memory for as many bindings as can
    /// fit, and for one more, is reserved: so adding one takes none.
    ///
    /// # Errors
    /// `AllocError` where there is no such memory.
    pub fn new(alloc: Global, space: usize) -> Result<FittingBindings, AllocError>
        requires { space ≤ MAX_REPLY }
        ensures { IfOk result (λ fitting. fitting ≡ record {
          space = space;
          bindings = [];
          stands = [];
        }) }
    {
        Ok(FittingBindings {
            bindings: EncodedBindings::new(alloc)?,
            numbers: Vec::with_capacity(alloc, space + MAX_NUMBERS)?,
            sent: Vec::with_capacity(alloc, space / LEAST_BINDING + 1)?,
            space,
        })
    }

    /// Adds the binding of a name and a value where it fits (RFC 3416, 4.2.3), and says whether it
    /// did. The name is a prefix and the index behind it. With it is kept where a walk stands at the name. It
    /// takes no memory. The caller ensures that the name has at most `MAX_NUMBERS` numbers, and
    /// that the binding has an encoding.
    pub fn offer(&mut self, prefix: &[u32], index: &[u32], value: &Value, stand: Stand) -> bool
        requires most { length (prefix.now ++ index.now) ≤ MAX_NUMBERS }
        requires encodable { IsEncodableBinding
            (record { name = prefix.now ++ index.now; value = value.now }) }
        ensures taken { IsTrue result → self.new.bindings
            ≡ self.old.bindings ++ record { name = prefix.now ++ index.now; value = value.now } ∷ [] }
        ensures stand { IsTrue result → self.new.stands ≡ self.old.stands ++ stand ∷ [] }
        ensures full { result ≡ false → self.new ≡ self.old }
        ensures fits { result ≡ fit_into self.old.space (self.old.bindings
            ++ record { name = prefix.now ++ index.now; value = value.now } ∷ []) }
        ensures space { self.new.space ≡ self.old.space }
    {
        let start = self.numbers.len();
        push_name(&mut self.numbers, prefix, index);
        let name = &self.numbers[start..];
        if !self.bindings.push(name, value, self.space) {
            self.numbers.truncate(start);
            return false;
        }
        self.sent.push_reserved(SentBinding {
            start,
            end: self.numbers.len(),
            is_end: is_end(value),
            stand,
        });
        true
    }

    /// Adds endOfMibView under the name of the binding so many places back, 1 for the last, at most `len`,
    /// where it fits (RFC 3416, 4.2.3), and says whether it did. With it is kept where a walk stands at that
    /// name. It takes no memory.
    pub fn offer_end(&mut self, back: usize, stand: Stand) -> bool
        requires some { 1 ≤ back }
        requires there { back ≤ length self.old.bindings }
        ensures taken { let name = get_or (names_of self.old.bindings)
            (length self.old.bindings - back) [] in
            IsTrue result → self.new.bindings ≡ self.old.bindings ++ end_under name ∷ [] }
        ensures stand { IsTrue result → self.new.stands ≡ self.old.stands ++ stand ∷ [] }
        ensures full { result ≡ false → self.new ≡ self.old }
        ensures fits { let name = get_or (names_of self.old.bindings)
            (length self.old.bindings - back) [] in
            result ≡ fit_into self.old.space (self.old.bindings ++ end_under name ∷ []) }
        ensures space { self.new.space ≡ self.old.space }
    {
        let SentBinding { start, end, .. } = self.sent[self.sent.len() - back];
        let name = &self.numbers[start..end];
        if !self.bindings.push(name, &Value::EndOfMibView, self.space) {
            return false;
        }
        self.sent.push_reserved(SentBinding {
            start,
            end,
            is_end: true,
            stand,
        });
        true
    }

    /// Hands on that few bindings fit. It does nothing, and only proofs want it.
    pub fn known(&self)
        ensures { length self.now.bindings < most_successors }
    {
        let _space = self.space;
    }

    /// How many bindings there are.
    pub fn len(&self) -> usize
        ensures value { result ≡ length self.now.bindings }
        ensures most { result ≤ MAX_REPLY }
    {
        self.sent.len()
    }

    /// The name of the binding so many places back, 1 for the last, at most `len`.
    pub fn name(&self, back: usize) -> &[u32]
        requires some { 1 ≤ back }
        requires there { back ≤ length self.now.bindings }
        ensures value { result.now ≡ get_or (names_of self.now.bindings)
            (length self.now.bindings - back) [] }
        ensures root { HasRoot result.now }
    {
        let SentBinding { start, end, .. } = self.sent[self.sent.len() - back];
        &self.numbers[start..end]
    }

    /// Whether each of the last so many bindings, at most `len`, is endOfMibView: those of one repetition.
    pub fn has_ended(&self, count: usize) -> bool
        requires { count ≤ length self.now.bindings }
        ensures { result ≡ all_end (drop (length self.now.bindings - count) self.now.bindings) }
    {
        are_ends(&self.sent[self.sent.len() - count..])
    }

    /// Where a walk stands at the name of the binding so many places back, 1 for the last, at most `len`.
    pub fn stand(&self, back: usize) -> &Stand
        requires some { 1 ≤ back }
        requires there { back ≤ length self.now.bindings }
        ensures { slice_get self.now.stands (length self.now.bindings - back) ≡ Some result.now }
    {
        &self.sent[self.sent.len() - back].stand
    }

    /// The bindings. Takes no memory.
    pub fn into_bindings(self) -> EncodedBindings
        ensures value { result ≡ self.bindings }
        ensures encodable { AreEncodable self.bindings }
        ensures within { total self.bindings ≤ self.space }
    {
        let FittingBindings {
            bindings,
            numbers: _,
            sent: _,
            space: _,
        } = self;
        bindings
    }
}

// Whether a value is endOfMibView.
fn is_end(value: &Value) -> bool
    ensures { result ≡ is_end value.now }
{
    matches!(value, Value::EndOfMibView)
}

// Whether each binding of which these are kept is endOfMibView.
fn are_ends(bindings: &[SentBinding]) -> bool
    ensures { result ≡ list_all (λ sent. sent.is_end) bindings.now }
{
    bindings.iter().all(|sent| sent.is_end)
}
