//! GetBulk: non-repeaters, repetitions, and where they stop (RFC 3416, 4.2.3).
ghost use Rattle.std.specs.Prelude.{◌≡◌, ◌≤◌, ◌<◌, ◌⊎◌, ◌^◌, ◌+◌, ◌-◌, ◌*◌, ◌++◌, [], ◌∷◌, List, false, length, min, get_or, Err, IfOk, IfErr, OnOk, OnErr, IsTrue, drop};
ghost use Rattle.oid_core.specs.Name.{HasRoot};
ghost use Rattle.oid_core.specs.declared.limits.TheConstants.{MAX_NUMBERS};
ghost use Rattle.message_core.specs.Encodable.{AreEncodable, IsEncodableBinding};
ghost use Rattle.message_core.specs.declared.limits.TheConstants.{MAX_COMMUNITY};
ghost use Rattle.message_core.specs.Instances.{names_of};
ghost use Rattle.agent_core.specs.Reading.{visible, next_answer, next_answers};
ghost use Rattle.agent_core.specs.Lookups.{hidden_count, most_lookups, PassesLong};
ghost use Rattle.agent_core.specs.Hidden.{AreRunsFor, hidden_left};
ghost use Rattle.agent_core.specs.Lacking.{IsLacking, LacksBulkName, IfName, bulk_names, binding_number};
ghost use Rattle.agent_core.specs.Bulk.{repetitions, further, bulk_list, count_of, asked_list};
ghost use Rattle.agent_core.specs.Sending.{AreStands};
ghost use Rattle.agent_core.specs.Fitting.{fitting_front, fit_into, most_successors, IsFilled};
ghost use Rattle.message_core.specs.declared.binding.Binding.{Binding};

use crate::fitting::{FittingBindings, MOST_SUCCESSORS};
use crate::hidden::HiddenRuns;
use crate::nexts::find_next;
use crate::shortage::Shortage;
use crate::source::{Stand, Successors};
use message_core::{Binding, EncodedBindings, Request, Value, bindings_space};
use setphase_core::Spot;
use std::alloc::{AllocError, Global};
use std::sync::ledger::Ledger;
use steps::Steps;

// Where the successors of a GetBulk are searched, and what gives memory for the names of which the view
// is asked.
struct Lookup<'a, S> {
    alloc: Global,
    source: &'a S,
}

// By hand, so that it is copied whatever the source is.
impl<S> Clone for Lookup<'_, S> {
    ghost is_clone = { λ x y. y ≡ x };

    ghost is_infallible = { λ _. Unit {0} };

    fn clone(&self) -> Result<Self, AllocError> {
        Ok(*self)
    }
}

impl<S> Copy for Lookup<'_, S> {}

// Where a walk stands at a name, found beside the stand of the last binding that is to be sent, if there
// is one.
fn stand_at<S: Successors<L>, L: Ledger>(
    source: &S,
    fitting: &FittingBindings,
    name: &[u32],
) -> Stand
    requires { AreStands (S.stands source.now) fitting.now.stands (names_of fitting.now.bindings) }
    ensures { S.stands source.now result name.now }
{
    if fitting.len() == 0 {
        return source.start(name);
    }
    source.start_beside(name, fitting.stand(1))
}

// Sends the binding of the instance at a spot where it fits, and says whether it did.
// Where a walk stands at its name is kept.
#[inline(always)]
fn offer_instance<S: Successors<L>, L: Ledger>(
    lookup: Lookup<'_, S>,
    spot: &Spot,
    stand: Stand,
    fitting: &mut FittingBindings,
) -> bool
    requires there { S.is_there lookup.source.now spot.now }
    requires encodable { IsEncodableBinding (S.at lookup.source.now spot.now) }
    ensures taken { IsTrue result →
        fitting.new.bindings ≡ fitting.old.bindings ++ S.at lookup.entry.source.now spot.now ∷ [] }
    ensures stand { IsTrue result → fitting.new.stands ≡ fitting.old.stands ++ stand ∷ [] }
    ensures full { result ≡ false → fitting.new ≡ fitting.old }
    ensures fits { result ≡ fit_into fitting.old.space
        (fitting.old.bindings ++ S.at lookup.entry.source.now spot.now ∷ []) }
    ensures space { fitting.new.space ≡ fitting.old.space }
{
    let Lookup { alloc, source } = lookup;
    let prefix = source.prefix(spot);
    let mut value = Value::Null;
    source.value_into(alloc, spot, &mut value);
    fitting.offer(prefix, spot.index.as_slice(), &value, stand)
}

// Sends what GetNext answers under a name where it fits, and says whether it did.
fn send_next<S: Successors<L>, L: Ledger>(
    lookup: Lookup<'_, S>,
    name: &[u32],
    fitting: &mut FittingBindings,
    spot: &mut Spot,
    hidden: &mut HiddenRuns,
    steps: &mut Steps<L>,
) -> Result<bool, AllocError>
    requires stands { AreStands (S.stands lookup.source.now) fitting.old.stands
        (names_of fitting.old.bindings) }
    requires runs { AreRunsFor (S.shows lookup.source.now) (S.instances lookup.source.now) (S.at lookup.source.now)
        (S.is_there lookup.source.now) (S.stands lookup.source.now) most_successors (length fitting.old.bindings) hidden.old }
    requires root { HasRoot name.now }
    requires most { length name.now ≤ MAX_NUMBERS }
    ensures taken { IfOk result (λ taken. IsTrue taken →
        fitting.new.bindings ≡ fitting.old.bindings ++ next_answer (visible (S.shows lookup.entry.source.now)
        (S.instances lookup.entry.source.now)) name.now ∷ []) }
    ensures full { IfOk result (λ taken. taken ≡ false → fitting.new.bindings ≡ fitting.old.bindings) }
    ensures fits { IfOk result (λ taken.
        taken ≡ fit_into fitting.old.space (fitting.old.bindings ++ next_answer
        (visible (S.shows lookup.entry.source.now) (S.instances lookup.entry.source.now)) name.now ∷ [])) }
    ensures stands { AreStands (S.stands lookup.entry.source.now) fitting.new.stands
        (names_of fitting.new.bindings) }
    ensures space { fitting.new.space ≡ fitting.old.space }
    ensures err { OnErr result (fitting.new.bindings ≡ fitting.old.bindings) }
    ensures lacks { OnErr result
        (PassesLong (S.shows lookup.entry.source.now) (S.instances lookup.entry.source.now) name.now) }
    ensures runs { IfOk result (λ taken. IsTrue taken →
        AreRunsFor (S.shows lookup.entry.source.now) (S.instances lookup.entry.source.now) (S.at lookup.entry.source.now)
        (S.is_there lookup.entry.source.now) (S.stands lookup.entry.source.now) most_successors (length fitting.new.bindings) hidden.new) }
    ensures work { steps.new ≤ steps.old + 1 + hidden_left (S.shows lookup.entry.source.now)
        (S.instances lookup.entry.source.now) hidden.old.runs.items }
    ensures once { IfOk result (λ _. steps.new + hidden_left (S.shows lookup.entry.source.now)
        (S.instances lookup.entry.source.now) hidden.new.runs.items
        ≤ steps.old + 1 + hidden_left (S.shows lookup.entry.source.now)
        (S.instances lookup.entry.source.now) hidden.old.runs.items) }
{
    let Lookup { alloc, source } = lookup;
    fitting.known();
    let mut stand = stand_at(source, fitting, name);
    if find_next(alloc, source, name, &mut stand, spot, hidden, steps)? {
        return Ok(offer_instance(lookup, spot, stand, fitting));
    }
    Ok(fitting.offer(name, &[], &Value::EndOfMibView, stand))
}

// Sends one repetition, GetNext of the name of each of these bindings, as far as it fits, and
// says whether all of it did.
fn repeat_once<S: Successors<L>, L: Ledger>(
    lookup: Lookup<'_, S>,
    asked: &[Binding],
    fitting: &mut FittingBindings,
    spot: &mut Spot,
    hidden: &mut HiddenRuns,
    steps: &mut Steps<L>,
) -> Result<bool, AllocError>
    requires stands { AreStands (S.stands lookup.source.now) fitting.old.stands
        (names_of fitting.old.bindings) }
    requires runs { AreRunsFor (S.shows lookup.source.now) (S.instances lookup.source.now) (S.at lookup.source.now)
        (S.is_there lookup.source.now) (S.stands lookup.source.now) most_successors (length fitting.old.bindings) hidden.old }
    requires encodable { AreEncodable asked.now }
    ensures whole { IfOk result (λ whole. IsTrue whole →
        fitting.new.bindings ≡ fitting.old.bindings ++ next_answers
        (visible (S.shows lookup.entry.source.now) (S.instances lookup.entry.source.now)) (names_of asked.now)) }
    ensures cut { IfOk result (λ whole. whole ≡ false → (more : List Binding) →
        IsFilled fitting.new.space (fitting.old.bindings ++ (next_answers
        (visible (S.shows lookup.entry.source.now) (S.instances lookup.entry.source.now))
        (names_of asked.now) ++ more))
        fitting.new.bindings) }
    ensures stands { AreStands (S.stands lookup.entry.source.now) fitting.new.stands
        (names_of fitting.new.bindings) }
    ensures space { fitting.new.space ≡ fitting.old.space }
    ensures work { steps.new + length fitting.old.bindings
        ≤ steps.old + length fitting.new.bindings + 1 + hidden_left (S.shows lookup.entry.source.now)
        (S.instances lookup.entry.source.now) hidden.old.runs.items }
    ensures runs { IfOk result (λ whole. IsTrue whole →
        AreRunsFor (S.shows lookup.entry.source.now) (S.instances lookup.entry.source.now) (S.at lookup.entry.source.now)
        (S.is_there lookup.entry.source.now) (S.stands lookup.entry.source.now) most_successors (length fitting.new.bindings) hidden.new) }
    ensures once { IfOk result (λ whole. IsTrue whole →
        steps.new + length fitting.old.bindings + hidden_left (S.shows lookup.entry.source.now)
        (S.instances lookup.entry.source.now) hidden.new.runs.items
        ≤ steps.old + length fitting.new.bindings + hidden_left (S.shows lookup.entry.source.now)
        (S.instances lookup.entry.source.now) hidden.old.runs.items) }
    ensures lacks { OnErr result (IsLacking (S.shows lookup.entry.source.now)
        (S.instances lookup.entry.source.now)
        (λ found. names_of asked.now) fitting.old.bindings (fitting.old.bindings ++ next_answers
        (visible (S.shows lookup.entry.source.now) (S.instances lookup.entry.source.now)) (names_of asked.now))
        fitting.new.bindings) }
{
    for binding in asked {
        if !send_next(
            lookup,
            binding.name.as_slice(),
            fitting,
            spot,
            hidden,
            steps,
        )? {
            return Ok(false);
        }
    }
    Ok(true)
}

// Sends what GetNext answers under the name of the binding so many places back, where it
// fits, and says whether it did.
fn send_successor<S: Successors<L>, L: Ledger>(
    lookup: Lookup<'_, S>,
    back: usize,
    fitting: &mut FittingBindings,
    spot: &mut Spot,
    hidden: &mut HiddenRuns,
    steps: &mut Steps<L>,
) -> Result<bool, AllocError>
    requires stands { AreStands (S.stands lookup.source.now) fitting.old.stands
        (names_of fitting.old.bindings) }
    requires runs { AreRunsFor (S.shows lookup.source.now) (S.instances lookup.source.now) (S.at lookup.source.now)
        (S.is_there lookup.source.now) (S.stands lookup.source.now) most_successors (length fitting.old.bindings) hidden.old }
    requires some { 1 ≤ back }
    requires there { back ≤ length fitting.old.bindings }
    ensures taken { let name = get_or (names_of fitting.old.bindings)
        (length fitting.old.bindings - back) [] in
        IfOk result (λ taken. IsTrue taken →
        fitting.new.bindings ≡ fitting.old.bindings ++ next_answer (visible (S.shows lookup.entry.source.now)
        (S.instances lookup.entry.source.now)) name ∷ []) }
    ensures full { IfOk result (λ taken. taken ≡ false → fitting.new.bindings ≡ fitting.old.bindings) }
    ensures fits { let name = get_or (names_of fitting.old.bindings)
        (length fitting.old.bindings - back) [] in
        IfOk result (λ taken.
        taken ≡ fit_into fitting.old.space (fitting.old.bindings ++ next_answer
        (visible (S.shows lookup.entry.source.now) (S.instances lookup.entry.source.now)) name ∷ [])) }
    ensures stands { AreStands (S.stands lookup.entry.source.now) fitting.new.stands
        (names_of fitting.new.bindings) }
    ensures space { fitting.new.space ≡ fitting.old.space }
    ensures err { OnErr result (fitting.new.bindings ≡ fitting.old.bindings) }
    ensures lacks { OnErr result (PassesLong (S.shows lookup.entry.source.now)
        (S.instances lookup.entry.source.now)
        (get_or (names_of fitting.old.bindings) (length fitting.old.bindings - back) [])) }
    ensures runs { IfOk result (λ taken. IsTrue taken →
        AreRunsFor (S.shows lookup.entry.source.now) (S.instances lookup.entry.source.now) (S.at lookup.entry.source.now)
        (S.is_there lookup.entry.source.now) (S.stands lookup.entry.source.now) most_successors (length fitting.new.bindings) hidden.new) }
    ensures work { steps.new ≤ steps.old + 1 + hidden_left (S.shows lookup.entry.source.now)
        (S.instances lookup.entry.source.now) hidden.old.runs.items }
    ensures once { IfOk result (λ _. steps.new + hidden_left (S.shows lookup.entry.source.now)
        (S.instances lookup.entry.source.now) hidden.new.runs.items
        ≤ steps.old + 1 + hidden_left (S.shows lookup.entry.source.now)
        (S.instances lookup.entry.source.now) hidden.old.runs.items) }
{
    let Lookup { alloc, source } = lookup;
    fitting.known();
    let before = fitting.name(back);
    let mut stand = *fitting.stand(back);
    if find_next(alloc, source, before, &mut stand, spot, hidden, steps)? {
        return Ok(offer_instance(lookup, spot, stand, fitting));
    }
    Ok(fitting.offer_end(back, stand))
}

// Sends one repetition more, GetNext of the names of the one that was sent last, which has so many
// bindings, as far as it fits, and says whether all of it did.
fn repeat_last<S: Successors<L>, L: Ledger>(
    lookup: Lookup<'_, S>,
    columns: usize,
    fitting: &mut FittingBindings,
    spot: &mut Spot,
    hidden: &mut HiddenRuns,
    steps: &mut Steps<L>,
) -> Result<bool, AllocError>
    requires stands { AreStands (S.stands lookup.source.now) fitting.old.stands
        (names_of fitting.old.bindings) }
    requires runs { AreRunsFor (S.shows lookup.source.now) (S.instances lookup.source.now) (S.at lookup.source.now)
        (S.is_there lookup.source.now) (S.stands lookup.source.now) most_successors (length fitting.old.bindings) hidden.old }
    requires columns { columns ≤ length fitting.old.bindings }
    ensures whole { let last = drop (length fitting.old.bindings - columns) fitting.old.bindings in
        IfOk result (λ whole. IsTrue whole →
        fitting.new.bindings ≡ fitting.old.bindings ++ next_answers
        (visible (S.shows lookup.entry.source.now) (S.instances lookup.entry.source.now)) (names_of last)) }
    ensures cut { let last = drop (length fitting.old.bindings - columns) fitting.old.bindings in
        IfOk result (λ whole. whole ≡ false → (more : List Binding) →
        IsFilled fitting.new.space (fitting.old.bindings ++ (next_answers
        (visible (S.shows lookup.entry.source.now) (S.instances lookup.entry.source.now)) (names_of last)
        ++ more))
        fitting.new.bindings) }
    ensures stands { AreStands (S.stands lookup.entry.source.now) fitting.new.stands
        (names_of fitting.new.bindings) }
    ensures space { fitting.new.space ≡ fitting.old.space }
    ensures work { steps.new + length fitting.old.bindings
        ≤ steps.old + length fitting.new.bindings + 1 + hidden_left (S.shows lookup.entry.source.now)
        (S.instances lookup.entry.source.now) hidden.old.runs.items }
    ensures runs { IfOk result (λ whole. IsTrue whole →
        AreRunsFor (S.shows lookup.entry.source.now) (S.instances lookup.entry.source.now) (S.at lookup.entry.source.now)
        (S.is_there lookup.entry.source.now) (S.stands lookup.entry.source.now) most_successors (length fitting.new.bindings) hidden.new) }
    ensures once { IfOk result (λ whole. IsTrue whole →
        steps.new + length fitting.old.bindings + hidden_left (S.shows lookup.entry.source.now)
        (S.instances lookup.entry.source.now) hidden.new.runs.items
        ≤ steps.old + length fitting.new.bindings + hidden_left (S.shows lookup.entry.source.now)
        (S.instances lookup.entry.source.now) hidden.old.runs.items) }
    ensures lacks { let last = drop (length fitting.old.bindings - columns) fitting.old.bindings in
        OnErr result (IsLacking (S.shows lookup.entry.source.now) (S.instances lookup.entry.source.now)
        (λ found. names_of last) fitting.old.bindings (fitting.old.bindings ++ next_answers
        (visible (S.shows lookup.entry.source.now) (S.instances lookup.entry.source.now)) (names_of last))
        fitting.new.bindings) }
{
    for column in 0..columns {
        if !send_successor(lookup, columns, fitting, spot, hidden, steps)? {
            return Ok(false);
        }
    }
    Ok(true)
}

// Sends up to `most` repetitions more from the names of the one that was sent last, which has so
// many bindings, as far as they fit.
//
// Each but the last sends a binding for each name and so takes octets: there are no more repetitions
// than bindings that fit, and one, whatever `most` is.
fn repeat_further<S: Successors<L>, L: Ledger>(
    lookup: Lookup<'_, S>,
    columns: usize,
    most: u32,
    fitting: &mut FittingBindings,
    spot: &mut Spot,
    hidden: &mut HiddenRuns,
    steps: &mut Steps<L>,
) -> Result<(), AllocError>
    requires stands { AreStands (S.stands lookup.source.now) fitting.old.stands
        (names_of fitting.old.bindings) }
    requires runs { AreRunsFor (S.shows lookup.source.now) (S.instances lookup.source.now) (S.at lookup.source.now)
        (S.is_there lookup.source.now) (S.stands lookup.source.now) most_successors (length fitting.old.bindings) hidden.old }
    requires columns { columns ≤ length fitting.old.bindings }
    ensures filled { let last = drop (length fitting.old.bindings - columns) fitting.old.bindings in
        OnOk result (IsFilled fitting.old.space (fitting.old.bindings ++ further
        (visible (S.shows lookup.entry.source.now)
        (S.instances lookup.entry.source.now)) most last) fitting.new.bindings) }
    ensures stands { AreStands (S.stands lookup.entry.source.now) fitting.new.stands
        (names_of fitting.new.bindings) }
    ensures space { fitting.new.space ≡ fitting.old.space }
    ensures work { steps.new + length fitting.old.bindings
        ≤ steps.old + length fitting.new.bindings + 1 + hidden_left (S.shows lookup.entry.source.now)
        (S.instances lookup.entry.source.now) hidden.old.runs.items }
    ensures lacks { let last = drop (length fitting.old.bindings - columns) fitting.old.bindings in
        OnErr result (IsLacking (S.shows lookup.entry.source.now) (S.instances lookup.entry.source.now)
        (bulk_names (names_of last) 0) fitting.old.bindings (fitting.old.bindings ++ further
        (visible (S.shows lookup.entry.source.now) (S.instances lookup.entry.source.now)) most last)
        fitting.new.bindings) }
{
    for i in 0..most {
        if fitting.has_ended(columns) {
            return Ok(());
        }
        if !repeat_last(lookup, columns, fitting, spot, hidden, steps)? {
            return Ok(());
        }
    }
    Ok(())
}

// Sends up to `most` repetitions from the names of these bindings on, as far as they fit.
fn repeat<S: Successors<L>, L: Ledger>(
    lookup: Lookup<'_, S>,
    asked: &[Binding],
    most: u32,
    fitting: &mut FittingBindings,
    spot: &mut Spot,
    hidden: &mut HiddenRuns,
    steps: &mut Steps<L>,
) -> Result<(), AllocError>
    requires stands { AreStands (S.stands lookup.source.now) fitting.old.stands
        (names_of fitting.old.bindings) }
    requires runs { AreRunsFor (S.shows lookup.source.now) (S.instances lookup.source.now) (S.at lookup.source.now)
        (S.is_there lookup.source.now) (S.stands lookup.source.now) most_successors (length fitting.old.bindings) hidden.old }
    requires encodable { AreEncodable asked.now }
    ensures filled { OnOk result (IsFilled fitting.old.space (fitting.old.bindings ++ repetitions
        (visible (S.shows lookup.entry.source.now)
        (S.instances lookup.entry.source.now)) most (names_of asked.now)) fitting.new.bindings) }
    ensures stands { AreStands (S.stands lookup.entry.source.now) fitting.new.stands
        (names_of fitting.new.bindings) }
    ensures space { fitting.new.space ≡ fitting.old.space }
    ensures work { steps.new + length fitting.old.bindings
        ≤ steps.old + length fitting.new.bindings + 1 + hidden_left (S.shows lookup.entry.source.now)
        (S.instances lookup.entry.source.now) hidden.old.runs.items }
    ensures lacks { OnErr result (IsLacking (S.shows lookup.entry.source.now)
        (S.instances lookup.entry.source.now)
        (bulk_names (names_of asked.now) 0) fitting.old.bindings (fitting.old.bindings ++ repetitions
        (visible (S.shows lookup.entry.source.now) (S.instances lookup.entry.source.now)) most
        (names_of asked.now))
        fitting.new.bindings) }
{
    if most == 0 {
        return Ok(());
    }
    if !repeat_once(lookup, asked, fitting, spot, hidden, steps)? {
        return Ok(());
    }
    repeat_further(lookup, asked.len(), most - 1, fitting, spot, hidden, steps)
}

// Sends the first `once` names once, and the others up to `most` times, as far as they fit.
fn send_list<S: Successors<L>, L: Ledger>(
    lookup: Lookup<'_, S>,
    once: usize,
    most: u32,
    asked: &[Binding],
    fitting: &mut FittingBindings,
    spot: &mut Spot,
    hidden: &mut HiddenRuns,
    steps: &mut Steps<L>,
) -> Result<(), AllocError>
    requires stands { AreStands (S.stands lookup.source.now) fitting.old.stands
        (names_of fitting.old.bindings) }
    requires runs { AreRunsFor (S.shows lookup.source.now) (S.instances lookup.source.now) (S.at lookup.source.now)
        (S.is_there lookup.source.now) (S.stands lookup.source.now) most_successors (length fitting.old.bindings) hidden.old }
    requires once { once ≤ length asked.now }
    requires encodable { AreEncodable asked.now }
    ensures filled { OnOk result (IsFilled fitting.old.space (fitting.old.bindings ++ bulk_list
        (visible (S.shows lookup.entry.source.now) (S.instances lookup.entry.source.now)) once most
        (names_of asked.now)) fitting.new.bindings) }
    ensures stands { AreStands (S.stands lookup.entry.source.now) fitting.new.stands
        (names_of fitting.new.bindings) }
    ensures space { fitting.new.space ≡ fitting.old.space }
    ensures work { steps.new + length fitting.old.bindings
        ≤ steps.old + length fitting.new.bindings + 1 + hidden_left (S.shows lookup.entry.source.now)
        (S.instances lookup.entry.source.now) hidden.old.runs.items }
    ensures lacks { OnErr result (IsLacking (S.shows lookup.entry.source.now)
        (S.instances lookup.entry.source.now)
        (bulk_names (names_of asked.now) once) fitting.old.bindings (fitting.old.bindings ++ bulk_list
        (visible (S.shows lookup.entry.source.now) (S.instances lookup.entry.source.now)) once most
        (names_of asked.now))
        fitting.new.bindings) }
{
    let (first, columns) = asked.split_at(once);
    if !repeat_once(lookup, first, fitting, spot, hidden, steps)? {
        return Ok(());
    }
    repeat(lookup, columns, most, fitting, spot, hidden, steps)
}

// A number of a request as a count, 0 where it is negative.
fn count_of(number: i32) -> u32
    ensures { result ≡ count_of number }
{
    if number < 0 { 0 } else { number as u32 }
}

// How many names are asked for once: the non-repeaters, and no more than there are bindings.
fn non_repeaters(request: &Request) -> usize
    ensures count { result ≡ min (count_of request.now.first) (length request.now.bindings) }
    ensures most { result ≤ length request.now.bindings }
{
    (count_of(request.first) as usize).min(request.bindings.as_slice().len())
}

// How many repetitions are asked for.
fn max_repetitions(request: &Request) -> u32
    ensures { result ≡ count_of request.now.second }
{
    count_of(request.second)
}

// The number of the binding of which a member of the list is asked, before which so many members
// stand: so many bindings are asked once, and then so many columns in each repetition.
fn binding_number(once: usize, columns: usize, before: usize) -> usize
    requires some { 1 ≤ columns ⊎ before < once }
    requires most { before < 2 ^ 63 }
    requires few { once + columns < 2 ^ 63 }
    ensures { result ≡ binding_number once columns before }
{
    if before < once {
        before + 1
    } else {
        once + (before - once) % columns + 1
    }
}

/// What GetBulk answers (RFC 3416, 4.2.3): the longest front of the list that it asks for whose
/// reply has at most `MAX_REPLY`, 1,472, octets.
///
/// Each lookup at the source is a step. There is at most one for each binding that is sent, one more, and one
/// for each instance that the view hides, whatever max-repetitions says; so at most `most_successors`, 246,
/// and one for each hidden instance, also where memory fails. A hidden instance that the walk of one name has
/// passed is not passed again.
///
/// # Errors
/// `Shortage::Name(i)`: the binding that is to be sent next answers the request's binding i, from 1 on, in
/// later repetitions that of its column; and there was no memory for a name above `INLINE_NUMBERS`, 24,
/// numbers, that of an instance that its walk passes or ends at. `Shortage::Other` ahead of any lookup, where
/// there is no memory for the list, or for what is kept of the hidden instances that are passed.
pub fn get_bulk<S: Successors<L>, L: Ledger>(
    alloc: Global,
    source: &S,
    request: &Request,
    steps: &mut Steps<L>,
) -> Result<EncodedBindings, Shortage>
    requires community { length request.now.community ≤ MAX_COMMUNITY }
    requires encodable { AreEncodable request.now.bindings }
    ensures answer { IfOk result (λ fitting.
        fitting ≡ fitting_front request.now (asked_list (visible (S.shows source.now)
        (S.instances source.now)) request.now)) }
    ensures encodable { IfOk result (λ fitting. AreEncodable fitting) }
    ensures work { let most = most_lookups (S.shows source.now) (S.instances source.now) in
        IfOk result (λ fitting. steps.new ≤ steps.old + (length fitting + 1) * most) }
    ensures most_work { steps.new ≤ steps.old + most_successors * most_lookups (S.shows source.now)
        (S.instances source.now) }
    ensures once { IfOk result (λ fitting. steps.new ≤ steps.old + length fitting + 1
        + hidden_count (S.shows source.now) (S.instances source.now)) }
    ensures most_once { steps.new ≤ steps.old + most_successors
        + hidden_count (S.shows source.now) (S.instances source.now) }
    ensures lacks { IfErr result (IfName
        (LacksBulkName (S.shows source.now) (S.instances source.now) request.now)) }
    ensures other { result ≡ Err Shortage.Other → steps.new ≡ steps.old }
{
    let asked = request.bindings.as_slice();
    let once = non_repeaters(request);
    let most = max_repetitions(request);
    let columns = asked.len() - once;
    let mut fitting = FittingBindings::new(alloc, bindings_space(request))?;
    let mut hidden = HiddenRuns::with_capacity(alloc, MOST_SUCCESSORS)?;
    let mut spot = Spot::new();
    let lookup = Lookup { alloc, source };
    let filled = send_list(
        lookup,
        once,
        most,
        asked,
        &mut fitting,
        &mut spot,
        &mut hidden,
        steps,
    );
    let before = fitting.len();
    let bindings = fitting.into_bindings();
    if filled.is_err() {
        return Err(Shortage::Name(binding_number(once, columns, before)));
    }
    Ok(bindings)
}
