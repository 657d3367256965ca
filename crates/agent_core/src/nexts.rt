//! GetNext: the binding after a name, or endOfMibView (RFC 3416, 4.2.2).
ghost use Rattle.std.specs.Prelude.{◌≡◌, ◌+◌, ◌-◌, ◌*◌, ◌≤◌, ◌<◌, Err, IfOk, IfErr, OnErr, IsTrue, length, vec_capacity};
ghost use Rattle.oid_core.specs.declared.limits.TheConstants.{INLINE_NUMBERS};
ghost use Rattle.oid_core.specs.Name.{HasRoot};
ghost use Rattle.message_core.specs.Encodable.{IsEncodableBinding};
ghost use Rattle.message_core.specs.Instances.{names_of};
ghost use Rattle.agent_core.specs.Reading.{visible, next_answer, next_answers};
ghost use Rattle.agent_core.specs.Making.{binding_of};
ghost use Rattle.agent_core.specs.Lookups.{hidden_count, most_lookups, LacksName, PassesLong};
ghost use Rattle.agent_core.specs.Hidden.{AreHiddenRuns, hidden_left};
ghost use Rattle.agent_core.specs.Lacking.{LacksNextName, IfName};

use crate::hidden::HiddenRuns;
use crate::reading::{next_named, next_shown};
use crate::shortage::Shortage;
use crate::source::{Stand, Successors};
use message_core::{Binding, Bindings, Value};
use oid_core::Oid;
use setphase_core::Spot;
use std::alloc::{AllocError, Global};
use std::sync::ledger::Ledger;
use steps::Steps;

/// Whether the view shows an instance behind a name (RFC 3416, 4.2.2), over the instances that the view
/// shows: where it stands is written in the spot that is lent. Where there is none, GetNext answers
/// endOfMibView under the name, and the spot may be any. Only memory can fail, and only for the name of
/// an instance that the walk passes or ends at.
///
/// It asks the source at most once for each instance that the view hides, and once more; those in the runs
/// that are lent are not passed again, and what is passed is kept as a run, as far as there is memory for it.
/// The stand is
/// at the name before the call, and at the binding's name after it: with what the walk learned of the view,
/// where an instance was found, and else as before.
pub fn find_next<S: Successors<L>, L: Ledger>(
    alloc: Global,
    source: &S,
    name: &[u32],
    stand: &mut Stand,
    spot: &mut Spot,
    hidden: &mut HiddenRuns,
    steps: &mut Steps<L>,
) -> Result<bool, AllocError>
    requires stands { S.stands source.now stand.old name.now }
    requires runs { AreHiddenRuns (S.shows source.now) (S.instances source.now) (S.at source.now)
        (S.is_there source.now) (S.stands source.now) hidden.old.runs.items }
    ensures answer { IfOk result (λ found. binding_of (S.at source.now) name.now spot.new found
        ≡ next_answer (visible (S.shows source.now) (S.instances source.now)) name.now) }
    ensures there { IfOk result (λ found. IsTrue found → S.is_there source.now spot.new) }
    ensures encodable { IfOk result (λ found. HasRoot name.now →
        IsEncodableBinding (binding_of (S.at source.now) name.now spot.new found)) }
    ensures stands { IfOk result (λ found. S.stands source.now stand.new
        (binding_of (S.at source.now) name.now spot.new found).name) }
    ensures work { steps.new ≤ steps.old + most_lookups (S.shows source.now) (S.instances source.now) }
    ensures runs { AreHiddenRuns (S.shows source.now) (S.instances source.now) (S.at source.now)
        (S.is_there source.now) (S.stands source.now) hidden.new.runs.items }
    ensures few { steps.new ≤ steps.old + 1
        + hidden_left (S.shows source.now) (S.instances source.now) hidden.old.runs.items }
    ensures once { IfOk result (λ _. length hidden.old.runs.items < vec_capacity hidden.old.runs →
        steps.new + hidden_left (S.shows source.now) (S.instances source.now) hidden.new.runs.items
        ≤ steps.old + 1
        + hidden_left (S.shows source.now) (S.instances source.now) hidden.old.runs.items) }
    ensures grown { length hidden.new.runs.items ≤ length hidden.old.runs.items + 1 }
    ensures capacity { vec_capacity hidden.new.runs ≡ vec_capacity hidden.old.runs }
    ensures lacks { OnErr result
        (PassesLong (S.shows source.now) (S.instances source.now) name.now) }
{
    source.known();
    let before = *stand;
    if next_shown(alloc, source, name, stand, spot, hidden, steps)? {
        return Ok(true);
    }
    *stand = before;
    Ok(false)
}

// The copy of a name. Only memory can fail, and only above `INLINE_NUMBERS`, 24, numbers.
fn copy_of(alloc: Global, name: &Oid) -> Result<Oid, AllocError>
    ensures copy { IfOk result (λ copy. copy ≡ name.now) }
    ensures long { OnErr result (INLINE_NUMBERS < length name.now) }
{
    match name.try_copy(alloc) {
        Ok(copy) => Ok(copy),
        Err(_) => Err(AllocError),
    }
}

/// What GetNext answers under a name (RFC 3416, 4.2.2), over the instances that the view shows.
/// Only memory can fail, and only for a name above `INLINE_NUMBERS`, 24, numbers: that of an instance
/// that the walk passes or ends at, or the copy of the name under endOfMibView.
///
/// It asks the source at most once for each instance that the view hides, and once more.
pub fn get_next<S: Successors<L>, L: Ledger>(
    alloc: Global,
    source: &S,
    name: &Oid,
    steps: &mut Steps<L>,
) -> Result<Binding, AllocError>
    ensures answer { IfOk result (λ b.
        b ≡ next_answer (visible (S.shows source.now) (S.instances source.now)) name.now) }
    ensures encodable { IfOk result (λ b. HasRoot name.now → IsEncodableBinding b) }
    ensures work { steps.new ≤ steps.old + most_lookups (S.shows source.now) (S.instances source.now) }
    ensures lacks { OnErr result
        (LacksName (S.shows source.now) (S.instances source.now) name.now) }
{
    let mut hidden = HiddenRuns::none(alloc);
    get_next_beside(alloc, source, name, &mut hidden, steps)
}

// The same beside other names of a request: the hidden instances in the runs that are lent are not passed
// again, and what is passed is kept as a run, as far as there is memory for it.
fn get_next_beside<S: Successors<L>, L: Ledger>(
    alloc: Global,
    source: &S,
    name: &Oid,
    hidden: &mut HiddenRuns,
    steps: &mut Steps<L>,
) -> Result<Binding, AllocError>
    requires { AreHiddenRuns (S.shows source.now) (S.instances source.now) (S.at source.now)
        (S.is_there source.now) (S.stands source.now) hidden.old.runs.items }
    ensures answer { IfOk result (λ b.
        b ≡ next_answer (visible (S.shows source.now) (S.instances source.now)) name.now) }
    ensures encodable { IfOk result (λ b. HasRoot name.now → IsEncodableBinding b) }
    ensures work { steps.new ≤ steps.old + most_lookups (S.shows source.now) (S.instances source.now) }
    ensures runs { AreHiddenRuns (S.shows source.now) (S.instances source.now) (S.at source.now)
        (S.is_there source.now) (S.stands source.now) hidden.new.runs.items }
    ensures few { steps.new ≤ steps.old + 1
        + hidden_left (S.shows source.now) (S.instances source.now) hidden.old.runs.items }
    ensures once { IfOk result (λ _. length hidden.old.runs.items < vec_capacity hidden.old.runs →
        steps.new + hidden_left (S.shows source.now) (S.instances source.now) hidden.new.runs.items
        ≤ steps.old + 1
        + hidden_left (S.shows source.now) (S.instances source.now) hidden.old.runs.items) }
    ensures grown { length hidden.new.runs.items ≤ length hidden.old.runs.items + 1 }
    ensures capacity { vec_capacity hidden.new.runs ≡ vec_capacity hidden.old.runs }
    ensures lacks { OnErr result
        (LacksName (S.shows source.now) (S.instances source.now) name.now) }
{
    let mut spot = Spot::new();
    source.known();
    let Some(own) = next_named(alloc, source, name.as_slice(), &mut spot, hidden, steps)? else {
        return Ok(Binding {
            name: copy_of(alloc, name)?,
            value: Value::EndOfMibView,
        });
    };
    let mut binding = Binding {
        name: own,
        value: Value::Null,
    };
    source.value_into(alloc, &spot, &mut binding.value);
    Ok(binding)
}

// How many runs of hidden instances the names of a request may use: one for each but the last.
fn most_runs(names: usize) -> usize
    ensures { result ≡ names - 1 }
{
    names.saturating_sub(1)
}

/// What GetNext answers under each asked name, in order (RFC 3416, 4.2.2).
///
/// Each lookup at the source is a step: there are at most as many as there are names, and as many as the
/// view hides instances. A hidden instance that one name has passed is not passed again.
///
/// # Errors
/// `Shortage::Name` with the number of an asked name for which a name above `INLINE_NUMBERS`, 24,
/// numbers was made; `Shortage::Other` ahead of any lookup, where there is no memory for the list, or for what
/// is kept of the hidden instances that are passed.
pub fn get_next_all<S: Successors<L>, L: Ledger>(
    alloc: Global,
    source: &S,
    asked: &[Binding],
    steps: &mut Steps<L>,
) -> Result<Bindings, Shortage>
    ensures answers { IfOk result (λ answers.
        answers ≡ next_answers (visible (S.shows source.now) (S.instances source.now))
        (names_of asked.now)) }
    ensures work { steps.new ≤ steps.old + length asked.now * most_lookups (S.shows source.now)
        (S.instances source.now) }
    ensures once { steps.new ≤ steps.old + length asked.now
        + hidden_count (S.shows source.now) (S.instances source.now) }
    ensures lacks { IfErr result (IfName
        (LacksNextName (S.shows source.now) (S.instances source.now) (names_of asked.now))) }
    ensures other { result ≡ Err Shortage.Other → steps.new ≡ steps.old }
{
    let mut answers = Vec::with_capacity(alloc, asked.len())?;
    let mut hidden = HiddenRuns::with_capacity(alloc, most_runs(asked.len()))?;
    for (n, binding) in asked.iter().enumerate() {
        let Ok(answer) = get_next_beside(alloc, source, &binding.name, &mut hidden, steps) else {
            return Err(Shortage::Name(n + 1));
        };
        answers.push_reserved(answer);
    }
    Ok(Bindings::from_vec(answers))
}
