//! The next instance that a view shows.
ghost use Rattle.std.specs.Prelude.{◌≡◌, ◌≤◌, ◌<◌, ◌+◌, if◌then◌else◌, Some, None, IfOk, IfSome, IsSome, OnErr, IsTrue, length, option_map, vec_capacity};
ghost use Rattle.oid_core.specs.declared.limits.TheConstants.{INLINE_NUMBERS};
ghost use Rattle.message_core.specs.Instances.{next_of};
ghost use Rattle.agent_core.specs.Reading.{visible};
ghost use Rattle.agent_core.specs.Lookups.{most_lookups, PassesLong};
ghost use Rattle.agent_core.specs.Hidden.{AreHiddenRuns, hidden_left};

use crate::hidden::{HiddenRuns, pass_hidden};
use crate::source::{Stand, Successors};
use oid_core::Oid;
use setphase_core::Spot;
use std::alloc::{AllocError, Global};
use std::sync::ledger::Ledger;
use steps::Steps;

// Whether the view shows the instance at a spot, at whose name a walk stands. The walk keeps what it
// learns of the view: the instance's name is made only where the view has to be asked.
pub(crate) fn is_shown_there<S: Successors<L>, L: Ledger>(
    alloc: Global,
    source: &S,
    spot: &Spot,
    stand: &mut Stand,
) -> Result<bool, AllocError>
    requires there { S.is_there source.now spot.now }
    requires stands { S.stands source.now stand.old (S.at source.now spot.now).name }
    ensures shown { IfOk result (λ shown.
        shown ≡ S.shows source.now (S.at source.now spot.now).name) }
    ensures stands { S.stands source.now stand.new (S.at source.now spot.now).name }
    ensures long { OnErr result (INLINE_NUMBERS < length (S.at source.now spot.now).name) }
{
    if source.is_known_shown(stand) {
        return Ok(true);
    }
    let name = source.name(alloc, spot)?;
    Ok(source.is_shown(&name, stand))
}

/// Writes where the first instance after a name stands that the view shows, and says whether there is
/// one (RFC 3416, 4.2.2). Each lookup at the source is a step: there are at most as many as the view
/// hides instances, and one more; those in the runs that are lent are not passed again, and what is passed
/// is kept as a run, as far as there is memory for it. Where an instance is found, the walk then stands at
/// its name; where none is, the spot may be any. Only memory can fail, and only for the name of an instance
/// that the walk passes or ends at.
pub fn next_shown<S: Successors<L>, L: Ledger>(
    alloc: Global,
    source: &S,
    name: &[u32],
    stand: &mut Stand,
    spot: &mut Spot,
    hidden: &mut HiddenRuns,
    steps: &mut Steps<L>,
) -> Result<bool, AllocError>
    requires stands { S.stands source.now stand.old name.now }
    requires runs { AreHiddenRuns (S.shows source.now) (S.instances source.now) (S.at source.now)
        (S.is_there source.now) (S.stands source.now) hidden.old.runs.items }
    ensures found { IfOk result (λ found. (if found then Some (S.at source.now spot.new) else None)
        ≡ next_of (visible (S.shows source.now) (S.instances source.now)) name.now) }
    ensures there { IfOk result (λ found. IsTrue found → S.is_there source.now spot.new) }
    ensures stands { IfOk result (λ found. IsTrue found →
        S.stands source.now stand.new (S.at source.now spot.new).name) }
    ensures work { steps.new ≤ steps.old + most_lookups (S.shows source.now) (S.instances source.now) }
    ensures runs { AreHiddenRuns (S.shows source.now) (S.instances source.now) (S.at source.now)
        (S.is_there source.now) (S.stands source.now) hidden.new.runs.items }
    ensures few { steps.new ≤ steps.old + 1
        + hidden_left (S.shows source.now) (S.instances source.now) hidden.old.runs.items }
    ensures once { IfOk result (λ _. length hidden.old.runs.items < vec_capacity hidden.old.runs →
        steps.new + hidden_left (S.shows source.now) (S.instances source.now) hidden.new.runs.items
        ≤ steps.old + 1
        + hidden_left (S.shows source.now) (S.instances source.now) hidden.old.runs.items) }
    ensures grown { length hidden.new.runs.items ≤ length hidden.old.runs.items + 1 }
    ensures capacity { vec_capacity hidden.new.runs ≡ vec_capacity hidden.old.runs }
    ensures lacks { OnErr result
        (PassesLong (S.shows source.now) (S.instances source.now) name.now) }
{
    source.known();
    if !source.next(name, stand, spot, steps) {
        return Ok(false);
    }
    if is_shown_there(alloc, source, spot, stand)? {
        return Ok(true);
    }
    pass_hidden(alloc, source, stand, spot, hidden, steps)
}

/// The name of the first instance after a name that the view shows, where there is one (RFC 3416, 4.2.2);
/// where it stands is written in the spot that is lent. Where there is none, the spot may be any. Each
/// lookup at the source is a step: there are at most as many as the view hides instances, and one more;
/// those in the runs that are lent are not passed again, and what is passed is kept as a run, as far as there
/// is memory for it. Only memory can fail, and only for the name of an instance that the walk passes or ends
/// at.
pub fn next_named<S: Successors<L>, L: Ledger>(
    alloc: Global,
    source: &S,
    name: &[u32],
    spot: &mut Spot,
    hidden: &mut HiddenRuns,
    steps: &mut Steps<L>,
) -> Result<Option<Oid>, AllocError>
    requires { AreHiddenRuns (S.shows source.now) (S.instances source.now) (S.at source.now)
        (S.is_there source.now) (S.stands source.now) hidden.old.runs.items }
    ensures found { IfOk result (λ own. next_of (visible (S.shows source.now) (S.instances source.now)) name.now
        ≡ option_map (λ _. S.at source.now spot.new) own) }
    ensures name { IfOk result (λ own. IfSome own (λ n. n ≡ (S.at source.now spot.new).name)) }
    ensures there { IfOk result (λ own. IsSome own → S.is_there source.now spot.new) }
    ensures work { steps.new ≤ steps.old + most_lookups (S.shows source.now) (S.instances source.now) }
    ensures runs { AreHiddenRuns (S.shows source.now) (S.instances source.now) (S.at source.now)
        (S.is_there source.now) (S.stands source.now) hidden.new.runs.items }
    ensures few { steps.new ≤ steps.old + 1
        + hidden_left (S.shows source.now) (S.instances source.now) hidden.old.runs.items }
    ensures once { IfOk result (λ _. length hidden.old.runs.items < vec_capacity hidden.old.runs →
        steps.new + hidden_left (S.shows source.now) (S.instances source.now) hidden.new.runs.items
        ≤ steps.old + 1
        + hidden_left (S.shows source.now) (S.instances source.now) hidden.old.runs.items) }
    ensures grown { length hidden.new.runs.items ≤ length hidden.old.runs.items + 1 }
    ensures capacity { vec_capacity hidden.new.runs ≡ vec_capacity hidden.old.runs }
    ensures lacks { OnErr result
        (PassesLong (S.shows source.now) (S.instances source.now) name.now) }
{
    source.known();
    let mut stand = source.start(name);
    if !source.next(name, &mut stand, spot, steps) {
        return Ok(None);
    }
    let own = source.name(alloc, spot)?;
    if source.has_name(&own) {
        return Ok(Some(own));
    }
    if !pass_hidden(alloc, source, &mut stand, spot, hidden, steps)? {
        return Ok(None);
    }
    Ok(Some(source.name(alloc, spot)?))
}
