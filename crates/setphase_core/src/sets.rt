//! A Set: all variables are tested, then all are committed, and where a device fails the earlier
//! ones are undone (RFC 3416, 4.2.5).
ghost use Rattle.std.specs.Prelude.{◌≡◌, ◌↔◌, ◌+◌, ◌<◌, ◌≤◌, ◌^◌, List, [], ◌∷◌, if◌then◌else◌, not, length, map, min, slice_get, Some, None, IfOk, IfErr, OnErr, IfNone, IfSome, IsSome};
ghost use Rattle.vacm_core.specs.Families.{NamesFamilyOf};
ghost use Rattle.setphase_core.specs.Objects.{object_after_release};
ghost use Rattle.setphase_core.specs.Registry.{rows_of, held_count};
ghost use Rattle.setphase_core.specs.Settings.{setting, HasSetting, same_settings_of, with_settings_of};
ghost use Rattle.setphase_core.specs.Variables.{NamedAssignment as Variable, status_of, refusal_for, single_refusals, writings};
ghost use Rattle.setphase_core.specs.Together.{assign, assignments, is_timer, lacks_row, timer, timers_agree, joint_refusal, refusal_of};
ghost use Rattle.setphase_core.specs.Outcomes.{committed_of, refusal_in, notes_in, changed_in, world_after_set, AreNotes, NamesASetting};
ghost use Rattle.setphase_core.specs.Calls.{calls_of, object_after_set, FollowPlans};
ghost use Rattle.setphase_core.specs.Staging.{assignments_of, static_count, IsDistinct, AreLegal, HasSpaceFor, IsUnderWay};
ghost use Rattle.setphase_core.specs.Tested.{first_in, first_lacking, is_contradicting, inconsistency, AreStaged, ArePassed, AreReady};

use crate::committing::{commit_all, undo_all};
use crate::limits::{FEW_VARIABLES, MAX_VARIABLES};
use crate::object::{MibObject, SetFault};
use crate::registry::Registry;
use crate::staging::{Staged, Staging, Standing, TestedVariable, VariableFault, value_among};
use crate::world::World;
use message_core::{Binding, ErrorStatus};
use rstp_settings::key::{BridgeKey, Key};
use setting_keys::{SettingKey, SettingKeys, SettingValue};
use std::alloc::AllocError;
use vacm_core::{FamilyAnswer, Name};

// Two seconds, in hundredths of a second.
const TWO_SECONDS: u64 = 200;

/// Why a Set is refused.
#[derive(Clone, Copy, Debug, PartialEq, Eq)]
pub struct SetRefusal {
    /// The error-status.
    pub status: ErrorStatus,
    /// The number of the variable, counted from 1.
    pub index: usize,
    /// By which family row its name is not in the view, where the status is noAccess.
    pub family: Option<FamilyAnswer>,
}

/// How a Set ended.
#[derive(Drop)]
pub enum SetOutcome {
    /// All variables have their values.
    Done {
        /// Whether a setting has another value than before.
        changed: bool,
    },
    /// Nothing was changed.
    Refused(SetRefusal),
    /// The commit of the variable of this number, counted from 1, failed, and those committed
    /// before it were undone: nothing is changed (RFC 3416, 4.2.5).
    CommitFailed(usize),
    /// The commit of the variable of this number failed, and so did the undoing of these settings,
    /// which keep their new values; in the order of their variables. A response has index 0 for it
    /// (RFC 3416, 4.2.5).
    UndoFailed(usize, SettingKeys),
}

// The numbers of the first variable that contradicts an earlier one, and of the first that writes a
// timer.
#[derive(Clone, Copy)]
struct Joint {
    contradiction: Option<usize>,
    timer: Option<usize>,
}

// Whether a setting is a timer of the bridge.
fn is_timer(key: SettingKey) -> bool
    ensures { result ≡ is_timer key }
{
    match key {
        SettingKey::Bridge(Key::Bridge(key)) => {
            matches!(
                key,
                BridgeKey::MaxAge | BridgeKey::Hello | BridgeKey::ForwardDelay
            )
        }
        SettingKey::Bridge(Key::Port(..))
        | SettingKey::Made(_)
        | SettingKey::Allowed(_)
        | SettingKey::FamilyMask(_)
        | SettingKey::FamilyType(_) => false,
    }
}

// The number that was found, or else this one, where it counts.
fn first_in(found: Option<usize>, counts: bool, number: usize) -> Option<usize>
    ensures { result ≡ first_in found (if counts then number ∷ [] else []) }
{
    match found {
        Some(found) => Some(found),
        None => counts.then_some(number),
    }
}

// What is noted of one variable more.
fn noted(joint: Joint, number: usize, variable: TestedVariable) -> Joint
    ensures contradiction { result.contradiction ≡ first_in joint.contradiction
        (if is_contradicting variable.standing then number ∷ [] else []) }
    ensures timer { result.timer ≡ first_in joint.timer
        (if is_timer variable.key then number ∷ [] else []) }
{
    Joint {
        contradiction: first_in(
            joint.contradiction,
            variable.standing == Standing::Contradicts,
            number,
        ),
        timer: first_in(joint.timer, is_timer(variable.key), number),
    }
}

impl SetFault {
    /// The error-status of a fault (RFC 3416, section 3).
    pub fn status(self) -> ErrorStatus
        ensures { result ≡ status_of self }
    {
        match self {
            SetFault::NotWritable => ErrorStatus::NotWritable,
            SetFault::WrongType => ErrorStatus::WrongType,
            SetFault::WrongLength => ErrorStatus::WrongLength,
            SetFault::WrongValue => ErrorStatus::WrongValue,
            SetFault::NoCreation => ErrorStatus::NoCreation,
            SetFault::InconsistentName => ErrorStatus::InconsistentName,
            SetFault::InconsistentValue => ErrorStatus::InconsistentValue,
            SetFault::ResourceUnavailable => ErrorStatus::ResourceUnavailable,
        }
    }
}

// The refusal for the fault of the variable of a number.
fn refusal_for(number: usize, fault: VariableFault) -> SetRefusal
    ensures { result ≡ refusal_for number fault }
{
    match fault {
        VariableFault::NoAccess(answer) => SetRefusal {
            status: ErrorStatus::NoAccess,
            index: number,
            family: Some(answer),
        },
        VariableFault::Refused(fault) => SetRefusal {
            status: fault.status(),
            index: number,
            family: None,
        },
    }
}

// Tests all variables by themselves.
fn stage_all<O: MibObject, const PLACES: usize>(
    staging: &mut Staging<'_, O, PLACES>,
    world: &World,
    view: &Name,
    bindings: &[Binding],
) -> Result<Joint, SetRefusal>
    requires places { min (length bindings.now) MAX_VARIABLES ≤ PLACES }
    requires fresh { staging.old.registry.now ≡ map object_after_release staging.old.registry.now }
    requires staged { staging.old.staged.items ≡ [] }
    requires tested { staging.old.tested ≡ 0 }
    requires under_way { IsUnderWay world.now staging.old.registry.now staging.old.staged.items
        staging.old.tested staging.old.committed }
    ensures under_way { IsUnderWay world.now staging.new.registry.now staging.new.staged.items
        staging.new.tested staging.new.committed }
    ensures same_reference { staging.new.registry.ghost_name ≡ staging.old.registry.ghost_name }
    ensures committed { staging.new.committed ≡ staging.old.committed }
    ensures released { map object_after_release staging.new.registry.now
        ≡ map object_after_release staging.old.registry.now }
    ensures refused { IfErr result (λ refusal. Some refusal ≡ slice_get (single_refusals
        (rows_of staging.old.registry.now) world.now view.now 0 [] bindings.now) 0) }
    ensures passed { IfOk result (λ joint. ArePassed (rows_of staging.old.registry.now) world.now
        view.now bindings.now staging.new.staged.items joint.contradiction joint.timer) }
{
    let mut joint = Joint {
        contradiction: None,
        timer: None,
    };
    for (i, binding) in bindings.iter().enumerate() {
        match staging.stage(world, view, binding) {
            Ok(variable) => joint = noted(joint, i + 1, variable),
            Err(fault) => return Err(refusal_for(i + 1, fault)),
        }
    }
    Ok(joint)
}

// The value of a setting once all that is staged is assigned.
fn value_after(world: &World, staged: &[Staged], key: SettingKey) -> SettingValue
    requires has { HasSetting world.now key }
    requires distinct { IsDistinct (assignments_of staged.now) }
    requires legal { AreLegal world.now (assignments_of staged.now) }
    ensures { result ≡ setting (assign (assignments_of staged.now) world.now) key }
{
    match value_among(staged, key) {
        Some(value) => value,
        None => world.get_setting(key),
    }
}

// A timer of the bridge once all that is staged is assigned, in hundredths of a second.
fn timer_after(world: &World, staged: &[Staged], key: BridgeKey) -> u64
    requires distinct { IsDistinct (assignments_of staged.now) }
    requires legal { AreLegal world.now (assignments_of staged.now) }
    ensures value { result ≡ timer (assign (assignments_of staged.now) world.now) key }
    ensures most { result < 2 ^ 32 }
{
    match value_after(world, staged, SettingKey::Bridge(Key::Bridge(key))) {
        SettingValue::Number(number) => u64::from(number),
        SettingValue::Ports(_) | SettingValue::Mask(_) => unreachable!(),
    }
}

// Whether the timers agree once all that is staged is assigned (IEEE 802.1D-2004 17.14).
fn timers_agree(world: &World, staged: &[Staged]) -> bool
    requires distinct { IsDistinct (assignments_of staged.now) }
    requires legal { AreLegal world.now (assignments_of staged.now) }
    ensures { result ≡ timers_agree (assign (assignments_of staged.now) world.now) }
{
    let max_age = timer_after(world, staged, BridgeKey::MaxAge);
    let hello = timer_after(world, staged, BridgeKey::Hello);
    let forward_delay = timer_after(world, staged, BridgeKey::ForwardDelay);
    max_age + TWO_SECONDS <= 2 * forward_delay && 2 * hello + TWO_SECONDS <= max_age
}

// Whether a setting is the allowed ports of a static row that is not there once all that is staged
// is assigned (RFC 4188, dot1dStaticAllowedToGoTo).
#[tactic(auto, using(crate::proofs::Equal::value_equal))]
fn lacks_row(world: &World, staged: &[Staged], key: SettingKey) -> bool
    requires has { HasSetting world.now key }
    requires distinct { IsDistinct (assignments_of staged.now) }
    requires legal { AreLegal world.now (assignments_of staged.now) }
    ensures { result ≡ lacks_row (assign (assignments_of staged.now) world.now) key }
{
    match key {
        SettingKey::Allowed(index) => {
            let made = value_after(world, staged, SettingKey::Made(index));
            made == SettingValue::Number(0)
        }
        SettingKey::Bridge(_)
        | SettingKey::Made(_)
        | SettingKey::FamilyMask(_)
        | SettingKey::FamilyType(_) => false,
    }
}

// The number of the first entry that writes the ports of a static row that is not there once all
// that is staged is assigned.
fn first_lacking(world: &World, staged: &[Staged]) -> Option<usize>
    requires distinct { IsDistinct (assignments_of staged.now) }
    requires legal { AreLegal world.now (assignments_of staged.now) }
    ensures { result
        ≡ first_lacking (assign (assignments_of staged.now) world.now) staged.now }
{
    for entry in staged {
        if lacks_row(world, staged, entry.slot.key) {
            return Some(entry.number);
        }
    }
    None
}

// The refusal for a variable that does not go together with the others.
fn joint_refusal(status: ErrorStatus, number: usize) -> SetRefusal
    ensures { result ≡ joint_refusal status number }
{
    SetRefusal {
        status,
        index: number,
        family: None,
    }
}

// Why the variables do not go together, where they do not.
fn inconsistency(world: &World, staged: &[Staged], joint: Joint) -> Option<SetRefusal>
    requires distinct { IsDistinct (assignments_of staged.now) }
    requires legal { AreLegal world.now (assignments_of staged.now) }
    ensures { result ≡ inconsistency joint.contradiction
        (first_lacking (assign (assignments_of staged.now) world.now) staged.now)
        (timers_agree (assign (assignments_of staged.now) world.now)) joint.timer }
{
    if let Some(number) = joint.contradiction {
        return Some(joint_refusal(ErrorStatus::InconsistentValue, number));
    }
    match first_lacking(world, staged) {
        Some(number) => Some(joint_refusal(ErrorStatus::InconsistentName, number)),
        None if timers_agree(world, staged) => None,
        None => match joint.timer {
            Some(number) => Some(joint_refusal(ErrorStatus::InconsistentValue, number)),
            None => None,
        },
    }
}

// Tests a Set: why it is refused, or nothing.
fn refused<O: MibObject, const PLACES: usize>(
    staging: &mut Staging<'_, O, PLACES>,
    world: &World,
    view: &Name,
    bindings: &[Binding],
) -> Option<SetRefusal>
    requires places { min (length bindings.now) MAX_VARIABLES ≤ PLACES }
    requires fresh { staging.old.registry.now ≡ map object_after_release staging.old.registry.now }
    requires staged { staging.old.staged.items ≡ [] }
    requires tested { staging.old.tested ≡ 0 }
    requires under_way { IsUnderWay world.now staging.old.registry.now staging.old.staged.items
        staging.old.tested staging.old.committed }
    ensures under_way { IsUnderWay world.now staging.new.registry.now staging.new.staged.items
        staging.new.tested staging.new.committed }
    ensures same_reference { staging.new.registry.ghost_name ≡ staging.old.registry.ghost_name }
    ensures committed { staging.new.committed ≡ staging.old.committed }
    ensures released { map object_after_release staging.new.registry.now
        ≡ map object_after_release staging.old.registry.now }
    ensures refusal { result ≡ refusal_of (rows_of staging.old.registry.now) world.now view.now
        bindings.now }
    ensures ready { IfNone result (AreReady (rows_of staging.old.registry.now) world.now
        bindings.now staging.new.staged.items) }
{
    match stage_all(staging, world, view, bindings) {
        Err(refusal) => Some(refusal),
        Ok(joint) => inconsistency(world, staging.staged.as_slice(), joint),
    }
}

// Whether a setting gets another value than it has from what is staged.
fn changes(world: &World, staged: &[Staged]) -> bool
    requires distinct { IsDistinct (assignments_of staged.now) }
    requires legal { AreLegal world.now (assignments_of staged.now) }
    ensures { result ≡ not (same_settings_of world.now
        (assign (assignments_of staged.now) world.now)) }
{
    for entry in staged {
        if world.get_setting(entry.slot.key) != entry.slot.value {
            return true;
        }
    }
    false
}

// How many of the staged slots give a setting of a static row a value.
fn count_static(staged: &[Staged]) -> usize
    ensures count { result ≡ static_count (assignments_of staged.now) }
    ensures most { result ≤ length staged.now }
{
    let Some((first, others)) = staged.split_first() else {
        return 0;
    };
    match first.slot.key {
        SettingKey::Bridge(_) | SettingKey::FamilyMask(_) | SettingKey::FamilyType(_) => {
            count_static(others)
        }
        SettingKey::Made(_) | SettingKey::Allowed(_) => 1 + count_static(others),
    }
}

// Commits all that is staged; where a commit fails, undoes those before it. Whether a setting gets
// another value from what is staged is stated ahead.
fn commit_staged<O: MibObject, const PLACES: usize>(
    staging: &mut Staging<'_, O, PLACES>,
    world: &mut World,
    changed: bool,
) -> SetOutcome
    requires most { PLACES ≤ MAX_VARIABLES }
    requires none { staging.old.committed ≡ 0 }
    requires under_way { IsUnderWay world.old staging.old.registry.now staging.old.staged.items
        staging.old.tested staging.old.committed }
    requires distinct { IsDistinct (assignments_of staging.old.staged.items) }
    requires space { HasSpaceFor world.old (assignments_of staging.old.staged.items) }
    requires changed { changed ≡ not (same_settings_of world.old
        (assign (assignments_of staging.old.staged.items) world.old)) }
    ensures same_reference { staging.new.registry.ghost_name ≡ staging.old.registry.ghost_name }
    ensures accepted { refusal_in result ≡ None }
    ensures undos { NamesASetting result }
    ensures changed { IfSome (changed_in result)
        (λ changed. changed ≡ not (same_settings_of world.old world.new)) }
    ensures places { world.new.bridge.statics.places ≡ world.old.bridge.statics.places }
    ensures notes { (ws : List Variable)
        → AreStaged (rows_of staging.old.registry.now) ws staging.old.staged.items
        → AreNotes ws (notes_in result) }
    ensures world { (ws : List Variable)
        → AreStaged (rows_of staging.old.registry.now) ws staging.old.staged.items
        → assign (assignments ws) world.old
        ≡ assign (assignments_of staging.old.staged.items) world.old
        → world.new ≡ world_after_set None ws world.old (notes_in result) }
    ensures objects { (ws : List Variable)
        → AreStaged (rows_of staging.old.registry.now) ws staging.old.staged.items
        → map object_after_release staging.new.registry.now
        ≡ map (object_after_set (calls_of None ws (notes_in result))) staging.old.registry.now }
    ensures by_plan { (ws : List Variable)
        → AreStaged (rows_of staging.old.registry.now) ws staging.old.staged.items
        → FollowPlans (calls_of None ws (notes_in result)) staging.old.registry.now }
{
    let Some(failed) = commit_all(staging, world) else {
        return SetOutcome::Done { changed };
    };
    let number = staging.staged.as_slice()[failed].number;
    let keys = undo_all(staging, world);
    if keys.is_empty() {
        SetOutcome::CommitFailed(number)
    } else {
        SetOutcome::UndoFailed(number, keys)
    }
}

// Commits all that is staged, which goes together, once there is memory for the static rows that it
// may bring in.
fn commit_reserved<O: MibObject, const PLACES: usize>(
    staging: &mut Staging<'_, O, PLACES>,
    world: &mut World,
) -> Result<SetOutcome, AllocError>
    requires most { PLACES ≤ MAX_VARIABLES }
    requires none { staging.old.committed ≡ 0 }
    requires under_way { IsUnderWay world.old staging.old.registry.now staging.old.staged.items
        staging.old.tested staging.old.committed }
    requires distinct { IsDistinct (assignments_of staging.old.staged.items) }
    requires legal { AreLegal world.old (assignments_of staging.old.staged.items) }
    ensures same_reference { staging.new.registry.ghost_name ≡ staging.old.registry.ghost_name }
    ensures accepted { IfOk result (λ outcome. refusal_in outcome ≡ None) }
    ensures undos { IfOk result NamesASetting }
    ensures changed { IfOk result (λ outcome. IfSome (changed_in outcome)
        (λ changed. changed ≡ not (same_settings_of world.old world.new))) }
    ensures notes { IfOk result (λ outcome. (ws : List Variable)
        → AreStaged (rows_of staging.old.registry.now) ws staging.old.staged.items
        → AreNotes ws (notes_in outcome)) }
    ensures world { IfOk result (λ outcome. (ws : List Variable)
        → AreStaged (rows_of staging.old.registry.now) ws staging.old.staged.items
        → assign (assignments ws) world.old
        ≡ assign (assignments_of staging.old.staged.items) world.old
        → world.new ≡ world_after_set None ws world.old (notes_in outcome)) }
    ensures objects { IfOk result (λ outcome. (ws : List Variable)
        → AreStaged (rows_of staging.old.registry.now) ws staging.old.staged.items
        → map object_after_release staging.new.registry.now
        ≡ map (object_after_set (calls_of None ws (notes_in outcome))) staging.old.registry.now) }
    ensures by_plan { IfOk result (λ outcome. (ws : List Variable)
        → AreStaged (rows_of staging.old.registry.now) ws staging.old.staged.items
        → FollowPlans (calls_of None ws (notes_in outcome)) staging.old.registry.now) }
    ensures writes_static { OnErr result (0 < static_count (assignments_of staging.old.staged.items)) }
    ensures lacks { OnErr result (world.old.bridge.statics.places
        < length world.old.bridge.statics.rows
        + static_count (assignments_of staging.old.staged.items)) }
    ensures unchanged { OnErr result (world.new ≡ world.old) }
    ensures uncalled { OnErr result (staging.new.registry.now ≡ staging.old.registry.now) }
{
    let staged = staging.staged.as_slice();
    let changed = changes(world, staged);
    let places = world.bridge.static_places();
    world.bridge.reserve_static(count_static(staged))?;
    let outcome = commit_staged(staging, world, changed);
    world.bridge.hold_static(places);
    Ok(outcome)
}

// Makes the Set that a staging is for.
fn run_staged<O: MibObject, const PLACES: usize>(
    staging: &mut Staging<'_, O, PLACES>,
    world: &mut World,
    view: &Name,
    bindings: &[Binding],
) -> Result<SetOutcome, AllocError>
    requires most { PLACES ≤ MAX_VARIABLES }
    requires places { min (length bindings.now) MAX_VARIABLES ≤ PLACES }
    requires fresh { staging.old.registry.now ≡ map object_after_release staging.old.registry.now }
    requires staged { staging.old.staged.items ≡ [] }
    requires tested { staging.old.tested ≡ 0 }
    requires committed { staging.old.committed ≡ 0 }
    requires under_way { IsUnderWay world.old staging.old.registry.now staging.old.staged.items
        staging.old.tested staging.old.committed }
    ensures same_reference { staging.new.registry.ghost_name ≡ staging.old.registry.ghost_name }
    ensures refusal { IfOk result (λ outcome. refusal_in outcome
        ≡ refusal_of (rows_of staging.old.registry.now) world.old view.now bindings.now) }
    ensures notes { IfOk result (λ outcome. AreNotes
        (writings (rows_of staging.old.registry.now) world.old bindings.now) (notes_in outcome)) }
    ensures undos { IfOk result NamesASetting }
    ensures changed { IfOk result (λ outcome. IfSome (changed_in outcome)
        (λ changed. changed ≡ not (same_settings_of world.old world.new))) }
    ensures world { IfOk result (λ outcome. world.new ≡ world_after_set (refusal_in outcome)
        (writings (rows_of staging.old.registry.now) world.old bindings.now) world.old
        (notes_in outcome)) }
    ensures objects { IfOk result (λ outcome. map object_after_release staging.new.registry.now
        ≡ map (object_after_set (calls_of (refusal_in outcome)
        (writings (rows_of staging.old.registry.now) world.old bindings.now) (notes_in outcome)))
        staging.old.registry.now) }
    ensures by_plan { IfOk result (λ outcome. FollowPlans (calls_of (refusal_in outcome)
        (writings (rows_of staging.old.registry.now) world.old bindings.now) (notes_in outcome))
        staging.old.registry.now) }
    ensures accepted { OnErr result (refusal_of (rows_of staging.old.registry.now) world.old
        view.now bindings.now ≡ None) }
    ensures writes_static { OnErr result (0 < static_count (assignments
        (writings (rows_of staging.old.registry.now) world.old bindings.now))) }
    ensures lacks { OnErr result (world.old.bridge.statics.places
        < length world.old.bridge.statics.rows + static_count (assignments (committed_of
        (writings (rows_of staging.old.registry.now) world.old bindings.now)))) }
    ensures unchanged { OnErr result (world.new ≡ world.old) }
    ensures uncalled { OnErr result (map object_after_release staging.new.registry.now
        ≡ map object_after_release staging.old.registry.now) }
{
    match refused(staging, world, view, bindings) {
        Some(refusal) => Ok(SetOutcome::Refused(refusal)),
        None => commit_reserved(staging, world),
    }
}

// The same as `run_set`, with a place for each of the variables that it may stage.
fn run_with<O: MibObject, const PLACES: usize>(
    registry: &mut Registry<O>,
    world: &mut World,
    bindings: &[Binding],
    view: &Name,
) -> Result<SetOutcome, AllocError>
    requires most { PLACES ≤ MAX_VARIABLES }
    requires places { min (length bindings.now) MAX_VARIABLES ≤ PLACES }
    ensures refusal { IfOk result (λ outcome. refusal_in outcome
        ≡ refusal_of (rows_of registry.old) world.old view.now bindings.now) }
    ensures notes { IfOk result (λ outcome. AreNotes
        (writings (rows_of registry.old) world.old bindings.now) (notes_in outcome)) }
    ensures undos { IfOk result NamesASetting }
    ensures changed { IfOk result (λ outcome. IfSome (changed_in outcome)
        (λ changed. changed ≡ not (same_settings_of world.old world.new))) }
    ensures world { IfOk result (λ outcome. world.new ≡ world_after_set (refusal_in outcome)
        (writings (rows_of registry.old) world.old bindings.now) world.old (notes_in outcome)) }
    ensures objects { IfOk result (λ outcome. registry.new
        ≡ map (object_after_set (calls_of (refusal_in outcome)
        (writings (rows_of registry.old) world.old bindings.now) (notes_in outcome)))
        registry.old) }
    ensures by_plan { IfOk result (λ outcome. FollowPlans (calls_of (refusal_in outcome)
        (writings (rows_of registry.old) world.old bindings.now) (notes_in outcome))
        registry.old) }
    ensures refused_index { IfOk result (λ outcome. IfSome (refusal_in outcome)
        (λ r. (1 ≤ r.index) × (r.index ≤ length bindings.now))) }
    ensures failed_index { IfOk result (λ outcome. IfSome (notes_in outcome).commit
        (λ i. (1 ≤ i) × (i ≤ length bindings.now))) }
    ensures family { IfOk result (λ outcome. IfSome (refusal_in outcome) (λ r. IfSome r.family
        (λ answer. NamesFamilyOf world.old.policy.vacm.families answer))) }
    ensures no_access { IfOk result (λ outcome. IfSome (refusal_in outcome)
        (λ r. (r.status ≡ ErrorStatus.NoAccess) ↔ IsSome r.family)) }
    ensures settings { world.new ≡ with_settings_of world.new world.old }
    ensures rows { rows_of registry.new ≡ rows_of registry.old }
    ensures held { held_count registry.new ≡ 0 }
    ensures accepted { OnErr result
        (refusal_of (rows_of registry.old) world.old view.now bindings.now ≡ None) }
    ensures writes_static { OnErr result (0 < static_count (assignments
        (writings (rows_of registry.old) world.old bindings.now))) }
    ensures lacks { OnErr result (world.old.bridge.statics.places
        < length world.old.bridge.statics.rows + static_count (assignments (committed_of
        (writings (rows_of registry.old) world.old bindings.now)))) }
    ensures unchanged { OnErr result (world.new ≡ world.old) }
    ensures uncalled { OnErr result (registry.new ≡ map object_after_release registry.old) }
{
    let mut staging: Staging<'_, O, PLACES> = Staging::with_places(registry);
    run_staged(&mut staging, world, view, bindings)
}

/// Sets all variables in a view, or none but those that could not be undone. Changed settings of the
/// bridge are not in force yet: `Bridge::settle` follows. Masks and types of families are in force at
/// once. No object holds a reservation afterwards, and
/// the bridge is sure of memory for as many static rows as before.
///
/// # Errors
///
/// `AllocError` where there is no memory for the static rows that the Set may bring in, one for each
/// setting of a static row that it writes, also where it removes the row: it is not refused, it
/// writes such a setting, and the bridge was not sure of that memory before. Nothing is changed
/// then, and no device was called. It is the only memory that a Set takes, and is taken before the
/// first commit.
// A call of its own in the program: what answers a Get keeps none of its locals.
#[inline(never)]
pub fn run_set<O: MibObject>(
    registry: &mut Registry<O>,
    world: &mut World,
    bindings: &[Binding],
    view: &Name,
) -> Result<SetOutcome, AllocError>
    ensures refusal { IfOk result (λ outcome. refusal_in outcome
        ≡ refusal_of (rows_of registry.old) world.old view.now bindings.now) }
    ensures notes { IfOk result (λ outcome. AreNotes
        (writings (rows_of registry.old) world.old bindings.now) (notes_in outcome)) }
    ensures undos { IfOk result NamesASetting }
    ensures changed { IfOk result (λ outcome. IfSome (changed_in outcome)
        (λ changed. changed ≡ not (same_settings_of world.old world.new))) }
    ensures world { IfOk result (λ outcome. world.new ≡ world_after_set (refusal_in outcome)
        (writings (rows_of registry.old) world.old bindings.now) world.old (notes_in outcome)) }
    ensures objects { IfOk result (λ outcome. registry.new
        ≡ map (object_after_set (calls_of (refusal_in outcome)
        (writings (rows_of registry.old) world.old bindings.now) (notes_in outcome)))
        registry.old) }
    ensures by_plan { IfOk result (λ outcome. FollowPlans (calls_of (refusal_in outcome)
        (writings (rows_of registry.old) world.old bindings.now) (notes_in outcome))
        registry.old) }
    ensures refused_index { IfOk result (λ outcome. IfSome (refusal_in outcome)
        (λ r. (1 ≤ r.index) × (r.index ≤ length bindings.now))) }
    ensures failed_index { IfOk result (λ outcome. IfSome (notes_in outcome).commit
        (λ i. (1 ≤ i) × (i ≤ length bindings.now))) }
    ensures family { IfOk result (λ outcome. IfSome (refusal_in outcome) (λ r. IfSome r.family
        (λ answer. NamesFamilyOf world.old.policy.vacm.families answer))) }
    ensures no_access { IfOk result (λ outcome. IfSome (refusal_in outcome)
        (λ r. (r.status ≡ ErrorStatus.NoAccess) ↔ IsSome r.family)) }
    ensures settings { world.new ≡ with_settings_of world.new world.old }
    ensures rows { rows_of registry.new ≡ rows_of registry.old }
    ensures held { held_count registry.new ≡ 0 }
    ensures accepted { OnErr result
        (refusal_of (rows_of registry.old) world.old view.now bindings.now ≡ None) }
    ensures writes_static { OnErr result (0 < static_count (assignments
        (writings (rows_of registry.old) world.old bindings.now))) }
    ensures lacks { OnErr result (world.old.bridge.statics.places
        < length world.old.bridge.statics.rows + static_count (assignments (committed_of
        (writings (rows_of registry.old) world.old bindings.now)))) }
    ensures unchanged { OnErr result (world.new ≡ world.old) }
    ensures uncalled { OnErr result (registry.new ≡ map object_after_release registry.old) }
{
    if bindings.len() <= FEW_VARIABLES {
        run_with::<O, FEW_VARIABLES>(registry, world, bindings, view)
    } else {
        run_with::<O, MAX_VARIABLES>(registry, world, bindings, view)
    }
}
