//! Answers a Set that is authorized for a view (RFC 3416, 4.2.5).
ghost use Rattle.std.specs.Prelude.{◌≡◌, ◌≤◌, ◌<◌, ◌^◌, [], true, not, None, IfOk, IfSome, OnErr, unwrap_or, length, map, pos};
ghost use Rattle.message_core.specs.Encodable.{AreEncodable};
ghost use Rattle.message_core.specs.declared.limits.TheConstants.{MAX_COMMUNITY};
ghost use Rattle.vacm_core.specs.Families.{NamesFamilyOf};
ghost use Rattle.setphase_core.specs.Objects.{object_after_release};
ghost use Rattle.setphase_core.specs.Registry.{rows_of};
ghost use Rattle.setphase_core.specs.Outcomes.{refusal_in, notes_in, changed_in, NamesASetting};
ghost use Rattle.setphase_core.specs.Settings.{same_settings};
ghost use Rattle.setphase_core.specs.Calls.{FollowPlans};
ghost use Rattle.agent_core.specs.Sets.{greatest_index, set_step, set_calls, settled, settled_bpdus, IsDenied, TakesInSet, IsReportedOf, MayFailInSet};
ghost use Rattle.agent_core.specs.Answers.{IsDone, notes_reported, unnamed_reported, writing_step};

use crate::answered::Answered;
use crate::buffer::Buffer;
use crate::denying::denied_variable;
use crate::sent_reply::SentReply;
use audit_core::{Audit, DeniedBindings, UnrestoredSpace};
use decision::{AccessKey, Decision};
use message_core::{ErrorStatus, Request};
use rstp_settings::settings::Settings;
use setphase_core::{MibObject, Registry, SetOutcome, SetRefusal, World, run_set};
use setting_keys::SettingKeys;
use std::alloc::{AllocError, Global};
use vacm_core::{Name, Vacm};

// What is reported of a Set, and which commit failed.
#[derive(Drop)]
struct SetReported {
    status: ErrorStatus,
    index: i32,
    denied: DeniedBindings,
    failed: Option<usize>,
    unrestored: SettingKeys,
}

// What is reported of a Set of which no variable is denied.
fn plain_answer(
    alloc: Global,
    status: ErrorStatus,
    index: i32,
    failed: Option<usize>,
    unrestored: SettingKeys,
) -> SetReported
    ensures { result ≡ record {
      status = status;
      index = index;
      denied = [];
      failed = failed;
      unrestored = unrestored;
    } }
{
    SetReported {
        status,
        index,
        denied: DeniedBindings::new(alloc),
        failed,
        unrestored,
    }
}

// What is reported of a Set that is refused.
fn refusal_answer(
    alloc: Global,
    vacm: &Vacm,
    refusal: SetRefusal,
) -> Result<SetReported, AllocError>
    requires index { refusal.index ≤ greatest_index }
    requires family { IfSome refusal.family (λ answer. NamesFamilyOf vacm.now.families answer) }
    ensures reported { IfOk result (λ answer.
        IsReportedOf vacm.now.families (SetOutcome.Refused refusal) answer) }
    ensures takes { OnErr result (IsDenied (Some refusal)) }
{
    let denied = denied_variable(alloc, vacm, refusal.index, refusal.family)?;
    Ok(SetReported {
        status: refusal.status,
        index: refusal.index as i32,
        denied,
        failed: None,
        unrestored: SettingKeys::new(),
    })
}

// What is reported of a Set that ended so. Only memory can fail, and only where a variable is denied.
fn set_answer(alloc: Global, vacm: &Vacm, outcome: SetOutcome) -> Result<SetReported, AllocError>
    requires refused { IfSome (refusal_in outcome) (λ refusal. refusal.index ≤ greatest_index) }
    requires failed { IfSome (notes_in outcome).commit (λ number. number ≤ greatest_index) }
    requires family { IfSome (refusal_in outcome) (λ refusal.
        IfSome refusal.family (λ answer. NamesFamilyOf vacm.now.families answer)) }
    requires undos { NamesASetting outcome }
    ensures reported { IfOk result (λ answer. IsReportedOf vacm.now.families outcome answer) }
    ensures takes { OnErr result (IsDenied (refusal_in outcome)) }
{
    let none = SettingKeys::new();
    match outcome {
        SetOutcome::Done { changed: _ } => Ok(plain_answer(
            alloc,
            ErrorStatus::NoError,
            0,
            None,
            none,
        )),
        SetOutcome::Refused(refusal) => refusal_answer(alloc, vacm, refusal),
        SetOutcome::CommitFailed(number) => Ok(plain_answer(
            alloc,
            ErrorStatus::CommitFailed,
            number as i32,
            Some(number),
            none,
        )),
        SetOutcome::UndoFailed(number, keys) => Ok(plain_answer(
            alloc,
            ErrorStatus::UndoFailed,
            0,
            Some(number),
            keys,
        )),
    }
}

// Whether a Set that ended so changed a setting: where undoing failed, by the settings of before,
// since only those of the bridge can stay.
#[tactic(auto, using(crate::proofs::Changed::same_is))]
fn changed(outcome: &SetOutcome, before: &Settings, world: &World) -> bool
    ensures { result ≡ unwrap_or (changed_in outcome.now)
        (not (same_settings before.now world.now.bridge.settings)) }
{
    match outcome {
        SetOutcome::Done { changed } => *changed,
        SetOutcome::Refused(_) | SetOutcome::CommitFailed(_) => false,
        SetOutcome::UndoFailed(..) => !world.bridge.has_settings(before),
    }
}

// Settles settings where one changed, and keeps what the ports send.
fn settle(changed: bool, world: &mut World, buffer: &mut Buffer)
    requires { buffer.old.bpdus ≡ [] }
    ensures world { world.new ≡ settled changed world.old }
    ensures bpdus { buffer.new.bpdus ≡ settled_bpdus changed world.old }
    ensures reply { buffer.new.reply ≡ buffer.old.reply }
{
    if changed {
        let bpdus = world.bridge.settle();
        buffer.send(bpdus);
    }
}

// What a Set is answered whose reply stands in the buffer.
fn reported(
    request: &Request,
    row: AccessKey,
    view: Name,
    answer: SetReported,
    sent: SentReply,
    space: UnrestoredSpace,
) -> Answered
    requires { space ≡ true }
    ensures { result ≡ Answered.Reply sent.length (record {
      kind = request.now.kind;
      status = sent.status;
      index = sent.index;
      decision = Decision.Allowed row view;
      denied = answer.denied;
      unrestored = answer.unrestored;
    }) answer.failed }
{
    let SetReported {
        status: _,
        index: _,
        denied,
        failed,
        unrestored,
    } = answer;
    Answered::Reply(
        sent.length,
        Audit {
            kind: request.kind,
            status: sent.status,
            index: sent.index,
            decision: Decision::Allowed { row, view },
            denied,
            unrestored: space.filled(unrestored),
        },
        failed,
    )
}

/// Answers a Set that this row authorizes for this view: tested, committed whole or not at all but for
/// what could not be undone, and settled once where a setting differs from before.
///
/// # Errors
/// Only memory can fail, for the audit of a variable that is not in the view, or for the static rows
/// that the Set may bring in: nothing is changed.
pub(crate) fn answer_set<O: MibObject>(
    alloc: Global,
    registry: &mut Registry<O>,
    world: &mut World,
    request: &Request,
    row: AccessKey,
    view: Name,
    buffer: &mut Buffer,
    space: UnrestoredSpace,
) -> Result<Answered, AllocError>
    requires space { space ≡ true }
    requires community { length request.now.community ≤ MAX_COMMUNITY }
    requires encodable { AreEncodable request.now.bindings }
    requires silent { buffer.old.bpdus ≡ [] }
    ensures may { IfOk result (λ reported. MayFailInSet (rows_of registry.old) world.old view
        request.now (notes_reported reported)) }
    ensures by_plan { IfOk result (λ reported. FollowPlans (set_calls (rows_of registry.old) world.old
        view request.now (notes_reported reported)) registry.old) }
    ensures done { IfOk result (λ reported. IsDone (writing_step request.now row view
        (set_step registry.old world.old view request.now (notes_reported reported)))
        reported buffer.new world.new registry.new) }
    ensures named { IfOk result (λ reported. unnamed_reported reported ≡ None) }
    ensures takes { OnErr result (TakesInSet (rows_of registry.old) world.old view request.now) }
    ensures empty { OnErr result (buffer.new.reply ≡ []) }
    ensures unsent { OnErr result (buffer.new.bpdus ≡ []) }
    ensures unchanged { OnErr result (world.new ≡ world.old) }
    ensures kept { OnErr result (registry.new ≡ map object_after_release registry.old) }
{
    if buffer.is_too_long(request) {
        let sent = buffer.put_too_long(request);
        let none = plain_answer(alloc, sent.status, sent.index, None, SettingKeys::new());
        return Ok(reported(request, row, view, none, sent, space));
    }
    let bindings = request.bindings.as_slice();
    let before = world.bridge.copied_settings();
    let outcome = run_set(registry, world, bindings, &view)?;
    let changed = changed(&outcome, &before, world);
    let answer = set_answer(alloc, world.policy.vacm(), outcome)?;
    settle(changed, world, buffer);
    let sent = buffer.put(request, answer.status, answer.index, bindings);
    Ok(reported(request, row, view, answer, sent, space))
}
