//! Get: the value under a name, or which exception (RFC 3416, 4.2.1).
ghost use Rattle.std.specs.Prelude.{◌≡◌, ◌+◌, ◌*◌, ◌≤◌, IfOk, None, length, vec_capacity};
ghost use Rattle.std.specs.List.{list_any};
ghost use Rattle.oid_core.specs.Order.{is_prefix};
ghost use Rattle.oid_core.specs.Name.{HasRoot};
ghost use Rattle.message_core.specs.Encodable.{AreEncodable, IsEncodableBinding};
ghost use Rattle.message_core.specs.Instances.{value_of};
ghost use Rattle.agent_core.specs.Reading.{visible, get_answer, get_answers, is_known, object_of, or_missing};
ghost use Rattle.agent_core.specs.Lookups.{hidden_count, most_lookups};
ghost use Rattle.agent_core.specs.Hidden.{AreHiddenRuns, hidden_left};

use crate::hidden::HiddenRuns;
use crate::reading::next_named;
use crate::source::Source;
use message_core::{Binding, Bindings, Value};
use oid_core::Oid;
use setphase_core::Spot;
use std::alloc::{AllocError, Global};
use std::sync::ledger::Ledger;
use steps::Steps;

// The value under a name, where the view shows it.
fn shown_value<S: Source<L>, L: Ledger>(
    alloc: Global,
    source: &S,
    name: &Oid,
) -> Result<Option<Value>, AllocError>
    ensures { IfOk result (λ found.
        found ≡ value_of (visible (S.shows source.now) (S.instances source.now)) name.now) }
{
    if !source.has_name(name) {
        return Ok(None);
    }
    source.get(alloc, name)
}

// Whether the view shows an instance whose name begins so. The hidden instances in the runs that are lent are
// not passed again, and what is passed is kept as a run.
fn shows_below<S: Source<L>, L: Ledger>(
    alloc: Global,
    source: &S,
    object: &Oid,
    hidden: &mut HiddenRuns,
    steps: &mut Steps<L>,
) -> Result<bool, AllocError>
    requires { AreHiddenRuns (S.shows source.now) (S.instances source.now) (S.at source.now)
        (S.is_there source.now) (S.stands source.now) hidden.old.runs.items }
    ensures answer { IfOk result (λ b.
        b ≡ list_any (λ row. is_prefix object.now row.name)
        (visible (S.shows source.now) (S.instances source.now))) }
    ensures work { steps.new ≤ steps.old + most_lookups (S.shows source.now) (S.instances source.now) }
    ensures runs { AreHiddenRuns (S.shows source.now) (S.instances source.now) (S.at source.now)
        (S.is_there source.now) (S.stands source.now) hidden.new.runs.items }
    ensures once { IfOk result (λ _. steps.new
        + hidden_left (S.shows source.now) (S.instances source.now) hidden.new.runs.items
        ≤ steps.old + 1
        + hidden_left (S.shows source.now) (S.instances source.now) hidden.old.runs.items) }
    ensures few { steps.new ≤ steps.old + 1
        + hidden_left (S.shows source.now) (S.instances source.now) hidden.old.runs.items }
{
    source.known();
    if let Some(_itself) = shown_value(alloc, source, object)? {
        return Ok(true);
    }
    hidden.reserve()?;
    let mut spot = Spot::new();
    let Some(next) = next_named(alloc, source, object.as_slice(), &mut spot, hidden, steps)? else {
        return Ok(false);
    };
    Ok(object.is_prefix(&next))
}

// Whether an object begins the name, and the name is in the view or the view shows an instance of
// that object.
fn knows_object<S: Source<L>, L: Ledger>(
    alloc: Global,
    source: &S,
    shown: bool,
    name: &Oid,
    hidden: &mut HiddenRuns,
    steps: &mut Steps<L>,
) -> Result<bool, AllocError>
    requires { AreHiddenRuns (S.shows source.now) (S.instances source.now) (S.at source.now)
        (S.is_there source.now) (S.stands source.now) hidden.old.runs.items }
    ensures answer { IfOk result (λ b.
        b ≡ is_known shown (visible (S.shows source.now) (S.instances source.now))
        (object_of (S.objects source.now) name.now)) }
    ensures work { steps.new ≤ steps.old + most_lookups (S.shows source.now) (S.instances source.now) }
    ensures runs { AreHiddenRuns (S.shows source.now) (S.instances source.now) (S.at source.now)
        (S.is_there source.now) (S.stands source.now) hidden.new.runs.items }
    ensures once { IfOk result (λ _. steps.new
        + hidden_left (S.shows source.now) (S.instances source.now) hidden.new.runs.items
        ≤ steps.old + 1
        + hidden_left (S.shows source.now) (S.instances source.now) hidden.old.runs.items) }
    ensures few { steps.new ≤ steps.old + 1
        + hidden_left (S.shows source.now) (S.instances source.now) hidden.old.runs.items }
{
    let Some(object) = source.object(alloc, name)? else {
        return Ok(false);
    };
    if shown {
        return Ok(true);
    }
    shows_below(alloc, source, &object, hidden, steps)
}

// What stands under a name that has no value.
fn missing(known: bool) -> Value
    ensures { result ≡ or_missing None known }
{
    if known {
        Value::NoSuchInstance
    } else {
        Value::NoSuchObject
    }
}

/// What Get answers under a name (RFC 3416, 4.2.1), over the instances that the view shows. Only
/// memory can fail.
///
/// To see whether an object has an instance in the view, it asks the source at most once for each instance
/// that the view hides, and once more.
pub fn get<S: Source<L>, L: Ledger>(
    alloc: Global,
    source: &S,
    name: &Oid,
    steps: &mut Steps<L>,
) -> Result<Binding, AllocError>
    ensures answer { IfOk result (λ b.
        b ≡ get_answer (S.objects source.now) (S.shows source.now name.now)
        (visible (S.shows source.now) (S.instances source.now)) name.now) }
    ensures work { steps.new ≤ steps.old + most_lookups (S.shows source.now) (S.instances source.now) }
{
    let mut hidden = HiddenRuns::none(alloc);
    get_beside(alloc, source, name, &mut hidden, steps)
}

// The same beside other names of a request: the hidden instances in the runs that are lent are not passed
// again, and what is passed is kept as a run.
fn get_beside<S: Source<L>, L: Ledger>(
    alloc: Global,
    source: &S,
    name: &Oid,
    hidden: &mut HiddenRuns,
    steps: &mut Steps<L>,
) -> Result<Binding, AllocError>
    requires { AreHiddenRuns (S.shows source.now) (S.instances source.now) (S.at source.now)
        (S.is_there source.now) (S.stands source.now) hidden.old.runs.items }
    ensures answer { IfOk result (λ b.
        b ≡ get_answer (S.objects source.now) (S.shows source.now name.now)
        (visible (S.shows source.now) (S.instances source.now)) name.now) }
    ensures work { steps.new ≤ steps.old + most_lookups (S.shows source.now) (S.instances source.now) }
    ensures runs { AreHiddenRuns (S.shows source.now) (S.instances source.now) (S.at source.now)
        (S.is_there source.now) (S.stands source.now) hidden.new.runs.items }
    ensures once { IfOk result (λ _. steps.new
        + hidden_left (S.shows source.now) (S.instances source.now) hidden.new.runs.items
        ≤ steps.old + 1
        + hidden_left (S.shows source.now) (S.instances source.now) hidden.old.runs.items) }
    ensures few { steps.new ≤ steps.old + 1
        + hidden_left (S.shows source.now) (S.instances source.now) hidden.old.runs.items }
{
    let Ok(asked) = name.try_copy(alloc) else {
        return Err(AllocError);
    };
    if let Some(value) = shown_value(alloc, source, name)? {
        return Ok(Binding { name: asked, value });
    }
    let shown = source.has_name(name);
    let known = knows_object(alloc, source, shown, name, hidden, steps)?;
    Ok(Binding {
        name: asked,
        value: missing(known),
    })
}

/// What Get answers to each asked name, in order (RFC 3416, 4.2.1). Only memory can fail.
///
/// Each lookup at the source is a step: there are at most as many as there are names, and as many as the
/// view hides instances. A hidden instance that was passed for one name is not passed again.
pub fn get_all<S: Source<L>, L: Ledger>(
    alloc: Global,
    source: &S,
    asked: &[Binding],
    steps: &mut Steps<L>,
) -> Result<Bindings, AllocError>
    ensures answers { IfOk result (λ answers.
        answers ≡ get_answers (S.objects source.now) (S.shows source.now) (S.instances source.now)
        asked.now) }
    ensures work { steps.new ≤ steps.old + length asked.now * most_lookups (S.shows source.now)
        (S.instances source.now) }
    ensures once { steps.new ≤ steps.old + length asked.now
        + hidden_count (S.shows source.now) (S.instances source.now) }
{
    let mut answers = Bindings::new(alloc);
    let mut hidden = HiddenRuns::none(alloc);
    for binding in asked {
        let answer = get_beside(alloc, source, &binding.name, &mut hidden, steps)?;
        answers.push(answer)?;
    }
    Ok(answers)
}
