//! The text of a decision.
ghost use Rattle.std.specs.Prelude.{◌≡◌, ◌++◌, codes, option_map, IfOk, OnOk};
ghost use Rattle.std.specs.List.{flat_map};
ghost use Rattle.vacm_core.specs.Families.{NamesFamilyOf};
ghost use Rattle.audit_core.specs.Keys.{family_key};
ghost use Rattle.explain.specs.Explaining.{verdict_text, row_of, standing_text, name_line, variable_line, names_text, explanation};

use crate::written::{WrittenDecision, WrittenLine};
use audit_core::FamilyKey;
use community_core::Policy;
use decision::{Decision, decide};
use message_core::{Binding, Request};
use oid_core::Oid;
use std::alloc::{AllocError, Global};
use vacm_core::{FamilyAnswer, Name, Vacm};

/// The text of what a policy decides on a request: a line with the verdict in the words of an audit,
/// and where the request is allowed, a line for each of its names that says whether it is in the
/// view, and by which family, each line with its line feed.
///
/// # Errors
/// There is no memory for it.
#[tactic(auto, unfolding(crate::specs::Explaining::explanation))]
pub fn explained(alloc: Global, policy: &Policy, request: &Request) -> Result<Vec<u8>, AllocError>
    ensures { IfOk result (λ text. text.items ≡ explanation policy.now request.now) }
{
    let decision = decide(policy, request);
    let mut text = Vec::new(alloc);
    add_verdict(alloc, &decision, &mut text)?;
    add_names(
        alloc,
        policy.vacm(),
        request.bindings.as_slice(),
        &decision,
        &mut text,
    )?;
    Ok(text)
}

// Adds the line of a verdict.
fn add_verdict(alloc: Global, decision: &Decision, text: &mut Vec<u8>) -> Result<(), AllocError>
    ensures { OnOk result (text.new.items ≡ text.old.items
        ++ verdict_text decision.now ++ codes "\n") }
{
    let decision = WrittenDecision(decision);
    let line = format!(in alloc; "{decision}\n")?;
    text.extend_from_slice(line.as_bytes())
}

// Adds the lines of the names, where there is a view.
fn add_names(
    alloc: Global,
    vacm: &Vacm,
    bindings: &[Binding],
    decision: &Decision,
    text: &mut Vec<u8>,
) -> Result<(), AllocError>
    ensures { OnOk result (text.new.items ≡ text.old.items
        ++ names_text vacm.now.families bindings.now decision.now) }
{
    match decision {
        Decision::Allowed { view, .. } => add_lines(alloc, vacm, view, bindings, text),
        Decision::Drop(_) | Decision::Empty | Decision::Refused(_) => Ok(()),
    }
}

// Adds a line for each name.
fn add_lines(
    alloc: Global,
    vacm: &Vacm,
    view: &Name,
    bindings: &[Binding],
    text: &mut Vec<u8>,
) -> Result<(), AllocError>
    ensures { OnOk result (text.new.items ≡ text.old.items
        ++ flat_map (variable_line vacm.now.families view.now) bindings.now) }
{
    for binding in bindings {
        add_line(alloc, vacm, view, &binding.name, text)?;
    }
    Ok(())
}

// Adds the line of a name.
fn add_line(
    alloc: Global,
    vacm: &Vacm,
    view: &Name,
    name: &Oid,
    text: &mut Vec<u8>,
) -> Result<(), AllocError>
    ensures { OnOk result (text.new.items ≡ text.old.items
        ++ name_line vacm.now.families view.now name.now) }
{
    let answer = vacm.in_view(view, name);
    let family = family_of(alloc, vacm, &answer)?;
    let standing = standing_of(&answer);
    let line = WrittenLine {
        name,
        standing,
        view,
        family: &family,
    };
    let line = format!(in alloc; "{line}\n")?;
    text.extend_from_slice(line.as_bytes())
}

// Whether an answer says that a name is in the view.
fn standing_of(answer: &FamilyAnswer) -> &'static str
    ensures { result.now ≡ standing_text answer.now }
{
    match answer {
        FamilyAnswer::Included(_) => "in",
        FamilyAnswer::Excluded(_) | FamilyAnswer::NoRow => "out",
    }
}

// The key of the family row that an answer names, if it names one.
fn family_of(
    alloc: Global,
    vacm: &Vacm,
    answer: &FamilyAnswer,
) -> Result<Option<FamilyKey>, AllocError>
    requires { NamesFamilyOf vacm.now.families answer.now }
    ensures { IfOk result (λ key.
        key ≡ option_map family_key (row_of vacm.now.families answer.now)) }
{
    match answer {
        FamilyAnswer::Included(n) | FamilyAnswer::Excluded(n) => {
            let key = FamilyKey::of(alloc, vacm.family_row(*n))?;
            Ok(Some(key))
        }
        FamilyAnswer::NoRow => Ok(None),
    }
}
