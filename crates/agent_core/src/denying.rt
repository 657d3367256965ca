//! The bindings whose names are not in the view.
ghost use Rattle.std.specs.Prelude.{◌≡◌, ◌<◌, ◌++◌, OnOk, OnErr, IfOk, IfSome, IsSome, length};
ghost use Rattle.vacm_core.specs.Families.{family_answer, NamesFamilyOf};
ghost use Rattle.agent_core.specs.Denying.{denial, denials, denied_in, denied_variable};

use audit_core::{Denied, DeniedBindings, FamilyKey};
use message_core::{Binding, Kind, Request};
use std::alloc::{AllocError, Global};
use vacm_core::{FamilyAnswer, Name, Vacm};

// Adds what the audit has of binding `index`, by the answer on its name.
fn deny(
    alloc: Global,
    vacm: &Vacm,
    index: usize,
    answer: FamilyAnswer,
    denied: &mut DeniedBindings,
) -> Result<(), AllocError>
    requires { NamesFamilyOf vacm.now.families answer }
    ensures { OnOk result (denied.new ≡ denied.old ++ denial vacm.now.families index answer) }
{
    match answer {
        FamilyAnswer::Included(_) => Ok(()),
        FamilyAnswer::Excluded(n) => {
            let family = FamilyKey::of(alloc, vacm.family_row(n))?;
            denied.push(Denied {
                index,
                family: Some(family),
            })
        }
        FamilyAnswer::NoRow => denied.push(Denied {
            index,
            family: None,
        }),
    }
}

// What the audit has of bindings, the first of which has number 1.
fn denials(
    alloc: Global,
    vacm: &Vacm,
    view: &Name,
    bindings: &[Binding],
) -> Result<DeniedBindings, AllocError>
    ensures { IfOk result (λ denied. denied ≡ denials vacm.now.families view.now 1 bindings.now) }
{
    let mut denied = DeniedBindings::new(alloc);
    for (n, binding) in bindings.iter().enumerate() {
        deny(
            alloc,
            vacm,
            n + 1,
            vacm.in_view(view, &binding.name),
            &mut denied,
        )?;
    }
    Ok(denied)
}

/// The denied bindings of a request that is allowed in a view: those of a Get whose names are not
/// in the view (RFC 3415, 3.2, notInView), each with the family that excludes its name, if one
/// does. Only memory can fail, and only a Get takes some.
pub(crate) fn denied_bindings(
    alloc: Global,
    vacm: &Vacm,
    view: &Name,
    request: &Request,
) -> Result<DeniedBindings, AllocError>
    ensures denied { IfOk result (λ denied.
        denied ≡ denied_in vacm.now.families view.now request.now request.now.kind) }
    ensures takes { OnErr result (request.now.kind ≡ Kind.Get) }
{
    match request.kind {
        Kind::Get => denials(alloc, vacm, view, request.bindings.as_slice()),
        Kind::GetNext | Kind::GetBulk | Kind::Set => Ok(DeniedBindings::new(alloc)),
    }
}

/// The variable of this number of a Set, where its name is not in the view, by the answer on it.
/// Only memory can fail, and only where there is an answer.
pub(crate) fn denied_variable(
    alloc: Global,
    vacm: &Vacm,
    index: usize,
    family: Option<FamilyAnswer>,
) -> Result<DeniedBindings, AllocError>
    requires { IfSome family (λ answer. NamesFamilyOf vacm.now.families answer) }
    ensures denied { IfOk result (λ denied.
        denied ≡ denied_variable vacm.now.families index family) }
    ensures takes { OnErr result (IsSome family) }
{
    let mut denied = DeniedBindings::new(alloc);
    if let Some(answer) = family {
        deny(alloc, vacm, index, answer, &mut denied)?;
    }
    Ok(denied)
}
