//! Who is authorized for what.
ghost use Rattle.std.specs.Prelude.{◌≡◌, ◌≢◌, ◌≤◌, ◌<◌, length};
ghost use Rattle.decision.specs.Deciding.{view_type, ask_of, access_key_at, decision_by, decision_unless_empty, decision_on};
ghost use Rattle.vacm_core.specs.Access.{NamesRowOf};

use crate::choice::{Cause, Decision, Refusal};
use crate::keys::AccessKey;
use community_core::{Caller, MAX_COMMUNITY_NAME, Policy};
use message_core::{Kind, Request};
use vacm_core::{Ask, Level, Vacm, Verdict, ViewType};

/// The security model of SNMPv2c (RFC 3411, SnmpSecurityModel).
const COMMUNITY_MODEL: u32 = 2;

// The view that a PDU type asks for.
fn view_type(kind: Kind) -> ViewType
    ensures { result ≡ view_type kind }
{
    match kind {
        Kind::Get | Kind::GetNext | Kind::GetBulk => ViewType::Read,
        Kind::Set => ViewType::Write,
    }
}

// What a caller's request asks of the tables.
fn asked(caller: Caller, kind: Kind) -> Ask
    ensures { result ≡ ask_of caller kind }
{
    Ask {
        model: COMMUNITY_MODEL,
        security: caller.security,
        context: caller.context,
        level: Level::NoAuthNoPriv,
        view: view_type(kind),
    }
}

// The key of the access row of this number.
fn access_key_at(vacm: &Vacm, n: usize) -> AccessKey
    requires { n < length vacm.now.access }
    ensures { result ≡ access_key_at vacm.now.access n }
{
    AccessKey::of(vacm.access_row(n))
}

// A verdict of the tables, with the keys of its rows; or that a request that is not dropped asks for
// nothing.
fn judged(vacm: &Vacm, verdict: Verdict, empty: bool) -> Decision
    requires { NamesRowOf vacm.now.access verdict }
    ensures { result ≡ decision_unless_empty empty (decision_by vacm.now.access verdict) }
{
    match verdict {
        Verdict::NoSuchContext(name) => Decision::Drop(Cause::NoSuchContext(name)),
        _ if empty => Decision::Empty,
        Verdict::NoGroupName(model, name) => {
            Decision::Refused(Refusal::NoGroupName { model, name })
        }
        Verdict::NoAccessEntry(group, prefix, model, level) => {
            Decision::Refused(Refusal::NoAccessEntry(AccessKey {
                group,
                prefix,
                model,
                level,
            }))
        }
        Verdict::NoSuchView(n, view) => {
            let row = access_key_at(vacm, n);
            Decision::Refused(Refusal::NoSuchView { row, view })
        }
        Verdict::Allowed(n, view) => {
            let row = access_key_at(vacm, n);
            Decision::Allowed { row, view }
        }
    }
}

/// The decision on a request up to its names: its community (RFC 3584, section 5.2.1), its context,
/// and what the tables of access control say (RFC 3415, section 3.2). It takes no memory.
#[tactic(auto, unfolding(crate::specs::Deciding::decision_on))]
pub fn decide(policy: &Policy, request: &Request) -> Decision
    ensures decision { result ≡ decision_on policy.now request.now }
    ensures short { result ≢ Decision.Drop Cause.UnknownCommunity →
        length request.now.community ≤ MAX_COMMUNITY_NAME }
{
    let Some(caller) = policy.caller(request.community.as_slice()) else {
        return Decision::Drop(Cause::UnknownCommunity);
    };
    let empty = request.bindings.as_slice().is_empty();
    let verdict = policy.vacm().decide(&asked(caller, request.kind));
    judged(policy.vacm(), verdict, empty)
}
