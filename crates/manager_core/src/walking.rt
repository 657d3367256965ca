//! Walks through a subtree of an agent's names.
ghost use Rattle.std.specs.Prelude.{◌≡◌, ◌≢◌, ◌≤◌, ◌+◌, ◌∷◌, [], List, length, Result, Ok, Err, IfOk, IfErr, IfSome, IsNone};
ghost use Rattle.oid_core.specs.Name.{HasRoot};
ghost use Rattle.message_core.specs.Encodable.{AreEncodable};
ghost use Rattle.manager_core.specs.Walks.{next_request, binding_step, step_of, IfFound, HasWalked};
ghost use Rattle.manager_core.specs.Asks.{HasAsked};
ghost use Rattle.message_core.specs.Canon.{canon_request};
ghost use Rattle.message_core.specs.declared.binding.Binding.{Binding};
ghost use Rattle.manager_core.specs.declared.fault.ManagerFault.{ManagerFault};

use crate::asking::ask_for;
use crate::fault::ManagerFault;
use message_core::{Binding, Bindings, Kind, MAX_COMMUNITY, MAX_REQUEST, Octets, Request, Value};
use oid_core::{MAX_NUMBERS, Oid, precedes};
use std::alloc::{AllocError, Global};
use std::net::SocketAddr;
use wire_core::Wire;

/// How many names a walk receives at most. After so many it ends with `BadReply`.
pub const MAX_NAMES: u32 = 100_000;

/// What a walk makes of an answer.
#[derive(Drop)]
pub(crate) enum Step {
    /// The walk has found a binding, and goes on from its name.
    Found(Binding),
    /// It has reached the end of the subtree.
    Ended,
    /// It cannot go on.
    Broken(ManagerFault),
}

/// The bindings of a subtree of names, in order: all that GetNext finds from the root on, before
/// the first endOfMibView or name outside the subtree (RFC 3416, section 4.2.2).
///
/// Its asks are as those of [`ask`](crate::ask), each for what comes behind the name that was found
/// last, with the request-ids 1, 2 and so on. Takes memory for what is received and kept.
///
/// # Errors
/// Those of an ask. `BadReply` also for a Response that has not just one binding, and after
/// `MAX_NAMES` names; `NotIncreasing` for a name that is not greater than the one asked.
pub fn walk<W: Wire>(
    alloc: Global,
    wire: &mut W,
    peer: SocketAddr,
    community: &[u8],
    root: &Oid,
    tries: u32,
) -> Result<Vec<Binding>, ManagerFault>
    requires community { length community.now ≤ MAX_COMMUNITY }
    requires encodable { HasRoot root.now }
    ensures walked { IfOk result (λ found.
        HasWalked W.went peer community.now root.now tries wire.old (Ok found.items) wire.new) }
    ensures faulted { IfErr result (λ fault.
        HasWalked W.went peer community.now root.now tries wire.old (Err fault) wire.new) }
{
    match walk_from(alloc, wire, peer, community, root, tries) {
        Ok(found) => Ok(found.into_vec()),
        Err(fault) => Err(fault),
    }
}

/// The same, with the bindings as a list.
pub(crate) fn walk_from<W: Wire>(
    alloc: Global,
    wire: &mut W,
    peer: SocketAddr,
    community: &[u8],
    root: &Oid,
    tries: u32,
) -> Result<Bindings, ManagerFault>
    requires community { length community.now ≤ MAX_COMMUNITY }
    requires encodable { HasRoot root.now }
    ensures { HasWalked W.went peer community.now root.now tries wire.old result wire.new }
{
    let mut found = Bindings::new(alloc);
    let mut name = root.try_copy(alloc)?;
    for before in 0..MAX_NAMES {
        let request = next_request(alloc, community, before + 1, &name)?;
        match ask_next(alloc, wire, peer, &request, tries, root, &name) {
            Step::Found(binding) => {
                name = binding.name.try_copy(alloc)?;
                found.push(binding)?;
            }
            Step::Ended => return Ok(found),
            Step::Broken(fault) => return Err(fault),
        }
    }
    Err(ManagerFault::BadReply)
}

// The request for what comes behind a name.
fn next_request(alloc: Global, community: &[u8], id: u32, name: &Oid) -> Result<Request, AllocError>
    requires community { length community.now ≤ MAX_COMMUNITY }
    requires encodable { HasRoot name.now }
    requires id { id ≤ MAX_NAMES }
    ensures request { IfOk result (λ r. r ≡ next_request community.now id name.now) }
    ensures encodable { IfOk result (λ r. AreEncodable r.bindings) }
    ensures fits { IfOk result (λ r. length (canon_request r) ≤ MAX_REQUEST) }
{
    next_fits(community, id, name.as_slice());
    let mut bindings = Bindings::new(alloc);
    bindings.push(Binding {
        name: name.try_copy(alloc)?,
        value: Value::Null,
    })?;
    Ok(Request {
        kind: Kind::GetNext,
        id: id as i32,
        first: 0,
        second: 0,
        community: Octets::from_slice(alloc, community)?,
        bindings,
    })
}

// The request for what comes behind a name fits into a datagram, whatever the name. It does
// nothing.
fn next_fits(_community: &[u8], _id: u32, name: &[u32])
    requires community { length _community.now ≤ MAX_COMMUNITY }
    requires encodable { HasRoot name.now }
    requires most { length name.now ≤ MAX_NUMBERS }
    ensures { length (canon_request (next_request _community.now _id name.now)) ≤ MAX_REQUEST }
{
    let _read = name.len();
}

// Asks once, and says what the walk makes of it.
fn ask_next<W: Wire>(
    alloc: Global,
    wire: &mut W,
    peer: SocketAddr,
    request: &Request,
    tries: u32,
    root: &Oid,
    name: &Oid,
) -> Step
    requires encodable { AreEncodable request.now.bindings }
    requires fits { length (canon_request request.now) ≤ MAX_REQUEST }
    ensures asked { (end : Result (List Binding) ManagerFault)
        × HasAsked W.went peer request.now tries wire.old end wire.new
        × (result ≡ step_of root.now name.now end) }
    ensures encodable { IfFound result (λ b. HasRoot b.name) }
{
    let end = ask_for(alloc, wire, peer, request, tries);
    step_of(root, name, end)
}

// What a walk makes of how an ask ended.
fn step_of(root: &Oid, name: &Oid, end: Result<Bindings, ManagerFault>) -> Step
    requires { IfOk end AreEncodable }
    ensures step { result ≡ step_of root.now name.now end }
    ensures encodable { IfFound result (λ b. HasRoot b.name) }
{
    match end {
        Err(fault) => Step::Broken(fault),
        Ok(bindings) => match only_binding(bindings) {
            Some(binding) => binding_step(root, name, binding),
            None => Step::Broken(ManagerFault::BadReply),
        },
    }
}

// The one binding of a list that has just one.
fn only_binding(bindings: Bindings) -> Option<Binding>
    ensures one { IfSome result (λ b. bindings ≡ b ∷ []) }
    ensures others { IsNone result → length bindings ≢ 1 }
{
    let mut items = bindings.into_vec();
    if items.len() == 1 { items.pop() } else { None }
}

// What a walk makes of the one binding of an answer.
fn binding_step(root: &Oid, name: &Oid, binding: Binding) -> Step
    requires { HasRoot binding.name }
    ensures step { result ≡ binding_step root.now name.now binding }
    ensures encodable { IfFound result (λ b. HasRoot b.name) }
{
    if matches!(binding.value, Value::EndOfMibView) || !root.is_prefix(&binding.name) {
        return Step::Ended;
    }
    if precedes(name.as_slice(), binding.name.as_slice()) {
        Step::Found(binding)
    } else {
        Step::Broken(ManagerFault::NotIncreasing)
    }
}
