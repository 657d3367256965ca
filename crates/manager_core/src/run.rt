//! Runs what a manager is asked for, and writes what it finds.
ghost use Rattle.std.specs.Prelude.{◌≡◌, ◌++◌, codes, List, Result, OnOk, IsTrue};
ghost use Rattle.std.specs.Io.KnownBytes.{Appends};
ghost use Rattle.message_core.specs.declared.binding.Binding.{Binding};
ghost use Rattle.manager_core.specs.declared.fault.ManagerFault.{ManagerFault};
ghost use Rattle.manager_core.specs.Lines.{lines_of};
ghost use Rattle.manager_core.specs.Runs.{IsAskable, HasFound, IsRun, IsWritten, failure_text};

use crate::asking::ask_for;
use crate::fault::ManagerFault;
use crate::lines::push_lines;
use crate::walking::walk_from;
use crate::writing::write_flushed;
use message_core::{Binding, Bindings, Octets, Request};
use oid_core::Oid;
use std::alloc::Global;
use std::fmt;
use std::io::Write;
use std::net::SocketAddr;
use wire_core::Wire;

/// What a manager asks an agent for.
#[derive(Drop)]
pub enum ManagerOperation {
    /// What answers a request.
    Ask(Request),
    /// The names of a subtree: the community, and the root.
    Walk(Octets, Oid),
}

/// Why a run has not written what was asked for.
#[derive(Clone, Copy, Debug, PartialEq, Eq)]
pub enum Failure {
    /// There is no answer.
    Fault(ManagerFault),
    /// The output could not be written.
    Output,
}

/// As `timeout`, `error 16 index 0` or `output failed`.
impl fmt::Display for Failure {
    ghost use Rattle.std.specs.Prelude.{Some};

    ghost output = { λ failure. Some (failure_text failure) };

    fn fmt<W: fmt::Write>(&self, f: &mut fmt::Formatter<W>) -> fmt::Result {
        match self {
            Failure::Fault(fault) => write!(f, "{fault}"),
            Failure::Output => write!(f, "output failed"),
        }
    }
}

/// Does an errand, in at most so many tries for each ask, and writes a line for each binding that
/// is found. Without an answer nothing is written.
///
/// # Errors
/// The fault of the ask or walk, `Memory` also where there is none for the lines, and nothing is
/// written then. `Output` where a write or the flush fails: a front of the lines is written.
pub(crate) fn run_errand<W: Wire, O: Write>(
    alloc: Global,
    wire: &mut W,
    peer: SocketAddr,
    errand: &ManagerOperation,
    tries: u32,
    out: &mut O,
) -> Result<(), Failure>
    requires { IsAskable errand.now }
    ensures { (end : Result (List Binding) ManagerFault)
        × HasFound W.went peer errand.now tries wire.old end wire.new
        × IsRun O.contents end out.old result out.new }
{
    match find(alloc, wire, peer, errand, tries) {
        Ok(found) => write_found(alloc, found.as_slice(), out),
        Err(fault) => Err(Failure::Fault(fault)),
    }
}

// What an errand finds.
fn find<W: Wire>(
    alloc: Global,
    wire: &mut W,
    peer: SocketAddr,
    errand: &ManagerOperation,
    tries: u32,
) -> Result<Bindings, ManagerFault>
    requires { IsAskable errand.now }
    ensures { HasFound W.went peer errand.now tries wire.old result wire.new }
{
    match errand {
        ManagerOperation::Ask(request) => ask_for(alloc, wire, peer, request, tries),
        ManagerOperation::Walk(community, root) => {
            walk_from(alloc, wire, peer, community.as_slice(), root, tries)
        }
    }
}

// Writes the line of each binding, and flushes them.
fn write_found<O: Write>(alloc: Global, found: &[Binding], out: &mut O) -> Result<(), Failure>
    ensures { IsWritten O.contents (lines_of found.now) out.old result out.new }
{
    let mut text = Vec::new(alloc);
    if let Err(_) = push_lines(found, &mut text) {
        return Err(Failure::Fault(ManagerFault::Memory));
    }
    write_flushed(text.as_slice(), out)
}

/// Writes the line of a failure, and says whether it was written whole: where a write fails,
/// nothing is known of what the writer holds.
pub fn report<E: Write>(failure: Failure, errors: &mut E) -> bool
    ensures { IsTrue result → Appends (E.contents errors.old) (E.contents errors.new)
        (codes "manager: " ++ failure_text failure ++ codes "\n") }
{
    match writeln!(errors, "manager: {failure}") {
        Ok(()) => true,
        Err(_) => false,
    }
}
