//! What a manager does: an errand to an agent, and the exit status that it ends with.
ghost use Rattle.std.specs.Prelude.{◌≡◌, ◌≤◌};
ghost use Rattle.manager_core.specs.Runs.{IsAskable, HasRun};

use crate::run::{ManagerOperation, report, run_errand};
use std::alloc::Global;
use std::io::Write;
use std::net::SocketAddr;
use wire_core::Wire;

/// The status of a run that has not written what was asked for.
pub const FAILED: u8 = 1;

/// What a manager is to do.
#[derive(Drop)]
pub struct Command {
    /// Where the agent is.
    pub agent: SocketAddr,
    /// How often each request is sent at most.
    pub tries: u32,
    /// What it is asked for.
    pub errand: ManagerOperation,
}

/// Does a command, and gives the exit status: 0 where all that was found is written, and else
/// [`FAILED`]. What went wrong stands in one line on `errors`.
pub fn run_command<W: Wire, O: Write, E: Write>(
    alloc: Global,
    command: &Command,
    wire: &mut W,
    out: &mut O,
    errors: &mut E,
) -> u8
    requires { IsAskable command.now.errand }
    ensures ran { HasRun W.went O.contents command.now wire.old out.old result wire.new out.new }
    ensures silent { result ≡ 0 → errors.new ≡ errors.old }
    ensures status { result ≤ FAILED }
{
    match run_errand(
        alloc,
        wire,
        command.agent,
        &command.errand,
        command.tries,
        out,
    ) {
        Ok(()) => 0,
        Err(failure) => {
            report(failure, errors);
            FAILED
        }
    }
}
