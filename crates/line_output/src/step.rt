//! A step of the task that writes, at one output.
ghost use Rattle.std.specs.Prelude.{◌≡◌};
ghost use Rattle.line_output.specs.Pending.{to_write};
ghost use Rattle.line_output.specs.Steps.{IsStep};

use crate::outlet::Outlet;
use crate::pending::Pending;
use std::io::{Error, ErrorKind};

/// What came of a step at an output.
#[derive(Clone, Copy, Debug, PartialEq, Eq)]
pub(crate) enum Step {
    /// Nothing was to be written.
    Idle,
    /// The output takes nothing now.
    Waits,
    /// The output was to take some, and took none.
    Refused,
    /// The output took some.
    Wrote,
    /// The write failed.
    Failed,
}

impl Step {
    // What came of this one and another: the one that leaves more to be done at once.
    pub(crate) fn and(self, other: Step) -> Step {
        match (self, other) {
            (Step::Wrote | Step::Failed, _) | (_, Step::Wrote | Step::Failed) => Step::Wrote,
            (Step::Refused, _) | (_, Step::Refused) => Step::Refused,
            (Step::Waits, _) | (_, Step::Waits) => Step::Waits,
            (Step::Idle, Step::Idle) => Step::Idle,
        }
    }
}

// Whether a write that failed so is to be tried again.
fn is_passing(error: &Error) -> bool {
    matches!(error.kind(), ErrorKind::Interrupted | ErrorKind::WouldBlock)
}

// What came of writing some of what an output is still to take, if it takes any now.
pub(crate) fn write_some<O: Outlet, const MOST: usize>(
    outlet: &mut O,
    pending: &mut Pending<MOST>,
) -> Step
    ensures { IsStep (O.contents outlet.old) (O.contents outlet.new)
        (to_write pending.old) (to_write pending.new) result }
{
    let chunk = pending.chunk();
    if chunk.is_empty() {
        return Step::Idle;
    }
    if !outlet.is_ready(0) {
        return Step::Waits;
    }
    match outlet.write(chunk) {
        Ok(0) => Step::Refused,
        Ok(octets) => {
            pending.wrote(octets);
            Step::Wrote
        }
        Err(error) if is_passing(&error) => Step::Refused,
        Err(_) => Step::Failed,
    }
}

// Waits until an output takes more, where it is to take any, but no longer than this.
pub(crate) fn wait_ready<O: Outlet, const MOST: usize>(
    outlet: &O,
    pending: &Pending<MOST>,
    millis: u16,
) {
    if !pending.is_done() {
        let _is_ready = outlet.is_ready(millis);
    }
}
