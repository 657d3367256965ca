//! A whole run.
ghost use Rattle.std.specs.Prelude.{◌≡◌, ◌<◌, ◌≤◌, ◌^◌, [], vec_len, vec_capacity, IfOk};
ghost use Rattle.live_run.specs.Served.{Serves};

use crate::crew::run_from;
use crate::judging::judge;
use crate::lines::Lines;
use crate::report::{Report, RunFault};
use history_core::Kept;
use live_agent::{GatedWire, PacedWire, Plan, Ran};
use setphase_core::MibObject;
use std::alloc::{AllocError, Global};
use std::sync::Wait;
use std::thread::Threads;
use wire_core::Wire;

// Memory for the ends of so many lines.
fn space_for(alloc: Global, lines: usize) -> Result<Vec<Ran>, AllocError>
    ensures empty { IfOk result (λ runs. runs.items ≡ []) }
    ensures space { IfOk result (λ runs. lines ≤ vec_capacity runs) }
{
    Vec::with_capacity(alloc, lines)
}

/// Runs lines over a history at the same time, each in a thread of its own: a worker over each wire
/// of `workers`, a port over each of `ports`, and the ticker. Each ends after its rounds, where its
/// wire is closed or fails (the ticker: its pace ends), where no number is left for an entry, or where
/// there is no memory for its trace. When all have ended, the receipts are compared with the history.
/// Where the system makes no thread more, a line runs after those that it was to run beside.
///
/// Gives back the lines, the history, and the report.
///
/// # Errors
/// A [`RunFault`] that the run has. Where there is no memory to begin with, it is `Memory`, and nothing
/// ran; else all lines ran all the same.
pub fn serve_run<
    O: MibObject + Send,
    A: GatedWire + Send,
    W: Wire + Send,
    T: PacedWire,
    R: Threads + Wait + Sync,
>(
    rt: &R,
    plan: &Plan,
    kept: Kept<O>,
    lines: Lines<A, W, T>,
) -> (Lines<A, W, T>, Kept<O>, Result<Report, RunFault>)
    requires few { (vec_len lines.workers < 2 ^ 16) × (vec_len lines.ports < 2 ^ 16) }
    ensures { Serves A.did A.failures W.went W.failures T.did T.failures plan.now kept
        result.1 lines result.0 result.2 }
{
    let Ok(worker_runs) = space_for(plan.alloc, lines.workers.len()) else {
        return (lines, kept, Err(RunFault::Memory));
    };
    let Ok(port_runs) = space_for(plan.alloc, lines.ports.len()) else {
        return (lines, kept, Err(RunFault::Memory));
    };
    let (kept, lines, runs) = run_from(rt, plan, kept, lines, worker_runs, port_runs);
    let report = judge(plan.alloc, &kept, runs);
    (lines, kept, report)
}
