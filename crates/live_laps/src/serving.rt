//! A run without an end.
ghost use Rattle.std.specs.Prelude.{◌≡◌, ◌<◌, ◌≤◌, ◌^◌, [], vec_len, vec_capacity, IfOk};
ghost use Rattle.live_laps.specs.Laps.{ServesLaps};

use crate::crew::run_from;
use crate::line::Watched;
use crate::watch::Watch;
use history_core::Kept;
use live_agent::{End, GatedWire, PacedWire, Plan};
use live_control::ControlWire;
use setphase_core::MibObject;
use std::alloc::{AllocError, Global};
use std::sync::Wait;
use std::thread::Threads;
use wire_core::{Pace, Wire};

// Space for how so many lines ended.
fn space_for(alloc: Global, lines: usize) -> Result<Vec<End>, AllocError>
    ensures empty { IfOk result (λ ends. ends.items ≡ []) }
    ensures space { IfOk result (λ ends. lines ≤ vec_capacity ends) }
{
    Vec::with_capacity(alloc, lines)
}

/// Runs lines over a history at the same time, each in a thread of its own. Each goes on interval by
/// interval, until its wire is closed (the ticker: its pace ends), or no number is left for an entry,
/// or until 2^64 - 1 intervals are done. Where an interval ends by a fault of its wire, or for want of
/// memory, the line waits as its own pace does, and begins the next, or ends where that pace says
/// `false`. Each interval of a worker and of the ticker, each fault and the line's end is reported to
/// the line's watch. Where the system makes no thread more, a line begins once those that it was to
/// run beside have ended, which is never while they go on; so wires may be closed, and paces end, where
/// one line does not begin (`wire_core::Startup`).
///
/// Gives back the history, the lines, and how each ended.
///
/// # Errors
/// That there was no memory to begin with, and nothing ran.
pub fn serve_laps<
    O: MibObject + Send,
    A: GatedWire + Send,
    W: Wire + Send,
    T: PacedWire + Send,
    C: ControlWire + Send,
    V: Watch + Send,
    P: Pace + Send,
    R: Threads + Wait + Sync,
>(
    rt: &R,
    plan: &Plan,
    kept: Kept<O>,
    lines: Vec<Watched<A, W, T, C, V, P>>,
) -> (
    Kept<O>,
    Vec<Watched<A, W, T, C, V, P>>,
    Result<Vec<End>, AllocError>,
)
    requires few { vec_len lines < 2 ^ 32 }
    ensures { ServesLaps A.did A.failures W.went W.failures T.did T.failures C.did V.went P.went plan.now kept result.0 lines.items result.1.items
        result.2 }
{
    match space_for(plan.alloc, lines.len()) {
        Ok(ends) => {
            let (kept, lines, ends) = run_from(rt, plan, kept, lines, ends);
            (kept, lines, Ok(ends))
        }
        Err(refused) => (kept, lines, Err(refused)),
    }
}
