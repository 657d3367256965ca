//! The lines that go on, each in a thread beside the others, over one history.
ghost use Rattle.std.specs.Prelude.{◌≡◌, ◌<◌, ◌≤◌, ◌^◌, [], vec_len, vec_capacity};
ghost use Rattle.history_core.specs.History.{IsHistory};
ghost use Rattle.live_lock.specs.Sharing.{IsHeld};
ghost use Rattle.live_run.specs.Crews.{MayBegin};
ghost use Rattle.live_laps.specs.Laps.{HaveGone};

use crate::interval::Intervals;
use history_core::{Entry, Kept};
use live_agent::{End, Plan};
use live_lock::{Live, Run};
use live_run::{LineTask, run_lines};
use rising::{Blank, BlankLog};
use setphase_core::MibObject;
use std::marker::Brand;
use std::sync::{Wait, ledger};
use std::thread::Threads;

// A history under a lock, the lines over it, and the history again.
fn run_over<
    O: MibObject + Send,
    L: Run + Send + Sync,
    N: LineTask<Intervals, End> + Send,
    R: Threads + Wait + Sync,
>(
    rt: &R,
    plan: &Plan,
    kept: Kept<O>,
    blank: ledger::Blank,
    number: Blank,
    moved: Blank,
    log: BlankLog<Entry>,
    lines: Vec<N>,
    ends: Vec<End>,
) -> (Kept<O>, Vec<N>, Vec<End>)
    requires name { blank.name ≡ L.name }
    requires all { blank.parts ≡ L.parts }
    requires number { number.name ≡ L.rise }
    requires moved { moved.name ≡ L.base_rise }
    requires log_name { log.name ≡ L.log_name }
    requires start { kept ≡ L.start }
    requires parts { vec_len lines < blank.parts }
    requires begin { MayBegin (2 ^ 32) lines ends }
    ensures { HaveGone N.gone plan.now L.start result.0 lines.items
        result.1.items result.2.items }
{
    let (live, share) = Live::<O, L>::new(kept, blank, number, moved, log);
    let (share, lines, ends) = run_lines::<O, L, Intervals, N, End, R>(
        rt, plan, &live, share, lines, ends,
    );
    let kept = live.close(share);
    (kept, lines, ends)
}

/// Runs all lines over a history at the same time, each in a thread of its own, interval by
/// interval, until all have ended. The history comes back, and so do the lines.
pub fn run_from<O: MibObject + Send, N: LineTask<Intervals, End> + Send, R: Threads + Wait + Sync>(
    rt: &R,
    plan: &Plan,
    kept: Kept<O>,
    lines: Vec<N>,
    ends: Vec<End>,
) -> (Kept<O>, Vec<N>, Vec<End>)
    requires few { vec_len lines < 2 ^ 32 }
    requires empty { ends.items ≡ [] }
    requires space { vec_len lines ≤ vec_capacity ends }
    ensures { HaveGone N.gone plan.now kept result.0 lines.items
        result.1.items result.2.items }
{
    // A part for each line, and one for who starts them.
    let blank = ledger::Blank::new(lines.len() as u64 + 1);
    run_over::<O, Brand, N, R>(
        rt,
        plan,
        kept,
        blank,
        Blank::new(),
        Blank::new(),
        BlankLog::new(),
        lines,
        ends,
    )
}
