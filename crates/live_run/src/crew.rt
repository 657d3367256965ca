//! The lines of a run, each in a thread beside the others, over one history.
ghost use Rattle.std.specs.Prelude.{◌≡◌, ◌+◌, ◌<◌, ◌≤◌, ◌^◌, [], vec_len, vec_capacity};
ghost use Rattle.std.specs.Thread.{IsSync};
ghost use Rattle.history_core.specs.History.{IsHistory};
ghost use Rattle.live_lock.specs.Sharing.{IsHeld};
ghost use Rattle.live_agent.specs.Lines.{run_start_of};
ghost use Rattle.live_agent.specs.Turns.{entered_in};
ghost use Rattle.live_run.specs.Shared.{MayShare};
ghost use Rattle.live_run.specs.Crews.{WorkerRan, PortRan, TickerRan, RanBetween, AllRan, CrewRan, MayBegin, HaveRun, entered_by, entered_of};

use crate::line_task::{LineKind, LineTask, Ports, Tickers, Workers};
use crate::lines::{Lines, Runs};
use history_core::{Entry, Kept};
use live_agent::{GatedWire, PacedWire, Plan, Ran};
use live_lock::{Live, Run, Share};
use rising::{Blank, BlankLog};
use setphase_core::MibObject;
use std::marker::Brand;
use std::sync::{Wait, ledger};
use std::thread::{Threads, join};
use wire_core::Wire;

/// Lines of a kind, each in a thread beside the others. Gives back the share, the lines, and how each
/// ended, in their order.
pub fn run_lines<
    O: MibObject + Send,
    L: Run + Send + Sync,
    K: LineKind,
    N: LineTask<K, E> + Send,
    E: Send + Drop,
    R: Threads + Wait + Sync,
>(
    rt: &R,
    plan: &Plan,
    live: &Live<O, L>,
    mut share: Share<L>,
    mut lines: Vec<N>,
    ends: Vec<E>,
) -> (Share<L>, Vec<N>, Vec<E>)
    requires shared { MayShare O.row L.row O.MibObject L.start L.base_rise L.name L.parts L.rise L.log_name }
    requires parts { vec_len lines < share.parts }
    requires begin { MayBegin K.limit lines ends }
    ensures { HaveRun (N.gone (run_start_of L.start plan.now) plan.now.rounds) lines ends share result }
{
    let Some(line) = lines.pop() else {
        return (share, lines, ends);
    };
    let mine = share.split_off(1);
    let place = lines.len();
    let (one, others) = join(
        rt,
        move || -> (Share<L>, N, E)
            requires { (place + 1 < K.limit) × (0 < mine.parts) }
            ensures gone { N.gone (run_start_of L.start plan.entry.now) plan.entry.now.rounds place line mine.amount
                result.1 result.0.amount result.2 }
            ensures parts { result.0.parts ≡ mine.parts }
        { line.run_line(rt, plan, live, place, mine) },
        move || -> (Share<L>, Vec<N>, Vec<E>)
            requires { IsSync R.row
                × MayShare O.row L.row O.MibObject L.start L.base_rise L.name L.parts L.rise L.log_name
                × (vec_len lines < share.parts) × MayBegin K.limit lines ends }
            ensures { HaveRun (N.gone (run_start_of L.start plan.entry.now) plan.entry.now.rounds) lines ends share
                result }
        { run_lines::<O, L, K, N, E, R>(rt, plan, live, share, lines, ends) },
    );
    let (mine, line, end) = one;
    let (mut share, mut lines, mut ends) = others;
    share.merge(mine);
    lines.push_reserved(line);
    ends.push_reserved(end);
    (share, lines, ends)
}

// The ports, beside the ticker.
fn run_bridge<
    O: MibObject + Send,
    L: Run + Send + Sync,
    W: Wire + Send,
    T: PacedWire,
    R: Threads + Wait + Sync,
>(
    rt: &R,
    plan: &Plan,
    live: &Live<O, L>,
    mut share: Share<L>,
    ports: Vec<W>,
    ticker: T,
    runs: Vec<Ran>,
) -> (Share<L>, Vec<W>, Vec<Ran>, T, Ran)
    requires shared { MayShare O.row L.row O.MibObject L.start L.base_rise L.name L.parts L.rise L.log_name }
    requires parts { vec_len ports + 1 < share.parts }
    requires begin { MayBegin (2 ^ 16) ports runs }
    ensures ports { AllRan (PortRan W.went W.failures (run_start_of L.start plan.now) plan.now.rounds) 1
        ports.items result.1.items result.2.items }
    ensures ticker { TickerRan T.did T.failures (run_start_of L.start plan.now) plan.now.rounds ticker
        result.3 result.4 }
    ensures amount { result.0.amount ≡ share.amount + (entered_by result.2.items + entered_in result.4.trace) }
    ensures parts { result.0.parts ≡ share.parts }
{
    let theirs = share.split_off(ports.len() as u64 + 1);
    let (passed, ticked) = join(
        rt,
        move || -> (Share<L>, Vec<W>, Vec<Ran>)
            requires { IsSync R.row
                × MayShare O.row L.row O.MibObject L.start L.base_rise L.name L.parts L.rise L.log_name
                × (vec_len ports < theirs.parts) × MayBegin (2 ^ 16) ports runs }
            ensures { HaveRun (λ place. RanBetween (PortRan W.went W.failures
                (run_start_of L.start plan.entry.now) plan.entry.now.rounds (place + 1))) ports runs theirs result }
        { run_lines::<O, L, Ports, W, Ran, R>(rt, plan, live, theirs, ports, runs) },
        move || -> (Share<L>, T, Ran)
            requires { 0 < share.parts }
            ensures ran { RanBetween (TickerRan T.did T.failures (run_start_of L.start plan.entry.now)
                plan.entry.now.rounds) ticker share.amount result.1 result.0.amount result.2 }
            ensures parts { result.0.parts ≡ share.parts }
        { <T as LineTask<Tickers, Ran>>::run_line(ticker, rt, plan, live, 0, share) },
    );
    let (theirs, ports, runs) = passed;
    let (mut share, ticker, ran) = ticked;
    share.merge(theirs);
    (share, ports, runs, ticker, ran)
}

// All lines: the workers beside the ports beside the ticker.
fn run_crew<
    O: MibObject + Send,
    L: Run + Send + Sync,
    A: GatedWire + Send,
    W: Wire + Send,
    T: PacedWire,
    R: Threads + Wait + Sync,
>(
    rt: &R,
    plan: &Plan,
    live: &Live<O, L>,
    mut share: Share<L>,
    lines: Lines<A, W, T>,
    worker_runs: Vec<Ran>,
    port_runs: Vec<Ran>,
) -> (Share<L>, Lines<A, W, T>, Runs)
    requires shared { MayShare O.row L.row O.MibObject L.start L.base_rise L.name L.parts L.rise L.log_name }
    requires parts { vec_len lines.workers + vec_len lines.ports + 2 < share.parts }
    requires workers { MayBegin (2 ^ 16) lines.workers worker_runs }
    requires ports { MayBegin (2 ^ 16) lines.ports port_runs }
    ensures crew { CrewRan A.did A.failures W.went W.failures T.did T.failures
        (run_start_of L.start plan.now) plan.now.rounds lines result.1 result.2 }
    ensures amount { result.0.amount ≡ share.amount + entered_of result.2 }
    ensures parts { result.0.parts ≡ share.parts }
{
    let Lines {
        workers,
        ports,
        ticker,
    } = lines;
    let theirs = share.split_off(workers.len() as u64 + 1);
    let (worked, bridged) = join(
        rt,
        move || -> (Share<L>, Vec<A>, Vec<Ran>)
            requires { IsSync R.row
                × MayShare O.row L.row O.MibObject L.start L.base_rise L.name L.parts L.rise L.log_name
                × (vec_len workers < theirs.parts) × MayBegin (2 ^ 16) workers worker_runs }
            ensures { HaveRun (λ place. RanBetween (WorkerRan A.did A.failures
                (run_start_of L.start plan.entry.now) plan.entry.now.rounds place)) workers worker_runs theirs result }
        { run_lines::<O, L, Workers, A, Ran, R>(rt, plan, live, theirs, workers, worker_runs) },
        move || -> (Share<L>, Vec<W>, Vec<Ran>, T, Ran)
            requires { IsSync R.row
                × MayShare O.row L.row O.MibObject L.start L.base_rise L.name L.parts L.rise L.log_name
                × (vec_len ports + 1 < share.parts) × MayBegin (2 ^ 16) ports port_runs }
            ensures ports { AllRan (PortRan W.went W.failures (run_start_of L.start plan.entry.now)
                plan.entry.now.rounds) 1 ports.items result.1.items result.2.items }
            ensures ticker { TickerRan T.did T.failures (run_start_of L.start plan.entry.now)
                plan.entry.now.rounds ticker result.3 result.4 }
            ensures amount { result.0.amount ≡ share.amount + (entered_by result.2.items + entered_in result.4.trace) }
            ensures parts { result.0.parts ≡ share.parts }
        { run_bridge(rt, plan, live, share, ports, ticker, port_runs) },
    );
    let (theirs, workers, worker_runs) = worked;
    let (mut share, ports, port_runs, ticker, ran) = bridged;
    share.merge(theirs);
    let lines = Lines {
        workers,
        ports,
        ticker,
    };
    let runs = Runs {
        workers: worker_runs,
        ports: port_runs,
        ticker: ran,
    };
    (share, lines, runs)
}

// A history under a lock, the lines over it, and the history again.
fn run_over<
    O: MibObject + Send,
    L: Run + Send + Sync,
    A: GatedWire + Send,
    W: Wire + Send,
    T: PacedWire,
    R: Threads + Wait + Sync,
>(
    rt: &R,
    plan: &Plan,
    kept: Kept<O>,
    blank: ledger::Blank,
    number: Blank,
    moved: Blank,
    log: BlankLog<Entry>,
    lines: Lines<A, W, T>,
    worker_runs: Vec<Ran>,
    port_runs: Vec<Ran>,
) -> (Kept<O>, Lines<A, W, T>, Runs)
    requires name { blank.name ≡ L.name }
    requires all { blank.parts ≡ L.parts }
    requires number { number.name ≡ L.rise }
    requires moved { moved.name ≡ L.base_rise }
    requires log_name { log.name ≡ L.log_name }
    requires start { kept ≡ L.start }
    requires parts { vec_len lines.workers + vec_len lines.ports + 2 < blank.parts }
    requires workers { MayBegin (2 ^ 16) lines.workers worker_runs }
    requires ports { MayBegin (2 ^ 16) lines.ports port_runs }
    ensures crew { CrewRan A.did A.failures W.went W.failures T.did T.failures
        (run_start_of L.start plan.now) plan.now.rounds lines result.1 result.2 }
    ensures held { IsHeld L.start result.0 (entered_of result.2) }
    ensures legal { IsHistory result.0 }
{
    let (live, share) = Live::<O, L>::new(kept, blank, number, moved, log);
    let (share, lines, runs) = run_crew(rt, plan, &live, share, lines, worker_runs, port_runs);
    let kept = live.close(share);
    (kept, lines, runs)
}

/// Runs all lines over a history at the same time, each in a thread of its own. The history comes
/// back, and so do the lines.
pub fn run_from<
    O: MibObject + Send,
    A: GatedWire + Send,
    W: Wire + Send,
    T: PacedWire,
    R: Threads + Wait + Sync,
>(
    rt: &R,
    plan: &Plan,
    kept: Kept<O>,
    lines: Lines<A, W, T>,
    worker_runs: Vec<Ran>,
    port_runs: Vec<Ran>,
) -> (Kept<O>, Lines<A, W, T>, Runs)
    requires few { (vec_len lines.workers < 2 ^ 16) × (vec_len lines.ports < 2 ^ 16) }
    requires empty { (worker_runs.items ≡ []) × (port_runs.items ≡ []) }
    requires space { (vec_len lines.workers ≤ vec_capacity worker_runs)
        × (vec_len lines.ports ≤ vec_capacity port_runs) }
    ensures crew { CrewRan A.did A.failures W.went W.failures T.did T.failures
        (run_start_of kept plan.now) plan.now.rounds lines result.1 result.2 }
    ensures held { IsHeld kept result.0 (entered_of result.2) }
    ensures legal { IsHistory result.0 }
{
    // A part for each line, and one more for those that start the workers and the ports.
    let parts = lines.workers.len() as u64 + lines.ports.len() as u64 + 3;
    let blank = ledger::Blank::new(parts);
    run_over::<O, Brand, A, W, T, R>(
        rt,
        plan,
        kept,
        blank,
        Blank::new(),
        Blank::new(),
        BlankLog::new(),
        lines,
        worker_runs,
        port_runs,
    )
}
