//! Serves an agent without an end.
ghost use Rattle.std.specs.Prelude.{◌≡◌, ◌<◌, ◌^◌, ◌-◌, true, false, vec_len, IfOk, OnOk, OnErr, is_some};
ghost use Rattle.live_audit.specs.Audited.{is_audited};
ghost use Rattle.udp_agent.specs.Binding.{is_audited_worker, tasks_of};
ghost use Rattle.udp_agent.specs.Lasting.{is_failure, is_any_failure, IsServingForever, IsServedForever};

use crate::begin_fault::BeginFault;
use crate::binding::plan_of;
use crate::lasting_binding::{LastingControl, LastingWorker, bind_lasting, control_wire};
use crate::ready::{log_limit, log_ready, widen_requests};
use crate::reporting::Reporter;
use crate::setup::Setup;
use control_socket::ControlSocket;
use history_core::Kept;
use live_agent::{End, GatedWire, Paced, PacedWire, Plan};
use live_audit::Auditing;
use live_control::ControlWire;
use live_laps::{Watch, WorkTotals, lines_of, serve_laps};
use live_run::Lines;
use log::Log;
use setphase_core::MibObject;
use std::alloc::{AllocError, Global};
use std::io::{self, ErrorKind};
use std::net::Net;
use std::sync::{Arc, Wait};
use std::thread::Threads;
use std::time::Clock;
use wire_core::{
    LastingWire, MissedSeconds, Pace, SecondPace, SendingSockets, StartingPace, Startup, TaskStart,
    Wire,
};

/// The wire of the ticker of an agent without an end, at a pace of a tick at each whole second since
/// its start by a clock, which ends where a task had not begun in time.
pub type LastingTicker<C> = Paced<LastingWire<C>, StartingPace<C>>;

// What is reported where a task had not begun in time.
const TASK_NOT_BEGUN: &str =
    "a task did not begin within 5 seconds: the system may make no thread more";

// Whether a line that ended so failed: by its wire, or for want of memory.
fn is_failure(end: End) -> bool
    ensures { result ≡ is_failure end }
{
    matches!(end, End::Wire(_) | End::Memory)
}

/// Whether one of the lines that ended so failed: by its wire, or for want of memory.
pub fn any_failed(ends: &[End]) -> bool
    ensures { result ≡ is_any_failure ends.now }
{
    let [end, rest @ ..] = ends else {
        return false;
    };
    is_failure(*end) || any_failed(rest)
}

/// Runs the lines of an agent over a history, each in a thread of its own and interval by interval, an
/// interval being as many rounds as the plan has, until all have ended. Gives how each ended: the
/// workers, from the first on, the ports, the ticker, and the line of the control socket, where a wire is
/// handed in for it. Each line has such a watch, to which each
/// interval of a worker and of the ticker, each fault and the line's end is reported; and such a pace,
/// by which it waits behind a fault of its wire or want of memory before it begins anew.
///
/// # Errors
/// That there was no memory to begin with, and nothing ran.
pub fn serve_lines_forever<
    O: MibObject + Send,
    A: GatedWire + Send,
    W: Wire + Send,
    T: PacedWire + Send,
    C: ControlWire + Send,
    V: Watch + Send,
    P: Pace + Copy + Send,
    R: Threads + Wait + Sync,
>(
    rt: &R,
    plan: &Plan,
    watch: V,
    pace: P,
    kept: Kept<O>,
    lines: Lines<A, W, T>,
    control: Option<C>,
) -> Result<Vec<End>, AllocError>
    requires few { (vec_len lines.workers < 2 ^ 16) × (vec_len lines.ports < 2 ^ 16 - 1) }
    ensures { IsServingForever A.did A.failures W.went W.failures T.did T.failures C.did V.went P.went
        watch pace plan.now kept lines control result }
{
    let lines = lines_of(plan.alloc, lines, control, watch, pace)?;
    let (_, _, answer) = serve_laps(rt, plan, kept, lines);
    answer
}

// How many tasks these lines are, with the task that writes the log and the audits, and the line of the
// control socket, where there is one.
fn tasks_of<A, W, T>(lines: &Lines<A, W, T>, is_controlled: bool) -> u64
    requires few { (vec_len lines.now.workers < 2 ^ 16 - 1) × (vec_len lines.now.ports < 2 ^ 16 - 1) }
    ensures { result
        ≡ tasks_of (vec_len lines.now.workers) (vec_len lines.now.ports) is_controlled }
{
    let (workers, ports) = (lines.workers.len() as u64, lines.ports.len() as u64);
    workers + ports + 2 + u64::from(is_controlled)
}

// Nothing, unless the start has failed.
fn refuse_failed(has_failed: bool) -> io::Result<()>
    ensures ok { OnOk result (has_failed ≡ false) }
    ensures err { OnErr result (has_failed ≡ true) }
{
    if has_failed {
        Err(io::Error::new(ErrorKind::TimedOut, TASK_NOT_BEGUN))
    } else {
        Ok(())
    }
}

/// Serves an agent of this version over UDP without an end: binds the sockets of a setup, logs by this log
/// what it serves, and runs its lines over a history as [`serve_lines_forever`] does. No send of theirs fails:
/// a datagram that the system refuses is lost. A line waits for a second behind a fault of its socket
/// or want of memory, and begins anew. At the end of each interval of the ticker it logs what all did so
/// far, and what was lost; where a fault ended an interval, and where a line ends, why. Each worker has
/// such a gate, by which its requests are audited or not. Where a control socket is handed in, an
/// operator's commands are taken at it, and it is logged what became of each; what the ports send of them
/// goes as their frames do.
///
/// All lines are tasks of this start, and with them the task that writes the log and the audits, which reports
/// of itself. Where one had not begun within `STARTUP_WAIT_MILLIS`, as where the system makes no thread more, all
/// lines end; a port whose first link finds no memory ends once it does.
///
/// # Errors
/// The socket that could not be bound, its address and the system's reason, or that there was no memory
/// for what the lines share, before any line ran; `TimedOut`, once all lines have ended, where a task had not begun in
/// time; no clause says that.
pub fn serve_forever<
    'r,
    O: MibObject + Send,
    G: Log + Sync,
    R: Threads + Wait + Net + Clock + Sync,
>(
    rt: &'r R,
    log: &'r G,
    alloc: Global,
    version: &str,
    setup: &Setup,
    kept: Kept<O>,
    audits: &Auditing<'r>,
    control: Option<ControlSocket<&'r R>>,
    startup: &Arc<Startup, Global>,
) -> Result<Vec<End>, BeginFault>
    ensures { IsServedForever
        ⟦<LastingWorker<'r, &'r R> as GatedWire>⟧.did
        ⟦<LastingWorker<'r, &'r R> as Wire>⟧.failures
        ⟦<LastingWire<&'r R> as Wire>⟧.went ⟦<LastingWire<&'r R> as Wire>⟧.failures
        ⟦<LastingTicker<&'r R> as PacedWire>⟧.did ⟦<LastingTicker<&'r R> as Wire>⟧.failures
        ⟦<LastingControl<&'r R> as ControlWire>⟧.did
        ⟦<Reporter<'r, G> as Watch>⟧.went ⟦<SecondPace<&'r R> as Pace>⟧.went
        is_audited_worker setup.now (is_audited audits.now) (is_some control.entry) kept result }
{
    let plan = plan_of(alloc, setup)?;
    let sending = Arc::new(
        alloc,
        SendingSockets::bind(rt, alloc, plan.peers.as_slice())?,
    )?;
    let missed = Arc::new(alloc, MissedSeconds::new())?;
    let pace = StartingPace::new(rt, TaskStart::new(startup)?, Arc::try_clone(&missed)?)?;
    let lines = bind_lasting(rt, rt, pace, alloc, setup, &sending, startup, audits)?;
    let control = control_wire(lines.ports.as_slice(), control)?;
    log_ready(log, version, setup, &lines, audits.queue().is_some());
    log_limit(log);
    widen_requests(log, lines.workers.as_slice());
    let book = WorkTotals::new();
    let watch = Reporter {
        log,
        book: &book,
        losses: sending.losses(),
        missed: &missed,
        audits: audits.queue(),
    };
    startup.expect(rt, tasks_of(&lines, control.is_some()));
    // Of want of memory `?` makes an error of the system.
    let ends = serve_lines_forever(rt, &plan, watch, SecondPace::new(rt), kept, lines, control)?;
    refuse_failed(startup.has_failed(rt))?;
    Ok(ends)
}
