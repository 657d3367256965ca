//! Runs the lines of a setup over a history.
ghost use Rattle.std.specs.Prelude.{◌≡◌, ◌<◌, ◌^◌, vec_len};
ghost use Rattle.udp_agent.specs.Serving.{IsServing, IsServed};

use crate::begin_fault::BeginFault;
use crate::binding::{UdpTicker, UdpWorker, bind_lines, plan_of};
use crate::setup::Setup;
use history_core::Kept;
use live_agent::{GatedWire, PacedWire, Plan};
use live_run::{Lines, Report, RunFault, serve_run};
use setphase_core::MibObject;
use std::alloc::Global;
use std::io;
use std::net::Net;
use std::sync::Wait;
use std::thread::Threads;
use std::time::Clock;
use wire_core::{UdpWire, Wire};

/// Why a served agent has no report.
#[derive(Debug, Drop)]
pub enum ServeFault {
    /// A socket could not be bound, or there was no memory for what the lines share: nothing ran.
    Begin(BeginFault),
    /// The run has no report.
    Run(RunFault),
}

impl From<io::Error> for ServeFault {
    ghost use Rattle.udp_agent.specs.declared.begin_fault.BeginFault.TheVariants.{System};
    ghost use Rattle.udp_agent.specs.declared.serving.ServeFault.TheVariants.{Begin};

    ghost from_gives = { λ error fault. fault ≡ Begin (System error) };

    fn from(error: io::Error) -> Self {
        ServeFault::Begin(BeginFault::System(error))
    }
}

impl From<BeginFault> for ServeFault {
    ghost use Rattle.udp_agent.specs.declared.serving.ServeFault.TheVariants.{Begin};

    ghost from_gives = { λ error fault. fault ≡ Begin error };

    fn from(error: BeginFault) -> Self {
        ServeFault::Begin(error)
    }
}

/// Runs the lines of an agent over a history, each in a thread of its own, until each has made its
/// rounds or ended before.
///
/// # Errors
/// Why there is no report.
pub fn serve_lines<
    O: MibObject + Send,
    A: GatedWire + Send,
    W: Wire + Send,
    T: PacedWire,
    R: Threads + Wait + Sync,
>(rt: &R, plan: &Plan, kept: Kept<O>, lines: Lines<A, W, T>) -> Result<Report, RunFault>
    requires few { (vec_len lines.workers < 2 ^ 16) × (vec_len lines.ports < 2 ^ 16) }
    ensures { IsServing A.did A.failures W.went W.failures T.did T.failures plan.now kept lines result }
{
    let (_, _, answer) = serve_run(rt, plan, kept, lines);
    answer
}

/// Serves an agent over UDP: binds the sockets of a setup, and runs its lines over a history, each in
/// a thread of its own, until each has made its rounds or ended before.
///
/// # Errors
/// `Begin` where a socket could not be bound, which it names, or there was no memory for what the lines
/// share, before any line ran; no clause says which. `Run` where they ran, and have no report, or where there was no
/// memory to begin with.
pub fn serve<'r, O: MibObject + Send, R: Threads + Wait + Net + Clock + Sync>(
    rt: &'r R,
    alloc: Global,
    setup: &Setup,
    kept: Kept<O>,
) -> Result<Report, ServeFault>
    ensures { IsServed ⟦<UdpWorker as GatedWire>⟧.did ⟦<UdpWorker as Wire>⟧.failures
        ⟦<UdpWire as Wire>⟧.went ⟦<UdpWire as Wire>⟧.failures
        ⟦<UdpTicker<&'r R> as PacedWire>⟧.did ⟦<UdpTicker<&'r R> as Wire>⟧.failures
        setup.now kept result }
{
    let plan = plan_of(alloc, setup)?;
    let lines = bind_lines(rt, rt, alloc, setup)?;
    match serve_lines(rt, &plan, kept, lines) {
        Ok(report) => Ok(report),
        Err(why) => Err(ServeFault::Run(why)),
    }
}
