//! Serves an agent by the octets of a configuration.
ghost use Rattle.std.specs.Prelude.{IfOk, IfErr, map};
ghost use Rattle.std.specs.Prelude.{◌≡◌, is_some};
ghost use Rattle.history_core.specs.History.{fresh};
ghost use Rattle.live_audit.specs.Audited.{is_audited};
ghost use Rattle.udp_agent.specs.Binding.{is_audited_worker};
ghost use Rattle.udp_agent.specs.Serving.{IsServed};
ghost use Rattle.udp_agent.specs.Lasting.{IsServedForever};
ghost use Rattle.agent_program.specs.Services.{IsOpened, IsNotSetUp, IsServiceBy};

use crate::opening::{NotRun, open_bridge, read_configuration, registry_of, undropped};
use configuration::{Warning, warnings_of};
use control_socket::ControlSocket;
use history_core::Kept;
use live_agent::{End, GatedWire, PacedWire};
use live_audit::Auditing;
use live_control::ControlWire;
use live_laps::Watch;
use live_run::Report;
use log::Log;
use setphase_core::{MibObject, Registry, World};
use std::alloc::Global;
use std::io::{self, ErrorKind};
use std::net::Net;
use std::sync::{Arc, Wait};
use std::thread::Threads;
use std::time::Clock;
use udp_agent::{
    BeginFault, LastingControl, LastingTicker, LastingWorker, Reporter, ServeFault, Setup,
    UdpTicker, UdpWorker, setup_of,
};
use wire_core::{LastingWire, Pace, SecondPace, Startup, UdpWire, Wire};

/// What a configuration opens to be served.
#[derive(Drop)]
pub struct Opened {
    /// The world that requests and frames are to meet.
    pub world: World,
    /// Where it is served, and how many rounds its lines make.
    pub setup: Setup,
    /// What is warned of in its configuration; none where there was no memory to find that.
    pub warnings: Option<Vec<Warning>>,
}

/// Opens what the configuration that octets say is to serve.
///
/// # Errors
/// `Refused`, `Unserved` and `Memory`, as [`open_service`] has them.
pub fn open_setup(alloc: Global, octets: &[u8]) -> Result<Opened, NotRun>
    ensures opened { IfOk result (λ opened. IsOpened octets.now opened) }
    ensures fault { IfErr result (λ why. IsNotSetUp octets.now why) }
{
    let configuration = read_configuration(alloc, octets)?;
    let bridge = open_bridge(alloc, &configuration);
    let warnings = warnings_of(alloc, &configuration).ok();
    match setup_of(
        configuration.address,
        &configuration.ports,
        configuration.serve,
    ) {
        Ok(setup) => Ok(Opened {
            world: undropped(bridge, configuration.policy),
            setup,
            warnings,
        }),
        Err(why) => Err(NotRun::Unserved(why)),
    }
}

/// The registry of these objects, and what the configuration that octets say opens to be served.
///
/// # Errors
/// `Refused`, with their first fault, only where the octets say no configuration; `Unserved` only where
/// they say one that does not say how to serve, or not of each port where its frames come in and go
/// out; `Memory` only where they are a text of more than white space and comments; `NoRegistry` only
/// where the objects make no registry.
pub fn open_service<M: MibObject>(
    alloc: Global,
    objects: Vec<M>,
    octets: &[u8],
) -> Result<(Registry<M>, Opened), NotRun>
    ensures { IsServiceBy (map M.state objects.items) octets.now result }
{
    let opened = match open_setup(alloc, octets) {
        Ok(opened) => opened,
        Err(why) => return Err(why),
    };
    match registry_of(objects) {
        Ok(registry) => Ok((registry, opened)),
        Err(why) => Err(why),
    }
}

// The history of these objects and what was opened, in which nothing has happened, from the number 0 on.
fn begin<M: MibObject>(alloc: Global, registry: Registry<M>, world: World) -> io::Result<Kept<M>>
    ensures { IfOk result (λ kept. kept ≡ fresh registry world 0) }
{
    match Kept::new(alloc, registry, world) {
        Ok(kept) => Ok(kept),
        Err(_) => Err(io::Error::from(ErrorKind::OutOfMemory)),
    }
}

/// Serves what these objects show of the world that was opened, over UDP, until each line has made its
/// rounds or ended before. Nothing has happened in its history, whose first entry has the number 0.
///
/// # Errors
/// As of [`udp_agent::serve`]; `Begin` also where there was no memory for the history.
pub fn serve_opened<'r, M: MibObject + Send, R: Threads + Wait + Net + Clock + Sync>(
    rt: &'r R,
    alloc: Global,
    registry: Registry<M>,
    opened: Opened,
) -> Result<Report, ServeFault>
    ensures { IsServed ⟦<UdpWorker as GatedWire>⟧.did ⟦<UdpWorker as Wire>⟧.failures
        ⟦<UdpWire as Wire>⟧.went ⟦<UdpWire as Wire>⟧.failures
        ⟦<UdpTicker<&'r R> as PacedWire>⟧.did ⟦<UdpTicker<&'r R> as Wire>⟧.failures
        opened.setup (fresh registry opened.world 0) result }
{
    let kept = begin(alloc, registry, opened.world)?;
    udp_agent::serve(rt, alloc, &opened.setup, kept)
}

/// The same without an end, by an agent of this version: each line begins its rounds anew when they
/// are done, and a second after its socket failed or there was no memory, until no number is left for
/// an entry. It is logged by this log what is served, and how the lines go on. Each worker has such a gate, by
/// which its requests are audited or not. Where a control socket is handed in, an operator's commands are
/// taken at it. All lines are tasks of this start.
///
/// # Errors
/// As of [`udp_agent::serve_forever`]; also that there was no memory for the history.
pub fn serve_opened_forever<
    'r,
    M: MibObject + Send,
    G: Log + Sync,
    R: Threads + Wait + Net + Clock + Sync,
>(
    rt: &'r R,
    log: &'r G,
    alloc: Global,
    version: &str,
    registry: Registry<M>,
    opened: Opened,
    audits: &Auditing<'r>,
    control: Option<ControlSocket<&'r R>>,
    startup: &Arc<Startup, Global>,
) -> Result<Vec<End>, BeginFault>
    ensures { IsServedForever
        ⟦<LastingWorker<'r, &'r R> as GatedWire>⟧.did
        ⟦<LastingWorker<'r, &'r R> as Wire>⟧.failures
        ⟦<LastingWire<&'r R> as Wire>⟧.went ⟦<LastingWire<&'r R> as Wire>⟧.failures
        ⟦<LastingTicker<&'r R> as PacedWire>⟧.did ⟦<LastingTicker<&'r R> as Wire>⟧.failures
        ⟦<LastingControl<&'r R> as ControlWire>⟧.did
        ⟦<Reporter<'r, G> as Watch>⟧.went ⟦<SecondPace<&'r R> as Pace>⟧.went
        is_audited_worker opened.setup (is_audited audits.now) (is_some control.entry)
        (fresh registry opened.world 0) result }
{
    let kept = begin(alloc, registry, opened.world)?;
    udp_agent::serve_forever(
        rt,
        log,
        alloc,
        version,
        &opened.setup,
        kept,
        audits,
        control,
        startup,
    )
}
