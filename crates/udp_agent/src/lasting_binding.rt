//! Binds the sockets of a setup that is served without an end.
ghost use Rattle.std.specs.Prelude.{◌≡◌, ◌<◌, ◌≤◌, ◌+◌, ◌-◌, ◌^◌, [], All, IfOk, IfErr, is_some, length, slice_get, vec_len, vec_capacity};
ghost use Rattle.live_audit.specs.Audited.{is_audited};
ghost use Rattle.std.specs.Option.{ForSome};
ghost use Rattle.udp_agent.specs.Binding.{AreLines, AreAudited, is_audited_worker, IsUnbound, IsPortFault, IsRequestsFault, IsFaultOf};

use crate::begin_fault::{BeginFault, SetupSocket};
use crate::binding::few;
use crate::setup::{PortSockets, Setup};
use configuration::Serve;
use control_socket::ControlSocket;
use live_agent::{Gated, Paced};
use live_audit::Auditing;
use live_control::Controlled;
use live_run::Lines;
use std::alloc::Global;
use std::io::{self, ErrorKind};
use std::net::{Net, SocketAddr};
use std::sync::Arc;
use std::time::Clock;
use wire_core::{LastingWire, Pace, SendingSockets, Startup};

/// The wire of a worker of an agent without an end, whose gate holds nobody, and may be asked for
/// audits.
pub type LastingWorker<'b, C> = Gated<LastingWire<C>, Auditing<'b>>;

/// The wire of the line of the control socket: a port's, by which all ports' frames may go, and beside it
/// the control socket.
pub type LastingControl<C> = Controlled<LastingWire<C>, ControlSocket<C>>;

/// The lines of an agent without an end, whose ticks go at this pace.
pub type LastingLines<'b, C, P> = Lines<
    LastingWorker<'b, C>,
    LastingWire<C>,
    Paced<LastingWire<C>, P>,
>;

// The wire of a thread that answers requests, over this socket, audited or not.
fn worker_over<'b, C: Clock + Copy + Drop>(
    socket: &LastingWire<C>,
    audits: &Auditing<'b>,
) -> io::Result<LastingWorker<'b, C>>
    ensures { IfOk result (λ worker. is_audited_worker worker ≡ is_audited audits.now) }
{
    Ok(Gated {
        wire: socket.share()?,
        gate: audits.another(),
    })
}

// The wire of this socket of a setup, bound to its address.
fn bind_wire<R: Net, C: Clock + Copy + Drop>(
    rt: &R,
    clock: C,
    alloc: Global,
    socket: SetupSocket,
    address: SocketAddr,
    sending: &Arc<SendingSockets, Global>,
    startup: &Arc<Startup, Global>,
) -> Result<LastingWire<C>, BeginFault>
    ensures { IfErr result (IsUnbound socket address) }
{
    match LastingWire::bind(rt, alloc, address, sending, startup, clock) {
        Ok(wire) => Ok(wire),
        Err(why) => Err(BeginFault::Unbound(socket, address, why)),
    }
}

// The wires of the threads that answer requests, which share one socket, audited or not.
fn bind_workers<'b, R: Net, C: Clock + Copy + Drop>(
    rt: &R,
    clock: C,
    alloc: Global,
    serve: &Serve,
    sending: &Arc<SendingSockets, Global>,
    startup: &Arc<Startup, Global>,
    audits: &Auditing<'b>,
) -> Result<Vec<LastingWorker<'b, C>>, BeginFault>
    ensures fault { IfErr result (IsRequestsFault serve.now.snmp) }
    ensures workers { IfOk result (λ workers. vec_len workers ≡ serve.now.workers) }
    ensures audited { IfOk result (λ workers.
        All (λ worker. is_audited_worker worker ≡ is_audited audits.now) workers.items) }
{
    let address = serve.snmp;
    let socket = bind_wire(
        rt,
        clock,
        alloc,
        SetupSocket::Requests,
        address,
        sending,
        startup,
    )?;
    let mut workers = Vec::new(alloc);
    for _ in 0..serve.workers {
        workers.push(worker_over(&socket, audits)?)?;
    }
    Ok(workers)
}

// The wire of the port at this place, counted from 0.
fn bind_port<R: Net, C: Clock + Copy + Drop>(
    rt: &R,
    clock: C,
    alloc: Global,
    ports: &[PortSockets],
    place: usize,
    sending: &Arc<SendingSockets, Global>,
    startup: &Arc<Startup, Global>,
) -> Result<LastingWire<C>, BeginFault>
    requires { place < length ports.now }
    ensures unbound { IfErr result (λ fault. ForSome (slice_get ports.now place) (λ port.
        IsUnbound (SetupSocket.Listen (place + 1)) port.listen fault)) }
    ensures fault { IfErr result (IsPortFault ports.now) }
{
    let (socket, address) = (SetupSocket::Listen(place + 1), ports[place].listen);
    bind_wire(rt, clock, alloc, socket, address, sending, startup)
}

// The wires of the ports, each over a socket of its own, in a vector that has the memory for them: it fails at a
// port's socket alone.
fn bind_ports<R: Net, C: Clock + Copy + Drop>(
    rt: &R,
    clock: C,
    alloc: Global,
    ports: &[PortSockets],
    mut wires: Vec<LastingWire<C>>,
    sending: &Arc<SendingSockets, Global>,
    startup: &Arc<Startup, Global>,
) -> Result<Vec<LastingWire<C>>, BeginFault>
    requires none { wires.items ≡ [] }
    requires space { length ports.now ≤ vec_capacity wires }
    ensures ports { IfOk result (λ wires. vec_len wires ≡ length ports.now) }
    ensures fault { IfErr result (IsPortFault ports.now) }
{
    for place in 0..ports.len() {
        let wire = bind_port(rt, clock, alloc, ports, place, sending, startup)?;
        wires.push_reserved(wire);
    }
    Ok(wires)
}

// The wire of the ticker, over the socket of port 1.
fn share_first<C: Clock + Copy>(ports: &[LastingWire<C>]) -> io::Result<LastingWire<C>> {
    match ports.first() {
        Some(port) => port.share(),
        None => Err(io::Error::from(ErrorKind::InvalidInput)),
    }
}

/// The wire of the line of a control socket, if there is one, beside these ports: it shares the socket of
/// port 1.
///
/// # Errors
/// `InvalidInput` where there is no port; that there are as many wires over the socket as can be counted.
pub(crate) fn control_wire<C: Clock + Copy + Drop>(
    ports: &[LastingWire<C>],
    control: Option<ControlSocket<C>>,
) -> io::Result<Option<LastingControl<C>>>
    ensures { IfOk result (λ wire. is_some wire ≡ is_some control) }
{
    let Some(control) = control else {
        return Ok(None);
    };
    let wire = share_first(ports)?;
    Ok(Some(Controlled { wire, control }))
}

/// The lines of a setup that is served without an end: over sockets as those of `bind_lines`, but no
/// send fails, and frames go by these sending sockets. The ticker ticks at this pace; receives that
/// fail wait by this clock. Each worker and each port is a task of this start. Each worker has such a
/// gate, and is audited where this one is. Clauses say that, and how many lines there are; which sockets
/// they share is tested.
///
/// # Errors
/// As of `bind_lines`.
pub fn bind_lasting<'b, R: Net, C: Clock + Copy + Drop, P: Pace>(
    rt: &R,
    clock: C,
    pace: P,
    alloc: Global,
    setup: &Setup,
    sending: &Arc<SendingSockets, Global>,
    startup: &Arc<Startup, Global>,
    audits: &Auditing<'b>,
) -> Result<LastingLines<'b, C, P>, BeginFault>
    ensures lines { IfOk result (AreLines setup.now) }
    ensures fault { IfErr result (IsFaultOf setup.now) }
    ensures audited { IfOk result (AreAudited is_audited_worker (is_audited audits.now)) }
    ensures few { IfOk result (λ lines.
        (vec_len lines.workers < 2 ^ 16 - 1) × (vec_len lines.ports < 2 ^ 16 - 1)) }
{
    let workers = bind_workers(rt, clock, alloc, &setup.serve, sending, startup, audits)?;
    let wires = Vec::with_capacity(alloc, setup.ports.len())?;
    let ports = bind_ports(
        rt,
        clock,
        alloc,
        setup.ports.as_slice(),
        wires,
        sending,
        startup,
    )?;
    let ticker = Paced {
        wire: share_first(ports.as_slice())?,
        pace,
    };
    Ok(few(Lines {
        workers,
        ports,
        ticker,
    })?)
}
