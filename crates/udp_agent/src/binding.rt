//! Binds the sockets of a setup.
ghost use Rattle.std.specs.Prelude.{◌≡◌, ◌<◌, ◌≤◌, ◌+◌, ◌-◌, ◌^◌, [], IfOk, IfErr, map, length, slice_get, vec_len, vec_capacity};
ghost use Rattle.std.specs.Option.{ForSome};
ghost use Rattle.udp_agent.specs.Binding.{IsPlan, AreLines, IsUnbound, IsPortFault, IsRequestsFault, IsFaultOf};

use crate::begin_fault::{BeginFault, SetupSocket};
use crate::setup::{PortSockets, Setup};
use configuration::Serve;
use live_agent::{Gated, OpenGate, Paced, Plan};
use live_run::Lines;
use std::alloc::Global;
use std::io::{self, ErrorKind};
use std::net::{Net, SocketAddr};
use std::time::Clock;
use wire_core::{SecondPace, UdpWire};

/// The wire of a worker over UDP, which no gate holds.
pub type UdpWorker = Gated<UdpWire, OpenGate>;

/// The wire of the ticker over UDP, at a pace of a tick each second by a clock.
pub type UdpTicker<C> = Paced<UdpWire, SecondPace<C>>;

/// The lines of an agent over UDP.
pub type UdpLines<C> = Lines<UdpWorker, UdpWire, UdpTicker<C>>;

// The wire of this socket of a setup, bound to its address.
fn bind_wire<R: Net>(
    rt: &R,
    alloc: Global,
    socket: SetupSocket,
    address: SocketAddr,
) -> Result<UdpWire, BeginFault>
    ensures { IfErr result (IsUnbound socket address) }
{
    match UdpWire::bind(rt, alloc, address) {
        Ok(wire) => Ok(wire),
        Err(why) => Err(BeginFault::Unbound(socket, address, why)),
    }
}

// The wires of the threads that answer requests, which share one socket.
fn bind_workers<R: Net>(rt: &R, alloc: Global, serve: &Serve) -> Result<Vec<UdpWorker>, BeginFault>
    ensures workers { IfOk result (λ workers. vec_len workers ≡ serve.now.workers) }
    ensures fault { IfErr result (IsRequestsFault serve.now.snmp) }
{
    let socket = bind_wire(rt, alloc, SetupSocket::Requests, serve.snmp)?;
    let mut workers = Vec::new(alloc);
    for _ in 0..serve.workers {
        workers.push(Gated {
            wire: socket.share()?,
            gate: OpenGate,
        })?;
    }
    Ok(workers)
}

// The wire of the port at this place, counted from 0.
fn bind_port<R: Net>(
    rt: &R,
    alloc: Global,
    ports: &[PortSockets],
    place: usize,
) -> Result<UdpWire, BeginFault>
    requires { place < length ports.now }
    ensures unbound { IfErr result (λ fault. ForSome (slice_get ports.now place) (λ port.
        IsUnbound (SetupSocket.Listen (place + 1)) port.listen fault)) }
    ensures fault { IfErr result (IsPortFault ports.now) }
{
    bind_wire(
        rt,
        alloc,
        SetupSocket::Listen(place + 1),
        ports[place].listen,
    )
}

// The wires of the ports, each over a socket of its own, in a vector that has the memory for them: it fails at a
// port's socket alone.
fn bind_ports<R: Net>(
    rt: &R,
    alloc: Global,
    ports: &[PortSockets],
    mut wires: Vec<UdpWire>,
) -> Result<Vec<UdpWire>, BeginFault>
    requires none { wires.items ≡ [] }
    requires space { length ports.now ≤ vec_capacity wires }
    ensures ports { IfOk result (λ wires. vec_len wires ≡ length ports.now) }
    ensures fault { IfErr result (IsPortFault ports.now) }
{
    for place in 0..ports.len() {
        wires.push_reserved(bind_port(rt, alloc, ports, place)?);
    }
    Ok(wires)
}

// The wire of the ticker, over the socket of port 1.
fn share_first(ports: &[UdpWire]) -> io::Result<UdpWire> {
    match ports.first() {
        Some(port) => port.share(),
        None => Err(io::Error::from(ErrorKind::InvalidInput)),
    }
}

// Where the frames of each port go, from port 1 on.
fn peers_of(alloc: Global, ports: &[PortSockets]) -> io::Result<Vec<SocketAddr>>
    ensures { IfOk result (λ peers. peers.items ≡ map (λ port. port.peer) ports.now) }
{
    let mut peers = Vec::new(alloc);
    for port in ports {
        peers.push(port.peer)?;
    }
    Ok(peers)
}

/// What the lines of a setup have in common.
///
/// # Errors
/// That there is no memory for the ports' peers.
pub fn plan_of(alloc: Global, setup: &Setup) -> io::Result<Plan>
    ensures { IfOk result (IsPlan setup.now) }
{
    Ok(Plan {
        alloc,
        rounds: u64::from(setup.serve.rounds),
        source: setup.address,
        peers: peers_of(alloc, setup.ports.as_slice())?,
    })
}

// Lines, unless there are more of them than can be numbered.
pub(crate) fn few<A: Drop, W: Drop, T: Drop>(lines: Lines<A, W, T>) -> io::Result<Lines<A, W, T>>
    ensures same { IfOk result (λ few. few ≡ lines) }
    ensures few { IfOk result (λ lines.
        (vec_len lines.workers < 2 ^ 16 - 1) × (vec_len lines.ports < 2 ^ 16 - 1)) }
{
    let most = usize::from(u16::MAX);
    if lines.workers.len() >= most || lines.ports.len() >= most {
        return Err(io::Error::from(ErrorKind::InvalidInput));
    }
    Ok(lines)
}

/// The lines of a setup over UDP: the threads that answer requests share one socket, each port has
/// one of its own, and the ticker shares that of port 1, and ticks each second by this clock. A clause
/// says how many lines there are; which sockets they share is tested.
///
/// # Errors
/// The socket that could not be bound, its address and the system's reason; that of the system, or of a
/// refused growth, of no socket. Nothing is bound then. `InvalidInput` where more than 65,534 threads are to
/// answer.
pub fn bind_lines<R: Net, C: Clock + Drop>(
    rt: &R,
    clock: C,
    alloc: Global,
    setup: &Setup,
) -> Result<UdpLines<C>, BeginFault>
    ensures lines { IfOk result (AreLines setup.now) }
    ensures fault { IfErr result (IsFaultOf setup.now) }
    ensures few { IfOk result (λ lines.
        (vec_len lines.workers < 2 ^ 16 - 1) × (vec_len lines.ports < 2 ^ 16 - 1)) }
{
    let workers = bind_workers(rt, alloc, &setup.serve)?;
    let wires = Vec::with_capacity(alloc, setup.ports.len())?;
    let ports = bind_ports(rt, alloc, setup.ports.as_slice(), wires)?;
    let ticker = Paced {
        wire: share_first(ports.as_slice())?,
        pace: SecondPace::new(clock),
    };
    Ok(few(Lines {
        workers,
        ports,
        ticker,
    })?)
}
