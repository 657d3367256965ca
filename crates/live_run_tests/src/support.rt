//! Histories, wires and plans to test with.
use crate::fixtures::message::{Message, octets_of};
use crate::fixtures::worlds::{Served, all_of, bridge_of, built_in_for, edges, port};
use bridge_core::Bridge;
use bridge_mib::Planned;
use frame_core::Mac;
use history_core::Kept;
use live_agent::{Gate, Gated, OpenGate, Paced, Plan};
use live_run::{Lines, Report, RunFault, serve_run};
use object_list::{Object, objects};
use rstp_core::{BridgeKey, IfIndex, Key};
use setphase_core::{MibObject, Registry, are_named};
use std::alloc::Global;
use std::net::{IpAddr, Ipv4Addr, SocketAddr};
use std::sync::Wait;
use std::test::Fail;
use std::thread::Threads;
use wire_core::{CountPace, MemoryWire, Packet, Wire};

/// The objects of a bridge, with no device that fails.
pub type Shown = Object<Planned>;

/// An address of this machine, at a port of UDP.
pub fn loopback(port: u16) -> SocketAddr {
    SocketAddr::new(IpAddr::V4(Ipv4Addr::LOCALHOST), port)
}

/// The peer of port 1 of the bridge.
pub const PEER_OF_PORT_1: u16 = 20001;

/// The peer of port 2 of the bridge.
pub const PEER_OF_PORT_2: u16 = 20002;

/// A manager.
pub const MANAGER: u16 = 30001;

/// An operator.
pub const OPERATOR: u16 = 30002;

/// A frame to everybody, from a station.
pub const FLOODED: [u8; 14] = [
    0xFF, 0xFF, 0xFF, 0xFF, 0xFF, 0xFF, 0x02, 0x00, 0x00, 0x00, 0x01, 0x01, 0x08, 0x00,
];

/// A history of these objects over what is served, in which nothing has happened; its first entry is
/// to have this number.
pub fn history_from<O: MibObject>(
    alloc: Global,
    objects: Vec<O>,
    served: Served,
    first: u64,
) -> Result<Kept<O>, Fail> {
    let Served { world, .. } = served;
    if !are_named(objects.as_slice()) {
        return Err(Fail::from("names of objects"));
    }
    let registry = Registry::new(objects).ok().ok_or("a registry")?;
    let kept = Kept::resume(alloc, registry, world, first);
    Ok(kept.ok().ok_or("memory")?)
}

/// The same, whose first entry is to have the number 0.
pub fn history_over<O: MibObject>(
    alloc: Global,
    objects: Vec<O>,
    served: Served,
) -> Result<Kept<O>, Fail> {
    history_from(alloc, objects, served, 0)
}

/// A history over what is served, in which nothing has happened.
pub fn history_of(alloc: Global, served: Served) -> Result<Kept<Shown>, Fail> {
    history_over(alloc, objects(alloc, Planned::new())?, served)
}

/// The history of a bridge of two ports under this policy.
pub fn policed(alloc: Global, policy: &[&str]) -> Result<Kept<Shown>, Fail> {
    history_of(alloc, built_in_for(alloc, policy)?)
}

// Brings the link of a port up that is there.
fn bring_up(bridge: &mut Bridge, port: u16) {
    if port >= 1 && usize::from(port) <= bridge.ports() {
        bridge.link(port, true);
    }
}

/// The history of a bridge of two ports, both of which are edges and forward.
pub fn of_edges(alloc: Global) -> Result<Kept<Shown>, Fail> {
    let mut bridge = edges(alloc)?;
    bring_up(&mut bridge, 1);
    bring_up(&mut bridge, 2);
    history_of(alloc, all_of(alloc, bridge)?)
}

/// The number of the first entry of the history of [`of_fast_hello`]: one that does not fit 32 bits.
pub const FIRST_OF_FAST_HELLO: u64 = 4_294_967_296;

/// The history of a bridge of two ports with a hello time of one second, as of one that has gone on for long.
pub fn of_fast_hello(alloc: Global) -> Result<Kept<Shown>, Fail> {
    let mut bridge = bridge_of(alloc, &[port(IfIndex::of(1)), port(IfIndex::of(2))])?;
    bridge.put_setting(Key::Bridge(BridgeKey::Hello), 100);
    bridge.settle();
    let objects = objects(alloc, Planned::new())?;
    history_from(alloc, objects, all_of(alloc, bridge)?, FIRST_OF_FAST_HELLO)
}

/// A plan of so many rounds, over a bridge of two ports with peers.
pub fn plan_of(alloc: Global, rounds: u64) -> Result<Plan, Fail> {
    Ok(Plan {
        alloc,
        rounds,
        source: Mac([2, 0, 0, 0, 0, 10]),
        peers: Vec::from_array(alloc, [loopback(PEER_OF_PORT_1), loopback(PEER_OF_PORT_2)])?,
    })
}

/// Lines over wires of one kind, whose workers have gates of one kind, and whose ticker has a number
/// of seconds.
pub type LinesOver<W, G> = Lines<Gated<W, G>, W, Paced<W, CountPace>>;

/// What a run of so many rounds leaves, and its report.
pub fn run<O: MibObject + Send, W: Wire + Send, G: Gate + Send, R: Threads + Wait + Sync>(
    rt: &R,
    alloc: Global,
    rounds: u64,
    history: Kept<O>,
    lines: LinesOver<W, G>,
) -> Result<(LinesOver<W, G>, Kept<O>, Result<Report, RunFault>), Fail> {
    let plan = plan_of(alloc, rounds)?;
    if lines.workers.len() > 8 || lines.ports.len() > 2 {
        return Err(Fail::from("few lines"));
    }
    Ok(serve_run(rt, &plan, history, lines))
}

/// A wire that gives these messages of a manager, in order, and is closed behind them.
pub fn asking(alloc: Global, messages: &[Message<'_>]) -> Result<MemoryWire, Fail> {
    let mut wire = MemoryWire::new(alloc);
    for message in messages {
        wire.give_datagram(loopback(MANAGER), &octets_of(alloc, message)?)?;
    }
    Ok(wire)
}

/// A wire that gives this frame, and is closed behind it.
pub fn carrying(alloc: Global, frame: &[u8]) -> Result<MemoryWire, Fail> {
    let mut wire = MemoryWire::new(alloc);
    wire.give_datagram(loopback(PEER_OF_PORT_1), frame)?;
    Ok(wire)
}

/// A worker's wire that no gate holds.
pub fn open<W>(wire: W) -> Gated<W, OpenGate> {
    Gated {
        wire,
        gate: OpenGate,
    }
}

/// The lines of a bridge of two ports: these workers, a wire for port 1, and a closed one for port 2;
/// the ticker has so many seconds.
pub fn lines_under<G: Gate>(
    alloc: Global,
    workers: Vec<Gated<MemoryWire, G>>,
    port: MemoryWire,
    seconds: u64,
) -> Result<LinesOver<MemoryWire, G>, Fail> {
    Ok(Lines {
        workers,
        ports: Vec::from_array(alloc, [port, MemoryWire::new(alloc)])?,
        ticker: Paced {
            wire: MemoryWire::new(alloc),
            pace: CountPace::new(seconds),
        },
    })
}

/// The same of workers that no gate holds.
pub fn lines_of(
    alloc: Global,
    workers: Vec<MemoryWire>,
    port: MemoryWire,
    seconds: u64,
) -> Result<LinesOver<MemoryWire, OpenGate>, Fail> {
    let mut open_workers = Vec::new(alloc);
    for wire in workers {
        open_workers.push(open(wire))?;
    }
    lines_under(alloc, open_workers, port, seconds)
}

/// How many of these packets go to this peer.
pub fn packets_to(sent: &[Packet], to: SocketAddr) -> usize {
    sent.iter().filter(|packet| packet.peer == to).count()
}

/// How many of these packets bear these octets to this peer.
pub fn count_of(sent: &[Packet], to: SocketAddr, octets: &[u8]) -> usize {
    sent.iter()
        .filter(|packet| packet.peer == to && packet.octets.as_slice() == octets)
        .count()
}
