//! A history, a plan and lines to test with.
use crate::fixtures::message::Held::Null;
use crate::fixtures::message::{get, octets_of};
use crate::fixtures::names::PORTS;
use crate::fixtures::worlds::built_in;
use crate::support::{MANAGER, OPERATOR, Shown, history_of, loopback, open};
use frame_core::Mac;
use history_core::Kept;
use live_agent::{OpenGate, Paced, Plan};
use live_control::Controlled;
use live_run::Lines;
use std::alloc::Global;
use std::test::Fail;
use wire_core::{CountPace, FailingWire, MemoryWire, WireInput};

/// Wires in memory, each of which fails at one call or at none.
pub type Wires = FailingWire<MemoryWire>;

/// Lines over them, whose workers no gate holds, and whose ticker has a number of seconds.
pub type LinesOver = crate::support::LinesOver<Wires, OpenGate>;

/// The wire of the control line.
pub type ControlOver = Controlled<Wires, Wires>;

/// The history of a bridge of two ports, which `public` reads, in which nothing has happened.
pub fn history(alloc: Global) -> Result<Kept<Shown>, Fail> {
    history_of(alloc, built_in(alloc)?)
}

/// A plan of two rounds an interval, over a bridge whose ports have no peers.
pub fn plan(alloc: Global) -> Plan {
    Plan {
        alloc,
        rounds: 2,
        source: Mac([2, 0, 0, 0, 0, 10]),
        peers: Vec::new(alloc),
    }
}

// A wire that gives five requests and a datagram that is none, and is closed behind them.
fn asking(alloc: Global) -> Result<MemoryWire, Fail> {
    let octets = octets_of(alloc, &get(&[(PORTS, Null)]))?;
    let mut wire = MemoryWire::new(alloc);
    for _ in 0..5 {
        wire.give_datagram(loopback(MANAGER), &octets)?;
    }
    wire.give_datagram(loopback(MANAGER), b"no request")?;
    Ok(wire)
}

// A wire that gives nothing three times, and is closed behind that.
fn quiet(alloc: Global) -> Result<MemoryWire, Fail> {
    let mut wire = MemoryWire::new(alloc);
    for _ in 0..3 {
        wire.give(WireInput::Nothing)?;
    }
    Ok(wire)
}

// A wire that fails ten times, and is closed behind that.
fn broken(alloc: Global) -> Result<MemoryWire, Fail> {
    let mut wire = MemoryWire::new(alloc);
    for _ in 0..10 {
        wire.give(WireInput::Fault)?;
    }
    Ok(wire)
}

// A worker and a port over these wires, and a ticker of three seconds.
fn lines_over(alloc: Global, worker: Wires, port: Wires) -> Result<LinesOver, Fail> {
    let mut workers = Vec::new(alloc);
    workers.push(open(worker))?;
    let mut ports = Vec::new(alloc);
    ports.push(port)?;
    Ok(Lines {
        workers,
        ports,
        ticker: Paced {
            wire: FailingWire::new(MemoryWire::new(alloc), 0),
            pace: CountPace::new(3),
        },
    })
}

/// A worker that is asked five times, and whose wire fails at this call, or at none where it is 0; a
/// port that hears nothing, whose wire does the same at another; and a ticker of three seconds.
pub fn lines_failing(alloc: Global, call: u64, port_call: u64) -> Result<LinesOver, Fail> {
    let worker = FailingWire::new(asking(alloc)?, call);
    let port = FailingWire::new(quiet(alloc)?, port_call);
    lines_over(alloc, worker, port)
}

/// A worker and a port whose wires do nothing but fail, and a ticker of three seconds.
pub fn lines_broken(alloc: Global) -> Result<LinesOver, Fail> {
    let worker = FailingWire::new(broken(alloc)?, 0);
    let port = FailingWire::new(broken(alloc)?, 0);
    lines_over(alloc, worker, port)
}

/// A control line's wire, which gives three commands, by two of which a link goes down and up, and is
/// closed behind them; the control wire fails at this call, or at none where it is 0.
pub fn commanding(alloc: Global, call: u64) -> Result<ControlOver, Fail> {
    let mut wire = MemoryWire::new(alloc);
    wire.give_datagram(loopback(OPERATOR), b"link 1 down")?;
    wire.give_datagram(loopback(OPERATOR), b"link 1 up")?;
    wire.give_datagram(loopback(OPERATOR), b"counts")?;
    Ok(Controlled {
        wire: FailingWire::new(MemoryWire::new(alloc), 0),
        control: FailingWire::new(wire, call),
    })
}
