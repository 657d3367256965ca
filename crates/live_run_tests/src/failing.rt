//! Runs in which one call of one wire fails.
use crate::fixtures::message::Held::Null;
use crate::fixtures::message::get;
use crate::fixtures::names::PORTS;
use crate::support::{FLOODED, LinesOver, asking, carrying, of_edges, open, run};
use live_agent::{OpenGate, Paced};
use live_run::{Lines, RunFault};
use std::alloc::Global;
use std::sync::Wait;
use std::test::Fail;
use std::thread::Threads;
use wire_core::{CountPace, FailingWire, MemoryWire, WireFault};

type Wires = FailingWire<MemoryWire>;

// A line of a run. A port's has its number.
#[derive(Clone, Copy, Debug, PartialEq, Eq)]
enum FailingLine {
    Worker,
    Port(u16),
    Ticker,
}

// The number of the call that fails on the wire of one line, where another's is to fail 0.
fn fails_at(line: FailingLine, failing: FailingLine, call: u64) -> u64 {
    if line == failing { call } else { 0 }
}

// A worker with one Get, two ports, and a ticker of three seconds, of which one line's wire fails at
// this call. To one port comes a frame that is none, to the other one that goes out by the first.
fn lines_failing(
    alloc: Global,
    failing: FailingLine,
    call: u64,
) -> Result<LinesOver<Wires, OpenGate>, Fail> {
    let worker = FailingWire::new(
        asking(alloc, &[get(&[(PORTS, Null)])])?,
        fails_at(FailingLine::Worker, failing, call),
    );
    let first = FailingWire::new(
        carrying(alloc, &[0])?,
        fails_at(FailingLine::Port(1), failing, call),
    );
    let second = FailingWire::new(
        carrying(alloc, &FLOODED)?,
        fails_at(FailingLine::Port(2), failing, call),
    );
    let ticker = MemoryWire::new(alloc);
    Ok(Lines {
        workers: Vec::from_array(alloc, [open(worker)])?,
        ports: Vec::from_array(alloc, [first, second])?,
        ticker: Paced {
            wire: FailingWire::new(ticker, fails_at(FailingLine::Ticker, failing, call)),
            pace: CountPace::new(3),
        },
    })
}

// How a run ends where one call of a line's wire fails, and how many entries there are.
fn failed_at<R: Threads + Wait + Sync>(
    rt: &R,
    alloc: Global,
    failing: FailingLine,
    call: u64,
) -> Result<(Option<RunFault>, u64), Fail> {
    let lines = lines_failing(alloc, failing, call)?;
    let (_, history, report) = run(rt, alloc, 10, of_edges(alloc)?, lines)?;
    Ok((report.err(), history.next_number()))
}

const RECEIVE: Option<RunFault> = Some(RunFault::Wire(WireFault::Receive));

const SEND: Option<RunFault> = Some(RunFault::Wire(WireFault::Send));

// Each line's call that fails, how the run ends, and how many entries there are: one request, two
// links, the frame that is one and three seconds are seven. The other lines go on.
const CALLS: &[(FailingLine, u64, Option<RunFault>, u64)] = &[
    // The worker receives, replies, and finds its wire closed.
    (FailingLine::Worker, 1, RECEIVE, 6),
    (FailingLine::Worker, 2, SEND, 7),
    (FailingLine::Worker, 3, RECEIVE, 7),
    (FailingLine::Worker, 4, None, 7),
    // Port 1 receives what is no frame, and finds its wire closed.
    (FailingLine::Port(1), 1, RECEIVE, 7),
    (FailingLine::Port(1), 2, RECEIVE, 7),
    (FailingLine::Port(1), 3, None, 7),
    // Port 2 receives a frame, sends it to the peer of port 1, and finds its wire closed.
    (FailingLine::Port(2), 1, RECEIVE, 6),
    (FailingLine::Port(2), 2, SEND, 7),
    (FailingLine::Port(2), 3, RECEIVE, 7),
    (FailingLine::Port(2), 4, None, 7),
    // The ticker sends what both ports say each hello time of two seconds: at the first and at the
    // third. A second whose message is not sent is the last.
    (FailingLine::Ticker, 1, SEND, 5),
    (FailingLine::Ticker, 2, SEND, 5),
    (FailingLine::Ticker, 3, SEND, 7),
    (FailingLine::Ticker, 4, SEND, 7),
    (FailingLine::Ticker, 5, None, 7),
];

#[test]
fn a_line_ends_by_its_wire(rt: HostRuntime) -> Result<(), Fail> {
    for (line, call, fault, entries) in CALLS {
        let ended = failed_at(&rt, rt.alloc(), *line, *call)?;
        assert_eq!(rt; ended, (*fault, *entries), "{line:?} {call}");
    }
    Ok(())
}
