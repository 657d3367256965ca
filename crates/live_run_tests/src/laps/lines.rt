//! A worker, a port, a ticker and a control line of two rounds an interval, whose wires and pace give more than that.
use crate::laps::support::{
    ControlOver, LinesOver, commanding, history, lines_broken, lines_failing, plan,
};
use crate::laps::watch::{self, HoldWatch, Reported, Totals};
use live_agent::End;
use live_laps::{Watch, lines_of, serve_laps};
use std::alloc::Global;
use std::sync::Wait;
use std::test::Fail;
use std::thread::Threads;
use std::time::Clock;
use wire_core::{CountPace, WireFault};

// How the worker, the port and the ticker of a run ended.
type Ends = (End, End, End);

// How each of three lines ended, with a control line behind them or without.
fn three(ends: &[End]) -> Option<Ends> {
    match ends {
        [worker, port, ticker] | [worker, port, ticker, _] => Some((*worker, *port, *ticker)),
        _ => None,
    }
}

// How the lines of a run end that may each wait so often behind a fault, and how many entries there
// are.
fn run<V: Watch + Send, R: Threads + Wait + Sync>(
    rt: &R,
    alloc: Global,
    watch: V,
    waits: u64,
    lines: LinesOver,
    control: Option<ControlOver>,
) -> Result<(Option<Ends>, u64), Fail> {
    if lines.workers.len() > 1 || lines.ports.len() > 1 {
        return Err(Fail::from("three lines"));
    }
    let lines = lines_of(alloc, lines, control, watch, CountPace::new(waits))?;
    let (history, _, ends) = serve_laps(rt, &plan(alloc), history(alloc)?, lines);
    Ok((three(ends?.as_slice()), history.next_number()))
}

// The same of lines with a watch, and what that was reported.
fn watched<R: Threads + Wait + Clock + Sync>(
    rt: &R,
    alloc: Global,
    waits: u64,
    lines: LinesOver,
) -> Result<(Option<Ends>, u64, Reported), Fail> {
    commanded(rt, alloc, waits, lines, None)
}

// The same beside a control line, if there is a wire for it.
fn commanded<R: Threads + Wait + Clock + Sync>(
    rt: &R,
    alloc: Global,
    waits: u64,
    lines: LinesOver,
    control: Option<ControlOver>,
) -> Result<(Option<Ends>, u64, Reported), Fail> {
    let kept = watch::Kept::new();
    let watch = HoldWatch::new(rt, &kept);
    let (ends, entries) = run(rt, alloc, watch, waits, lines, control)?;
    Ok((ends, entries, kept.reported(rt)))
}

// The same of a run in which a call of the worker's wire fails, and no line may wait.
fn failed_at<R: Threads + Wait + Clock + Sync>(
    rt: &R,
    alloc: Global,
    call: u64,
) -> Result<(Option<Ends>, u64, Reported), Fail> {
    watched(rt, alloc, 0, lines_failing(alloc, call, 0)?)
}

// Totals of so many entries, requests and drops, all of which held no message, in which the base has
// not moved.
fn totals(entries: u64, requests: u64, drops: u64) -> Totals {
    Totals {
        entries,
        requests,
        older: 0,
        drops,
        malformed: drops,
    }
}

// How the three lines ended, as a watch was reported.
fn ends_reported(reported: &Reported) -> (Option<End>, Option<End>, Option<End>) {
    (reported.worker, reported.port, reported.ticker)
}

const CLOSED: Option<End> = Some(End::Closed);

const ALL_CLOSED: Ends = (End::Closed, End::Closed, End::Closed);

const RECEIVE: End = End::Wire(WireFault::Receive);

const SEND: End = End::Wire(WireFault::Send);

// Five requests, one link, though the port makes two intervals, and three seconds, of which the
// ticker makes two intervals.
#[test]
fn lines_go_on_until_they_are_closed(rt: HostRuntime) -> Result<(), Fail> {
    let (ends, entries, reported) = failed_at(&rt, rt.alloc(), 0)?;
    assert_eq!(rt; ends, Some(ALL_CLOSED));
    assert_eq!(rt;
        (entries, reported.laps, reported.totals),
        (9, 2, totals(9, 5, 1))
    );
    assert_eq!(rt; ends_reported(&reported), (CLOSED, CLOSED, CLOSED));
    Ok(())
}

// The line whose wire fails at a call.
#[derive(Clone, Copy, Debug, PartialEq, Eq)]
enum FailingLine {
    Worker,
    Port,
    Control,
}

// Runs in which the wire of a line fails at the first call, at the last and at each between them, at none
// where that is 0, and each line may wait so often behind a fault. A control line is there where its wire is
// the one that fails.
struct Case {
    what: &'static str,
    failing: FailingLine,
    calls: (u64, u64),
    waits: u64,
    // How the worker, the port and the ticker end; how the control line ends, if there is one; how many
    // entries there are, and how many faults of all four the watch was reported.
    ends: Ends,
    control: Option<End>,
    entries: u64,
    faults: [u64; 4],
}

const CASES: &[Case] = &[
    Case {
        what: "the others go on beside a worker that may not wait behind its first receive",
        failing: FailingLine::Worker,
        calls: (1, 1),
        waits: 0,
        ends: (RECEIVE, End::Closed, End::Closed),
        control: None,
        entries: 4,
        faults: [1, 0, 0, 0],
    },
    Case {
        what: "the same behind its third reply, which is in its second interval",
        failing: FailingLine::Worker,
        calls: (6, 6),
        waits: 0,
        ends: (SEND, End::Closed, End::Closed),
        control: None,
        entries: 7,
        faults: [1, 0, 0, 0],
    },
    Case {
        what: "a worker goes on behind a fault, and its five requests are entered",
        failing: FailingLine::Worker,
        calls: (1, 11),
        waits: 1,
        ends: ALL_CLOSED,
        control: None,
        entries: 9,
        faults: [1, 0, 0, 0],
    },
    Case {
        what: "a port goes on behind a fault, and its link is entered once",
        failing: FailingLine::Port,
        calls: (1, 4),
        waits: 1,
        ends: ALL_CLOSED,
        control: None,
        entries: 9,
        faults: [0, 1, 0, 0],
    },
    Case {
        what: "two commands are entered beside what the others enter",
        failing: FailingLine::Control,
        calls: (0, 0),
        waits: 1,
        ends: ALL_CLOSED,
        control: CLOSED,
        entries: 11,
        faults: [0, 0, 0, 0],
    },
    Case {
        what: "a control line goes on behind a fault",
        failing: FailingLine::Control,
        calls: (1, 7),
        waits: 1,
        ends: ALL_CLOSED,
        control: CLOSED,
        entries: 11,
        faults: [0, 0, 0, 1],
    },
    Case {
        what: "a control line that may not wait ends alone",
        failing: FailingLine::Control,
        calls: (1, 1),
        waits: 0,
        ends: ALL_CLOSED,
        control: Some(RECEIVE),
        entries: 9,
        faults: [0, 0, 0, 1],
    },
];

// The number of the call that fails on the wire of one line, where another's is to fail 0.
fn fails_at(line: FailingLine, case: &Case, call: u64) -> u64 {
    if line == case.failing { call } else { 0 }
}

// How many faults of a line a watch was reported.
fn faults_of(fault: Option<(End, u64)>) -> u64 {
    fault.map_or(0, |fault| fault.1)
}

// What comes of a case at one call.
fn outcome<R: Threads + Wait + Clock + Sync>(
    rt: &R,
    alloc: Global,
    case: &Case,
    call: u64,
) -> Result<(Option<Ends>, Option<End>, u64, [u64; 4]), Fail> {
    let worker = fails_at(FailingLine::Worker, case, call);
    let port = fails_at(FailingLine::Port, case, call);
    let lines = lines_failing(alloc, worker, port)?;
    let control = match case.failing {
        FailingLine::Control => Some(commanding(alloc, call)?),
        FailingLine::Worker | FailingLine::Port => None,
    };
    let (ends, entries, reported) = commanded(rt, alloc, case.waits, lines, control)?;
    let faults = [
        faults_of(reported.worker_fault),
        faults_of(reported.port_fault),
        faults_of(reported.ticker_fault),
        faults_of(reported.control_fault),
    ];
    Ok((ends, reported.control, entries, faults))
}

#[test]
fn lines_go_on_behind_faults_and_beside_one_another(rt: HostRuntime) -> Result<(), Fail> {
    for case in CASES {
        let (first, last) = case.calls;
        for call in first..=last {
            let outcome = outcome(&rt, rt.alloc(), case, call)?;
            let awaited = (Some(case.ends), case.control, case.entries, case.faults);
            assert_eq!(rt; outcome, awaited, "{}: {call}", case.what);
        }
    }
    Ok(())
}

// Wires that do nothing but fail: each fault is counted, and that behind which the pace has ended is
// the last.
#[test]
fn broken_lines_end_with_their_pace(rt: HostRuntime) -> Result<(), Fail> {
    let alloc = rt.alloc();
    for waits in 0..4 {
        let (ends, entries, reported) = watched(&rt, alloc, waits, lines_broken(alloc)?)?;
        let last = Some((RECEIVE, waits + 1));
        assert_eq!(rt; ends, Some((RECEIVE, RECEIVE, End::Closed)));
        assert_eq!(rt;
            (entries, reported.worker_fault, reported.port_fault),
            (4, last, last)
        );
        assert_eq!(rt;
            ends_reported(&reported),
            (Some(RECEIVE), Some(RECEIVE), CLOSED)
        );
    }
    Ok(())
}
