//! Whole runs over wires in memory.
use crate::fixtures::message::Held::{Integer, NoObject, Null};
use crate::fixtures::message::{Message, Pdu, octets_of};
use crate::fixtures::names::{HELLO, PRIORITY};
use crate::fixtures::policies::MASKED;
use crate::support::{
    FIRST_OF_FAST_HELLO, FLOODED, LinesOver, MANAGER, PEER_OF_PORT_2, Shown, asking, carrying,
    count_of, lines_of, loopback, of_edges, of_fast_hello, packets_to, policed, run,
};
use history_core::Kept;
use live_agent::OpenGate;
use live_run::Report;
use std::alloc::Global;
use std::sync::Wait;
use std::test::Fail;
use std::thread::Threads;
use wire_core::MemoryWire;

// dot1dStpPortState of port 2.
const STATE_OF_2: &str = "1.3.6.1.2.1.17.2.15.1.3.2";

type Wires = LinesOver<MemoryWire, OpenGate>;

// What a run of one worker and a wire for port 1 leaves, and its report.
fn ran<R: Threads + Wait + Sync>(
    rt: &R,
    alloc: Global,
    history: Kept<Shown>,
    wires: (MemoryWire, MemoryWire),
    seconds: u64,
) -> Result<(Wires, Kept<Shown>, Report), Fail> {
    let (worker, port) = wires;
    let lines = lines_of(alloc, Vec::from_array(alloc, [worker])?, port, seconds)?;
    let (lines, history, report) = run(rt, alloc, 5000, history, lines)?;
    Ok((lines, history, report.ok().ok_or("a report")?))
}

// A bridge of two ports: of a view that hides, of edges, or with a hello time of one second.
#[derive(Clone, Copy)]
enum World {
    Masked,
    Edges,
    FastHello,
}

fn history_of(alloc: Global, world: World) -> Result<Kept<Shown>, Fail> {
    match world {
        World::Masked => policed(alloc, MASKED),
        World::Edges => of_edges(alloc),
        World::FastHello => of_fast_hello(alloc),
    }
}

// A worker of a bridge is asked messages, the last of them some times again, while so many seconds
// go by.
#[derive(Clone, Copy)]
struct Case<'a> {
    what: &'a str,
    world: World,
    messages: &'a [Message<'a>],
    again: usize,
    seconds: u64,
    // What some of its replies report; how many packets it sends to its manager, and how many of them
    // report that.
    reported: Message<'a>,
    replies: [usize; 2],
    // How many entries and requests there are, the base number, and how many receipts are older.
    counts: [u64; 4],
}

// A worker that is asked so.
fn worker_of(alloc: Global, case: &Case) -> Result<MemoryWire, Fail> {
    let mut wire = asking(alloc, case.messages)?;
    if let Some(last) = case.messages.last() {
        let octets = octets_of(alloc, last)?;
        for _ in 0..case.again {
            wire.give_datagram(loopback(MANAGER), &octets)?;
        }
    }
    Ok(wire)
}

// The replies and the counts of a run.
fn answers<R: Threads + Wait + Sync>(
    rt: &R,
    alloc: Global,
    case: &Case,
) -> Result<([usize; 2], [u64; 4]), Fail> {
    let octets = octets_of(alloc, &case.reported)?;
    let wires = (worker_of(alloc, case)?, MemoryWire::new(alloc));
    let history = history_of(alloc, case.world)?;
    let (lines, history, report) = ran(rt, alloc, history, wires, case.seconds)?;
    let worker = lines.workers.first().ok_or("a worker")?;
    let reported = count_of(worker.wire.sent(), loopback(MANAGER), &octets);
    let base = history.base_number();
    Ok((
        [packets_to(worker.wire.sent(), loopback(MANAGER)), reported],
        [report.entries, report.requests, base, report.older],
    ))
}

const SET_PRIORITY: Message<'static> = Message {
    community: "admin",
    pdu: Pdu::Set,
    id: 1,
    first: 0,
    second: 0,
    bindings: &[(PRIORITY, Integer(8192))],
};

const GET_PRIORITY: Message<'static> = Message {
    pdu: Pdu::Get,
    bindings: &[(PRIORITY, Null)],
    ..SET_PRIORITY
};

const GET_BOTH: Message<'static> = Message {
    bindings: &[(PRIORITY, Null), (HELLO, Null)],
    ..GET_PRIORITY
};

const GET_STATE: Message<'static> = Message {
    community: "public",
    bindings: &[(STATE_OF_2, Null)],
    ..GET_PRIORITY
};

const CASES: &[Case<'static>] = &[
    Case {
        what: "a Get reads what its worker set, beside two ports",
        world: World::Edges,
        messages: &[SET_PRIORITY, GET_PRIORITY],
        again: 0,
        seconds: 3,
        reported: Message {
            pdu: Pdu::Response,
            ..SET_PRIORITY
        },
        replies: [2, 2],
        counts: [7, 2, 0, 0],
    },
    Case {
        what: "a run hides what the view hides",
        world: World::Masked,
        messages: &[GET_STATE],
        again: 0,
        seconds: 0,
        reported: Message {
            pdu: Pdu::Response,
            bindings: &[(STATE_OF_2, NoObject)],
            ..GET_STATE
        },
        replies: [1, 1],
        counts: [3, 1, 0, 0],
    },
    Case {
        what: "a Set and 4,200 Gets move the base, at numbers of more than 32 bits",
        world: World::FastHello,
        messages: &[SET_PRIORITY, GET_BOTH],
        again: 4199,
        seconds: 0,
        reported: Message {
            pdu: Pdu::Response,
            bindings: &[(PRIORITY, Integer(8192)), (HELLO, Integer(100))],
            ..SET_PRIORITY
        },
        replies: [4201, 4200],
        counts: [4203, 4201, FIRST_OF_FAST_HELLO + 4096, 4096],
    },
];

#[test]
fn a_worker_answers_and_is_counted(rt: HostRuntime) -> Result<(), Fail> {
    for case in CASES {
        let what = case.what;
        let answered = answers(&rt, rt.alloc(), case)?;
        assert_eq!(rt; answered, (case.replies, case.counts), "{what}");
    }
    Ok(())
}

// A frame at port 1 goes out by port 2's peer, over port 1's wire, alone.
#[test]
fn a_run_forwards_a_frame(rt: HostRuntime) -> Result<(), Fail> {
    let alloc = rt.alloc();
    let wires = (MemoryWire::new(alloc), carrying(alloc, &FLOODED)?);
    let (lines, _, report) = ran(&rt, alloc, of_edges(alloc)?, wires, 0)?;
    let port = lines.ports.first().ok_or("a port")?;
    let forwarded = count_of(port.sent(), loopback(PEER_OF_PORT_2), &FLOODED);
    assert_eq!(rt; (port.sent().len(), forwarded, report.entries), (1, 1, 3));
    Ok(())
}
