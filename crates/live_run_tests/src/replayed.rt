//! A run whose receipts are replayed one after another, over a history of an equal world.
ghost use Rattle.std.specs.Prelude.{IfOk};
ghost use Rattle.message_core.specs.Encodable.{AreEncodable};
ghost use Rattle.history_core.specs.Steps.{IsEncodable};

use crate::fixtures::message::Held::{Integer, Null};
use crate::fixtures::message::{Message, Pdu, octets_of};
use crate::fixtures::names::{LEARNED_PORT, PRIORITY, SINCE, STATE_1};
use crate::support::{
    FLOODED, PEER_OF_PORT_2, Shown, asking, carrying, count_of, lines_of, loopback, of_edges, run,
};
use agent_core::Buffer;
use history_core::{Applied, Event, Kept, Receipt, ReceiptEvent};
use live_agent::{Item, Ran};
use live_run::Runs;
use message_core::{Request, decode};
use std::alloc::Global;
use std::sync::Wait;
use std::test::Fail;
use std::thread::Threads;

const SET: Message<'static> = Message {
    community: "admin",
    pdu: Pdu::Set,
    id: 1,
    first: 0,
    second: 0,
    bindings: &[(PRIORITY, Integer(8192))],
};

const GET: Message<'static> = Message {
    pdu: Pdu::Get,
    bindings: &[(PRIORITY, Null), (SINCE, Null), (STATE_1, Null)],
    ..SET
};

// Asks for the first learned row, and for the priority, which comes behind this name.
const NEXT: Message<'static> = Message {
    pdu: Pdu::GetNext,
    id: 2,
    bindings: &[(LEARNED_PORT, Null), (PROTOCOL, Null)],
    ..SET
};

// What that is answered behind the Set and the frame.
const REPORTED: Message<'static> = Message {
    pdu: Pdu::Response,
    bindings: &[(PORT_OF_SENDER, Integer(1)), (PRIORITY, Integer(8192))],
    ..NEXT
};

// dot1dStpProtocolSpecification.0.
const PROTOCOL: &str = "1.3.6.1.2.1.17.2.1.0";

// dot1dTpFdbPort of the station that sends the frame to everybody.
const PORT_OF_SENDER: &str = "1.3.6.1.2.1.17.4.3.1.2.2.0.0.0.1.1";

// All that is asked of a run.
const ASKED: &[Message<'static>] = &[SET, GET, NEXT];

// The request among those asked of which a receipt reports.
fn asked(alloc: Global, reported: &Request) -> Result<Request, Fail>
    ensures { IfOk result (λ request. AreEncodable request.bindings) }
{
    for message in ASKED {
        let octets = octets_of(alloc, message)?;
        match decode(alloc, &octets) {
            Ok(request) if request.same(reported) => return Ok(request),
            _ => {}
        }
    }
    Err(Fail::from("a request that was asked"))
}

// The event of which a receipt reports.
fn event_of(alloc: Global, reported: &ReceiptEvent) -> Result<Event, Fail>
    ensures { IfOk result (λ event. IsEncodable event) }
{
    match reported {
        ReceiptEvent::Frame { port, frame } => Ok(Event::Frame {
            port: *port,
            frame: *frame,
        }),
        ReceiptEvent::Tick => Ok(Event::Tick),
        ReceiptEvent::Link { port, up } => Ok(Event::Link {
            port: *port,
            up: *up,
        }),
        ReceiptEvent::Request(request) => Ok(Event::Request(asked(alloc, request)?)),
        ReceiptEvent::Policy => Err(Fail::from("an event that a line has")),
    }
}

// The receipt of this number in what a line left.
fn receipt_in(ran: &Ran, number: u64) -> Option<&Receipt> {
    for item in ran.trace.as_slice() {
        match item {
            Item::Entered(receipt) if receipt.number == number => return Some(receipt),
            _ => {}
        }
    }
    None
}

// The receipt of this number in what some lines left.
fn receipt_among(runs: &[Ran], number: u64) -> Option<&Receipt> {
    for ran in runs {
        if let Some(receipt) = receipt_in(ran, number) {
            return Some(receipt);
        }
    }
    None
}

// The receipt of this number in a run.
fn receipt_at(runs: &Runs, number: u64) -> Option<&Receipt> {
    receipt_among(runs.workers.as_slice(), number)
        .or_else(|| receipt_among(runs.ports.as_slice(), number))
        .or_else(|| receipt_in(&runs.ticker, number))
}

// Whether the event of a receipt gives the same receipt where it happens to this history.
fn stands(alloc: Global, history: &mut Kept<Shown>, reported: &Receipt) -> Result<bool, Fail> {
    let mut buffer = Buffer::new();
    let event = event_of(alloc, &reported.event)?;
    match history.apply(alloc, event, &mut buffer) {
        Applied::Done(receipt, _) => Ok(receipt.same(reported)),
        _ => Ok(false),
    }
}

// How many of the first `entries` receipts of a run stand, one after another, in a history of an
// equal world; and that history.
fn replayed(alloc: Global, runs: &Runs, entries: u64) -> Result<(u64, Kept<Shown>), Fail> {
    let mut history = of_edges(alloc)?;
    for number in 0..entries {
        let reported = receipt_at(runs, number).ok_or("a receipt")?;
        if !stands(alloc, &mut history, reported)? {
            return Ok((number, history));
        }
    }
    Ok((entries, history))
}

// Whether a last request reports the learned row of the frame, and the priority that was set.
fn reports_all(alloc: Global, history: &mut Kept<Shown>) -> Result<bool, Fail> {
    let mut buffer = Buffer::new();
    let awaited = octets_of(alloc, &REPORTED)?;
    let octets = octets_of(alloc, &NEXT)?;
    match decode(alloc, &octets) {
        Ok(request) => {
            let _ = history.apply(alloc, Event::Request(request), &mut buffer);
        }
        Err(_) => return Err(Fail::from("a request")),
    }
    Ok(buffer.reply() == awaited.as_slice())
}

// How many entries a run of two workers, two ports and the ticker made, how many of them stand
// again, and whether a last request reports both histories alike; and how often the frame went out.
fn compared<R: Threads + Wait + Sync>(
    rt: &R,
    alloc: Global,
) -> Result<(u64, u64, [bool; 2], usize), Fail> {
    let workers = Vec::from_array(
        alloc,
        [asking(alloc, &[SET, NEXT])?, asking(alloc, &[GET])?],
    )?;
    let lines = lines_of(alloc, workers, carrying(alloc, &FLOODED)?, 3)?;
    let (lines, mut history, report) = run(rt, alloc, 10, of_edges(alloc)?, lines)?;
    let report = report.ok().ok_or("a report")?;
    let (stood, mut again) = replayed(alloc, &report.runs, report.entries)?;
    let reported = [
        reports_all(alloc, &mut history)?,
        reports_all(alloc, &mut again)?,
    ];
    let port = lines.ports.first().ok_or("a port")?;
    let forwarded = count_of(port.sent(), loopback(PEER_OF_PORT_2), &FLOODED);
    Ok((report.entries, stood, reported, forwarded))
}

// Three requests, two links that are up already, a frame that goes out by port 2 and three seconds
// are nine entries.
#[test]
fn the_receipts_of_a_run_replay(rt: HostRuntime) -> Result<(), Fail> {
    assert_eq!(rt; compared(&rt, rt.alloc())?, (9, 9, [true, true], 1));
    Ok(())
}
