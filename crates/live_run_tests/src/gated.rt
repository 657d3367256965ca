//! Two workers at the same time, of which a gate holds one until the other's call is answered.
use crate::fixtures::message::Held::{Integer, NoObject, Null};
use crate::fixtures::message::{get, octets_of, of, reply, set};
use crate::fixtures::names::{FAMILY_TYPE, PORTS, PRIORITY};
use crate::fixtures::policies::BRIDGE_AND_TABLE;
use crate::support::{
    LinesOver, MANAGER, Shown, asking, count_of, lines_under, loopback, of_edges, policed, run,
};
use audit_core::Audit;
use history_core::Kept;
use live_agent::{AnsweredRequest, Gate, Gated};
use std::alloc::Global;
use std::sync::{Mutex, Wait};
use std::test::Fail;
use std::thread;
use std::thread::Threads;
use std::time::{Clock, Duration};
use wire_core::MemoryWire;

// How often a held worker checks whether the other's call is answered.
const TURNS: u32 = 1000;

// How long it waits between two checks, in milliseconds.
const TURN_MILLIS: u64 = 10;

// The calls of all workers that are to begin and those that are answered, and those that a gate let
// begin when its turns were over.
#[derive(Drop)]
struct Calls {
    asked: Mutex<u64>,
    answered: Mutex<u64>,
    late: Mutex<u64>,
}

// One more.
fn count<R: Wait>(rt: &R, counter: &Mutex<u64>) {
    let mut counter = counter.lock(rt);
    *counter = counter.saturating_add(1);
}

impl Calls {
    // None yet.
    fn new() -> Calls {
        Calls {
            asked: Mutex::new(0),
            answered: Mutex::new(0),
            late: Mutex::new(0),
        }
    }

    // Whether a call is answered.
    fn is_answered<R: Wait>(&self, rt: &R) -> bool {
        *self.answered.lock(rt) > 0
    }
}

// The gate of each worker, which holds the one of this number ahead of its call until a call is
// answered, for 1,000 turns of 10 milliseconds.
#[derive(Drop)]
struct HoldGate<'c, C> {
    held: usize,
    calls: &'c Calls,
    clock: C,
}

impl<C: Clock + Drop> Gate for HoldGate<'_, C> {
    ghost went = { λ _ _ _. Unit };

    ghost starts = { λ _. tt };

    ghost goes_on = { λ _ _ _ _ _ _ _. tt };

    fn before<R: Wait>(&mut self, rt: &R, worker: usize) {
        count(rt, &self.calls.asked);
        if worker != self.held {
            return;
        }
        for _ in 0..TURNS {
            if self.calls.is_answered(rt) {
                return;
            }
            thread::sleep(&self.clock, Duration::from_millis(TURN_MILLIS));
        }
        count(rt, &self.calls.late);
    }

    fn after<R: Wait>(
        &mut self,
        rt: &R,
        _worker: usize,
        _request: AnsweredRequest,
        _audit: &Audit,
    ) {
        count(rt, &self.calls.answered);
    }
}

// Worker 0, which sets, and worker 1, which asks, under these gates.
fn two_workers<G: Gate>(
    alloc: Global,
    setter: Gated<MemoryWire, G>,
    getter: Gated<MemoryWire, G>,
) -> Result<LinesOver<MemoryWire, G>, Fail> {
    let mut workers = Vec::new(alloc);
    workers.push(setter)?;
    workers.push(getter)?;
    lines_under(alloc, workers, MemoryWire::new(alloc), 0)
}

// How many replies the worker that asks sends while a gate holds the other, or itself, how many of
// them are as awaited, and how many entries there are; and how many calls the gate was asked for,
// and how many it let begin late.
type Read = ((usize, usize, u64), (u64, u64));

// What is read so by the wires of both workers, where these octets are awaited.
fn reads<C: Clock + Send + Copy, R: Threads + Wait + Sync>(
    rt: &R,
    alloc: Global,
    clock: C,
    held: usize,
    history: Kept<Shown>,
    setter: MemoryWire,
    getter: MemoryWire,
    awaited: &[u8],
) -> Result<Read, Fail> {
    let calls = Calls::new();
    let setter = Gated {
        wire: setter,
        gate: HoldGate {
            held,
            calls: &calls,
            clock,
        },
    };
    let getter = Gated {
        wire: getter,
        gate: HoldGate {
            held,
            calls: &calls,
            clock,
        },
    };
    let lines = two_workers(alloc, setter, getter)?;
    let (lines, _, report) = run(rt, alloc, 10, history, lines)?;
    let entries = report.ok().ok_or("a report")?.entries;
    let asking = lines.workers.get(1).ok_or("a worker")?;
    let reported = count_of(asking.wire.sent(), loopback(MANAGER), awaited);
    let (asked, late) = (*calls.asked.lock(rt), *calls.late.lock(rt));
    Ok(((asking.wire.sent().len(), reported, entries), (asked, late)))
}

#[test]
fn a_get_is_answered_beside_a_set(rt: HostRuntime) -> Result<(), Fail> {
    let alloc = rt.alloc();
    for (what, held, value) in [
        ("a held Get reads what was set", 1, 8192),
        ("a Get does not wait for a held Set", 0, 32768),
    ] {
        let setter = asking(alloc, &[of("admin", set(&[(PRIORITY, Integer(8192))]))])?;
        let getter = asking(alloc, &[get(&[(PRIORITY, Null)])])?;
        let awaited = octets_of(alloc, &reply(&[(PRIORITY, Integer(value))]))?;
        assert_eq!(rt;
            reads(
                &rt,
                alloc,
                &rt,
                held,
                of_edges(alloc)?,
                setter,
                getter,
                &awaited
            )?,
            ((1, 1, 4), (2, 0)),
            "{what}"
        );
    }
    Ok(())
}

// What is read beside a Set of `admin` that closes the view `bridge`, of an instance of that view.
fn reads_beside_closing<C: Clock + Send + Copy, R: Threads + Wait + Sync>(
    rt: &R,
    alloc: Global,
    clock: C,
    held: usize,
    awaited: &[u8],
) -> Result<Read, Fail> {
    let history = policed(alloc, BRIDGE_AND_TABLE)?;
    let setter = asking(alloc, &[of("admin", set(&[(FAMILY_TYPE, Integer(2))]))])?;
    let getter = asking(alloc, &[get(&[(PORTS, Null)])])?;
    reads(rt, alloc, clock, held, history, setter, getter, awaited)
}

#[test]
fn a_set_that_closes_a_view_judges_what_comes_behind_it(rt: HostRuntime) -> Result<(), Fail> {
    let alloc = rt.alloc();
    let hidden = octets_of(alloc, &reply(&[(PORTS, NoObject)]))?;
    assert_eq!(rt;
        reads_beside_closing(&rt, alloc, &rt, 1, &hidden)?,
        ((1, 1, 4), (2, 0)),
        "a held Get reads nothing of a closed view"
    );
    let shown = octets_of(alloc, &reply(&[(PORTS, Integer(2))]))?;
    assert_eq!(rt;
        reads_beside_closing(&rt, alloc, &rt, 0, &shown)?,
        ((1, 1, 4), (2, 0)),
        "a Get ahead of a held Set reads"
    );
    Ok(())
}
