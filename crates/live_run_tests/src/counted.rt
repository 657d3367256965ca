//! The history that a run hands back has the very objects that were handed in: a device counts the
//! calls that it gets before and behind.
use crate::fixtures::message::Held::Integer;
use crate::fixtures::message::{Message, Pdu};
use crate::fixtures::names::{ENABLE_1, ENABLE_2, PRIORITY};
use crate::fixtures::worlds::built_in;
use crate::support::{asking, history_over, lines_of, run};
use bridge_mib::{LineDriver, PortEnable};
use history_core::Kept;
use object_list::{COLUMNS, ColumnDescriptor, ENABLE, PlainObject};
use setphase_core::{DeviceFault, MibObject};
use std::alloc::Global;
use std::sync::atomic::{AtomicU64, Ordering};
use std::sync::{Arc, Wait};
use std::test::Fail;
use std::thread::Threads;
use wire_core::MemoryWire;

// Never fails, and counts how often it is called with what the line of a port is to be.
#[derive(Drop)]
struct Counting {
    calls: Arc<AtomicU64, Global>,
}

impl LineDriver for Counting {
    ghost use Rattle.std.specs.Prelude.{◌≡◌, Ok, None};

    ghost failures = { λ _. 0 };

    ghost plan_left = { λ _. None };

    ghost reported = { λ _ _ _ answer _. answer ≡ Ok tt };

    fn set_enabled(&mut self, _port: u16, _enabled: bool) -> Result<(), DeviceFault> {
        self.calls.fetch_add(1, Ordering::SeqCst);
        Ok(())
    }

    fn arm(&mut self, _plan: u64) {}
}

// Port 1 is to be disabled.
const DISABLE_1: Message<'static> = Message {
    community: "admin",
    pdu: Pdu::Set,
    id: 1,
    first: 0,
    second: 0,
    bindings: &[(ENABLE_1, Integer(2))],
};

// Sets of port 1: to another value, to the same, and back.
const SETS_OF_1: &[Message<'static>] = &[
    DISABLE_1,
    DISABLE_1,
    Message {
        bindings: &[(ENABLE_1, Integer(1))],
        ..DISABLE_1
    },
];

// A Set of port 2.
const SET_OF_2: Message<'static> = Message {
    bindings: &[(ENABLE_2, Integer(2))],
    ..DISABLE_1
};

// The same beside two for which the device is not called: of a value that is never taken, and of the
// priority.
const SETS_BESIDE: &[Message<'static>] = &[
    Message {
        bindings: &[(ENABLE_2, Integer(3))],
        ..DISABLE_1
    },
    SET_OF_2,
    Message {
        bindings: &[(PRIORITY, Integer(8192))],
        ..DISABLE_1
    },
];

// What a run of a worker for each of these leaves of a history.
fn after<O: MibObject + Send, R: Threads + Wait + Sync>(
    rt: &R,
    alloc: Global,
    history: Kept<O>,
    asked: &[&[Message<'_>]],
) -> Result<Kept<O>, Fail> {
    let mut workers = Vec::new(alloc);
    for messages in asked {
        workers.push(asking(alloc, messages)?)?;
    }
    let lines = lines_of(alloc, workers, MemoryWire::new(alloc), 0)?;
    let (_, history, report) = run(rt, alloc, 10, history, lines)?;
    let _ = report.ok().ok_or("a report")?;
    Ok(history)
}

// How many calls the device of these objects has got when two workers made Sets, and how many when
// the history that came back was run once more, and one Set made.
fn calls_of<O: MibObject + Send, R: Threads + Wait + Sync>(
    rt: &R,
    alloc: Global,
    objects: Vec<O>,
    calls: &AtomicU64,
) -> Result<[u64; 2], Fail> {
    let history = history_over(alloc, objects, built_in(alloc)?)?;
    let history = after(rt, alloc, history, &[SETS_OF_1, SETS_BESIDE])?;
    let first = calls.load(Ordering::SeqCst);
    let _history = after(rt, alloc, history, &[&[SET_OF_2]])?;
    Ok([first, calls.load(Ordering::SeqCst)])
}

// The same of all objects of a bridge, each in a box, whose device counts.
fn counted<R: Threads + Wait + Sync>(rt: &R, alloc: Global) -> Result<[u64; 2], Fail> {
    let calls = Arc::new(alloc, AtomicU64::new(0))?;
    let driver = Counting {
        calls: Arc::try_clone(&calls)?,
    };
    let mut objects: Vec<Box<dyn MibObject + Send>> = Vec::new(alloc);
    for column in COLUMNS {
        objects.push(Box::new(alloc, PlainObject::new(ColumnDescriptor(column)))?)?;
    }
    *objects.get_mut(ENABLE).ok_or("an object")? = Box::new(alloc, PortEnable::new(driver))?;
    calls_of(rt, alloc, objects, &calls)
}

#[test]
fn a_history_comes_back_with_its_objects(rt: HostRuntime) -> Result<(), Fail> {
    assert_eq!(rt; counted(&rt, rt.alloc())?, [4, 5]);
    Ok(())
}
