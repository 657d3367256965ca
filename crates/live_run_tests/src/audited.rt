//! The lines of audits: offered to a queue, and written.
use crate::support::{MANAGER, loopback};
use audit_core::{Audit, DeniedBindings, Unrestored};
use decision::Decision;
use line_output::{LineQueue, LinesInHand, MAX_AUDIT_OCTETS, Outlet, write_lines};
use live_agent::{AnsweredRequest, Gate};
use live_audit::QueuedAudits;
use message_core::{ErrorStatus, Kind};
use std::alloc::Global;
use std::io;
use std::io::{ErrorKind, Write};
use std::sync::Wait;
use std::test::Fail;
use std::thread::{self, join};
use std::time::{Clock, Duration};

// The audit of a request that has no variable bindings.
fn audit_of_nothing(alloc: Global) -> Audit {
    Audit {
        kind: Kind::Get,
        status: ErrorStatus::NoError,
        index: 0,
        decision: Decision::Empty,
        denied: DeniedBindings::new(alloc),
        unrestored: Unrestored::none(),
    }
}

// A request of the manager that made the entry of this number.
fn answered(number: u64) -> AnsweredRequest {
    AnsweredRequest {
        number,
        peer: loopback(MANAGER),
        request_id: -7,
    }
}

// An output that fails at so many writes, and keeps what it takes behind these.
#[derive(Drop)]
struct Recorder {
    failures: u8,
    taken: Vec<u8>,
}

impl Recorder {
    // One that fails at so many writes.
    fn failing(alloc: Global, failures: u8) -> Recorder {
        Recorder {
            failures,
            taken: Vec::new(alloc),
        }
    }
}

impl Write for Recorder {
    fn write(&mut self, buf: &[u8]) -> io::Result<usize> {
        if self.failures == 0 {
            return self.taken.write(buf);
        }
        self.failures -= 1;
        Err(io::Error::from(ErrorKind::BrokenPipe))
    }

    fn flush(&mut self) -> io::Result<()> {
        Ok(())
    }
}

impl Outlet for Recorder {
    fn is_ready(&self, _millis: u16) -> bool {
        true
    }
}

// Offers the lines of so many requests to a queue, the first of this number, and writes those that wait there
// to this output; gives how many were lost.
fn written<R: Wait + Clock>(
    rt: &R,
    alloc: Global,
    first: u64,
    requests: u64,
    audits: &mut Recorder,
) -> Result<u64, Fail> {
    let queue = LineQueue::new(alloc)?;
    let mut gate = QueuedAudits::new(alloc, &queue);
    let audit = audit_of_nothing(alloc);
    for number in 0..requests {
        gate.before(rt, 0);
        gate.after(rt, 0, answered(first.saturating_add(number)), &audit);
    }
    queue.close(rt);
    let mut log = Recorder::failing(alloc, 0);
    let mut hand = LinesInHand::new(alloc, false)?;
    write_lines(rt, alloc, &queue, &mut hand, audits, &mut log);
    Ok(queue.take_lost_audits(rt))
}

#[test]
fn lines_that_are_offered_are_written_in_order(rt: HostRuntime) -> Result<(), Fail> {
    let mut out = Recorder::failing(rt.alloc(), 0);
    let lost = written(&rt, rt.alloc(), 4_294_967_295, 2, &mut out)?;
    assert_eq!(rt;
        (out.taken.as_slice(), lost),
        (
            &b"4294967295 127.0.0.1:30001 -7 get 0 0 empty\n\
                4294967296 127.0.0.1:30001 -7 get 0 0 empty\n"[..],
            0
        )
    );
    Ok(())
}

// How many octets the lines of so many requests have.
fn octets_of(requests: u64) -> usize {
    (0..requests)
        .map(|number| answered_octets(number))
        .fold(0, |all: usize, octets| all.saturating_add(octets))
}

// How many octets the line of the request of this number has.
fn answered_octets(number: u64) -> usize {
    let digits = match number {
        0..=9 => 1,
        10..=99 => 2,
        100..=999 => 3,
        1000..=9999 => 4,
        _ => 5,
    };
    digits + 34
}

#[test]
fn lines_beyond_the_space_are_lost(rt: HostRuntime) -> Result<(), Fail> {
    let mut out = Recorder::failing(rt.alloc(), 0);
    let lost = written(&rt, rt.alloc(), 0, 60_000, &mut out)?;
    let lines = out.taken.iter().filter(|octet| **octet == b'\n').count() as u64;
    assert_eq!(rt; lines.saturating_add(lost), 60_000);
    assert_eq!(rt; out.taken.len(), octets_of(lines));
    assert!(rt; out.taken.len() <= MAX_AUDIT_OCTETS);
    assert!(rt; octets_of(lines.saturating_add(1)) > MAX_AUDIT_OCTETS);
    Ok(())
}

#[test]
fn lines_of_a_write_that_fails_are_lost(rt: HostRuntime) -> Result<(), Fail> {
    let mut out = Recorder::failing(rt.alloc(), 1);
    assert_eq!(rt; written(&rt, rt.alloc(), 0, 3, &mut out)?, 3);
    assert_eq!(rt; written(&rt, rt.alloc(), 0, 1, &mut out)?, 0);
    assert_eq!(rt;
        out.taken.as_slice(),
        &b"0 127.0.0.1:30001 -7 get 0 0 empty\n"[..]
    );
    Ok(())
}

// The task that writes waits for lines when none is offered any more.
#[test]
fn a_writer_that_waits_ends_at_the_close(rt: HostRuntime) -> Result<(), Fail> {
    let queue = LineQueue::new(rt.alloc())?;
    let mut hand = LinesInHand::new(rt.alloc(), false)?;
    let mut audits = Recorder::failing(rt.alloc(), 0);
    let mut log = Recorder::failing(rt.alloc(), 0);
    join(
        &rt,
        || write_lines(&rt, rt.alloc(), &queue, &mut hand, &mut audits, &mut log),
        || {
            thread::sleep(&rt, Duration::from_millis(200));
            queue.close(&rt);
        },
    );
    assert_eq!(rt; queue.take_lost_audits(&rt), 0);
    Ok(())
}
