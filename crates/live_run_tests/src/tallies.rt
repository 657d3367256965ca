//! Counts that threads add to while another takes or reads them: nothing is lost between them.
use live_laps::{Drops, WorkTotals, Worked};
use std::sync::Wait;
use std::test::Fail;
use std::thread::{Threads, join};
use wire_core::{Cause, Losses};

// How often each thread adds to a count, and another takes or reads it.
const TIMES: u64 = 100_000;

// How often two threads add to a count.
const BY_TWO: u64 = 200_000;

// How often three do.
const BY_THREE: u64 = 300_000;

// An error of the system that has a count of its own.
const REFUSED: Cause = Cause::Number(1);

// Counts a lost datagram so often.
fn lose(losses: &Losses) {
    for _ in 0..TIMES {
        losses.add(REFUSED);
    }
}

// The sum of what is taken so often.
fn taken(losses: &Losses) -> u64 {
    let mut sum: u64 = 0;
    for _ in 0..TIMES {
        sum = sum.saturating_add(losses.take(REFUSED));
    }
    sum
}

// How many of the losses that two threads count a third takes in the meantime.
fn taken_beside<R: Threads + Sync>(rt: &R, losses: &Losses) -> u64 {
    let (sum, _) = join(
        rt,
        || taken(losses),
        || join(rt, || lose(losses), || lose(losses)),
    );
    sum
}

#[test]
fn losses_are_taken_once_each(rt: HostRuntime) -> Result<(), Fail> {
    let losses = Losses::new(rt.alloc())?;
    let sum = taken_beside(&rt, &losses);
    assert_eq!(rt; sum.saturating_add(losses.take(REFUSED)), BY_TWO);
    Ok(())
}

// An interval of a request and a datagram that was none.
const INTERVAL: Worked = Worked {
    requests: 1,
    drops: 1,
    by_cause: Drops {
        too_long: 0,
        malformed: 1,
        bad_version: 0,
        bad_kind: 0,
        memory: 0,
    },
};

// Adds an interval so often.
fn work<R: Wait>(rt: &R, book: &WorkTotals) {
    for _ in 0..TIMES {
        book.add(rt, INTERVAL);
    }
}

#[test]
fn intervals_of_threads_are_all_added(rt: HostRuntime) -> Result<(), Fail> {
    let book = WorkTotals::new();
    join(
        &rt,
        || work(&rt, &book),
        || join(&rt, || work(&rt, &book), || work(&rt, &book)),
    );
    let worked = book.read(&rt);
    assert_eq!(rt;
        (worked.requests, worked.drops, worked.by_cause.malformed),
        (BY_THREE, BY_THREE, BY_THREE)
    );
    Ok(())
}

// Whether what is read so often while others add to it goes up alone.
fn goes_up<R: Wait>(rt: &R, book: &WorkTotals) -> bool {
    let mut last: u64 = 0;
    for _ in 0..TIMES {
        let now = book.read(rt).requests;
        if now < last {
            return false;
        }
        last = now;
    }
    true
}

#[test]
fn totals_that_are_read_meanwhile_go_up(rt: HostRuntime) -> Result<(), Fail> {
    let book = WorkTotals::new();
    let (is_rising, _) = join(
        &rt,
        || goes_up(&rt, &book),
        || join(&rt, || work(&rt, &book), || work(&rt, &book)),
    );
    assert_eq!(rt; (is_rising, book.read(&rt).requests), (true, BY_TWO));
    Ok(())
}
