//! How long a pace of whole seconds waits, and which seconds it misses, by a clock that a test sets.
use crate::clock::SetClock;
use std::alloc::Global;
use std::sync::Arc;
use std::test::*;
use wire_core::{MissedSeconds, Pace, SecondPace, WholeSecondPace};

// A pace that starts now by this clock, and the seconds that it misses.
fn pace_by(
    alloc: Global,
    clock: &SetClock,
) -> Result<(WholeSecondPace<&SetClock>, Arc<MissedSeconds, Global>), Fail> {
    let missed = Arc::new(alloc, MissedSeconds::new())?;
    let pace = WholeSecondPace::new(clock, Arc::try_clone(&missed)?)?;
    Ok((pace, missed))
}

// How many milliseconds a pace slept for its next tick by this clock.
fn slept<P: Pace>(pace: &mut P, clock: &SetClock) -> Result<u128, &'static str> {
    clock.forget_sleep();
    if !pace.next() {
        return Err("the pace ended");
    }
    Ok(clock.slept_millis())
}

// What lies between two ticks moves none of those behind it.
#[test]
fn ticks_come_at_whole_seconds(rt: HostRuntime) -> Result<(), Fail> {
    let clock = SetClock::at(5500);
    let (mut pace, missed) = pace_by(rt.alloc(), &clock)?;
    let first = slept(&mut pace, &clock)?;
    clock.set(6730);
    let second = slept(&mut pace, &clock)?;
    clock.set(7500);
    assert_eq!(rt;
        (first, second, slept(&mut pace, &clock)?, missed.take()),
        (1000, 770, 1000, 0)
    );
    Ok(())
}

// Where seconds passed meanwhile, the last of them has a tick at once, and those before it have none.
#[test]
fn seconds_that_passed_have_one_tick(rt: HostRuntime) -> Result<(), Fail> {
    let clock = SetClock::at(0);
    let (mut pace, missed) = pace_by(rt.alloc(), &clock)?;
    clock.set(3200);
    let passed = (slept(&mut pace, &clock)?, missed.take());
    let next = (slept(&mut pace, &clock)?, missed.take());
    assert_eq!(rt; (passed, next), ((0, 2), (800, 0)));
    Ok(())
}

// Weeks and a hundred years behind the start a tick comes at the next whole second still, and what passed
// since the one before is missed whole.
#[test]
fn ticks_come_at_whole_seconds_years_on(rt: HostRuntime) -> Result<(), Fail> {
    let clock = SetClock::at(0);
    let (mut pace, missed) = pace_by(rt.alloc(), &clock)?;
    clock.set(4_294_967_996);
    let weeks_on = (slept(&mut pace, &clock)?, missed.take());
    let next = (slept(&mut pace, &clock)?, missed.take());
    clock.set(4_294_967_296_250);
    let years_on = (slept(&mut pace, &clock)?, missed.take());
    let last = (slept(&mut pace, &clock)?, missed.take());
    assert_eq!(rt; (weeks_on, next), ((0, 4_294_966), (4, 0)));
    assert_eq!(rt; (years_on, last), ((0, 4_290_672_327), (750, 0)));
    Ok(())
}

// A tick that is late by less than a second misses none.
#[test]
fn late_tick_misses_no_second(rt: HostRuntime) -> Result<(), Fail> {
    let clock = SetClock::at(0);
    let (mut pace, missed) = pace_by(rt.alloc(), &clock)?;
    clock.set(1900);
    let late = slept(&mut pace, &clock)?;
    assert_eq!(rt;
        (late, slept(&mut pace, &clock)?, missed.take()),
        (0, 100, 0)
    );
    Ok(())
}

// Where the time passes within the wait for a tick, as where the program is stopped there, the tick is that
// of the last second that has come: there is no second one at once.
#[test]
fn seconds_that_pass_in_a_wait_have_one_tick(rt: HostRuntime) -> Result<(), Fail> {
    let clock = SetClock::at(0);
    let (mut pace, missed) = pace_by(rt.alloc(), &clock)?;
    clock.oversleep_by(4300);
    let late = (slept(&mut pace, &clock)?, missed.take());
    clock.oversleep_by(0);
    let next = (slept(&mut pace, &clock)?, missed.take());
    assert_eq!(rt; (late, next), ((1000, 4), (700, 0)));
    Ok(())
}

// A clock that cannot be read begins no pace, and is waited for by the second.
#[test]
fn clock_may_fail(rt: HostRuntime) -> Result<(), Fail> {
    let clock = SetClock::at(0);
    let (mut pace, missed) = pace_by(rt.alloc(), &clock)?;
    clock.stop();
    let is_refused = WholeSecondPace::new(&clock, Arc::try_clone(&missed)?).is_err();
    assert_eq!(rt; (is_refused, slept(&mut pace, &clock)?), (true, 1000));
    Ok(())
}

// A clock that could not be read once is gone by again where it can be.
#[test]
fn clock_that_failed_once_goes_on(rt: HostRuntime) -> Result<(), Fail> {
    let clock = SetClock::at(0);
    let (mut pace, missed) = pace_by(rt.alloc(), &clock)?;
    clock.stop();
    let unread = slept(&mut pace, &clock)?;
    clock.set(2500);
    let read = (slept(&mut pace, &clock)?, slept(&mut pace, &clock)?);
    assert_eq!(rt; (unread, read, missed.take()), (1000, (0, 500), 0));
    Ok(())
}

// Seconds that are missed at two times are counted together, once.
#[test]
fn missed_seconds_are_added(rt: HostRuntime) -> Result<(), Fail> {
    let missed = MissedSeconds::new();
    missed.add(2);
    missed.add(3);
    assert_eq!(rt; (missed.take(), missed.take()), (5, 0));
    Ok(())
}

// A pace of seconds waits for one each time.
#[test]
fn pace_of_seconds_waits_for_one(rt: HostRuntime) -> Result<(), Fail> {
    let clock = SetClock::at(0);
    let mut pace = SecondPace::new(&clock);
    let first = slept(&mut pace, &clock)?;
    assert_eq!(rt; (first, slept(&mut pace, &clock)?), (1000, 1000));
    Ok(())
}
