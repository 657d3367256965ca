//! Paces of a tick at each whole second since their start, and the seconds that had none.
ghost use Rattle.std.specs.Prelude.{◌≡◌, ◌*◌, ◌-◌, ◌≤◌};
ghost use Rattle.std.specs.Duration.{as_nanos};
ghost use Rattle.wire_core.specs.Acts.{one_more};
ghost use Rattle.wire_core.specs.Pacing.{second_of_tick, missed_between};

use crate::pace::Pace;
use crate::startup::TaskStart;
use std::alloc::Global;
use std::sync::Arc;
use std::sync::atomic::{AtomicU64, Ordering};
use std::time::{Clock, Duration, Instant};
use std::{io, thread};

/// How many whole seconds had no tick, for any number of threads at once. No clause says what the count
/// is.
#[derive(Drop)]
pub struct MissedSeconds {
    seconds: AtomicU64,
}

impl MissedSeconds {
    /// None yet.
    pub fn new() -> MissedSeconds {
        MissedSeconds {
            seconds: AtomicU64::new(0),
        }
    }

    /// Counts so many more.
    pub fn add(&self, seconds: u64) {
        self.seconds.fetch_add(seconds, Ordering::SeqCst);
    }

    /// How many there were since this was last asked. Counts from 0 again.
    pub fn take(&self) -> u64 {
        self.seconds.swap(0, Ordering::SeqCst)
    }
}

/// A pace of a tick at each whole second since its start, without end. It waits, by the clock that it was
/// handed, until the second behind that of its last tick has come. Where later seconds have come by then,
/// as where the program was stopped, the tick is that of the last of them, and those between have none:
/// they are counted among the [`MissedSeconds`]. So there is one tick behind a gap, however long it is.
/// What lies between two ticks moves none of those behind it. Where the clock cannot be read, a tick comes
/// after a second, and is that of the second behind the last one's.
#[derive(Drop)]
pub struct WholeSecondPace<C> {
    clock: C,
    start: Instant,
    missed: Arc<MissedSeconds, Global>,
    // That of the last tick, counted from the start: 0 before the first.
    second: u64,
    // How many ticks there were.
    ticks: u64,
}

impl<C: Clock + Drop> WholeSecondPace<C> {
    /// One that starts now by this clock, which may be a reference to the runtime, and counts there the
    /// seconds that have no tick.
    ///
    /// # Errors
    /// That of the clock.
    pub fn new(clock: C, missed: Arc<MissedSeconds, Global>) -> io::Result<WholeSecondPace<C>> {
        let start = Instant::now(&clock)?;
        Ok(WholeSecondPace {
            clock,
            start,
            missed,
            second: 0,
            ticks: 0,
        })
    }

    // How long it is from now until the second behind that of the last tick.
    fn time_to_next(&self) -> Duration {
        match self.start.elapsed(&self.clock) {
            Ok(passed) => wait_between(passed, self.second.saturating_add(1)),
            Err(_) => Duration::from_secs(1),
        }
    }

    // The second of a tick that comes now.
    fn second_now(&self) -> u64
        ensures { one_more self.now.second ≤ result }
    {
        let passed = self.start.elapsed(&self.clock);
        second_of_tick(passed.unwrap_or(Duration::ZERO), self.second)
    }
}

// How long it is, when so much has passed since the start, until so many seconds have.
fn wait_between(passed: Duration, seconds: u64) -> Duration
    ensures { as_nanos result ≡ seconds * 1000000000 - as_nanos passed }
{
    Duration::from_secs(seconds).saturating_sub(passed)
}

// The second of a tick behind that of this second, when so much has passed since the start: the one behind
// it, or the last that is whole by then, where that is later.
fn second_of_tick(passed: Duration, second: u64) -> u64
    ensures { result ≡ second_of_tick (as_nanos passed) second }
{
    second.saturating_add(1).max(passed.as_secs())
}

// How many seconds between those of two ticks have none.
fn missed_between(second: u64, next: u64) -> u64
    ensures { result ≡ missed_between second next }
{
    next.saturating_sub(second.saturating_add(1))
}

impl<C: Clock + Drop> Pace for WholeSecondPace<C> {
    ghost use Rattle.wire_core.specs.Pacing.{TicksOn};
    ghost use Rattle.wire_core.specs.PacingLaws.{ticking_starts, ticking_goes_on};

    ghost went = { λ a answers b. TicksOn a.second a.ticks answers b.second b.ticks };

    ghost starts = { λ a. ticking_starts a.second a.ticks };

    ghost goes_on = { λ a b c xs ys.
        ticking_goes_on a.second a.ticks b.second b.ticks c.second c.ticks xs ys };

    fn next(&mut self) -> bool {
        thread::sleep(&self.clock, self.time_to_next());
        let second = self.second_now();
        self.missed.add(missed_between(self.second, second));
        self.second = second;
        self.ticks = self.ticks.saturating_add(1);
        true
    }
}

/// A pace of whole seconds, as [`WholeSecondPace`], of one of the tasks of an agent's start: its first
/// answer reports that the task has begun. Where the start has failed, before the wait for a tick or
/// behind it, the ticks end, once and for all; that they end only there, no clause says.
#[derive(Drop)]
pub struct StartingPace<C> {
    pace: WholeSecondPace<C>,
    clock: C,
    start: TaskStart,
    has_ended: bool,
}

impl<C: Clock + Copy + Drop> StartingPace<C> {
    /// One that starts now by this clock, which may be a reference to the runtime, and counts there the
    /// seconds that have no tick.
    ///
    /// # Errors
    /// That of the clock.
    pub fn new(
        clock: C,
        start: TaskStart,
        missed: Arc<MissedSeconds, Global>,
    ) -> io::Result<StartingPace<C>> {
        Ok(StartingPace {
            pace: WholeSecondPace::new(clock, missed)?,
            clock,
            start,
            has_ended: false,
        })
    }
}

impl<C: Clock + Copy + Drop> Pace for StartingPace<C> {
    ghost use Rattle.wire_core.specs.Pacing.{GoesOnUntilEnded};
    ghost use Rattle.wire_core.specs.PacingLaws.{ending_starts, ending_goes_on};

    ghost went = { λ a answers b.
        GoesOnUntilEnded a.has_ended a.pace.ticks answers b.has_ended b.pace.ticks };

    ghost starts = { λ a. ending_starts a.has_ended a.pace.ticks };

    ghost goes_on = { λ a b c xs ys. ending_goes_on a.has_ended a.pace.ticks b.has_ended
        b.pace.ticks c.has_ended c.pace.ticks xs ys };

    fn next(&mut self) -> bool {
        if self.has_ended || self.start.is_to_end(&self.clock) {
            self.has_ended = true;
            return false;
        }
        let more = self.pace.next();
        self.has_ended = !more || self.start.is_to_end(&self.clock);
        !self.has_ended
    }
}
