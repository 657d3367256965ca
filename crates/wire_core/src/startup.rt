//! Whether all tasks of an agent have begun.
ghost use Rattle.std.specs.Prelude.{◌≡◌, ◌≤◌, ◌↔◌, IsTrue};
ghost use Rattle.wire_core.specs.Startup.{deadline_after, phase_number, phase_of};

use std::alloc::Global;
use std::io;
use std::sync::Arc;
use std::sync::atomic::{AtomicU8, AtomicU64, Ordering};
use std::time::{Clock, Duration};

/// How long the tasks of an agent have to begin, in milliseconds: 5,000.
pub const STARTUP_WAIT_MILLIS: u64 = 5000;

// How far a start is.
#[derive(Clone, Copy)]
enum Phase {
    // Tasks are still to begin.
    Waiting,
    // All have begun.
    Complete,
    // One had not begun in the time.
    Failed,
}

// The number of a phase.
const fn phase_number(phase: Phase) -> u8
    ensures { result ≡ phase_number phase }
{
    match phase {
        Phase::Waiting => 0,
        Phase::Complete => 1,
        Phase::Failed => 2,
    }
}

// The phase of a number.
fn phase_of(number: u8) -> Phase
    ensures { result ≡ phase_of number }
{
    match number {
        0 => Phase::Waiting,
        1 => Phase::Complete,
        _ => Phase::Failed,
    }
}

// The millisecond by which tasks are to have begun, for a start at this one: in it the time is over.
fn deadline_after(millis: u64) -> u64
    ensures { result ≡ deadline_after millis }
{
    millis.saturating_add(STARTUP_WAIT_MILLIS)
}

// Whether a deadline is over at this millisecond.
fn is_over(millis: u64, deadline: u64) -> bool
    ensures { IsTrue result ↔ (deadline ≤ millis) }
{
    deadline <= millis
}

// Whole milliseconds, as far as they can be counted.
fn whole_millis(time: Duration) -> u64 {
    u64::try_from(time.as_millis()).unwrap_or(u64::MAX)
}

/// The start of an agent's tasks, for any number of threads at once: how many of them have begun, and
/// whether the start has failed, since one had not begun within `STARTUP_WAIT_MILLIS`. Whether it failed
/// is decided once, and stays so. No clause says what is decided.
#[derive(Drop)]
pub struct Startup {
    // 0 until it is known.
    expected: AtomicU64,
    begun: AtomicU64,
    // By the clock, in milliseconds.
    deadline: AtomicU64,
    phase: AtomicU8,
}

impl Startup {
    /// One of which it is not known yet how many tasks there are. It neither is complete nor fails.
    pub fn new() -> Startup {
        Startup {
            expected: AtomicU64::new(0),
            begun: AtomicU64::new(0),
            deadline: AtomicU64::new(u64::MAX),
            phase: AtomicU8::new(phase_number(Phase::Waiting)),
        }
    }

    /// So many tasks are to begin from now on, with those that have. To be called once. Where the clock
    /// cannot be read, they have any time.
    pub fn expect<C: Clock>(&self, clock: &C, tasks: u64) {
        if let Ok(now) = clock.monotonic() {
            self.deadline
                .store(deadline_after(whole_millis(now)), Ordering::SeqCst);
        }
        self.expected.store(tasks, Ordering::SeqCst);
        self.note(self.begun.load(Ordering::SeqCst));
    }

    /// One task more has begun, unless the start has failed by now.
    pub fn report<C: Clock>(&self, clock: &C) {
        if self.has_failed(clock) {
            return;
        }
        let before = self.begun.fetch_add(1, Ordering::SeqCst);
        self.note(before.saturating_add(1));
    }

    // So many tasks have begun.
    fn note(&self, begun: u64) {
        let expected = self.expected.load(Ordering::SeqCst);
        if expected != 0 && begun >= expected {
            self.decide(Phase::Complete);
        }
    }

    // Decides the phase, where it is not decided yet. Gives what is decided.
    fn decide(&self, phase: Phase) -> Phase {
        let waiting = phase_number(Phase::Waiting);
        match self.phase.compare_exchange(
            waiting,
            phase_number(phase),
            Ordering::SeqCst,
            Ordering::SeqCst,
        ) {
            Ok(_) => phase,
            Err(decided) => phase_of(decided),
        }
    }

    /// Whether all tasks have begun, within the time.
    pub fn is_complete(&self) -> bool {
        let phase = phase_of(self.phase.load(Ordering::SeqCst));
        matches!(phase, Phase::Complete)
    }

    /// Whether a task had not begun within `STARTUP_WAIT_MILLIS`. Reads the clock only while tasks are
    /// still to begin, and where it cannot be read, the start has not failed.
    pub fn has_failed<C: Clock>(&self, clock: &C) -> bool {
        match phase_of(self.phase.load(Ordering::SeqCst)) {
            Phase::Complete => false,
            Phase::Failed => true,
            Phase::Waiting => {
                self.is_late(clock) && matches!(self.decide(Phase::Failed), Phase::Failed)
            }
        }
    }

    // Whether the time is over.
    fn is_late<C: Clock>(&self, clock: &C) -> bool {
        match clock.monotonic() {
            Ok(now) => is_over(whole_millis(now), self.deadline.load(Ordering::SeqCst)),
            Err(_) => false,
        }
    }
}

/// One task's part in a start: reports once that the task has begun, and says whether it is to end.
#[derive(Drop)]
pub struct TaskStart {
    startup: Arc<Startup, Global>,
    has_begun: bool,
}

impl TaskStart {
    /// That of a task that has not begun.
    ///
    /// # Errors
    /// That there are as many parts in the start as can be counted.
    pub fn new(startup: &Arc<Startup, Global>) -> io::Result<TaskStart> {
        Ok(TaskStart {
            startup: Arc::try_clone(startup)?,
            has_begun: false,
        })
    }

    /// That of another task, which has not begun.
    ///
    /// # Errors
    /// As of `new`.
    pub fn another(&self) -> io::Result<TaskStart> {
        TaskStart::new(&self.startup)
    }

    /// Reports that the task has begun, at the first call. Says whether it is to end, since the start has
    /// failed.
    pub fn is_to_end<C: Clock>(&mut self, clock: &C) -> bool {
        if !self.has_begun {
            self.has_begun = true;
            self.startup.report(clock);
        }
        self.startup.has_failed(clock)
    }

    /// Whether all tasks have begun.
    pub fn is_complete(&self) -> bool {
        self.startup.is_complete()
    }
}
