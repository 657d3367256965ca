//! A clock that a test sets.
use std::cell::Cell;
use std::io;
use std::time::{Clock, Duration};

/// A clock that stands still but for its sleeps, each of which may last too long, where the test sets it on,
/// and where each reading moves it. It cannot be read where it has no time.
#[derive(Drop)]
pub struct SetClock {
    now: Cell<Option<Duration>>,
    slept: Cell<Duration>,
    step: Cell<Duration>,
    overslept: Cell<Duration>,
}

impl SetClock {
    /// One that reads so many milliseconds.
    pub fn at(millis: u64) -> SetClock {
        SetClock {
            now: Cell::new(Some(Duration::from_millis(millis))),
            slept: Cell::new(Duration::ZERO),
            step: Cell::new(Duration::ZERO),
            overslept: Cell::new(Duration::ZERO),
        }
    }

    /// From now on it reads so many milliseconds.
    pub fn set(&self, millis: u64) {
        self.now.set(Some(Duration::from_millis(millis)));
    }

    /// From now on it cannot be read.
    pub fn stop(&self) {
        self.now.set(None);
    }

    /// From now on each reading moves it by so many milliseconds.
    pub fn step_by(&self, millis: u64) {
        self.step.set(Duration::from_millis(millis));
    }

    /// From now on each sleep lasts so many milliseconds longer.
    pub fn oversleep_by(&self, millis: u64) {
        self.overslept.set(Duration::from_millis(millis));
    }

    /// As if it had not slept yet.
    pub fn forget_sleep(&self) {
        self.slept.set(Duration::ZERO);
    }

    /// How many milliseconds its last sleep was to last.
    pub fn slept_millis(&self) -> u128 {
        self.slept.get().as_millis()
    }
}

impl Clock for SetClock {
    fn monotonic(&self) -> io::Result<Duration> {
        match self.now.get() {
            Some(now) => {
                self.now.set(Some(now.saturating_add(self.step.get())));
                Ok(now)
            }
            None => Err(io::Error::from(io::ErrorKind::Unsupported)),
        }
    }

    // What is set while it runs is no clock to go by.
    fn since_1970(&self) -> io::Result<Duration> {
        Err(io::Error::from(io::ErrorKind::Unsupported))
    }

    fn sleep(&self, duration: Duration) {
        self.slept.set(duration);
        if let Some(now) = self.now.get() {
            let slept = duration.saturating_add(self.overslept.get());
            self.now.set(Some(now.saturating_add(slept)));
        }
    }
}
