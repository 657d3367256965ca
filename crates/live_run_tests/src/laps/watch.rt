//! A watch that keeps what is reported to it.
use live_agent::End;
use live_control::ControlItem;
use live_laps::{Drops, LineName, Watch, WorkTotals, Worked};
use live_lock::Counts;
use std::sync::{Mutex, Wait};
use std::thread;
use std::time::{Clock, Duration};

// How often a held ticker checks whether the other lines have ended.
const TURNS: u32 = 1000;

// How long it waits between two lookups, in milliseconds.
const TURN_MILLIS: u64 = 10;

/// What all lines did since their start; what workers did, as far as their intervals have ended.
#[derive(Clone, Copy, Debug, PartialEq, Eq)]
pub struct Totals {
    /// The entries of the history since its start.
    pub entries: u64,
    /// Those of them that workers made.
    pub requests: u64,
    /// The entries by which the history's base has moved.
    pub older: u64,
    /// The datagrams that a worker received and that held no request.
    pub drops: u64,
    /// Those of them that held no message.
    pub malformed: u64,
}

/// What was reported to a watch of a worker, a port, a ticker and a control line.
#[derive(Clone, Copy)]
pub struct Reported {
    /// How many intervals the ticker made.
    pub laps: u64,
    /// The totals behind the last of them.
    pub totals: Totals,
    /// How the worker ended.
    pub worker: Option<End>,
    /// How the port ended.
    pub port: Option<End>,
    /// How the ticker ended.
    pub ticker: Option<End>,
    /// The latest fault of the worker, and how many there were.
    pub worker_fault: Option<(End, u64)>,
    /// The same of the port.
    pub port_fault: Option<(End, u64)>,
    /// The same of the ticker.
    pub ticker_fault: Option<(End, u64)>,
    /// How the control line ended.
    pub control: Option<End>,
    /// The latest fault of the control line, and how many there were.
    pub control_fault: Option<(End, u64)>,
}

// Nothing.
const NOTHING: Reported = Reported {
    laps: 0,
    totals: Totals {
        entries: 0,
        requests: 0,
        older: 0,
        drops: 0,
        malformed: 0,
    },
    worker: None,
    port: None,
    ticker: None,
    worker_fault: None,
    port_fault: None,
    ticker_fault: None,
    control: None,
    control_fault: None,
};

impl Reported {
    // The ticker made one interval more.
    fn interval(&mut self, totals: Totals) {
        self.laps = self.laps.saturating_add(1);
        self.totals = totals;
    }

    // A fault ended an interval of a line.
    fn failed(&mut self, line: LineName, end: End, faults: u64) {
        match line {
            LineName::Worker(_) => self.worker_fault = Some((end, faults)),
            LineName::Port(_) => self.port_fault = Some((end, faults)),
            LineName::Ticker => self.ticker_fault = Some((end, faults)),
            LineName::Control => self.control_fault = Some((end, faults)),
        }
    }

    // A line ended.
    fn ended(&mut self, line: LineName, end: End) {
        match line {
            LineName::Worker(_) => self.worker = Some(end),
            LineName::Port(_) => self.port = Some(end),
            LineName::Ticker => self.ticker = Some(end),
            LineName::Control => self.control = Some(end),
        }
    }

    // Whether the ticker is the last line.
    fn is_alone(&self) -> bool {
        self.worker.is_some() && self.port.is_some()
    }
}

/// What the watches of all lines keep.
#[derive(Drop)]
pub struct Kept {
    reported: Mutex<Reported>,
    book: WorkTotals,
}

impl Kept {
    /// Nothing yet.
    pub fn new() -> Kept {
        Kept {
            reported: Mutex::new(NOTHING),
            book: WorkTotals::new(),
        }
    }

    /// What was reported to them.
    pub fn reported<R: Wait>(&self, rt: &R) -> Reported {
        *self.reported.lock(rt)
    }
}

/// Keeps what is reported to it, and holds the ticker at the end of an interval until the other lines
/// have ended, for 1,000 turns of 10 milliseconds: what is reported of the next interval is then of all lines.
#[derive(Drop)]
pub struct HoldWatch<'r, R> {
    rt: &'r R,
    kept: &'r Kept,
}

impl<'r, R: Wait> HoldWatch<'r, R> {
    /// One that keeps here what is reported to it.
    pub fn new(rt: &'r R, kept: &'r Kept) -> HoldWatch<'r, R> {
        HoldWatch { rt, kept }
    }
}

impl<R: Wait + Clock> Watch for HoldWatch<'_, R> {
    ghost went = { λ _ _ _. Unit };

    ghost reports = { λ _ _. Unit };

    ghost starts = { λ _. tt };

    ghost goes_on = { λ _ _ _ _ _ _ _. tt };

    fn another(&self) -> Self {
        HoldWatch {
            rt: self.rt,
            kept: self.kept,
        }
    }

    fn dropped<S: Wait>(&self, rt: &S) -> Drops {
        self.kept.book.read(rt).by_cause
    }

    fn commanded(&self, _item: &ControlItem) {}

    fn worked<S: Wait>(&mut self, rt: &S, worked: Worked) {
        self.kept.book.add(rt, worked);
    }

    fn ticked<S: Wait>(&mut self, rt: &S, counts: Counts) {
        let worked = self.kept.book.read(rt);
        let totals = Totals {
            entries: counts.entries,
            requests: worked.requests,
            older: counts.older,
            drops: worked.drops,
            malformed: worked.by_cause.malformed,
        };
        self.kept.reported.lock(rt).interval(totals);
        for _ in 0..TURNS {
            if self.kept.reported(rt).is_alone() {
                return;
            }
            thread::sleep(self.rt, Duration::from_millis(TURN_MILLIS));
        }
    }

    fn failed(&mut self, line: LineName, end: End, faults: u64) {
        self.kept.reported.lock(self.rt).failed(line, end, faults);
    }

    fn ended(&mut self, line: LineName, end: End) {
        self.kept.reported.lock(self.rt).ended(line, end);
    }
}
