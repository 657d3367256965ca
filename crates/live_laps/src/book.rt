//! What a worker did in an interval, and what all workers did, under a lock of its own.
ghost use Rattle.std.specs.Prelude.{◌≡◌, ◌+◌, ◌++◌, ◌∷◌, [], List};
ghost use Rattle.live_agent.specs.Turns.{entered_in};
ghost use Rattle.live_run.specs.Reports.{refused_in, count_up_to_max};
ghost use Rattle.live_laps.specs.Notes.{worked_in, dropped_by, drops_in, both_drops};
ghost use Rattle.live_agent.specs.declared.trace.Item.{Item as AnyItem};

use live_agent::{InputFault, Item};
use message_core::DropCause;
use std::sync::{Mutex, Wait};

/// How many datagrams each cause dropped. A count stops at `u64::MAX`.
#[derive(Clone, Copy, Debug, PartialEq, Eq, Drop)]
pub struct Drops {
    /// Longer than a datagram may be.
    pub too_long: u64,
    /// No message.
    pub malformed: u64,
    /// Of another version than SNMPv2c.
    pub bad_version: u64,
    /// No request.
    pub bad_kind: u64,
    /// No memory for the request.
    pub memory: u64,
}

/// What workers did in intervals.
#[derive(Clone, Copy, Debug, PartialEq, Eq, Drop)]
pub struct Worked {
    /// The requests that they entered.
    pub requests: u64,
    /// The datagrams that gave none.
    pub drops: u64,
    /// The same by cause.
    pub by_cause: Drops,
}

// 1 for a request that was entered.
fn entered(item: &Item) -> u64
    ensures { result ≡ entered_in (item.now ∷ []) }
{
    match item {
        Item::Entered(_) => 1,
        Item::Refused(_) | Item::Short | Item::Full => 0,
    }
}

// 1 for a datagram that was refused.
fn refused(item: &Item) -> u64
    ensures { result ≡ refused_in (item.now ∷ []) }
{
    match item {
        Item::Refused(_) => 1,
        Item::Entered(_) | Item::Short | Item::Full => 0,
    }
}

// 1 for a datagram that this cause dropped.
fn dropped(item: &Item, cause: DropCause) -> u64
    ensures { result ≡ dropped_by cause (item.now ∷ []) }
{
    match (cause, item) {
        (DropCause::TooLong, Item::Refused(InputFault::Datagram(DropCause::TooLong)))
        | (DropCause::Malformed, Item::Refused(InputFault::Datagram(DropCause::Malformed)))
        | (DropCause::BadVersion, Item::Refused(InputFault::Datagram(DropCause::BadVersion)))
        | (DropCause::BadKind, Item::Refused(InputFault::Datagram(DropCause::BadKind)))
        | (DropCause::Memory, Item::Refused(InputFault::Datagram(DropCause::Memory))) => 1,
        _ => 0,
    }
}

// The same by cause.
fn drops_of(item: &Item) -> Drops
    ensures { result ≡ drops_in (item.now ∷ []) }
{
    Drops {
        too_long: dropped(item, DropCause::TooLong),
        malformed: dropped(item, DropCause::Malformed),
        bad_version: dropped(item, DropCause::BadVersion),
        bad_kind: dropped(item, DropCause::BadKind),
        memory: dropped(item, DropCause::Memory),
    }
}

impl Drops {
    // With those of another interval. A count stops at `u64::MAX`.
    fn add(&mut self, more: Drops)
        ensures { self.new ≡ both_drops self.old more }
    {
        self.too_long = self.too_long.saturating_add(more.too_long);
        self.malformed = self.malformed.saturating_add(more.malformed);
        self.bad_version = self.bad_version.saturating_add(more.bad_version);
        self.bad_kind = self.bad_kind.saturating_add(more.bad_kind);
        self.memory = self.memory.saturating_add(more.memory);
    }
}

// The counts of one event, or of one datagram that was refused.
fn worked_of(item: &Item) -> Worked
    ensures { result ≡ worked_in (item.now ∷ []) }
{
    Worked {
        requests: entered(item),
        drops: refused(item),
        by_cause: drops_of(item),
    }
}

impl Worked {
    /// Nothing yet.
    pub(crate) fn nothing() -> Worked
        ensures { result ≡ worked_in [] }
    {
        Worked {
            requests: 0,
            drops: 0,
            by_cause: Drops {
                too_long: 0,
                malformed: 0,
                bad_version: 0,
                bad_kind: 0,
                memory: 0,
            },
        }
    }

    /// With one event more, or one datagram more that was refused. A count stops at `u64::MAX`.
    pub(crate) fn count(&mut self, item: &Item)
        ensures { (before : List AnyItem) → self.old ≡ worked_in before →
            self.new ≡ worked_in (before ++ item.now ∷ []) }
    {
        self.add(worked_of(item));
    }

    // With another interval. A count stops at `u64::MAX`.
    fn add(&mut self, interval: Worked)
        ensures requests { self.new.requests
            ≡ count_up_to_max (self.old.requests + interval.requests) }
        ensures drops { self.new.drops ≡ count_up_to_max (self.old.drops + interval.drops) }
        ensures by_cause { self.new.by_cause ≡ both_drops self.old.by_cause interval.by_cause }
    {
        self.requests = self.requests.saturating_add(interval.requests);
        self.drops = self.drops.saturating_add(interval.drops);
        self.by_cause.add(interval.by_cause);
    }
}

/// What workers did in intervals so far, for the watches of all lines.
#[derive(Drop)]
pub struct WorkTotals {
    worked: Mutex<Worked>,
}

impl WorkTotals {
    /// Nothing yet.
    pub fn new() -> WorkTotals {
        WorkTotals {
            worked: Mutex::new(Worked::nothing()),
        }
    }

    /// Adds an interval of a worker.
    pub fn add<R: Wait>(&self, rt: &R, interval: Worked) {
        self.worked.lock(rt).add(interval);
    }

    /// What there is by now.
    pub fn read<R: Wait>(&self, rt: &R) -> Worked {
        *self.worked.lock(rt)
    }
}
