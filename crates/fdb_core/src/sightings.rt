//! The addresses by the moment at which each was learned (IEEE 802.1D-2004, 7.8 and 7.9): a second
//! in which none is old enough to go touches none of them.
ghost use Rattle.std.specs.Prelude.{◌≡◌, ◌≢◌, ◌≤◌, ◌<◌, ◌+◌, ◌-◌, [], length, map, IfOk};
ghost use Rattle.std.specs.BTreeMap.{values};
ghost use Rattle.std.specs.BTreeMap.Range.{entries_between};
ghost use Rattle.std.specs.declared.ops.Bound.TheVariants.{Unbounded};
ghost use Rattle.frame_core.specs.Octets.{mac_cmp};
ghost use Rattle.fdb_core.specs.Rows.{older_row, port_of, next_after, young_rows, other_rows};
ghost use Rattle.fdb_core.specs.Learning.{answer, learned_rows};
ghost use Rattle.fdb_core.specs.Seen.{rows_at, first_row, young_entries, other_entries, lowered_entries, oldest_tick, IsTimed, IsReady};
ghost use Rattle.fdb_core.specs.declared.learnt.Learnt.TheVariants.{New, Memory};

use crate::learnt::Learnt;
use crate::row::{LearnedRow, MAX_AGING_TIME};
use crate::seen::{LAST_TICK, Seen};
use frame_core::Mac;
use std::alloc::{AllocError, Global};
use std::collections::BTreeMap;
use std::ops::Bound;

/// The learned addresses and the time.
#[derive(Drop)]
pub struct Sightings {
    /// Where and when each address was last learned.
    pub seen: BTreeMap<Mac, Seen>,
    /// The tick number: the seconds that have passed, less those that were lowered.
    pub tick: u32,
    /// A tick before which none of the addresses was learned. It is made anew where one may be old
    /// enough to go.
    pub oldest: u32,
}

// Forgets the addresses whose age has reached the limit (7.9.2).
fn forget_old(seen: &mut BTreeMap<Mac, Seen>, tick: u32, limit: u32)
    ensures { seen.new.entries ≡ young_entries tick limit seen.old.entries }
{
    seen.retain(|_, seen| seen.age(tick) < limit);
}

// Lowers the ticks of all addresses.
fn lower_all(seen: &mut BTreeMap<Mac, Seen>, by: u32)
    ensures { seen.new.entries ≡ lowered_entries by seen.old.entries }
{
    seen.retain(|_, seen| {
        seen.lower(by);
        true
    });
}

// Forgets the addresses of these ports (7.9). Where there is no port, no address is read.
fn forget_ports(seen: &mut BTreeMap<Mac, Seen>, ports: &[u16])
    ensures { seen.new.entries ≡ other_entries ports.now seen.old.entries }
{
    if ports.is_empty() {
        return;
    }
    seen.retain(|_, seen| !ports.contains(&seen.port));
}

// The lowest tick of the addresses, or this one where it is lower.
fn oldest_of(seen: &BTreeMap<Mac, Seen>, tick: u32) -> u32
    ensures { result ≡ oldest_tick tick (values seen.now) }
{
    let mut oldest = tick;
    for seen in seen.values() {
        oldest = oldest.min(seen.tick);
    }
    oldest
}

impl Sightings {
    /// No addresses, at this tick. This takes no memory.
    pub fn new(alloc: Global, tick: u32) -> Sightings
        requires { tick < LAST_TICK }
        ensures seen { result.seen.entries ≡ [] }
        ensures ready { IsReady result.oldest result.tick result.seen.entries }
    {
        Sightings {
            seen: BTreeMap::new(alloc),
            tick,
            oldest: tick,
        }
    }

    /// The same addresses, learned at the same moments. Only the copy takes memory.
    pub fn try_copy(&self) -> Result<Sightings, AllocError>
        ensures seen { IfOk result (λ copy. copy.seen.entries ≡ self.now.seen.entries) }
        ensures tick { IfOk result (λ copy. copy.tick ≡ self.now.tick) }
        ensures oldest { IfOk result (λ copy. copy.oldest ≡ self.now.oldest) }
    {
        let Sightings { seen, tick, oldest } = self;
        Ok(Sightings {
            seen: seen.clone()?,
            tick: *tick,
            oldest: *oldest,
        })
    }

    /// The rows by rising address. Only the vector takes memory.
    pub fn try_rows(&self, alloc: Global) -> Result<Vec<LearnedRow>, AllocError>
        ensures { IfOk result (λ rows.
            rows.items ≡ rows_at self.now.tick self.now.seen.entries) }
    {
        self.seen
            .iter()
            .map(|(address, seen)| LearnedRow {
                address: *address,
                port: seen.port,
                age: seen.age(self.tick),
            })
            .collect(alloc)
    }

    /// The port of the address, if it is known (7.9).
    pub fn port_of(&self, address: Mac) -> Option<u16>
        ensures { result ≡ port_of (rows_at self.now.tick self.now.seen.entries) address }
    {
        let seen = self.seen.get(&address)?;
        Some(seen.port)
    }

    // The row of the lowest address within the bound.
    fn first_from(&self, lowest: Bound<Mac>) -> Option<LearnedRow>
        ensures { result ≡ first_row self.now.tick
            (entries_between mac_cmp lowest Unbounded self.now.seen.entries) }
    {
        let (address, seen) = self.seen.range((lowest, Bound::Unbounded)).next()?;
        Some(LearnedRow {
            address: *address,
            port: seen.port,
            age: seen.age(self.tick),
        })
    }

    /// The row of the lowest address above this one, or of the lowest address of all.
    pub fn row_after(&self, after: Option<Mac>) -> Option<LearnedRow>
        ensures { result ≡ next_after (rows_at self.now.tick self.now.seen.entries) after }
    {
        match after {
            None => self.first_from(Bound::Unbounded),
            Some(address) => self.first_from(Bound::Excluded(address)),
        }
    }

    /// Learns an address on a port (7.8): it was learned there now, unless it is not known and
    /// there is no place or no memory.
    pub fn learn(&mut self, limit: usize, address: Mac, port: u16) -> Learnt
        requires ready { IsReady self.old.oldest self.old.tick self.old.seen.entries }
        requires few { length self.old.seen.entries ≤ limit }
        ensures rows { rows_at self.new.tick self.new.seen.entries
            ≡ learned_rows result (rows_at self.old.tick self.old.seen.entries) address port }
        ensures answer { result ≢ Memory → result
            ≡ answer (rows_at self.old.tick self.old.seen.entries) limit address port }
        ensures memory { result ≡ Memory
            → answer (rows_at self.old.tick self.old.seen.entries) limit address port ≡ New }
        ensures few { length self.new.seen.entries ≤ limit }
        ensures ready { IsReady self.new.oldest self.new.tick self.new.seen.entries }
    {
        if self.seen.len() >= limit && !self.seen.contains_key(&address) {
            return Learnt::Full;
        }
        let now = Seen {
            port,
            tick: self.tick,
        };
        match self.seen.insert(address, now) {
            Ok(None) => Learnt::New,
            Ok(Some(before)) if before.port == port => Learnt::Same,
            Ok(Some(_)) => Learnt::Moved,
            Err(_) => Learnt::Memory,
        }
    }

    /// Removes the addresses of these ports (7.9).
    pub fn flush(&mut self, ports: &[u16])
        requires ready { IsReady self.old.oldest self.old.tick self.old.seen.entries }
        ensures rows { rows_at self.new.tick self.new.seen.entries
            ≡ other_rows ports.now (rows_at self.old.tick self.old.seen.entries) }
        ensures few { length self.new.seen.entries ≤ length self.old.seen.entries }
        ensures ready { IsReady self.new.oldest self.new.tick self.new.seen.entries }
    {
        forget_ports(&mut self.seen, ports);
    }

    // Forgets the addresses whose age has reached the limit (7.9.2), if one may be so old.
    fn forget(&mut self, limit: u32)
        requires some { 0 < limit }
        requires timed { IsTimed self.old.oldest self.old.tick self.old.seen.entries }
        ensures rows { rows_at self.new.tick self.new.seen.entries
            ≡ young_rows limit (rows_at self.old.tick self.old.seen.entries) }
        ensures few { length self.new.seen.entries ≤ length self.old.seen.entries }
        ensures timed { IsTimed self.new.oldest self.new.tick self.new.seen.entries }
        ensures recent { self.new.tick < self.new.oldest + limit }
        ensures tick { self.new.tick ≡ self.old.tick }
    {
        if self.tick - self.oldest >= limit {
            forget_old(&mut self.seen, self.tick, limit);
            self.oldest = oldest_of(&self.seen, self.tick);
        }
    }

    // Lowers the tick number and all ticks by the bound of the oldest.
    fn lower(&mut self)
        requires { IsTimed self.old.oldest self.old.tick self.old.seen.entries }
        ensures rows { rows_at self.new.tick self.new.seen.entries
            ≡ rows_at self.old.tick self.old.seen.entries }
        ensures few { length self.new.seen.entries ≤ length self.old.seen.entries }
        ensures timed { IsTimed self.new.oldest self.new.tick self.new.seen.entries }
        ensures oldest { self.new.oldest ≡ 0 }
        ensures tick { self.new.tick ≡ self.old.tick - self.old.oldest }
    {
        lower_all(&mut self.seen, self.oldest);
        self.tick -= self.oldest;
        self.oldest = 0;
    }

    /// Lets one second pass: each address is a second older, and those whose age has reached the
    /// limit go (7.9.2). No address is touched in a second in which none is so old, but where the
    /// tick number reaches its last value.
    pub fn age(&mut self, limit: u32)
        requires some { 0 < limit }
        requires most { limit ≤ MAX_AGING_TIME }
        requires ready { IsReady self.old.oldest self.old.tick self.old.seen.entries }
        ensures rows { rows_at self.new.tick self.new.seen.entries
            ≡ young_rows limit (map older_row (rows_at self.old.tick self.old.seen.entries)) }
        ensures few { length self.new.seen.entries ≤ length self.old.seen.entries }
        ensures ready { IsReady self.new.oldest self.new.tick self.new.seen.entries }
    {
        self.tick += 1;
        self.forget(limit);
        if self.tick == LAST_TICK {
            self.lower();
        }
    }
}
