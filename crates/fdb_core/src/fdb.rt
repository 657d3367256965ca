//! The table of learned addresses.
ghost use Rattle.std.specs.Prelude.{◌≡◌, ◌≢◌, ◌≤◌, ◌<◌, [], length, map, Some, IfOk};
ghost use Rattle.std.specs.List.{AllByRecursion};
ghost use Rattle.fdb_core.specs.Rows.{IsAddress};

use crate::learnt::Learnt;
use crate::row::{LearnedRow, MAX_AGING_TIME, MIN_AGING_TIME};
use crate::seen::LAST_TICK;
use crate::sightings::Sightings;
use frame_core::Mac;
use std::alloc::{AllocError, Global};
use std::marker::Model;

/// The table of learned addresses, seen as the list of its rows by rising address and the most rows
/// that it may have.
pub struct Fdb {
    sightings: Sightings,
    limit: usize,
}

// By hand: who drops one then knows nothing of its parts.
impl Drop for Fdb {
    fn drop(self) {
        let Fdb {
            sightings: _sightings,
            limit: _limit,
        } = self;
    }
}

impl Model for Fdb {
    ghost use Rattle.fdb_core.specs.Table.{Table};

    ghost Value = { Table };

    ghost use Rattle.fdb_core.specs.Seen.{table_of, IsKept};

    ghost view = { λ f. table_of f.sightings.tick f.sightings.seen.entries f.limit };

    ghost invariant = { λ f.
        IsKept f.sightings.oldest f.sightings.tick f.sightings.seen.entries f.limit };
}

impl Fdb {
    ghost use Rattle.fdb_core.specs.Rows.{older_row, row_of, port_of, next_after, young_rows, other_rows};
    ghost use Rattle.fdb_core.specs.Learning.{answer, learned_rows, new_row};
    ghost use Rattle.fdb_core.specs.Table.{Table, IsTable};
    ghost use Rattle.fdb_core.specs.declared.learnt.Learnt.TheVariants.{New, Full, Memory};

    /// A table without rows, which will have at most `limit` of them. This takes no memory.
    pub fn new(alloc: Global, limit: usize) -> Fdb
        ensures { result ≡ record { rows = []; limit = limit } }
    {
        Fdb::starting_at(alloc, limit, 0)
    }

    // A table without rows, whose tick number is this one.
    fn starting_at(alloc: Global, limit: usize, tick: u32) -> Fdb
        requires { tick < LAST_TICK }
        ensures { result ≡ record { rows = []; limit = limit } }
    {
        Fdb {
            sightings: Sightings::new(alloc, tick),
            limit,
        }
    }

    /// A copy: the same rows with their ages, and the same limit. Only the copy takes memory.
    ///
    /// # Errors
    ///
    /// `AllocError` where there is no memory for the copied rows.
    pub fn try_copy(&self) -> Result<Fdb, AllocError>
        ensures { IfOk result (λ copy. copy ≡ self.now) }
    {
        let sightings = self.sightings.try_copy()?;
        Ok(Fdb {
            sightings,
            limit: self.limit,
        })
    }

    /// The rows by rising address, for a flat copy of the bridge. Only the vector takes memory.
    ///
    /// # Errors
    ///
    /// `AllocError` where there is no memory for the vector.
    pub fn try_rows(&self, alloc: Global) -> Result<Vec<LearnedRow>, AllocError>
        ensures { IfOk result (λ rows. rows.items ≡ self.now.rows) }
    {
        self.sightings.try_rows(alloc)
    }

    /// How many rows there are.
    pub fn len(&self) -> usize
        ensures { result ≡ length self.now.rows }
    {
        self.sightings.seen.len()
    }

    /// Learns that a frame from the address came in on the port: its row is of this port and of age
    /// 0. Only a new address takes memory, and that before anything changes.
    pub fn learn(&mut self, address: Mac, port: u16) -> Learnt
        // The whole list: a row of the address in its place, or nothing changed.
        ensures rows { self.new
            ≡ record self.old { rows = learned_rows result self.old.rows address port } }
        // Which answer it is,
        ensures answer { result ≢ Memory →
            result ≡ answer self.old.rows self.old.limit address port }
        // and `Memory` only for a new address that has a place.
        ensures memory { result ≡ Memory → answer self.old.rows self.old.limit address port ≡ New }
        // So the address has this row, where there is a place for it, and each other address the
        // row that it had.
        ensures own { result ≢ Full → result ≢ Memory →
            row_of self.new.rows address ≡ Some (new_row address port) }
        ensures others { (other : Mac) → other ≢ address →
            row_of self.new.rows other ≡ row_of self.old.rows other }
    {
        known_address(address);
        self.sightings.learn(self.limit, address, port)
    }

    /// The port of the address's row, if it has one.
    pub fn find(&self, address: Mac) -> Option<u16>
        ensures { result ≡ port_of self.now.rows address }
    {
        self.sightings.port_of(address)
    }

    /// Lets one second pass: each row is a second older, and those whose age has reached the limit
    /// go (7.9.2).
    pub fn age(&mut self, limit: u32)
        requires least { MIN_AGING_TIME ≤ limit }
        requires most { limit ≤ MAX_AGING_TIME }
        ensures { self.new ≡ record self.old {
          rows = young_rows limit (map older_row self.old.rows);
        } }
    {
        self.sightings.age(limit);
    }

    /// Removes the rows of these ports, in one pass over the rows (7.9).
    pub fn flush_ports(&mut self, ports: &[u16])
        ensures { self.new ≡ record self.old { rows = other_rows ports.now self.old.rows } }
    {
        self.sightings.flush(ports);
    }

    /// The row of the lowest address above this one, or of the lowest address of all: for the
    /// objects that show the learned addresses (RFC 4188 dot1dTpFdbTable). So the rows are walked
    /// from none on, each time from the address of the row before.
    pub fn next_after(&self, after: Option<Mac>) -> Option<LearnedRow>
        ensures row { result ≡ next_after self.now.rows after }
        // What holds of every table, as `known` hands it on.
        ensures table { IsTable self.now }
    {
        self.sightings.row_after(after)
    }

    /// Hands on what holds of every table: the rows are by rising address, each address is six
    /// octets, each row is younger than the longest aging time, and they are no more than the
    /// limit. It does nothing.
    pub fn known(&self)
        ensures { IsTable self.now }
    {
        let _sightings = &self.sightings;
    }
}

// Hands on that six octets are so many, each below 256; it does nothing.
fn known_octets(octets: &[u8; 6])
    ensures six { length octets.now ≡ 6 }
    ensures below { AllByRecursion (λ o. o < 256) octets.now }
{
    let _octets = octets.as_slice();
}

// Hands on that an address is one; it does nothing.
fn known_address(address: Mac)
    ensures { IsAddress address }
{
    known_octets(&address.0);
}
