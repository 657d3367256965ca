//! The static table.
ghost use Rattle.std.specs.Prelude.{◌≡◌, ◌==◌, ℕ, ◌+◌, ◌≤◌, length, find, IfOk, OnOk, OnErr, IsOk, IsTrue, ◌↔◌, [], vec_capacity};
ghost use Rattle.fdb_core.specs.Statics.{IsRising, no_statics, with_places_for, row_of, rows_of, put_row, without_row, made_rows, next_made, HasPlaceFor};

use crate::static_row::{StaticIndex, StaticRow};
use crate::static_rows::{
    count_made, keep_made, next_made_in, put_in, remove_from, row_at, rows_at,
};
use frame_core::Mac;
use std::alloc::{AllocError, Global};
use std::marker::Model;

/// The static table, seen as its rows by rising index and for how many rows it is sure to have
/// memory. It may have any number of rows.
pub struct StaticTable {
    rows: Vec<StaticRow>,
    places: usize,
}

// By hand: who drops one then knows nothing of its parts.
impl Drop for StaticTable {
    fn drop(self) {
        let StaticTable {
            rows: _rows,
            places: _places,
        } = self;
    }
}

impl Model for StaticTable {
    ghost use Rattle.fdb_core.specs.Statics.{Statics};

    ghost Value = { Statics };

    ghost use Rattle.std.specs.Prelude.{vec_capacity};
    ghost use Rattle.fdb_core.specs.StaticsInside.{IsKept};

    ghost view = { λ t. record { rows = t.rows.items; places = t.places } };

    ghost invariant = { λ t. IsKept t.rows.items (vec_capacity t.rows) t.places };
}

impl StaticTable {
    /// A table without rows, which is sure of memory for none. This takes no memory.
    pub fn new(alloc: Global) -> StaticTable
        ensures { result ≡ no_statics }
    {
        StaticTable {
            rows: Vec::new(alloc),
            places: 0,
        }
    }

    /// A copy: the same rows, and sure of memory for as many. Only the copy takes memory.
    ///
    /// # Errors
    ///
    /// `AllocError` where there is no memory for the rows of the copy.
    pub fn try_copy(&self) -> Result<StaticTable, AllocError>
        ensures { IfOk result (λ copy. copy ≡ self.now) }
    {
        let mut rows = self.rows.clone()?;
        rows.reserve_exact(self.places.saturating_sub(rows.len()))?;
        Ok(StaticTable {
            rows,
            places: self.places,
        })
    }

    /// The rows by rising index, for a flat copy of the bridge. Only the vector takes memory.
    ///
    /// # Errors
    ///
    /// `AllocError` where there is no memory for the vector.
    pub fn try_rows(&self) -> Result<Vec<StaticRow>, AllocError>
        ensures { IfOk result (λ rows. rows.items ≡ self.now.rows) }
    {
        self.rows.clone()
    }

    /// How many rows there are.
    pub fn len(&self) -> usize
        ensures { result ≡ length self.now.rows }
    {
        self.rows.len()
    }

    /// Whether there is no row.
    pub fn is_empty(&self) -> bool
        ensures { IsTrue result ↔ (self.now.rows ≡ []) }
    {
        self.rows.is_empty()
    }

    /// For how many rows in all it is sure to have memory, those that are there among them. It may be
    /// fewer than the rows.
    pub fn places(&self) -> usize
        ensures { result ≡ self.now.places }
    {
        self.places
    }

    /// The row of the index, if there is one.
    pub fn row(&self, index: StaticIndex) -> Option<StaticRow>
        ensures { result ≡ row_of self.now.rows index }
    {
        row_at(self.rows.as_slice(), index)
    }

    /// The rows of an address, by rising port.
    pub fn rows_of(&self, address: Mac) -> &[StaticRow]
        ensures rows { result.now ≡ rows_of self.now.rows address }
        // So the one of a port is that of the address and the port.
        ensures row { (port : ℕ) → find (λ r. r.index.port == port) result.now
            ≡ row_of self.now.rows (record { address = address; port = port }) }
    {
        rows_at(self.rows.as_slice(), address)
    }

    /// Puts a row, in place of the one of its index if there is one. It takes no memory.
    pub fn put(&mut self, row: StaticRow)
        requires { HasPlaceFor self.old row.index }
        ensures { self.new ≡ record self.old { rows = put_row self.old.rows row } }
    {
        put_in(&mut self.rows, row);
    }

    /// Removes the row of the index, if there is one. It takes no memory and gives none back.
    pub fn remove(&mut self, index: StaticIndex)
        ensures { self.new ≡ record self.old { rows = without_row self.old.rows index } }
    {
        remove_from(&mut self.rows, index);
    }

    /// Drops the rows that are not made. It takes no memory and gives none back.
    pub fn keep_made(&mut self)
        ensures { self.new ≡ record self.old { rows = made_rows self.old.rows } }
    {
        keep_made(&mut self.rows);
    }

    /// How many rows are made.
    pub fn made_count(&self) -> usize
        ensures { result ≡ length (made_rows self.now.rows) }
    {
        count_made(self.rows.as_slice())
    }

    /// The first made row whose seven numbers are greater than these, for the objects that show the
    /// rows.
    pub fn next_made(&self, numbers: &[u32]) -> Option<StaticRow>
        ensures { result ≡ next_made self.now.rows numbers.now }
    {
        next_made_in(self.rows.as_slice(), numbers)
    }

    /// Makes sure that there is memory for so many rows more. Puts do not use up this promise: it
    /// holds as long as the rows are no more.
    ///
    /// # Errors
    ///
    /// `AllocError` where there is no memory for them. Nothing changed. It comes neither where no
    /// row is asked for, nor where there was sure to be memory for them before.
    pub fn reserve(&mut self, count: usize) -> Result<(), AllocError>
        ensures ok { OnOk result (self.new ≡ with_places_for count self.old) }
        ensures err { OnErr result (self.new ≡ self.old) }
        ensures none { count ≡ 0 → IsOk result }
        ensures within { length self.old.rows + count ≤ self.old.places → IsOk result }
    {
        self.rows.reserve_exact(count)?;
        self.places = self.places.max(self.rows.len() + count);
        Ok(())
    }

    /// Is sure of memory for so many rows alone. The memory itself is not given back.
    pub fn hold(&mut self, places: usize)
        requires { places ≤ self.old.places }
        ensures { self.new ≡ record self.old { places = places } }
    {
        self.places = places;
    }

    /// Hands on what holds of every table: the rows are by rising index. It does nothing.
    pub fn known(&self)
        ensures { IsRising self.now.rows }
    {
        let _rows = &self.rows;
    }
}
