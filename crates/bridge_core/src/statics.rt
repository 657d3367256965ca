//! The static rows of a bridge, as a table (IEEE 802.1D-2004 7.9.1).
ghost use Rattle.std.specs.Prelude.{◌≡◌, ◌==◌, ◌≢◌, ◌↔◌, ◌≤◌, true, false, find, IsTrue};
ghost use Rattle.std.specs.Option.{option_copied};
ghost use Rattle.fdb_core.specs.Statics.{row_of, made_rows, HasPlaceFor};
ghost use Rattle.bridge_core.specs.Forwarding.{is_reserved};
ghost use Rattle.bridge_core.specs.Statics.{is_made_in, ports_of, says, rows_with, if_made, listed};

use crate::forwarding::is_reserved;
use fdb_core::{MAX_SET_PORTS, PortSet, StaticIndex, StaticRow, StaticTable};
use frame_core::Mac;

/// Whether there may be a static row of the index at a bridge of this address and so many ports.
pub fn is_index(index: StaticIndex, own: Mac, count: usize) -> bool
    ensures { IsTrue result ↔ ((index.port ≤ count) × (index.address ≢ own)
        × (is_reserved index.address ≡ false)) }
{
    index.port as usize <= count && !index.address.is_same(own) && !is_reserved(index.address)
}

/// Whether the row of the index is made.
pub fn is_made(statics: &StaticTable, index: StaticIndex) -> bool
    ensures { result ≡ is_made_in (row_of statics.now.rows index) }
{
    statics.row(index).is_some_and(|row| row.made)
}

/// The ports that are allowed to the index, of a bridge of so many ports: all, where no row says
/// otherwise.
pub fn allowed(statics: &StaticTable, index: StaticIndex, count: usize) -> PortSet
    ensures { result ≡ ports_of count (row_of statics.now.rows index) }
{
    match statics.row(index) {
        Some(row) => row.ports,
        None => PortSet::first(count),
    }
}

// Puts a row at a bridge of so many ports, where it says something; else removes the one of its
// index.
fn put(statics: &mut StaticTable, count: usize, row: StaticRow)
    requires count { count ≤ MAX_SET_PORTS }
    requires place { says count row.made row.ports ≡ true → HasPlaceFor statics.old row.index }
    ensures { statics.new ≡ record statics.old { rows = rows_with count row statics.old.rows } }
{
    if row.made || !row.ports.has_all(count) {
        statics.put(row);
    } else {
        statics.remove(row.index);
    }
}

/// Makes the row of the index, or makes it no more, at a bridge of so many ports, and answers whether
/// it was made. Its ports stay as they are.
pub fn put_made(statics: &mut StaticTable, count: usize, index: StaticIndex, made: bool) -> bool
    requires count { count ≤ MAX_SET_PORTS }
    requires place { says count made (ports_of count (row_of statics.old.rows index)) ≡ true
        → HasPlaceFor statics.old index }
    ensures before { result ≡ is_made_in (row_of statics.old.rows index) }
    ensures after { statics.new ≡ record statics.old {
      rows = rows_with count (record {
        index = index;
        made = made;
        ports = ports_of count (row_of statics.old.rows index);
      }) statics.old.rows;
    } }
{
    let before = is_made(statics, index);
    let ports = allowed(statics, index, count);
    put(statics, count, StaticRow { index, made, ports });
    before
}

/// Sets the ports that are allowed to the index, at a bridge of so many ports, and answers those
/// before. Its row is made as it was.
pub fn put_allowed(
    statics: &mut StaticTable,
    count: usize,
    index: StaticIndex,
    ports: PortSet,
) -> PortSet
    requires count { count ≤ MAX_SET_PORTS }
    requires place { says count (is_made_in (row_of statics.old.rows index)) ports ≡ true
        → HasPlaceFor statics.old index }
    ensures before { result ≡ ports_of count (row_of statics.old.rows index) }
    ensures after { statics.new ≡ record statics.old {
      rows = rows_with count (record {
        index = index;
        made = is_made_in (row_of statics.old.rows index);
        ports = ports;
      }) statics.old.rows;
    } }
{
    let before = allowed(statics, index, count);
    let made = is_made(statics, index);
    put(statics, count, StaticRow { index, made, ports });
    before
}

/// Drops the rows that are not made: the ports that were set for them are all ports again.
pub fn drop_unmade(statics: &mut StaticTable)
    ensures { statics.new ≡ record statics.old { rows = made_rows statics.old.rows } }
{
    statics.keep_made();
}

// The first row of a port.
fn find_port(rows: &[StaticRow], port: u16) -> Option<&StaticRow>
    ensures { option_copied result ≡ find (λ r. r.index.port == port) rows.now }
{
    rows.iter().find(|row| row.index.port == port)
}

// The first row of a port, where it is made.
fn find_made(rows: &[StaticRow], port: u16) -> Option<&StaticRow>
    ensures { option_copied result ≡ if_made (find (λ r. r.index.port == port) rows.now) }
{
    match find_port(rows, port) {
        Some(row) if row.made => Some(row),
        _ => None,
    }
}

/// The row that decides about frames to an address that come by a port: the made row of that port,
/// or else that of all ports. A table without rows is not searched.
pub fn find_listed(statics: &StaticTable, from: u16, address: Mac) -> Option<&StaticRow>
    ensures { option_copied result ≡ listed statics.now.rows from address }
{
    if statics.is_empty() {
        return None;
    }
    let rows = statics.rows_of(address);
    match find_made(rows, from) {
        Some(row) => Some(row),
        None => find_made(rows, 0),
    }
}
