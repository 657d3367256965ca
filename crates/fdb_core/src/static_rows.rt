//! Static rows by rising index, as plain lists.
ghost use Rattle.std.specs.Prelude.{◌≡◌, ◌≤◌, ◌<◌, true, length, take, IfOk, IfErr, None, vec_capacity, find, not};
ghost use Rattle.std.specs.List.{AllByRecursion};
ghost use Rattle.std.specs.Cmp.Lexicographic.{slice_cmp};
ghost use Rattle.std.specs.Ordering.{nat_cmp, is_gt};
ghost use Rattle.frame_core.specs.Octets.{same_mac};
ghost use Rattle.fdb_core.specs.StaticPlaces.{IsRowAt, IsGapAt, is_from};
ghost use Rattle.fdb_core.specs.Statics.{numbers_of, IsRising, row_of, rows_of, put_row, without_row, made_rows, next_made};

use crate::static_row::{StaticIndex, StaticRow};
use frame_core::Mac;

// Where the row of the index stands, or where it would.
fn place_of(rows: &[StaticRow], index: StaticIndex) -> Result<usize, usize>
    requires { IsRising rows.now }
    ensures found { IfOk result (λ place. IsRowAt rows.now index place) }
    ensures absent { IfErr result (λ place. IsGapAt rows.now index place) }
{
    rows.binary_search_by_key(
        &index.numbers(),
        |row|
            ensures { result ≡ numbers_of row.now.index }
        { row.index.numbers() },
    )
}

/// The row of the index, if there is one.
pub fn row_at(rows: &[StaticRow], index: StaticIndex) -> Option<StaticRow>
    requires { IsRising rows.now }
    ensures { result ≡ row_of rows.now index }
{
    match place_of(rows, index) {
        Ok(place) => Some(rows[place]),
        Err(_) => None,
    }
}

// Whether an index is one of the address; both addresses have six octets.
fn is_of(index: StaticIndex, address: Mac) -> bool
    ensures is { result ≡ same_mac index.address address }
    ensures long { length index.address.0 ≡ length address.0 }
{
    index.address == address
}

// Whether an index comes before all those of the address.
fn is_before(index: StaticIndex, address: Mac) -> bool
    ensures { result ≡ not (is_from address index) }
{
    index.address < address
}

// How many rows of the address stand in front, where no row is before them.
fn count_of(rows: &[StaticRow], address: Mac) -> usize
    requires rising { IsRising rows.now }
    requires from { AllByRecursion (λ r. is_from address r.index ≡ true) rows.now }
    ensures rows { take result rows.now ≡ rows_of rows.now address }
    ensures bound { result ≤ length rows.now }
{
    for i in 0..rows.len() {
        if !is_of(rows[i].index, address) {
            return i;
        }
    }
    rows.len()
}

/// The rows of an address, by rising port: found by halves, and then one by one.
pub fn rows_at(rows: &[StaticRow], address: Mac) -> &[StaticRow]
    requires { IsRising rows.now }
    ensures { result.now ≡ rows_of rows.now address }
{
    let from = rows.partition_point(
        |row|
            ensures { result ≡ not (is_from address row.now.index) }
        { is_before(row.index, address) },
    );
    let rest = &rows[from..];
    let count = count_of(rest, address);
    &rest[..count]
}

/// Puts the row in its place, or in place of the one of its index. It takes no memory: there is
/// one, or the vector has capacity for one more.
pub fn put_in(rows: &mut Vec<StaticRow>, row: StaticRow)
    requires rising { IsRising rows.old.items }
    requires space { row_of rows.old.items row.index ≡ None
        → length rows.old.items < vec_capacity rows.old }
    ensures rows { rows.new.items ≡ put_row rows.old.items row }
    ensures capacity { vec_capacity rows.new ≡ vec_capacity rows.old }
{
    match place_of(rows, row.index) {
        Ok(place) => rows[place] = row,
        Err(place) => {
            let _ = rows.insert(place, row);
        }
    }
}

/// Removes the row of the index, if there is one.
pub fn remove_from(rows: &mut Vec<StaticRow>, index: StaticIndex)
    requires { IsRising rows.old.items }
    ensures rows { rows.new.items ≡ without_row rows.old.items index }
    ensures capacity { vec_capacity rows.new ≡ vec_capacity rows.old }
{
    if let Ok(place) = place_of(rows, index) {
        rows.remove(place);
    }
}

// The first row that is made.
fn first_made(rows: &[StaticRow]) -> Option<StaticRow>
    ensures { result ≡ find (λ r. r.made) rows.now }
{
    rows.iter().find(|row| row.made).copied()
}

/// The first made row whose seven numbers are greater than these.
pub fn next_made_in(rows: &[StaticRow], numbers: &[u32]) -> Option<StaticRow>
    requires { IsRising rows.now }
    ensures { result ≡ next_made rows.now numbers.now }
{
    let from = rows.partition_point(
        |row|
            ensures { result ≡ not (is_gt (slice_cmp nat_cmp (numbers_of row.now.index) numbers.entry.now)) }
        { !row.index.numbers().as_slice().cmp(numbers).is_gt() },
    );
    first_made(&rows[from..])
}

/// Drops the rows that are not made.
pub fn keep_made(rows: &mut Vec<StaticRow>)
    ensures rows { rows.new.items ≡ made_rows rows.old.items }
    ensures capacity { vec_capacity rows.new ≡ vec_capacity rows.old }
{
    rows.retain(|row| row.made);
}

/// How many rows are made.
pub fn count_made(rows: &[StaticRow]) -> usize
    ensures { result ≡ length (made_rows rows.now) }
{
    rows.iter().filter(|row| row.made).count()
}
