//! The numbers of the family rows in the order of their indexes, so that the row of an index, and
//! the one behind it, are found by halves (RFC 3415, vacmViewTreeFamilyTable).
ghost use Rattle.std.specs.Prelude.{◌≡◌, ◌<◌, ◌∷◌, ◌++◌, length, slice_get, IfOk, IfSome, IsTrue, OnErr};
ghost use Rattle.std.specs.Option.{ForSome};
ghost use Rattle.std.specs.Cmp.Lexicographic.{slice_cmp};
ghost use Rattle.std.specs.Ordering.{nat_cmp};
ghost use Rattle.vacm_core.specs.FamilyIndex.{family_index, next_family, family_at};
ghost use Rattle.vacm_core.specs.Keys.{key_cmp, key_at, index_key, IsIndex};
ghost use Rattle.vacm_core.specs.Rows.{same_family};
ghost use Rattle.vacm_core.specs.Tables.{KeysDiffer};

use crate::index::numbers_below;
use crate::numbers::put_index;
use crate::rows::Rows;
use crate::tables::FamilyRow;
use arrayvec::ArrayVec;
use oid_core::Oid;
use std::alloc::{AllocError, Global};
use std::cmp::Ordering;

// Which of two rows comes first by its index.
fn cmp_rows(one: &FamilyRow, other: &FamilyRow) -> Ordering
    ensures { result ≡ slice_cmp nat_cmp (family_index one.now) (family_index other.now) }
{
    let view = one.view.as_bytes();
    let other_view = other.view.as_bytes();
    let subtree = one.subtree.as_slice();
    let other_subtree = other.subtree.as_slice();
    view.len()
        .cmp(&other_view.len())
        .then(view.cmp(other_view))
        .then(subtree.len().cmp(&other_subtree.len()))
        .then(subtree.cmp(other_subtree))
}

// The same of the rows of two numbers; no row comes before any.
fn cmp_numbered(rows: &[FamilyRow], a: usize, b: usize) -> Ordering
    ensures { result ≡ key_cmp (key_at index_key rows.now a) (key_at index_key rows.now b) }
{
    match (rows.get(a), rows.get(b)) {
        (Some(one), Some(other)) => cmp_rows(one, other),
        (Some(_), None) => Ordering::Greater,
        (None, Some(_)) => Ordering::Less,
        (None, None) => Ordering::Equal,
    }
}

// Whether numbers are octets.
fn are_octets(numbers: &[u32], octets: &[u8]) -> bool
    ensures { IsTrue result → numbers.now ≡ octets.now }
{
    if numbers.len() != octets.len() {
        return false;
    }
    for (k, octet) in octets.iter().enumerate() {
        if numbers[k] != u32::from(*octet) {
            return false;
        }
    }
    true
}

// What follows in numbers that begin with the name of a row's view, and its length.
fn behind_view<'a>(row: &FamilyRow, numbers: &'a [u32]) -> Option<&'a [u32]>
    ensures { IfSome result (λ rest. numbers.now ≡ length row.now.view ∷ (row.now.view ++ rest.now)) }
{
    let view = row.view.as_bytes();
    let [long, rest @ ..] = numbers else {
        return None;
    };
    if *long == view.len() as u32
        && view.len() <= rest.len()
        && are_octets(&rest[..view.len()], view)
    {
        Some(&rest[view.len()..])
    } else {
        None
    }
}

// Where the length and the numbers of a subtree lie beside numbers.
fn cmp_subtree(subtree: &Oid, numbers: &[u32]) -> Ordering
    ensures { result ≡ slice_cmp nat_cmp (length subtree.now ∷ subtree.now) numbers.now }
{
    let subtree = subtree.as_slice();
    match numbers {
        [] => Ordering::Greater,
        [long, rest @ ..] => (subtree.len() as u32).cmp(long).then(subtree.cmp(rest)),
    }
}

// Where the index of a row lies beside numbers.
fn cmp_index(row: &FamilyRow, numbers: &[u32]) -> Ordering
    ensures { result ≡ slice_cmp nat_cmp (family_index row.now) numbers.now }
{
    let mut index = ArrayVec::new();
    put_index(&mut index, row);
    index.as_slice().cmp(numbers)
}

// Where the index of the row of a number lies beside numbers; most often these are of the row's view. No
// row comes before any.
fn cmp_with(rows: &[FamilyRow], n: usize, numbers: &[u32]) -> Ordering
    ensures { result ≡ key_cmp (key_at index_key rows.now n) (0, numbers.now) }
{
    let Some(row) = rows.get(n) else {
        return if numbers.is_empty() {
            Ordering::Equal
        } else {
            Ordering::Less
        };
    };
    match behind_view(row, numbers) {
        Some(rest) => cmp_subtree(&row.subtree, rest),
        None => cmp_index(row, numbers),
    }
}

/// The numbers of all rows in the order of their indexes.
///
/// # Errors
///
/// Where there is no memory for the numbers; there is then a row.
pub fn numbers_by_index(alloc: Global, rows: &[FamilyRow]) -> Result<Rows<usize>, AllocError>
    ensures index { IfOk result (λ index. IsIndex index_key rows.now index) }
    ensures memory { OnErr result (0 < length rows.now) }
{
    let mut numbers = numbers_below(alloc, rows.len())?;
    numbers.sort_unstable_by(|a, b| cmp_numbered(rows, *a, *b));
    Ok(Rows::new(numbers))
}

// The number at a place of an index, if it has that place.
fn number_at(index: &[usize], place: usize) -> Option<usize>
    ensures { result ≡ slice_get index.now place }
{
    index.get(place).copied()
}

/// The number of the row whose index is the first that is greater than these numbers, found by
/// halves and without taking memory.
pub fn next_family(rows: &[FamilyRow], index: &[usize], numbers: &[u32]) -> Option<usize>
    requires index { IsIndex index_key rows.now index.now }
    requires differ { KeysDiffer same_family rows.now }
    ensures place { result ≡ next_family rows.now numbers.now }
    ensures within { ForSome result (λ n. n < length rows.now) }
{
    let end = index.partition_point(|n| cmp_with(rows, *n, numbers).is_le());
    number_at(index, end)
}

/// The number of the row of this index, found by halves and without taking memory.
pub fn family_at(rows: &[FamilyRow], index: &[usize], numbers: &[u32]) -> Option<usize>
    requires index { IsIndex index_key rows.now index.now }
    requires differ { KeysDiffer same_family rows.now }
    ensures place { result ≡ family_at rows.now numbers.now }
    ensures within { ForSome result (λ n. n < length rows.now) }
{
    let first = index.partition_point(|n| cmp_with(rows, *n, numbers).is_lt());
    match number_at(index, first) {
        Some(n) if cmp_with(rows, n, numbers).is_eq() => Some(n),
        _ => None,
    }
}
