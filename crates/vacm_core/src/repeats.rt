//! The first row of a table that has the key of an earlier one, found among the numbers of the rows
//! in the order of their keys.
ghost use Rattle.std.specs.Prelude.{◌≡◌, ◌<◌, ℕ, length, IfOk, OnErr, slice_get};
ghost use Rattle.std.specs.Option.{option_cmp};
ghost use Rattle.vacm_core.specs.Repeats.{AreInOrder, IsLeastTied, IsFirstRepeat, cmp_at, lesser};

use crate::checking::WrittenRow;
use crate::index::numbers_below;
use std::alloc::{AllocError, Global};
use std::cmp::Ordering;

// Where the row of one number lies beside that of another; no row comes before any.
fn cmp_rows<W: WrittenRow>(rows: &[W::Row], a: usize, b: usize) -> Ordering
    ensures { result ≡ cmp_at W.key_cmp rows.now a b }
{
    match (rows.get(a), rows.get(b)) {
        (Some(row), Some(other)) => W::cmp_key(row, other),
        (Some(_), None) => Ordering::Greater,
        (None, Some(_)) => Ordering::Less,
        (None, None) => Ordering::Equal,
    }
}

/// The numbers of all rows in the order of their keys, and of equal keys the lower number first.
///
/// # Errors
///
/// Where there is no memory for the numbers; there is then a row.
pub fn numbers_by_key<W: WrittenRow>(
    alloc: Global,
    rows: &[W::Row],
) -> Result<Vec<usize>, AllocError>
    ensures order { IfOk result (λ numbers. AreInOrder W.key_cmp rows.now numbers.items) }
    ensures memory { OnErr result (0 < length rows.now) }
{
    let mut numbers = numbers_below(alloc, rows.len())?;
    numbers.sort_unstable_by(|a, b| cmp_rows::<W>(rows, *a, *b).then(a.cmp(b)));
    Ok(numbers)
}

// The lesser of the least number so far, if there is one, and one more.
fn lesser(least: Option<usize>, n: usize) -> usize
    ensures { result ≡ lesser least n }
{
    match least {
        Some(least) => least.min(n),
        None => n,
    }
}

// Of the numbers whose rows have the keys of those of the numbers before them, the least.
fn least_tied<W: WrittenRow>(rows: &[W::Row], numbers: &[usize]) -> Option<usize>
    ensures { IsLeastTied W.key_cmp rows.now numbers.now result }
{
    let mut least = None;
    for k in 1..numbers.len() {
        if cmp_rows::<W>(rows, numbers[k - 1], numbers[k]).is_eq() {
            least = Some(lesser(least, numbers[k]));
        }
    }
    least
}

/// The number of the first row that has the key of an earlier one, if there is one.
///
/// # Errors
///
/// Where there is no memory for the numbers of the rows; there is then a row.
pub fn first_repeat<W: WrittenRow>(
    alloc: Global,
    rows: &[W::Row],
) -> Result<Option<usize>, AllocError>
    ensures first { IfOk result (λ n. IsFirstRepeat W.same_key rows.now n) }
    ensures memory { OnErr result (0 < length rows.now) }
{
    if !W::has_keys() {
        return Ok(None);
    }
    let numbers = numbers_by_key::<W>(alloc, rows)?;
    Ok(least_tied::<W>(rows, numbers.as_slice()))
}
