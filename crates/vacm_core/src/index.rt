//! The numbers of a table's rows in the order of their keys, so that rows are found by halves.
ghost use Rattle.std.specs.Prelude.{◌≡◌, ◌<◌, ℕ, nat_eq, All, Contains, length, IfOk, OnErr};
ghost use Rattle.std.specs.List.{IsDistinct};
ghost use Rattle.vacm_core.specs.Keys.{key_cmp, key_at, IsIndex};

use crate::name::Name;
use crate::rows::Rows;
use std::alloc::{AllocError, Global};
use std::cmp::Ordering;

/// A row that is found by a number and a name. Rows of one key may be several.
pub trait Keyed {
    ghost use Rattle.std.specs.Prelude.{ℕ, List};

    // The number and the name.
    ghost key: { Self → ℕ × List ℕ };

    /// The number.
    fn key_number(&self) -> u32
        ensures { result ≡ (key self.now).0 };

    /// The name.
    fn key_name(&self) -> &Name
        ensures { result.now ≡ (key self.now).1 };
}

fn number_at<R: Keyed>(rows: &[R], n: usize) -> u32
    ensures { result ≡ (key_at R.key rows.now n).0 }
{
    match rows.get(n) {
        Some(row) => row.key_number(),
        None => 0,
    }
}

fn name_at<R: Keyed>(rows: &[R], n: usize) -> &[u8]
    ensures { result.now ≡ (key_at R.key rows.now n).1 }
{
    match rows.get(n) {
        Some(row) => row.key_name().as_bytes(),
        None => &[],
    }
}

// Where the key of the row of this number lies beside a key.
fn cmp_at<R: Keyed>(rows: &[R], n: usize, number: u32, name: &[u8]) -> Ordering
    ensures { result ≡ key_cmp (key_at R.key rows.now n) (number, name.now) }
{
    number_at(rows, n)
        .cmp(&number)
        .then(name_at(rows, n).cmp(name))
}

/// The numbers from 0 up to this one, which is not among them.
///
/// # Errors
///
/// Where there is no memory for the numbers; there is then one.
pub fn numbers_below(alloc: Global, end: usize) -> Result<Vec<usize>, AllocError>
    ensures below { IfOk result (λ numbers. All (λ n. n < end) numbers.items) }
    ensures all { IfOk result (λ numbers. (n : ℕ) → n < end → Contains numbers.items n) }
    ensures once { IfOk result (λ numbers. IsDistinct nat_eq numbers.items) }
    ensures memory { OnErr result (0 < end) }
{
    let mut numbers = Vec::new(alloc);
    for n in 0..end {
        numbers.push(n)?;
    }
    Ok(numbers)
}

/// The numbers of all rows in the order of their keys.
///
/// # Errors
///
/// Where there is no memory for the numbers; there is then a row.
pub fn index_of<R: Keyed>(alloc: Global, rows: &[R]) -> Result<Rows<usize>, AllocError>
    ensures index { IfOk result (λ index. IsIndex R.key rows.now index) }
    ensures memory { OnErr result (0 < length rows.now) }
{
    let mut numbers = numbers_below(alloc, rows.len())?;
    numbers.sort_unstable_by(|a, b| cmp_at(rows, *a, number_at(rows, *b), name_at(rows, *b)));
    Ok(Rows::new(numbers))
}

/// The numbers of the rows of a key, found by halves and without taking memory.
pub fn with_key<'a, R: Keyed>(
    rows: &[R],
    index: &'a [usize],
    number: u32,
    name: &[u8],
) -> &'a [usize]
    requires { IsIndex R.key rows.now index.now }
    ensures within { All (λ n. n < length rows.now) result.now }
    ensures only { All (λ n. key_at R.key rows.now n ≡ (number, name.now)) result.now }
    ensures all { (n : ℕ) → n < length rows.now → key_at R.key rows.now n ≡ (number, name.now)
        → Contains result.now n }
{
    let first = index.partition_point(|n| cmp_at(rows, *n, number, name).is_lt());
    let behind = &index[first..];
    let end = behind.partition_point(|n| cmp_at(rows, *n, number, name).is_le());
    &behind[..end]
}
