//! Written rows are read into rows, or the first of them at fault is named.
ghost use Rattle.std.specs.Prelude.{◌≡◌, ◌≢◌, ◌&&◌, Bool, true, map, IfOk, IfErr, OnOk, OnErr};
ghost use Rattle.std.specs.Cmp.{IsTotalOrder};
ghost use Rattle.std.specs.Ordering.{is_eq};
ghost use Rattle.std.specs.declared.cmp.Ordering.{Ordering};
ghost use Rattle.vacm_core.specs.Rules.{rules_of, by_itself, AreRead, AreRight, IsFirstFault, BeginsRight};

use crate::fault::{TableFault, Wrong};
use crate::repeats::first_repeat;
use crate::rows::Rows;
use std::alloc::{AllocError, Global};
use std::cmp::Ordering;

/// A row as it is written, which stands for a row where its lengths and fields are right.
pub trait WrittenRow: Sized + Drop {
    /// The row that is kept.
    type Row: Drop;

    // The lengths and the fields that a written row may have.
    ghost lengths: { Self → Bool };

    ghost fields: { Self → Bool };

    // The row that it stands for.
    ghost row_of: { Self → Self.Row };

    // Whether two rows have one key.
    ghost same_key: { Self.Row → Self.Row → Bool };

    // Whether rows have keys at all.
    ghost has_keys: { Bool };

    // The order of rows by their keys.
    ghost key_cmp: { Self.Row → Self.Row → Ordering };

    /// Whether each text, mask and name has a length that it may have.
    fn has_right_lengths(&self) -> bool
        ensures { result ≡ lengths self.now };

    /// Whether each number and each text is one that it may be.
    fn has_right_fields(&self) -> bool
        ensures { result ≡ fields self.now };

    /// The row that it stands for, without taking memory.
    fn into_row(self) -> Self::Row
        requires lengths { lengths self ≡ true }
        requires fields { fields self ≡ true }
        ensures { result ≡ row_of self };

    /// Whether rows have keys at all, so that two may have one.
    fn has_keys() -> bool
        ensures { result ≡ has_keys };

    /// Which of two rows comes first by their keys.
    fn cmp_key(one: &Self::Row, other: &Self::Row) -> Ordering
        ensures { result ≡ key_cmp one.now other.now };

    // To come first is an order.
    ghost keys_are_ordered: { IsTotalOrder key_cmp };

    // Two rows have one key where there are keys and neither comes first.
    ghost same_where_equal: { (one other : Self.Row) →
        same_key one other ≡ (has_keys && is_eq (key_cmp one other)) };
}

// The row that a written row stands for, or what is wrong with it by itself.
fn read_row<W: WrittenRow>(written: W) -> Result<W::Row, Wrong>
    ensures { result ≡ by_itself (rules_of W.lengths W.fields W.row_of W.same_key) written }
{
    if !written.has_right_lengths() {
        return Err(Wrong::Length);
    }
    if !written.has_right_fields() {
        return Err(Wrong::Field);
    }
    Ok(written.into_row())
}

// The rows that written rows stand for up to the first that is at fault by itself, and what is wrong
// with that one, if there is one.
fn read_rows<W: WrittenRow>(
    alloc: Global,
    written: Rows<W>,
) -> Result<(Rows<W::Row>, Option<Wrong>), AllocError>
    ensures read { IfOk result (λ read. AreRead
        (rules_of W.lengths W.fields W.row_of W.same_key) written read.0 read.1) }
    ensures memory { OnErr result (BeginsRight
        (rules_of W.lengths W.fields W.row_of W.same_key) written) }
{
    let mut rows = Vec::new(alloc);
    for row in written.into_vec() {
        match read_row(row) {
            Ok(row) => rows.push(row)?,
            Err(wrong) => return Ok((Rows::new(rows), Some(wrong))),
        }
    }
    Ok((Rows::new(rows), None))
}

/// The rows that the written rows of a table stand for, or the fault of the first that is at fault.
///
/// # Errors
///
/// `Row` with the table, the number of the row, counted from 0, and what is wrong with it; `Memory`
/// where a growth was refused: the rows that are kept and their numbers take memory, so there is a
/// first row and nothing is wrong with it.
pub fn checked_rows<W: WrittenRow, T: Copy>(
    alloc: Global,
    table: T,
    written: Rows<W>,
) -> Result<Rows<W::Row>, TableFault<T>>
    ensures rows { IfOk result (λ rows. rows ≡ map W.row_of written) }
    ensures right { OnOk result (AreRight
        (rules_of W.lengths W.fields W.row_of W.same_key) written) }
    ensures fault { IfErr result (λ e. e ≢ TableFault.Memory →
        IsFirstFault (rules_of W.lengths W.fields W.row_of W.same_key) table written e) }
    ensures memory { IfErr result (λ e. e ≡ TableFault.Memory →
        BeginsRight (rules_of W.lengths W.fields W.row_of W.same_key) written) }
{
    let (rows, wrong) = read_rows(alloc, written)?;
    if let Some(n) = first_repeat::<W>(alloc, rows.as_slice())? {
        return Err(TableFault::Row(table, n, Wrong::Duplicate));
    }
    match wrong {
        Some(wrong) => Err(TableFault::Row(table, rows.as_slice().len(), wrong)),
        None => Ok(rows),
    }
}
