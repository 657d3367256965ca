//! Where the rows of each view begin in the order of the family rows' indexes.
ghost use Rattle.std.specs.Prelude.{◌<◌, length, OnErr};

use crate::tables::FamilyRow;
use std::alloc::{AllocError, Global};

// The most rows of which no places are kept.
const FEW_ROWS: usize = 64;

// Whether the rows of two numbers are of one view.
fn is_one_view(rows: &[FamilyRow], one: usize, other: usize) -> bool {
    match (rows.get(one), rows.get(other)) {
        (Some(one), Some(other)) => one.view.is(&other.view),
        _ => false,
    }
}

/// The places of an index at which the rows of each view begin; of few rows none. They save time alone.
///
/// # Errors
///
/// Where there is no memory for the places; there is then a row.
pub fn starts_of(
    alloc: Global,
    rows: &[FamilyRow],
    index: &[usize],
) -> Result<Vec<usize>, AllocError>
    ensures memory { OnErr result (0 < length index.now) }
{
    let mut starts = Vec::new(alloc);
    if index.len() <= FEW_ROWS {
        return Ok(starts);
    }
    for place in 0..index.len() {
        if place == 0 || !is_one_view(rows, index[place - 1], index[place]) {
            starts.push(place)?;
        }
    }
    Ok(starts)
}
