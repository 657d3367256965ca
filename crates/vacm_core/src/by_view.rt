//! The row of a view that decides on a name, by the rows of the view in the order of their indexes:
//! the last of them that has the name (RFC 3415, vacmViewTreeFamilyTable).
ghost use Rattle.std.specs.Prelude.{◌≡◌, ◌≤◌, ◌<◌, ◌-◌, ◌/◌, ◌%◌, ℕ, true, false, IsTrue, IfSome, All, length, take, drop, slice_get, slice_index_or};
ghost use Rattle.std.specs.Int.{bit_at};
ghost use Rattle.std.specs.Option.{ForSome};
ghost use Rattle.std.specs.Cmp.Lexicographic.{slice_cmp};
ghost use Rattle.std.specs.List.Sorted.{IsPartitionPoint};
ghost use Rattle.std.specs.Ordering.{nat_cmp, is_lt};
ghost use Rattle.vacm_core.specs.Bitmaps.{IsIn, AreIn};
ghost use Rattle.vacm_core.specs.Candidates.{IsOfName};
ghost use Rattle.vacm_core.specs.Families.{agrees_from, matches, deciding_family};
ghost use Rattle.vacm_core.specs.FamilyIndex.{family_index};
ghost use Rattle.vacm_core.specs.Keys.{index_key, IsIndex};
ghost use Rattle.vacm_core.specs.OfView.{index_front, is_before, AreOfView, is_match, IsLastMatch};
ghost use Rattle.vacm_core.specs.declared.tables.FamilyRow.{FamilyRow};
ghost use Rattle.vacm_core.specs.Rows.{same_family};
ghost use Rattle.vacm_core.specs.Tables.{KeysDiffer};

use crate::bitmaps::{BLOCK_ROWS, Block};
use crate::candidates::Candidates;
use crate::deciding::agrees_by_bits;
use crate::name::Name;
use crate::tables::FamilyRow;

// The most rows that are scanned whole; of more rows, those of the view are found by halves.
const SHORT_INDEX: usize = 64;

/// The numbers of the family rows in the order of their indexes.
#[derive(Clone, Copy)]
pub struct Ranks<'a> {
    /// The numbers.
    pub index: &'a [usize],
    /// At which places among them the rows of each view are likely to begin. That saves time alone: where
    /// it is wrong, the rows of a view are found by halves.
    pub starts: &'a [usize],
}

// Whether the index of a row is less than that of each row of a view with so many numbers in its
// subtree.
fn is_row_before(row: &FamilyRow, view: &[u8], long: usize) -> bool
    ensures { result ≡ is_lt (slice_cmp nat_cmp (family_index row.now) (index_front view.now long)) }
{
    let own = row.view.as_bytes();
    if own.len() != view.len() {
        return own.len() < view.len();
    }
    let subtree = row.subtree.as_slice();
    own.cmp(view).then(subtree.len().cmp(&long)).is_lt()
}

// The same of the row of a number; no row comes before any.
fn is_before(rows: &[FamilyRow], n: usize, view: &[u8], long: usize) -> bool
    ensures { result ≡ is_before rows.now view.now long n }
{
    match rows.get(n) {
        Some(row) => is_row_before(row, view, long),
        None => true,
    }
}

// Whether all rows ahead of a place of an index are before a view, by the last of them.
fn are_before(rows: &[FamilyRow], index: &[usize], view: &[u8], long: usize, place: usize) -> bool
    requires index { IsIndex index_key rows.now index.now }
    requires within { place ≤ length index.now }
    ensures { IsTrue result → (k d : ℕ) → k < place
        → is_before rows.now view.now long (slice_index_or index.now k d) ≡ true }
{
    place == 0 || is_before(rows, index[place - 1], view, long)
}

// Whether no row of an index from a place on is before a view, by the first of them.
fn are_behind(rows: &[FamilyRow], index: &[usize], view: &[u8], long: usize, place: usize) -> bool
    requires index { IsIndex index_key rows.now index.now }
    requires within { place ≤ length index.now }
    ensures { IsTrue result → (k d : ℕ) → place ≤ k → k < length index.now
        → is_before rows.now view.now long (slice_index_or index.now k d) ≡ false }
{
    place == index.len() || !is_before(rows, index[place], view, long)
}

// How many rows of an index have indexes less than those of the rows of a view with so many numbers in
// their subtrees: a likely number where it is right, else found by halves.
fn count_before(
    rows: &[FamilyRow],
    index: &[usize],
    view: &[u8],
    long: usize,
    likely: usize,
) -> usize
    requires { IsIndex index_key rows.now index.now }
    ensures bound { result ≤ length index.now }
    ensures parted { IsPartitionPoint (λ n. is_before rows.now view.now long n ≡ true)
        (λ n. is_before rows.now view.now long n ≡ false) index.now result }
{
    if likely <= index.len()
        && are_before(rows, index, view, long, likely)
        && are_behind(rows, index, view, long, likely)
    {
        return likely;
    }
    index.partition_point(|n| is_before(rows, *n, view, long))
}

// The same of the row at a place of an index, of rows of a view with any subtree.
fn is_before_at(rows: &[FamilyRow], index: &[usize], place: usize, view: &[u8]) -> bool {
    match index.get(place) {
        Some(n) => is_before(rows, *n, view, 0),
        None => false,
    }
}

// Whether the subtree of the row of a number has at most so many numbers.
fn is_short(rows: &[FamilyRow], n: usize, most: usize) -> bool {
    match rows.get(n) {
        Some(row) => row.subtree.as_slice().len() <= most,
        None => false,
    }
}

// How many of the rows of these numbers, which rise by the lengths of their subtrees, have at most so many
// numbers there.
fn count_short(rows: &[FamilyRow], numbers: &[usize], most: usize) -> usize
    ensures { result ≤ length numbers.now }
{
    match numbers.last() {
        Some(last) if !is_short(rows, *last, most) => {
            numbers.partition_point(|n| is_short(rows, *n, most))
        }
        _ => numbers.len(),
    }
}

// The number at a place, or another one where there is none.
fn number_or(numbers: &[usize], place: usize, other: usize) -> usize {
    match numbers.get(place) {
        Some(number) => *number,
        None => other,
    }
}

// Where the rows of a view whose subtrees have at most so many numbers are likely to begin and to end, by
// where the rows of each view begin.
fn likely_range(rows: &[FamilyRow], ranks: Ranks<'_>, view: &[u8], most: usize) -> (usize, usize) {
    let index = ranks.index;
    let at = ranks
        .starts
        .partition_point(|start| is_before_at(rows, index, *start, view));
    let first = number_or(ranks.starts, at, index.len()).min(index.len());
    let end = number_or(ranks.starts, at.saturating_add(1), index.len()).clamp(first, index.len());
    (first, first + count_short(rows, &index[first..end], most))
}

// Where those rows of an index begin and end that are of a view and whose subtrees have at most so many
// numbers. Of few rows these are all.
fn range_of_view(rows: &[FamilyRow], ranks: Ranks<'_>, view: &[u8], most: usize) -> (usize, usize)
    requires index { IsIndex index_key rows.now ranks.index.now }
    requires most { most < usize.MAX }
    ensures order { result.0 ≤ result.1 }
    ensures end { result.1 ≤ length ranks.entry.index.now }
    ensures of_view { AreOfView rows.now view.now most
        (take (result.1 - result.0) (drop result.0 ranks.entry.index.now)) }
{
    let index = ranks.index;
    if index.len() <= SHORT_INDEX {
        return (0, index.len());
    }
    let (first, end) = likely_range(rows, ranks, view, most);
    let first = count_before(rows, index, view, 0, first);
    let end = count_before(rows, index, view, most + 1, end);
    (first, end)
}

// Whether a row is of a view, and its family has a name. The view is compared last, since most rows
// do not have the name.
fn is_match(row: &FamilyRow, view: &Name, name: &[u32]) -> bool
    ensures { result ≡ matches view.now name.now row.now }
{
    agrees_by_bits(row.mask.as_slice(), row.subtree.as_slice(), name) && row.view.is(view)
}

// The last of the rows of these numbers that is of a view and has a name.
fn last_match(rows: &[FamilyRow], numbers: &[usize], view: &Name, name: &[u32]) -> Option<usize>
    requires { All (λ n. n < length rows.now) numbers.now }
    ensures { IsLastMatch rows.now view.now name.now numbers.now result }
{
    for k in (0..numbers.len()).rev() {
        let n = numbers[k];
        if is_match(&rows[n], view, name) {
            return Some(n);
        }
    }
    None
}

// The last of the rows of these numbers that is left, is of a view and has a name. A row is left if its
// bit is set.
fn last_left(
    rows: &[FamilyRow],
    numbers: &[usize],
    left: u64,
    view: &Name,
    name: &[u32],
) -> Option<usize>
    requires within { All (λ n. n < length rows.now) numbers.now }
    requires left { (k d : ℕ) → k < length numbers.now
        → is_match view.now name.now (slice_get rows.now (slice_index_or numbers.now k d)) ≡ true
        → bit_at left k ≡ 1 }
    requires short { length numbers.now ≤ 64 }
    ensures { IsLastMatch rows.now view.now name.now numbers.now result }
{
    let mut left = left;
    'bits: while left != 0 {
        let k = 63 - left.leading_zeros() as usize;
        left &= !(1 << k);
        if k < numbers.len() && is_match(&rows[numbers[k]], view, name) {
            return Some(numbers[k]);
        }
    }
    None
}

// The rows of a block of an index whose families may have a name; all where there are no bitmaps.
fn rows_left(blocks: &[Block], block: usize, name: &[u32]) -> u64
    ensures { (rank : ℕ) (row : FamilyRow) → rank / 64 ≡ block → IsIn blocks.now rank row
        → agrees_from 0 row.mask row.subtree name.now ≡ true → bit_at result (rank % 64) ≡ 1 }
{
    match blocks.get(block) {
        Some(block) => block.rows_left(name),
        None => u64::MAX,
    }
}

// The same, by the candidates of the name where they are kept.
fn left_of(blocks: &[Block], kept: Option<&Candidates>, block: usize, name: &[u32]) -> u64
    requires { IfSome kept (λ candidates. IsOfName blocks.now candidates.now name.now) }
    ensures { (rank : ℕ) (row : FamilyRow) → rank / 64 ≡ block → IsIn blocks.now rank row
        → agrees_from 0 row.mask row.subtree name.now ≡ true → bit_at result (rank % 64) ≡ 1 }
{
    match kept {
        Some(candidates) => candidates.left(blocks, block),
        None => rows_left(blocks, block, name),
    }
}

// The last of the rows between two places of an index that is of a view and has a name, by bitmaps.
fn last_of_blocks(
    rows: &[FamilyRow],
    index: &[usize],
    blocks: &[Block],
    kept: Option<&Candidates>,
    range: (usize, usize),
    view: &Name,
    name: &[u32],
) -> Option<usize>
    requires within { All (λ n. n < length rows.now) index.now }
    requires order { range.0 ≤ range.1 }
    requires end { range.1 ≤ length index.now }
    requires blocks { AreIn rows.now index.now blocks.now }
    requires kept { IfSome kept (λ candidates. IsOfName blocks.now candidates.now name.now) }
    ensures { IsLastMatch rows.now view.now name.now
        (take (range.1 - range.0) (drop range.0 index.now)) result }
{
    let (first, end) = range;
    for block in (first / BLOCK_ROWS..end.div_ceil(BLOCK_ROWS)).rev() {
        let from = first.max(block * BLOCK_ROWS);
        let to = end.min(block * BLOCK_ROWS + BLOCK_ROWS);
        let left = left_of(blocks, kept, block, name) >> (from % BLOCK_ROWS);
        if let Some(n) = last_left(rows, &index[from..to], left, view, name) {
            return Some(n);
        }
    }
    None
}

/// The number of the row of a view that decides on a name, found among the rows of the view from
/// behind, by their bitmaps where there are some, and by the candidates of the name where they are kept. It
/// takes no memory.
pub fn last_of_view(
    rows: &[FamilyRow],
    ranks: Ranks<'_>,
    blocks: &[Block],
    kept: Option<&Candidates>,
    view: &Name,
    name: &[u32],
) -> Option<usize>
    requires index { IsIndex index_key rows.now ranks.index.now }
    requires blocks { AreIn rows.now ranks.index.now blocks.now }
    requires kept { IfSome kept (λ candidates. IsOfName blocks.now candidates.now name.now) }
    requires differ { KeysDiffer same_family rows.now }
    ensures place { result ≡ deciding_family rows.now view.now name.now }
    ensures within { ForSome result (λ n. n < length rows.now) }
{
    let (first, end) = range_of_view(rows, ranks, view.as_bytes(), name.len());
    let index = ranks.index;
    if blocks.is_empty() {
        last_match(rows, &index[first..end], view, name)
    } else {
        last_of_blocks(rows, index, blocks, kept, (first, end), view, name)
    }
}
