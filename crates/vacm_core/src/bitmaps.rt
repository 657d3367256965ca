//! Bitmaps of family rows, by the numbers that names may have at each place of the rows' subtrees. Of
//! many rows whose masks leave much open, a name is then compared with few.
ghost use Rattle.std.specs.Prelude.{◌≡◌, ◌≢◌, ◌≤◌, ◌<◌, ◌*◌, ◌+◌, ℕ, true, length, All, IfOk, IfSome, OnErr, slice_get, slice_index, slice_index_or, Some};
ghost use Rattle.std.specs.Int.{bit_at};
ghost use Rattle.vacm_core.specs.Bitmaps.{is_allowed, only_of, keeps, IsKept, IsSound, IsIn, AreIn, AreInBut};
ghost use Rattle.vacm_core.specs.Families.{agrees_from};
ghost use Rattle.vacm_core.specs.declared.tables.FamilyRow.{FamilyRow};

use crate::compared::alike;
use crate::deciding::mask_bit;
use crate::tables::FamilyRow;
use std::alloc::{AllocError, Global};

/// How many rows a block has at most: the bits of a word.
pub const BLOCK_ROWS: usize = 64;

/// How many values a digit of a number has: four bits.
const BASE: u32 = 16;

/// Which rows of a block may have a number, by its digits from the lowest on. Each row is a bit.
#[cycle(bitmap)]
#[derive(Drop)]
pub enum Bitmap {
    /// What is left of the number when no digit follows.
    Rest(Rest),
    /// The lowest digit of what is left.
    Digit(Box<Digit>),
}

/// What is left of a number, of which no digit differs in the rows.
#[derive(Drop)]
pub struct Rest {
    /// What is left of each row's number.
    pub high: u32,
    /// The rows that may have another one.
    pub others: u64,
}

/// A digit of a number.
#[cycle(bitmap)]
#[derive(Drop)]
pub struct Digit {
    /// The rows that may have the digit, by its value.
    pub rows: [u64; 16],
    /// The digits that follow.
    pub rest: Bitmap,
}

// A word with a bit set, or without it.
fn with_bit(word: u64, bit: usize, on: bool) -> u64
    requires { bit < 64 }
    ensures here { on ≡ true → bit_at result bit ≡ 1 }
    ensures others { (other : ℕ) → other < 64 → other ≢ bit → bit_at result other ≡ bit_at word other }
{
    if on {
        word | (1 << bit)
    } else {
        word & !(1 << bit)
    }
}

// Whether a value is the only one, where there is an only one.
fn is_allowed(only: Option<u32>, value: u32) -> bool
    ensures { result ≡ is_allowed only value }
{
    match only {
        Some(only) => only == value,
        None => true,
    }
}

// Puts which values of a digit a row may have.
fn put_digit(rows: &mut [u64; 16], bit: usize, only: Option<u32>)
    requires { bit < 64 }
    ensures here { (value : ℕ) → value < 16 → is_allowed only value ≡ true
        → bit_at (slice_index rows.new value) bit ≡ 1 }
    ensures others { (other value : ℕ) → other < 64 → other ≢ bit → value < 16
        → bit_at (slice_index rows.new value) other ≡ bit_at (slice_index rows.old value) other }
{
    for value in 0..16 {
        rows[value] = with_bit(rows[value], bit, is_allowed(only, value as u32));
    }
}

impl Bitmap {
    /// The bitmap in which each row may have each number. It has a digit for each that differs in the
    /// rows, whose differing bits these are, up to the highest; one of their numbers is handed in.
    ///
    /// # Errors
    ///
    /// Where there is no memory.
    pub fn all(alloc: Global, number: u32, differing: u32) -> Result<Bitmap, AllocError>
        ensures { IfOk result (λ bitmap. (bit asked : ℕ) → bit < 64 → keeps bitmap bit asked ≡ true) }
    {
        if differing == 0 {
            let rest = Rest {
                high: number,
                others: u64::MAX,
            };
            return Ok(Bitmap::Rest(rest));
        }
        let digit = Digit {
            rows: [u64::MAX; 16],
            rest: Bitmap::all(alloc, number / BASE, differing / BASE)?,
        };
        Ok(Bitmap::Digit(Box::new(alloc, digit)?))
    }

    /// Those of some rows that may have a number. It takes no memory.
    pub fn rows_with(&self, number: u32, rows: u64) -> u64
        ensures { (bit : ℕ) → bit < 64 → keeps self.now bit number ≡ true → bit_at rows bit ≡ 1
            → bit_at result bit ≡ 1 }
    {
        match self {
            Bitmap::Rest(rest) => {
                if number == rest.high {
                    rows
                } else {
                    rows & rest.others
                }
            }
            Bitmap::Digit(digit) => {
                let digit: &Digit = digit;
                let rows = rows & digit.rows[(number % BASE) as usize];
                digit.rest.rows_with(number / BASE, rows)
            }
        }
    }

    /// Puts the only number that the row of a bit may have, or that it may have any. It takes no memory.
    pub fn put(&mut self, bit: usize, only: Option<u32>)
        requires { bit < 64 }
        ensures here { (number : ℕ) → is_allowed only number ≡ true → keeps self.new bit number ≡ true }
        ensures others { (other number : ℕ) → other < 64 → other ≢ bit
            → keeps self.old other number ≡ true → keeps self.new other number ≡ true }
    {
        match self {
            Bitmap::Rest(rest) => {
                let rest: &mut Rest = rest;
                let on = match only {
                    Some(only) => only != rest.high,
                    None => true,
                };
                rest.others = with_bit(rest.others, bit, on);
            }
            Bitmap::Digit(digit) => {
                let digit: &mut Digit = digit;
                let (low, high) = match only {
                    Some(only) => (Some(only % BASE), Some(only / BASE)),
                    None => (None, None),
                };
                put_digit(&mut digit.rows, bit, low);
                digit.rest.put(bit, high);
            }
        }
    }
}

/// Which rows of a block may have a number at one place of a name.
#[derive(Drop)]
pub struct PlaceBitmap {
    /// The place, from 0 on.
    pub place: usize,
    /// The rows.
    pub rows: Bitmap,
}

impl PlaceBitmap {
    // Puts which numbers the row of a bit may have here.
    fn put(&mut self, bit: usize, row: &FamilyRow)
        requires { bit < 64 }
        ensures here { IsKept self.new bit row.now }
        ensures others { (other : ℕ) (kept : FamilyRow) → other < 64 → other ≢ bit
            → IsKept self.old other kept → IsKept self.new other kept }
    {
        self.rows.put(bit, only_of(row, self.place));
    }
}

/// The bitmaps of up to [`BLOCK_ROWS`] rows, by place.
#[derive(Drop)]
pub struct Block {
    /// The places, the last one first.
    pub places: Vec<PlaceBitmap>,
    /// The numbers that all subtrees begin with.
    pub front: Vec<u32>,
}

impl Block {
    // Puts which names the family of the row of a bit has.
    fn put(&mut self, bit: usize, row: &FamilyRow)
        requires { bit < 64 }
        ensures here { IsSound self.new bit row.now }
        ensures others { (other : ℕ) (kept : FamilyRow) → other < 64 → other ≢ bit
            → IsSound self.old other kept → IsSound self.new other kept }
    {
        for k in 0..self.places.len() {
            self.places[k].put(bit, row);
        }
    }

    // Whether a place is the last of the numbers that all subtrees begin with, and a name begins with
    // these: no row's family lacks the numbers of the name from there on forward.
    fn is_known(&self, place: usize, name: &[u32]) -> bool {
        match self.front.len() {
            0 => false,
            long => place == long - 1 && name.starts_with(self.front.as_slice()),
        }
    }

    // The bitmap of a place, where there is one.
    fn at(&self, place: usize) -> Option<&PlaceBitmap>
        ensures place { IfSome result (λ at. at.now.place ≡ place) }
        ensures kept { IfSome result (λ at. (bit : ℕ) (row : FamilyRow) → IsSound self.now bit row
            → IsKept at.now bit row) }
    {
        let k = self.places.len().checked_sub(place.saturating_add(1))?;
        let at = self.places.get(k)?;
        if at.place == place { Some(at) } else { None }
    }

    /// Those of some rows whose families may have a name with this number at a place. It takes no memory.
    pub fn rows_at(&self, place: usize, number: u32, rows: u64) -> u64
        ensures { (bit : ℕ) (row : FamilyRow) → bit < 64 → IsSound self.now bit row
            → is_allowed (only_of row place) number ≡ true → bit_at rows bit ≡ 1
            → bit_at result bit ≡ 1 }
    {
        if rows == 0 {
            return 0;
        }
        match self.at(place) {
            Some(at) => at.rows.rows_with(number, rows),
            None => rows,
        }
    }

    /// The rows whose families may have a name. It takes no memory.
    pub fn rows_left(&self, name: &[u32]) -> u64
        ensures { (bit : ℕ) (row : FamilyRow) → bit < 64 → IsSound self.now bit row
            → agrees_from 0 row.mask row.subtree name.now ≡ true → bit_at result bit ≡ 1 }
    {
        let mut left = u64::MAX;
        for at in self.places.as_slice() {
            if left == 0 || self.is_known(at.place, name) {
                return left;
            }
            if let Some(number) = name.get(at.place) {
                left = at.rows.rows_with(*number, left);
            }
        }
        left
    }
}

// The only number that a name of a row's family may have at a place, where there is one.
fn only_of(row: &FamilyRow, place: usize) -> Option<u32>
    ensures { result ≡ only_of row.now place }
{
    match row.subtree.as_slice().get(place) {
        Some(part) if mask_bit(row.mask.as_slice(), place) => Some(*part),
        _ => None,
    }
}

// The number of the subtree of a row at a place, 0 where there is none.
fn part_at(rows: &[FamilyRow], n: usize, place: usize) -> u32 {
    match subtree_of(rows, n).get(place) {
        Some(part) => *part,
        None => 0,
    }
}

// The bits in which numbers of these rows differ at a place from one number.
fn differing(rows: &[FamilyRow], numbers: &[usize], place: usize, number: u32) -> u32 {
    let mut bits = 0;
    for n in numbers {
        bits |= part_at(rows, *n, place) ^ number;
    }
    bits
}

// The numbers that the subtrees of all these rows begin with.
fn front_of(alloc: Global, rows: &[FamilyRow], numbers: &[usize]) -> Result<Vec<u32>, AllocError> {
    let mut front: &[u32] = match numbers.first() {
        Some(n) => subtree_of(rows, *n),
        None => &[],
    };
    for n in numbers {
        front = &front[..alike(front, subtree_of(rows, *n))];
    }
    let mut copy = Vec::new(alloc);
    copy.extend_from_slice(front)?;
    Ok(copy)
}

// The subtree of a row; none has no numbers.
fn subtree_of(rows: &[FamilyRow], n: usize) -> &[u32] {
    match rows.get(n) {
        Some(row) => row.subtree.as_slice(),
        None => &[],
    }
}

// How many numbers the longest subtree of these rows has.
fn longest(rows: &[FamilyRow], numbers: &[usize]) -> usize {
    let mut most = 0;
    for n in numbers {
        most = most.max(subtree_of(rows, *n).len());
    }
    most
}

// The bitmap of a place in which each row may have each number.
fn open_place(
    alloc: Global,
    rows: &[FamilyRow],
    numbers: &[usize],
    place: usize,
) -> Result<PlaceBitmap, AllocError>
    ensures { IfOk result (λ at. (bit : ℕ) (row : FamilyRow) → bit < 64 → IsKept at bit row) }
{
    let number = match numbers.last() {
        Some(n) => part_at(rows, *n, place),
        None => 0,
    };
    let rows = Bitmap::all(alloc, number, differing(rows, numbers, place, number))?;
    Ok(PlaceBitmap { place, rows })
}

// The bitmaps of these rows, in which the family of each has each name.
fn open_block(alloc: Global, rows: &[FamilyRow], numbers: &[usize]) -> Result<Block, AllocError>
    ensures { IfOk result (λ block. (bit : ℕ) (row : FamilyRow) → bit < 64 → IsSound block bit row) }
{
    let front = front_of(alloc, rows, numbers)?;
    let mut places = Vec::new(alloc);
    for place in (0..longest(rows, numbers)).rev() {
        places.push(open_place(alloc, rows, numbers, place)?)?;
    }
    Ok(Block { places, front })
}

// The bitmaps of the rows of these numbers.
fn block_of(alloc: Global, rows: &[FamilyRow], numbers: &[usize]) -> Result<Block, AllocError>
    requires short { length numbers.now ≤ 64 }
    requires within { All (λ n. n < length rows.now) numbers.now }
    ensures { IfOk result (λ block. (bit n : ℕ) (row : FamilyRow) → slice_get numbers.now bit ≡ Some n
        → slice_get rows.now n ≡ Some row → IsSound block bit row) }
{
    let mut block = open_block(alloc, rows, numbers)?;
    for (bit, n) in numbers.iter().enumerate() {
        block.put(bit, &rows[*n]);
    }
    Ok(block)
}

// The numbers of the rows of a block of an index.
fn numbers_of(index: &[usize], block: usize) -> &[usize]
    requires { block * 64 ≤ length index.now }
    ensures short { length result.now ≤ 64 }
    ensures within { (k : ℕ) → k < length result.now → block * 64 + k < length index.now }
    ensures at { (k d : ℕ) → k < length result.now
        → slice_index_or result.now k d ≡ slice_index_or index.now (block * 64 + k) d }
    ensures all { (k : ℕ) → k < 64 → block * 64 + k < length index.now → k < length result.now }
{
    let rest = &index[block * BLOCK_ROWS..];
    &rest[..rest.len().min(BLOCK_ROWS)]
}

/// The bitmaps of rows by the order of an index; there are none where one block has all rows.
///
/// # Errors
///
/// Where there is no memory; there is then a row.
pub fn bitmaps_of(
    alloc: Global,
    rows: &[FamilyRow],
    index: &[usize],
) -> Result<Vec<Block>, AllocError>
    requires { All (λ n. n < length rows.now) index.now }
    ensures bitmaps { IfOk result (λ blocks. AreIn rows.now index.now blocks.items) }
    ensures memory { OnErr result (0 < length index.now) }
{
    let mut blocks = Vec::new(alloc);
    if index.len() <= BLOCK_ROWS {
        return Ok(blocks);
    }
    for block in 0..index.len().div_ceil(BLOCK_ROWS) {
        blocks.push(block_of(alloc, rows, numbers_of(index, block))?)?;
    }
    Ok(blocks)
}

// Puts which names the family of a row has, at its place in the index.
fn put_at(blocks: &mut Vec<Block>, rank: usize, row: &FamilyRow)
    ensures here { IsIn blocks.new.items rank row.now }
    ensures others { (other : ℕ) (kept : FamilyRow) → other ≢ rank → IsIn blocks.old.items other kept
        → IsIn blocks.new.items other kept }
{
    if rank / BLOCK_ROWS < blocks.len() {
        blocks[rank / BLOCK_ROWS].put(rank % BLOCK_ROWS, row);
    }
}

/// Puts which names the family of the row of a number has. It takes no memory, and goes along the index.
pub fn put_row(blocks: &mut Vec<Block>, index: &[usize], rows: &[FamilyRow], n: usize)
    requires within { n < length rows.now }
    requires others { AreInBut rows.now index.now n blocks.old.items }
    ensures { AreIn rows.now index.now blocks.new.items }
{
    for (rank, other) in index.iter().enumerate() {
        if *other == n {
            put_at(blocks, rank, &rows[n]);
        }
    }
}
