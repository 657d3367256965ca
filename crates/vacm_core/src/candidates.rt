//! Which family rows may have a name, kept by its numbers from the first on. A name that begins as the
//! one before then asks the bitmaps of the numbers behind that alone.
ghost use Rattle.std.specs.Prelude.{◌≡◌, ◌≤◌, ◌<◌, ◌/◌, ◌%◌, ◌++◌, [], ◌∷◌, ℕ, List, true, take, length, IfOk, OnOk, slice_get, slice_index, Some};
ghost use Rattle.std.specs.Int.{bit_at};
ghost use Rattle.oid_core.specs.declared.limits.TheConstants.{MAX_NUMBERS};
ghost use Rattle.vacm_core.specs.Bitmaps.{is_allowed, only_of, IsSound, IsIn};
ghost use Rattle.vacm_core.specs.Candidates.{AreFollowed};
ghost use Rattle.vacm_core.specs.Families.{agrees_from};
ghost use Rattle.vacm_core.specs.declared.bitmaps.Block.{Block};
ghost use Rattle.vacm_core.specs.declared.tables.FamilyRow.{FamilyRow};

use crate::bitmaps::Block;
use crate::compared::alike;
use arrayvec::ArrayVec;
use oid_core::MAX_NUMBERS;
use std::alloc::{AllocError, Global};

/// Of how many blocks rows are kept; of those behind, each row is compared.
const FOLLOWED: usize = 32;

/// The rows that are left by so many numbers of a name, a word for each block: each row is a bit.
#[derive(Clone, Copy)]
pub struct Level {
    /// The words.
    pub rows: [u64; 32],
}

/// The rows that may have a name, by each count of its numbers.
#[derive(Drop)]
pub struct Candidates {
    /// The numbers of the name.
    pub numbers: ArrayVec<u32, MAX_NUMBERS>,
    /// The rows that are left, by how many of the numbers are compared, from none on.
    pub levels: Vec<Level>,
}

// The rows of a level that are left where a name has this number at the next place.
fn next_level(blocks: &[Block], place: usize, number: u32, level: &Level) -> Level
    ensures { (b bit : ℕ) (block : Block) (row : FamilyRow) → b < 32 → bit < 64
        → slice_get blocks.now b ≡ Some block → IsSound block bit row
        → is_allowed (only_of row place) number ≡ true
        → bit_at (slice_index level.now.rows b) bit ≡ 1 → bit_at (slice_index result.rows b) bit ≡ 1 }
{
    let mut rows = level.rows;
    for b in 0..FOLLOWED.min(blocks.len()) {
        rows[b] = blocks[b].rows_at(place, number, rows[b]);
    }
    Level { rows }
}

impl Candidates {
    /// All rows, by no number. It takes memory for each count of the numbers of a name.
    ///
    /// # Errors
    ///
    /// Where there is no memory.
    pub fn new(alloc: Global) -> Result<Candidates, AllocError>
        ensures { IfOk result (λ candidates. (blocks : List Block)
            → AreFollowed blocks candidates.numbers.items candidates.levels.items) }
    {
        let mut levels = Vec::with_capacity(alloc, MAX_NUMBERS + 1)?;
        levels.push(Level {
            rows: [u64::MAX; 32],
        })?;
        Ok(Candidates {
            numbers: ArrayVec::new(),
            levels,
        })
    }

    // Those that are left by one number more.
    fn add(&mut self, blocks: &[Block], number: u32) -> Result<(), AllocError>
        requires followed { AreFollowed blocks.now self.old.numbers.items self.old.levels.items }
        requires short { length self.old.numbers.items < MAX_NUMBERS }
        ensures followed { AreFollowed blocks.now self.new.numbers.items self.new.levels.items }
        ensures numbers { OnOk result
            (self.new.numbers.items ≡ self.old.numbers.items ++ number ∷ []) }
    {
        let place = self.numbers.len();
        let level = next_level(blocks, place, number, &self.levels[place]);
        self.levels.push(level)?;
        self.numbers.push(number);
        Ok(())
    }

    /// The rows that may have another name. What the two have alike from the first number on is kept.
    ///
    /// # Errors
    ///
    /// Where there is no memory; the rows are those of a front of the name then.
    pub fn turn(&mut self, blocks: &[Block], name: &[u32]) -> Result<(), AllocError>
        requires followed { AreFollowed blocks.now self.old.numbers.items self.old.levels.items }
        requires short { length name.now ≤ MAX_NUMBERS }
        ensures followed { AreFollowed blocks.now self.new.numbers.items self.new.levels.items }
        ensures name { OnOk result (self.new.numbers.items ≡ name.now) }
    {
        let same = alike(self.numbers.as_slice(), name);
        self.numbers.truncate(same);
        self.levels.truncate(same + 1);
        for k in same..name.len() {
            self.add(blocks, name[k])?;
        }
        Ok(())
    }

    /// The rows of a block whose families may have the name; all where none are kept of it. It takes no
    /// memory.
    pub fn left(&self, blocks: &[Block], block: usize) -> u64
        requires { AreFollowed blocks.now self.now.numbers.items self.now.levels.items }
        ensures { (rank : ℕ) (row : FamilyRow) → rank / 64 ≡ block → IsIn blocks.now rank row
            → agrees_from 0 row.mask row.subtree self.now.numbers.items ≡ true
            → bit_at result (rank % 64) ≡ 1 }
    {
        if block < FOLLOWED && block < blocks.len() {
            self.levels[self.numbers.len()].rows[block]
        } else {
            u64::MAX
        }
    }
}
