//! The family rows with their tree, and the row of a view that decides on a name.
ghost use Rattle.std.specs.Prelude.{◌≡◌, ◌≤◌, ◌<◌, ◌==◌, ◌+◌, ◌&&◌, if◌then◌else◌, nat_lt, ℕ, List, [], Some, true, not, length, All, IfOk, OnOk, OnErr, bytes_eq, slice_get, slice_index, slice_index_or, option_map};
ghost use Rattle.std.specs.List.{list_any};
ghost use Rattle.std.specs.Option.{ForSome};
ghost use Rattle.vacm_core.specs.Rows.{same_family};
ghost use Rattle.vacm_core.specs.Tables.{KeysDiffer};
ghost use Rattle.vacm_core.specs.Access.{has_view};
ghost use Rattle.vacm_core.specs.Bitmaps.{AreIn};
ghost use Rattle.vacm_core.specs.Families.{deciding_family};
ghost use Rattle.vacm_core.specs.FamilyIndex.{next_family, family_at};
ghost use Rattle.vacm_core.specs.Fronts.{IsShortestFront};
ghost use Rattle.vacm_core.specs.Keys.{IsIndex, view_key, index_key};
ghost use Rattle.vacm_core.specs.Changes.{with_mask, with_type};
ghost use Rattle.vacm_core.specs.Trees.{leads, reaches, counting_part, way_of, IsPlaced, IsNumbered, IsTreeOf, IsTreeBut, AreNumbered};
ghost use Rattle.vacm_core.specs.declared.tree.Step.{Step};
ghost use Rattle.vacm_core.specs.declared.limits.TheConstants.{MAX_MASK};
ghost use Rattle.vacm_core.specs.declared.families.TheConstants.{MOST_STALE};
ghost use Rattle.vacm_core.specs.declared.tables.FamilyRow.{FamilyRow};

use crate::bitmaps::{Block, bitmaps_of, put_row};
use crate::by_index::{self, numbers_by_index};
use crate::by_view::{Ranks, last_of_view};
use crate::candidates::Candidates;
use crate::copying::copied_rows;
use crate::deciding::{FamilyContest, mask_bit};
use crate::front;
use crate::index::{Keyed, index_of, with_key};
use crate::limits::MAX_NAME;
use crate::lookup::FamilyLookup;
use crate::name::{Mask, Name};
use crate::numbers::put_numbers;
use crate::radix::{Radix, packed};
use crate::repeats::numbers_by_key;
use crate::rows::Rows;
use crate::starts::starts_of;
use crate::tables::FamilyRow;
use crate::tree::{Step, Tree};
use crate::walk::best_below;
use crate::written::WrittenFamily;
use arrayvec::ArrayVec;
use oid_core::{MAX_NUMBERS, Oid};
use std::alloc::{AllocError, Global};
use std::marker::Model;

// How many steps a way has at most: how many octets a view's name has, those, and a subtree.
const MOST_STEPS: usize = 1 + MAX_NAME + MAX_NUMBERS;

// The most rows of which the one that decides is sought without their tree.
const FEW_ROWS: usize = 12;

// The same where ways part first at a place that some mask leaves open.
const FEW_OPEN_ROWS: usize = 64;

// How many steps a walk of the tree may take, of however few rows, before it gives up.
const LEAST_STEPS: usize = 12;

// For how many rows it may take one more.
const ROWS_PER_STEP: usize = 32;

// How many masks that had a 0 are put before all marks of the tree are made anew.
const MOST_STALE: usize = 64;

impl Keyed for FamilyRow {
    ghost key = { view_key };

    fn key_number(&self) -> u32 {
        0
    }

    fn key_name(&self) -> &Name {
        &self.view
    }
}

/// The family rows, seen as their list, with the tree of them and the numbers of the rows by
/// view and by index. No two rows have one key.
pub struct Families {
    rows: Vec<FamilyRow>,
    tree: Radix,
    // By view.
    view_index: Rows<usize>,
    // By the index of the table.
    table_index: Rows<usize>,
    // By that index, of many rows.
    blocks: Vec<Block>,
    // Where the rows of each view begin in that index, of many rows.
    starts: Vec<usize>,
    // How many masks that had a 0 were put since all marks of the tree were made anew. That saves time alone.
    stale: usize,
}

impl Model for Families {
    ghost use Rattle.std.specs.Prelude.{List};
    ghost use Rattle.vacm_core.specs.Bitmaps.{AreIn};
    ghost use Rattle.vacm_core.specs.Keys.{IsIndex, view_key, index_key};
    ghost use Rattle.vacm_core.specs.Trees.{AreWithTree};
    ghost use Rattle.vacm_core.specs.declared.tables.FamilyRow.{FamilyRow};

    ghost Value = { List FamilyRow };

    ghost view = { λ f. f.rows.items };

    ghost invariant = { λ f. AreWithTree f.rows.items f.tree
        × IsIndex view_key f.rows.items f.view_index
        × IsIndex index_key f.rows.items f.table_index
        × AreIn f.rows.items f.table_index f.blocks.items };
}

// By hand: who drops the rows then knows nothing of the tree.
impl Drop for Families {
    fn drop(self) {
        let Families {
            rows: _rows,
            tree: _tree,
            view_index: _view_index,
            table_index: _table_index,
            blocks: _blocks,
            starts: _starts,
            stale: _stale,
        } = self;
    }
}

impl Families {
    /// The rows with their tree and their index.
    ///
    /// # Errors
    ///
    /// Where there is no memory for these; there is then a row.
    pub fn new(alloc: Global, rows: Rows<FamilyRow>) -> Result<Families, AllocError>
        requires { KeysDiffer same_family rows }
        ensures rows { IfOk result (λ families. families ≡ rows) }
        ensures memory { OnErr result (0 < length rows) }
    {
        let tree = tree_of(alloc, rows.as_slice())?;
        let view_index = index_of(alloc, rows.as_slice())?;
        let table_index = numbers_by_index(alloc, rows.as_slice())?;
        let blocks = bitmaps_of(alloc, rows.as_slice(), table_index.as_slice())?;
        let starts = starts_of(alloc, rows.as_slice(), table_index.as_slice())?;
        Ok(Families {
            rows: rows.into_vec(),
            tree,
            view_index,
            table_index,
            blocks,
            starts,
            stale: 0,
        })
    }

    /// The same rows, with a tree and an index of their own.
    ///
    /// # Errors
    ///
    /// Where there is no memory for them.
    pub fn try_copy(&self, alloc: Global) -> Result<Families, AllocError>
        ensures { IfOk result (λ copy. copy ≡ self.now) }
    {
        let rows = copied_rows(alloc, self.rows.as_slice())?;
        Families::new(alloc, rows)
    }

    /// The rows.
    pub fn as_slice(&self) -> &[FamilyRow]
        ensures { result.now ≡ self.now }
    {
        self.rows.as_slice()
    }

    /// Puts the mask of the row of this number, and gives the one that it had. It takes no memory. It goes
    /// along the way of its row and along the index; where the mask before has a 0, and [`MOST_STALE`] such
    /// masks went before, it goes along the way of each row. What stays marked that no row needs any more costs time alone, and no clause
    /// speaks of it.
    pub fn put_mask(&mut self, n: usize, mask: Mask) -> Mask
        requires { n < length self.old }
        ensures rows { self.new ≡ with_mask self.old n mask }
        ensures before { option_map (λ row. row.mask) (slice_get self.old n) ≡ Some result }
        ensures short { length mask ≤ MAX_MASK }
    {
        let before = put_mask(&mut self.rows, n, mask);
        let was_open = has_zero(before.as_slice());
        let renews = is_renewal(&mut self.stale, was_open);
        mark_changed(&mut self.tree, self.rows.as_slice(), n, renews);
        let index = self.table_index.as_slice();
        put_row(&mut self.blocks, index, self.rows.as_slice(), n);
        before
    }

    /// Puts the type of the row of this number, and gives the one that it had. It takes no memory.
    pub fn put_type(&mut self, n: usize, included: bool) -> bool
        requires { n < length self.old }
        ensures rows { self.new ≡ with_type self.old n included }
        ensures before { option_map (λ row. row.included) (slice_get self.old n) ≡ Some result }
    {
        put_type(&mut self.rows, n, included)
    }

    /// The same rows, as they are asked of one name after the other.
    ///
    /// # Errors
    ///
    /// Where there is no memory for what is kept of a name.
    pub fn lookup(&self, alloc: Global) -> Result<FamilyLookup<'_>, AllocError>
        ensures { IfOk result (λ lookup. lookup ≡ self.now) }
    {
        Ok(FamilyLookup {
            rows: self.rows.as_slice(),
            tree: &self.tree,
            ranks: Ranks {
                index: self.table_index.as_slice(),
                starts: self.starts.as_slice(),
            },
            blocks: self.blocks.as_slice(),
            candidates: Candidates::new(alloc)?,
            gave_up: false,
        })
    }

    /// The number of the row of a view that decides on a name. It takes no memory.
    pub fn deciding(&self, view: &Name, name: &Oid) -> Option<usize>
        ensures place { result ≡ deciding_family self.now view.now name.now }
        ensures within { ForSome result (λ n. n < length self.now) }
    {
        let rows = self.rows.as_slice();
        let ranks = Ranks {
            index: self.table_index.as_slice(),
            starts: self.starts.as_slice(),
        };
        let blocks = self.blocks.as_slice();
        deciding_family(&self.tree, rows, ranks, blocks, view, name)
    }

    /// The shortest front of a name under which the answer by the row that decides holds.
    pub fn shortest_front(&self, view: &Name, name: &Oid, decides: Option<usize>) -> Option<usize>
        requires decides { decides ≡ deciding_family self.now view.now name.now }
        requires within { ForSome decides (λ n. n < length self.now) }
        ensures { IsShortestFront self.now view.now name.now result }
    {
        front::shortest_front(self.rows.as_slice(), view, name.as_slice(), decides)
    }

    /// The number of the row whose index is the first that is greater than these numbers.
    pub fn next(&self, numbers: &[u32]) -> Option<usize>
        ensures place { result ≡ next_family self.now numbers.now }
        ensures within { ForSome result (λ n. n < length self.now) }
    {
        let index = self.table_index.as_slice();
        by_index::next_family(self.rows.as_slice(), index, numbers)
    }

    /// The number of the row of this index.
    pub fn at(&self, numbers: &[u32]) -> Option<usize>
        ensures place { result ≡ family_at self.now numbers.now }
        ensures within { ForSome result (λ n. n < length self.now) }
    {
        let index = self.table_index.as_slice();
        by_index::family_at(self.rows.as_slice(), index, numbers)
    }

    /// Whether a view has a name and a family, found by halves. It takes no memory.
    pub fn has_view(&self, view: &Name) -> bool
        ensures { result ≡ has_view self.now view.now }
    {
        let index = self.view_index.as_slice();
        !view.is_empty() && has_row_of(self.rows.as_slice(), index, view.as_bytes())
    }
}

// Puts the mask of the row of this number.
fn put_mask(rows: &mut Vec<FamilyRow>, n: usize, mask: Mask) -> Mask
    requires { n < length rows.old.items }
    ensures rows { rows.new.items ≡ with_mask rows.old.items n mask }
    ensures before { option_map (λ row. row.mask) (slice_get rows.old.items n) ≡ Some result }
    ensures short { length mask ≤ MAX_MASK }
{
    let _short = mask.as_slice();
    let row = &mut rows[n];
    let before = row.mask;
    row.mask = mask;
    before
}

// Puts the type of the row of this number.
fn put_type(rows: &mut Vec<FamilyRow>, n: usize, included: bool) -> bool
    requires { n < length rows.old.items }
    ensures rows { rows.new.items ≡ with_type rows.old.items n included }
    ensures before { option_map (λ row. row.included) (slice_get rows.old.items n) ≡ Some result }
{
    let row = &mut rows[n];
    let before = row.included;
    row.included = included;
    before
}

// Whether some bit of a mask is 0.
fn has_zero(mask: &[u8]) -> bool
    ensures { result ≡ list_any (λ octet. not (octet == 255)) mask.now }
{
    mask.iter().any(|octet| *octet != 255)
}

// Marks where the steps of a row do not count.
fn mark_row(tree: &mut Radix, row: &FamilyRow)
    ensures kept { (way : List Step) (n : ℕ) → reaches tree.old way n ≡ true
        → reaches tree.new way n ≡ true }
    ensures marked { (n : ℕ) → IsNumbered (reaches tree.old) row.now n
        → IsPlaced (reaches tree.new) row.now n }
{
    let mut way = ArrayVec::new();
    put_way(&mut way, row);
    tree.mark(way.as_slice());
}

// The same of all rows.
fn mark_all(tree: &mut Radix, rows: &[FamilyRow])
    requires { AreNumbered (reaches tree.old) rows.now }
    ensures { IsTreeOf (reaches tree.new) rows.now }
{
    for row in rows {
        mark_row(tree, row);
    }
}

// Whether all marks are made anew, since so many masks that had a 0 were put, the last one among them: each
// may have left marks that no row needs.
fn is_renewal(stale: &mut usize, was_open: bool) -> bool
    ensures renews { result ≡ (was_open && not (nat_lt stale.old MOST_STALE)) }
    ensures stale { stale.new ≡ (if not was_open then stale.old
        else if nat_lt stale.old MOST_STALE then stale.old + 1 else 0) }
{
    if !was_open {
        return false;
    }
    if *stale < MOST_STALE {
        *stale += 1;
        return false;
    }
    *stale = 0;
    true
}

// Marks what the steps of a row, whose mask was changed, do not count; or makes all marks anew.
fn mark_changed(tree: &mut Radix, rows: &[FamilyRow], n: usize, renews: bool)
    requires within { n < length rows.now }
    requires tree { IsTreeBut (reaches tree.old) rows.now n }
    ensures { IsTreeOf (reaches tree.new) rows.now }
{
    if renews {
        tree.clear();
        mark_all(tree, rows);
    } else {
        mark_row(tree, &rows[n]);
    }
}

// Whether some row is of the view of this name.
fn has_row_of(rows: &[FamilyRow], index: &[usize], view: &[u8]) -> bool
    requires { IsIndex view_key rows.now index.now }
    ensures { result ≡ list_any (λ row. bytes_eq row.view view.now) rows.now }
{
    !with_key(rows, index, 0, view).is_empty()
}

// A step that counts.
fn fixed(part: u32) -> Step
    ensures { result ≡ counting_part part }
{
    Step { part, counts: true }
}

// Puts in the steps of the way of a row: the length of its view's name, the octets of that name, and
// the subtree, whose steps count where the mask's bit is 1.
fn put_way(way: &mut ArrayVec<Step, MOST_STEPS>, row: &FamilyRow)
    requires empty { way.old.items ≡ [] }
    ensures way { way.new.items ≡ way_of row.now }
    ensures some { 1 ≤ length row.now.subtree }
{
    let view = row.view.as_bytes();
    way.push(fixed(view.len() as u32));
    for octet in view {
        way.push(fixed(u32::from(*octet)));
    }
    let mask = row.mask.as_slice();
    for (k, part) in row.subtree.as_slice().iter().enumerate() {
        way.push(Step {
            part: *part,
            counts: mask_bit(mask, k),
        });
    }
}

// Puts a row at its place.
fn place(tree: &mut Tree, alloc: Global, rows: &[FamilyRow], n: usize) -> Result<(), AllocError>
    requires within { n < length rows.now }
    requires differ { KeysDiffer same_family rows.now }
    ensures placed { OnOk result ((d : FamilyRow) →
        IsPlaced (leads tree.new) (slice_index_or rows.now n d) n) }
    ensures kept { OnOk result ((m : ℕ) (d : FamilyRow) → m < length rows.now
        → IsPlaced (leads tree.old) (slice_index_or rows.now m d) m
        → IsPlaced (leads tree.new) (slice_index_or rows.now m d) m) }
{
    let mut way = ArrayVec::new();
    put_way(&mut way, &rows[n]);
    tree.insert(alloc, way.as_slice(), n)
}

// Puts the rows of some of these numbers at their places, the middle one first, so that a tree of
// rows in the order of their ways is balanced.
fn place_between(
    tree: &mut Tree,
    alloc: Global,
    rows: &[FamilyRow],
    numbers: &[usize],
    from: usize,
    to: usize,
) -> Result<(), AllocError>
    requires within { All (λ n. n < length rows.now) numbers.now }
    requires range { to ≤ length numbers.now }
    requires differ { KeysDiffer same_family rows.now }
    ensures placed { OnOk result ((k : ℕ) (d : FamilyRow) → from ≤ k → k < to
        → let n = slice_index numbers.now k in
        IsPlaced (leads tree.new) (slice_index_or rows.now n d) n) }
    ensures kept { OnOk result ((m : ℕ) (d : FamilyRow) → m < length rows.now
        → IsPlaced (leads tree.old) (slice_index_or rows.now m d) m
        → IsPlaced (leads tree.new) (slice_index_or rows.now m d) m) }
    ensures memory { OnErr result (from < to) }
{
    if from >= to {
        return Ok(());
    }
    let middle = from + (to - from) / 2;
    place(tree, alloc, rows, numbers[middle])?;
    place_between(tree, alloc, rows, numbers, from, middle)?;
    place_between(tree, alloc, rows, numbers, middle + 1, to)
}

// The tree of the family rows. Where there is no memory there is a row.
fn tree_of(alloc: Global, rows: &[FamilyRow]) -> Result<Radix, AllocError>
    requires { KeysDiffer same_family rows.now }
    ensures tree { IfOk result (λ tree. IsTreeOf (reaches tree) rows.now) }
    ensures memory { OnErr result (0 < length rows.now) }
{
    if rows.is_empty() {
        return Ok(Radix::Empty);
    }
    let numbers = numbers_by_key::<WrittenFamily>(alloc, rows)?;
    let mut tree = Tree::Empty;
    place_between(&mut tree, alloc, rows, numbers.as_slice(), 0, numbers.len())?;
    packed(alloc, &tree)
}

// The number of the family row of a view that decides on a name, of those in their tree, unless the
// walk of the tree gives up, since masks leave much open.
pub(crate) fn walked(
    tree: &Radix,
    rows: &[FamilyRow],
    view: &Name,
    name: &[u32],
) -> Option<Option<usize>>
    requires tree { IsTreeOf (reaches tree.now) rows.now }
    requires differ { KeysDiffer same_family rows.now }
    requires short { length name.now ≤ MAX_NUMBERS }
    ensures place { ForSome result (λ best. best ≡ deciding_family rows.now view.now name.now) }
    ensures within { ForSome result (λ best. ForSome best (λ n. n < length rows.now)) }
{
    let contest = FamilyContest { view, name };
    let mut numbers = ArrayVec::new();
    put_numbers(&mut numbers, view, name);
    let mut left = LEAST_STEPS + rows.len() / ROWS_PER_STEP;
    let best = best_below(tree, &contest, rows, numbers.as_slice(), None, &mut left);
    if left == 0 { None } else { Some(best) }
}

// Whether a scan takes no longer than a walk of the tree of rows: there are few of them, or bitmaps of
// rows whose ways part first at a place that some mask leaves open.
pub(crate) fn is_for_scan(tree: &Radix, rows: &[FamilyRow], blocks: &[Block]) -> bool {
    if tree.starts_loose() {
        rows.len() <= FEW_OPEN_ROWS || !blocks.is_empty()
    } else {
        rows.len() <= FEW_ROWS
    }
}

// The number of the family row of a view that decides on a name: by the tree of the rows or, of few
// rows, of rows that are open early, and where its walk gives up, by the rows of the view in the order
// of their indexes.
fn deciding_family(
    tree: &Radix,
    rows: &[FamilyRow],
    ranks: Ranks<'_>,
    blocks: &[Block],
    view: &Name,
    name: &Oid,
) -> Option<usize>
    requires tree { IsTreeOf (reaches tree.now) rows.now }
    requires index { IsIndex index_key rows.now ranks.index.now }
    requires blocks { AreIn rows.now ranks.index.now blocks.now }
    requires differ { KeysDiffer same_family rows.now }
    ensures place { result ≡ deciding_family rows.now view.now name.now }
    ensures within { ForSome result (λ n. n < length rows.now) }
{
    let name = name.as_slice();
    if is_for_scan(tree, rows, blocks) {
        return last_of_view(rows, ranks, blocks, None, view, name);
    }
    match walked(tree, rows, view, name) {
        Some(best) => best,
        None => last_of_view(rows, ranks, blocks, None, view, name),
    }
}
