//! Whether a view has one name after the other, with what is kept of the name before.
ghost use Rattle.std.specs.Prelude.{◌≡◌, ◌<◌, ℕ, length, true};
ghost use Rattle.std.specs.Option.{ForSome};
ghost use Rattle.vacm_core.specs.Families.{deciding_family, in_view};

use crate::bitmaps::Block;
use crate::by_view::{Ranks, last_of_view};
use crate::candidates::Candidates;
use crate::families::{is_for_scan, walked};
use crate::name::Name;
use crate::radix::Radix;
use crate::tables::FamilyRow;
use oid_core::Oid;
use std::marker::Model;

/// Family rows that are asked of one name after the other, as by a walk, seen as their list. It keeps which
/// rows may have the name before, by its numbers from the first on, and whether the walk of their tree gave
/// up. No answer depends on what it keeps.
#[derive(Drop)]
pub struct FamilyLookup<'a> {
    pub(crate) rows: &'a [FamilyRow],
    pub(crate) tree: &'a Radix,
    pub(crate) ranks: Ranks<'a>,
    pub(crate) blocks: &'a [Block],
    pub(crate) candidates: Candidates,
    pub(crate) gave_up: bool,
}

impl<'a> Model for FamilyLookup<'a> {
    ghost use Rattle.std.specs.Prelude.{List};
    ghost use Rattle.vacm_core.specs.Bitmaps.{AreIn};
    ghost use Rattle.vacm_core.specs.Candidates.{AreFollowed};
    ghost use Rattle.vacm_core.specs.Keys.{IsIndex, index_key};
    ghost use Rattle.vacm_core.specs.Trees.{AreWithTree};
    ghost use Rattle.vacm_core.specs.declared.tables.FamilyRow.{FamilyRow};

    ghost Value = { List FamilyRow };

    ghost view = { λ l. l.rows.now };

    ghost invariant = { λ l. AreWithTree l.rows.now l.tree.now
        × IsIndex index_key l.rows.now l.ranks.index.now
        × AreIn l.rows.now l.ranks.index.now l.blocks.now
        × AreFollowed l.blocks.now l.candidates.numbers.items l.candidates.levels.items };
}

impl<'a> FamilyLookup<'a> {
    // The number of the row of a view that decides on a name, by the tree, unless a scan is for these
    // rows, or a walk of the tree gave up.
    fn by_tree(&mut self, view: &Name, name: &Oid) -> Option<Option<usize>>
        ensures place { ForSome result
            (λ best. best ≡ deciding_family self.old view.now name.now) }
        ensures within { ForSome result (λ best. ForSome best (λ n. n < length self.old)) }
        ensures same { self.new ≡ self.old }
    {
        if self.gave_up || is_for_scan(self.tree, self.rows, self.blocks) {
            return None;
        }
        let best = walked(self.tree, self.rows, view, name.as_slice());
        self.gave_up = best.is_none();
        best
    }

    // The same by the rows of the view in the order of their indexes, and by the candidates of the name
    // as far as there is memory for them.
    fn by_rows(&mut self, view: &Name, name: &Oid) -> Option<usize>
        ensures place { result ≡ deciding_family self.old view.now name.now }
        ensures within { ForSome result (λ n. n < length self.old) }
        ensures same { self.new ≡ self.old }
    {
        let name = name.as_slice();
        if self.blocks.is_empty() {
            return last_of_view(self.rows, self.ranks, self.blocks, None, view, name);
        }
        match self.candidates.turn(self.blocks, name) {
            Ok(()) => {
                let kept = Some(&self.candidates);
                last_of_view(self.rows, self.ranks, self.blocks, kept, view, name)
            }
            Err(_) => last_of_view(self.rows, self.ranks, self.blocks, None, view, name),
        }
    }

    /// Whether a name is in a view (RFC 3415, 3.2, step 5; vacmViewTreeFamilyTable). It takes no memory
    /// but for what it keeps of the name, and answers alike without that.
    pub fn has(&mut self, view: &Name, name: &Oid) -> bool
        ensures shown { result ≡ in_view self.old view.now name.now }
        ensures same { self.new ≡ self.old }
    {
        let decides = match self.by_tree(view, name) {
            Some(best) => best,
            None => self.by_rows(view, name),
        };
        match decides {
            Some(n) => self.rows[n].included,
            None => false,
        }
    }
}
