//! The tables of access control.
ghost use Rattle.std.specs.Prelude.{◌≡◌, ◌≢◌, ◌<◌, ◌≤◌, ◌+◌, ℕ, List, length, false, true, take, IsTrue, IfOk, IfErr, IfSome, OnOk, slice_get, option_map, find, Some};
ghost use Rattle.std.specs.Option.{ForSome};

use crate::checking::checked_rows;
use crate::copying::copied_rows;
use crate::families::Families;
use crate::fault::{TableFault, VacmTable};
use crate::index::index_of;
use crate::limits::MAX_FAMILY;
use crate::lookup::FamilyLookup;
use crate::name::{Mask, Name};
use crate::rows::Rows;
use crate::tables::{AccessRow, FamilyRow, GroupRow};
use crate::verdict::{Ask, FamilyAnswer, FrontAnswer, Verdict};
use crate::written::VacmRows;
use crate::{deciding, hiding};
use oid_core::Oid;
use std::alloc::{AllocError, Global};
use std::marker::Model;

/// The tables of the View-based Access Control Model (RFC 3415), seen as four lists of rows. No two
/// rows of a table have one key, but contexts may be equal; each row's lengths and fields are
/// right.
pub struct Vacm {
    groups: Rows<GroupRow>,
    // By model and name.
    group_index: Rows<usize>,
    access: Rows<AccessRow>,
    // By group.
    access_index: Rows<usize>,
    families: Families,
    contexts: Rows<Name>,
}

// By hand: who drops one then knows nothing of its parts.
impl Drop for Vacm {
    fn drop(self) {
        let Vacm {
            groups: _groups,
            group_index: _group_index,
            access: _access,
            access_index: _access_index,
            families: _families,
            contexts: _contexts,
        } = self;
    }
}

impl Model for Vacm {
    ghost use Rattle.vacm_core.specs.Keys.{IsIndex, group_key, access_key};
    ghost use Rattle.vacm_core.specs.Tables.{Tables, IsSound};

    ghost Value = { Tables };

    ghost view = { λ v. record {
      groups = v.groups;
      access = v.access;
      families = v.families;
      contexts = v.contexts;
    } };

    ghost invariant = { λ v. IsSound (record {
      groups = v.groups;
      access = v.access;
      families = v.families;
      contexts = v.contexts;
    }) × IsIndex group_key v.groups v.group_index
        × IsIndex access_key v.access v.access_index };
}

impl Vacm {
    ghost use Rattle.vacm_core.specs.declared.verdict.Ask.{Ask};
    ghost use Rattle.vacm_core.specs.Best.{IsUnbeatenAt};
    ghost use Rattle.vacm_core.specs.Tables.{tables_of, rows_of};
    ghost use Rattle.vacm_core.specs.Faults.{AreAllRight, IsFault, TakesMemory};
    ghost use Rattle.vacm_core.specs.Families.{family_answer, is_included, in_view, by_type, by_family, matches, family_beats, NamesFamilyOf};
    ghost use Rattle.vacm_core.specs.FamilyIndex.{next_family, family_at};
    ghost use Rattle.vacm_core.specs.Changes.{with_mask, with_type};
    ghost use Rattle.vacm_core.specs.Fronts.{IsShortestFront};
    ghost use Rattle.vacm_core.specs.Hiding.{hides_all};
    ghost use Rattle.oid_core.specs.Order.{is_prefix};
    ghost use Rattle.vacm_core.specs.Access.{is_of, verdict_of, by_access, by_view, deciding_access, candidate, access_beats, NamesRowOf};

    /// The tables that the written rows stand for.
    ///
    /// # Errors
    ///
    /// The first fault, table by table in the order groups, access, families and contexts, in each
    /// table row by row from 0, and in each row its lengths, then its fields, then its key;
    /// `Memory` where a growth was refused: nothing is wrong with the tables before some table, and
    /// that has a first row, with which nothing is wrong.
    pub fn new(alloc: Global, rows: VacmRows) -> Result<Vacm, TableFault<VacmTable>>
        ensures tables { IfOk result (λ v. v ≡ tables_of rows) }
        ensures right { OnOk result (AreAllRight rows) }
        ensures fault { IfErr result (λ e. e ≢ TableFault.Memory → IsFault rows e) }
        ensures memory { IfErr result (λ e. e ≡ TableFault.Memory → TakesMemory rows) }
    {
        let groups = checked_rows(alloc, VacmTable::Groups, rows.groups)?;
        let access = checked_rows(alloc, VacmTable::Access, rows.access)?;
        let families = checked_rows(alloc, VacmTable::Families, rows.families)?;
        let contexts = checked_rows(alloc, VacmTable::Contexts, rows.contexts)?;
        let group_index = index_of(alloc, groups.as_slice())?;
        let access_index = index_of(alloc, access.as_slice())?;
        let families = Families::new(alloc, families)?;
        Ok(Vacm {
            groups,
            group_index,
            access,
            access_index,
            families,
            contexts,
        })
    }

    /// Tables that are equal to these.
    ///
    /// # Errors
    ///
    /// Where there is no memory for them.
    pub fn try_copy(&self, alloc: Global) -> Result<Vacm, AllocError>
        ensures { IfOk result (λ copy. copy ≡ self.now) }
    {
        Ok(Vacm {
            groups: copied_rows(alloc, self.groups.as_slice())?,
            group_index: copied_rows(alloc, self.group_index.as_slice())?,
            access: copied_rows(alloc, self.access.as_slice())?,
            access_index: copied_rows(alloc, self.access_index.as_slice())?,
            families: self.families.try_copy(alloc)?,
            contexts: copied_rows(alloc, self.contexts.as_slice())?,
        })
    }

    /// The rows of these tables as they are written. [`Vacm::new`] takes them and gives these
    /// tables again, as the law [`Vacm::rows_are_right`] says.
    ///
    /// # Errors
    ///
    /// Where there is no memory for them.
    pub fn rows(&self, alloc: Global) -> Result<VacmRows, AllocError>
        ensures { IfOk result (λ rows. rows ≡ rows_of self.now) }
    {
        let groups = copied_rows(alloc, self.groups.as_slice())?;
        let access = copied_rows(alloc, self.access.as_slice())?;
        let families = copied_rows(alloc, self.families.as_slice())?;
        let contexts = copied_rows(alloc, self.contexts.as_slice())?;
        Ok(VacmRows {
            groups,
            access,
            families,
            contexts,
        })
    }

    /// The decision on a request, up to its names (RFC 3415, section 3.2).
    pub fn decide(&self, ask: &Ask) -> Verdict
        ensures verdict { result ≡ verdict_of self.now ask.now }
        ensures row { NamesRowOf self.now.access result }
    {
        if !deciding::is_known(self.contexts.as_slice(), &ask.context) {
            return Verdict::NoSuchContext(ask.context.copy());
        }
        match self.group_row(ask) {
            Some(row) => self.decide_access(ask, &row.group),
            None => Verdict::NoGroupName(ask.model, ask.security.copy()),
        }
    }

    // The group row of who asks.
    fn group_row(&self, ask: &Ask) -> Option<&GroupRow>
        ensures { option_map (λ row. row.now) result
            ≡ find (is_of ask.now.model ask.now.security) self.now.groups }
    {
        deciding::group_row(self.groups.as_slice(), self.group_index.as_slice(), ask)
    }

    // The number of the access row that decides for a group.
    fn deciding_access(&self, ask: &Ask, group: &Name) -> Option<usize>
        ensures place { result ≡ deciding_access self.now.access ask.now group.now }
        ensures within { ForSome result (λ n. n < length self.now.access) }
    {
        let index = self.access_index.as_slice();
        deciding::deciding_access(self.access.as_slice(), index, ask, group)
    }

    // The decision for a group.
    fn decide_access(&self, ask: &Ask, group: &Name) -> Verdict
        ensures verdict { result ≡ by_access self.now ask.now group.now
            (deciding_access self.now.access ask.now group.now) }
        ensures row { NamesRowOf self.now.access result }
    {
        match self.deciding_access(ask, group) {
            Some(n) => self.decide_view(n, deciding::view_of(self.access_row(n), ask.view)),
            None => Verdict::NoAccessEntry(group.copy(), ask.context.copy(), ask.model, ask.level),
        }
    }

    // The decision on a view, by an access row.
    fn decide_view(&self, row: usize, view: &Name) -> Verdict
        requires { row < length self.now.access }
        ensures verdict { result ≡ by_view self.now row view.now }
        ensures row { NamesRowOf self.now.access result }
    {
        if self.families.has_view(view) {
            Verdict::Allowed(row, view.copy())
        } else {
            Verdict::NoSuchView(row, view.copy())
        }
    }

    /// Whether a name is in a view, and by which family row (RFC 3415, 3.2, step 5;
    /// vacmViewTreeFamilyTable).
    pub fn in_view(&self, view: &Name, name: &Oid) -> FamilyAnswer
        ensures answer { result ≡ family_answer self.now.families view.now name.now }
        ensures row { NamesFamilyOf self.now.families result }
    {
        self.answer_by(self.families.deciding(view, name))
    }

    /// Whether a name is in a view, and by which family row; and the shortest front of the name under
    /// which this answer holds for every name (RFC 3415, vacmViewTreeFamilyTable). There is no front
    /// where a name that begins with this one has another answer. It takes no memory, and reads the
    /// rows once beside what [`Vacm::in_view`] reads. That the view shows each name under a front (`shown`)
    /// follows from the answer and the front, and is handed on to callers.
    pub fn in_view_under(&self, view: &Name, name: &Oid) -> FrontAnswer
        ensures answer { result.answer ≡ family_answer self.now.families view.now name.now }
        ensures row { NamesFamilyOf self.now.families result.answer }
        ensures front { IsShortestFront self.now.families view.now name.now result.front }
        ensures shown { IfSome result.front (λ k. (k ≤ length name.now)
            × (is_included result.answer ≡ true → (other : List ℕ) →
            is_prefix (take k name.now) other ≡ true
            → in_view self.now.families view.now other ≡ true)) }
    {
        let decides = self.families.deciding(view, name);
        FrontAnswer {
            answer: self.answer_by(decides),
            front: self.families.shortest_front(view, name, decides),
        }
    }

    /// The family rows, as they are asked of one name after the other ([`FamilyLookup::has`]).
    ///
    /// # Errors
    ///
    /// Where there is no memory for what is kept of a name: about 33 kB.
    pub fn lookup(&self, alloc: Global) -> Result<FamilyLookup<'_>, AllocError>
        ensures { IfOk result (λ lookup. lookup ≡ self.now.families) }
    {
        self.families.lookup(alloc)
    }

    /// Puts the mask of the family row of this number, and gives the one that it had
    /// (vacmViewTreeFamilyMask of RFC 3415). All else stays, each row's number and index too. It takes
    /// no memory. It goes along that row and the index; once in 65 masks that had a 0 it goes along each
    /// row.
    pub fn put_mask(&mut self, n: usize, mask: Mask) -> Mask
        requires { n < length self.old.families }
        ensures tables { self.new ≡ record self.old {
          families = with_mask self.old.families n mask;
        } }
        ensures before { option_map (λ row. row.mask) (slice_get self.old.families n)
            ≡ Some result }
    {
        self.families.put_mask(n, mask)
    }

    /// Puts the type of the family row of this number, whether it is included, and gives the one
    /// that it had (vacmViewTreeFamilyType of RFC 3415). All else stays. It takes no memory.
    pub fn put_type(&mut self, n: usize, included: bool) -> bool
        requires { n < length self.old.families }
        ensures tables { self.new ≡ record self.old {
          families = with_type self.old.families n included;
        } }
        ensures before { option_map (λ row. row.included) (slice_get self.old.families n)
            ≡ Some result }
    {
        self.families.put_type(n, included)
    }

    /// The number of the family row of the least index that is greater than these numbers, if there is
    /// one (RFC 3415, vacmViewTreeFamilyTable). An index is how many octets the view's name has, those,
    /// how many sub-identifiers the subtree has, those; the numbers need be none: they may be cut
    /// short, or more. It is found by halves, without taking memory.
    pub fn next_family(&self, numbers: &[u32]) -> Option<usize>
        ensures row { result ≡ next_family self.now.families numbers.now }
        ensures within { ForSome result (λ n. n < length self.now.families) }
    {
        self.families.next(numbers)
    }

    /// The number of the family row of this index (RFC 3415, vacmViewTreeFamilyTable): how many
    /// octets the view's name has, those, how many sub-identifiers the subtree has, those. It is
    /// found by halves, without taking memory.
    pub fn family_at(&self, index: &[u32]) -> Option<usize>
        ensures row { result ≡ family_at self.now.families index.now }
        ensures within { ForSome result (λ n. n < length self.now.families) }
    {
        self.families.at(index)
    }

    /// How many family rows there are, of all views (RFC 3415, vacmViewTreeFamilyTable).
    pub fn family_count(&self) -> usize
        ensures { result ≡ length self.now.families }
    {
        self.families.as_slice().len()
    }

    /// Whether a view is seen to hide every name that begins so: no included row of it may match
    /// one of these names, or an excluded row that matches them all beats each that may (RFC
    /// 3415, vacmViewTreeFamilyTable). It may say no where all are hidden all the same, as by
    /// several rows. It takes no memory, and reads the rows twice.
    pub fn hides_all(&self, view: &Name, prefix: &[u32]) -> bool
        ensures answer { result ≡ hides_all self.now.families view.now prefix.now }
        ensures hidden { IsTrue result → (name : List ℕ) → IsTrue (is_prefix prefix.now name)
            → in_view self.now.families view.now name ≡ false }
    {
        hiding::hides_all(self.families.as_slice(), view, prefix)
    }

    // The answer of the family row that decides, where one does.
    fn answer_by(&self, decides: Option<usize>) -> FamilyAnswer
        requires { ForSome decides (λ n. n < length self.now.families) }
        ensures answer { result ≡ by_family self.now.families decides }
        ensures row { NamesFamilyOf self.now.families result }
    {
        match decides {
            Some(n) => self.answer_of(n),
            None => FamilyAnswer::NoRow,
        }
    }

    // The answer of the family row of this number.
    fn answer_of(&self, n: usize) -> FamilyAnswer
        requires { n < length self.now.families }
        ensures answer { result ≡ by_type n (slice_get self.now.families n) }
        ensures row { NamesFamilyOf self.now.families result }
    {
        if self.family_row(n).included {
            FamilyAnswer::Included(n)
        } else {
            FamilyAnswer::Excluded(n)
        }
    }

    /// The law that at most one row decides: for what is asked and a group, at most one candidate
    /// is beaten by no candidate, and for a view and a name at most one matching family row by
    /// none.
    pub fn one_row_decides(&self)
        ensures access { (ask : Ask) (group : List ℕ) (n m : ℕ) →
            IsUnbeatenAt (candidate ask group) (access_beats ask) self.now.access n
            → IsUnbeatenAt (candidate ask group) (access_beats ask) self.now.access m → n ≡ m }
        ensures family { (view name : List ℕ) (n m : ℕ) →
            IsUnbeatenAt (matches view name) family_beats self.now.families n
            → IsUnbeatenAt (matches view name) family_beats self.now.families m → n ≡ m }
    {
        let _ = &self.access;
    }

    /// The law that these rows, as they are written, are rows of which nothing is wrong, and stand
    /// for these tables: what [`Vacm::new`] takes gives the same tables again.
    pub fn rows_are_right(&self)
        ensures right { AreAllRight (rows_of self.now) }
        ensures same { tables_of (rows_of self.now) ≡ self.now }
    {
        let _ = &self.access;
    }

    /// The access row of this number.
    pub fn access_row(&self, n: usize) -> &AccessRow
        requires { n < length self.now.access }
        ensures { slice_get self.now.access n ≡ Some result.now }
    {
        &self.access.as_slice()[n]
    }

    /// The family row of this number.
    pub fn family_row(&self, n: usize) -> &FamilyRow
        requires { n < length self.now.families }
        ensures row { slice_get self.now.families n ≡ Some result.now }
        ensures short { length result.now.view + length result.now.subtree ≤ MAX_FAMILY }
    {
        &self.families.as_slice()[n]
    }
}
