//! Access to objects under the View-based Access Control Model (RFC 3415): groups, access rights
//! and view families, the decision on a request, and the decision on a name.
//!
//! # Entry points
//! `Vacm::new` takes the written rows or names the first fault. `Vacm::decide` gives the verdict on
//! a request up to its names, `Vacm::in_view` the answer on a name; each names its row.
//! `Vacm::in_view_under` gives with that answer the shortest front of the name under which it holds
//! for every name. `Vacm::hides_all` says where a view is seen to hide every name that begins with
//! a prefix. `Vacm::next_family` and `Vacm::family_at` find a family row by its index in
//! vacmViewTreeFamilyTable. `Vacm::put_mask` and `Vacm::put_type` change it in place, and give what
//! it had. `Vacm::lookup` gives a [`FamilyLookup`], which is asked of one name after the other, and
//! keeps of each which rows may have the next one. None of these but `new` and `lookup` takes memory.
//!
//! `Vacm::try_copy` copies the tables. `Vacm::rows` gives the rows as they are written; [`Same`]
//! compares two of these. [`checked_rows`] checks a table of any rows that are [`WrittenRow`],
//! [`copied_rows`] copies any that are [`CopiedAs`] others, and [`deciding_row`] finds the row that
//! decides a [`Contest`]; `community_core` uses all three.
//!
//! Written are [`VacmRows`] of [`WrittenGroup`], [`WrittenAccess`] and [`WrittenFamily`], with
//! [`Text`] and [`Octets`]. Kept are [`Rows`] of [`GroupRow`], [`AccessRow`] with a [`Level`], and
//! [`FamilyRow`], with [`Name`] and [`Mask`]. An [`Ask`] with its [`ViewType`] gets a [`Verdict`],
//! a name a [`FamilyAnswer`], and with its front a [`FrontAnswer`]. A [`TableFault`] is want of
//! memory, or the [`VacmTable`], the row and what is [`Wrong`]. Bounds: [`MAX_NAME`], [`MAX_MASK`],
//! [`MAX_FAMILY`], [`MAX_MODEL`].
//!
//! # Definitions
//! `specs/Access.antt`: which access rows may decide and which beats which; `specs/Families.antt`:
//! which families have a name; `specs/FamilyIndex.antt`: the index of a family row, and which row
//! comes behind some numbers; `specs/Changes.antt`: the rows with another mask or type;
//! `specs/Hiding.antt`: when a view is seen to hide every name that begins with a prefix;
//! `specs/Fronts.antt`: the shortest front of a name under which the answer on it holds for every
//! name, and, inside the crate, the rows that it goes by; `specs/Best.antt`, `specs/Orders.antt`:
//! the row that no row beats; `specs/Faults.antt`, `specs/Rules.antt`: lengths, fields and keys of
//! rows, the first fault, and where checking the rows takes memory; `specs/Repeats.antt`: the first
//! row that has the key of an earlier one, and the numbers of rows in the order of their keys;
//! `specs/Masks.antt`: how a mask is kept; `specs/Tables.antt`, `specs/Rows.antt`: the tables as
//! they are kept, and the rows that written ones stand for; `specs/Levels.antt`: the numbers of the
//! security levels; `specs/Texts.antt`: the texts of the tables.
//!
//! Inside the crate: `specs/Trees.antt`: which family rows a tree leads to, by which numbers. A
//! `Vacm` keeps a radix tree of its family rows, and `Vacm::in_view` goes by it, or by the order of
//! their indexes (`specs/OfView.antt`): the row that it finds is the one that decides among all of
//! them. Of more than 64 rows it goes by bitmaps there (`specs/Bitmaps.antt`), and keeps at which
//! places of that order the rows of each view are likely to begin. A [`FamilyLookup`] keeps which rows
//! are left by each count of the numbers of a name (`specs/Candidates.antt`). `specs/Keys.antt`: the order of
//! rows by their keys, by which a `Vacm` finds a group row, the access rows of a group, whether a
//! view has a family, and a family row by its index.
//!
//! # Laws
//! In [`laws`]: a row decides wherever one fits. Of the names below a prefix, which a family has.
//! Which row is behind some numbers, and which has an index; no changed mask or type moves an
//! index. The limits are what they are. On the type, by its invariant: only one row decides
//! (`Vacm::one_row_decides`), and kept rows break no rule (`Vacm::rows_are_right`).
//!
//! # Not claimed
//! How deep the calls go that build, follow and drop a tree of family rows: no clause speaks of a
//! stack. Rows are put in by the order of their ways, the middle one first and then each half so.
//! On a way each step to a smaller or greater number then leads from a row to one within a half of
//! its rows. So there are at most as many such steps as the rows have halvings, and with them at
//! most [`MAX_FAMILY`] and one numbers of the way, in whatever order the rows are written. Nor is
//! claimed how long it takes to check rows: a sort finds duplicates.
//!
//! How long a decision takes. `Vacm::decide` finds the group row by halves; it goes over the access
//! rows of the group, and over the contexts up to the one asked for; it finds by halves whether the
//! view has a family. `Vacm::hides_all` reads each family row, `Vacm::in_view` those that its tree
//! leads to. Where a walk of the tree would enter a large part of it, since many places are open,
//! and where there are few rows, `in_view` goes over the rows of the view that are no longer than
//! the name: it finds them by halves, and takes them from the longest on until one has the name. Where
//! the table has more than 64 rows it compares those alone that bitmaps leave, 64 rows at a time: a
//! word for each digit of four bits that differs in them, of each number of the name. So it takes at
//! most some twice the time of a scan of the view's rows, but where a view has a few of many rows, and
//! where many rows are open at different places, less. `Vacm::in_view_under` takes the time of
//! `Vacm::in_view`, and then reads each family row once. `Vacm::put_mask` goes along the index and
//! the way of its row, and once in 65 masks that had a 0 along the way of each row: some 0.3 ms at 1,000
//! rows. Until then a run of numbers of which a mask left one open is passed whole, and a place that a
//! mask left open is entered by each number. `FamilyLookup::has` reads a word of each block, of 32 at
//! most, for each number behind those that the name has alike with the name before.
//! Nor does a clause say that bitmaps leave few rows; they leave each row that has the name.
#![tactic(auto)]

mod bitmaps;
mod by_index;
mod by_view;
mod candidates;
mod checking;
mod compared;
mod contest;
mod copying;
mod deciding;
mod families;
mod fault;
mod front;
mod hiding;
mod index;
pub mod laws;
mod limits;
mod lookup;
mod name;
mod numbers;
mod radix;
mod reading;
mod repeats;
mod rows;
mod same;
mod starts;
mod tables;
mod text;
mod tree;
mod vacm;
mod verdict;
mod walk;
mod written;

pub use checking::{WrittenRow, checked_rows};
pub use contest::{Contest, deciding_row};
pub use copying::{CopiedAs, copied_rows};
pub use fault::{TableFault, VacmTable, Wrong};
pub use limits::{MAX_FAMILY, MAX_MASK, MAX_MODEL, MAX_NAME};
pub use lookup::FamilyLookup;
pub use name::{Mask, Name};
pub use rows::Rows;
pub use same::Same;
pub use tables::{AccessRow, FamilyRow, GroupRow, Level};
pub use text::{Octets, Text};
pub use vacm::Vacm;
pub use verdict::{Ask, FamilyAnswer, FrontAnswer, Verdict, ViewType};
pub use written::{VacmRows, WrittenAccess, WrittenFamily, WrittenGroup};
