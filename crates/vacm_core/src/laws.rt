//! What follows from the definitions alone.
ghost use Rattle.std.specs.Prelude.{◌≡◌, ◌↔◌, ◌+◌, ◌++◌, ◌<◌, ◌≤◌, ℕ, Bool, List, true, false, Some, None, length, slice_get, slice_index, option_map};
ghost use Rattle.std.specs.List.{list_any};
ghost use Rattle.oid_core.specs.declared.limits.TheConstants.{MAX_NUMBERS};
ghost use Rattle.vacm_core.specs.declared.tables.AccessRow.{AccessRow};
ghost use Rattle.vacm_core.specs.declared.tables.FamilyRow.{FamilyRow};
ghost use Rattle.vacm_core.specs.declared.verdict.Ask.{Ask};
ghost use Rattle.vacm_core.specs.Best.{IsUnbeatenAt};
ghost use Rattle.vacm_core.specs.Access.{candidate, access_beats, deciding_access};
ghost use Rattle.vacm_core.specs.Families.{mask_bit, agrees_from, matches, family_beats, deciding_family};
ghost use Rattle.vacm_core.specs.FamilyIndex.{family_index, index_before, is_behind, next_family, has_index, family_at, HaveSameIndexes};
ghost use Rattle.vacm_core.specs.Changes.{with_mask, with_type};
ghost use Rattle.vacm_core.specs.Hiding.{may_match};

use crate::limits::{MAX_FAMILY, MAX_MASK, MAX_MODEL, MAX_NAME};

/// A subtree agrees with a name under a mask exactly where the name is at least as long and equal
/// to the subtree wherever the mask's bit is 1 (RFC 3415, vacmViewTreeFamilyMask).
pub fn families_by_bits()
    ensures { (mask subtree name : List ℕ) → (agrees_from 0 mask subtree name ≡ true)
        ↔ ((length subtree ≤ length name) × ((k : ℕ) → k < length subtree →
        mask_bit mask k ≡ true → slice_index name k ≡ slice_index subtree k)) }
{}

/// An access row decides wherever one fits: none decides exactly where no row is a candidate, and
/// the one that decides is a candidate that no candidate comes before (RFC 3415, vacmAccessTable).
pub fn some_access_row_decides()
    ensures none { (rows : List AccessRow) (ask : Ask) (group : List ℕ) →
        (deciding_access rows ask group ≡ None) ↔ (list_any (candidate ask group) rows ≡ false) }
    ensures some { (rows : List AccessRow) (ask : Ask) (group : List ℕ) (n : ℕ) →
        deciding_access rows ask group ≡ Some n
        → IsUnbeatenAt (candidate ask group) (access_beats ask) rows n }
{}

/// A family row decides wherever one matches: none decides exactly where no row of the view has the
/// name in its family, and the one that decides is such a row that no such row beats
/// (RFC 3415, vacmViewTreeFamilyTable).
pub fn some_family_row_decides()
    ensures none { (families : List FamilyRow) (view name : List ℕ) →
        (deciding_family families view name ≡ None) ↔ (list_any (matches view name) families
        ≡ false) }
    ensures some { (families : List FamilyRow) (view name : List ℕ) (n : ℕ) →
        deciding_family families view name ≡ Some n
        → IsUnbeatenAt (matches view name) family_beats families n }
{}

/// The row behind some numbers in the order of the table: none is exactly where no row's index is
/// greater than the numbers, and the one that is has such an index, and no row one that lies between
/// (RFC 3415, vacmViewTreeFamilyTable).
pub fn next_family_is_the_nearest()
    ensures none { (families : List FamilyRow) (numbers : List ℕ) →
        (next_family families numbers ≡ None) ↔ (list_any (is_behind numbers) families
        ≡ false) }
    ensures some { (families : List FamilyRow) (numbers : List ℕ) (n : ℕ) →
        next_family families numbers ≡ Some n
        → IsUnbeatenAt (is_behind numbers) index_before families n }
{}

/// The row that is found by an index: none is exactly where no row has that index, and the one that
/// is has it (RFC 3415, vacmViewTreeFamilyTable).
pub fn family_at_has_the_index()
    ensures none { (families : List FamilyRow) (numbers : List ℕ) →
        (family_at families numbers ≡ None) ↔ (list_any (has_index numbers) families ≡ false) }
    ensures some { (families : List FamilyRow) (numbers : List ℕ) (n : ℕ) →
        family_at families numbers ≡ Some n
        → option_map family_index (slice_get families n) ≡ Some numbers }
{}

/// No index is moved where the mask or the type of a row is changed, and by any numbers the same row
/// is found (RFC 3415, vacmViewTreeFamilyTable).
pub fn changes_move_no_index()
    ensures masks { (families : List FamilyRow) (n : ℕ) (mask : List ℕ) → n < length families
        → HaveSameIndexes families (with_mask families n mask) }
    ensures types { (families : List FamilyRow) (n : ℕ) (included : Bool) → n < length families
        → HaveSameIndexes families (with_type families n included) }
{}

/// Of the names that a prefix begins, a family has some exactly where its row may match below the
/// prefix, and all exactly where its row matches the prefix itself (RFC 3415,
/// vacmViewTreeFamilyTable).
pub fn families_below()
    ensures some { (view prefix : List ℕ) (row : FamilyRow) → (may_match view prefix row ≡ true)
        ↔ ((rest : List ℕ) × (matches view (prefix ++ rest) row ≡ true)) }
    ensures all { (view prefix : List ℕ) (row : FamilyRow) → (matches view prefix row ≡ true)
        ↔ ((rest : List ℕ) → matches view (prefix ++ rest) row ≡ true) }
{}

/// The limits: SnmpAdminString (SIZE(1..32)) and vacmViewTreeFamilyMask (SIZE (0..16)) of RFC 3415,
/// SnmpSecurityModel (0..2147483647) of RFC 3411. An instance of vacmViewTreeFamilyTable is named
/// by a column of 12 sub-identifiers, the length of the view's name and its octets, and the length
/// of the subtree and its sub-identifiers, which are to be 128 at most (RFC 2578, section 3.5).
pub fn limits()
    ensures name { MAX_NAME ≡ 32 }
    ensures mask { MAX_MASK ≡ 16 }
    ensures family { MAX_FAMILY ≡ 114 }
    ensures instance { 12 + 1 + 1 + MAX_FAMILY ≡ MAX_NUMBERS }
    ensures model { MAX_MODEL ≡ 2147483647 }
{}
