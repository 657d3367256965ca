//! Whether a view is seen to hide every name that begins with a prefix (RFC 3415,
//! vacmViewTreeFamilyTable).
ghost use Rattle.std.specs.Prelude.{◌≡◌, take};
ghost use Rattle.std.specs.List.{list_any};
ghost use Rattle.vacm_core.specs.Families.{family_beats};
ghost use Rattle.vacm_core.specs.Hiding.{may_match, may_include, excludes_all, beats_included, hides_all};

use crate::contest::{Contest, deciding_row};
use crate::deciding::{agrees_by_bits, is_longer_or_greater};
use crate::name::Name;
use crate::tables::FamilyRow;

/// Which family row of a view hides the names that begin with a prefix: of those that exclude all
/// of them, the one that decides.
#[derive(Drop)]
struct HidingContest<'a> {
    view: &'a Name,
    prefix: &'a [u32],
}

impl<'a> Contest for HidingContest<'a> {
    ghost use Rattle.vacm_core.specs.Orders.{family_order};

    type Row = FamilyRow;

    ghost passes = { λ c. excludes_all c.view.now c.prefix.now };

    ghost beats = { λ c. family_beats };

    ghost ranks = { λ c. family_order };

    fn passes(&self, row: &FamilyRow) -> bool {
        !row.included
            && agrees_by_bits(row.mask.as_slice(), row.subtree.as_slice(), self.prefix)
            && row.view.is(self.view)
    }

    fn beats(&self, row: &FamilyRow, other: &FamilyRow) -> bool {
        is_longer_or_greater(row, other)
    }
}

/// Whether no row of a view may include a name that begins with a prefix, or a row that excludes
/// them all beats each row that may.
pub fn hides_all(rows: &[FamilyRow], view: &Name, prefix: &[u32]) -> bool
    ensures { result ≡ hides_all rows.now view.now prefix.now }
{
    match deciding_row(&HidingContest { view, prefix }, rows) {
        Some(n) => beats_included(&rows[n], rows, view, prefix),
        None => !has_included(rows, view, prefix),
    }
}

// Whether a row beats each that may include a name that begins with a prefix.
fn beats_included(best: &FamilyRow, rows: &[FamilyRow], view: &Name, prefix: &[u32]) -> bool
    ensures { result ≡ beats_included rows.now view.now prefix.now best.now }
{
    rows.iter().all(|other| !may_include(other, view, prefix) || is_longer_or_greater(best, other))
}

// Whether a row may include a name that begins with a prefix.
fn has_included(rows: &[FamilyRow], view: &Name, prefix: &[u32]) -> bool
    ensures { result ≡ list_any (may_include view.now prefix.now) rows.now }
{
    rows.iter().any(|row| may_include(row, view, prefix))
}

fn may_include(row: &FamilyRow, view: &Name, prefix: &[u32]) -> bool
    ensures { result ≡ may_include view.now prefix.now row.now }
{
    row.included && may_match(row, view, prefix)
}

// The view is compared last, since most rows do not reach the prefix.
fn may_match(row: &FamilyRow, view: &Name, prefix: &[u32]) -> bool
    ensures { result ≡ may_match view.now prefix.now row.now }
{
    let reached = front(row.subtree.as_slice(), prefix.len());
    agrees_by_bits(row.mask.as_slice(), reached, prefix) && row.view.is(view)
}

// The first parts, this many at most.
fn front(parts: &[u32], most: usize) -> &[u32]
    ensures { result.now ≡ take most parts.now }
{
    &parts[..parts.len().min(most)]
}
