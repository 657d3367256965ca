//! The rows of vacmViewTreeFamilyTable by index (RFC 3415), as the objects that show them read and
//! give them.
ghost use Rattle.std.specs.Prelude.{◌≡◌, ◌+◌, ◌<◌, ◌≤◌, [], ◌∷◌, ◌++◌, length, if◌then◌else◌, true, false, Some, None, unwrap_or};
ghost use Rattle.std.specs.Option.{option_copied, option_map, ForSome};
ghost use Rattle.vacm_core.specs.declared.tables.FamilyRow.{FamilyRow as AnyFamily};
ghost use Rattle.vacm_core.specs.declared.limits.TheConstants.{MAX_FAMILY, MAX_NAME};
ghost use Rattle.vacm_core.specs.FamilyIndex.{family_index, next_family};
ghost use Rattle.message_core.specs.declared.value.Value.{Value as AnyValue};
ghost use Rattle.setphase_core.specs.Values.{by_family, value_at, index_after};

use crate::limits::MAX_INDEX;
use crate::object::Index;
use vacm_core::{FamilyRow, Name, Vacm};

/// The family row of an index, where there is one. It is found by halves, without taking memory.
pub fn family_at<'a>(vacm: &'a Vacm, at: &[u32]) -> Option<&'a FamilyRow>
    ensures { (f : AnyFamily → AnyValue) → value_at (by_family vacm.now.families f) at.now
        ≡ option_map f (option_copied result) }
{
    let number = vacm.family_at(at)?;
    Some(vacm.family_row(number))
}

// The number of the family row of the first index behind this one, or of the first of all.
fn number_after(vacm: &Vacm, after: Option<&[u32]>) -> Option<usize>
    ensures row { result
        ≡ next_family vacm.now.families (unwrap_or (option_copied after.entry) []) }
    ensures within { ForSome result (λ n. n < length vacm.now.families) }
{
    match after {
        None => vacm.next_family(&[]),
        Some(after) => vacm.next_family(after),
    }
}

// Writes how many octets a view's name has, and those.
fn write_view(view: &Name, into: &mut Index)
    ensures written { into.new.items ≡ length view.now ∷ view.now }
    ensures short { length view.now ≤ MAX_NAME }
{
    into.clear();
    let octets = view.as_bytes();
    into.push(octets.len() as u32);
    for octet in octets {
        into.push(u32::from(*octet));
    }
}

// Writes numbers behind those that are there.
fn write_behind(numbers: &[u32], into: &mut Index)
    requires { length into.old.items + length numbers.now ≤ MAX_INDEX }
    ensures { into.new.items ≡ into.old.items ++ numbers.now }
{
    match into.try_extend_from_slice(numbers) {
        Ok(()) => {}
        Err(_) => unreachable!(),
    }
}

// Writes the index of a row: the length of the view's name, its octets, the length of the subtree,
// and its numbers.
fn write_index(row: &FamilyRow, into: &mut Index)
    requires { length row.now.view + length row.now.subtree ≤ MAX_FAMILY }
    ensures { into.new.items ≡ family_index row.now }
{
    write_view(&row.view, into);
    let subtree = row.subtree.as_slice();
    into.push(subtree.len() as u32);
    write_behind(subtree, into);
}

/// Writes the first index of a family row that comes after this one, or the first of all, and says
/// whether there is one. Where there is none, nothing is written. It takes no memory.
pub fn family_after(vacm: &Vacm, after: Option<&[u32]>, into: &mut Index) -> bool
    ensures found { (f : AnyFamily → AnyValue) → (if result then Some into.new.items else None)
        ≡ index_after (by_family vacm.now.families f) (option_copied after.entry) }
    ensures fits { result ≡ true → length into.new.items ≤ MAX_INDEX }
    ensures none { result ≡ false → into.new ≡ into.old }
{
    let Some(number) = number_after(vacm, after) else {
        return false;
    };
    write_index(vacm.family_row(number), into);
    true
}
