//! The numbers by which family rows are found: those of a view and a name, and those of an index.
ghost use Rattle.std.specs.Prelude.{◌≡◌, ◌≤◌, ◌+◌, [], ◌∷◌, ◌++◌, length};
ghost use Rattle.vacm_core.specs.FamilyIndex.{family_index};

use crate::limits::MAX_NAME;
use crate::name::Name;
use crate::tables::FamilyRow;
use arrayvec::ArrayVec;
use oid_core::MAX_NUMBERS;

/// How many numbers there are at most: how many octets a view's name has, those, how many numbers a
/// subtree has, and those.
pub const MOST_NUMBERS: usize = 1 + MAX_NAME + 1 + MAX_NUMBERS;

// Puts in how many octets a view's name has, and those.
fn put_view(numbers: &mut ArrayVec<u32, MOST_NUMBERS>, view: &Name)
    requires empty { numbers.old.items ≡ [] }
    ensures numbers { numbers.new.items ≡ length view.now ∷ view.now }
    ensures short { length view.now ≤ MAX_NAME }
{
    let octets = view.as_bytes();
    numbers.push(octets.len() as u32);
    for octet in octets {
        numbers.push(u32::from(*octet));
    }
}

// Puts in numbers behind those that are there.
fn put_behind(numbers: &mut ArrayVec<u32, MOST_NUMBERS>, more: &[u32])
    requires { length numbers.old.items + length more.now ≤ MOST_NUMBERS }
    ensures { numbers.new.items ≡ numbers.old.items ++ more.now }
{
    match numbers.try_extend_from_slice(more) {
        Ok(()) => {}
        Err(_) => unreachable!(),
    }
}

/// Puts in the numbers by which the rows of a view that have a name are found: how many octets the
/// view's name has, those, and the numbers of the name.
pub fn put_numbers(numbers: &mut ArrayVec<u32, MOST_NUMBERS>, view: &Name, name: &[u32])
    requires empty { numbers.old.items ≡ [] }
    requires short { length name.now ≤ MAX_NUMBERS }
    ensures { numbers.new.items ≡ length view.now ∷ (view.now ++ name.now) }
{
    put_view(numbers, view);
    put_behind(numbers, name);
}

/// Puts in the index of a row.
pub fn put_index(numbers: &mut ArrayVec<u32, MOST_NUMBERS>, row: &FamilyRow)
    requires empty { numbers.old.items ≡ [] }
    ensures { numbers.new.items ≡ family_index row.now }
{
    put_view(numbers, &row.view);
    let subtree = row.subtree.as_slice();
    numbers.push(subtree.len() as u32);
    put_behind(numbers, subtree);
}
