//! The shortest front of a name under which the answer on it holds for every name (RFC 3415,
//! vacmViewTreeFamilyTable).
ghost use Rattle.std.specs.Prelude.{◌≡◌, ◌<◌, Some, length};
ghost use Rattle.std.specs.Option.{ForSome};
ghost use Rattle.vacm_core.specs.Families.{deciding_family};
ghost use Rattle.vacm_core.specs.Fronts.{IsShortestFront, front_apart, is_rival, front_past, front_of_row};
ghost use Rattle.vacm_core.specs.Rows.{same_family};
ghost use Rattle.vacm_core.specs.Tables.{KeysDiffer};

use crate::contest::takes_over;
use crate::deciding::{FamilyContest, agrees_at};
use crate::name::Name;
use crate::tables::FamilyRow;

/// The shortest front of a name under which the answer by the row that decides holds for every name:
/// it has all numbers of the subtree of that row, and shows of each row of the view that beats it
/// that it does not have the name. There is none where such a row is longer than the name, and may
/// have a name below it.
pub fn shortest_front(
    rows: &[FamilyRow],
    view: &Name,
    name: &[u32],
    decides: Option<usize>,
) -> Option<usize>
    requires differ { KeysDiffer same_family rows.now }
    requires decides { decides ≡ deciding_family rows.now view.now name.now }
    requires within { ForSome decides (λ n. n < length rows.now) }
    ensures { IsShortestFront rows.now view.now name.now result }
{
    front_past(rows, view, name, decides, front_of_row(rows, decides))
}

// How many numbers the subtree of the row that decides has.
fn front_of_row(rows: &[FamilyRow], decides: Option<usize>) -> usize
    requires { ForSome decides (λ n. n < length rows.now) }
    ensures { result ≡ front_of_row rows.now decides }
{
    match decides {
        Some(n) => rows[n].subtree.as_slice().len(),
        None => 0,
    }
}

// The least front from this one on that shows of each row of the view that beats the one that decides
// that it does not have the name; none where a row shows no difference.
fn front_past(
    rows: &[FamilyRow],
    view: &Name,
    name: &[u32],
    decides: Option<usize>,
    least: usize,
) -> Option<usize>
    requires { ForSome decides (λ n. n < length rows.now) }
    ensures { result ≡ front_past (is_rival rows.now view.now decides) name.now (Some least)
        rows.now }
{
    let mut front = least;
    for row in rows {
        if is_rival(rows, view, decides, row) {
            front = front.max(front_apart(row, name)?);
        }
    }
    Some(front)
}

// Whether a row is of the view, and beats the row that decides. Lengths are compared first.
fn is_rival(rows: &[FamilyRow], view: &Name, decides: Option<usize>, row: &FamilyRow) -> bool
    requires { ForSome decides (λ n. n < length rows.now) }
    ensures { result ≡ is_rival rows.now view.now decides row.now }
{
    takes_over(&FamilyContest { view, name: &[] }, rows, decides, row) && row.view.is(view)
}

// How many numbers of a name show that a row does not have it: up to the first that differs from the
// subtree's where the mask's bit is 1.
fn front_apart(row: &FamilyRow, name: &[u32]) -> Option<usize>
    ensures { result ≡ front_apart 0 row.now.mask row.now.subtree name.now }
{
    first_apart(row.mask.as_slice(), row.subtree.as_slice(), name)
}

// The same of a mask and a subtree.
fn first_apart(mask: &[u8], subtree: &[u32], name: &[u32]) -> Option<usize>
    ensures { result ≡ front_apart 0 mask.now subtree.now name.now }
{
    for k in 0..subtree.len().min(name.len()) {
        if !agrees_at(mask, k, subtree[k], name) {
            return Some(k + 1);
        }
    }
    None
}
