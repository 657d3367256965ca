//! Whether rows, as they are written, are the same.
ghost use Rattle.std.specs.Prelude.{◌≡◌, ◌↔◌, IsTrue};

use crate::rows::Rows;
use crate::text::{Octets, Text};
use crate::written::{VacmRows, WrittenAccess, WrittenFamily, WrittenGroup};

/// What is seen to be the same as another or not.
pub trait Same {
    /// Whether both are the same. It takes no memory.
    fn same(&self, other: &Self) -> bool
        ensures { IsTrue result ↔ (self.now ≡ other.now) };
}

impl Same for Text {
    fn same(&self, other: &Text) -> bool {
        self.as_str() == other.as_str()
    }
}

impl Same for Octets {
    fn same(&self, other: &Octets) -> bool {
        self.as_slice() == other.as_slice()
    }
}

impl Same for WrittenGroup {
    fn same(&self, other: &WrittenGroup) -> bool {
        self.model == other.model && self.name.same(&other.name) && self.group.same(&other.group)
    }
}

impl Same for WrittenAccess {
    fn same(&self, other: &WrittenAccess) -> bool {
        self.group.same(&other.group)
            && self.prefix.same(&other.prefix)
            && self.model == other.model
            && self.level == other.level
            && self.exact == other.exact
            && self.read.same(&other.read)
            && self.write.same(&other.write)
            && self.notify.same(&other.notify)
    }
}

impl Same for WrittenFamily {
    fn same(&self, other: &WrittenFamily) -> bool {
        self.view.same(&other.view)
            && self.subtree.as_slice() == other.subtree.as_slice()
            && self.mask.same(&other.mask)
            && self.included == other.included
    }
}

impl<T: Same> Same for Rows<T> {
    fn same(&self, other: &Rows<T>) -> bool {
        are_same(self.as_slice(), other.as_slice())
    }
}

fn are_same<T: Same>(rows: &[T], others: &[T]) -> bool
    ensures { IsTrue result ↔ (rows.now ≡ others.now) }
{
    if rows.len() != others.len() {
        return false;
    }
    for (k, row) in rows.iter().enumerate() {
        if !row.same(&others[k]) {
            return false;
        }
    }
    true
}

impl Same for VacmRows {
    fn same(&self, other: &VacmRows) -> bool {
        self.groups.same(&other.groups)
            && self.access.same(&other.access)
            && self.families.same(&other.families)
            && self.contexts.same(&other.contexts)
    }
}
