//! Copies of rows, and kept rows as they are written.
ghost use Rattle.std.specs.Prelude.{◌≡◌, map, IfOk};
ghost use Rattle.vacm_core.specs.Tables.{written_group, written_access, written_family};

use crate::name::Name;
use crate::rows::Rows;
use crate::tables::{AccessRow, FamilyRow, GroupRow};
use crate::text::{Octets, Text};
use crate::written::{WrittenAccess, WrittenFamily, WrittenGroup};
use std::alloc::{AllocError, Global};

/// What has a copy of another type, or of its own.
pub trait CopiedAs<T> {
    // The copy.
    ghost copy_of: { Self → T };

    /// The copy.
    ///
    /// # Errors
    ///
    /// Where there is no memory for it.
    fn copy_as(&self, alloc: Global) -> Result<T, AllocError>
        ensures { IfOk result (λ copy. copy ≡ copy_of self.now) };
}

/// The copies of rows.
///
/// # Errors
///
/// Where there is no memory for them.
pub fn copied_rows<R: CopiedAs<T>, T: Drop>(
    alloc: Global,
    rows: &[R],
) -> Result<Rows<T>, AllocError>
    ensures { IfOk result (λ copies. copies ≡ map R.copy_of rows.now) }
{
    let mut copies = Vec::new(alloc);
    for row in rows {
        copies.push(row.copy_as(alloc)?)?;
    }
    Ok(Rows::new(copies))
}

impl CopiedAs<usize> for usize {
    ghost copy_of = { λ number. number };

    fn copy_as(&self, _alloc: Global) -> Result<usize, AllocError> {
        Ok(*self)
    }
}

impl CopiedAs<GroupRow> for GroupRow {
    ghost copy_of = { λ row. row };

    fn copy_as(&self, _alloc: Global) -> Result<GroupRow, AllocError> {
        Ok(GroupRow {
            model: self.model,
            name: self.name.copy(),
            group: self.group.copy(),
        })
    }
}

impl CopiedAs<AccessRow> for AccessRow {
    ghost copy_of = { λ row. row };

    fn copy_as(&self, _alloc: Global) -> Result<AccessRow, AllocError> {
        Ok(AccessRow {
            group: self.group.copy(),
            prefix: self.prefix.copy(),
            model: self.model,
            level: self.level,
            exact: self.exact,
            read: self.read.copy(),
            write: self.write.copy(),
            notify: self.notify.copy(),
        })
    }
}

impl CopiedAs<FamilyRow> for FamilyRow {
    ghost copy_of = { λ row. row };

    fn copy_as(&self, alloc: Global) -> Result<FamilyRow, AllocError> {
        Ok(FamilyRow {
            view: self.view.copy(),
            subtree: self.subtree.try_copy(alloc)?,
            mask: self.mask,
            included: self.included,
        })
    }
}

impl CopiedAs<Name> for Name {
    ghost copy_of = { λ name. name };

    fn copy_as(&self, _alloc: Global) -> Result<Name, AllocError> {
        Ok(self.copy())
    }
}

impl CopiedAs<Text> for Name {
    ghost copy_of = { λ name. name };

    fn copy_as(&self, alloc: Global) -> Result<Text, AllocError> {
        Text::new(alloc, self.as_str())
    }
}

impl CopiedAs<WrittenGroup> for GroupRow {
    ghost copy_of = { written_group };

    fn copy_as(&self, alloc: Global) -> Result<WrittenGroup, AllocError> {
        Ok(WrittenGroup {
            model: i64::from(self.model),
            name: Text::new(alloc, self.name.as_str())?,
            group: Text::new(alloc, self.group.as_str())?,
        })
    }
}

impl CopiedAs<WrittenAccess> for AccessRow {
    ghost copy_of = { written_access };

    fn copy_as(&self, alloc: Global) -> Result<WrittenAccess, AllocError> {
        Ok(WrittenAccess {
            group: Text::new(alloc, self.group.as_str())?,
            prefix: Text::new(alloc, self.prefix.as_str())?,
            model: i64::from(self.model),
            level: i64::from(self.level.number()),
            exact: self.exact,
            read: Text::new(alloc, self.read.as_str())?,
            write: Text::new(alloc, self.write.as_str())?,
            notify: Text::new(alloc, self.notify.as_str())?,
        })
    }
}

impl CopiedAs<WrittenFamily> for FamilyRow {
    ghost copy_of = { written_family };

    fn copy_as(&self, alloc: Global) -> Result<WrittenFamily, AllocError> {
        Ok(WrittenFamily {
            view: Text::new(alloc, self.view.as_str())?,
            subtree: self.subtree.try_copy(alloc)?,
            mask: Octets::new(Vec::from_slice(alloc, self.mask.as_slice())?),
            included: self.included,
        })
    }
}
