//! The keys of the families that decide.
ghost use Rattle.std.specs.Prelude.{◌≡◌, ◌↔◌, ◌<◌, Some, IsTrue, IfOk, OnErr, length};
ghost use Rattle.audit_core.specs.Keys.{family_key};
ghost use Rattle.audit_core.specs.Text.{family_text};

use oid_core::{INLINE_NUMBERS, Oid};
use std::alloc::{AllocError, Global};
use std::fmt;
use vacm_core::{FamilyRow, Name};

/// The key of a row of vacmViewTreeFamilyTable (RFC 3415, section 4).
#[derive(Drop)]
pub struct FamilyKey {
    /// The name of the view.
    pub view: Name,
    /// The subtree of the family.
    pub subtree: Oid,
}

impl FamilyKey {
    /// The key of a row. There can be no memory for it only where the subtree has more than
    /// [`INLINE_NUMBERS`] sub-identifiers.
    pub fn of(alloc: Global, row: &FamilyRow) -> Result<FamilyKey, AllocError>
        ensures key { IfOk result (λ key. key ≡ family_key row.now) }
        ensures inline { OnErr result (INLINE_NUMBERS < length row.now.subtree) }
    {
        let subtree = row.subtree.try_copy(alloc)?;
        let view = row.view.copy();
        Ok(FamilyKey { view, subtree })
    }

    /// A copy. There can be no memory for it only where the subtree has more than
    /// [`INLINE_NUMBERS`] sub-identifiers.
    pub fn try_copy(&self, alloc: Global) -> Result<FamilyKey, AllocError>
        ensures value { IfOk result (λ copy. copy ≡ self.now) }
        ensures inline { OnErr result (INLINE_NUMBERS < length self.now.subtree) }
    {
        let subtree = self.subtree.try_copy(alloc)?;
        let view = self.view.copy();
        Ok(FamilyKey { view, subtree })
    }

    /// Whether two keys are one. Takes no memory.
    pub fn same(&self, other: &FamilyKey) -> bool
        ensures { IsTrue result ↔ (self.now ≡ other.now) }
    {
        self.subtree == other.subtree && self.view.is(&other.view)
    }
}

/// As `family(bridge,1.3.6.1.2.1.17)`: the view and the subtree.
impl fmt::Display for FamilyKey {
    ghost output = { λ key. Some (family_text key) };

    fn fmt<W: fmt::Write>(&self, f: &mut fmt::Formatter<W>) -> fmt::Result {
        let view = self.view.as_str();
        let subtree = &self.subtree;
        write!(f, "family({view},{subtree})")
    }
}
