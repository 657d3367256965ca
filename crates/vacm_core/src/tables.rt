//! The rows that are kept: well formed, each field of its own type.
ghost use Rattle.std.specs.Prelude.{◌≡◌};
ghost use Rattle.vacm_core.specs.Levels.{level_number};

use crate::name::{Mask, Name};
use oid_core::Oid;

/// A security level (SnmpSecurityLevel of RFC 3411).
#[derive(Clone, Copy, Debug, PartialEq, Eq, PartialOrd, Ord)]
pub enum Level {
    /// Without authentication and without privacy.
    NoAuthNoPriv,
    /// With authentication and without privacy.
    AuthNoPriv,
    /// With authentication and with privacy.
    AuthPriv,
}

impl Level {
    /// The number of the level: 1 to 3.
    pub fn number(self) -> u8
        ensures { result ≡ level_number self }
    {
        match self {
            Level::NoAuthNoPriv => 1,
            Level::AuthNoPriv => 2,
            Level::AuthPriv => 3,
        }
    }
}

/// A row of vacmSecurityToGroupTable: the group of a security name under a model.
#[derive(Drop)]
pub struct GroupRow {
    /// The security model, 1 to [`MAX_MODEL`](crate::MAX_MODEL).
    pub model: u32,
    /// The security name, 1 to 32 octets.
    pub name: Name,
    /// The name of the group, 1 to 32 octets.
    pub group: Name,
}

/// A row of vacmAccessTable: the views of a group in contexts, under a model and from a level on.
#[derive(Drop)]
pub struct AccessRow {
    /// The name of the group, 1 to 32 octets.
    pub group: Name,
    /// The context name, or how it begins; 0 to 32 octets.
    pub prefix: Name,
    /// The security model, or 0 for any.
    pub model: u32,
    /// The least level that a request has to have.
    pub level: Level,
    /// Whether the prefix is to be the whole context name.
    pub exact: bool,
    /// The view to read by, 0 to 32 octets; empty for none.
    pub read: Name,
    /// The view to write by, 0 to 32 octets; empty for none.
    pub write: Name,
    /// The view of notifications, 0 to 32 octets; kept and never used.
    pub notify: Name,
}

/// A row of vacmViewTreeFamilyTable: a family of subtrees that a view includes or excludes.
#[derive(Drop)]
pub struct FamilyRow {
    /// The name of the view, 1 to 32 octets.
    pub view: Name,
    /// The subtree that the mask turns into a family.
    pub subtree: Oid,
    /// Which sub-identifiers of the subtree count, 0 to 16 octets.
    pub mask: Mask,
    /// Whether the view includes the family.
    pub included: bool,
}
