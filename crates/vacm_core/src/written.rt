//! Rows as a policy is written: texts of any length, and any numbers. [`crate::Vacm::new`] makes
//! its rows of these, where all of them are well formed.

use crate::rows::Rows;
use crate::text::{Octets, Text};
use oid_core::Oid;

/// A group row as it is written.
#[derive(Drop)]
pub struct WrittenGroup {
    /// The security model; 1 to 2147483647 is right.
    pub model: i64,
    /// The security name; 1 to 32 plain octets are right.
    pub name: Text,
    /// The name of the group; 1 to 32 plain octets are right.
    pub group: Text,
}

/// An access row as it is written.
#[derive(Drop)]
pub struct WrittenAccess {
    /// The name of the group; 1 to 32 plain octets are right.
    pub group: Text,
    /// The context name, or how it begins; 0 to 32 plain octets are right.
    pub prefix: Text,
    /// The security model; 0 to 2147483647 is right, 0 is any.
    pub model: i64,
    /// The security level; 1 to 3 is right.
    pub level: i64,
    /// Whether the prefix is to be the whole context name.
    pub exact: bool,
    /// The view to read by; 0 to 32 plain octets are right.
    pub read: Text,
    /// The view to write by; 0 to 32 plain octets are right.
    pub write: Text,
    /// The view of notifications; 0 to 32 plain octets are right.
    pub notify: Text,
}

/// A family row as it is written.
#[derive(Drop)]
pub struct WrittenFamily {
    /// The name of the view; 1 to 32 plain octets are right.
    pub view: Text,
    /// The subtree; with the view's octets at most 114 sub-identifiers are right.
    pub subtree: Oid,
    /// The mask; 0 to 16 octets are right.
    pub mask: Octets,
    /// Whether the view includes the family.
    pub included: bool,
}

/// The tables as they are written.
#[derive(Drop)]
pub struct VacmRows {
    /// Who is of which group.
    pub groups: Rows<WrittenGroup>,
    /// What a group may do.
    pub access: Rows<WrittenAccess>,
    /// The subtrees of each view.
    pub families: Rows<WrittenFamily>,
    /// The contexts that are known beside the empty one.
    pub contexts: Rows<Text>,
}
