//! Which key of a row of a policy is wrong.
ghost use Rattle.std.specs.Prelude.{◌≡◌, IfOk, is_some};
ghost use Rattle.std.specs.List.{list_all};
ghost use Rattle.toml.specs.View.{table_view};
ghost use Rattle.vacm_core.specs.Texts.{is_plain, is_plain_octet};
ghost use Rattle.policy_text.specs.Reading.{mask_of};
ghost use Rattle.policy_text.specs.Stated.{subtree_of};
ghost use Rattle.configuration.specs.Rows.{is_plain_at, has_length_at, is_mask_at, is_subtree_at, group_fault, access_views_fault, access_fault, family_fault, community_fault, row_fault, group_length, access_length, family_length, community_length, row_length};

use crate::numbers::number_at;
use community_core::PolicyTable;
use hex::FromHexError;
use oid_core::{Oid, OidFault};
use policy_text::keys::{bool_at, string_at};
use std::alloc::{AllocError, Global};
use toml::Table;
use vacm_core::{MAX_MASK, MAX_MODEL, MAX_NAME};

/// A key of a row of a policy.
#[derive(Clone, Copy, Debug, PartialEq, Eq)]
pub enum RowKey {
    /// `model`, an integer.
    Model,
    /// `name`, a string.
    Name,
    /// `group`, a string.
    Group,
    /// `prefix`, a string.
    Prefix,
    /// `level`, an integer.
    Level,
    /// `exact`, a boolean.
    Exact,
    /// `read`, a string.
    Read,
    /// `write`, a string.
    Write,
    /// `notify`, a string.
    Notify,
    /// `view`, a string.
    View,
    /// `subtree`, a string.
    Subtree,
    /// `mask`, a string.
    Mask,
    /// `included`, a boolean.
    Included,
    /// `index`, a string.
    Index,
    /// `security`, a string.
    Security,
    /// `context`, a string.
    Context,
}

// Whether octets are ASCII letters, digits, `-`, `_` and `.` alone.
fn is_plain(octets: &[u8]) -> bool
    ensures { result ≡ is_plain octets.now }
{
    octets.iter().all(|octet| is_plain_octet(*octet))
}

fn is_plain_octet(octet: u8) -> bool
    ensures { result ≡ is_plain_octet octet }
{
    octet.is_ascii_alphanumeric() || octet == b'-' || octet == b'_' || octet == b'.'
}

// Whether a key holds a string that is plain.
fn is_plain_at(table: &Table, key: &str) -> bool
    ensures { result ≡ is_plain_at key.now (table_view table.now) }
{
    match string_at(table, key) {
        Some(text) => is_plain(text.as_bytes()),
        None => false,
    }
}

// Whether a key holds a string of at least and at most so many octets.
fn has_length_at(table: &Table, key: &str, least: usize, most: usize) -> bool
    ensures { result ≡ has_length_at key.now least most (table_view table.now) }
{
    match string_at(table, key) {
        Some(text) => least <= text.len() && text.len() <= most,
        None => false,
    }
}

// Whether a text is hexadecimal digits, two an octet.
fn is_mask(alloc: Global, text: &str) -> Result<bool, AllocError>
    ensures { IfOk result (λ right. right ≡ is_some (mask_of text.now)) }
{
    match hex::decode(alloc, text.as_bytes()) {
        Ok(_) => Ok(true),
        Err(FromHexError::OutOfMemory) => Err(AllocError),
        Err(_) => Ok(false),
    }
}

// Whether a key holds the text of a mask.
fn is_mask_at(alloc: Global, table: &Table, key: &str) -> Result<bool, AllocError>
    ensures { IfOk result (λ right. right ≡ is_mask_at key.now (table_view table.now)) }
{
    match string_at(table, key) {
        Some(text) => is_mask(alloc, text),
        None => Ok(false),
    }
}

// Whether a text is the dotted numbers of a name.
#[tactic(auto, using(crate::proofs::SubtreeLemmas::subtree_read, crate::proofs::SubtreeLemmas::no_subtree, crate::proofs::SubtreeLemmas::long_subtree))]
fn is_subtree(alloc: Global, text: &str) -> Result<bool, AllocError>
    ensures { IfOk result (λ right. right ≡ is_some (subtree_of text.now)) }
{
    match Oid::parse(alloc, text) {
        Ok(_) => Ok(true),
        Err(OidFault::BadText | OidFault::TooLong) => Ok(false),
        // No other fault comes of a text.
        Err(_) => Err(AllocError),
    }
}

// Whether a key holds the text of a name.
fn is_subtree_at(alloc: Global, table: &Table, key: &str) -> Result<bool, AllocError>
    ensures { IfOk result (λ right. right ≡ is_subtree_at key.now (table_view table.now)) }
{
    match string_at(table, key) {
        Some(text) => is_subtree(alloc, text),
        None => Ok(false),
    }
}

// The first key of a group row that is missing or wrong.
fn group_fault(table: &Table) -> Option<RowKey>
    ensures { result ≡ group_fault (table_view table.now) }
{
    if number_at(table, "model", 1, MAX_MODEL).is_none() {
        return Some(RowKey::Model);
    }
    if !is_plain_at(table, "name") {
        return Some(RowKey::Name);
    }
    if !is_plain_at(table, "group") {
        return Some(RowKey::Group);
    }
    None
}

// The same of the three views of an access row.
fn access_views_fault(table: &Table) -> Option<RowKey>
    ensures { result ≡ access_views_fault (table_view table.now) }
{
    if !is_plain_at(table, "read") {
        return Some(RowKey::Read);
    }
    if !is_plain_at(table, "write") {
        return Some(RowKey::Write);
    }
    if !is_plain_at(table, "notify") {
        return Some(RowKey::Notify);
    }
    None
}

// The same of an access row.
fn access_fault(table: &Table) -> Option<RowKey>
    ensures { result ≡ access_fault (table_view table.now) }
{
    if !is_plain_at(table, "group") {
        return Some(RowKey::Group);
    }
    if !is_plain_at(table, "prefix") {
        return Some(RowKey::Prefix);
    }
    if number_at(table, "model", 0, MAX_MODEL).is_none() {
        return Some(RowKey::Model);
    }
    if number_at(table, "level", 1, 3).is_none() {
        return Some(RowKey::Level);
    }
    if bool_at(table, "exact").is_none() {
        return Some(RowKey::Exact);
    }
    access_views_fault(table)
}

// The same of a family row.
fn family_fault(alloc: Global, table: &Table) -> Result<Option<RowKey>, AllocError>
    ensures { IfOk result (λ key. key ≡ family_fault (table_view table.now)) }
{
    if !is_plain_at(table, "view") {
        return Ok(Some(RowKey::View));
    }
    if !is_subtree_at(alloc, table, "subtree")? {
        return Ok(Some(RowKey::Subtree));
    }
    if !is_mask_at(alloc, table, "mask")? {
        return Ok(Some(RowKey::Mask));
    }
    if bool_at(table, "included").is_none() {
        return Ok(Some(RowKey::Included));
    }
    Ok(None)
}

// The same of a community.
fn community_fault(table: &Table) -> Option<RowKey>
    ensures { result ≡ community_fault (table_view table.now) }
{
    if !is_plain_at(table, "index") {
        return Some(RowKey::Index);
    }
    if string_at(table, "name").is_none() {
        return Some(RowKey::Name);
    }
    if !is_plain_at(table, "security") {
        return Some(RowKey::Security);
    }
    if !is_plain_at(table, "context") {
        return Some(RowKey::Context);
    }
    None
}

/// The first key of a row, in the order of `docs/CONFIGURATION.md`, that is missing or holds what it may
/// not hold, whatever lengths its texts have; none of a context, which is no table.
///
/// # Errors
/// `AllocError` where there is no memory to read a subtree or a mask.
pub fn row_fault(
    alloc: Global,
    which: PolicyTable,
    table: &Table,
) -> Result<Option<RowKey>, AllocError>
    ensures { IfOk result (λ key. key ≡ row_fault which (table_view table.now)) }
{
    match which {
        PolicyTable::Groups => Ok(group_fault(table)),
        PolicyTable::Access => Ok(access_fault(table)),
        PolicyTable::Families => family_fault(alloc, table),
        PolicyTable::Contexts => Ok(None),
        PolicyTable::Communities => Ok(community_fault(table)),
    }
}

// The first key of a group row whose text has a wrong length, or the last of those that may have one.
fn group_length(table: &Table) -> RowKey
    ensures { result ≡ group_length (table_view table.now) }
{
    if has_length_at(table, "name", 1, MAX_NAME) {
        RowKey::Group
    } else {
        RowKey::Name
    }
}

// The same of an access row.
fn access_length(table: &Table) -> RowKey
    ensures { result ≡ access_length (table_view table.now) }
{
    if !has_length_at(table, "group", 1, MAX_NAME) {
        RowKey::Group
    } else if !has_length_at(table, "prefix", 0, MAX_NAME) {
        RowKey::Prefix
    } else if !has_length_at(table, "read", 0, MAX_NAME) {
        RowKey::Read
    } else if !has_length_at(table, "write", 0, MAX_NAME) {
        RowKey::Write
    } else {
        RowKey::Notify
    }
}

// The same of a family row, whose subtree counts together with its view.
fn family_length(table: &Table) -> RowKey
    ensures { result ≡ family_length (table_view table.now) }
{
    if !has_length_at(table, "view", 1, MAX_NAME) {
        RowKey::View
    } else if !has_length_at(table, "mask", 0, 2 * MAX_MASK) {
        RowKey::Mask
    } else {
        RowKey::Subtree
    }
}

// The same of a community.
fn community_length(table: &Table) -> RowKey
    ensures { result ≡ community_length (table_view table.now) }
{
    if !has_length_at(table, "index", 1, MAX_NAME) {
        RowKey::Index
    } else if !has_length_at(table, "name", 1, 255) {
        RowKey::Name
    } else if !has_length_at(table, "security", 1, MAX_NAME) {
        RowKey::Security
    } else {
        RowKey::Context
    }
}

/// The first key of a row whose text has a length that it may not have, or the last of those that may
/// have one; none of a context, which is no table.
pub fn row_length(which: PolicyTable, table: &Table) -> Option<RowKey>
    ensures { result ≡ row_length which (table_view table.now) }
{
    match which {
        PolicyTable::Groups => Some(group_length(table)),
        PolicyTable::Access => Some(access_length(table)),
        PolicyTable::Families => Some(family_length(table)),
        PolicyTable::Contexts => None,
        PolicyTable::Communities => Some(community_length(table)),
    }
}
