//! Reads the rows of a policy's tables.
ghost use Rattle.std.specs.Prelude.{◌≡◌, ◌≢◌, Option, Some, IsSome, IfOk, IfErr, OnErr, map, option_map};
ghost use Rattle.hex.specs.Hex.{decode_of};
ghost use Rattle.toml.specs.Data.{Data};
ghost use Rattle.toml.specs.View.{view, table_view};
ghost use Rattle.policy_text.specs.Typed.{context_typed, group_typed, access_typed, family_typed, community_typed};
ghost use Rattle.policy_text.specs.Reading.{IsFirstUnread, BeginsTyped, AreRows, IsContext, IsGroup, IsAccess, IsFamily, IsCommunity, context_says, group_says, group_of, group_members, access_says, access_of, access_members, family_says, family_members, parts_say, texts_say, mask_of, subtree_says, community_says, community_of, community_members};

use crate::keys::{bool_at, integer_at, key_count, string_at};
use community_core::{PolicyFault, PolicyTable, WrittenCommunity};
use hex::FromHexError;
use oid_core::{Oid, OidFault};
use std::alloc::{AllocError, Global};
use toml::{Table, Value};
use vacm_core::{Octets, Rows, Text, WrittenAccess, WrittenFamily, WrittenGroup};

/// A row of a table, as it is written.
pub trait Read: Sized + Drop {
    // What a value says: this row, or none.
    ghost says: { Data → Option Self → Type 0 };

    // A value has the keys of a row, each of its type, whatever they hold.
    ghost typed: { Data → Type 0 };

    /// The row that a value says, if it says one. Takes memory only where the value is typed as a
    /// row.
    fn read(alloc: Global, value: &Value) -> Result<Option<Self>, AllocError>
        ensures row { IfOk result (λ row. says (view value.now) row) }
        ensures memory { OnErr result (typed (view value.now)) };

    // A value that says a row is typed as one.
    ghost says_typed: { (d : Data) (row : Self) → says d (Some row) → typed d };
}

/// The rows that the values of an array say, or the fault of the first that says none. Takes memory
/// only where the first value is typed as a row.
pub fn read_rows<T: Read>(
    alloc: Global,
    table: PolicyTable,
    values: &Vec<Value>,
) -> Result<Rows<T>, PolicyFault>
    ensures rows { IfOk result (λ rows. AreRows T.says (map view values.now.items) rows) }
    ensures fault { IfErr result (λ e. e ≢ PolicyFault.Memory →
        IsFirstUnread T.says table (map view values.now.items) e) }
    ensures memory { IfErr result (λ e. e ≡ PolicyFault.Memory →
        BeginsTyped T.typed (map view values.now.items)) }
{
    let mut rows = Vec::new(alloc);
    for (n, value) in values.iter().enumerate() {
        match T::read(alloc, value)? {
            Some(row) => rows.push(row)?,
            None => return Err(PolicyFault::BadField(table, n)),
        }
    }
    Ok(Rows::new(rows))
}

impl Read for Text {
    ghost says = { context_says };

    ghost typed = { IsContext };

    ghost says_typed = { context_typed };

    fn read(alloc: Global, value: &Value) -> Result<Option<Text>, AllocError> {
        match value.as_str() {
            Some(text) => Ok(Some(Text::new(alloc, text)?)),
            None => Ok(None),
        }
    }
}

impl Read for WrittenGroup {
    ghost says = { group_says };

    ghost typed = { IsGroup };

    ghost says_typed = { group_typed };

    fn read(alloc: Global, value: &Value) -> Result<Option<WrittenGroup>, AllocError> {
        match value.as_table() {
            Some(table) => read_group(alloc, table),
            None => Ok(None),
        }
    }
}

fn read_group(alloc: Global, table: &Table) -> Result<Option<WrittenGroup>, AllocError>
    ensures row { IfOk result (λ row. row ≡ group_members (table_view table.now)) }
    ensures memory { OnErr result (IsSome (group_members (table_view table.now))) }
{
    if key_count(table) != 3 {
        return Ok(None);
    }
    let Some(model) = integer_at(table, "model") else {
        return Ok(None);
    };
    let Some(name) = string_at(table, "name") else {
        return Ok(None);
    };
    let Some(group) = string_at(table, "group") else {
        return Ok(None);
    };
    Ok(Some(WrittenGroup {
        model,
        name: Text::new(alloc, name)?,
        group: Text::new(alloc, group)?,
    }))
}

impl Read for WrittenAccess {
    ghost says = { access_says };

    ghost typed = { IsAccess };

    ghost says_typed = { access_typed };

    fn read(alloc: Global, value: &Value) -> Result<Option<WrittenAccess>, AllocError> {
        match value.as_table() {
            Some(table) => read_access(alloc, table),
            None => Ok(None),
        }
    }
}

// One step for each of the eight keys.
fn read_access(alloc: Global, table: &Table) -> Result<Option<WrittenAccess>, AllocError>
    ensures row { IfOk result (λ row. row ≡ access_members (table_view table.now)) }
    ensures memory { OnErr result (IsSome (access_members (table_view table.now))) }
{
    if key_count(table) != 8 {
        return Ok(None);
    }
    let Some(group) = string_at(table, "group") else {
        return Ok(None);
    };
    let Some(prefix) = string_at(table, "prefix") else {
        return Ok(None);
    };
    let Some(model) = integer_at(table, "model") else {
        return Ok(None);
    };
    let Some(level) = integer_at(table, "level") else {
        return Ok(None);
    };
    let Some(exact) = bool_at(table, "exact") else {
        return Ok(None);
    };
    let Some(read) = string_at(table, "read") else {
        return Ok(None);
    };
    let Some(write) = string_at(table, "write") else {
        return Ok(None);
    };
    let Some(notify) = string_at(table, "notify") else {
        return Ok(None);
    };
    Ok(Some(WrittenAccess {
        group: Text::new(alloc, group)?,
        prefix: Text::new(alloc, prefix)?,
        model,
        level,
        exact,
        read: Text::new(alloc, read)?,
        write: Text::new(alloc, write)?,
        notify: Text::new(alloc, notify)?,
    }))
}

/// The texts of a family row.
#[derive(Drop)]
struct FamilyTexts {
    view: Text,
    subtree: Text,
    mask: Text,
    included: bool,
}

impl Read for WrittenFamily {
    ghost says = { family_says };

    ghost typed = { IsFamily };

    ghost says_typed = { family_typed };

    fn read(alloc: Global, value: &Value) -> Result<Option<WrittenFamily>, AllocError> {
        match value.as_table() {
            Some(table) => read_family(alloc, table),
            None => Ok(None),
        }
    }
}

fn read_family(alloc: Global, table: &Table) -> Result<Option<WrittenFamily>, AllocError>
    ensures row { IfOk result (λ row. texts_say (family_members (table_view table.now)) row) }
    ensures memory { OnErr result (IsSome (family_members (table_view table.now))) }
{
    match family_texts(alloc, table)? {
        Some(texts) => read_family_texts(alloc, texts),
        None => Ok(None),
    }
}

fn family_texts(alloc: Global, table: &Table) -> Result<Option<FamilyTexts>, AllocError>
    ensures texts { IfOk result (λ texts. texts ≡ family_members (table_view table.now)) }
    ensures memory { OnErr result (IsSome (family_members (table_view table.now))) }
{
    if key_count(table) != 4 {
        return Ok(None);
    }
    let Some(view) = string_at(table, "view") else {
        return Ok(None);
    };
    let Some(subtree) = string_at(table, "subtree") else {
        return Ok(None);
    };
    let Some(mask) = string_at(table, "mask") else {
        return Ok(None);
    };
    let Some(included) = bool_at(table, "included") else {
        return Ok(None);
    };
    Ok(Some(FamilyTexts {
        view: Text::new(alloc, view)?,
        subtree: Text::new(alloc, subtree)?,
        mask: Text::new(alloc, mask)?,
        included,
    }))
}

fn read_family_texts(alloc: Global, texts: FamilyTexts) -> Result<Option<WrittenFamily>, AllocError>
    ensures { IfOk result (λ row. parts_say texts (mask_of texts.mask) row) }
{
    let Some(mask) = read_mask(alloc, texts.mask.as_str())? else {
        return Ok(None);
    };
    let Some(subtree) = read_subtree(alloc, texts.subtree.as_str())? else {
        return Ok(None);
    };
    Ok(Some(WrittenFamily {
        view: texts.view,
        subtree,
        mask,
        included: texts.included,
    }))
}

fn read_mask(alloc: Global, text: &str) -> Result<Option<Octets>, AllocError>
    ensures { IfOk result (λ mask. mask ≡ mask_of text.now) }
{
    match hex::decode(alloc, text.as_bytes()) {
        Ok(octets) => Ok(Some(Octets::new(octets))),
        Err(FromHexError::OutOfMemory) => Err(AllocError),
        Err(_) => Ok(None),
    }
}

fn read_subtree(alloc: Global, text: &str) -> Result<Option<Oid>, AllocError>
    ensures { IfOk result (λ subtree. subtree_says text.now subtree) }
{
    match Oid::parse(alloc, text) {
        Ok(subtree) => Ok(Some(subtree)),
        Err(OidFault::BadText | OidFault::TooLong) => Ok(None),
        // No other fault comes of a text.
        Err(_) => Err(AllocError),
    }
}

impl Read for WrittenCommunity {
    ghost says = { community_says };

    ghost typed = { IsCommunity };

    ghost says_typed = { community_typed };

    fn read(alloc: Global, value: &Value) -> Result<Option<WrittenCommunity>, AllocError> {
        match value.as_table() {
            Some(table) => read_community(alloc, table),
            None => Ok(None),
        }
    }
}

fn read_community(alloc: Global, table: &Table) -> Result<Option<WrittenCommunity>, AllocError>
    ensures row { IfOk result (λ row. row ≡ community_members (table_view table.now)) }
    ensures memory { OnErr result (IsSome (community_members (table_view table.now))) }
{
    if key_count(table) != 4 {
        return Ok(None);
    }
    let Some(index) = string_at(table, "index") else {
        return Ok(None);
    };
    let Some(name) = string_at(table, "name") else {
        return Ok(None);
    };
    let Some(security) = string_at(table, "security") else {
        return Ok(None);
    };
    let Some(context) = string_at(table, "context") else {
        return Ok(None);
    };
    Ok(Some(WrittenCommunity {
        index: Text::new(alloc, index)?,
        name: Text::new(alloc, name)?,
        security: Text::new(alloc, security)?,
        context: Text::new(alloc, context)?,
    }))
}
