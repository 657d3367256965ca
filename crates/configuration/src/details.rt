//! What an operator reads of a fault, by the text that it is in: which key is wrong, or unknown, and what
//! of the address.
ghost use Rattle.std.specs.Prelude.{◌≡◌, IfOk, ℕ, List, option_map, string_bytes};
ghost use Rattle.toml.specs.View.{table_view, view};
ghost use Rattle.configuration.specs.Details.{members_in, row_at, table_in, unknown_rule, address_rule, address_sentence, model_rule, name_rule, field_text, name_length, length_text, rows_key, field_detail, length_detail, policy_detail, port_rule_in, port_detail, serve_detail, keys_detail, expected_sentence, table_sentence, IsSentenceIn, sentence_by};

use crate::address::{AddressFault, address_fault};
use crate::fault::{ConfigurationFault, PolicyKey, PortKey, ServeKey};
use crate::known_keys::{Part, unknown_key, unknown_of};
use crate::rows::{RowKey, row_fault, row_length};
use crate::sentences::{
    counted, field_rule, keys_sentence, length_rule, policy_sentence, port_rule, row_sentence,
    sentence, serve_sentence, table_key, text_sentence,
};
use crate::shown::{MAX_MESSAGE_SHOWN, MAX_NAME_SHOWN, shown};
use community_core::{PolicyFault, PolicyTable};
use policy_text::keys::{array_at, value_at};
use policy_text::text_of;
use std::alloc::{AllocError, Global};
use toml::{Table, Value};

/// The element of an array under a key, if there is one.
pub(crate) fn row_at<'a>(table: &'a Table, key: &str, row: usize) -> Option<&'a Value>
    ensures { option_map (λ v. view v.now) result ≡ row_at key.now row (table_view table.now) }
{
    match array_at(table, key) {
        Some(rows) => rows.get(row),
        None => None,
    }
}

/// The table that a value is, if it is there and is one.
pub(crate) fn table_in(value: Option<&Value>) -> Option<&Table>
    ensures { option_map (λ t. table_view t.now) result
        ≡ table_in (option_map (λ v. view v.now) value.entry) }
{
    match value {
        Some(value) => value.as_table(),
        None => None,
    }
}

/// What would be right, behind the key that is unknown, if there is one.
pub(crate) fn unknown_rule(
    alloc: Global,
    unknown: Option<&str>,
    rule: &str,
) -> Result<String, AllocError>
    ensures { IfOk result (λ text. string_bytes text
        ≡ unknown_rule (option_map (λ key. key.now) unknown.entry) rule.now) }
{
    match unknown {
        Some(key) => {
            let name = shown(alloc, MAX_NAME_SHOWN, key.as_bytes())?;
            format!(in alloc; "unknown key \"{name}\": {rule}")
        }
        None => String::from_str(alloc, rule),
    }
}

// What would be right of an address, but for a digit of it.
fn address_rule(fault: AddressFault) -> &'static str
    ensures { result.now ≡ address_rule fault }
{
    match fault {
        AddressFault::Empty =>
            "the text: it is empty; its keys are to be address, port, contexts, community, group, access and family, and may be serve, and no others",
        AddressFault::Missing =>
            "top level: address is missing; it is to be a string of 12 hexadecimal digits",
        AddressFault::NoString => "top level: address is to be a string of 12 hexadecimal digits",
        AddressFault::Length | AddressFault::Digit(_) =>
            "top level: address is to have 12 hexadecimal digits",
        AddressFault::Group =>
            "top level: address is to be no group address: its first octet is even",
    }
}

// The sentence on an address.
fn address_sentence(alloc: Global, fault: AddressFault) -> Result<String, AllocError>
    ensures { IfOk result (λ text. string_bytes text ≡ address_sentence fault) }
{
    match fault {
        AddressFault::Digit(index) => {
            let number = counted(index);
            format!(in alloc;
                "top level: character {number} of address, counted from 1, is to be a hexadecimal digit"
            )
        }
        fault => String::from_str(alloc, address_rule(fault)),
    }
}

// What `model` is to hold.
fn model_rule(which: PolicyTable) -> &'static str
    ensures { result.now ≡ model_rule which }
{
    match which {
        PolicyTable::Access => "model is to be an integer of 0 to 2147483647",
        PolicyTable::Groups
        | PolicyTable::Families
        | PolicyTable::Contexts
        | PolicyTable::Communities => "model is to be an integer of 1 to 2147483647",
    }
}

// What `name` is to hold.
fn name_rule(which: PolicyTable) -> &'static str
    ensures { result.now ≡ name_rule which }
{
    match which {
        PolicyTable::Communities => "name is to be a string",
        PolicyTable::Groups | PolicyTable::Access | PolicyTable::Families | PolicyTable::Contexts =>
            "name is to be a string of ASCII letters and digits, -, _ and .",
    }
}

/// What the key of a row is to hold.
pub(crate) fn field_text(which: PolicyTable, key: RowKey) -> &'static str
    ensures { result.now ≡ field_text which key }
{
    match key {
        RowKey::Model => model_rule(which),
        RowKey::Name => name_rule(which),
        RowKey::Group => "group is to be a string of ASCII letters and digits, -, _ and .",
        RowKey::Prefix => "prefix is to be a string of ASCII letters and digits, -, _ and .",
        RowKey::Level => "level is to be an integer of 1 to 3",
        RowKey::Exact => "exact is to be true or false",
        RowKey::Read => "read is to be a string of ASCII letters and digits, -, _ and .",
        RowKey::Write => "write is to be a string of ASCII letters and digits, -, _ and .",
        RowKey::Notify => "notify is to be a string of ASCII letters and digits, -, _ and .",
        RowKey::View => "view is to be a string of ASCII letters and digits, -, _ and .",
        RowKey::Subtree =>
            "subtree is to be a string of 1 to 128 numbers below 4294967296 with dots between them and no leading zeros",
        RowKey::Mask => "mask is to be a string of hexadecimal digits, two an octet",
        RowKey::Included => "included is to be true or false",
        RowKey::Index => "index is to be a string of ASCII letters and digits, -, _ and .",
        RowKey::Security => "security is to be a string of ASCII letters and digits, -, _ and .",
        RowKey::Context => "context is to be a string of ASCII letters and digits, -, _ and .",
    }
}

// How long `name` may be.
fn name_length(which: PolicyTable) -> &'static str
    ensures { result.now ≡ name_length which }
{
    match which {
        PolicyTable::Communities => "name is to have 1 to 255 octets",
        PolicyTable::Groups | PolicyTable::Access | PolicyTable::Families | PolicyTable::Contexts =>
            "name is to have 1 to 32 octets",
    }
}

/// How long the text of a row's key may be.
pub(crate) fn length_text(which: PolicyTable, key: RowKey) -> &'static str
    ensures { result.now ≡ length_text which key }
{
    match key {
        RowKey::Name => name_length(which),
        RowKey::Group => "group is to have 1 to 32 octets",
        RowKey::Prefix => "prefix is to have at most 32 octets",
        RowKey::Read => "read is to have at most 32 octets",
        RowKey::Write => "write is to have at most 32 octets",
        RowKey::Notify => "notify is to have at most 32 octets",
        RowKey::View => "view is to have 1 to 32 octets",
        RowKey::Subtree =>
            "the numbers of subtree and the octets of view are to be at most 114 together",
        RowKey::Mask => "mask is to have at most 32 digits (16 octets)",
        RowKey::Index => "index is to have 1 to 32 octets",
        RowKey::Security => "security is to have 1 to 32 octets",
        RowKey::Context => "context is to have at most 32 octets",
        RowKey::Model | RowKey::Level | RowKey::Exact | RowKey::Included => length_rule(which),
    }
}

// What would be right of a row with a wrong value: of the first key that is wrong, else behind the key
// that is unknown.
fn field_detail(
    alloc: Global,
    which: PolicyTable,
    row: Option<&Table>,
) -> Result<String, AllocError>
    ensures { IfOk result (λ text. string_bytes text
        ≡ field_detail which (option_map (λ t. table_view t.now) row.entry)) }
{
    let Some(table) = row else {
        return String::from_str(alloc, field_rule(which));
    };
    match row_fault(alloc, which, table)? {
        Some(key) => String::from_str(alloc, field_text(which, key)),
        None => {
            let unknown = unknown_key(Part::Row(which), table);
            unknown_rule(alloc, unknown, field_rule(which))
        }
    }
}

// How long the text of a row may be whose length is wrong.
fn length_detail(which: PolicyTable, row: Option<&Table>) -> &'static str
    ensures { result.now ≡ length_detail which (option_map (λ t. table_view t.now) row.entry) }
{
    let Some(table) = row else {
        return length_rule(which);
    };
    match row_length(which, table) {
        Some(key) => length_text(which, key),
        None => length_rule(which),
    }
}

/// The key under which the rows of a table stand.
pub(crate) fn rows_key(which: PolicyTable) -> &'static str
    ensures { result.now ≡ rows_key which }
{
    match which {
        PolicyTable::Groups => "group",
        PolicyTable::Access => "access",
        PolicyTable::Families => "family",
        PolicyTable::Contexts => "contexts",
        PolicyTable::Communities => "community",
    }
}

// The sentence on a policy's fault.
fn policy_detail(alloc: Global, table: &Table, fault: PolicyFault) -> Result<String, AllocError>
    ensures { IfOk result (λ text. string_bytes text
        ≡ policy_detail (table_view table.now) fault) }
{
    match fault {
        PolicyFault::BadField(which, row) => {
            let value = table_in(row_at(table, rows_key(which), row));
            let rule = field_detail(alloc, which, value)?;
            row_sentence(alloc, table_key(which), row, &rule)
        }
        PolicyFault::BadLength(which, row) => {
            let value = table_in(row_at(table, rows_key(which), row));
            row_sentence(alloc, table_key(which), row, length_detail(which, value))
        }
        fault => policy_sentence(alloc, fault),
    }
}

// What would be right of a port.
fn port_rule_in(
    alloc: Global,
    table: &Table,
    row: usize,
    key: PortKey,
) -> Result<String, AllocError>
    ensures { IfOk result (λ text. string_bytes text
        ≡ port_rule_in (table_view table.now) row key) }
{
    match key {
        PortKey::Other => {
            let unknown = unknown_of(Part::Port, table_in(row_at(table, "port", row)));
            unknown_rule(alloc, unknown, port_rule(PortKey::Other))
        }
        key => String::from_str(alloc, port_rule(key)),
    }
}

// The sentence on a port.
fn port_detail(alloc: Global, table: &Table, row: usize, key: PortKey) -> Result<String, AllocError>
    ensures { IfOk result (λ text. string_bytes text
        ≡ port_detail (table_view table.now) row key) }
{
    let rule = port_rule_in(alloc, table, row, key)?;
    row_sentence(alloc, "[[port]]", row, &rule)
}

// The sentence on `serve`.
fn serve_detail(alloc: Global, table: &Table, key: ServeKey) -> Result<String, AllocError>
    ensures { IfOk result (λ text. string_bytes text ≡ serve_detail (table_view table.now) key) }
{
    match key {
        ServeKey::Other => {
            let unknown = unknown_of(Part::Serve, table_in(value_at(table, "serve")));
            let rule = unknown_rule(
                alloc,
                unknown,
                "its keys are to be snmp, workers and rounds, and no others",
            )?;
            format!(in alloc; "table serve: {rule}")
        }
        key => String::from_str(alloc, serve_sentence(key)),
    }
}

// The sentence on the keys at the top.
fn keys_detail(alloc: Global, table: &Table, key: PolicyKey) -> Result<String, AllocError>
    ensures { IfOk result (λ text. string_bytes text ≡ keys_detail (table_view table.now) key) }
{
    match key {
        PolicyKey::Other => {
            let rule = unknown_rule(
                alloc,
                unknown_key(Part::Top, table),
                "its keys are to be address, port, contexts, community, group, access and family, and may be serve, and no others",
            )?;
            format!(in alloc; "top level: {rule}")
        }
        key => String::from_str(alloc, keys_sentence(key)),
    }
}

// The sentence on a fault of a table.
fn table_sentence(
    alloc: Global,
    table: &Table,
    fault: ConfigurationFault,
) -> Result<String, AllocError>
    ensures { IfOk result (λ text. string_bytes text
        ≡ table_sentence (table_view table.now) fault) }
{
    match fault {
        ConfigurationFault::BadAddress => address_sentence(alloc, address_fault(table)),
        ConfigurationFault::BadPort(row, key) => port_detail(alloc, table, row, key),
        ConfigurationFault::BadServe(key) => serve_detail(alloc, table, key),
        ConfigurationFault::BadKeys(key) => keys_detail(alloc, table, key),
        ConfigurationFault::Policy(fault) => policy_detail(alloc, table, fault),
        fault => sentence(alloc, fault),
    }
}

// The sentence on a text that is no TOML document, with what its reader says.
fn expected_sentence(alloc: Global, line: usize, message: &str) -> Result<String, AllocError>
    ensures { IfOk result (λ text. string_bytes text ≡ expected_sentence line message.now) }
{
    let place = text_sentence(alloc, line)?;
    let expected = shown(alloc, MAX_MESSAGE_SHOWN, message.as_bytes())?;
    format!(in alloc; "{place}: {expected}")
}

// The same of octets: they are read once more for what the reader says.
fn broken_sentence(alloc: Global, octets: &[u8], line: usize) -> Result<String, AllocError>
    ensures { IfOk result (λ text. (message : List ℕ) ×
        (string_bytes text ≡ expected_sentence line message)) }
{
    let Some(text) = text_of(octets) else {
        return expected_sentence(alloc, line, "");
    };
    match toml::table_from_str(alloc, text) {
        Ok(_) => expected_sentence(alloc, line, ""),
        Err(error) if error.is_memory() => Err(AllocError),
        Err(error) => expected_sentence(alloc, line, error.message()),
    }
}

/// The table that octets write, if they write one.
pub(crate) fn table_of(alloc: Global, octets: &[u8]) -> Result<Option<Table>, AllocError>
    ensures { IfOk result (λ table. option_map table_view table ≡ members_in octets.now) }
{
    let Some(text) = text_of(octets) else {
        return Ok(None);
    };
    match toml::table_from_str(alloc, text) {
        Ok(table) => Ok(Some(table)),
        Err(error) if error.is_memory() => Err(AllocError),
        Err(_) => Ok(None),
    }
}

// The sentence on any other fault of octets: they are read once more for the key that is wrong.
fn detailed_sentence(
    alloc: Global,
    octets: &[u8],
    fault: ConfigurationFault,
) -> Result<String, AllocError>
    ensures { IfOk result (λ text. string_bytes text ≡ sentence_by (members_in octets.now) fault) }
{
    match table_of(alloc, octets)? {
        Some(table) => table_sentence(alloc, &table, fault),
        None => sentence(alloc, fault),
    }
}

/// What an operator reads of a fault that the octets of a file have, in one line without its end: the
/// line of the text, the top level, or the table and the row, each counted from 1, which key is wrong or
/// unknown, and what would be right there; of a text that is no TOML what its reader expected.
///
/// It is of printable ASCII, and of bounded length, whatever the octets are: of a key that is unknown at
/// most 40 octets are printed, each as it is, or as a backslash, an x and two digits.
///
/// # Errors
/// `AllocError` where there is no memory for it, or to read the octets once more.
pub fn sentence_in(
    alloc: Global,
    octets: &[u8],
    fault: ConfigurationFault,
) -> Result<String, AllocError>
    ensures { IfOk result (λ text. IsSentenceIn octets.now fault (string_bytes text)) }
{
    match fault {
        ConfigurationFault::Memory => sentence(alloc, fault),
        ConfigurationFault::BadText(line) => broken_sentence(alloc, octets, line),
        fault => detailed_sentence(alloc, octets, fault),
    }
}
