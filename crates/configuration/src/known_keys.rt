//! The keys that a table of a configuration may have, and the first that it may not.
ghost use Rattle.std.specs.Prelude.{◌≡◌, option_map};
ghost use Rattle.toml.specs.View.{table_view};
ghost use Rattle.configuration.specs.KnownKeys.{is_top_key, is_port_key, is_serve_key, is_group_key, is_access_key, is_family_key, is_community_key, is_row_key, is_key_of, unknown_key, unknown_of};

use community_core::PolicyTable;
use toml::Table;

/// A table of a configuration.
#[derive(Clone, Copy, Debug, PartialEq, Eq)]
pub enum Part {
    /// The table of the whole text.
    Top,
    /// An element of `port`.
    Port,
    /// `serve`.
    Serve,
    /// A row of a policy's table.
    Row(PolicyTable),
}

fn is_top_key(key: &[u8]) -> bool
    ensures { result ≡ is_top_key key.now }
{
    key == b"address".as_slice()
        || key == b"port".as_slice()
        || key == b"serve".as_slice()
        || key == b"contexts".as_slice()
        || key == b"community".as_slice()
        || key == b"group".as_slice()
        || key == b"access".as_slice()
        || key == b"family".as_slice()
}

fn is_port_key(key: &[u8]) -> bool
    ensures { result ≡ is_port_key key.now }
{
    key == b"ifindex".as_slice()
        || key == b"speed".as_slice()
        || key == b"full".as_slice()
        || key == b"listen".as_slice()
        || key == b"peer".as_slice()
}

fn is_serve_key(key: &[u8]) -> bool
    ensures { result ≡ is_serve_key key.now }
{
    key == b"snmp".as_slice() || key == b"workers".as_slice() || key == b"rounds".as_slice()
}

fn is_group_key(key: &[u8]) -> bool
    ensures { result ≡ is_group_key key.now }
{
    key == b"model".as_slice() || key == b"name".as_slice() || key == b"group".as_slice()
}

fn is_access_key(key: &[u8]) -> bool
    ensures { result ≡ is_access_key key.now }
{
    key == b"group".as_slice()
        || key == b"prefix".as_slice()
        || key == b"model".as_slice()
        || key == b"level".as_slice()
        || key == b"exact".as_slice()
        || key == b"read".as_slice()
        || key == b"write".as_slice()
        || key == b"notify".as_slice()
}

fn is_family_key(key: &[u8]) -> bool
    ensures { result ≡ is_family_key key.now }
{
    key == b"view".as_slice()
        || key == b"subtree".as_slice()
        || key == b"mask".as_slice()
        || key == b"included".as_slice()
}

fn is_community_key(key: &[u8]) -> bool
    ensures { result ≡ is_community_key key.now }
{
    key == b"index".as_slice()
        || key == b"name".as_slice()
        || key == b"security".as_slice()
        || key == b"context".as_slice()
}

// Whether a row of a policy's table may have a key. A context is no table: of one, no key is unknown.
fn is_row_key(table: PolicyTable, key: &[u8]) -> bool
    ensures { result ≡ is_row_key table key.now }
{
    match table {
        PolicyTable::Groups => is_group_key(key),
        PolicyTable::Access => is_access_key(key),
        PolicyTable::Families => is_family_key(key),
        PolicyTable::Contexts => true,
        PolicyTable::Communities => is_community_key(key),
    }
}

// Whether a part may have a key.
fn is_key_of(part: Part, key: &[u8]) -> bool
    ensures { result ≡ is_key_of part key.now }
{
    match part {
        Part::Top => is_top_key(key),
        Part::Port => is_port_key(key),
        Part::Serve => is_serve_key(key),
        Part::Row(table) => is_row_key(table, key),
    }
}

/// The first key of a table, in the order of their octets, that it may not have as this part, if it has
/// such a key.
pub fn unknown_key(part: Part, table: &Table) -> Option<&str>
    ensures { option_map (λ key. key.now) result ≡ unknown_key part (table_view table.now) }
{
    for (key, _value) in table.iter() {
        if !is_key_of(part, key.as_bytes()) {
            return Some(key.as_str());
        }
    }
    None
}

/// The same of a table, where there is one.
pub fn unknown_of(part: Part, table: Option<&Table>) -> Option<&str>
    ensures { option_map (λ key. key.now) result
        ≡ unknown_of part (option_map (λ t. table_view t.now) table.entry) }
{
    match table {
        Some(table) => unknown_key(part, table),
        None => None,
    }
}
