//! What stands under the keys of a TOML table.
ghost use Rattle.std.specs.Prelude.{◌≡◌, option_map, map};
ghost use Rattle.toml.specs.Data.{get_member};
ghost use Rattle.toml.specs.View.{table_view, view};
ghost use Rattle.policy_text.specs.Keys.{key_count, string_at, integer_at, bool_at, array_at};

use toml::{Table, Value};

/// How many keys a table has.
pub fn key_count(table: &Table) -> usize
    ensures { result ≡ key_count (table_view table.now) }
{
    table.len()
}

/// What stands at a key, if the table has it.
pub fn value_at<'a>(table: &'a Table, key: &str) -> Option<&'a Value>
    ensures { option_map (λ v. view v.now) result ≡ get_member key.now (table_view table.now) }
{
    table.get(key)
}

/// The string at a key, if the key holds a string.
pub fn string_at<'a>(table: &'a Table, key: &str) -> Option<&'a str>
    ensures { option_map (λ s. s.now) result ≡ string_at key.now (table_view table.now) }
{
    match value_at(table, key) {
        Some(value) => value.as_str(),
        None => None,
    }
}

/// The integer at a key, if the key holds one.
pub fn integer_at(table: &Table, key: &str) -> Option<i64>
    ensures { result ≡ integer_at key.now (table_view table.now) }
{
    match value_at(table, key) {
        Some(value) => value.as_integer(),
        None => None,
    }
}

/// The truth value at a key, if the key holds one.
pub fn bool_at(table: &Table, key: &str) -> Option<bool>
    ensures { result ≡ bool_at key.now (table_view table.now) }
{
    match value_at(table, key) {
        Some(value) => value.as_bool(),
        None => None,
    }
}

/// The array at a key, if the key holds one.
pub fn array_at<'a>(table: &'a Table, key: &str) -> Option<&'a Vec<Value>>
    ensures { option_map (λ v.
        map view v.now.items) result ≡ array_at key.now (table_view table.now) }
{
    match value_at(table, key) {
        Some(value) => value.as_array(),
        None => None,
    }
}
