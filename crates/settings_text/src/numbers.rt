//! Numbers in a table.
ghost use Rattle.std.specs.Prelude.{◌≡◌, ◌≤◌, IfSome};
ghost use Rattle.toml.specs.Data.{get_member};
ghost use Rattle.toml.specs.View.{table_view, view};
ghost use Rattle.settings_text.specs.Numbers.{number_between, number_at, number_in, number_or};

use policy_text::keys::{integer_at, value_at};
use toml::{Table, Value};

/// The number, if it is at least and at most these.
pub fn number_between(least: u32, most: u32, number: i64) -> Option<u32>
    ensures value { result ≡ number_between least most number }
    ensures range { IfSome result (λ n. (least ≤ n) × (n ≤ most)) }
{
    let number = u32::try_from(number).ok()?;
    if least <= number && number <= most {
        Some(number)
    } else {
        None
    }
}

/// The number at a key, if the key holds one that is at least and at most these.
pub fn number_at(table: &Table, key: &str, least: u32, most: u32) -> Option<u32>
    ensures value { result ≡ number_at key.now least most (table_view table.now) }
    ensures range { IfSome result (λ n. (least ≤ n) × (n ≤ most)) }
{
    number_between(least, most, integer_at(table, key)?)
}

// The number that a value is, if it is an integer of 0 to 2^32 - 1.
fn number_in(value: &Value) -> Option<u32>
    ensures { result ≡ number_in (view value.now) }
{
    number_between(0, u32::MAX, value.as_integer()?)
}

/// The number under a word, or where there is nothing that of the opening.
pub fn number_or(table: &Table, word: &str, opening: u32) -> Option<u32>
    ensures { result ≡ number_or opening (get_member word.now (table_view table.now)) }
{
    match value_at(table, word) {
        Some(value) => number_in(value),
        None => Some(opening),
    }
}
