//! Numbers in a table.
ghost use Rattle.std.specs.Prelude.{◌≡◌, ◌≤◌, IfSome};
ghost use Rattle.toml.specs.View.{table_view};
ghost use Rattle.configuration.specs.Numbers.{number_between, number_at};

use policy_text::keys::integer_at;
use toml::Table;

// The number, if it is at least and at most these.
fn number_between(least: u32, most: u32, number: i64) -> Option<u32>
    ensures value { result ≡ number_between least most number }
    ensures range { IfSome result (λ n. (least ≤ n) × (n ≤ most)) }
{
    let number = u32::try_from(number).ok()?;
    if least <= number && number <= most {
        Some(number)
    } else {
        None
    }
}

/// The number at a key, if the key holds one that is at least and at most these.
pub fn number_at(table: &Table, key: &str, least: u32, most: u32) -> Option<u32>
    ensures value { result ≡ number_at key.now least most (table_view table.now) }
    ensures range { IfSome result (λ n. (least ≤ n) × (n ≤ most)) }
{
    number_between(least, most, integer_at(table, key)?)
}
