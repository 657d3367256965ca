//! The keys of a policy, beside those that a configuration has of its own.
ghost use Rattle.std.specs.Prelude.{◌≡◌, IfOk, IfErr};
ghost use Rattle.toml.specs.View.{table_view};
ghost use Rattle.configuration.specs.PolicyKeys.{HasKeys, IsKeysFault};

use crate::fault::PolicyKey;
use policy_text::keys::{array_at, key_count};
use toml::Table;

/// Whether a table has exactly the keys of a policy, each an array.
///
/// # Errors
///
/// The first of them that is missing or no array, else `Other`.
pub fn check_policy_keys(table: &Table) -> Result<(), PolicyKey>
    ensures right { IfOk result (λ _. HasKeys (table_view table.now)) }
    ensures fault { IfErr result (λ key. IsKeysFault (table_view table.now) key) }
{
    array_at(table, "contexts").ok_or(PolicyKey::Contexts)?;
    array_at(table, "community").ok_or(PolicyKey::Community)?;
    array_at(table, "group").ok_or(PolicyKey::Group)?;
    array_at(table, "access").ok_or(PolicyKey::Access)?;
    array_at(table, "family").ok_or(PolicyKey::Family)?;
    if key_count(table) != 5 {
        return Err(PolicyKey::Other);
    }
    Ok(())
}
