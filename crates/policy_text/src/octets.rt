//! Reads a policy from octets.
ghost use Rattle.std.specs.Prelude.{◌≡◌, IfOk, OnErr, option_map};
ghost use Rattle.toml.specs.Errors.{IsBlank};
ghost use Rattle.toml.specs.Parse.{parse_document};
ghost use Rattle.toml.specs.View.{table_view};
ghost use Rattle.policy_text.specs.Stated.{policy_of_members};
ghost use Rattle.policy_text.specs.Policies.{TakesMemory};
ghost use Rattle.policy_text.specs.Texts.{text_of, HasContent, policy_in};

use crate::policies::policy_of;
use community_core::{Policy, PolicyFault};
use std::alloc::{AllocError, Global};
use toml::Table;

/// The text that octets are: themselves, where they are UTF-8 (RFC 3629, section 3).
pub fn text_of(octets: &[u8]) -> Option<&str>
    ensures { option_map (λ text. text.now) result ≡ text_of octets.now }
{
    match std::str::from_utf8(octets) {
        Ok(text) => Some(text),
        Err(_) => None,
    }
}

// The table that a text is. A blank text takes no memory.
fn table_of(alloc: Global, text: &str) -> Result<Option<Table>, AllocError>
    ensures table { IfOk result (λ table. option_map table_view table ≡ parse_document text.now) }
    ensures memory { OnErr result (¬ IsBlank text.now) }
{
    match toml::table_from_str(alloc, text) {
        Ok(table) => Ok(Some(table)),
        Err(error) => {
            if error.is_memory() {
                Err(AllocError)
            } else {
                Ok(None)
            }
        }
    }
}

// The policy that a table says, if it says one.
fn policy_stated(alloc: Global, table: &Table) -> Result<Option<Policy>, AllocError>
    ensures policy { IfOk result (λ policy. policy ≡ policy_of_members (table_view table.now)) }
    ensures memory { OnErr result (TakesMemory (table_view table.now)) }
{
    match policy_of(alloc, table) {
        Ok(policy) => Ok(Some(policy)),
        Err(PolicyFault::Memory) => Err(AllocError),
        Err(_) => Ok(None),
    }
}

/// The policy that octets are: UTF-8, and a TOML document, which says a policy as [`policy_of`]
/// reads it. `None` for any other octets.
///
/// # Errors
/// `AllocError` where there is no memory, which only octets that are UTF-8, and more than white
/// space and comments, take.
#[tactic(auto, unfolding(crate::specs::Texts::policy_in))]
pub fn policy_in(alloc: Global, octets: &[u8]) -> Result<Option<Policy>, AllocError>
    ensures policy { IfOk result (λ policy. policy ≡ policy_in octets.now) }
    ensures memory { OnErr result (HasContent octets.now) }
{
    let Some(text) = text_of(octets) else {
        return Ok(None);
    };
    match table_of(alloc, text)? {
        Some(table) => policy_stated(alloc, &table),
        None => Ok(None),
    }
}
