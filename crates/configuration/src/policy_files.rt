//! Reads the file of a policy: a policy alone, or a whole configuration with its policy.
ghost use Rattle.std.specs.Prelude.{◌≡◌, ◌≢◌, ◌≤◌, IfOk, IfErr, Some, true, false, option_map, string_bytes};
ghost use Rattle.toml.specs.Data.{members_depth};
ghost use Rattle.toml.specs.Parse.{parse_document};
ghost use Rattle.toml.specs.Text.{IsDocumentText};
ghost use Rattle.toml.specs.Errors.{IsBlank};
ghost use Rattle.toml.specs.View.{table_view};
ghost use Rattle.policy_text.specs.Texts.{HasContent};
ghost use Rattle.configuration.specs.Configurations.{policy_members};
ghost use Rattle.configuration.specs.Details.{members_in};
ghost use Rattle.configuration.specs.PolicyFiles.{has_key, is_whole, SaysPolicy, HasFault, MayTakeMemory, IsPolicyText, IsPolicyTextFault, IsPolicyIn, IsPolicyFaultIn, IsPart, IsPartIn, alone_keys_sentence, is_unknown_alone, IsPolicySentenceIn};

use crate::details::{sentence_in, table_of, unknown_rule};
use crate::fault::{ConfigurationFault, PolicyKey};
use crate::known_keys::{Part, unknown_key};
use crate::reading::{configuration_in, configuration_of, policy_table, rest_policy, text_fault};
use community_core::Policy;
use policy_text::keys::value_at;
use policy_text::text_of;
use std::alloc::{AllocError, Global};
use toml::Table;

// Whether a key of the top level is there.
fn has_key(table: &Table, key: &str) -> bool
    ensures { result ≡ has_key key.now (table_view table.now) }
{
    value_at(table, key).is_some()
}

// Whether a table is of a whole configuration: it has a key that a policy has not.
#[tactic(auto, unfolding(crate::specs::PolicyFiles::is_whole))]
fn is_whole(table: &Table) -> bool
    ensures { result ≡ is_whole (table_view table.now) }
{
    has_key(table, "address") || has_key(table, "port") || has_key(table, "serve")
}

// The policy of a whole configuration's table.
fn whole_policy(alloc: Global, table: Table) -> Result<Policy, ConfigurationFault>
    ensures policy { IfOk result (SaysPolicy true (table_view table)) }
    ensures fault { IfErr result (λ e. e ≢ ConfigurationFault.Memory →
        HasFault true (table_view table) e) }
    ensures memory { IfErr result (λ e. e ≡ ConfigurationFault.Memory →
        MayTakeMemory true (table_view table)) }
{
    match configuration_of(alloc, table) {
        Ok(configuration) => Ok(configuration.policy),
        Err(fault) => Err(fault),
    }
}

// The policy that the table of a policy's file says.
fn policy_in_table(alloc: Global, table: Table) -> Result<Policy, ConfigurationFault>
    ensures policy { IfOk result (λ p.
        SaysPolicy (is_whole (table_view table)) (table_view table) p) }
    ensures fault { IfErr result (λ e. e ≢ ConfigurationFault.Memory →
        HasFault (is_whole (table_view table)) (table_view table) e) }
    ensures memory { IfErr result (λ e. e ≡ ConfigurationFault.Memory →
        MayTakeMemory (is_whole (table_view table)) (table_view table)) }
{
    if is_whole(&table) {
        whole_policy(alloc, table)
    } else {
        rest_policy(alloc, &table)
    }
}

// The policy that the text of a policy's file says.
fn policy_in_text(alloc: Global, text: &str) -> Result<Policy, ConfigurationFault>
    ensures policy { IfOk result (λ p. IsPolicyText text.now p) }
    ensures fault { IfErr result (λ e. e ≢ ConfigurationFault.Memory →
        IsPolicyTextFault text.now e) }
    ensures memory { IfErr result (λ e. e ≡ ConfigurationFault.Memory → ¬ IsBlank text.now) }
{
    match toml::table_from_str(alloc, text) {
        Ok(table) => policy_in_table(alloc, table),
        Err(error) => Err(text_fault(text, &error)),
    }
}

/// The policy that the octets of a file say: of a policy alone, that is a TOML document of `contexts`,
/// `community`, `group`, `access` and `family`, or of a whole configuration, which has a key beside them.
///
/// # Errors
///
/// The first fault of a whole configuration as [`configuration_in`] has it; of a policy alone that of its
/// keys, then of their values. `BadOctets` and `BadText` as for a configuration; `Memory` where a growth was
/// refused, which only a text of more than white space and comments may meet.
pub fn policy_file_in(alloc: Global, octets: &[u8]) -> Result<Policy, ConfigurationFault>
    ensures policy { IfOk result (λ p. IsPolicyIn octets.now p) }
    ensures fault { IfErr result (λ e. e ≢ ConfigurationFault.Memory →
        IsPolicyFaultIn octets.now e) }
    ensures memory { IfErr result (λ e. e ≡ ConfigurationFault.Memory → HasContent octets.now) }
{
    match text_of(octets) {
        Some(text) => policy_in_text(alloc, text),
        None => Err(ConfigurationFault::BadOctets),
    }
}

// The text of the policy of a configuration's table. There is none where there is no memory for it.
fn part_of_table(alloc: Global, table: Table) -> Result<String, AllocError>
    ensures written { IfOk result (λ text.
        IsDocumentText false (policy_members (table_view table)) (string_bytes text)) }
    ensures reads_back { IfOk result (λ text.
        members_depth (policy_members (table_view table)) ≤ 80
        → parse_document (string_bytes text) ≡ Some (policy_members (table_view table))) }
{
    match toml::table_to_string(alloc, &policy_table(table)) {
        Ok(text) => Ok(text),
        Err(_) => Err(AllocError),
    }
}

// The same of a configuration's octets. There is none either where they are no TOML document, which those of a
// configuration are.
fn part_of(alloc: Global, octets: &[u8]) -> Result<String, AllocError>
    ensures { IfOk result (λ text. IsPart octets.now (string_bytes text)) }
{
    match table_of(alloc, octets) {
        Ok(Some(table)) => part_of_table(alloc, table),
        Ok(None) | Err(_) => Err(AllocError),
    }
}

/// The policy of the configuration that the octets of a file say, as the text of a policy alone: a TOML
/// document of the values that the configuration has under the five keys of its policy. Nothing where the
/// octets say no configuration.
///
/// # Errors
/// There is no memory for it.
pub fn policy_part_in(alloc: Global, octets: &[u8]) -> Result<Option<String>, AllocError>
    ensures { IfOk result (λ part. IsPartIn octets.now (option_map string_bytes part)) }
{
    match configuration_in(alloc, octets) {
        Ok(_) => match part_of(alloc, octets) {
            Ok(part) => Ok(Some(part)),
            Err(error) => Err(error),
        },
        Err(ConfigurationFault::Memory) => Err(AllocError),
        Err(_) => Ok(None),
    }
}

// The sentence on the keys of a policy alone, where one is unknown.
fn alone_keys_sentence(alloc: Global, table: &Table) -> Result<String, AllocError>
    ensures { IfOk result (λ text. string_bytes text ≡ alone_keys_sentence (table_view table.now)) }
{
    let rule = unknown_rule(
        alloc,
        unknown_key(Part::Top, table),
        "its keys are to be contexts, community, group, access and family, and no others",
    )?;
    format!(in alloc; "top level: {rule}")
}

/// What an operator reads of a fault that the octets of a policy's file have, in one line without its end:
/// as [`sentence_in`] has it, but for an unknown key of a policy alone, which is to have five keys.
///
/// # Errors
/// `AllocError` where there is no memory for it, or to read the octets once more.
pub fn policy_sentence_in(
    alloc: Global,
    octets: &[u8],
    fault: ConfigurationFault,
) -> Result<String, AllocError>
    ensures { IfOk result (λ text. IsPolicySentenceIn octets.now fault (string_bytes text)) }
{
    let Some(table) = table_of(alloc, octets)? else {
        return sentence_in(alloc, octets, fault);
    };
    if is_unknown_alone(&table, fault) {
        return alone_keys_sentence(alloc, &table);
    }
    sentence_in(alloc, octets, fault)
}

// Whether a fault of a table is that of the keys of a policy alone, where one is unknown.
fn is_unknown_alone(table: &Table, fault: ConfigurationFault) -> bool
    ensures { result ≡ is_unknown_alone (table_view table.now) fault }
{
    match fault {
        ConfigurationFault::BadKeys(PolicyKey::Other) => !is_whole(table),
        _ => false,
    }
}
