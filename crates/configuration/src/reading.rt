//! Reads a configuration.
ghost use Rattle.std.specs.Prelude.{◌≡◌, ◌≢◌, ◌⊎◌, ◌↔◌, IfOk, IfErr};
ghost use Rattle.toml.specs.Errors.{IsMemory, IsBlank, IsWithin};
ghost use Rattle.toml.specs.View.{table_view};
ghost use Rattle.policy_text.specs.Policies.{IsPolicy, TakesMemory as PolicyTakesMemory};
ghost use Rattle.policy_text.specs.Texts.{HasContent};
ghost use Rattle.configuration.specs.Lines.{IsBadText};
ghost use Rattle.configuration.specs.Configurations.{without, policy_members, IsRestFault, IsConfiguration, IsFault, TakesMemory, IsConfigurationText, IsTextFault, IsConfigurationIn, IsFaultIn};

use crate::address::address_of;
use crate::configuration::Configuration;
use crate::fault::ConfigurationFault;
use crate::lines::line_at;
use crate::policy_keys::check_policy_keys;
use crate::ports::ports_of;
use crate::serve::serve_of;
use community_core::Policy;
use policy_text::{policy_of, text_of};
use std::alloc::Global;
use toml::Table;

// The table without what is under a key.
fn without(mut table: Table, key: &str) -> Table
    ensures { table_view result ≡ without key.now (table_view table) }
{
    let _ = table.remove(key);
    table
}

/// What is left of a table for its policy.
pub(crate) fn policy_table(table: Table) -> Table
    ensures { table_view result ≡ policy_members (table_view table) }
{
    without(without(without(table, "address"), "port"), "serve")
}

/// The policy that the rest of a table says.
pub(crate) fn rest_policy(alloc: Global, table: &Table) -> Result<Policy, ConfigurationFault>
    ensures policy { IfOk result (λ p. IsPolicy (table_view table.now) p) }
    ensures fault { IfErr result (λ e. e ≢ ConfigurationFault.Memory →
        IsRestFault (table_view table.now) e) }
    ensures memory { IfErr result (λ e. e ≡ ConfigurationFault.Memory →
        PolicyTakesMemory (table_view table.now)) }
{
    if let Err(key) = check_policy_keys(table) {
        return Err(ConfigurationFault::BadKeys(key));
    }
    Ok(policy_of(alloc, table)?)
}

/// The configuration that a table says.
///
/// # Errors
///
/// The first fault, of `address`, then of `port`, then of `serve`, then of the keys of the rest,
/// which is the policy's table, then of their values; `Memory` where a growth was refused, which
/// comes only where `address`, `port` and `serve` are right and reading the policy takes memory.
pub fn configuration_of(alloc: Global, table: Table) -> Result<Configuration, ConfigurationFault>
    ensures configuration { IfOk result (λ c. IsConfiguration (table_view table) c) }
    ensures fault { IfErr result (λ e. e ≢ ConfigurationFault.Memory →
        IsFault (table_view table) e) }
    ensures memory { IfErr result (λ e. e ≡ ConfigurationFault.Memory →
        TakesMemory (table_view table)) }
{
    let address = address_of(&table).ok_or(ConfigurationFault::BadAddress)?;
    let ports = ports_of(&table)?;
    let serve = serve_of(&table)?;
    let policy = rest_policy(alloc, &policy_table(table))?;
    Ok(Configuration {
        address,
        ports,
        serve,
        policy,
    })
}

/// Why a text was not read as a TOML document.
pub(crate) fn text_fault(text: &str, error: &toml::de::Error) -> ConfigurationFault
    requires { IsWithin text.now error.now }
    ensures memory { IsMemory error.now → result ≡ ConfigurationFault.Memory }
    ensures text { ¬ IsMemory error.now → IsBadText text.now result }
{
    match error.span() {
        Some(span) => ConfigurationFault::BadText(line_at(text, span.start)),
        None => ConfigurationFault::Memory,
    }
}

/// The configuration that a TOML text says.
///
/// # Errors
///
/// `BadText`, with a line, where the text is no TOML document, else as [`configuration_of`] has it;
/// `Memory` where a growth was refused, which only a text of more than white space and comments may
/// meet.
pub fn configuration_of_text(alloc: Global, text: &str) -> Result<Configuration, ConfigurationFault>
    ensures configuration { IfOk result (λ c. IsConfigurationText text.now c) }
    ensures fault { IfErr result (λ e. e ≢ ConfigurationFault.Memory → IsTextFault text.now e) }
    ensures memory { IfErr result (λ e. e ≡ ConfigurationFault.Memory → ¬ IsBlank text.now) }
{
    match toml::table_from_str(alloc, text) {
        Ok(table) => configuration_of(alloc, table),
        Err(error) => Err(text_fault(text, &error)),
    }
}

/// The configuration that the octets of a file say.
///
/// # Errors
///
/// `BadOctets` where the octets are no UTF-8 (RFC 3629), which takes no memory, else as
/// [`configuration_of_text`] has it.
pub fn configuration_in(alloc: Global, octets: &[u8]) -> Result<Configuration, ConfigurationFault>
    ensures configuration { IfOk result (λ c. IsConfigurationIn octets.now c) }
    ensures fault { IfErr result (λ e. e ≢ ConfigurationFault.Memory → IsFaultIn octets.now e) }
    ensures memory { IfErr result (λ e. e ≡ ConfigurationFault.Memory →
        HasContent octets.now) }
{
    match text_of(octets) {
        Some(text) => configuration_of_text(alloc, text),
        None => Err(ConfigurationFault::BadOctets),
    }
}
