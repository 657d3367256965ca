//! What an operator reads of a fault.
ghost use Rattle.std.specs.Prelude.{◌≡◌, IfOk, string_bytes};
ghost use Rattle.configuration.specs.Sentences.{row_count, row_sentence, table_key, key_rule, length_rule, field_rule, policy_sentence, port_rule, serve_sentence, keys_sentence, text_sentence, address_sentence, sentence};

use crate::fault::{ConfigurationFault, PolicyKey, PortKey, ServeKey};
use community_core::{PolicyFault, PolicyTable};
use std::alloc::{AllocError, Global};

/// The sentence where there was no memory for a configuration.
pub const NO_MEMORY: &str =
    "there was no memory to read the configuration; whether it is right is not known";

/// The number of a row, counted from 1.
pub fn counted(row: usize) -> usize
    ensures { result ≡ row_count row }
{
    row.saturating_add(1)
}

/// A row of a table, and what would be right there.
///
/// # Errors
/// `AllocError` where there is no memory for it.
pub fn row_sentence(
    alloc: Global,
    table: &str,
    row: usize,
    rule: &str,
) -> Result<String, AllocError>
    ensures { IfOk result (λ text. string_bytes text ≡ row_sentence table.now row rule.now) }
{
    let number = counted(row);
    format!(in alloc; "row {number} of {table}, counted from 1: {rule}")
}

/// A table as it stands in the text.
pub fn table_key(table: PolicyTable) -> &'static str
    ensures { result.now ≡ table_key table }
{
    match table {
        PolicyTable::Groups => "[[group]]",
        PolicyTable::Access => "[[access]]",
        PolicyTable::Families => "[[family]]",
        PolicyTable::Contexts => "contexts",
        PolicyTable::Communities => "[[community]]",
    }
}

/// Which keys no earlier row may have. Contexts may be equal, so no fault is reported of one by this.
pub fn key_rule(table: PolicyTable) -> &'static str
    ensures { result.now ≡ key_rule table }
{
    match table {
        PolicyTable::Groups => "no earlier row may have its model and name",
        PolicyTable::Access => "no earlier row may have its group, prefix, model and level",
        PolicyTable::Families => "no earlier row may have its view and subtree",
        PolicyTable::Contexts => "any context may stand twice",
        PolicyTable::Communities => "no earlier row may have its index",
    }
}

/// How long a row's texts may be.
pub fn length_rule(table: PolicyTable) -> &'static str
    ensures { result.now ≡ length_rule table }
{
    match table {
        PolicyTable::Groups => "name and group are to have 1 to 32 octets",
        PolicyTable::Access =>
            "group is to have 1 to 32 octets, prefix, read, write and notify at most 32",
        PolicyTable::Families =>
            "view is to have 1 to 32 octets, mask at most 32 digits (16 octets), and the octets of view and the numbers of subtree are to be at most 114 together",
        PolicyTable::Contexts => "a context is to have at most 32 octets",
        PolicyTable::Communities =>
            "index and security are to have 1 to 32 octets, name 1 to 255, context at most 32",
    }
}

/// Which keys and values a row is to have.
pub fn field_rule(table: PolicyTable) -> &'static str
    ensures { result.now ≡ field_rule table }
{
    match table {
        PolicyTable::Groups =>
            "it is to be a table whose keys are model (1 to 2147483647), name and group (strings of ASCII letters and digits, -, _ and .), and no others",
        PolicyTable::Access =>
            "it is to be a table whose keys are group, prefix, read, write and notify (strings of ASCII letters and digits, -, _ and .), model (0 to 2147483647), level (1 to 3) and exact (true or false), and no others",
        PolicyTable::Families =>
            "it is to be a table whose keys are view (a string of ASCII letters and digits, -, _ and .), subtree (a string of 1 to 128 numbers below 4294967296 with dots between them and no leading zeros), mask (a string of hexadecimal digits, two an octet) and included (true or false), and no others",
        PolicyTable::Contexts =>
            "a context is to be a string of ASCII letters and digits, -, _ and .",
        PolicyTable::Communities =>
            "it is to be a table whose keys are index, security and context (strings of ASCII letters and digits, -, _ and .) and name (a string), and no others",
    }
}

/// The sentence on a policy's fault by itself.
///
/// # Errors
/// `AllocError` where there is no memory for it.
pub fn policy_sentence(alloc: Global, fault: PolicyFault) -> Result<String, AllocError>
    ensures { IfOk result (λ text. string_bytes text ≡ policy_sentence fault) }
{
    match fault {
        PolicyFault::Memory => String::from_str(alloc, NO_MEMORY),
        PolicyFault::Duplicate(table, row) => row_sentence(
            alloc,
            table_key(table),
            row,
            key_rule(table),
        ),
        PolicyFault::BadLength(table, row) => row_sentence(
            alloc,
            table_key(table),
            row,
            length_rule(table),
        ),
        PolicyFault::BadField(table, row) => row_sentence(
            alloc,
            table_key(table),
            row,
            field_rule(table),
        ),
    }
}

/// What the key of a port is to hold.
pub fn port_rule(key: PortKey) -> &'static str
    ensures { result.now ≡ port_rule key }
{
    match key {
        PortKey::Ifindex => "ifindex is to be an integer of 1 to 2147483647",
        PortKey::Speed => "speed is to be an integer, 10, 100 or 1000 (Mb/s)",
        PortKey::Full => "full is to be true or false",
        PortKey::Listen =>
            "listen, where it stands, is to be a string of an address and a port, as \"127.0.0.1:161\"",
        PortKey::Peer =>
            "peer, where it stands, is to be a string of an address and a port, as \"127.0.0.1:161\"",
        PortKey::Other =>
            "its keys are to be ifindex, speed and full, and may be listen and peer, and no others",
    }
}

/// The sentence on `serve`.
pub fn serve_sentence(key: ServeKey) -> &'static str
    ensures { result.now ≡ serve_sentence key }
{
    match key {
        ServeKey::Serve => "table serve: it is to be one table",
        ServeKey::Snmp =>
            "table serve: snmp is to be a string of an address and a port, as \"127.0.0.1:161\"",
        ServeKey::Workers => "table serve: workers is to be an integer of 1 to 8",
        ServeKey::Rounds => "table serve: rounds is to be an integer of 1 to 1000000",
        ServeKey::Other =>
            "table serve: its keys are to be snmp, workers and rounds, and no others",
    }
}

/// The sentence on the keys at the top.
pub fn keys_sentence(key: PolicyKey) -> &'static str
    ensures { result.now ≡ keys_sentence key }
{
    match key {
        PolicyKey::Contexts => "top level: contexts is to be an array of strings",
        PolicyKey::Community => "top level: community is to be an array of tables",
        PolicyKey::Group => "top level: group is to be an array of tables",
        PolicyKey::Access => "top level: access is to be an array of tables",
        PolicyKey::Family => "top level: family is to be an array of tables",
        PolicyKey::Other =>
            "top level: its keys are to be address, port, contexts, community, group, access and \
             family, and may be serve, and no others",
    }
}

/// The sentence on a text that is no TOML document, by one of its lines, counted from 1.
///
/// # Errors
/// `AllocError` where there is no memory for it.
pub fn text_sentence(alloc: Global, line: usize) -> Result<String, AllocError>
    ensures { IfOk result (λ text. string_bytes text ≡ text_sentence line) }
{
    format!(in alloc;
        "line {line} of the text, counted from 1: it is to be TOML, in which no key stands twice"
    )
}

/// The sentence on the bridge's address.
const ADDRESS_SENTENCE: &str =
    "top level: address is to be a string of 12 hexadecimal digits, and no group address: \
     its first octet is even";

/// What an operator reads of a fault, in one line without its end: the line of the text, the top
/// level, or the table and the row, each counted from 1, and what would be right there; of the
/// configuration's own keys, for the first that is wrong.
///
/// # Errors
/// `AllocError` where there is no memory for it.
pub fn sentence(alloc: Global, fault: ConfigurationFault) -> Result<String, AllocError>
    ensures { IfOk result (λ text. string_bytes text ≡ sentence fault) }
{
    match fault {
        ConfigurationFault::Memory => String::from_str(alloc, NO_MEMORY),
        ConfigurationFault::BadOctets => String::from_str(alloc, "the text: it is to be in UTF-8"),
        ConfigurationFault::BadText(line) => text_sentence(alloc, line),
        ConfigurationFault::BadAddress => String::from_str(alloc, ADDRESS_SENTENCE),
        ConfigurationFault::BadPorts => String::from_str(
            alloc,
            "top level: port is to be an array of 1 to 32 tables",
        ),
        ConfigurationFault::BadPort(row, key) => row_sentence(
            alloc,
            "[[port]]",
            row,
            port_rule(key),
        ),
        ConfigurationFault::BadServe(key) => String::from_str(alloc, serve_sentence(key)),
        ConfigurationFault::BadKeys(key) => String::from_str(alloc, keys_sentence(key)),
        ConfigurationFault::Policy(fault) => policy_sentence(alloc, fault),
    }
}
