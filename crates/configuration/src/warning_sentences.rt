//! What an operator reads of a warning.
ghost use Rattle.std.specs.Prelude.{◌≡◌, IfOk, string_bytes};
ghost use Rattle.configuration.specs.WarningSentences.{row_rule, other_rule, port_rule, port_sentence, warning_sentence};

use crate::sentences::{counted, row_sentence, table_key};
use crate::warning::{PortWarning, RowWarning, Warning};
use std::alloc::{AllocError, Global};

// What would be right in a row of a policy, and what comes of it as it is.
fn row_rule(warning: RowWarning) -> &'static str
    ensures { result.now ≡ row_rule warning }
{
    match warning {
        RowWarning::UnknownContext =>
            "context is to be empty or one of contexts: no request of this community is answered",
        RowWarning::NoGroup =>
            "security is to be the name in a row of [[group]] with model 2: this community may read and write nothing",
        RowWarning::GroupModel => "model is to be 2, SNMPv2c: no request has another",
        RowWarning::NoAccess =>
            "group is to be that of a row of [[access]]: who is in it may read and write nothing",
        RowWarning::AccessModel => "model is to be 2, SNMPv2c, or 0, any: no request has another",
        RowWarning::AccessLevel => "level is to be 1, that of SNMPv2c: no request has a higher one",
        RowWarning::NoMember => "group is to be that of a row of [[group]]: nobody is in it",
        RowWarning::NoReadFamily =>
            "read is to be empty or the view of a row of [[family]]: nothing can be read by it",
        RowWarning::NoWriteFamily =>
            "write is to be empty or the view of a row of [[family]]: nothing can be written by it",
        RowWarning::UnusedView =>
            "view is to be read, write or notify of a row of [[access]]: nobody is given this view",
    }
}

// That a key is to differ from that of a row above, and what comes of it where it does not.
fn other_rule(alloc: Global, key: &str, above: usize, why: &str) -> Result<String, AllocError>
    ensures { IfOk result (λ text. string_bytes text ≡ other_rule key.now above why.now) }
{
    let number = counted(above);
    format!(in alloc; "{key} is to be another than that of row {number}: {why}")
}

// What would be right of a port, and what comes of it as it is.
fn port_rule(alloc: Global, warning: PortWarning) -> Result<String, AllocError>
    ensures { IfOk result (λ text. string_bytes text ≡ port_rule warning) }
{
    match warning {
        PortWarning::SameIfindex(above) => other_rule(
            alloc,
            "ifindex",
            above,
            "both ports show one interface",
        ),
        PortWarning::SameListen(above) => other_rule(
            alloc,
            "listen",
            above,
            "one address takes the frames of one port",
        ),
        PortWarning::SamePeer(above) => other_rule(
            alloc,
            "peer",
            above,
            "the frames of both ports go to one address",
        ),
        PortWarning::ListenIsSnmp => String::from_str(
            alloc,
            "listen is to be another than snmp of table serve: one address takes frames or requests",
        ),
        PortWarning::PeerPortZero => String::from_str(
            alloc,
            "peer is to have a port number of 1 to 65535: nothing can be sent to 0",
        ),
    }
}

// The sentence on the port of a number.
fn port_sentence(alloc: Global, warning: PortWarning, n: usize) -> Result<String, AllocError>
    ensures { IfOk result (λ text. string_bytes text ≡ port_sentence warning n) }
{
    let rule = port_rule(alloc, warning)?;
    row_sentence(alloc, "[[port]]", n, rule.as_str())
}

/// What an operator reads of a warning, in one line without its end: the top level, or the table and
/// the row, counted from 1; what would be right there; and what comes of it as it is. It has no text of the
/// policy.
///
/// # Errors
/// `AllocError` where there is no memory for it.
pub fn warning_sentence(alloc: Global, warning: Warning) -> Result<String, AllocError>
    ensures { IfOk result (λ text. string_bytes text ≡ warning_sentence warning) }
{
    match warning {
        Warning::NoCommunity => String::from_str(
            alloc,
            "top level: community is to have a row for each community that may ask: no request is answered",
        ),
        Warning::Row(warning, n) => row_sentence(
            alloc,
            table_key(warning.table()),
            n,
            row_rule(warning),
        ),
        Warning::Port(warning, n) => port_sentence(alloc, warning, n),
    }
}
