//! Why a configuration is refused.
ghost use Rattle.std.specs.Prelude.{◌≡◌};
ghost use Rattle.configuration.specs.Faults.{of_policy};

use community_core::PolicyFault;
use thiserror::Error;

/// A key of a port's table. The keys are read in this order.
#[derive(Clone, Copy, Debug, PartialEq, Eq)]
pub enum PortKey {
    /// `ifindex`, an integer.
    Ifindex,
    /// `speed`, an integer.
    Speed,
    /// `full`, a boolean.
    Full,
    /// `listen`, a string, which may be missing.
    Listen,
    /// `peer`, a string, which may be missing.
    Peer,
    /// Any other key; there is to be none.
    Other,
}

/// A key of the table that says how to serve. The keys are read in this order.
#[derive(Clone, Copy, Debug, PartialEq, Eq)]
pub enum ServeKey {
    /// `serve` itself, a table.
    Serve,
    /// `snmp`, a string.
    Snmp,
    /// `workers`, an integer.
    Workers,
    /// `rounds`, an integer.
    Rounds,
    /// Any other key; there is to be none.
    Other,
}

/// A key of a policy. The keys are read in this order.
#[derive(Clone, Copy, Debug, PartialEq, Eq)]
pub enum PolicyKey {
    /// `contexts`, an array.
    Contexts,
    /// `community`, an array.
    Community,
    /// `group`, an array.
    Group,
    /// `access`, an array.
    Access,
    /// `family`, an array.
    Family,
    /// Any other key; there is to be none.
    Other,
}

/// Why a configuration is refused: its first fault, in the order of the cases from `BadOctets` on,
/// and of a table the first key that is wrong or missing.
///
/// The numbers of rows, of `BadPort` and of the faults of a policy, count from 0, and so do the
/// texts of `Display`; the sentences of [`sentence`](crate::sentence) count the same rows from 1.
#[derive(Clone, Copy, Debug, PartialEq, Eq, Error)]
pub enum ConfigurationFault {
    /// A growth was refused, which says nothing of the configuration.
    #[error("no memory for the configuration")]
    Memory,
    /// The octets are no UTF-8 (RFC 3629).
    #[error("the octets are no UTF-8")]
    BadOctets,
    /// The text is no TOML document. This is the number of a line of it, counted from 1: the one at
    /// which TOML's reader stopped.
    #[error("the text is no TOML document, by its line {0}")]
    BadText(usize),
    /// `address` is not 12 hexadecimal digits in a string, or is a group address.
    #[error("`address` is no address of a bridge")]
    BadAddress,
    /// `port` is no array of tables, or not one of 1 to 32.
    #[error("`port` is no array of 1 to 32 tables")]
    BadPorts,
    /// The element of `port` of this number, counted from 0, is the first that is no port, by this
    /// key.
    #[error("element {0} of `port` is no port")]
    BadPort(usize, PortKey),
    /// `serve` is there and is no table of `snmp`, `workers` and `rounds`, by this key.
    #[error("`serve` does not say how to serve")]
    BadServe(ServeKey),
    /// The rest has not exactly the keys `contexts`, `community`, `group`, `access` and `family`,
    /// each an array: this is wrong.
    #[error("the rest of the keys are not those of a policy")]
    BadKeys(PolicyKey),
    /// The rest has the keys of a policy and is none, and this is its first fault, of a row counted
    /// from 0.
    #[error("{0}")]
    Policy(PolicyFault),
}

impl From<PolicyFault> for ConfigurationFault {
    ghost from_gives = { λ fault e. e ≡ of_policy fault };

    fn from(fault: PolicyFault) -> ConfigurationFault {
        match fault {
            PolicyFault::Memory => ConfigurationFault::Memory,
            fault => ConfigurationFault::Policy(fault),
        }
    }
}
