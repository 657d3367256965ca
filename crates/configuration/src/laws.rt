//! Laws of configurations. Each holds of all tables, and its function does nothing.
ghost use Rattle.std.specs.Prelude.{◌≡◌};
ghost use Rattle.toml.specs.Data.{Members};
ghost use Rattle.configuration.specs.declared.configuration.Configuration.{Configuration};
ghost use Rattle.configuration.specs.declared.fault.ConfigurationFault.{ConfigurationFault};
ghost use Rattle.configuration.specs.Configurations.{IsConfiguration, IsFault};
ghost use Rattle.configuration.specs.Bounds.{IsWithinBounds};

use crate::configuration::{Configuration, MAX_ROUNDS, MAX_WORKERS};
use crate::fault::ConfigurationFault;
use rstp_settings::config::MAX_IFINDEX;

/// A table that says a configuration has no fault, so none that says one is refused but for want of
/// memory.
pub fn no_fault_in_a_configuration()
    ensures { (ms : Members) (c : Configuration) (e : ConfigurationFault) → IsConfiguration ms c →
        ¬ IsFault ms e }
{}

/// A configuration is one that a bridge can have: its address is no group address (IEEE 802.3,
/// 3.2.3), and it has 1 to 32 ports, each of 10, 100 or 1000 Mb/s.
pub fn configurations_are_within_bounds()
    ensures { (ms : Members) (c : Configuration) → IsConfiguration ms c → IsWithinBounds c }
{}

/// The limits of a configuration: InterfaceIndex (1..2147483647) of RFC 2863, and how many threads
/// and rounds may serve.
pub fn limits()
    ensures ifindex { MAX_IFINDEX ≡ 2147483647 }
    ensures workers { MAX_WORKERS ≡ 8 }
    ensures rounds { MAX_ROUNDS ≡ 1000000 }
{}
