//! Why a configuration makes no bridge.
ghost use Rattle.std.specs.Prelude.{◌≡◌};
ghost use Rattle.std.specs.List.{list_all};
ghost use Rattle.rstp_settings.specs.Config.{is_speed};
ghost use Rattle.bridge_core.specs.Opening.{fault_of};

use frame_core::Mac;
use rstp_core::{MAX_PORTS, PortConfig};
use thiserror::Error;

/// Why a configuration makes no bridge.
#[derive(Clone, Copy, Debug, PartialEq, Eq, Error)]
pub enum BridgeFault {
    /// No port, or more than 32.
    #[error("a bridge has 1 to 32 ports")]
    BadPorts,
    /// The bridge address is a group address.
    #[error("the bridge address is a group address")]
    BadAddress,
    /// Some speed is none of 10, 100 and 1000 Mb/s.
    #[error("the speed of a port is 10, 100 or 1000")]
    BadSpeed,
}

fn are_speeds(ports: &[PortConfig]) -> bool
    ensures { result ≡ list_all (λ p. is_speed p.speed) ports.now }
{
    ports.iter().all(|port| port.speed == 10 || port.speed == 100 || port.speed == 1_000)
}

/// The first fault of a configuration.
pub fn find_fault(address: Mac, ports: &[PortConfig]) -> Option<BridgeFault>
    ensures { result ≡ fault_of address ports.now }
{
    if ports.is_empty() || ports.len() > MAX_PORTS {
        Some(BridgeFault::BadPorts)
    } else if address.is_group() {
        Some(BridgeFault::BadAddress)
    } else if !are_speeds(ports) {
        Some(BridgeFault::BadSpeed)
    } else {
        None
    }
}
