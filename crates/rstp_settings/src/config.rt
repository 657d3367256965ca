//! What is configured of a bridge and its ports: address, interface number, speed, duplex; and what
//! a port's settings mean by it (IEEE 802.1D-2004 6.4.3, 7.12.5, 17.14; RFC 2863).
ghost use Rattle.std.specs.Prelude.{◌≡◌, ◌≤◌};
ghost use Rattle.rstp_settings.specs.Config.{default_cost, cost_in_use, is_point_to_point};

use crate::key::{POINT_TO_POINT_AUTO, POINT_TO_POINT_TRUE};
use crate::settings::MAX_PORTS;
use arrayvec::ArrayVec;
use frame_core::Mac;
use std::marker::Model;

/// The greatest interface number (RFC 2863, InterfaceIndex).
pub const MAX_IFINDEX: u32 = 2147483647;

/// An interface number, 1 to [`MAX_IFINDEX`] (RFC 2863, InterfaceIndex).
#[derive(Clone, Copy, Debug, PartialEq, Eq)]
pub struct IfIndex {
    number: u32,
}

impl Model for IfIndex {
    ghost use Rattle.std.specs.Prelude.{ℕ, ◌≤◌};
    ghost use Rattle.rstp_settings.specs.declared.config.TheConstants.{MAX_IFINDEX};

    ghost Value = { ℕ };

    ghost view = { λ i. i.number };

    ghost invariant = { λ i. (1 ≤ i.number) × (i.number ≤ MAX_IFINDEX) };

    ghost inverse = { λ n. record { number = n } };
}

impl IfIndex {
    /// The interface number that a number of 1 to [`MAX_IFINDEX`] is.
    pub fn of(number: u32) -> IfIndex
        requires least { 1 ≤ number }
        requires most { number ≤ MAX_IFINDEX }
        ensures { result ≡ number }
    {
        IfIndex { number }
    }

    /// The number, 1 to [`MAX_IFINDEX`].
    pub fn number(self) -> u32
        ensures value { result ≡ self }
        ensures least { 1 ≤ result }
        ensures most { result ≤ MAX_IFINDEX }
    {
        self.number
    }
}

impl Default for IfIndex {
    /// The lowest interface number, 1.
    fn default() -> IfIndex
        ensures { result ≡ 1 }
    {
        IfIndex { number: 1 }
    }
}

/// What is configured of a port.
#[derive(Clone, Copy, Debug, Default, PartialEq, Eq)]
pub struct PortConfig {
    /// The interface number (RFC 2863 ifIndex).
    pub ifindex: IfIndex,
    /// The speed in Mb/s: 10, 100 or 1000.
    pub speed: u32,
    /// Whether the port is full duplex.
    pub full: bool,
}

/// What is configured of a bridge. Ports are numbered from 1, in the order of the list.
#[derive(Clone, Debug, Drop)]
pub struct BridgeConfig {
    /// The bridge address (IEEE 802.1D-2004 7.12.5).
    pub address: Mac,
    /// Its ports.
    pub ports: ArrayVec<PortConfig, MAX_PORTS>,
}

impl PortConfig {
    // The default path cost of the port's speed (17.14, Table 17-3).
    fn default_cost(&self) -> u32
        ensures { result ≡ default_cost self.now.speed }
    {
        match self.speed {
            10 => 2_000_000,
            100 => 200_000,
            _ => 20_000,
        }
    }

    /// The path cost in use (17.14), where `setting` is the cost setting: 0 asks for the default
    /// cost.
    pub fn cost_in_use(&self, setting: u32) -> u32
        ensures { result ≡ cost_in_use setting self.now.speed }
    {
        if setting == 0 {
            self.default_cost()
        } else {
            setting
        }
    }

    /// Whether the port's link is point to point, where `setting` is the setting of that name
    /// (6.4.3).
    pub fn is_point_to_point(&self, setting: u32) -> bool
        ensures { result ≡ is_point_to_point setting self.now.full }
    {
        setting == POINT_TO_POINT_TRUE || setting == POINT_TO_POINT_AUTO && self.full
    }
}
