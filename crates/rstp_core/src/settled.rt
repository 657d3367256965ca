//! What is kept of the settings when they are settled.
ghost use Rattle.std.specs.Prelude.{◌≡◌, ◌↔◌, length, map, IsTrue};
ghost use Rattle.rstp_settings.specs.Table.{IsPortOf};
ghost use Rattle.rstp_rules.specs.Lines.{AreTimers, settled_port_of};
ghost use Rattle.rstp_core.specs.Settled.{settled_of, settled_port};

use arrayvec::ArrayVec;
use rstp_rules::lines;
use rstp_rules::settled::{SettledPort, Timers};
use rstp_settings::copies::copied;
use rstp_settings::key::{BridgeKey, Key};
use rstp_settings::settings::{MAX_PORTS, Settings};
use std::marker::Model;

/// What is kept of the settings when they are settled: the version, the three times, and for each
/// port whether it is enabled and whether it is set to be at the edge. The next settling finds by
/// it what has changed.
#[derive(Drop)]
pub struct Settled {
    version: u32,
    timers: Timers,
    ports: ArrayVec<SettledPort, MAX_PORTS>,
}

impl Model for Settled {
    ghost use Rattle.rstp_rules.specs.Lines.{AreTimers};
    ghost use Rattle.rstp_core.specs.Settled.{SettledValues};

    ghost Value = { SettledValues };

    ghost view = { λ s. record { version = s.version; timers = s.timers; ports = s.ports.items } };

    ghost invariant = { λ s. AreTimers s.timers };
}

// What is kept of each port.
fn settled_ports(settings: &Settings) -> ArrayVec<SettledPort, MAX_PORTS>
    ensures { result.items ≡ map settled_port_of settings.now.ports }
{
    let mut ports = ArrayVec::new();
    for i in 0..settings.ports() {
        let port = i as u16 + 1;
        ports.push(SettledPort {
            enabled: lines::is_enabled(settings, port),
            edge: lines::is_set_edge(settings, port),
        });
    }
    ports
}

impl Settled {
    /// What is kept of these settings.
    pub fn of(settings: &Settings) -> Self
        ensures value { result ≡ settled_of settings.now }
        ensures count { length result.ports ≡ length settings.now.ports }
    {
        Settled {
            version: settings.get(Key::Bridge(BridgeKey::Version)),
            timers: lines::timers(settings),
            ports: settled_ports(settings),
        }
    }

    /// The same values. It takes no memory.
    pub fn copy(&self) -> Self
        ensures { result ≡ self.now }
    {
        Settled {
            version: self.version,
            timers: self.timers,
            ports: copied(self.ports.as_slice()),
        }
    }

    /// Whether the values are equal. It takes no memory.
    pub fn is_same(&self, other: &Settled) -> bool
        ensures { IsTrue result ↔ (self.now ≡ other.now) }
    {
        self.version == other.version
            && self.timers == other.timers
            && self.ports.as_slice() == other.ports.as_slice()
    }

    /// The version setting as it was settled.
    pub fn version(&self) -> u32
        ensures { result ≡ self.now.version }
    {
        self.version
    }

    /// The three times, in 1/100 s.
    pub fn timers(&self) -> Timers
        ensures value { result ≡ self.now.timers }
        ensures range { AreTimers result }
    {
        self.timers
    }

    /// What is kept of port `port`.
    pub fn port(&self, port: u16) -> SettledPort
        requires { IsPortOf (length self.now.ports) port }
        ensures { result ≡ settled_port self.now port }
    {
        self.ports[port as usize - 1]
    }
}
