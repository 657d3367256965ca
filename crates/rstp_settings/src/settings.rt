//! The settings of a bridge as a finite map.
ghost use Rattle.std.specs.Prelude.{◌≡◌, ◌↔◌, ◌≤◌, ◌<◌, length, replicate, map, IsTrue};
ghost use Rattle.rstp_settings.specs.Table.{get, put, HasKey, IsInRange, opening, opening_port, without_migration_checks, without_migration_check};
ghost use Rattle.rstp_settings.specs.Values.{bridge_value, with_bridge_value, port_value, with_port_value};

use crate::copies::copied;
use crate::key::{BridgeKey, BridgeValues, Key, PortKey, PortValues};
use arrayvec::ArrayVec;
use std::marker::Model;

/// The most ports that a bridge has here.
pub const MAX_PORTS: usize = 32;

/// The settings of a bridge of at most `MAX_PORTS` ports. Each setting always has a value in its
/// range and on its steps.
pub struct Settings {
    bridge: BridgeValues,
    ports: ArrayVec<PortValues, MAX_PORTS>,
}

// By hand: who drops one then knows nothing of its parts.
impl Drop for Settings {
    fn drop(self) {
        let Settings {
            bridge: _bridge,
            ports: _ports,
        } = self;
    }
}

impl Model for Settings {
    ghost use Rattle.rstp_settings.specs.Table.{Table, IsValid};

    ghost Value = { Table };

    ghost view = { λ s. record { bridge = s.bridge; ports = s.ports.items } };

    ghost invariant = { λ s. IsValid (record { bridge = s.bridge; ports = s.ports.items }) };
}

// The settings of so many ports at the opening (17.14).
fn opening_values(ports: usize) -> ArrayVec<PortValues, MAX_PORTS>
    requires { ports ≤ MAX_PORTS }
    ensures { result.items ≡ replicate ports opening_port }
{
    let mut values = ArrayVec::new();
    for _ in 0..ports {
        values.push(PortValues {
            priority: 128,
            enable: 1,
            cost: 0,
            migrate: 0,
            edge: 2,
            point_to_point: 2,
        });
    }
    values
}

// Puts each protocol migration check to 0 (17.19.13).
fn spend_all(values: &mut [PortValues])
    ensures { values.new ≡ map without_migration_check values.old }
{
    for value in values.iter_mut() {
        value.migrate = 0;
    }
}

impl BridgeValues {
    fn get(&self, key: BridgeKey) -> u32
        ensures { result ≡ bridge_value self.now key }
    {
        match key {
            BridgeKey::Priority => self.priority,
            BridgeKey::MaxAge => self.max_age,
            BridgeKey::Hello => self.hello,
            BridgeKey::ForwardDelay => self.forward_delay,
            BridgeKey::Version => self.version,
            BridgeKey::HoldCount => self.hold_count,
            BridgeKey::Aging => self.aging,
        }
    }

    fn put(&mut self, key: BridgeKey, value: u32)
        ensures { self.new ≡ with_bridge_value self.old key value }
    {
        match key {
            BridgeKey::Priority => self.priority = value,
            BridgeKey::MaxAge => self.max_age = value,
            BridgeKey::Hello => self.hello = value,
            BridgeKey::ForwardDelay => self.forward_delay = value,
            BridgeKey::Version => self.version = value,
            BridgeKey::HoldCount => self.hold_count = value,
            BridgeKey::Aging => self.aging = value,
        }
    }
}

impl PortValues {
    fn get(&self, key: PortKey) -> u32
        ensures { result ≡ port_value self.now key }
    {
        match key {
            PortKey::Priority => self.priority,
            PortKey::Enable => self.enable,
            PortKey::Cost => self.cost,
            PortKey::Migrate => self.migrate,
            PortKey::Edge => self.edge,
            PortKey::PointToPoint => self.point_to_point,
        }
    }

    fn put(&mut self, key: PortKey, value: u32)
        ensures { self.new ≡ with_port_value self.old key value }
    {
        match key {
            PortKey::Priority => self.priority = value,
            PortKey::Enable => self.enable = value,
            PortKey::Cost => self.cost = value,
            PortKey::Migrate => self.migrate = value,
            PortKey::Edge => self.edge = value,
            PortKey::PointToPoint => self.point_to_point = value,
        }
    }
}

impl Settings {
    /// The opening settings of a bridge of so many ports.
    pub fn new(ports: usize) -> Self
        requires { ports ≤ MAX_PORTS }
        ensures { result ≡ opening ports }
    {
        Settings {
            bridge: BridgeValues {
                priority: 32768,
                max_age: 2000,
                hello: 200,
                forward_delay: 1500,
                version: 2,
                hold_count: 6,
                aging: 300,
            },
            ports: opening_values(ports),
        }
    }

    /// The same settings, for the copy of a bridge that is compared with it or restored from. It
    /// takes no memory.
    pub fn copy(&self) -> Self
        ensures { result ≡ self.now }
    {
        Settings {
            bridge: self.bridge,
            ports: copied(self.ports.as_slice()),
        }
    }

    /// Whether the settings are equal, for whether a Set changed anything.
    pub fn is_same(&self, other: &Settings) -> bool
        ensures { IsTrue result ↔ (self.now ≡ other.now) }
    {
        self.bridge == other.bridge && self.ports.as_slice() == other.ports.as_slice()
    }

    /// Puts each protocol migration check to 0, and changes no other setting.
    pub fn spend(&mut self)
        ensures spent { self.new ≡ without_migration_checks self.old }
        ensures ports { length self.new.ports ≡ length self.old.ports }
    {
        spend_all(self.ports.as_mut_slice());
    }

    /// The number of ports.
    pub fn ports(&self) -> usize
        ensures count { result ≡ length self.now.ports }
        ensures few { result ≤ MAX_PORTS }
    {
        self.ports.as_slice().len()
    }

    /// The value of a setting that there is, in the unit of its key.
    pub fn get(&self, key: Key) -> u32
        requires { HasKey self.now key }
        ensures value { result ≡ get self.now key }
        ensures in_range { IsInRange key result }
    {
        match key {
            Key::Bridge(key) => self.bridge.get(key),
            Key::Port(port, key) => self.ports[port as usize - 1].get(key),
        }
    }

    /// Gives a setting that there is a value in its range, and answers the one before.
    pub fn put(&mut self, key: Key, value: u32) -> u32
        requires key { HasKey self.old key }
        requires value { IsInRange key value }
        ensures before { result ≡ get self.old key }
        ensures after { self.new ≡ put self.old key value }
        ensures ports { length self.new.ports ≡ length self.old.ports }
    {
        let before = self.get(key);
        match key {
            Key::Bridge(key) => self.bridge.put(key, value),
            Key::Port(port, key) => self.ports[port as usize - 1].put(key, value),
        }
        before
    }
}
