//! The spanning tree of a bridge, one event at a time (IEEE 802.1D-2004 clause 17).
ghost use Rattle.std.specs.Prelude.{◌≡◌, ◌↔◌, ◌≤◌, length, IsTrue};
ghost use Rattle.rstp_core.specs.Tree.{HasPort, port_at, config_at, rows_of, opening_port_of, opening_ports, opening_tree, Ends, Ticks, Arrives, Links, Settles};
ghost use Rattle.rstp_settings.specs.Table.{without_migration_checks};
ghost use Rattle.rstp_rules.specs.Lines.{AreTimers, times_in_force};

use crate::facts::BridgeFacts;
use crate::settled::Settled;
use crate::{events, loops};
use arrayvec::ArrayVec;
use frame_core::{Bpdu, BridgeId, Mac, PriorityVector, Times};
use rstp_rules::lines;
use rstp_rules::port::{Port, Role, State};
use rstp_rules::row::{Best, PortInEvent};
use rstp_rules::settled::Timers;
use rstp_settings::config::{BridgeConfig, PortConfig};
use rstp_settings::copies::copied;
use rstp_settings::settings::{MAX_PORTS, Settings};
use std::marker::Model;

/// What an event gives.
#[derive(Drop)]
pub struct Outcome {
    /// What each port sends, port by port.
    pub bpdus: ArrayVec<Option<Bpdu>, MAX_PORTS>,
    /// The numbers of the ports whose learned addresses go, rising.
    pub flushed: ArrayVec<u16, MAX_PORTS>,
}

// An event under way: the rows of all ports, and the times in force before it.
#[derive(Drop)]
struct Started {
    rows: ArrayVec<PortInEvent, MAX_PORTS>,
    was_times: Times,
}

/// The spanning tree of a bridge. Ports are numbered from 1. Settings have as many ports as the
/// bridge, and a change of settings is followed by `settle`.
pub struct Rstp {
    address: Mac,
    config: ArrayVec<PortConfig, MAX_PORTS>,
    ports: ArrayVec<Port, MAX_PORTS>,
    facts: BridgeFacts,
    settled: Settled,
}

// By hand: who drops one then knows nothing of its parts.
impl Drop for Rstp {
    fn drop(self) {
        let Rstp {
            address: _address,
            config: _config,
            ports: _ports,
            facts: _facts,
            settled: _settled,
        } = self;
    }
}

impl Model for Rstp {
    ghost use Rattle.rstp_core.specs.Tree.{Tree};
    ghost use Rattle.rstp_core.specs.TreeInside.{IsTree};

    ghost Value = { Tree };

    ghost view = { λ r. record {
      address = r.address;
      config = r.config.items;
      ports = r.ports.items;
      facts = r.facts;
      settled = r.settled;
    } };

    ghost invariant = { λ r. IsTree r.config.items r.ports.items r.settled };
}

// Port `port` at the opening: it holds the vector of a designated port under this bridge as root
// (17.19.21).
fn opening_port(own: BridgeId, times: Times, port: u16) -> Port
    requires { port ≤ MAX_PORTS }
    ensures { result ≡ opening_port_of own times port }
{
    let vector = PriorityVector {
        root: own,
        cost: 0,
        bridge: own,
        port: 256 * 128 + port,
    };
    Port::opening(vector, times)
}

// So many of them, from port 1 on.
fn opening_ports(own: BridgeId, times: Times, count: usize) -> ArrayVec<Port, MAX_PORTS>
    requires { count ≤ MAX_PORTS }
    ensures ports { result.items ≡ opening_ports own times count }
    ensures count { length result.items ≡ count }
{
    let mut ports = ArrayVec::new();
    for i in 0..count {
        ports.push(opening_port(own, times, i as u16 + 1));
    }
    ports
}

impl Rstp {
    /// The spanning tree of a bridge under the opening settings, with all its links down (17.18,
    /// 17.24).
    pub fn new(config: &BridgeConfig) -> Self
        ensures tree { result ≡ opening_tree config.now.address config.now.ports.items }
        ensures ports { length result.ports ≡ length config.now.ports.items }
    {
        let ports = config.ports.as_slice();
        let settings = Settings::new(ports.len());
        let own = lines::own_bridge_id(&settings, config.address);
        let times = lines::times_set(lines::timers(&settings));
        Rstp {
            address: config.address,
            config: copied(ports),
            ports: opening_ports(own, times, ports.len()),
            facts: BridgeFacts {
                root: Best::own(own),
                times,
                topology_changes: 0,
                since: 0,
            },
            settled: Settled::of(&settings),
        }
    }

    /// The same spanning tree, for the copy of a bridge that is compared with it or restored from.
    /// It takes no memory.
    pub fn copy(&self) -> Self
        ensures { result ≡ self.now }
    {
        Rstp {
            address: self.address,
            config: copied(self.config.as_slice()),
            ports: copied(self.ports.as_slice()),
            facts: self.facts,
            settled: self.settled.copy(),
        }
    }

    /// Whether the spanning trees are equal in all that they keep, for whether two copies of a
    /// bridge are. It takes no memory.
    pub fn is_same(&self, other: &Rstp) -> bool
        ensures { IsTrue result ↔ (self.now ≡ other.now) }
    {
        self.facts == other.facts
            && self.address == other.address
            && self.config.as_slice() == other.config.as_slice()
            && self.ports.as_slice() == other.ports.as_slice()
            && self.settled.is_same(&other.settled)
    }

    /// The number of ports.
    pub fn ports(&self) -> usize
        ensures count { result ≡ length self.now.ports }
        ensures few { result ≤ MAX_PORTS }
    {
        self.ports.len()
    }

    /// The bridge address (IEEE 802.1D-2004 7.12.5).
    pub fn address(&self) -> Mac
        ensures { result ≡ self.now.address }
    {
        self.address
    }

    /// What is configured of port `port`.
    pub fn config(&self, port: u16) -> &PortConfig
        requires { HasPort self.now port }
        ensures { result.now ≡ config_at self.now port }
    {
        &self.config[port as usize - 1]
    }

    /// What port `port` holds (17.19).
    pub fn facts(&self, port: u16) -> &Port
        requires { HasPort self.now port }
        ensures { result.now ≡ port_at self.now port }
    {
        &self.ports[port as usize - 1]
    }

    /// The role of port `port` (17.7).
    pub fn role(&self, port: u16) -> Role
        requires { HasPort self.now port }
        ensures { result ≡ (port_at self.now port).role }
    {
        self.facts(port).role
    }

    /// The state of port `port` (7.4).
    pub fn state(&self, port: u16) -> State
        requires { HasPort self.now port }
        ensures { result ≡ (port_at self.now port).state }
    {
        self.facts(port).state
    }

    /// The root, the times in force, and the counts of topology changes (17.18, 14.8.1.1).
    pub fn bridge_facts(&self) -> &BridgeFacts
        ensures { result.now ≡ self.now.facts }
    {
        &self.facts
    }

    /// The settled values, of as many ports: for a flat copy of the bridge.
    pub fn settled(&self) -> &Settled
        ensures value { result.now ≡ self.now.settled }
        ensures ports { length result.now.ports ≡ length self.now.ports }
    {
        &self.settled
    }

    // An event begins; the times in force before it are by these times of the settings (17.18.7).
    fn begin(&self, settings: &Settings, timers: Timers) -> Started
        requires ports { length settings.now.ports ≡ length self.now.ports }
        requires timers { AreTimers timers }
        ensures rows { result.rows.items ≡ rows_of settings.now self.now }
        ensures was_times { result.was_times
            ≡ times_in_force timers (rows_of settings.now self.now) }
        ensures count { length result.rows.items ≡ length self.now.ports }
    {
        let config = self.config.as_slice();
        let rows = events::begin_all(settings, &self.settled, config, self.ports.as_slice());
        let was_times = lines::find_times(timers, rows.as_slice());
        Started { rows, was_times }
    }

    // An event ends, from the rows that its own part left; `was_times` are the times in force
    // before it (17.21.25, 17.26, 17.29 to 17.31).
    fn end(
        &mut self,
        settings: &Settings,
        tick: bool,
        was_times: Times,
        rows: &mut [PortInEvent],
    ) -> Outcome
        requires { length rows.old ≡ length self.old.ports }
        ensures event { Ends settings.now tick was_times rows.old self.old self.new result }
        ensures ports { length self.new.ports ≡ length self.old.ports }
        ensures bpdus { length result.bpdus.items ≡ length self.old.ports }
    {
        let own = lines::own_bridge_id(settings, self.address);
        let (context, outcome) = events::conclude(settings, own, tick, was_times, rows);
        let had = events::has_changes(self.ports.as_slice());
        self.ports = loops::ports_of(rows);
        let has = events::has_changes(self.ports.as_slice());
        self.facts.renew(tick, &context, had, has);
        outcome
    }

    /// A BPDU comes by port `port` (17.21.8, 17.23).
    pub fn on_bpdu(&mut self, port: u16, bpdu: &Bpdu, settings: &Settings) -> Outcome
        requires port { HasPort self.old port }
        requires settings { length settings.now.ports ≡ length self.old.ports }
        ensures event { Arrives settings.now port bpdu.now self.old self.new result }
        ensures ports { length self.new.ports ≡ length self.old.ports }
        ensures bpdus { length result.bpdus.items ≡ length self.old.ports }
    {
        let mut event = self.begin(settings, lines::timers(settings));
        let rows = event.rows.as_mut_slice();
        let own = lines::own_bridge_id(settings, self.address);
        events::arrive_all(settings, own, port, bpdu, rows);
        self.end(settings, false, event.was_times, rows)
    }

    /// One second passes (17.22).
    pub fn tick(&mut self, settings: &Settings) -> Outcome
        requires { length settings.now.ports ≡ length self.old.ports }
        ensures event { Ticks settings.now self.old self.new result }
        ensures ports { length self.new.ports ≡ length self.old.ports }
        ensures bpdus { length result.bpdus.items ≡ length self.old.ports }
    {
        let mut event = self.begin(settings, lines::timers(settings));
        let rows = event.rows.as_mut_slice();
        loops::tick_all(rows);
        self.end(settings, true, event.was_times, rows)
    }

    /// The link of port `port` is up, or down (17.19.18). One that repeats the link's state
    /// changes nothing by itself.
    pub fn link(&mut self, port: u16, up: bool, settings: &Settings) -> Outcome
        requires port { HasPort self.old port }
        requires settings { length settings.now.ports ≡ length self.old.ports }
        ensures event { Links settings.now port up self.old self.new result }
        ensures ports { length self.new.ports ≡ length self.old.ports }
        ensures bpdus { length result.bpdus.items ≡ length self.old.ports }
    {
        let mut event = self.begin(settings, lines::timers(settings));
        let rows = event.rows.as_mut_slice();
        loops::link_all(port, up, rows);
        self.end(settings, false, event.was_times, rows)
    }

    /// Settles changed settings (17.13, 17.19.13): every port starts anew where the version
    /// changed, and a port whose link is up where its enabling changed; a changed edge setting
    /// takes effect, protocol migration checks are done and spent, and what was settled is kept for
    /// the next settling.
    pub fn settle(&mut self, settings: &mut Settings) -> Outcome
        requires { length settings.old.ports ≡ length self.old.ports }
        ensures event { Settles settings.old self.old self.new result }
        ensures ports { length self.new.ports ≡ length self.old.ports }
        ensures bpdus { length result.bpdus.items ≡ length self.old.ports }
        ensures settings { settings.new ≡ without_migration_checks settings.old }
        ensures count { length settings.new.ports ≡ length settings.old.ports }
    {
        let mut event = self.begin(settings, self.settled.timers());
        let rows = event.rows.as_mut_slice();
        let settled = Settled::of(settings);
        loops::settle_all(settled.version() != self.settled.version(), rows);
        self.settled = settled;
        let outcome = self.end(settings, false, event.was_times, rows);
        settings.spend();
        outcome
    }
}
