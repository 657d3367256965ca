//! The bridge: one event at a time.
ghost use Rattle.std.specs.Prelude.{◌≡◌, ◌↔◌, ◌≤◌, ◌+◌, length, true, Some, None, Ok, Err, IfOk, OnOk, OnErr, IsOk, IsTrue};
ghost use Rattle.rstp_settings.specs.Table.{get, HasKey, IsInRange};
ghost use Rattle.bridge_core.specs.Bridge.{HasPort, port_count, is_on};
ghost use Rattle.bridge_core.specs.Opening.{fault_of, opening_bridge};
ghost use Rattle.bridge_core.specs.Forwarding.{AsksMemory, MayLackMemory, egress_of};
ghost use Rattle.bridge_core.specs.Counting.{sent_where, has_bpdu};
ghost use Rattle.fdb_core.specs.Rows.{other_rows};
ghost use Rattle.fdb_core.specs.PortSets.{IsOfPorts};
ghost use Rattle.fdb_core.specs.Statics.{made_rows, with_places_for, next_made};
ghost use Rattle.bridge_core.specs.Statics.{is_made, allowed, set_made, set_allowed, HasPlaceFrom, HasStatics};
ghost use Rattle.bridge_core.specs.StaticIndexes.{IsStaticIndex};
ghost use Rattle.bridge_core.specs.Events.{Gives, frame_result, reception_result, data_result, after_reception, after_learning, after_forwarding, after_tree_step, arrival_of, tick_of, after_tick, link_of, after_link, settling_of, after_settling, set_bridge};
ghost use Rattle.bridge_core.specs.Facts.{facts_of, port_facts_of};

use crate::counters::{PortCounters, count_bpdus, count_discards};
use crate::facts::{Facts, PortFacts};
use crate::fault::{BridgeFault, find_fault};
use crate::flat::FlatBridge;
use crate::forwarding::{find_way, send_out};
use crate::learning::{lacks_memory, learn_from};
use crate::{opening, statics};
use arrayvec::ArrayVec;
use fdb_core::{Fdb, PortSet, StaticIndex, StaticRow, StaticTable};
use frame_core::{Bpdu, FrameIn, Mac};
use rstp_core::{
    BridgeConfig, BridgeKey, Key, MAX_IFINDEX, MAX_PORTS, Outcome, PortConfig, PortKey, Rstp,
    Settings,
};
use rstp_rules::lines::is_enabled;
use rstp_settings::copies::copied;
use std::alloc::{AllocError, Global};
use std::marker::Model;

/// The most addresses that a bridge learns.
pub const MAX_LEARNED_ROWS: usize = 1_024;

/// The greatest value of a setting: the greatest path cost (IEEE 802.1D-2004 17.14).
pub const MAX_SETTING: u32 = 200_000_000;

/// What each port sends, port by port.
pub type Bpdus = ArrayVec<Option<Bpdu>, MAX_PORTS>;

/// What a frame gives.
#[derive(Drop)]
pub struct Forwarding {
    /// The numbers of the ports by which the frame goes out, rising.
    pub egress: ArrayVec<u16, MAX_PORTS>,
    /// What each port sends, port by port.
    pub bpdus: Bpdus,
    /// Whether the growth for a learned row was refused.
    pub no_room: bool,
}

/// A learning bridge that runs the Rapid Spanning Tree Protocol. It is seen as its settings, its
/// spanning tree, its learned and static rows and its counters. Ports are numbered from 1. A change
/// of settings, static ones too, is followed by `settle`.
pub struct Bridge {
    settings: Settings,
    tree: Rstp,
    fdb: Fdb,
    statics: StaticTable,
    entry_discards: u32,
    counters: ArrayVec<PortCounters, MAX_PORTS>,
}

// By hand: who drops one then knows nothing of its parts.
impl Drop for Bridge {
    fn drop(self) {
        let Bridge {
            settings: _settings,
            tree: _tree,
            fdb: _fdb,
            statics: _statics,
            entry_discards: _entry_discards,
            counters: _counters,
        } = self;
    }
}

impl Model for Bridge {
    ghost use Rattle.bridge_core.specs.Bridge.{BridgeState};
    ghost use Rattle.bridge_core.specs.BridgeInside.{IsBridge};

    ghost Value = { BridgeState };

    ghost view = { λ b. record {
      settings = b.settings;
      tree = b.tree;
      learned = b.fdb.rows;
      statics = b.statics;
      counters = record { entry_discards = b.entry_discards; ports = b.counters.items };
    } };

    ghost invariant = { λ b. IsBridge b.settings b.tree b.fdb b.statics.rows b.counters.items };
}

impl Bridge {
    /// A bridge of 1 to 32 ports under the opening settings, with all its links down and nothing
    /// learned. It takes no memory.
    ///
    /// # Errors
    ///
    /// The first of these: `BadPorts` where there is no port or more than 32; `BadAddress` where
    /// the address is a group address; `BadSpeed` where the speed of some port is none of 10, 100
    /// and 1000 Mb/s.
    pub fn new(alloc: Global, address: Mac, ports: &[PortConfig]) -> Result<Self, BridgeFault>
        ensures opened { fault_of address ports.now ≡ None →
            result ≡ Ok (opening_bridge address ports.now) }
        ensures refused { (fault : BridgeFault) → fault_of address ports.now ≡ Some fault →
            result ≡ Err fault }
        ensures ports { IfOk result (λ b. port_count b ≡ length ports.now) }
    {
        match find_fault(address, ports) {
            Some(fault) => Err(fault),
            None => Ok(open(alloc, address, ports)),
        }
    }

    /// A copy: the same settings, spanning tree, learned rows with their ages, static rows with as
    /// many places, and counters. Only the copied rows take memory.
    ///
    /// # Errors
    ///
    /// `AllocError` where there is no memory for the copied rows.
    pub fn try_copy(&self) -> Result<Bridge, AllocError>
        ensures { IfOk result (λ copy. copy ≡ self.now) }
    {
        let fdb = self.fdb.try_copy()?;
        let statics = self.statics.try_copy()?;
        Ok(Bridge {
            settings: self.copied_settings(),
            tree: self.tree.copy(),
            fdb,
            statics,
            entry_discards: self.entry_discards,
            counters: copied(self.counters.as_slice()),
        })
    }

    /// A flat copy, to be kept and compared. Only its learned and static rows take memory.
    ///
    /// # Errors
    ///
    /// `AllocError` where there is no memory for the learned or the static rows.
    pub fn flat(&self, alloc: Global) -> Result<FlatBridge, AllocError>
        ensures { IfOk result (λ flat. flat ≡ self.now) }
    {
        let learned = self.fdb.try_rows(alloc)?;
        let statics = self.statics.try_rows()?;
        Ok(FlatBridge::of(
            self.copied_settings(),
            self.tree.copy(),
            learned,
            statics,
            self.statics.places(),
            self.entry_discards,
            copied(self.counters.as_slice()),
        ))
    }

    /// The number of ports, 1 to 32. Each has settings, a configuration and counters.
    pub fn ports(&self) -> usize
        ensures count { result ≡ port_count self.now }
        ensures least { 1 ≤ result }
        ensures most { result ≤ MAX_PORTS }
        ensures set { length self.now.settings.ports ≡ result }
        ensures configured { length self.now.tree.config ≡ result }
        ensures counted { length self.now.counters.ports ≡ result }
    {
        self.tree.ports()
    }

    /// What the bridge shows of itself.
    pub fn facts(&self) -> Facts
        ensures { result ≡ facts_of self.now }
    {
        let tree = self.tree.bridge_facts();
        Facts {
            address: self.tree.address(),
            ports: self.tree.ports(),
            root: tree.root.vector.root,
            root_cost: tree.root.vector.cost,
            root_port: tree.root_port(),
            times: tree.times,
            topology_changes: tree.topology_changes,
            since: tree.since,
            entry_discards: self.entry_discards,
        }
    }

    /// What the bridge shows of port `port`, for the objects of its ports (RFC 4188, RFC 4318). Its
    /// cost is at most the greatest setting.
    pub fn port_facts(&self, port: u16) -> PortFacts
        requires { HasPort self.now port }
        ensures facts { result ≡ port_facts_of self.now port }
        ensures ifindex_least { 1 ≤ result.ifindex }
        ensures ifindex_most { result.ifindex ≤ MAX_IFINDEX }
        ensures cost_most { result.cost ≤ MAX_SETTING }
    {
        let at = port as usize - 1;
        let config = self.tree.config(port);
        let counters = self.counters[at];
        let held = self.tree.facts(port);
        PortFacts {
            ifindex: config.ifindex.number(),
            on: self.is_on(port),
            state: held.state,
            role: held.role,
            vector: held.vector,
            forward_transitions: held.forward_transitions,
            cost: config.cost_in_use(self.settings.get(Key::Port(port, PortKey::Cost))),
            oper_edge: held.oper_edge,
            point_to_point: config.is_point_to_point(
                self.settings.get(Key::Port(port, PortKey::PointToPoint)),
            ),
            frames_in: counters.frames_in,
            frames_out: counters.frames_out,
            discards_in: counters.discards_in,
        }
    }

    /// The learned addresses, for the objects that show them.
    pub fn fdb(&self) -> &Fdb
        ensures rows { result.now.rows ≡ self.now.learned }
        ensures limit { result.now.limit ≡ MAX_LEARNED_ROWS }
    {
        &self.fdb
    }

    /// The value of a setting that there is, in the unit of its key, for the objects that show it. It
    /// is at most the greatest setting.
    pub fn get_setting(&self, key: Key) -> u32
        requires { HasKey self.now.settings key }
        ensures value { result ≡ get self.now.settings key }
        ensures in_range { IsInRange key result }
        ensures most { result ≤ MAX_SETTING }
    {
        self.settings.get(key)
    }

    /// The value of a setting of port `port`, which has every such setting.
    pub fn port_setting(&self, port: u16, key: PortKey) -> u32
        requires { HasPort self.now port }
        ensures value { result ≡ get self.now.settings (Key.Port port key) }
        ensures in_range { IsInRange (Key.Port port key) result }
        ensures most { result ≤ MAX_SETTING }
    {
        self.settings.get(Key::Port(port, key))
    }

    /// A copy of all settings but the static rows, to see later by `has_settings` whether they are
    /// still the same. It takes no memory.
    pub fn copied_settings(&self) -> Settings
        ensures { result ≡ self.now.settings }
    {
        self.settings.copy()
    }

    /// Whether all settings but the static rows are the same as these.
    pub fn has_settings(&self, settings: &Settings) -> bool
        ensures { IsTrue result ↔ (self.now.settings ≡ settings.now) }
    {
        self.settings.is_same(settings)
    }

    /// Gives a setting that there is a value in its range, and answers the one before. Every event
    /// reads the settings as they are: the next tick ages by them, and the next frame comes in
    /// where its port is enabled by them; `port_facts` shows by them whether a port is on, its cost
    /// and whether its link is point to point. So call `settle` before any other event: until then
    /// a port that was disabled may still be sent frames, and where its link goes down in between
    /// also after it, until the port starts anew.
    pub fn put_setting(&mut self, key: Key, value: u32) -> u32
        requires key { HasKey self.old.settings key }
        requires value { IsInRange key value }
        ensures before { result ≡ get self.old.settings key }
        ensures after { self.new ≡ set_bridge key value self.old }
        ensures ports { port_count self.new ≡ port_count self.old }
    {
        self.settings.put(key, value)
    }

    /// Whether there may be a static row of the index: of one of the ports or of all, and of an
    /// address that is neither the bridge's own nor one of 0180C2000000 to 0180C200000F.
    pub fn is_static_index(&self, index: StaticIndex) -> bool
        ensures { IsTrue result ↔ IsStaticIndex self.now index }
    {
        statics::is_index(index, self.tree.address(), self.tree.ports())
    }

    /// Whether the static row of the index is made (RFC 4188 dot1dStaticStatus).
    pub fn is_made(&self, index: StaticIndex) -> bool
        ensures { result ≡ is_made self.now index }
    {
        statics::is_made(&self.statics, index)
    }

    /// The ports that are allowed to frames of the index: all ports, where nothing else was set (RFC
    /// 4188 dot1dStaticAllowedToGoTo).
    pub fn allowed(&self, index: StaticIndex) -> PortSet
        ensures value { result ≡ allowed self.now index }
        ensures in_range { IsOfPorts (port_count self.now) result }
    {
        statics::allowed(&self.statics, index, self.tree.ports())
    }

    /// Makes the static row of the index, or makes it no more, and answers whether it was made. Its
    /// ports stay as they are, until `settle` where it is not made. No memory is taken: where there
    /// is to be a row and is none, a place must be left of those reserved. Frames go by the rows as
    /// they are: call `settle` before any other event.
    pub fn put_made(&mut self, index: StaticIndex, made: bool) -> bool
        requires index { IsStaticIndex self.old index }
        requires place { HasPlaceFrom self.old index made (allowed self.old index) }
        ensures before { result ≡ is_made self.old index }
        ensures after { self.new ≡ set_made index made self.old }
        ensures ports { port_count self.new ≡ port_count self.old }
    {
        let count = self.tree.ports();
        statics::put_made(&mut self.statics, count, index, made)
    }

    /// Sets the ports that are allowed to frames of the index, and answers those before. They count
    /// where its row is made; where it is not, `settle` drops them. No memory is taken, as by
    /// `put_made`. Frames go by the rows as they are: call `settle` before any other event.
    pub fn put_allowed(&mut self, index: StaticIndex, ports: PortSet) -> PortSet
        requires index { IsStaticIndex self.old index }
        requires value { IsOfPorts (port_count self.old) ports }
        requires place { HasPlaceFrom self.old index (is_made self.old index) ports }
        ensures before { result ≡ allowed self.old index }
        ensures after { self.new ≡ set_allowed index ports self.old }
        ensures ports { port_count self.new ≡ port_count self.old }
    {
        let count = self.tree.ports();
        statics::put_allowed(&mut self.statics, count, index, ports)
    }

    /// The first made static row whose seven numbers, the octets of its address and its port, are
    /// greater than these, for the objects that show the rows. So the rows are walked from no numbers
    /// on, each time from those of the row before.
    pub fn next_static(&self, numbers: &[u32]) -> Option<StaticRow>
        ensures { result ≡ next_made self.now.statics.rows numbers.now }
    {
        self.statics.next_made(numbers)
    }

    /// How many static rows are made (RFC 4188 dot1dStaticTable).
    pub fn made_statics(&self) -> usize
        ensures { result ≡ length (made_rows self.now.statics.rows) }
    {
        self.statics.made_count()
    }

    /// For how many static rows in all there is sure to be memory, those that are there among them. It
    /// may be fewer than the rows.
    pub fn static_places(&self) -> usize
        ensures { result ≡ self.now.statics.places }
    {
        self.statics.places()
    }

    /// Makes sure that there is memory for so many static rows more. Puts do not use up this promise:
    /// it holds as long as the rows are no more.
    ///
    /// # Errors
    ///
    /// `AllocError` where there is no memory for them. Nothing changed. It comes neither where no
    /// row is asked for, nor where there was sure to be memory for them before.
    pub fn reserve_static(&mut self, count: usize) -> Result<(), AllocError>
        ensures ok { OnOk result (self.new
            ≡ record self.old { statics = with_places_for count self.old.statics }) }
        ensures err { OnErr result (self.new ≡ self.old) }
        ensures none { count ≡ 0 → IsOk result }
        ensures within { length self.old.statics.rows + count ≤ self.old.statics.places
            → IsOk result }
        ensures ports { port_count self.new ≡ port_count self.old }
    {
        self.statics.reserve(count)
    }

    /// Is sure of memory for so many static rows alone. The memory itself is not given back.
    pub fn hold_static(&mut self, places: usize)
        requires { places ≤ self.old.statics.places }
        ensures held { self.new
            ≡ record self.old { statics = record self.old.statics { places = places } } }
        ensures ports { port_count self.new ≡ port_count self.old }
    {
        self.statics.hold(places);
    }

    /// Hands on what holds of the static rows of every bridge: they are by rising index, each of the
    /// bridge's ports, and each is made or has not all ports. It does nothing.
    pub fn known_statics(&self)
        ensures { HasStatics self.now }
    {
        self.statics.known();
        let _settings = &self.settings;
    }

    /// A frame comes by port `port`. Where the port is off nothing changes and nothing goes out. A
    /// BPDU goes to the spanning tree only. The source of any other frame is learned where the port
    /// is learning or forwarding, the source is no group address, and there is space: it has a row,
    /// or there are fewer than [`MAX_LEARNED_ROWS`] (7.8); but, by a rule of this profile alone,
    /// not where the destination is reserved. Then, where the port forwards, the frame goes out by
    /// the other forwarding ports (7.7): by those of the made static row of its destination and this
    /// port, or else of its destination and all ports (7.9.1); where there is no such row by the one
    /// at which its destination is learned, or by all where it is a group address or not learned;
    /// but by none where it is the bridge's own address or one of 0180C2000000 to 0180C200000F
    /// (7.12.6). Only the growth for a new learned row takes
    /// memory: where that is refused the frame is forwarded all the same, and noted in `no_room`.
    pub fn frame(&mut self, port: u16, frame: &FrameIn) -> Forwarding
        requires { HasPort self.old port }
        ensures gives { Gives (frame_result self.old port frame.now result.no_room)
            self.old self.new result }
        ensures note { result.no_room ≡ true → MayLackMemory self.old port frame.now }
    {
        take_frame(self, port, frame)
    }

    /// One second passes: learned rows age, and then the spanning tree's tick. It answers what each
    /// port sends.
    pub fn tick(&mut self) -> Bpdus
        ensures step { self.new ≡ after_tick self.old }
        ensures bpdus { result.items ≡ (tick_of self.old).bpdus }
        ensures ports { port_count self.new ≡ port_count self.old }
        ensures each { length result.items ≡ port_count self.old }
    {
        self.fdb
            .age(self.settings.get(Key::Bridge(BridgeKey::Aging)));
        let outcome = self.tree.tick(&self.settings);
        follow(&mut self.fdb, self.counters.as_mut_slice(), outcome)
    }

    /// The link of port `port` is up, or down. It answers what each port sends.
    pub fn link(&mut self, port: u16, up: bool) -> Bpdus
        requires { HasPort self.old port }
        ensures step { self.new ≡ after_link port up self.old }
        ensures bpdus { result.items ≡ (link_of port up self.old).bpdus }
        ensures ports { port_count self.new ≡ port_count self.old }
        ensures each { length result.items ≡ port_count self.old }
    {
        let outcome = self.tree.link(port, up, &self.settings);
        follow(&mut self.fdb, self.counters.as_mut_slice(), outcome)
    }

    /// Settles changed settings, spends protocol migration checks, and drops the static rows that are
    /// not made. It answers what each port sends.
    pub fn settle(&mut self) -> Bpdus
        ensures step { self.new ≡ after_settling self.old }
        ensures bpdus { result.items ≡ (settling_of self.old).bpdus }
        ensures ports { port_count self.new ≡ port_count self.old }
        ensures each { length result.items ≡ port_count self.old }
    {
        statics::drop_unmade(&mut self.statics);
        let outcome = self.tree.settle(&mut self.settings);
        follow(&mut self.fdb, self.counters.as_mut_slice(), outcome)
    }

    // Whether a port is enabled by its setting and its link is up.
    fn is_on(&self, port: u16) -> bool
        requires { HasPort self.now port }
        ensures { result ≡ is_on self.now port }
    {
        is_enabled(&self.settings, port) && self.tree.facts(port).link
    }

    // One more frame in.
    fn receive(&mut self, port: u16)
        requires { HasPort self.old port }
        ensures step { self.new ≡ after_reception port self.old }
        ensures ports { port_count self.new ≡ port_count self.old }
    {
        self.counters[port as usize - 1].receive();
    }

    // Learns the source where it is to be learned. Whether its growth was refused.
    fn learn(&mut self, port: u16, frame: &FrameIn) -> bool
        requires { HasPort self.old port }
        ensures step { self.new ≡ after_learning port frame.now result self.old }
        ensures note { result ≡ true → AsksMemory self.old port frame.now }
        ensures ports { port_count self.new ≡ port_count self.old }
    {
        let learnt = learn_from(&mut self.fdb, self.tree.state(port), port, frame);
        self.entry_discards = count_discards(self.entry_discards, learnt);
        lacks_memory(learnt)
    }

    // Sends a frame out, and answers the ports by which it goes.
    fn forward(&mut self, port: u16, destination: Mac) -> ArrayVec<u16, MAX_PORTS>
        requires { HasPort self.old port }
        ensures step { self.new ≡ after_forwarding port destination self.old }
        ensures egress { result.items ≡ egress_of self.old port destination }
        ensures ports { port_count self.new ≡ port_count self.old }
    {
        let state = self.tree.state(port);
        let way = find_way(
            &self.fdb,
            &self.statics,
            self.tree.address(),
            state,
            port,
            destination,
        );
        let counters = self.counters.as_mut_slice();
        let egress = send_out(way, port, &self.tree, counters);
        counters[port as usize - 1].discard(egress.is_empty());
        egress
    }

    // A BPDU comes by a port.
    fn hear(&mut self, port: u16, bpdu: &Bpdu) -> Bpdus
        requires { HasPort self.old port }
        ensures step { self.new ≡ after_tree_step (arrival_of port bpdu.now self.old) self.old }
        ensures bpdus { result.items ≡ (arrival_of port bpdu.now self.old).bpdus }
        ensures ports { port_count self.new ≡ port_count self.old }
        ensures each { length result.items ≡ port_count self.old }
    {
        let outcome = self.tree.on_bpdu(port, bpdu, &self.settings);
        follow(&mut self.fdb, self.counters.as_mut_slice(), outcome)
    }
}

// A bridge of a configuration that has no fault.
fn open(alloc: Global, address: Mac, ports: &[PortConfig]) -> Bridge
    requires least { 1 ≤ length ports.now }
    requires most { length ports.now ≤ MAX_PORTS }
    ensures opened { result ≡ opening_bridge address ports.now }
    ensures ports { port_count result ≡ length ports.now }
{
    let config = BridgeConfig {
        address,
        ports: copied(ports),
    };
    let tree = Rstp::new(&config);
    Bridge {
        settings: Settings::new(ports.len()),
        tree,
        fdb: Fdb::new(alloc, MAX_LEARNED_ROWS),
        statics: StaticTable::new(alloc),
        entry_discards: 0,
        counters: opening::zero_counters(ports.len()),
    }
}

// What follows a step of the spanning tree: the learned rows of the flushed ports go, and each BPDU
// is a frame out of its port.
fn follow(fdb: &mut Fdb, counters: &mut [PortCounters], outcome: Outcome) -> Bpdus
    requires { length outcome.bpdus.items ≡ length counters.old }
    ensures fdb { fdb.new
        ≡ record fdb.old { rows = other_rows outcome.flushed.items fdb.old.rows } }
    ensures counters { counters.new ≡ sent_where (has_bpdu outcome.bpdus.items) counters.old }
    ensures bpdus { result.items ≡ outcome.bpdus.items }
{
    let Outcome { bpdus, flushed } = outcome;
    fdb.flush_ports(flushed.as_slice());
    count_bpdus(bpdus.as_slice(), counters);
    bpdus
}

// A frame comes by a port. It stands outside the methods, whose bodies have one path each: a branch
// is proved of a bridge as it is seen from outside.
fn take_frame(bridge: &mut Bridge, port: u16, frame: &FrameIn) -> Forwarding
    requires { HasPort bridge.old port }
    ensures gives { Gives (frame_result bridge.old port frame.now result.no_room)
        bridge.old bridge.new result }
    ensures note { result.no_room ≡ true → MayLackMemory bridge.old port frame.now }
{
    if bridge.is_on(port) {
        bridge.receive(port);
        take_received(bridge, port, frame)
    } else {
        Forwarding {
            egress: ArrayVec::new(),
            bpdus: opening::no_bpdus(bridge.ports()),
            no_room: false,
        }
    }
}

// A frame that was received.
fn take_received(bridge: &mut Bridge, port: u16, frame: &FrameIn) -> Forwarding
    requires { HasPort bridge.old port }
    ensures gives { Gives (reception_result port frame.now frame.now.bpdu result.no_room bridge.old)
        bridge.old bridge.new result }
    ensures note { result.no_room ≡ true → (frame.now.bpdu ≡ None) ×
        AsksMemory bridge.old port frame.now }
{
    match &frame.bpdu {
        Some(bpdu) => Forwarding {
            egress: ArrayVec::new(),
            bpdus: bridge.hear(port, bpdu),
            no_room: false,
        },
        None => pass_on(bridge, port, frame),
    }
}

// A frame that is no BPDU.
fn pass_on(bridge: &mut Bridge, port: u16, frame: &FrameIn) -> Forwarding
    requires { HasPort bridge.old port }
    ensures gives { Gives (data_result port frame.now result.no_room bridge.old)
        bridge.old bridge.new result }
    ensures note { result.no_room ≡ true → AsksMemory bridge.old port frame.now }
{
    let no_room = bridge.learn(port, frame);
    let egress = bridge.forward(port, frame.destination);
    Forwarding {
        egress,
        bpdus: opening::no_bpdus(bridge.ports()),
        no_room,
    }
}
