//! Laws of forwarding: of every bridge, and of a bridge after any list of events from its opening
//! on (a second, a link event, a frame, or settings that are put and then settled). Each function
//! does nothing: its contract is the law.
//!
//! Not true here, and not claimed: that no port forwards while it is disabled between `put_setting`
//! and `settle`; nor after it where its link goes down in between, until it starts anew.
ghost use Rattle.std.specs.Prelude.{◌≡◌, ◌≢◌, ◌≤◌, ◌<◌, ◌↔◌, ◌==◌, ◌&&◌, ℕ, Bool, true, false, not, List, [], ◌∷◌, length, Some, Contains};
ghost use Rattle.std.specs.List.{AllByRecursion};
ghost use Rattle.frame_core.specs.declared.mac.Mac.{Mac};
ghost use Rattle.frame_core.specs.declared.frame.FrameIn.{FrameIn};
ghost use Rattle.fdb_core.specs.declared.port_set.PortSet.{PortSet};
ghost use Rattle.fdb_core.specs.Rows.{IsAddress, row_of, port_of as learned_port};
ghost use Rattle.fdb_core.specs.declared.static_row.StaticIndex.{StaticIndex};
ghost use Rattle.fdb_core.specs.declared.static_row.StaticRow.{StaticRow};
ghost use Rattle.fdb_core.specs.Learning.{new_row};
ghost use Rattle.fdb_core.specs.PortSets.{IsOfPorts, has_port};
ghost use Rattle.fdb_core.specs.Statics.{Statics, IsRising, row_of as static_row};
ghost use Rattle.rstp_settings.specs.Table.{IsInRange};
ghost use Rattle.rstp_settings.specs.declared.config.PortConfig.{PortConfig};
ghost use Rattle.rstp_rules.specs.Ports.{is_discarding};
ghost use Rattle.rstp_rules.specs.Lines.{own_id};
ghost use Rattle.rstp_core.specs.Runs.{IsRootPort};
ghost use Rattle.rstp_core.specs.Legal.{IsLegal};
ghost use Rattle.bridge_core.specs.Bridge.{BridgeState, HasPort, address_of, port_count, port_of, counters_of, is_on};
ghost use Rattle.bridge_core.specs.Counting.{next_count};
ghost use Rattle.bridge_core.specs.Statics.{is_made, allowed, set_made, set_allowed, made_row, HasStatics};
ghost use Rattle.bridge_core.specs.StaticIndexes.{IsStaticIndex};
ghost use Rattle.bridge_core.specs.Forwarding.{is_reserved, forwards, learns, ports_where};
ghost use Rattle.bridge_core.specs.Events.{frame_result, after_settling, no_bpdus, GoesBetween};
ghost use Rattle.bridge_core.specs.Relay.{IsReceived, IsRelayed, IsListed, IsUnlisted, IsForAll, IsFor, HasPlace};
ghost use Rattle.bridge_core.specs.Facts.{facts_of};
ghost use Rattle.bridge_core.specs.Opening.{opening_bridge};
ghost use Rattle.bridge_core.specs.Runs.{Event, after, run, IsActive};

use crate::bridge::{MAX_LEARNED_ROWS, MAX_SETTING};
use fdb_core::{MAX_AGING_TIME, MAX_SET_PORTS, MIN_AGING_TIME};
use rstp_core::{BridgeKey, Key, MAX_IFINDEX, MAX_PORTS};

/// A bridge has at most 32 ports, which a set of ports can have, and learns at most 1,024 addresses.
/// Interface numbers are at most 2147483647 (RFC 2863, InterfaceIndex), and settings at most
/// 200000000 (IEEE 802.1D-2004 17.14).
pub fn limits_are_fixed()
    ensures ports { MAX_PORTS ≡ 32 }
    ensures sets { MAX_SET_PORTS ≡ MAX_PORTS }
    ensures learned { MAX_LEARNED_ROWS ≡ 1024 }
    ensures ifindex { MAX_IFINDEX ≡ 2147483647 }
    ensures setting { MAX_SETTING ≡ 200000000 }
{}

/// The setting of the aging time has the bounds of that time (IEEE 802.1D-2004, Table 7-5).
pub fn aging_setting_is_bounded()
    ensures { (v : ℕ) → IsInRange (Key.Bridge BridgeKey.Aging) v ↔ ((MIN_AGING_TIME ≤ v) ×
        (v ≤ MAX_AGING_TIME)) }
{}

/// The reserved addresses are those from 01-80-C2-00-00-00 to 01-80-C2-00-00-0F (IEEE 802.1D-2004,
/// Table 7-10).
pub fn sixteen_addresses_are_reserved()
    ensures { (a : Mac) → length a.0 ≡ 6 → (is_reserved a ≡ true)
        ↔ ((x : ℕ) × (x < 16) × (a.0 ≡ 0x01 ∷ 0x80 ∷ 0xC2 ∷ 0x00 ∷ 0x00 ∷ x ∷ [])) }
{}

/// A frame goes only from a forwarding port to other forwarding ports; so never back to the port by
/// which it came.
pub fn frames_go_between_forwarding_ports()
    ensures { (b : BridgeState) (port : ℕ) (f : FrameIn) (no_room : Bool) (out : ℕ)
        → Contains (frame_result b port f no_room).egress out → GoesBetween b port out }
{}

/// A relayed frame for which a static row is listed goes out by exactly the other forwarding ports
/// that the row allows, once by each, whatever its destination is and wherever that is learned
/// (7.9.1).
pub fn listed_frames_go_out_by_their_ports()
    ensures ports { (b : BridgeState) (port : ℕ) (f : FrameIn) (no_room : Bool) (row : StaticRow)
        → IsRelayed b port f → IsListed b port f row
        → (out : ℕ) → Contains (frame_result b port f no_room).egress out
        ↔ (GoesBetween b port out × (has_port row.ports out ≡ true)) }
    ensures list { (b : BridgeState) (port : ℕ) (f : FrameIn) (no_room : Bool) (row : StaticRow)
        → IsRelayed b port f → IsListed b port f row
        → (frame_result b port f no_room).egress ≡ ports_where (λ out.
        forwards b out && not (out == port) && has_port row.ports out) (port_count b) }
{}

/// The row that is listed for a frame is made, and is that of its destination and the port by which
/// it came, or, where that is not made, that of its destination and all ports.
pub fn the_row_of_the_port_is_listed_first()
    ensures of_port { (b : BridgeState) (port : ℕ) (f : FrameIn) (row : StaticRow) →
        static_row b.statics.rows (record { address = f.destination; port = port }) ≡ Some row
        → row.made ≡ true → IsListed b port f row }
    ensures of_all { (b : BridgeState) (port : ℕ) (f : FrameIn) (row : StaticRow) →
        is_made b (record { address = f.destination; port = port }) ≡ false
        → static_row b.statics.rows (record { address = f.destination; port = 0 }) ≡ Some row
        → row.made ≡ true → IsListed b port f row }
    ensures none { (b : BridgeState) (port : ℕ) (f : FrameIn) →
        is_made b (record { address = f.destination; port = port }) ≡ false
        → is_made b (record { address = f.destination; port = 0 }) ≡ false
        → IsUnlisted b port f }
{}

/// A relayed frame for which no static row is listed, and that is to a group, or to an address that
/// is learned nowhere once the source was, goes out by exactly the other forwarding ports (7.7),
/// once by each.
pub fn frames_for_all_are_flooded()
    ensures ports { (b : BridgeState) (port : ℕ) (f : FrameIn) (no_room : Bool)
        → IsRelayed b port f → IsUnlisted b port f →
        IsForAll b port f no_room
        → (out : ℕ) → Contains (frame_result b port f no_room).egress out ↔ GoesBetween b port out }
    ensures list { (b : BridgeState) (port : ℕ) (f : FrameIn) (no_room : Bool)
        → IsRelayed b port f → IsUnlisted b port f →
        IsForAll b port f no_room
        → (frame_result b port f no_room).egress ≡ ports_where (λ out.
        forwards b out && not (out == port)) (port_count b) }
{}

/// A relayed frame for which no static row is listed, to a station that is learned at port r, once
/// the source was learned, goes out by that port alone where it is another forwarding port, and else
/// by none (7.7).
pub fn frames_for_a_learned_station_go_to_its_port()
    ensures alone { (b : BridgeState) (port : ℕ) (f : FrameIn) (no_room : Bool) (r : ℕ) →
        IsRelayed b port f → IsUnlisted b port f
        → IsFor b port f no_room r → GoesBetween b port r
        → (frame_result b port f no_room).egress ≡ r ∷ [] }
    ensures nowhere { (b : BridgeState) (port : ℕ) (f : FrameIn) (no_room : Bool) (r : ℕ) →
        IsRelayed b port f → IsUnlisted b port f
        → IsFor b port f no_room r → ¬ GoesBetween b port r
        → (frame_result b port f no_room).egress ≡ [] }
{}

/// Any other frame goes nowhere: one by a port that does not forward, and one to a reserved address
/// or to the bridge's own (7.7, 7.12.6). At a port that is off nothing changes either.
pub fn other_frames_go_nowhere()
    ensures state { (b : BridgeState) (port : ℕ) (f : FrameIn) (no_room : Bool)
        → IsReceived b port f
        → forwards b port ≡ false → (frame_result b port f no_room).egress ≡ [] }
    ensures reserved { (b : BridgeState) (port : ℕ) (f : FrameIn) (no_room : Bool)
        → IsReceived b port f
        → is_reserved f.destination ≡ true → (frame_result b port f no_room).egress ≡ [] }
    ensures own { (b : BridgeState) (port : ℕ) (f : FrameIn) (no_room : Bool) → IsReceived b port f
        → f.destination ≡ address_of b → (frame_result b port f no_room).egress ≡ [] }
    ensures off { (b : BridgeState) (port : ℕ) (f : FrameIn) (no_room : Bool) → is_on b port ≡ false
        → frame_result b port f no_room ≡ record { bridge = b; egress = []; bpdus = no_bpdus b } }
{}

/// A frame that is no BPDU changes neither settings nor spanning tree, and no BPDU goes out for it.
pub fn frames_keep_settings_and_tree()
    ensures settings { (b : BridgeState) (port : ℕ) (f : FrameIn) (no_room : Bool)
        → IsReceived b port f
        → (frame_result b port f no_room).bridge.settings ≡ b.settings }
    ensures tree { (b : BridgeState) (port : ℕ) (f : FrameIn) (no_room : Bool) → IsReceived b port f
        → (frame_result b port f no_room).bridge.tree ≡ b.tree }
    ensures bpdus { (b : BridgeState) (port : ℕ) (f : FrameIn) (no_room : Bool)
        → IsReceived b port f
        → (frame_result b port f no_room).bpdus ≡ no_bpdus b }
{}

/// Where a frame that is no BPDU goes nowhere, the frames in and the discards of its port rise by
/// one, modulo 2^32; where it goes out, the frames in alone, and the frames out of each port by
/// which it goes. Nothing else is counted at a port.
pub fn frames_are_counted()
    ensures lost { (b : BridgeState) (port : ℕ) (f : FrameIn) (no_room : Bool)
        → IsReceived b port f →
        port ≤ length b.counters.ports
        → (frame_result b port f no_room).egress ≡ []
        → counters_of (frame_result b port f no_room).bridge port ≡ record (counters_of b port) {
          frames_in = next_count (counters_of b port).frames_in;
          discards_in = next_count (counters_of b port).discards_in;
        } }
    ensures passed { (b : BridgeState) (port : ℕ) (f : FrameIn) (no_room : Bool)
        → IsReceived b port f →
        port ≤ length b.counters.ports
        → (frame_result b port f no_room).egress ≢ []
        → counters_of (frame_result b port f no_room).bridge port ≡ record
        (counters_of b port) { frames_in = next_count (counters_of b port).frames_in } }
    ensures out { (b : BridgeState) (port : ℕ) (f : FrameIn) (no_room : Bool) (out : ℕ) →
        IsReceived b port f → out ≤ length b.counters.ports
        → Contains (frame_result b port f no_room).egress out
        → counters_of (frame_result b port f no_room).bridge out ≡ record
        (counters_of b out) { frames_out = next_count (counters_of b out).frames_out } }
    ensures rest { (b : BridgeState) (port : ℕ) (f : FrameIn) (no_room : Bool) (out : ℕ) →
        IsReceived b port f
        → HasPort b out → out ≤ length b.counters.ports → out ≢ port →
        ¬ Contains (frame_result b port f no_room).egress out
        → counters_of (frame_result b port f no_room).bridge out ≡ counters_of b out }
{}

/// A source that is to be learned, for which there is a place and memory, is found at the port by
/// which the frame came, seen just now; each other address is where it was, and so is every one
/// where the source is not to be learned (7.8; of a frame to a reserved address it is not, which is
/// a rule of this profile alone).
pub fn sources_are_learned()
    ensures found { (b : BridgeState) (port : ℕ) (f : FrameIn) → IsReceived b port f →
        learns (port_of b port).state f ≡ true
        → HasPlace b.learned f.source →
        learned_port (frame_result b port f false).bridge.learned f.source ≡ Some port }
    ensures row { (b : BridgeState) (port : ℕ) (f : FrameIn) → IsReceived b port f →
        learns (port_of b port).state f ≡ true
        → HasPlace b.learned f.source →
        row_of (frame_result b port f false).bridge.learned f.source
        ≡ Some (new_row f.source port) }
    ensures others { (b : BridgeState) (port : ℕ) (f : FrameIn) (no_room : Bool) (other : Mac) →
        IsReceived b port f → other ≢ f.source
        → row_of (frame_result b port f no_room).bridge.learned other ≡ row_of b.learned other }
    ensures none { (b : BridgeState) (port : ℕ) (f : FrameIn) (no_room : Bool) → IsReceived b port f
        → learns (port_of b port).state f ≡ false
        → (frame_result b port f no_room).bridge.learned ≡ b.learned }
{}

/// Whatever static rows there are, the same is learned from a frame, and no frame changes a static row
/// (7.8, 7.9).
pub fn learning_sees_no_static_row()
    ensures learned { (b : BridgeState) (t : Statics) (port : ℕ) (f : FrameIn) (no_room : Bool) →
        (frame_result (record b { statics = t }) port f no_room).bridge.learned
        ≡ (frame_result b port f no_room).bridge.learned }
    ensures statics { (b : BridgeState) (port : ℕ) (f : FrameIn) (no_room : Bool) →
        (frame_result b port f no_room).bridge.statics ≡ b.statics }
{}

/// After settling each static row is made. What was made of an index is as before, and so are the
/// ports that are allowed to it where it is made; where it is not, they are all ports.
pub fn settling_keeps_the_rows_that_are_made()
    ensures made { (b : BridgeState) →
        AllByRecursion (λ r. r.made ≡ true) (after_settling b).statics.rows }
    ensures same { (b : BridgeState) → IsRising b.statics.rows → (i : StaticIndex) →
        static_row (after_settling b).statics.rows i ≡ made_row b.statics.rows i }
{}

/// There may be a static row of each port, and of all ports as port 0, for each address of six octets
/// but the bridge's own and 01-80-C2-00-00-00 to 01-80-C2-00-00-0F.
pub fn own_and_reserved_addresses_have_no_static_row()
    ensures { (b : BridgeState) (i : StaticIndex) → IsStaticIndex b i
        ↔ (IsAddress i.address × (i.port ≤ port_count b) × (i.address ≢ address_of b) × ((x : ℕ)
        → x < 16 → i.address.0 ≢ 0x01 ∷ 0x80 ∷ 0xC2 ∷ 0x00 ∷ 0x00 ∷ x ∷ [])) }
{}

/// Whether a row is made and which ports are allowed to it are a finite map: each reads as it was put,
/// putting one leaves the other of its index, and those of each other index stay.
pub fn static_settings_are_a_finite_map()
    ensures made { (b : BridgeState) (i : StaticIndex) (made : Bool) →
        is_made (set_made i made b) i ≡ made }
    ensures ports { (b : BridgeState) (i : StaticIndex) (ports : PortSet) →
        IsOfPorts (port_count b) ports → allowed (set_allowed i ports b) i ≡ ports }
    ensures made_keeps_ports { (b : BridgeState) (i : StaticIndex) (made : Bool) → HasStatics b →
        allowed (set_made i made b) i ≡ allowed b i }
    ensures ports_keep_made { (b : BridgeState) (i : StaticIndex) (ports : PortSet) →
        is_made (set_allowed i ports b) i ≡ is_made b i }
    ensures made_keeps_others { (b : BridgeState) (i : StaticIndex) (made : Bool) (j : StaticIndex)
        → j ≢ i → (is_made (set_made i made b) j ≡ is_made b j)
        × (allowed (set_made i made b) j ≡ allowed b j) }
    ensures ports_keep_others { (b : BridgeState) (i : StaticIndex) (ports : PortSet)
        (j : StaticIndex) → j ≢ i → (is_made (set_allowed i ports b) j ≡ is_made b j)
        × (allowed (set_allowed i ports b) j ≡ allowed b j) }
{}

/// The settings and the spanning tree of a bridge are legal at its opening, and each event keeps
/// them so. The laws that follow hold of each bridge of which that is true, and so after any such
/// list of events.
pub fn events_keep_a_bridge_legal()
    ensures opening { (a : Mac) (ports : List PortConfig) →
        IsLegal (opening_bridge a ports).settings (opening_bridge a ports).tree }
    ensures event { (e : Event) (b : BridgeState) → IsLegal b.settings b.tree →
        IsLegal (after e b).settings (after e b).tree }
    ensures run { (a : Mac) (ports : List PortConfig) (events : List Event)
        → IsLegal (run a ports events).settings (run a ports events).tree }
{}

/// Each port that learns or forwards is on, and is a root or designated port (7.4, 17.29, 17.30).
pub fn learning_and_forwarding_ports_are_active()
    ensures legal { (b : BridgeState) → IsLegal b.settings b.tree → (port : ℕ) → HasPort b port
        → is_discarding (port_of b port).state ≡ false → IsActive b port }
    ensures run { (a : Mac) (ports : List PortConfig) (events : List Event) (port : ℕ)
        → HasPort (run a ports events) port →
        is_discarding (port_of (run a ports events) port).state ≡ false
        → IsActive (run a ports events) port }
{}

/// A frame goes out only by ports that are on, each a root or designated port (7.7.1).
pub fn frames_go_out_by_active_ports()
    ensures legal { (b : BridgeState) → IsLegal b.settings b.tree → (port : ℕ) (f : FrameIn)
        (no_room : Bool) (out : ℕ) → Contains (frame_result b port f no_room).egress out
        → IsActive b out }
    ensures run { (a : Mac) (ports : List PortConfig) (events : List Event) (port : ℕ) (f : FrameIn)
        (no_room : Bool) (out : ℕ)
        → Contains (frame_result (run a ports events) port f no_room).egress out →
        IsActive (run a ports events) out }
{}

/// Over at most 32 ports, the root port that a bridge shows is 0 exactly where the root is this
/// bridge by its whole identifier, priority and address, and exactly where no port is the root port
/// (17.21.25).
pub fn root_port_is_0_at_the_root()
    ensures legal { (b : BridgeState) → IsLegal b.settings b.tree → port_count b ≤ MAX_PORTS
        → ((facts_of b).root_port ≡ 0) ↔ ((facts_of b).root ≡ own_id b.settings (address_of b)) }
    ensures run { (a : Mac) (ports : List PortConfig) (events : List Event) →
        length ports ≤ MAX_PORTS
        → ((facts_of (run a ports events)).root_port ≡ 0)
        ↔ ((facts_of (run a ports events)).root ≡ own_id (run a ports events).settings a) }
    ensures legal_none { (b : BridgeState) → IsLegal b.settings b.tree → port_count b ≤ MAX_PORTS
        → ((facts_of b).root_port ≡ 0) ↔ ((port : ℕ) → ¬ IsRootPort b.tree port) }
    ensures none { (a : Mac) (ports : List PortConfig) (events : List Event) →
        length ports ≤ MAX_PORTS
        → ((facts_of (run a ports events)).root_port ≡ 0) ↔ ((port : ℕ) →
        ¬ IsRootPort (run a ports events).tree port) }
{}
