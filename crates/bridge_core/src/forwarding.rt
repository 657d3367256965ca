//! By which ports a frame goes out (IEEE 802.1D-2004 7.7, 7.9, 7.12).
ghost use Rattle.std.specs.Prelude.{◌≡◌, ◌↔◌, ◌≤◌, ◌<◌, ◌+◌, ℕ, length, [], ◌∷◌, ◌++◌, if◌then◌else◌, None, IsTrue};
ghost use Rattle.rstp_settings.specs.Table.{IsPortOf};
ghost use Rattle.rstp_core.specs.Tree.{HasPort};
ghost use Rattle.bridge_core.specs.Counting.{with_frame_out, sent_where};
ghost use Rattle.bridge_core.specs.Forwarding.{is_reserved, may_go, ports_where};
ghost use Rattle.bridge_core.specs.ForwardingInside.{is_way, leads, is_open, goes_by};

use crate::counters::PortCounters;
use crate::statics::find_listed;
use arrayvec::ArrayVec;
use fdb_core::{Fdb, PortSet, StaticTable};
use frame_core::{BRIDGE_GROUP, Mac};
use rstp_core::{MAX_PORTS, Rstp, State};

/// By which ports a frame may go, of those that forward and are not its own.
#[derive(Clone, Copy, Debug, PartialEq, Eq)]
pub enum Way<'a> {
    /// By no port.
    Nowhere,
    /// By each of them.
    Anywhere,
    /// By the port of this number.
    By(u16),
    /// By the ports of a static row.
    Listed(&'a PortSet),
}

/// Whether an address is one of 0180C2000000 to 0180C200000F, which no bridge forwards (7.12.6).
pub fn is_reserved(address: Mac) -> bool
    ensures { result ≡ is_reserved address }
{
    address.0[..5] == BRIDGE_GROUP.0[..5] && address.0[5] < 16
}

// The way of a frame to an address for which no static row is listed: to the port at which it is
// learned, or anywhere.
fn find_learned<'a>(fdb: &Fdb, destination: Mac) -> Way<'a>
    ensures { (out : ℕ) → leads result out ≡ may_go None fdb.now.rows destination out }
{
    if destination.is_group() {
        return Way::Anywhere;
    }
    match fdb.find(destination) {
        Some(port) => Way::By(port),
        None => Way::Anywhere,
    }
}

/// By which ports a frame to this destination may go, where it came by this port, of this state. An
/// empty static table is not searched.
pub fn find_way<'a>(
    fdb: &Fdb,
    statics: &'a StaticTable,
    own: Mac,
    state: State,
    from: u16,
    destination: Mac,
) -> Way<'a>
    ensures { (out : ℕ) → leads result out
        ≡ is_way fdb.now.rows statics.now.rows own state from destination out }
{
    if !state.is_forwarding() || is_reserved(destination) || destination.is_same(own) {
        return Way::Nowhere;
    }
    match find_listed(statics, from, destination) {
        Some(row) => Way::Listed(&row.ports),
        None => find_learned(fdb, destination),
    }
}

// Whether a port is open to a frame that came by another one: it forwards, and it is not that port.
fn is_open(port: u16, from: u16, tree: &Rstp) -> bool
    requires { HasPort tree.now port }
    ensures { result ≡ is_open from tree.now port }
{
    tree.state(port).is_forwarding() && port != from
}

// Whether a way leads to a port.
fn leads(way: &Way<'_>, port: u16) -> bool
    requires { 1 ≤ port }
    ensures { result ≡ leads way.now port }
{
    match way {
        Way::Nowhere => false,
        Way::Anywhere => true,
        Way::By(one) => *one == port,
        Way::Listed(ports) => ports.has(port),
    }
}

// Whether a frame that came by a port goes out by another one.
fn goes_by(way: &Way<'_>, port: u16, from: u16, tree: &Rstp) -> bool
    requires { HasPort tree.now port }
    ensures { result ≡ goes_by (leads way.now) from tree.now port }
{
    is_open(port, from, tree) && leads(way, port)
}

// Whether there is a port of this number, where there are so many.
fn is_port(port: u16, count: usize) -> bool
    ensures { IsTrue result ↔ IsPortOf count port }
{
    port >= 1 && port as usize <= count
}

fn send_one(
    goes: bool,
    port: u16,
    counters: &mut PortCounters,
    egress: &mut ArrayVec<u16, MAX_PORTS>,
)
    requires { length egress.old.items < MAX_PORTS }
    ensures counters { counters.new ≡ with_frame_out goes counters.old }
    ensures egress { egress.new.items ≡ (if goes then egress.old.items
        ++ port ∷ [] else egress.old.items) }
    ensures most { length egress.new.items ≤ length egress.old.items + 1 }
{
    counters.send(goes);
    if goes {
        egress.push(port);
    }
}

// Sends a frame by the port of this number, where there is one and it is open.
#[tactic(auto, using(crate::proofs::Single::ports_by_one, crate::proofs::Single::sent_by_one, crate::proofs::Single::ports_by_none, crate::proofs::Single::sent_by_none))]
fn send_to_one(
    one: u16,
    from: u16,
    tree: &Rstp,
    counters: &mut [PortCounters],
    egress: &mut ArrayVec<u16, MAX_PORTS>,
)
    requires ports { length counters.old ≡ length tree.now.ports }
    requires empty { egress.old.items ≡ [] }
    ensures egress { egress.new.items ≡ ports_where (goes_by (leads (Way.By one)) from tree.now)
        (length tree.now.ports) }
    ensures counters { counters.new
        ≡ sent_where (goes_by (leads (Way.By one)) from tree.now) counters.old }
{
    if is_port(one, counters.len()) {
        let goes = is_open(one, from, tree);
        send_one(goes, one, &mut counters[one as usize - 1], egress);
    }
}

// Sends a frame by the open ports to which the way leads. It tests all ports.
fn send_to_each(
    way: &Way<'_>,
    from: u16,
    tree: &Rstp,
    counters: &mut [PortCounters],
    egress: &mut ArrayVec<u16, MAX_PORTS>,
)
    requires ports { length counters.old ≡ length tree.now.ports }
    requires few { length tree.now.ports ≤ MAX_PORTS }
    requires empty { egress.old.items ≡ [] }
    ensures egress { egress.new.items ≡ ports_where (goes_by (leads way.now) from tree.now)
        (length tree.now.ports) }
    ensures counters { counters.new
        ≡ sent_where (goes_by (leads way.now) from tree.now) counters.old }
{
    for i in 0..counters.len() {
        let port = i as u16 + 1;
        let goes = goes_by(way, port, from, tree);
        send_one(goes, port, &mut counters[i], egress);
    }
}

/// Sends a frame by the forwarding ports to which the way leads, but for the port by which it came;
/// counts it there, and answers their numbers, rising. It tests all ports only where the way may
/// lead to more than one. Each such way is named at its call, so that no port asks again which it is.
#[tactic(auto, using(crate::proofs::Single::ports_nowhere, crate::proofs::Single::sent_nowhere))]
pub fn send_out(
    way: Way<'_>,
    from: u16,
    tree: &Rstp,
    counters: &mut [PortCounters],
) -> ArrayVec<u16, MAX_PORTS>
    requires ports { length counters.old ≡ length tree.now.ports }
    requires few { length tree.now.ports ≤ MAX_PORTS }
    ensures egress { result.items ≡ ports_where (goes_by (leads way.entry) from tree.now)
        (length tree.now.ports) }
    ensures counters { counters.new
        ≡ sent_where (goes_by (leads way.entry) from tree.now) counters.old }
{
    let mut egress = ArrayVec::new();
    match way {
        Way::Nowhere => {}
        Way::By(one) => send_to_one(one, from, tree, counters, &mut egress),
        Way::Anywhere => send_to_each(&Way::Anywhere, from, tree, counters, &mut egress),
        Way::Listed(ports) => {
            send_to_each(&Way::Listed(ports), from, tree, counters, &mut egress);
        }
    }
    egress
}
