//! Each rule of one port, taken for all ports (IEEE 802.1D-2004 clause 17).
ghost use Rattle.std.specs.Prelude.{◌≡◌, map, length, ◌≤◌};
ghost use Rattle.std.specs.List.{list_any};
ghost use Rattle.rstp_rules.specs.Lines.{IsSmall};
ghost use Rattle.rstp_rules.specs.Roles.{after_expiry};
ghost use Rattle.rstp_rules.specs.Restarts.{after_link, after_settling};
ghost use Rattle.rstp_rules.specs.Arrivals.{after_receptions, spreads, after_change_notices};
ghost use Rattle.rstp_rules.specs.Ticks.{after_tick};
ghost use Rattle.rstp_rules.specs.Transitions.{after_first_transitions, has_proposal, after_synchronizations, no_recent_root, after_advances};
ghost use Rattle.rstp_rules.specs.Sends.{bpdu_of, after_sending, flushed_ports};
ghost use Rattle.rstp_core.specs.Passes.{rows_with_roles, after_hello_steps};
ghost use Rattle.rstp_core.specs.Tree.{ports_of};

use arrayvec::ArrayVec;
use frame_core::{Bpdu, BridgeId};
use rstp_rules::port::Port;
use rstp_rules::row::{Best, Context, PortInEvent, Timing};
use rstp_settings::settings::MAX_PORTS;

/// One second passes at all ports (17.22).
pub fn tick_all(rows: &mut [PortInEvent])
    ensures { rows.new ≡ map after_tick rows.old }
{
    for row in rows.iter_mut() {
        row.tick();
    }
}

/// The link of port `port` is up or down (17.19.18).
pub fn link_all(port: u16, up: bool, rows: &mut [PortInEvent])
    ensures { rows.new ≡ map (after_link port up) rows.old }
{
    for row in rows.iter_mut() {
        row.link(port, up);
    }
}

/// The settings of all ports are settled (17.13, 17.19.13).
pub fn settle_all(version_changed: bool, rows: &mut [PortInEvent])
    ensures { rows.new ≡ map (after_settling version_changed) rows.old }
{
    for row in rows.iter_mut() {
        row.settle(version_changed);
    }
}

/// A message at port `port`, as far as that port is concerned (17.21.8, 17.23).
pub fn receive_all(own: BridgeId, rstp: bool, port: u16, bpdu: &Bpdu, rows: &mut [PortInEvent])
    ensures { rows.new ≡ after_receptions own rstp port bpdu.now rows.old }
{
    for row in rows.iter_mut() {
        row.receive(own, rstp, port, bpdu);
    }
}

// Whether a message at port `port` signals a topology change to the other ports (17.21.17).
fn has_news(own: BridgeId, port: u16, bpdu: &Bpdu, rows: &[PortInEvent]) -> bool
    ensures { result ≡ list_any (spreads own port bpdu.now) rows.now }
{
    rows.iter().any(|row| row.spreads(own, port, bpdu))
}

/// The topology change of a message at port `port` (17.21.17, 17.21.18).
pub fn signal_all(timing: &Timing, own: BridgeId, port: u16, bpdu: &Bpdu, rows: &mut [PortInEvent])
    requires { IsSmall timing.now }
    ensures { rows.new ≡ after_change_notices timing.now own port bpdu.now rows.old }
{
    let change = has_news(own, port, bpdu, rows);
    for row in rows.iter_mut() {
        row.hear_change(timing, own, port, bpdu, change);
    }
}

/// Received vectors whose time is over are received no longer (17.21.23, 17.27).
pub fn expire_all(rows: &mut [PortInEvent])
    ensures { rows.new ≡ map after_expiry rows.old }
{
    for row in rows.iter_mut() {
        row.expire();
    }
}

/// Each port gets its role under this root (17.21.25).
pub fn choose_all(own: BridgeId, root: &Best, rows: &mut [PortInEvent])
    ensures { rows.new ≡ rows_with_roles own root.now rows.old }
{
    for row in rows.iter_mut() {
        row.choose_role(own, root);
    }
}

/// What follows at each port from its new role, vector and times (17.27, 17.29.2 to 17.29.4).
pub fn turn_all(context: &Context, rows: &mut [PortInEvent])
    ensures { rows.new ≡ map (after_first_transitions context.now) rows.old }
{
    for row in rows.iter_mut() {
        row.turn(context);
    }
}

// Whether a proposal was noted on the port that is now root (17.29.2).
fn is_proposed_to_root(rows: &[PortInEvent]) -> bool
    ensures { result ≡ has_proposal rows.now }
{
    rows.iter()
        .any(|row| row.port.role.is_root() && row.proposed)
}

/// Synchronizes the ports under version 2, where the root port was proposed to (17.21.14, 17.29.2,
/// 17.29.3).
pub fn synchronize_all(context: &Context, rows: &mut [PortInEvent])
    ensures { rows.new ≡ after_synchronizations context.now rows.old }
{
    if context.timing.rstp_version && is_proposed_to_root(rows) {
        for row in rows.iter_mut() {
            row.synchronize(context);
        }
    }
}

// Whether no port but the root port is a recent root (17.29.2).
fn has_no_recent_root(rows: &[PortInEvent]) -> bool
    ensures { result ≡ no_recent_root rows.now }
{
    rows.iter()
        .all(|row| row.port.role.is_root() || row.port.rr_while == 0)
}

/// Each port takes its next state, if it may (17.29.2, 17.29.3, 17.30).
pub fn advance_all(context: &Context, rows: &mut [PortInEvent])
    ensures { rows.new ≡ after_advances context.now rows.old }
{
    let clear = has_no_recent_root(rows);
    for row in rows.iter_mut() {
        row.advance(context, clear);
    }
}

/// The hello step, on a tick (17.26).
pub fn greet_all(tick: bool, context: &Context, rows: &mut [PortInEvent])
    ensures { rows.new ≡ after_hello_steps tick context.now rows.old }
{
    if tick {
        for row in rows.iter_mut() {
            row.hello_step(&context.timing);
        }
    }
}

/// What each port sends, port by port (17.26).
pub fn send_all(context: &Context, rows: &mut [PortInEvent]) -> ArrayVec<Option<Bpdu>, MAX_PORTS>
    requires { length rows.old ≤ MAX_PORTS }
    ensures bpdus { result.items ≡ map (bpdu_of context.now) rows.old }
    ensures rows { rows.new ≡ map (after_sending context.now) rows.old }
{
    let mut bpdus = ArrayVec::new();
    for row in rows.iter_mut() {
        bpdus.push(row.send(context));
    }
    bpdus
}

/// The numbers of the ports whose learned rows go, rising (17.11).
pub fn flushed_of(rows: &[PortInEvent]) -> ArrayVec<u16, MAX_PORTS>
    requires { length rows.now ≤ MAX_PORTS }
    ensures { result.items ≡ flushed_ports rows.now }
{
    let mut ports = ArrayVec::new();
    for row in rows {
        if row.flushed {
            ports.push(row.inputs.number);
        }
    }
    ports
}

/// What the rows leave of the ports.
pub fn ports_of(rows: &[PortInEvent]) -> ArrayVec<Port, MAX_PORTS>
    requires { length rows.now ≤ MAX_PORTS }
    ensures { result.items ≡ ports_of rows.now }
{
    let mut ports = ArrayVec::new();
    for row in rows {
        ports.push(row.port);
    }
    ports
}
