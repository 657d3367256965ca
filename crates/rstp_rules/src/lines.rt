//! What follows from the settings for a port, and the times in force (IEEE 802.1D-2004 9.2.5, 9.2.7,
//! 17.14, 17.18.4, 17.18.7, 17.20.6 to 17.20.8).
ghost use Rattle.std.specs.Prelude.{◌≡◌, ◌≤◌, length};
ghost use Rattle.std.specs.List.{find};
ghost use Rattle.std.specs.Option.{option_copied};
ghost use Rattle.rstp_settings.specs.Table.{IsPortOf};
ghost use Rattle.rstp_rules.specs.Ports.{is_root};
ghost use Rattle.rstp_rules.specs.Lines.{IsSmall, own_id, rstp_version, enabled_by, edge_by, line_of, row_of, seconds, in_256ths, timers_of, AreTimers, set_times, times_in_force, timing_of, context_of};

use crate::port::Port;
use crate::row::{Before, Best, Context, PortInEvent, PortInputs, Timing};
use crate::settled::{SettledPort, Timers};
use frame_core::{BridgeId, Mac, Times};
use rstp_settings::config::PortConfig;
use rstp_settings::key::{
    BridgeKey, EDGE_TRUE, Key, MIGRATION_CHECK, PORT_ENABLED, PortKey, VERSION_RSTP,
};
use rstp_settings::settings::{MAX_PORTS, Settings};

/// The bridge identifier under these settings (IEEE 802.1D-2004 9.2.5).
pub fn own_bridge_id(settings: &Settings, address: Mac) -> BridgeId
    ensures { result ≡ own_id settings.now address }
{
    BridgeId {
        priority: settings.get(Key::Bridge(BridgeKey::Priority)) as u16,
        address,
    }
}

/// Whether the version is RSTP (17.20.11).
pub fn has_rstp_version(settings: &Settings) -> bool
    ensures { result ≡ rstp_version settings.now }
{
    settings.get(Key::Bridge(BridgeKey::Version)) == VERSION_RSTP
}

/// Whether a port is enabled by its setting (RFC 4188 dot1dStpPortEnable).
pub fn is_enabled(settings: &Settings, port: u16) -> bool
    requires { IsPortOf (length settings.now.ports) port }
    ensures { result ≡ enabled_by settings.now port }
{
    settings.get(Key::Port(port, PortKey::Enable)) == PORT_ENABLED
}

/// Whether a port is set to be at the edge (17.13.1).
pub fn is_set_edge(settings: &Settings, port: u16) -> bool
    requires { IsPortOf (length settings.now.ports) port }
    ensures { result ≡ edge_by settings.now port }
{
    settings.get(Key::Port(port, PortKey::Edge)) == EDGE_TRUE
}

impl PortInputs {
    // What follows from the settings of port `port` and its link (6.4.3, 9.2.7, 17.14).
    fn of(
        settings: &Settings,
        settled: SettledPort,
        port: u16,
        config: &PortConfig,
        link: bool,
    ) -> Self
        requires port { IsPortOf (length settings.now.ports) port }
        requires small { port ≤ MAX_PORTS }
        ensures { result ≡ line_of settings.now settled port config.now link }
    {
        let enabled = is_enabled(settings, port);
        PortInputs {
            number: port,
            id: 256 * settings.get(Key::Port(port, PortKey::Priority)) as u16 + port,
            cost: config.cost_in_use(settings.get(Key::Port(port, PortKey::Cost))),
            enabled,
            on: enabled && link,
            point_to_point: config.is_point_to_point(settings.get(Key::Port(
                port,
                PortKey::PointToPoint,
            ))),
            edge: is_set_edge(settings, port),
            migrate: settings.get(Key::Port(port, PortKey::Migrate)) == MIGRATION_CHECK,
            was_enabled: settled.enabled,
            was_edge: settled.edge,
        }
    }
}

impl PortInEvent {
    /// The row of port `port` as an event begins.
    pub fn begin(
        settings: &Settings,
        settled: SettledPort,
        port: u16,
        config: &PortConfig,
        held: Port,
    ) -> Self
        requires port { IsPortOf (length settings.now.ports) port }
        requires small { port ≤ MAX_PORTS }
        ensures { result ≡ row_of settings.now settled port config.now held }
    {
        PortInEvent {
            inputs: PortInputs::of(settings, settled, port, config, held.link),
            was: Before {
                role: held.role,
                state: held.state,
                vector: held.vector,
            },
            port: held,
            proposed: false,
            flushed: false,
        }
    }
}

// A time in 1/256 s as seconds, rounded up and at least 1.
fn in_seconds(time: u16) -> u16
    ensures value { result ≡ seconds time }
    ensures small { result ≤ 256 }
{
    time.div_ceil(256).max(1)
}

// A time in 1/100 s in 1/256 s, rounded down.
fn from_hundredths(time: u32) -> u16
    requires { time ≤ 4000 }
    ensures { result ≡ in_256ths time }
{
    (time * 256 / 100) as u16
}

/// The three times of the settings (17.14).
pub fn timers(settings: &Settings) -> Timers
    ensures value { result ≡ timers_of settings.now }
    ensures range { AreTimers result }
{
    Timers {
        max_age: settings.get(Key::Bridge(BridgeKey::MaxAge)),
        hello: settings.get(Key::Bridge(BridgeKey::Hello)),
        forward_delay: settings.get(Key::Bridge(BridgeKey::ForwardDelay)),
    }
}

/// The times of the settings with message age 0 (17.18.4).
pub fn times_set(timers: Timers) -> Times
    requires { AreTimers timers }
    ensures { result ≡ set_times timers }
{
    Times {
        message_age: 0,
        max_age: from_hundredths(timers.max_age),
        hello: from_hundredths(timers.hello),
        forward_delay: from_hundredths(timers.forward_delay),
    }
}

// The row of the root port, if there is one.
fn root_row(rows: &[PortInEvent]) -> Option<&PortInEvent>
    ensures { option_copied result ≡ find (λ r. is_root r.port.role) rows.now }
{
    rows.iter().find(|row| row.port.role.is_root())
}

/// The times in force, where `timers` are those of the settings: the root port's a second later, or
/// those set (17.18.7, 17.21.25).
pub fn find_times(timers: Timers, rows: &[PortInEvent]) -> Times
    requires { AreTimers timers }
    ensures { result ≡ times_in_force timers rows.now }
{
    match root_row(rows) {
        None => times_set(timers),
        Some(row) => {
            let mut times = row.port.times;
            times.message_age = times.message_age.saturating_add(256);
            times
        }
    }
}

/// The version, and these times in seconds (17.20.6 to 17.20.8, 17.20.11).
pub fn make_timing(settings: &Settings, times: &Times) -> Timing
    ensures value { result ≡ timing_of settings.now times.now }
    ensures small { IsSmall result }
{
    Timing {
        rstp_version: has_rstp_version(settings),
        max_age: in_seconds(times.max_age),
        hello: in_seconds(times.hello),
        forward_delay: in_seconds(times.forward_delay),
    }
}

/// What holds for all ports in an event under a root (17.18).
pub fn make_context(
    settings: &Settings,
    own: BridgeId,
    root: Best,
    was_times: Times,
    times: Times,
) -> Context
    ensures value { result ≡ context_of settings.now own root was_times times }
    ensures small { IsSmall result.timing }
{
    Context {
        own,
        root,
        was_times,
        times,
        timing: make_timing(settings, &times),
        hold_count: settings.get(Key::Bridge(BridgeKey::HoldCount)) as u16,
    }
}
