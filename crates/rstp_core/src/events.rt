//! The passes that each event makes over the ports, in their order (IEEE 802.1D-2004 17.21.25,
//! 17.26, 17.29 to 17.31).
ghost use Rattle.std.specs.Prelude.{◌≡◌, length, ◌≤◌};
ghost use Rattle.rstp_rules.specs.Lines.{IsSmall};
ghost use Rattle.rstp_rules.specs.Arrivals.{after_arrival};
ghost use Rattle.rstp_core.specs.Passes.{after_turns};
ghost use Rattle.rstp_core.specs.Tree.{rows_from, has_change, Concludes};

use crate::rstp::Outcome;
use crate::settled::Settled;
use crate::{loops, roles, turns};
use arrayvec::ArrayVec;
use frame_core::{Bpdu, BridgeId, Times};
use rstp_rules::lines;
use rstp_rules::port::Port;
use rstp_rules::row::{Context, PortInEvent};
use rstp_settings::config::PortConfig;
use rstp_settings::settings::{MAX_PORTS, Settings};

/// The rows of all ports as an event begins.
pub fn begin_all(
    settings: &Settings,
    settled: &Settled,
    config: &[PortConfig],
    ports: &[Port],
) -> ArrayVec<PortInEvent, MAX_PORTS>
    requires settled { length settled.now.ports ≡ length ports.now }
    requires settings { length settings.now.ports ≡ length ports.now }
    requires config { length config.now ≡ length ports.now }
    requires few { length ports.now ≤ MAX_PORTS }
    ensures rows { result.items ≡ rows_from settings.now settled.now 1 config.now ports.now }
    ensures count { length result.items ≡ length ports.now }
{
    let mut rows = ArrayVec::new();
    for i in 0..ports.len() {
        let port = i as u16 + 1;
        let settled = settled.port(port);
        rows.push(PortInEvent::begin(settings, settled, port, &config[i], ports[i]));
    }
    rows
}

/// Whether some port signals a topology change.
pub fn has_changes(ports: &[Port]) -> bool
    ensures { result ≡ has_change ports.now }
{
    ports.iter().any(|port| port.tc_while > 0)
}

/// A message at port `port`: what it says to the port, and then the topology change (17.21.8,
/// 17.21.17, 17.21.18, 17.23).
pub fn arrive_all(
    settings: &Settings,
    own: BridgeId,
    port: u16,
    bpdu: &Bpdu,
    rows: &mut [PortInEvent],
)
    ensures { rows.new ≡ after_arrival settings.now own port bpdu.now rows.old }
{
    loops::receive_all(own, lines::has_rstp_version(settings), port, bpdu, rows);
    let times = lines::find_times(lines::timers(settings), rows);
    let timing = lines::make_timing(settings, &times);
    loops::signal_all(&timing, own, port, bpdu, rows);
}

// The states, by the roles (17.29 to 17.31).
fn move_all(context: &Context, rows: &mut [PortInEvent])
    requires { IsSmall context.now.timing }
    ensures { rows.new ≡ after_turns context.now rows.old }
{
    loops::turn_all(context, rows);
    loops::synchronize_all(context, rows);
    loops::advance_all(context, rows);
    turns::take_turns(&context.timing, rows);
}

/// The end of each event: roles, states, messages; on a tick the hello step (17.21.25, 17.26, 17.29
/// to 17.31). `was_times` are the times in force before it.
pub fn conclude(
    settings: &Settings,
    own: BridgeId,
    tick: bool,
    was_times: Times,
    rows: &mut [PortInEvent],
) -> (Context, Outcome)
    requires { length rows.old ≤ MAX_PORTS }
    ensures event { Concludes settings.now own tick was_times rows.old result.0 rows.new result.1 }
    ensures bpdus { length result.1.bpdus.items ≡ length rows.old }
{
    loops::expire_all(rows);
    let root = roles::root_of(own, rows);
    loops::choose_all(own, &root, rows);
    let times = lines::find_times(lines::timers(settings), rows);
    let context = lines::make_context(settings, own, root, was_times, times);
    move_all(&context, rows);
    loops::greet_all(tick, &context, rows);
    let flushed = loops::flushed_of(rows);
    let bpdus = loops::send_all(&context, rows);
    (context, Outcome { bpdus, flushed })
}
