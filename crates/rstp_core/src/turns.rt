//! The turns of the ports that became forwarding (IEEE 802.1D-2004 17.31).
ghost use Rattle.std.specs.Prelude.{◌≡◌, ◌<◌, map, length};
ghost use Rattle.rstp_rules.specs.Lines.{IsSmall};
ghost use Rattle.rstp_rules.specs.Turns.{with_change_spread_but, turn_at, turns};

use rstp_rules::row::{PortInEvent, Timing};

// The other ports signal the change too (17.21.18).
fn spread_others(timing: &Timing, port: u16, rows: &mut [PortInEvent])
    requires { IsSmall timing.now }
    ensures { rows.new ≡ map (with_change_spread_but timing.now port) rows.old }
{
    for row in rows.iter_mut() {
        row.spread_but(timing, port);
    }
}

// The turn of the row at this place (17.31).
fn take_turn(timing: &Timing, rows: &mut [PortInEvent], at: usize)
    requires small { IsSmall timing.now }
    requires at { at < length rows.old }
    ensures { rows.new ≡ turn_at timing.now rows.old at }
{
    let row = rows[at];
    if row.has_begun() {
        rows[at].begin_forwarding(timing);
        if !row.port.oper_edge {
            spread_others(timing, row.inputs.number, rows);
        }
    }
}

/// Each port that became forwarding starts a topology change, in ascending order (IEEE 802.1D-2004
/// 17.31).
pub fn take_turns(timing: &Timing, rows: &mut [PortInEvent])
    requires { IsSmall timing.now }
    ensures { rows.new ≡ turns timing.now rows.old }
{
    for i in 0..rows.len() {
        take_turn(timing, rows, i);
    }
}
