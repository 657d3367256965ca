//! The root vector among the candidates of all ports (IEEE 802.1D-2004 17.21.25).
ghost use Rattle.rstp_rules.specs.Roles.{candidates, IsBest};

use frame_core::BridgeId;
use rstp_rules::row::{Best, PortInEvent};

/// The root vector (IEEE 802.1D-2004 17.21.25): the best of the bridge's own and what the ports
/// offer.
pub fn root_of(own: BridgeId, rows: &[PortInEvent]) -> Best
    ensures { IsBest (candidates own rows.now) result }
{
    let mut best = Best::own(own);
    for row in rows {
        best = best.or_better(row.candidate(own));
    }
    best
}
