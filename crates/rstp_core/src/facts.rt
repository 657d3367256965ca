//! What a bridge shows of its spanning tree (RFC 4188, dot1dStp; IEEE 802.1D-2004 17.18, 17.19).
ghost use Rattle.std.specs.Prelude.{◌≡◌};
ghost use Rattle.rstp_rules.specs.Vectors.{port_number};
ghost use Rattle.rstp_core.specs.Tree.{changes_after, since_after, facts_after};

use frame_core::Times;
use rstp_rules::row::{Best, Context};
use rstp_rules::vector;

/// What a bridge shows of its spanning tree (IEEE 802.1D-2004 17.18, 14.8.1.1).
#[derive(Clone, Copy, Debug, PartialEq, Eq)]
pub struct BridgeFacts {
    /// The root vector: the root's identifier and the cost of the path to it; and the port by which
    /// it came.
    pub root: Best,
    /// The times in force, in 1/256 s (IEEE 802.1D-2004 17.18.7).
    pub times: Times,
    /// How many topology changes there were, modulo 2^32 (14.8.1.1).
    pub topology_changes: u32,
    /// The seconds since no port signals a topology change any more, or since the opening where none
    /// was signalled; 0 while one is signalled. At most 2^64 - 1 (14.8.1.1).
    pub since: u64,
}

// A topology change is counted where one is signalled and none was (14.8.1.1).
fn changes_now(changes: u32, had: bool, has: bool) -> u32
    ensures { result ≡ changes_after changes had has }
{
    if has && !had {
        changes.wrapping_add(1)
    } else {
        changes
    }
}

// The seconds since no port signals a topology change (14.8.1.1).
fn since_now(tick: bool, since: u64, has: bool) -> u64
    ensures { result ≡ since_after tick since has }
{
    if has {
        0
    } else if tick {
        since.saturating_add(1)
    } else {
        since
    }
}

impl BridgeFacts {
    /// The number of the root port, or 0 where this bridge is root.
    pub fn root_port(&self) -> u16
        ensures { result ≡ port_number self.now.root.receiver }
    {
        vector::number_of_port(self.root.receiver)
    }

    /// The facts after an event: `had` and `has` say whether a topology change was signalled before
    /// it, and is signalled after it.
    pub(crate) fn renew(&mut self, tick: bool, context: &Context, had: bool, has: bool)
        ensures { self.new ≡ facts_after tick context.now had has self.old }
    {
        self.root = context.root;
        self.times = context.times;
        self.topology_changes = changes_now(self.topology_changes, had, has);
        self.since = since_now(tick, self.since, has);
    }
}
