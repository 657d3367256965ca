//! dot1dStp: the spanning tree and its ports (RFC 4188).
ghost use Rattle.std.specs.Prelude.{◌≡◌};
ghost use Rattle.bridge_core.specs.Bridge.{HasPort};
ghost use Rattle.setphase_core.specs.Columns.{stp_value, stp_port_value};

use crate::described::{Described, Descriptor};
use crate::values::{
    bridge_identifier, bridge_setting, cost, integer, path_cost, port_identifier, port_setting,
    port_state, ticks, timeout,
};
use crate::written::{writable_column, writable_scalar};
use bridge_core::Bridge;
use message_core::Value;
use rstp_core::{BridgeKey, PortKey};
use setphase_core::{
    Index, MAX_PATH_COST, Stp, StpPort, World, Writable, is_scalar, port_after, port_at,
    scalar_after,
};
use std::alloc::Global;

/// The managed object of a scalar of dot1dStp.
pub type StpScalar = Described<Stp>;

fn stp_value(alloc: Global, which: Stp, bridge: &Bridge) -> Value
    ensures { result ≡ stp_value which bridge.now }
{
    let facts = bridge.facts();
    match which {
        Stp::ProtocolSpecification => integer(3),
        Stp::Priority => bridge_setting(bridge, BridgeKey::Priority),
        Stp::TimeSinceTopologyChange => ticks(facts.since),
        Stp::TopChanges => Value::Counter32(facts.topology_changes),
        Stp::DesignatedRoot => bridge_identifier(alloc, &facts.root),
        Stp::RootCost => cost(facts.root_cost),
        Stp::RootPort => integer(u32::from(facts.root_port)),
        Stp::MaxAge => timeout(facts.times.max_age),
        Stp::HelloTime => timeout(facts.times.hello),
        Stp::HoldTime => integer(100),
        Stp::ForwardDelay => timeout(facts.times.forward_delay),
        Stp::BridgeMaxAge => bridge_setting(bridge, BridgeKey::MaxAge),
        Stp::BridgeHelloTime => bridge_setting(bridge, BridgeKey::Hello),
        Stp::BridgeForwardDelay => bridge_setting(bridge, BridgeKey::ForwardDelay),
    }
}

impl Descriptor for Stp {
    ghost use Rattle.setphase_core.specs.declared.column.Column.TheVariants as columns;

    ghost column = { columns.Stp };

    fn prefix(self) -> &'static [u32] {
        match self {
            Stp::ProtocolSpecification => &[1, 3, 6, 1, 2, 1, 17, 2, 1],
            Stp::Priority => &[1, 3, 6, 1, 2, 1, 17, 2, 2],
            Stp::TimeSinceTopologyChange => &[1, 3, 6, 1, 2, 1, 17, 2, 3],
            Stp::TopChanges => &[1, 3, 6, 1, 2, 1, 17, 2, 4],
            Stp::DesignatedRoot => &[1, 3, 6, 1, 2, 1, 17, 2, 5],
            Stp::RootCost => &[1, 3, 6, 1, 2, 1, 17, 2, 6],
            Stp::RootPort => &[1, 3, 6, 1, 2, 1, 17, 2, 7],
            Stp::MaxAge => &[1, 3, 6, 1, 2, 1, 17, 2, 8],
            Stp::HelloTime => &[1, 3, 6, 1, 2, 1, 17, 2, 9],
            Stp::HoldTime => &[1, 3, 6, 1, 2, 1, 17, 2, 10],
            Stp::ForwardDelay => &[1, 3, 6, 1, 2, 1, 17, 2, 11],
            Stp::BridgeMaxAge => &[1, 3, 6, 1, 2, 1, 17, 2, 12],
            Stp::BridgeHelloTime => &[1, 3, 6, 1, 2, 1, 17, 2, 13],
            Stp::BridgeForwardDelay => &[1, 3, 6, 1, 2, 1, 17, 2, 14],
        }
    }

    #[tactic(auto, unfolding(setphase_core::specs::Columns::shown_by))]
    fn read_into(self, alloc: Global, world: &World, at: &[u32], into: &mut Value) -> bool {
        if !is_scalar(at) {
            return false;
        }
        *into = stp_value(alloc, self, &world.bridge);
        true
    }

    #[tactic(auto, unfolding(setphase_core::specs::Columns::shown_by))]
    fn next_into(self, _world: &World, after: Option<&[u32]>, into: &mut Index) -> bool {
        scalar_after(after, into)
    }

    fn writable(self) -> Option<Writable> {
        match self {
            Stp::Priority => writable_scalar(BridgeKey::Priority, 0, 61_440, 4_096),
            Stp::BridgeMaxAge => writable_scalar(BridgeKey::MaxAge, 600, 4_000, 100),
            Stp::BridgeHelloTime => writable_scalar(BridgeKey::Hello, 100, 1_000, 100),
            Stp::BridgeForwardDelay => writable_scalar(BridgeKey::ForwardDelay, 400, 3_000, 100),
            _ => None,
        }
    }
}

/// The managed object of a column of dot1dStpPortTable.
pub type StpPortColumn = Described<StpPort>;

fn stp_port_value(alloc: Global, which: StpPort, bridge: &Bridge, port: u16) -> Value
    requires { HasPort bridge.now port }
    ensures { result ≡ stp_port_value which bridge.now port }
{
    let facts = bridge.port_facts(port);
    match which {
        StpPort::Port => integer(u32::from(port)),
        StpPort::Priority => port_setting(bridge, port, PortKey::Priority),
        StpPort::State => port_state(&facts),
        StpPort::Enable => port_setting(bridge, port, PortKey::Enable),
        StpPort::PathCost => integer(facts.cost.min(MAX_PATH_COST)),
        StpPort::DesignatedRoot => bridge_identifier(alloc, &facts.vector.root),
        StpPort::DesignatedCost => cost(facts.vector.cost),
        StpPort::DesignatedBridge => bridge_identifier(alloc, &facts.vector.bridge),
        StpPort::DesignatedPort => port_identifier(alloc, facts.vector.port),
        StpPort::ForwardTransitions => Value::Counter32(facts.forward_transitions),
        StpPort::PathCost32 => integer(path_cost(bridge, port)),
    }
}

impl Descriptor for StpPort {
    ghost use Rattle.setphase_core.specs.declared.column.Column.TheVariants as columns;

    ghost column = { columns.StpPort };

    fn prefix(self) -> &'static [u32] {
        match self {
            StpPort::Port => &[1, 3, 6, 1, 2, 1, 17, 2, 15, 1, 1],
            StpPort::Priority => &[1, 3, 6, 1, 2, 1, 17, 2, 15, 1, 2],
            StpPort::State => &[1, 3, 6, 1, 2, 1, 17, 2, 15, 1, 3],
            StpPort::Enable => &[1, 3, 6, 1, 2, 1, 17, 2, 15, 1, 4],
            StpPort::PathCost => &[1, 3, 6, 1, 2, 1, 17, 2, 15, 1, 5],
            StpPort::DesignatedRoot => &[1, 3, 6, 1, 2, 1, 17, 2, 15, 1, 6],
            StpPort::DesignatedCost => &[1, 3, 6, 1, 2, 1, 17, 2, 15, 1, 7],
            StpPort::DesignatedBridge => &[1, 3, 6, 1, 2, 1, 17, 2, 15, 1, 8],
            StpPort::DesignatedPort => &[1, 3, 6, 1, 2, 1, 17, 2, 15, 1, 9],
            StpPort::ForwardTransitions => &[1, 3, 6, 1, 2, 1, 17, 2, 15, 1, 10],
            StpPort::PathCost32 => &[1, 3, 6, 1, 2, 1, 17, 2, 15, 1, 11],
        }
    }

    #[tactic(auto, unfolding(setphase_core::specs::Columns::shown_by))]
    fn read_into(self, alloc: Global, world: &World, at: &[u32], into: &mut Value) -> bool {
        let Some(port) = port_at(world.bridge.ports(), at) else {
            return false;
        };
        *into = stp_port_value(alloc, self, &world.bridge, port);
        true
    }

    #[tactic(auto, unfolding(setphase_core::specs::Columns::shown_by))]
    fn next_into(self, world: &World, after: Option<&[u32]>, into: &mut Index) -> bool {
        port_after(world.bridge.ports(), after, into)
    }

    fn writable(self) -> Option<Writable> {
        match self {
            StpPort::Priority => writable_column(PortKey::Priority, 0, 240, 16),
            StpPort::Enable => writable_column(PortKey::Enable, 1, 2, 1),
            StpPort::PathCost => writable_column(PortKey::Cost, 1, MAX_PATH_COST, 1),
            StpPort::PathCost32 => writable_column(PortKey::Cost, 1, 200_000_000, 1),
            _ => None,
        }
    }
}
