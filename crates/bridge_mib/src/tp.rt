//! dot1dTp: learned addresses, and what ports pass on (RFC 4188).
ghost use Rattle.std.specs.Prelude.{◌≡◌};
ghost use Rattle.bridge_core.specs.Bridge.{HasPort};
ghost use Rattle.setphase_core.specs.Columns.{tp_value, tp_port_value};

use crate::described::{Described, Descriptor};
use crate::values::{bridge_setting, integer};
use crate::written::writable_scalar;
use bridge_core::Bridge;
use message_core::Value;
use rstp_core::BridgeKey;
use rstp_settings::key::{MAX_AGING, MIN_AGING};
use setphase_core::{
    Index, MAX_INFO, Tp, TpPort, World, Writable, is_scalar, port_after, port_at, scalar_after,
};
use std::alloc::Global;

/// The managed object of a scalar of dot1dTp.
pub type TpScalar = Described<Tp>;

fn tp_value(which: Tp, bridge: &Bridge) -> Value
    ensures { result ≡ tp_value which bridge.now }
{
    match which {
        Tp::LearnedEntryDiscards => Value::Counter32(bridge.facts().entry_discards),
        Tp::AgingTime => bridge_setting(bridge, BridgeKey::Aging),
    }
}

impl Descriptor for Tp {
    ghost use Rattle.setphase_core.specs.declared.column.Column.TheVariants as columns;

    ghost column = { columns.Tp };

    fn prefix(self) -> &'static [u32] {
        match self {
            Tp::LearnedEntryDiscards => &[1, 3, 6, 1, 2, 1, 17, 4, 1],
            Tp::AgingTime => &[1, 3, 6, 1, 2, 1, 17, 4, 2],
        }
    }

    #[tactic(auto, unfolding(setphase_core::specs::Columns::shown_by))]
    fn read_into(self, _alloc: Global, world: &World, at: &[u32], into: &mut Value) -> bool {
        if !is_scalar(at) {
            return false;
        }
        *into = tp_value(self, &world.bridge);
        true
    }

    #[tactic(auto, unfolding(setphase_core::specs::Columns::shown_by))]
    fn next_into(self, _world: &World, after: Option<&[u32]>, into: &mut Index) -> bool {
        scalar_after(after, into)
    }

    fn writable(self) -> Option<Writable> {
        match self {
            Tp::LearnedEntryDiscards => None,
            Tp::AgingTime => writable_scalar(BridgeKey::Aging, MIN_AGING, MAX_AGING, 1),
        }
    }
}

/// The managed object of a column of dot1dTpPortTable.
pub type TpPortColumn = Described<TpPort>;

fn tp_port_value(which: TpPort, bridge: &Bridge, port: u16) -> Value
    requires { HasPort bridge.now port }
    ensures { result ≡ tp_port_value which bridge.now port }
{
    match which {
        TpPort::Port => integer(u32::from(port)),
        TpPort::MaxInfo => integer(MAX_INFO),
        TpPort::InFrames => Value::Counter32(bridge.port_facts(port).frames_in),
        TpPort::OutFrames => Value::Counter32(bridge.port_facts(port).frames_out),
        TpPort::InDiscards => Value::Counter32(bridge.port_facts(port).discards_in),
    }
}

impl Descriptor for TpPort {
    ghost use Rattle.setphase_core.specs.declared.column.Column.TheVariants as columns;

    ghost column = { columns.TpPort };

    fn prefix(self) -> &'static [u32] {
        match self {
            TpPort::Port => &[1, 3, 6, 1, 2, 1, 17, 4, 4, 1, 1],
            TpPort::MaxInfo => &[1, 3, 6, 1, 2, 1, 17, 4, 4, 1, 2],
            TpPort::InFrames => &[1, 3, 6, 1, 2, 1, 17, 4, 4, 1, 3],
            TpPort::OutFrames => &[1, 3, 6, 1, 2, 1, 17, 4, 4, 1, 4],
            TpPort::InDiscards => &[1, 3, 6, 1, 2, 1, 17, 4, 4, 1, 5],
        }
    }

    #[tactic(auto, unfolding(setphase_core::specs::Columns::shown_by))]
    fn read_into(self, _alloc: Global, world: &World, at: &[u32], into: &mut Value) -> bool {
        let Some(port) = port_at(world.bridge.ports(), at) else {
            return false;
        };
        *into = tp_port_value(self, &world.bridge, port);
        true
    }

    #[tactic(auto, unfolding(setphase_core::specs::Columns::shown_by))]
    fn next_into(self, world: &World, after: Option<&[u32]>, into: &mut Index) -> bool {
        port_after(world.bridge.ports(), after, into)
    }

    fn writable(self) -> Option<Writable> {
        None
    }
}
