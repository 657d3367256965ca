//! dot1dBase: the bridge and its ports (RFC 4188).
ghost use Rattle.std.specs.Prelude.{◌≡◌, [], ◌∷◌};
ghost use Rattle.message_core.specs.declared.value.Value.TheVariants.{ObjectIdentifier};
ghost use Rattle.bridge_core.specs.Bridge.{HasPort};
ghost use Rattle.setphase_core.specs.Columns.{base_value, base_port_value};

use crate::described::{Described, Descriptor};
use crate::values::{integer, string};
use bridge_core::Bridge;
use message_core::Value;
use oid_core::Oid;
use setphase_core::{
    Base, BasePort, Index, World, Writable, is_scalar, port_after, port_at, scalar_after,
};
use std::alloc::Global;

/// The managed object of a scalar of dot1dBase.
pub type BaseScalar = Described<Base>;

#[tactic(auto, unfolding(bridge_core::specs::Facts::facts_of))]
fn base_value(alloc: Global, which: Base, bridge: &Bridge) -> Value
    ensures { result ≡ base_value which bridge.now }
{
    match which {
        Base::BridgeAddress => string(alloc, &bridge.facts().address.0),
        Base::NumPorts => integer(bridge.ports() as u32),
        Base::Type => integer(2),
    }
}

impl Descriptor for Base {
    ghost use Rattle.setphase_core.specs.declared.column.Column.TheVariants as columns;

    ghost column = { columns.Base };

    fn prefix(self) -> &'static [u32] {
        match self {
            Base::BridgeAddress => &[1, 3, 6, 1, 2, 1, 17, 1, 1],
            Base::NumPorts => &[1, 3, 6, 1, 2, 1, 17, 1, 2],
            Base::Type => &[1, 3, 6, 1, 2, 1, 17, 1, 3],
        }
    }

    #[tactic(auto, unfolding(setphase_core::specs::Columns::shown_by))]
    fn read_into(self, alloc: Global, world: &World, at: &[u32], into: &mut Value) -> bool {
        if !is_scalar(at) {
            return false;
        }
        *into = base_value(alloc, self, &world.bridge);
        true
    }

    #[tactic(auto, unfolding(setphase_core::specs::Columns::shown_by))]
    fn next_into(self, _world: &World, after: Option<&[u32]>, into: &mut Index) -> bool {
        scalar_after(after, into)
    }

    fn writable(self) -> Option<Writable> {
        None
    }
}

/// The managed object of a column of dot1dBasePortTable.
pub type BasePortColumn = Described<BasePort>;

// The name 0.0, which names nothing (RFC 2578, 7.1.3, zeroDotZero). It takes no memory.
fn no_circuit(alloc: Global) -> Value
    ensures { result ≡ ObjectIdentifier (0 ∷ 0 ∷ []) }
{
    match Oid::from_slice(alloc, &[0, 0]) {
        Ok(name) => Value::ObjectIdentifier(name),
        Err(_) => unreachable!(),
    }
}

fn base_port_value(alloc: Global, which: BasePort, bridge: &Bridge, port: u16) -> Value
    requires { HasPort bridge.now port }
    ensures { result ≡ base_port_value which bridge.now port }
{
    match which {
        BasePort::Port => integer(u32::from(port)),
        BasePort::IfIndex => integer(bridge.port_facts(port).ifindex),
        BasePort::Circuit => no_circuit(alloc),
        BasePort::DelayExceededDiscards | BasePort::MtuExceededDiscards => Value::Counter32(0),
    }
}

impl Descriptor for BasePort {
    ghost use Rattle.setphase_core.specs.declared.column.Column.TheVariants as columns;

    ghost column = { columns.BasePort };

    fn prefix(self) -> &'static [u32] {
        match self {
            BasePort::Port => &[1, 3, 6, 1, 2, 1, 17, 1, 4, 1, 1],
            BasePort::IfIndex => &[1, 3, 6, 1, 2, 1, 17, 1, 4, 1, 2],
            BasePort::Circuit => &[1, 3, 6, 1, 2, 1, 17, 1, 4, 1, 3],
            BasePort::DelayExceededDiscards => &[1, 3, 6, 1, 2, 1, 17, 1, 4, 1, 4],
            BasePort::MtuExceededDiscards => &[1, 3, 6, 1, 2, 1, 17, 1, 4, 1, 5],
        }
    }

    #[tactic(auto, unfolding(setphase_core::specs::Columns::shown_by))]
    fn read_into(self, alloc: Global, world: &World, at: &[u32], into: &mut Value) -> bool {
        let Some(port) = port_at(world.bridge.ports(), at) else {
            return false;
        };
        *into = base_port_value(alloc, self, &world.bridge, port);
        true
    }

    #[tactic(auto, unfolding(setphase_core::specs::Columns::shown_by))]
    fn next_into(self, world: &World, after: Option<&[u32]>, into: &mut Index) -> bool {
        port_after(world.bridge.ports(), after, into)
    }

    fn writable(self) -> Option<Writable> {
        None
    }
}
