//! dot1dStpExtPortTable (RFC 4318).
ghost use Rattle.std.specs.Prelude.{◌≡◌};
ghost use Rattle.bridge_core.specs.Bridge.{HasPort};
ghost use Rattle.setphase_core.specs.Columns.{truth, ext_port_value};

use bridge_core::Bridge;
use bridge_mib::values::{integer, port_setting};
use bridge_mib::written::writable_column;
use bridge_mib::{Described, Descriptor};
use message_core::Value;
use rstp_core::PortKey;
use setphase_core::{ExtPort, Index, World, Writable, port_after, port_at};
use std::alloc::Global;

/// A column of dot1dStpExtPortTable, by its descriptor.
#[derive(Clone, Copy, Debug)]
pub struct ExtPortDescriptor(pub ExtPort);

/// The managed object of a column of dot1dStpExtPortTable.
pub type ExtPortColumn = Described<ExtPortDescriptor>;

// TruthValue: 1 is true, 2 is false (RFC 2579).
fn truth(is_so: bool) -> Value
    ensures { result ≡ truth is_so }
{
    integer(if is_so { 1 } else { 2 })
}

fn ext_port_value(which: ExtPort, bridge: &Bridge, port: u16) -> Value
    requires { HasPort bridge.now port }
    ensures { result ≡ ext_port_value which bridge.now port }
{
    match which {
        ExtPort::ProtocolMigration => integer(2),
        ExtPort::AdminEdgePort => port_setting(bridge, port, PortKey::Edge),
        ExtPort::OperEdgePort => truth(bridge.port_facts(port).oper_edge),
        ExtPort::AdminPointToPoint => port_setting(bridge, port, PortKey::PointToPoint),
        ExtPort::OperPointToPoint => truth(bridge.port_facts(port).point_to_point),
        ExtPort::AdminPathCost => port_setting(bridge, port, PortKey::Cost),
    }
}

impl Descriptor for ExtPortDescriptor {
    ghost use Rattle.setphase_core.specs.declared.column.Column.TheVariants as columns;

    ghost column = { λ d. columns.ExtPort d.0 };

    fn prefix(self) -> &'static [u32] {
        match self.0 {
            ExtPort::ProtocolMigration => &[1, 3, 6, 1, 2, 1, 17, 2, 19, 1, 1],
            ExtPort::AdminEdgePort => &[1, 3, 6, 1, 2, 1, 17, 2, 19, 1, 2],
            ExtPort::OperEdgePort => &[1, 3, 6, 1, 2, 1, 17, 2, 19, 1, 3],
            ExtPort::AdminPointToPoint => &[1, 3, 6, 1, 2, 1, 17, 2, 19, 1, 4],
            ExtPort::OperPointToPoint => &[1, 3, 6, 1, 2, 1, 17, 2, 19, 1, 5],
            ExtPort::AdminPathCost => &[1, 3, 6, 1, 2, 1, 17, 2, 19, 1, 6],
        }
    }

    #[tactic(auto, unfolding(setphase_core::specs::Columns::shown_by))]
    fn read_into(self, _alloc: Global, world: &World, at: &[u32], into: &mut Value) -> bool {
        let Some(port) = port_at(world.bridge.ports(), at) else {
            return false;
        };
        *into = ext_port_value(self.0, &world.bridge, port);
        true
    }

    #[tactic(auto, unfolding(setphase_core::specs::Columns::shown_by))]
    fn next_into(self, world: &World, after: Option<&[u32]>, into: &mut Index) -> bool {
        port_after(world.bridge.ports(), after, into)
    }

    fn writable(self) -> Option<Writable> {
        match self.0 {
            ExtPort::ProtocolMigration => writable_column(PortKey::Migrate, 1, 2, 1),
            ExtPort::AdminEdgePort => writable_column(PortKey::Edge, 1, 2, 1),
            ExtPort::AdminPointToPoint => writable_column(PortKey::PointToPoint, 0, 2, 1),
            ExtPort::AdminPathCost => writable_column(PortKey::Cost, 0, 200_000_000, 1),
            ExtPort::OperEdgePort | ExtPort::OperPointToPoint => None,
        }
    }
}
