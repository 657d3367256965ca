//! The scalars that RSTP-MIB adds to dot1dStp (RFC 4318).
ghost use Rattle.std.specs.Prelude.{◌≡◌};
ghost use Rattle.setphase_core.specs.Columns.{rapid_value};

use bridge_core::Bridge;
use bridge_mib::values::bridge_setting;
use bridge_mib::written::writable_scalar;
use bridge_mib::{Described, Descriptor};
use message_core::Value;
use rstp_core::BridgeKey;
use setphase_core::{Index, Rapid, World, Writable, is_scalar, scalar_after};
use std::alloc::Global;

/// A scalar of RSTP-MIB, by its descriptor.
#[derive(Clone, Copy, Debug)]
pub struct RapidDescriptor(pub Rapid);

/// The managed object of a scalar of RSTP-MIB.
pub type RstpScalar = Described<RapidDescriptor>;

fn rapid_value(which: Rapid, bridge: &Bridge) -> Value
    ensures { result ≡ rapid_value which bridge.now }
{
    match which {
        Rapid::Version => bridge_setting(bridge, BridgeKey::Version),
        Rapid::TxHoldCount => bridge_setting(bridge, BridgeKey::HoldCount),
    }
}

impl Descriptor for RapidDescriptor {
    ghost use Rattle.setphase_core.specs.declared.column.Column.TheVariants as columns;

    ghost column = { λ d. columns.Rapid d.0 };

    fn prefix(self) -> &'static [u32] {
        match self.0 {
            Rapid::Version => &[1, 3, 6, 1, 2, 1, 17, 2, 16],
            Rapid::TxHoldCount => &[1, 3, 6, 1, 2, 1, 17, 2, 17],
        }
    }

    #[tactic(auto, unfolding(setphase_core::specs::Columns::shown_by))]
    fn read_into(self, _alloc: Global, world: &World, at: &[u32], into: &mut Value) -> bool {
        if !is_scalar(at) {
            return false;
        }
        *into = rapid_value(self.0, &world.bridge);
        true
    }

    #[tactic(auto, unfolding(setphase_core::specs::Columns::shown_by))]
    fn next_into(self, _world: &World, after: Option<&[u32]>, into: &mut Index) -> bool {
        scalar_after(after, into)
    }

    fn writable(self) -> Option<Writable> {
        match self.0 {
            Rapid::Version => writable_scalar(BridgeKey::Version, 0, 2, 2),
            Rapid::TxHoldCount => writable_scalar(BridgeKey::HoldCount, 1, 10, 1),
        }
    }
}
