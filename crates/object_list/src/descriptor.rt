//! One descriptor for the columns of all modules.
ghost use Rattle.std.specs.Prelude.{◌≡◌};

use bridge_mib::{Described, Descriptor};
use message_core::Value;
use rstp_mib::{ExtPortDescriptor, RapidDescriptor};
use setphase_core::{Column, Index, World, Writable};
use std::alloc::Global;
use vacm_mib::FamilyDescriptor;

/// A column of any module, by its descriptor.
#[derive(Clone, Copy, Debug)]
pub struct ColumnDescriptor(pub Column);

/// The managed object of a column, without a device.
pub type PlainObject = Described<ColumnDescriptor>;

impl Descriptor for ColumnDescriptor {
    ghost column = { λ d. d.0 };

    fn prefix(self) -> &'static [u32] {
        match self.0 {
            Column::Base(which) => which.prefix(),
            Column::BasePort(which) => which.prefix(),
            Column::Stp(which) => which.prefix(),
            Column::StpPort(which) => which.prefix(),
            Column::Rapid(which) => RapidDescriptor(which).prefix(),
            Column::ExtPort(which) => ExtPortDescriptor(which).prefix(),
            Column::Tp(which) => which.prefix(),
            Column::TpFdb(which) => which.prefix(),
            Column::TpPort(which) => which.prefix(),
            Column::Static(which) => which.prefix(),
            Column::Family(which) => FamilyDescriptor(which).prefix(),
        }
    }

    fn read_into(self, alloc: Global, world: &World, at: &[u32], into: &mut Value) -> bool {
        match self.0 {
            Column::Base(which) => which.read_into(alloc, world, at, into),
            Column::BasePort(which) => which.read_into(alloc, world, at, into),
            Column::Stp(which) => which.read_into(alloc, world, at, into),
            Column::StpPort(which) => which.read_into(alloc, world, at, into),
            Column::Rapid(which) => RapidDescriptor(which).read_into(alloc, world, at, into),
            Column::ExtPort(which) => ExtPortDescriptor(which).read_into(alloc, world, at, into),
            Column::Tp(which) => which.read_into(alloc, world, at, into),
            Column::TpFdb(which) => which.read_into(alloc, world, at, into),
            Column::TpPort(which) => which.read_into(alloc, world, at, into),
            Column::Static(which) => which.read_into(alloc, world, at, into),
            Column::Family(which) => FamilyDescriptor(which).read_into(alloc, world, at, into),
        }
    }

    fn next_into(self, world: &World, after: Option<&[u32]>, into: &mut Index) -> bool {
        match self.0 {
            Column::Base(which) => which.next_into(world, after, into),
            Column::BasePort(which) => which.next_into(world, after, into),
            Column::Stp(which) => which.next_into(world, after, into),
            Column::StpPort(which) => which.next_into(world, after, into),
            Column::Rapid(which) => RapidDescriptor(which).next_into(world, after, into),
            Column::ExtPort(which) => ExtPortDescriptor(which).next_into(world, after, into),
            Column::Tp(which) => which.next_into(world, after, into),
            Column::TpFdb(which) => which.next_into(world, after, into),
            Column::TpPort(which) => which.next_into(world, after, into),
            Column::Static(which) => which.next_into(world, after, into),
            Column::Family(which) => FamilyDescriptor(which).next_into(world, after, into),
        }
    }

    fn writable(self) -> Option<Writable> {
        match self.0 {
            Column::Base(which) => which.writable(),
            Column::BasePort(which) => which.writable(),
            Column::Stp(which) => which.writable(),
            Column::StpPort(which) => which.writable(),
            Column::Rapid(which) => RapidDescriptor(which).writable(),
            Column::ExtPort(which) => ExtPortDescriptor(which).writable(),
            Column::Tp(which) => which.writable(),
            Column::TpFdb(which) => which.writable(),
            Column::TpPort(which) => which.writable(),
            Column::Static(which) => which.writable(),
            Column::Family(which) => FamilyDescriptor(which).writable(),
        }
    }
}
