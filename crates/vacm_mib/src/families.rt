//! vacmViewTreeFamilyTable (RFC 3415).
ghost use Rattle.std.specs.Prelude.{◌≡◌};
ghost use Rattle.setphase_core.specs.Columns.{family_value};

use bridge_mib::values::{integer, string};
use bridge_mib::{Described, Descriptor};
use message_core::Value;
use setphase_core::{
    Family, Index, IntegerTarget, Target, World, Writable, family_after, family_at,
};
use std::alloc::Global;
use vacm_core::FamilyRow;

/// A column of vacmViewTreeFamilyTable, by its descriptor.
#[derive(Clone, Copy, Debug)]
pub struct FamilyDescriptor(pub Family);

/// The managed object of a column of vacmViewTreeFamilyTable.
pub type FamilyColumn = Described<FamilyDescriptor>;

// The mask's octets, or the type: 1 is included, 2 is excluded.
fn family_value(alloc: Global, which: Family, row: &FamilyRow) -> Value
    ensures { result ≡ family_value which row.now }
{
    match which {
        Family::Mask => string(alloc, row.mask.as_slice()),
        Family::Type => integer(if row.included { 1 } else { 2 }),
    }
}

impl Descriptor for FamilyDescriptor {
    ghost use Rattle.setphase_core.specs.declared.column.Column.TheVariants as columns;

    ghost column = { λ d. columns.Family d.0 };

    fn prefix(self) -> &'static [u32] {
        match self.0 {
            Family::Mask => &[1, 3, 6, 1, 6, 3, 16, 1, 5, 2, 1, 3],
            Family::Type => &[1, 3, 6, 1, 6, 3, 16, 1, 5, 2, 1, 4],
        }
    }

    #[tactic(auto, unfolding(setphase_core::specs::Columns::shown_by))]
    fn read_into(self, alloc: Global, world: &World, at: &[u32], into: &mut Value) -> bool {
        let Some(row) = family_at(world.policy.vacm(), at) else {
            return false;
        };
        *into = family_value(alloc, self.0, row);
        true
    }

    #[tactic(auto, unfolding(setphase_core::specs::Columns::shown_by))]
    fn next_into(self, world: &World, after: Option<&[u32]>, into: &mut Index) -> bool {
        family_after(world.policy.vacm(), after, into)
    }

    fn writable(self) -> Option<Writable> {
        match self.0 {
            Family::Mask => Some(Writable::Mask),
            Family::Type => Some(Writable::Integer(IntegerTarget {
                target: Target::FamilyType,
                least: 1,
                most: 2,
                step: 1,
            })),
        }
    }
}
