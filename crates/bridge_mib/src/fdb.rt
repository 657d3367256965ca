//! dot1dTpFdbTable: the learned addresses (RFC 4188).
ghost use Rattle.std.specs.Prelude.{◌≡◌, ◌<◌, ◌≤◌, ℕ, true, false, if◌then◌else◌, List, length, replicate, None, IfSome};
ghost use Rattle.std.specs.List.{AllByRecursion};
ghost use Rattle.std.specs.Option.{option_copied, option_map};
ghost use Rattle.std.specs.Ordering.{is_gt, nat_cmp};
ghost use Rattle.std.specs.Cmp.Lexicographic.{slice_cmp};
ghost use Rattle.frame_core.specs.declared.mac.Mac.{Mac as Address};
ghost use Rattle.frame_core.specs.Octets.{mac_cmp};
ghost use Rattle.fdb_core.specs.Rows.{IsAddress};
ghost use Rattle.fdb_core.specs.declared.row.LearnedRow.{LearnedRow};
ghost use Rattle.oid_core.specs.Order.{name_lt, name_eq};
ghost use Rattle.message_core.specs.declared.value.Value.{Value as AnyValue};
ghost use Rattle.setphase_core.specs.Values.{by_address, value_at, index_after};
ghost use Rattle.setphase_core.specs.Columns.{tp_fdb_value};

use crate::described::{Described, Descriptor};
use crate::values::{integer, string};
use fdb_core::{Fdb, LearnedRow};
use frame_core::Mac;
use message_core::Value;
use setphase_core::{Index, TpFdb, World, Writable};
use std::alloc::Global;

/// The managed object of a column of dot1dTpFdbTable.
pub type FdbColumn = Described<TpFdb>;

// Writes an index as octets, so many, where it is such octets.
fn write_octets(octets: &mut [u8], index: &[u32]) -> bool
    ensures found { result ≡ true → octets.new ≡ index.now }
    ensures none { result ≡ false → (other : List ℕ) → length other ≡ length octets.old
        → AllByRecursion (λ o. o < 256) other → name_eq other index.now ≡ false }
{
    let Some((octet, octets)) = octets.split_first_mut() else {
        return index.is_empty();
    };
    let Some((number, index)) = index.split_first() else {
        return false;
    };
    if *number > 255 {
        return false;
    }
    *octet = *number as u8;
    write_octets(octets, index)
}

// The address that an index says, where it is six octets.
fn address_at(index: &[u32]) -> Option<Mac>
    ensures found { IfSome result (λ address. address.0 ≡ index.now) }
    ensures none { result ≡ None →
        (address : Address) → IsAddress address → name_eq address.0 index.now ≡ false }
{
    let mut octets = [0; 6];
    if write_octets(&mut octets, index) {
        Some(Mac(octets))
    } else {
        None
    }
}

fn write_greatest(octets: &mut [u8])
    ensures { octets.new ≡ replicate (length octets.old) 255 }
{
    octets.fill(255);
}

// Writes the greatest octets, so many, that are not behind an index, where there are such.
fn write_up_to(octets: &mut [u8], index: &[u32]) -> bool
    ensures { (other : List ℕ) → length other ≡ length octets.old
        → AllByRecursion (λ o. o < 256) other
        → name_lt index.now other
        ≡ (if result then is_gt (slice_cmp nat_cmp other octets.new) else true) }
{
    let Some((octet, octets)) = octets.split_first_mut() else {
        return true;
    };
    let Some((number, index)) = index.split_first() else {
        return false;
    };
    if *number > 255 {
        *octet = 255;
        write_greatest(octets);
        return true;
    }
    *octet = *number as u8;
    if write_up_to(octets, index) {
        return true;
    }
    if *number == 0 {
        return false;
    }
    *octet -= 1;
    write_greatest(octets);
    true
}

// The greatest address that is not behind an index, where there is one.
fn address_up_to(index: &[u32]) -> Option<Mac>
    ensures found { IfSome result (λ last. (address : Address) → IsAddress address
        → name_lt index.now address.0 ≡ is_gt (mac_cmp address last)) }
    ensures none { result ≡ None →
        (address : Address) → IsAddress address → name_lt index.now address.0 ≡ true }
{
    let mut octets = [0; 6];
    if write_up_to(&mut octets, index) {
        Some(Mac(octets))
    } else {
        None
    }
}

// The learned row of the first address behind an index, or of the first of all.
fn row_after(fdb: &Fdb, after: Option<&[u32]>) -> Option<LearnedRow>
    ensures { (f : LearnedRow → AnyValue) → option_map (λ row. row.address.0) result
        ≡ index_after (by_address fdb.now.rows f) (option_copied after.entry) }
{
    match after {
        None => fdb.next_after(None),
        Some(after) => fdb.next_after(address_up_to(after)),
    }
}

// Writes the six octets of an address as an index.
fn write_index(address: Mac, into: &mut Index)
    ensures written { into.new.items ≡ address.0 }
    ensures six { length into.new.items ≡ 6 }
{
    into.clear();
    for octet in &address.0 {
        into.push(u32::from(*octet));
    }
}

fn fdb_value(alloc: Global, which: TpFdb, address: Mac, port: u16) -> Value
    ensures { (row : LearnedRow) → row.address ≡ address → row.port ≡ port
        → result ≡ tp_fdb_value which row }
{
    match which {
        TpFdb::Address => string(alloc, &address.0),
        TpFdb::Port => integer(u32::from(port)),
        TpFdb::Status => integer(3),
    }
}

// Writes what the learned rows show under an index, and says whether they show anything.
fn value_under_into(alloc: Global, which: TpFdb, fdb: &Fdb, at: &[u32], into: &mut Value) -> bool
    ensures found { (if result then Some into.new else None)
        ≡ value_at (by_address fdb.now.rows (tp_fdb_value which)) at.now }
    ensures none { result ≡ false → into.new ≡ into.old }
{
    fdb.known();
    let Some(address) = address_at(at) else {
        return false;
    };
    let Some(port) = fdb.find(address) else {
        return false;
    };
    *into = fdb_value(alloc, which, address, port);
    true
}

impl Descriptor for TpFdb {
    ghost use Rattle.setphase_core.specs.declared.column.Column.TheVariants as columns;

    ghost column = { columns.TpFdb };

    fn prefix(self) -> &'static [u32] {
        match self {
            TpFdb::Address => &[1, 3, 6, 1, 2, 1, 17, 4, 3, 1, 1],
            TpFdb::Port => &[1, 3, 6, 1, 2, 1, 17, 4, 3, 1, 2],
            TpFdb::Status => &[1, 3, 6, 1, 2, 1, 17, 4, 3, 1, 3],
        }
    }

    #[tactic(auto, unfolding(setphase_core::specs::Columns::shown_by))]
    fn read_into(self, alloc: Global, world: &World, at: &[u32], into: &mut Value) -> bool {
        value_under_into(alloc, self, world.bridge.fdb(), at, into)
    }

    #[tactic(auto, unfolding(setphase_core::specs::Columns::shown_by))]
    fn next_into(self, world: &World, after: Option<&[u32]>, into: &mut Index) -> bool {
        let Some(row) = row_after(world.bridge.fdb(), after) else {
            return false;
        };
        write_index(row.address, into);
        true
    }

    fn writable(self) -> Option<Writable> {
        None
    }
}
