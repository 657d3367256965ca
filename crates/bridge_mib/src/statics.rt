//! dot1dStaticTable: by which ports frames to an address may go (RFC 4188).
ghost use Rattle.std.specs.Prelude.{◌≡◌, ◌<◌, ◌≤◌, ◌^◌, ℕ, true, false, List, length, take, replicate};
ghost use Rattle.std.specs.List.{AllByRecursion};
ghost use Rattle.std.specs.Option.{option_copied, option_map};
ghost use Rattle.fdb_core.specs.declared.static_row.StaticRow.{StaticRow as AnyRow};
ghost use Rattle.fdb_core.specs.Statics.{numbers_of};
ghost use Rattle.oid_core.specs.Order.{name_lt};
ghost use Rattle.message_core.specs.declared.value.Value.{Value as AnyValue};
ghost use Rattle.setphase_core.specs.Values.{by_static, value_at, index_after};
ghost use Rattle.setphase_core.specs.Columns.{static_value};

use crate::described::{Described, Descriptor};
use crate::values::{integer, string};
use bridge_core::Bridge;
use fdb_core::{StaticIndex, StaticRow};
use message_core::Value;
use oid_core::same_name;
use setphase_core::{Index, IntegerTarget, Static, Target, World, Writable};
use std::alloc::Global;

/// The managed object of a column of dot1dStaticTable.
pub type StaticColumn = Described<Static>;

fn write_greatest(numbers: &mut [u32])
    ensures { numbers.new ≡ replicate (length numbers.old) 4294967295 }
{
    numbers.fill(u32::MAX);
}

// Writes numbers that come before an index, at most so many, and says how many they are. No list of
// so many numbers stands between them and the index.
fn write_below(numbers: &mut [u32], index: &[u32]) -> usize
    ensures count { result ≤ length numbers.new }
    ensures below { 0 < length index.now
        → name_lt (take result numbers.new) index.now ≡ true }
    ensures between { (other : List ℕ) → length other ≡ length numbers.old
        → AllByRecursion (λ n. n < 2 ^ 32) other
        → name_lt (take result numbers.new) other ≡ true → name_lt other index.now ≡ false }
{
    let Some((number, numbers)) = numbers.split_first_mut() else {
        return 0;
    };
    let Some((first, index)) = index.split_first() else {
        return 0;
    };
    if !index.is_empty() {
        *number = *first;
        return write_below(numbers, index) + 1;
    }
    if *first == 0 {
        return 0;
    }
    *number = *first - 1;
    write_greatest(numbers);
    numbers.len() + 1
}

// Hands on the range of numbers. It does nothing.
fn known_range(numbers: &[u32])
    ensures { AllByRecursion (λ n. n < 2 ^ 32) numbers.now }
{
    let _count = numbers.len();
}

// The seven numbers of a row.
fn numbers_of(row: &StaticRow) -> [u32; 7]
    ensures value { result ≡ numbers_of row.now.index }
    ensures seven { length result ≡ 7 }
    ensures fit { AllByRecursion (λ n. n < 2 ^ 32) result }
{
    let numbers = row.index.numbers();
    known_range(&numbers);
    numbers
}

// The made row whose seven numbers are an index.
fn static_there(bridge: &Bridge, at: &[u32]) -> Option<StaticRow>
    ensures { (f : AnyRow → AnyValue) → value_at (by_static bridge.now.statics.rows f) at.now
        ≡ option_map f result }
{
    bridge.known_statics();
    if at.is_empty() {
        return None;
    }
    let mut numbers = [0; 7];
    let count = write_below(&mut numbers, at);
    let row = bridge.next_static(&numbers[..count])?;
    if same_name(&numbers_of(&row), at) {
        Some(row)
    } else {
        None
    }
}

// Writes the seven numbers of a row as an index.
fn write_index(row: StaticIndex, into: &mut Index)
    ensures written { into.new.items ≡ numbers_of row }
    ensures seven { length into.new.items ≡ 7 }
{
    into.clear();
    for number in &row.numbers() {
        into.push(*number);
    }
}

// The made row of the first index behind this one, or of the first of all.
fn row_after(bridge: &Bridge, after: Option<&[u32]>) -> Option<StaticRow>
    ensures { (f : AnyRow → AnyValue) → option_map (λ row. numbers_of row.index) result
        ≡ index_after (by_static bridge.now.statics.rows f) (option_copied after.entry) }
{
    match after {
        None => bridge.next_static(&[]),
        Some(after) => bridge.next_static(after),
    }
}

fn static_value(alloc: Global, which: Static, bridge: &Bridge, row: &StaticRow) -> Value
    ensures { result ≡ static_value which bridge.now row.now }
{
    match which {
        Static::Address => string(alloc, &row.index.address.0),
        Static::ReceivePort => integer(u32::from(row.index.port)),
        Static::AllowedToGoTo => string(alloc, row.ports.octets(bridge.ports()).as_slice()),
        Static::Status => integer(3),
    }
}

impl Descriptor for Static {
    ghost use Rattle.setphase_core.specs.declared.column.Column.TheVariants as columns;

    ghost column = { columns.Static };

    fn prefix(self) -> &'static [u32] {
        match self {
            Static::Address => &[1, 3, 6, 1, 2, 1, 17, 5, 1, 1, 1],
            Static::ReceivePort => &[1, 3, 6, 1, 2, 1, 17, 5, 1, 1, 2],
            Static::AllowedToGoTo => &[1, 3, 6, 1, 2, 1, 17, 5, 1, 1, 3],
            Static::Status => &[1, 3, 6, 1, 2, 1, 17, 5, 1, 1, 4],
        }
    }

    #[tactic(auto, unfolding(setphase_core::specs::Columns::shown_by))]
    fn read_into(self, alloc: Global, world: &World, at: &[u32], into: &mut Value) -> bool {
        let Some(row) = static_there(&world.bridge, at) else {
            return false;
        };
        *into = static_value(alloc, self, &world.bridge, &row);
        true
    }

    #[tactic(auto, unfolding(setphase_core::specs::Columns::shown_by))]
    fn next_into(self, world: &World, after: Option<&[u32]>, into: &mut Index) -> bool {
        let Some(row) = row_after(&world.bridge, after) else {
            return false;
        };
        write_index(row.index, into);
        true
    }

    fn writable(self) -> Option<Writable> {
        match self {
            Static::Address | Static::ReceivePort => None,
            Static::AllowedToGoTo => Some(Writable::Ports),
            Static::Status => Some(Writable::Integer(IntegerTarget {
                target: Target::Made,
                least: 2,
                most: 3,
                step: 1,
            })),
        }
    }
}
