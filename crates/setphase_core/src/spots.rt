//! Where the instance stands that a walk finds, and the instance there.
ghost use Rattle.std.specs.Prelude.{◌≡◌, ◌≤◌, ◌<◌, ◌+◌, ◌++◌, length, map, false, if◌then◌else◌, Some, None, Ok, IfOk, OnErr, IsSome, IsTrue};
ghost use Rattle.oid_core.specs.declared.limits.TheConstants.{INLINE_NUMBERS, MAX_NUMBERS};
ghost use Rattle.message_core.specs.Instances.{next_of};
ghost use Rattle.setphase_core.specs.Values.{value_at};
ghost use Rattle.setphase_core.specs.Columns.{shown_by};
ghost use Rattle.setphase_core.specs.Registry.{rows_of, prefixes_of, first_fault, IsNamed, AreNamed};
ghost use Rattle.setphase_core.specs.Passing.{open_instances, passed_after, passed_ahead};
ghost use Rattle.setphase_core.specs.Searching.{prefix_at, IsPlace};
ghost use Rattle.setphase_core.specs.Walking.{AreOpen, first_place, IsThere, instance_at};

use crate::object::{Index, MibObject};
use crate::passing::{Passing, Spot, next_spot};
use crate::world::World;
use message_core::Value;
use oid_core::Oid;
use std::alloc::{AllocError, Global};
use std::sync::ledger::Ledger;
use steps::Steps;

/// Writes where the first instance behind a name stands, by the place of the name, but for those of
/// the objects that are passed over, each of which is a step. It is known that those from there on and
/// in front of another place are not. It says whether there is one; where there is none, the spot may be
/// any.
pub fn find_spot<O: MibObject, P: Passing, L: Ledger>(
    objects: &[O],
    world: &World,
    name: &[u32],
    place: Result<usize, usize>,
    until: usize,
    passing: &P,
    spot: &mut Spot,
    steps: &mut Steps<L>,
) -> bool
    requires ordered { first_fault (rows_of (map O.state objects.now)) ≡ None }
    requires named { AreNamed (rows_of (map O.state objects.now)) }
    requires place { IsPlace (prefixes_of (rows_of (map O.state objects.now))) name.now place }
    requires until { AreOpen (P.passes passing.now)
        (prefixes_of (rows_of (map O.state objects.now))) (first_place place) until }
    ensures found { let rows = rows_of (map O.state objects.now) in
        (if result then Some (instance_at rows world.now spot.new) else None)
        ≡ next_of (open_instances (P.passes passing.now) rows world.now) name.now }
    ensures there { IsTrue result → IsThere (rows_of (map O.state objects.now)) world.now spot.new }
    ensures place { let rows = rows_of (map O.state objects.now) in
        IsTrue result → IsPlace (prefixes_of rows) (instance_at rows world.now spot.new).name
        (Ok spot.new.place) }
    ensures kept { IsTrue result → P.passes passing.now
        (prefix_at (prefixes_of (rows_of (map O.state objects.now))) spot.new.place) ≡ false }
    ensures behind { IsTrue result → first_place place ≤ spot.new.place }
    ensures work { let rows = rows_of (map O.state objects.now) in
        let passes = P.passes passing.now in
        steps.new + passed_ahead passes rows
        (next_of (open_instances passes rows world.now) name.now)
        ≡ steps.old + passed_after passes rows name.now }
{
    next_spot(objects, world, name, place, until, passing, spot, steps)
}

// The name of the instance of an object that has an index.
fn name_under<O: MibObject>(alloc: Global, object: &O, index: &Index) -> Result<Oid, AllocError>
    requires named { IsNamed (O.state object.now).row }
    requires fits { length (O.state object.now).row.prefix + length index.now.items
        ≤ MAX_NUMBERS }
    ensures name { IfOk result (λ name. name ≡ (O.state object.now).row.prefix ++ index.now.items) }
    ensures inline { OnErr result (INLINE_NUMBERS
        < length (O.state object.now).row.prefix + length index.now.items) }
{
    Oid::joined(alloc, object.prefix(), index.as_slice())
}

/// The name of the instance at a spot. It takes memory only where it has more than
/// `oid_core::INLINE_NUMBERS` numbers.
pub fn name_there<O: MibObject>(
    alloc: Global,
    objects: &[O],
    spot: &Spot,
) -> Result<Oid, AllocError>
    requires named { AreNamed (rows_of (map O.state objects.now)) }
    requires within { spot.now.place < length objects.now }
    requires fits { length (prefix_at (prefixes_of (rows_of (map O.state objects.now)))
        spot.now.place ++ spot.now.index.items) ≤ MAX_NUMBERS }
    ensures name { IfOk result (λ name. name
        ≡ prefix_at (prefixes_of (rows_of (map O.state objects.now))) spot.now.place
        ++ spot.now.index.items) }
    ensures inline { OnErr result (INLINE_NUMBERS
        < length (prefix_at (prefixes_of (rows_of (map O.state objects.now))) spot.now.place
        ++ spot.now.index.items)) }
{
    name_under(alloc, &objects[spot.place], &spot.index)
}

/// The name of the object at a place.
pub fn prefix_there<O: MibObject>(objects: &[O], place: usize) -> &[u32]
    requires { place < length objects.now }
    ensures { result.now ≡ prefix_at (prefixes_of (rows_of (map O.state objects.now))) place }
{
    objects[place].prefix()
}

// Writes the value of the instance of an object that has an index in place of the value that it is lent.
// The caller ensures that there is one.
fn value_under_into<O: MibObject>(
    alloc: Global,
    object: &O,
    world: &World,
    index: &Index,
    into: &mut Value,
)
    requires { IsSome (value_at (shown_by (O.state object.now).row.column world.now)
        index.now.items) }
    ensures { Some into.new
        ≡ value_at (shown_by (O.state object.now).row.column world.now) index.now.items }
{
    object.read_into(alloc, world, index.as_slice(), into);
}

/// Writes the value of the instance at a spot in place of the value that it is lent. It takes no memory.
pub fn value_there_into<O: MibObject>(
    alloc: Global,
    objects: &[O],
    world: &World,
    spot: &Spot,
    into: &mut Value,
)
    requires { IsThere (rows_of (map O.state objects.now)) world.now spot.now }
    ensures { into.new
        ≡ (instance_at (rows_of (map O.state objects.now)) world.now spot.now).value }
{
    value_under_into(alloc, &objects[spot.place], world, &spot.index, into)
}
