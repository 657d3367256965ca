//! The search for the object of a name, among objects by rising name.
ghost use Rattle.std.specs.Prelude.{◌≡◌, ◌<◌, ◌≤◌, ◌-◌, ◌+◌, ◌*◌, ◌^◌, length, map, true, None, Ok};
ghost use Rattle.std.specs.Option.{option_copied};
ghost use Rattle.oid_core.specs.Order.{is_prefix};
ghost use Rattle.message_core.specs.Instances.{value_of};
ghost use Rattle.setphase_core.specs.Registry.{rows_of, prefixes_of, first_fault, owner_of, instances, instances_under};
ghost use Rattle.setphase_core.specs.Searching.{prefix_at, IsSide, IsPlace, AreBegun, least_comparisons};

use crate::object::MibObject;
use crate::world::World;
use message_core::Value;
use oid_core::{begins, precedes};
use std::alloc::Global;
use std::cmp::Ordering;
use std::marker::Brand;
use std::sync::ledger::{Blank, Ledger};
use steps::Steps;

// How the name of the object at a place stands to a name: `Equal` where it begins it, `Greater`
// where it is greater, and else `Less`. It is one step, and the search compares names here alone.
fn lookup<O: MibObject, L: Ledger>(
    objects: &[O],
    place: usize,
    name: &[u32],
    steps: &mut Steps<L>,
) -> Ordering
    requires { place < length objects.now }
    ensures side { IsSide (prefix_at (prefixes_of (rows_of (map O.state objects.now))) place)
        name.now result }
    ensures work { steps.new ≡ steps.old + 1 }
{
    steps.tick();
    let prefix = objects[place].prefix();
    if precedes(name, prefix) {
        Ordering::Greater
    } else if begins(prefix, name) {
        Ordering::Equal
    } else {
        Ordering::Less
    }
}

/// The place of the object whose name begins a name, or, where none does, the one behind those with
/// lesser names. Each turn of the search compares one name.
pub fn place_of<O: MibObject, L: Ledger>(
    objects: &[O],
    name: &[u32],
    steps: &mut Steps<L>,
) -> Result<usize, usize>
    requires { first_fault (rows_of (map O.state objects.now)) ≡ None }
    ensures place { IsPlace (prefixes_of (rows_of (map O.state objects.now))) name.now result }
    ensures least { steps.old
        + least_comparisons (prefixes_of (rows_of (map O.state objects.now))) name.now
        ≤ steps.new }
    ensures work { 2 ^ (steps.new - steps.old) ≤ 2 * length objects.now + 1 }
{
    let mut low = 0;
    let mut high = objects.len();
    while low < high {
        let middle = low + (high - low) / 2;
        match lookup(objects, middle, name, steps) {
            Ordering::Less => low = middle + 1,
            Ordering::Equal => return Ok(middle),
            Ordering::Greater => high = middle,
        }
    }
    Err(low)
}

/// The same, where nobody counts: the ledger is that of the blank.
pub fn place_uncounted<O: MibObject, L: Ledger>(
    objects: &[O],
    name: &[u32],
    blank: Blank,
) -> Result<usize, usize>
    requires ordered { first_fault (rows_of (map O.state objects.now)) ≡ None }
    requires name { blank.name ≡ L.name }
    requires parts { blank.parts ≡ L.parts }
    requires some { 0 < blank.parts }
    ensures { IsPlace (prefixes_of (rows_of (map O.state objects.now))) name.now result }
{
    let mut steps: Steps<L> = Steps::new(blank);
    place_of(objects, name, &mut steps)
}

/// The same, where nobody counts: the ledger is a new one.
pub fn place_by_search<O: MibObject>(objects: &[O], name: &[u32]) -> Result<usize, usize>
    requires { first_fault (rows_of (map O.state objects.now)) ≡ None }
    ensures { IsPlace (prefixes_of (rows_of (map O.state objects.now))) name.now result }
{
    place_uncounted::<O, Brand>(objects, name, Blank::new(1))
}

// Whether the object at this place has a name that begins a name: so that is the name's place.
fn is_owner<O: MibObject>(objects: &[O], name: &[u32], place: usize) -> bool
    requires ordered { first_fault (rows_of (map O.state objects.now)) ≡ None }
    requires within { place < length objects.now }
    ensures { result ≡ true → IsPlace (prefixes_of (rows_of (map O.state objects.now))) name.now
        (Ok place) }
{
    let prefix = objects[place].prefix();
    begins(prefix, name)
}

/// The same as `place_by_search`, with a comparison at two places ahead of the search: first the one behind
/// `near`, since a table is asked for column by column, then `near`. `near` may be any number; a walk hands in
/// the place that it found last.
pub fn place_near<O: MibObject>(objects: &[O], name: &[u32], near: usize) -> Result<usize, usize>
    requires { first_fault (rows_of (map O.state objects.now)) ≡ None }
    ensures { IsPlace (prefixes_of (rows_of (map O.state objects.now))) name.now result }
{
    let behind = near.saturating_add(1);
    if behind < objects.len() && is_owner(objects, name, behind) {
        return Ok(behind);
    }
    if near < objects.len() && is_owner(objects, name, near) {
        return Ok(near);
    }
    place_by_search(objects, name)
}

/// The name of the object at the place of a name.
pub fn owner_name<'a, O: MibObject>(
    objects: &'a [O],
    name: &[u32],
    place: Result<usize, usize>,
) -> Option<&'a [u32]>
    requires { IsPlace (prefixes_of (rows_of (map O.state objects.now))) name.now place }
    ensures { option_copied result ≡ owner_of (rows_of (map O.state objects.now)) name.now }
{
    match place {
        Ok(place) => Some(objects[place].prefix()),
        Err(_) => None,
    }
}

/// The value of the instance of that name, by the place of the name.
pub fn value_of_name<O: MibObject>(
    alloc: Global,
    objects: &[O],
    world: &World,
    name: &[u32],
    place: Result<usize, usize>,
) -> Option<Value>
    requires { IsPlace (prefixes_of (rows_of (map O.state objects.now))) name.now place }
    ensures { result ≡ value_of (instances (rows_of (map O.state objects.now)) world.now) name.now }
{
    match place {
        Ok(place) => value_under(alloc, &objects[place], world, name),
        Err(_) => None,
    }
}

// The value of the instance of an object that has that name, which the object's name begins.
fn value_under<O: MibObject>(
    alloc: Global,
    object: &O,
    world: &World,
    name: &[u32],
) -> Option<Value>
    requires { is_prefix (O.state object.now).row.prefix name.now ≡ true }
    ensures { result ≡ value_of (instances_under (O.state object.now).row world.now) name.now }
{
    let rest = &name[object.prefix().len()..];
    object.read(alloc, world, rest)
}

// Whether the name of the object at a place begins with a front.
fn is_begun<O: MibObject>(objects: &[O], front: &[u32], place: usize) -> bool
    requires { place < length objects.now }
    ensures { result ≡ is_prefix front.now
        (prefix_at (prefixes_of (rows_of (map O.state objects.now))) place) }
{
    begins(front, objects[place].prefix())
}

/// The place behind the objects from a place on whose names begin with a front, found by halves.
pub fn begun_until<O: MibObject>(objects: &[O], front: &[u32], place: usize) -> usize
    requires ordered { first_fault (rows_of (map O.state objects.now)) ≡ None }
    requires within { place ≤ length objects.now }
    ensures { AreBegun (prefixes_of (rows_of (map O.state objects.now))) front.now place result }
{
    if place >= objects.len() {
        return place;
    }
    if !is_begun(objects, front, place) {
        return place;
    }
    let mut low = place + 1;
    let mut high = objects.len();
    while low < high {
        let middle = low + (high - low) / 2;
        if is_begun(objects, front, middle) {
            low = middle + 1;
        } else {
            high = middle;
        }
    }
    low
}
