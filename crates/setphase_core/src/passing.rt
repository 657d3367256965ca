//! A walk that passes over objects as a whole.
ghost use Rattle.std.specs.Prelude.{◌≡◌, ◌<◌, ◌≤◌, ◌+◌, ◌++◌, [], length, map, drop, true, false, if◌then◌else◌, Some, None, IsTrue};
ghost use Rattle.std.specs.Option.{option_map};
ghost use Rattle.oid_core.specs.Order.{name_lt, is_prefix};
ghost use Rattle.message_core.specs.Instances.{next_of};
ghost use Rattle.setphase_core.specs.Columns.{longest_index};
ghost use Rattle.setphase_core.specs.Registry.{rows_of, prefixes_of, first_fault, instances_under};
ghost use Rattle.setphase_core.specs.Passing.{open_instances, passed_after, passed_ahead};
ghost use Rattle.setphase_core.specs.Searching.{prefix_at, IsPlace};
ghost use Rattle.setphase_core.specs.Walking.{AreAhead, AreOpen, first_place, IsFound, IsWalk, IsPassedOrFound};

use crate::object::{Index, MibObject};
use crate::world::World;
use std::sync::ledger::Ledger;
use steps::Steps;

/// Which objects a walk passes over as a whole, by their names.
pub trait Passing {
    ghost use Rattle.std.specs.Prelude.{List, ℕ, Bool};

    // Whether an object of that name is passed over.
    ghost passes: { Self → List ℕ → Bool };

    /// Whether an object of that name is passed over. The place where it stands is a hint, on which no
    /// answer depends. It takes no memory.
    fn passes_over(&self, place: usize, prefix: &[u32]) -> bool
        ensures { result ≡ passes self.now prefix.now };
}

/// Where an instance stands: the place of its object, and its index.
#[derive(Drop)]
pub struct Spot {
    /// The place of the object.
    pub place: usize,
    /// The index of the instance.
    pub index: Index,
}

impl Spot {
    /// A spot to lend to a walk, which writes where it finds an instance.
    pub fn new() -> Spot
        ensures place { result.place ≡ 0 }
        ensures index { result.index.items ≡ [] }
    {
        Spot {
            place: 0,
            index: Index::new(),
        }
    }
}

// Whether the object at a place is passed over. It is known that those in front of another place are
// not.
fn is_passed<O: MibObject, P: Passing>(object: &O, place: usize, until: usize, passing: &P) -> bool
    requires { place < until → P.passes passing.now (O.state object.now).row.prefix ≡ false }
    ensures { result ≡ P.passes passing.now (O.state object.now).row.prefix }
{
    place >= until && passing.passes_over(place, object.prefix())
}

// Writes the index of the first instance behind a name of an object whose name begins it, and says
// whether there is one.
fn index_below<O: MibObject>(object: &O, world: &World, name: &[u32], into: &mut Index) -> bool
    requires { is_prefix (O.state object.now).row.prefix name.now ≡ true }
    ensures found { let row = (O.state object.now).row in
        (if result then Some (row.prefix ++ into.new.items) else None)
        ≡ option_map (λ b. b.name) (next_of (instances_under row world.now) name.now) }
    ensures fits { result ≡ true
        → length into.new.items ≤ longest_index (O.state object.now).row.column }
{
    let rest = &name[object.prefix().len()..];
    object.next_into(world, Some(rest), into)
}

// The same of an object whose name is greater.
fn index_ahead<O: MibObject>(object: &O, world: &World, _name: &[u32], into: &mut Index) -> bool
    requires apart { is_prefix (O.state object.now).row.prefix _name.now ≡ false }
    requires ahead { name_lt _name.now (O.state object.now).row.prefix ≡ true }
    ensures found { let row = (O.state object.now).row in
        (if result then Some (row.prefix ++ into.new.items) else None)
        ≡ option_map (λ b. b.name) (next_of (instances_under row world.now) _name.now) }
    ensures fits { result ≡ true
        → length into.new.items ≤ longest_index (O.state object.now).row.column }
{
    object.next_into(world, None, into)
}

// Writes where the first instance behind a name of the object at a place stands, whose name begins that
// name, but where it is passed over, which is a step. It says whether there is one.
fn own_spot<O: MibObject, P: Passing, L: Ledger>(
    objects: &[O],
    world: &World,
    name: &[u32],
    place: usize,
    until: usize,
    passing: &P,
    spot: &mut Spot,
    steps: &mut Steps<L>,
) -> bool
    requires within { place < length objects.now }
    requires begun { is_prefix (prefix_at (prefixes_of (rows_of (map O.state objects.now))) place)
        name.now ≡ true }
    requires until { AreOpen (P.passes passing.now)
        (prefixes_of (rows_of (map O.state objects.now))) place until }
    ensures { IsPassedOrFound (P.passes passing.now) (rows_of (map O.state objects.now)) world.now
        name.now place steps.old steps.new (if result then Some spot.new else None) }
{
    let object = &objects[place];
    if is_passed(object, place, until, passing) {
        steps.tick();
        return false;
    }
    spot.place = place;
    index_below(object, world, name, &mut spot.index)
}

// Writes where the first instance stands of the objects from a place on, whose names are all greater
// than a name, but for those that are passed over, each of which is a step. It says whether there is
// one.
fn spot_behind<O: MibObject, P: Passing, L: Ledger>(
    objects: &[O],
    world: &World,
    name: &[u32],
    start: usize,
    until: usize,
    passing: &P,
    spot: &mut Spot,
    steps: &mut Steps<L>,
) -> bool
    requires ahead { AreAhead (prefixes_of (rows_of (map O.state objects.now))) name.now start }
    requires until { AreOpen (P.passes passing.now)
        (prefixes_of (rows_of (map O.state objects.now))) start until }
    ensures found { IsFound (P.passes passing.now) (rows_of (map O.state objects.now)) world.now
        name.now start (if result then Some spot.new else None) }
    ensures work { let rows = drop start (rows_of (map O.state objects.now)) in
        first_fault rows ≡ None →
        IsWalk (P.passes passing.now) rows world.now name.now steps.old steps.new }
{
    for place in start..objects.len() {
        let object = &objects[place];
        if is_passed(object, place, until, passing) {
            steps.tick();
        } else if index_ahead(object, world, name, &mut spot.index) {
            spot.place = place;
            return true;
        }
    }
    false
}

/// Writes where the first instance behind a name stands, by the place of the name, but for those of
/// the objects that are passed over, each of which is a step. It is known that those from there on and
/// in front of another place are not. It says whether there is one; where there is none, the spot may be
/// any.
pub fn next_spot<O: MibObject, P: Passing, L: Ledger>(
    objects: &[O],
    world: &World,
    name: &[u32],
    place: Result<usize, usize>,
    until: usize,
    passing: &P,
    spot: &mut Spot,
    steps: &mut Steps<L>,
) -> bool
    requires ordered { first_fault (rows_of (map O.state objects.now)) ≡ None }
    requires place { IsPlace (prefixes_of (rows_of (map O.state objects.now))) name.now place }
    requires until { AreOpen (P.passes passing.now)
        (prefixes_of (rows_of (map O.state objects.now))) (first_place place) until }
    ensures found { IsFound (P.passes passing.now) (rows_of (map O.state objects.now)) world.now
        name.now 0 (if result then Some spot.new else None) }
    ensures behind { IsTrue result → first_place place ≤ spot.new.place }
    ensures work { let rows = rows_of (map O.state objects.now) in
        let passes = P.passes passing.now in
        steps.new + passed_ahead passes rows
        (next_of (open_instances passes rows world.now) name.now)
        ≡ steps.old + passed_after passes rows name.now }
{
    match place {
        Err(behind) => spot_behind(objects, world, name, behind, until, passing, spot, steps),
        Ok(own) => {
            if own_spot(objects, world, name, own, until, passing, spot, steps) {
                return true;
            }
            spot_behind(objects, world, name, own + 1, until, passing, spot, steps)
        }
    }
}
