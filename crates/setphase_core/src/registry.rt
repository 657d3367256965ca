//! Objects in the order of their names.
ghost use Rattle.std.specs.Prelude.{◌≡◌, ◌<◌, ◌≤◌, ◌+◌, ◌-◌, ◌*◌, ◌^◌, ◌++◌, ℕ, Bool, false, List, length, map, if◌then◌else◌, Some, None, Ok, IfOk, IsOk, OnErr, IsTrue, MatchResult};
ghost use Rattle.std.specs.Option.{option_copied};
ghost use Rattle.message_core.specs.Instances.{next_of, value_of, IsServable};
ghost use Rattle.setphase_core.specs.Registry.{rows_of, prefixes_of, first_fault, AreApart, AreNamed, HasShortName, owner_of, instances};
ghost use Rattle.setphase_core.specs.Passing.{open_instances, passed_after, passed_ahead};
ghost use Rattle.setphase_core.specs.Searching.{IsPlace, prefix_at, AreBegun, least_comparisons};
ghost use Rattle.setphase_core.specs.Walking.{AreOpen, first_place, IsThere, instance_at};
ghost use Rattle.oid_core.specs.declared.limits.TheConstants.{INLINE_NUMBERS, MAX_NUMBERS};

use crate::object::MibObject;
use crate::passing::{Passing, Spot};
use crate::search::{
    begun_until, owner_name, place_by_search, place_near, place_of, value_of_name,
};
use crate::spots::{find_spot, name_there, prefix_there, value_there_into};
use crate::world::World;
use message_core::{Binding, Value};
use oid_core::{Oid, begins, precedes};
use std::alloc::{AllocError, Global};
use std::marker::{Brand, Model};
use std::sync::ledger::{Blank, Ledger};
use steps::Steps;
use thiserror::Error;

/// Why objects do not make a registry.
#[derive(Clone, Copy, Debug, PartialEq, Eq, Error)]
pub enum RegistryFault {
    /// The name of an object is greater than the next one's.
    #[error("the objects are not in the order of their names")]
    Unsorted,
    /// The name of an object is the next one's, or begins it.
    #[error("the name of an object begins another's")]
    Nested,
}

// The test that passes over no object.
struct PassesNone;

impl Passing for PassesNone {
    ghost use Rattle.std.specs.Prelude.{false};

    ghost passes = { λ p prefix. false };

    fn passes_over(&self, _place: usize, _prefix: &[u32]) -> bool {
        false
    }
}

/// Managed objects by rising name, none of whose names begins another's. It is seen as the list of
/// their states.
pub struct Registry<O: MibObject> {
    pub(crate) objects: Vec<O>,
}

// By hand, so that who lets one go knows nothing of its parts.
impl<O: MibObject> Drop for Registry<O> {
    fn drop(self) {
        let Registry { objects: _objects } = self;
    }
}

impl<O: MibObject> Model for Registry<O> {
    ghost use Rattle.std.specs.Prelude.{◌≡◌, List, map, None};
    ghost use Rattle.setphase_core.specs.Objects.{ObjectState};
    ghost use Rattle.setphase_core.specs.Registry.{rows_of, first_fault, AreNamed};

    ghost Value = { List ObjectState };

    ghost view = { λ r. map O.state r.objects.items };

    ghost invariant = { λ r. (first_fault (rows_of (map O.state r.objects.items)) ≡ None) ×
        AreNamed (rows_of (map O.state r.objects.items)) };
}

// What is wrong with the first pair of neighbours that is at fault.
fn fault_of<O: MibObject>(objects: &[O]) -> Option<RegistryFault>
    ensures { result ≡ first_fault (rows_of (map O.state objects.now)) }
{
    for place in 1..objects.len() {
        let (object, next) = (&objects[place - 1], &objects[place]);
        if precedes(next.prefix(), object.prefix()) {
            return Some(RegistryFault::Unsorted);
        }
        if begins(object.prefix(), next.prefix()) {
            return Some(RegistryFault::Nested);
        }
    }
    None
}

impl<O: MibObject> Registry<O> {
    /// The registry of these objects. It takes no memory, and a refused vector comes back whole.
    ///
    /// # Errors
    /// By the first pair of neighbours that is at fault: `Unsorted` where the first name is greater
    /// than the second, `Nested` where it begins it.
    pub fn new(objects: Vec<O>) -> Result<Registry<O>, (RegistryFault, Vec<O>)>
        requires { AreNamed (rows_of (map O.state objects.items)) }
        ensures { MatchResult result
            (λ r. (r ≡ map O.state objects.items) × (first_fault (rows_of r) ≡ None))
            (λ e. (e.1 ≡ objects) ×
            (first_fault (rows_of (map O.state objects.items)) ≡ Some e.0)) }
    {
        match fault_of(objects.as_slice()) {
            None => Ok(Registry { objects }),
            Some(fault) => Err((fault, objects)),
        }
    }

    /// How many objects there are.
    pub fn len(&self) -> usize
        ensures { result ≡ length self.now }
    {
        self.objects.len()
    }

    /// Hands on that the objects are in the order of their names, none of which begins another,
    /// that each stands under 1.3 and is a name with the longest index of its column, that the names of
    /// the instances rise, and that each instance can be served, whatever the objects and the world
    /// are, and also of the objects that a test leaves, whatever it passes over; it does nothing.
    pub fn known(&self, world: &World)
        ensures ordered { first_fault (rows_of self.now) ≡ None }
        ensures apart { AreApart (prefixes_of (rows_of self.now)) }
        ensures named { AreNamed (rows_of self.now) }
        ensures servable { IsServable (instances (rows_of self.now) world.now) }
        ensures open { (passes : List ℕ → Bool)
            → IsServable (open_instances passes (rows_of self.now) world.now) }
    {
        let _objects = self.objects.as_slice();
        world.bridge.fdb().known();
        world.bridge.known_statics();
        world.policy.vacm().rows_are_right();
    }

    /// The name of the object whose name begins a name, where there is one. It takes no memory.
    pub fn owner(&self, name: &[u32]) -> Option<&[u32]>
        ensures { option_copied result ≡ owner_of (rows_of self.now) name.now }
    {
        let objects = self.objects.as_slice();
        owner_name(objects, name, place_by_search(objects, name))
    }

    /// The place of a name among the objects: that of the object whose name begins it, or, where
    /// none does, of the first object whose name is greater, or of the end. It takes no memory.
    ///
    /// `near` may be any number, and only time hangs on it: where it is the place of that object,
    /// or the one before, no search is made.
    pub fn place_near(&self, name: &[u32], near: usize) -> Result<usize, usize>
        ensures { IsPlace (prefixes_of (rows_of self.now)) name.now result }
    {
        place_near(self.objects.as_slice(), name, near)
    }

    /// The place behind the objects from a place on whose names begin with a front. It takes no
    /// memory.
    pub fn begun_until(&self, front: &[u32], place: usize) -> usize
        requires { place ≤ length self.now }
        ensures { AreBegun (prefixes_of (rows_of self.now)) front.now place result }
    {
        begun_until(self.objects.as_slice(), front, place)
    }

    /// The name of the object whose name begins a name, by the place of the name. It takes no
    /// memory.
    pub fn owner_at(&self, name: &[u32], place: Result<usize, usize>) -> Option<&[u32]>
        requires { IsPlace (prefixes_of (rows_of self.now)) name.now place }
        ensures { option_copied result ≡ owner_of (rows_of self.now) name.now }
    {
        owner_name(self.objects.as_slice(), name, place)
    }

    /// The same as `owner`, by counted steps, one for each comparison with an object's name: of n
    /// objects no more than s steps with 2^s <= 2n + 1, and no fewer than the comparisons without
    /// which the object cannot be known.
    pub fn owner_steps<L: Ledger>(&self, name: &[u32], steps: &mut Steps<L>) -> Option<&[u32]>
        ensures owner { option_copied result ≡ owner_of (rows_of self.now) name.now }
        ensures least { steps.old + least_comparisons (prefixes_of (rows_of self.now)) name.now
            ≤ steps.new }
        ensures work { 2 ^ (steps.new - steps.old) ≤ 2 * length self.now + 1 }
    {
        let objects = self.objects.as_slice();
        let place = place_of(objects, name, steps);
        owner_name(objects, name, place)
    }

    /// The value of the instance of that name, where there is one. It takes no memory.
    pub fn read(&self, alloc: Global, world: &World, name: &[u32]) -> Option<Value>
        ensures { result ≡ value_of (instances (rows_of self.now) world.now) name.now }
    {
        let objects = self.objects.as_slice();
        value_of_name(alloc, objects, world, name, place_by_search(objects, name))
    }

    /// The same, by the place of the name. It takes no memory.
    pub fn read_at(
        &self,
        alloc: Global,
        world: &World,
        name: &[u32],
        place: Result<usize, usize>,
    ) -> Option<Value>
        requires { IsPlace (prefixes_of (rows_of self.now)) name.now place }
        ensures { result ≡ value_of (instances (rows_of self.now) world.now) name.now }
    {
        value_of_name(alloc, self.objects.as_slice(), world, name, place)
    }

    /// The first instance after a name, where there is one: the objects are asked for one successor
    /// at a time. It takes memory only where the name of that instance has more than
    /// `oid_core::INLINE_NUMBERS` numbers.
    pub fn next(
        &self,
        alloc: Global,
        world: &World,
        name: &[u32],
    ) -> Result<Option<Binding>, AllocError>
        ensures found { IfOk result (λ found.
            found ≡ next_of (instances (rows_of self.now) world.now) name.now) }
        ensures inline { HasShortName (next_of (instances (rows_of self.now) world.now) name.now)
            → IsOk result }
    {
        let place = place_by_search(self.objects.as_slice(), name);
        let mut spot = Spot::new();
        if !self.next_spot(world, name, place, &mut spot) {
            return Ok(None);
        }
        let mut binding = Binding {
            name: self.name_at(alloc, &spot)?,
            value: Value::Null,
        };
        self.value_into(alloc, world, &spot, &mut binding.value);
        Ok(Some(binding))
    }

    /// Writes where the first instance after a name stands, by the place of the name, and says whether
    /// there is one. Where there is none, the spot may be any. It takes no memory.
    pub fn next_spot(
        &self,
        world: &World,
        name: &[u32],
        place: Result<usize, usize>,
        spot: &mut Spot,
    ) -> bool
        requires { IsPlace (prefixes_of (rows_of self.now)) name.now place }
        ensures found { (if result then Some (instance_at (rows_of self.now) world.now spot.new)
            else None) ≡ next_of (instances (rows_of self.now) world.now) name.now }
        ensures there { IsTrue result → IsThere (rows_of self.now) world.now spot.new }
        ensures place { IsTrue result → IsPlace (prefixes_of (rows_of self.now))
            (instance_at (rows_of self.now) world.now spot.new).name (Ok spot.new.place) }
    {
        self.next_uncounted::<Brand>(world, name, place, spot, Blank::new(1))
    }

    // The same, where nobody counts: the ledger is that of the blank.
    fn next_uncounted<L: Ledger>(
        &self,
        world: &World,
        name: &[u32],
        place: Result<usize, usize>,
        spot: &mut Spot,
        blank: Blank,
    ) -> bool
        requires place { IsPlace (prefixes_of (rows_of self.now)) name.now place }
        requires name { blank.name ≡ L.name }
        requires parts { blank.parts ≡ L.parts }
        requires some { 0 < blank.parts }
        ensures found { (if result then Some (instance_at (rows_of self.now) world.now spot.new)
            else None) ≡ next_of (instances (rows_of self.now) world.now) name.now }
        ensures there { IsTrue result → IsThere (rows_of self.now) world.now spot.new }
        ensures place { IsTrue result → IsPlace (prefixes_of (rows_of self.now))
            (instance_at (rows_of self.now) world.now spot.new).name (Ok spot.new.place) }
    {
        let mut steps: Steps<L> = Steps::new(blank);
        self.next_open(world, name, place, 0, &PassesNone, spot, &mut steps)
    }

    /// Writes where the first instance after a name stands, among those of the objects that are not
    /// passed over, by the place of the name, and says whether there is one. Where there is none, the
    /// spot may be any. It takes no memory. It is one step, and one
    /// for each object that is passed over between the name and the instance, or the end: so the
    /// steps, and the objects ahead that are to be passed over, are together as many as before, and
    /// one more.
    ///
    /// Of the objects from the place on and in front of `until` it is known that none is passed over.
    /// No name is compared: an object behind the place of a name is asked for its first instance.
    pub fn next_open<P: Passing, L: Ledger>(
        &self,
        world: &World,
        name: &[u32],
        place: Result<usize, usize>,
        until: usize,
        passing: &P,
        spot: &mut Spot,
        steps: &mut Steps<L>,
    ) -> bool
        requires place { IsPlace (prefixes_of (rows_of self.now)) name.now place }
        requires until { AreOpen (P.passes passing.now) (prefixes_of (rows_of self.now))
            (first_place place) until }
        ensures found { (if result then Some (instance_at (rows_of self.now) world.now spot.new)
            else None) ≡ next_of
            (open_instances (P.passes passing.now) (rows_of self.now) world.now) name.now }
        ensures there { IsTrue result → IsThere (rows_of self.now) world.now spot.new }
        ensures place { IsTrue result → IsPlace (prefixes_of (rows_of self.now))
            (instance_at (rows_of self.now) world.now spot.new).name (Ok spot.new.place) }
        ensures kept { IsTrue result → P.passes passing.now
            (prefix_at (prefixes_of (rows_of self.now)) spot.new.place) ≡ false }
        ensures behind { IsTrue result → first_place place ≤ spot.new.place }
        ensures work { steps.new + passed_ahead (P.passes passing.now) (rows_of self.now) (next_of
            (open_instances (P.passes passing.now) (rows_of self.now) world.now) name.now)
            ≡ steps.old + passed_after (P.passes passing.now) (rows_of self.now) name.now + 1 }
    {
        let objects = self.objects.as_slice();
        steps.tick();
        find_spot(objects, world, name, place, until, passing, spot, steps)
    }

    /// The name of the object at a place, with which the names of its instances begin. It takes no memory.
    pub fn prefix_at(&self, place: usize) -> &[u32]
        requires { place < length self.now }
        ensures { result.now ≡ prefix_at (prefixes_of (rows_of self.now)) place }
    {
        prefix_there(self.objects.as_slice(), place)
    }

    /// The name of the instance at a spot. It takes memory only where it has more than
    /// `oid_core::INLINE_NUMBERS` numbers.
    pub fn name_at(&self, alloc: Global, spot: &Spot) -> Result<Oid, AllocError>
        requires within { spot.now.place < length self.now }
        requires fits { length (prefix_at (prefixes_of (rows_of self.now)) spot.now.place
            ++ spot.now.index.items) ≤ MAX_NUMBERS }
        ensures name { IfOk result (λ name. name
            ≡ prefix_at (prefixes_of (rows_of self.now)) spot.now.place ++ spot.now.index.items) }
        ensures inline { OnErr result (INLINE_NUMBERS
            < length (prefix_at (prefixes_of (rows_of self.now)) spot.now.place
            ++ spot.now.index.items)) }
    {
        name_there(alloc, self.objects.as_slice(), spot)
    }

    /// Writes the value of the instance at a spot in place of the value that it is lent. It takes no
    /// memory.
    pub fn value_into(&self, alloc: Global, world: &World, spot: &Spot, into: &mut Value)
        requires { IsThere (rows_of self.now) world.now spot.now }
        ensures { into.new ≡ (instance_at (rows_of self.now) world.now spot.now).value }
    {
        value_there_into(alloc, self.objects.as_slice(), world, spot, into)
    }
}
