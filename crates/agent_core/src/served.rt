//! Managed objects and the world that they show, as what requests are answered from.
ghost use Rattle.std.specs.Prelude.{◌≡◌, ◌≤◌, ◌<◌, false, length, take, Some, None, Ok, IfOk, IfSome, IsTrue, if◌then◌else◌, option_map};
ghost use Rattle.oid_core.specs.declared.limits.TheConstants.{MAX_NUMBERS};
ghost use Rattle.message_core.specs.Instances.{next_of};
ghost use Rattle.vacm_core.specs.Hiding.{hides_all};
ghost use Rattle.setphase_core.specs.Registry.{rows_of, prefixes_of, AreApart};
ghost use Rattle.setphase_core.specs.Passing.{open_instances};
ghost use Rattle.setphase_core.specs.Searching.{IsPlace, prefix_at};
ghost use Rattle.vacm_core.specs.Families.{in_view, is_included};
ghost use Rattle.std.specs.Option.{option_copied};
ghost use Rattle.agent_core.specs.Reading.{object_of};
ghost use Rattle.agent_core.specs.Standing.{IsStand};
ghost use Rattle.setphase_core.specs.Walking.{first_place, IsThere, instance_at};

use crate::request_view::RequestView;
use crate::source::{NOWHERE, Source, Stand, Successors, View, first_place};
use message_core::Value;
use oid_core::{Oid, OidFault};
use setphase_core::{MibObject, Passing, Registry, Spot, World};
use std::alloc::{AllocError, Global};
use std::marker::Brand;
use std::sync::ledger::{Blank, Ledger};
use steps::Steps;
use vacm_core::{FamilyLookup, FrontAnswer};

/// Managed objects, the world that they show (RFC 3416, 4.2: the variables to which an agent has
/// access), and the view by which some instances are shown (RFC 3415, 2.4). Objects that the view is
/// seen to hide whole are passed over.
#[derive(Drop)]
pub struct Served<'a, O: MibObject> {
    /// The objects.
    pub registry: &'a Registry<O>,
    /// The world.
    pub world: &'a World,
    /// The view.
    pub view: RequestView<'a>,
}

// A copy of the name of an object. Only memory can fail.
fn object_name(alloc: Global, prefix: &[u32]) -> Result<Oid, AllocError>
    requires some { 1 ≤ length prefix.now }
    requires most { length prefix.now ≤ MAX_NUMBERS }
    ensures { IfOk result (λ name. name ≡ prefix.now) }
{
    match Oid::from_slice(alloc, prefix) {
        Ok(name) => Ok(name),
        Err(OidFault::Memory) => Err(AllocError),
        Err(_) => unreachable!(),
    }
}

// The name of the object whose name begins a name, where there is one. Only memory can fail.
pub(crate) fn object_in<O: MibObject>(
    alloc: Global,
    registry: &Registry<O>,
    world: &World,
    name: &Oid,
) -> Result<Option<Oid>, AllocError>
    ensures found { IfOk result (λ found.
        found ≡ object_of (prefixes_of (rows_of registry.now)) name.now) }
    ensures apart { AreApart (prefixes_of (rows_of registry.now)) }
{
    registry.known(world);
    match registry.owner(name.as_slice()) {
        None => Ok(None),
        Some(prefix) => Ok(Some(object_name(alloc, prefix)?)),
    }
}

// The front of a name under which the view shows every name, by the answer on the name.
fn shown_front<'a>(under: &FrontAnswer, name: &'a Oid) -> Option<&'a [u32]>
    requires { IfSome under.now.front (λ count. count ≤ length name.now) }
    ensures { option_copied result ≡ (if is_included under.now.answer
        then option_map (λ count. take count name.now) under.now.front else None) }
{
    if !under.answer.is_included() {
        return None;
    }
    Some(&name.as_slice()[..under.front?])
}

impl<O: MibObject> Passing for Served<'_, O> {
    ghost use Rattle.vacm_core.specs.Hiding.{hides_all};

    ghost passes = { λ s prefix. hides_all s.view.families s.view.view prefix };

    fn passes_over(&self, place: usize, prefix: &[u32]) -> bool {
        self.view.hides_all(place, prefix)
    }
}

impl<O: MibObject> Served<'_, O> {
    // Writes where the first instance after a name stands, but for those of the objects that are passed
    // over, and says whether there is one. These are counted in the ledger of the blank, and by no
    // clause here.
    fn next_uncounted<L: Ledger>(
        &self,
        name: &[u32],
        stand: &Stand,
        spot: &mut Spot,
        blank: Blank,
    ) -> bool
        requires stands { IsStand (in_view self.now.view.families self.now.view.view)
            (hides_all self.now.view.families self.now.view.view)
            (prefixes_of (rows_of self.now.registry.now)) stand.now name.now }
        requires name { blank.name ≡ L.name }
        requires parts { blank.parts ≡ L.parts }
        requires some { 0 < blank.parts }
        ensures found { let rows = rows_of self.now.registry.now in
            (if result then Some (instance_at rows self.now.world.now spot.new) else None)
            ≡ next_of (open_instances
            (hides_all self.now.view.families self.now.view.view) rows self.now.world.now)
            name.now }
        ensures there { IsTrue result →
            IsThere (rows_of self.now.registry.now) self.now.world.now spot.new }
        ensures place { let rows = rows_of self.now.registry.now in IsTrue result →
            IsPlace (prefixes_of rows) (instance_at rows self.now.world.now spot.new).name
            (Ok spot.new.place) }
        ensures behind { IsTrue result → first_place stand.now.place ≤ spot.new.place }
        ensures kept { IsTrue result → hides_all self.now.view.families self.now.view.view
            (prefix_at (prefixes_of (rows_of self.now.registry.now)) spot.new.place) ≡ false }
    {
        let mut passed: Steps<L> = Steps::new(blank);
        let (place, until) = (stand.place, stand.open_until);
        self.registry
            .next_open(self.world, name, place, until, self, spot, &mut passed)
    }
}

impl<'a, O: MibObject> View for Served<'a, O> {
    ghost use Rattle.vacm_core.specs.Families.{in_view};

    ghost shows = { λ s name. in_view s.view.families s.view.view name };

    type Lookup = FamilyLookup<'a>;

    ghost is_lookup = { λ s lookup. lookup ≡ s.view.families };

    fn has_name(&self, name: &Oid) -> bool {
        self.view.has(name)
    }

    fn lookup(&self, alloc: Global) -> Option<FamilyLookup<'a>> {
        self.view.lookup(alloc)
    }

    fn has_name_by(&self, name: &Oid, lookup: &mut FamilyLookup<'a>) -> bool {
        self.view.has_by(name, lookup)
    }
}

impl<O: MibObject, L: Ledger> Successors<L> for Served<'_, O> {
    ghost use Rattle.vacm_core.specs.Families.{in_view};
    ghost use Rattle.vacm_core.specs.Hiding.{hides_all};
    ghost use Rattle.setphase_core.specs.Registry.{rows_of, prefixes_of};
    ghost use Rattle.setphase_core.specs.Passing.{open_instances};
    ghost use Rattle.setphase_core.specs.Walking.{IsThere, instance_at};
    ghost use Rattle.agent_core.specs.Standing.{IsStand};

    ghost instances = { λ s. open_instances (hides_all s.view.families s.view.view)
        (rows_of s.registry.now) s.world.now };

    ghost at = { λ s. instance_at (rows_of s.registry.now) s.world.now };

    ghost is_there = { λ s. IsThere (rows_of s.registry.now) s.world.now };

    ghost stands = { λ s. IsStand (in_view s.view.families s.view.view)
        (hides_all s.view.families s.view.view) (prefixes_of (rows_of s.registry.now)) };

    fn known(&self) {
        self.registry.known(self.world);
    }

    fn start(&self, name: &[u32]) -> Stand {
        Stand::at(self.registry.place_near(name, NOWHERE))
    }

    fn start_beside(&self, name: &[u32], other: &Stand) -> Stand {
        let near = first_place(other.place);
        let place = self.registry.place_near(name, near);
        if first_place(place) < near {
            return Stand::at(place);
        }
        Stand {
            until: other.until,
            open_until: other.open_until,
            ..Stand::at(place)
        }
    }

    fn next(&self, name: &[u32], stand: &mut Stand, spot: &mut Spot, steps: &mut Steps<L>) -> bool {
        // A step is one lookup here: the objects that it passes over have a ledger of their own.
        steps.tick();
        if !self.next_uncounted::<Brand>(name, stand, spot, Blank::new(1)) {
            return false;
        }
        stand.place = Ok(spot.place);
        stand.open_until = stand.open_until.max(spot.place.saturating_add(1));
        true
    }

    fn prefix(&self, spot: &Spot) -> &[u32] {
        self.registry.prefix_at(spot.place)
    }

    fn name(&self, alloc: Global, spot: &Spot) -> Result<Oid, AllocError> {
        self.registry.name_at(alloc, spot)
    }

    fn value_into(&self, alloc: Global, spot: &Spot, into: &mut Value) {
        self.registry.value_into(alloc, self.world, spot, into)
    }

    fn is_known_shown(&self, stand: &Stand) -> bool {
        match stand.place {
            Ok(place) => place < stand.until,
            Err(_) => false,
        }
    }

    fn is_shown(&self, name: &Oid, stand: &mut Stand) -> bool {
        let Ok(place) = stand.place else {
            return self.has_name(name);
        };
        if stand.asked == Some(place) {
            return self.has_name(name);
        }
        stand.asked = Some(place);
        let under = self.view.under(name);
        if let Some(front) = shown_front(&under, name) {
            stand.until = self.registry.begun_until(front, place);
            stand.open_until = stand.open_until.max(stand.until);
        }
        under.answer.is_included()
    }
}

impl<O: MibObject, L: Ledger> Source<L> for Served<'_, O> {
    ghost use Rattle.setphase_core.specs.Registry.{rows_of, prefixes_of};

    ghost objects = { λ s. prefixes_of (rows_of s.registry.now) };

    fn object(&self, alloc: Global, name: &Oid) -> Result<Option<Oid>, AllocError> {
        object_in(alloc, self.registry, self.world, name)
    }

    fn get(&self, alloc: Global, name: &Oid) -> Result<Option<Value>, AllocError> {
        self.registry.known(self.world);
        let name = name.as_slice();
        let place = self.registry.place_near(name, NOWHERE);
        let Some(prefix) = self.registry.owner_at(name, place) else {
            return Ok(None);
        };
        if self.view.hides_all(first_place(place), prefix) {
            return Ok(None);
        }
        Ok(self.registry.read_at(alloc, self.world, name, place))
    }
}
