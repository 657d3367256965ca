//! Managed objects and the world that they show, as what a request is answered from whose names are
//! all seen.
ghost use Rattle.std.specs.Prelude.{◌≡◌};

use crate::served::object_in;
use crate::source::{NOWHERE, Source, Stand, Successors, View};
use message_core::Value;
use oid_core::Oid;
use setphase_core::{MibObject, Registry, Spot, World};
use std::alloc::{AllocError, Global};
use std::sync::ledger::Ledger;
use steps::Steps;

/// Managed objects, and the world that they show (RFC 3416, 4.2: the variables to which an agent
/// has access).
#[derive(Drop)]
pub struct Whole<'a, O: MibObject> {
    /// The objects.
    pub registry: &'a Registry<O>,
    /// The world.
    pub world: &'a World,
}

impl<O: MibObject> View for Whole<'_, O> {
    ghost use Rattle.std.specs.Prelude.{true, ⊤};

    ghost shows = { λ s name. true };

    type Lookup = ();

    ghost is_lookup = { λ s lookup. ⊤ };

    fn has_name(&self, _name: &Oid) -> bool {
        true
    }

    fn lookup(&self, _alloc: Global) -> Option<()> {
        None
    }

    fn has_name_by(&self, _name: &Oid, _lookup: &mut ()) -> bool {
        true
    }
}

impl<O: MibObject, L: Ledger> Successors<L> for Whole<'_, O> {
    ghost use Rattle.setphase_core.specs.Registry.{rows_of, prefixes_of};
    ghost use Rattle.setphase_core.specs.Searching.{IsPlace};
    ghost use Rattle.setphase_core.specs.Walking.{IsThere, instance_at};
    ghost use Rattle.agent_core.specs.Answers.{shown_of};

    ghost instances = { λ s. (shown_of (rows_of s.registry.now) s.world.now).instances };

    ghost at = { λ s. instance_at (rows_of s.registry.now) s.world.now };

    ghost is_there = { λ s. IsThere (rows_of s.registry.now) s.world.now };

    ghost stands = { λ s stand name.
        IsPlace (prefixes_of (rows_of s.registry.now)) name stand.place };

    fn known(&self) {
        self.registry.known(self.world);
    }

    fn start(&self, name: &[u32]) -> Stand {
        Stand::at(self.registry.place_near(name, NOWHERE))
    }

    fn start_beside(&self, name: &[u32], _other: &Stand) -> Stand {
        Stand::at(self.registry.place_near(name, NOWHERE))
    }

    fn next(&self, name: &[u32], stand: &mut Stand, spot: &mut Spot, steps: &mut Steps<L>) -> bool {
        steps.tick();
        if !self.registry.next_spot(self.world, name, stand.place, spot) {
            return false;
        }
        *stand = Stand::at(Ok(spot.place));
        true
    }

    fn prefix(&self, spot: &Spot) -> &[u32] {
        self.registry.prefix_at(spot.place)
    }

    fn name(&self, alloc: Global, spot: &Spot) -> Result<Oid, AllocError> {
        self.registry.name_at(alloc, spot)
    }

    fn value_into(&self, alloc: Global, spot: &Spot, into: &mut Value) {
        self.registry.value_into(alloc, self.world, spot, into)
    }

    fn is_known_shown(&self, _stand: &Stand) -> bool {
        true
    }

    fn is_shown(&self, _name: &Oid, _stand: &mut Stand) -> bool {
        true
    }
}

impl<O: MibObject, L: Ledger> Source<L> for Whole<'_, O> {
    ghost use Rattle.setphase_core.specs.Registry.{rows_of, prefixes_of};

    ghost objects = { λ s. prefixes_of (rows_of s.registry.now) };

    fn object(&self, alloc: Global, name: &Oid) -> Result<Option<Oid>, AllocError> {
        object_in(alloc, self.registry, self.world, name)
    }

    fn get(&self, alloc: Global, name: &Oid) -> Result<Option<Value>, AllocError> {
        Ok(self.registry.read(alloc, self.world, name.as_slice()))
    }
}
