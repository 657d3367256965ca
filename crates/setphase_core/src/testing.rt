//! The tests of variables by the objects of a registry.
ghost use Rattle.std.specs.Prelude.{◌≡◌, ◌<◌, true, length, slice_set, IfOk, OnErr};
ghost use Rattle.oid_core.specs.Order.{is_prefix};
ghost use Rattle.setphase_core.specs.Objects.{reserve};
ghost use Rattle.setphase_core.specs.Registry.{rows_of, prefixes_of};
ghost use Rattle.setphase_core.specs.Searching.{IsOwnerPlace};
ghost use Rattle.setphase_core.specs.Staging.{object_at};
ghost use Rattle.setphase_core.specs.Tested.{answer_at, answer_of};

use crate::object::{MibObject, SetFault, Slot};
use crate::registry::Registry;
use crate::search::place_uncounted;
use crate::world::World;
use message_core::Binding;
use std::marker::Brand;
use std::sync::ledger::Blank;

// Tests a variable of an object whose name begins the variable's.
fn test_under<O: MibObject>(
    object: &mut O,
    world: &World,
    binding: &Binding,
) -> Result<Slot, SetFault>
    requires { is_prefix (O.state object.old).row.prefix binding.now.name ≡ true }
    ensures answer { result ≡ answer_of (O.state object.old) world.now binding.now }
    ensures reserved { IfOk result (λ slot. O.state object.new
        ≡ reserve (O.state object.old) slot) }
    ensures refused { OnErr result (O.state object.new ≡ O.state object.old) }
{
    let length = object.prefix().len();
    object.test(world, &binding.name.as_slice()[length..], &binding.value)
}

impl<O: MibObject> Registry<O> {
    // The place of the object whose name begins a name.
    pub(crate) fn place(&self, name: &[u32]) -> Option<usize>
        ensures { IsOwnerPlace (prefixes_of (rows_of self.now)) name.now result }
    {
        let objects = self.objects.as_slice();
        place_uncounted::<O, Brand>(objects, name, Blank::new(1)).ok()
    }

    // Tests a variable of the object at a place, whose name begins the variable's.
    pub(crate) fn test(
        &mut self,
        place: usize,
        world: &World,
        binding: &Binding,
    ) -> Result<Slot, SetFault>
        requires within { place < length self.old }
        requires begun { is_prefix (object_at self.old place).row.prefix binding.now.name ≡ true }
        ensures answer { result ≡ answer_at self.old place world.now binding.now }
        ensures reserved { IfOk result (λ slot. self.new
            ≡ slice_set self.old place (reserve (object_at self.old place) slot)) }
        ensures refused { OnErr result (self.new ≡ self.old) }
    {
        test_under(&mut self.objects[place], world, binding)
    }
}
