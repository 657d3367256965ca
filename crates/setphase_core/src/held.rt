//! What the objects of a registry have reserved.
ghost use Rattle.std.specs.Prelude.{◌≡◌, ◌-◌, ◌^◌, map, min};
ghost use Rattle.setphase_core.specs.Objects.{object_after_arm, object_after_release};
ghost use Rattle.setphase_core.specs.Registry.{held_count};

use crate::object::MibObject;
use crate::registry::Registry;

impl<O: MibObject> Registry<O> {
    /// How many slots all objects have reserved; a count above `usize::MAX` is given as that.
    pub fn held(&self) -> usize
        ensures { result ≡ min (held_count self.now) (2 ^ 64 - 1) }
    {
        let mut count: usize = 0;
        for object in &self.objects {
            count = count.saturating_add(object.held());
        }
        count
    }

    /// Lets each object drop its slots.
    pub fn release(&mut self)
        ensures { self.new ≡ map object_after_release self.old }
    {
        for object in self.objects.iter_mut() {
            object.release();
        }
    }

    /// Arms the objects' devices with a plan, each with all of it ([`MibObject::arm`]).
    pub fn arm(&mut self, plan: u64)
        ensures { self.new ≡ map (object_after_arm plan) self.old }
    {
        for object in self.objects.iter_mut() {
            object.arm(plan);
        }
    }
}
