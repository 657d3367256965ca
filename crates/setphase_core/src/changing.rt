//! Commits and their undoing by the objects of a registry.
ghost use Rattle.std.specs.Prelude.{◌≡◌, ◌<◌, true, false, length, slice_get, slice_set, Some, OnOk, OnErr};
ghost use Rattle.setting_keys.specs.declared.SettingValue.{SettingValue as AnySetting};
ghost use Rattle.setphase_core.specs.Objects.{after_call, object_after_commit, committed_reservation, object_after_failure, IsReserved, IsCommitted, HasSpace, HasSpaceBack, IsByPlan};
ghost use Rattle.setphase_core.specs.Settings.{put, setting, IsSettingInRange, IsLine};
ghost use Rattle.setphase_core.specs.Staging.{object_at};

use crate::object::{DeviceFault, MibObject, Slot};
use crate::registry::Registry;
use crate::world::World;

impl<O: MibObject> Registry<O> {
    // Commits a slot of the object at a place.
    pub(crate) fn commit(
        &mut self,
        place: usize,
        world: &mut World,
        slot: Slot,
    ) -> Result<(), DeviceFault>
        requires within { place < length self.old }
        requires reserved { IsReserved world.old (object_at self.old place) slot }
        requires space { HasSpace world.old slot.key slot.value }
        ensures put { OnOk result (world.new ≡ put world.old slot.key slot.value) }
        ensures kept { OnOk result (self.new ≡ slice_set self.old place
            (object_after_commit (object_at self.old place) slot (setting world.old slot.key))) }
        ensures before { OnOk result
            (IsSettingInRange world.old slot.key (setting world.old slot.key)) }
        ensures unchanged { OnErr result (world.new ≡ world.old) }
        ensures failed { OnErr result (self.new
            ≡ slice_set self.old place (object_after_failure (object_at self.old place))) }
        ensures passes { OnOk result (IsByPlan (object_at self.old place) false) }
        ensures fails { OnErr result (IsByPlan (object_at self.old place) true) }
        ensures line { OnErr result (IsLine slot.key) }
    {
        self.objects[place].commit(world, slot)
    }

    // Undoes the commit of a slot of the object at a place.
    pub(crate) fn undo(
        &mut self,
        place: usize,
        world: &mut World,
        slot: Slot,
    ) -> Result<(), DeviceFault>
        requires within { place < length self.old }
        requires committed { (before : AnySetting)
            × IsCommitted world.old (object_at self.old place) slot before }
        requires space { HasSpaceBack world.old (object_at self.old place) slot }
        ensures put { OnOk result ((before : AnySetting)
            → slice_get (object_at self.old place).reserved slot.place
            ≡ Some (committed_reservation slot before)
            → world.new ≡ put world.old slot.key before) }
        ensures kept { OnOk result (self.new
            ≡ slice_set self.old place (after_call (object_at self.old place))) }
        ensures unchanged { OnErr result (world.new ≡ world.old) }
        ensures failed { OnErr result (self.new
            ≡ slice_set self.old place (object_after_failure (object_at self.old place))) }
        ensures passes { OnOk result (IsByPlan (object_at self.old place) false) }
        ensures fails { OnErr result (IsByPlan (object_at self.old place) true) }
        ensures line { OnErr result (IsLine slot.key) }
    {
        self.objects[place].undo(world, slot)
    }
}
