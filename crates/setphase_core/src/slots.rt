//! The slots that an object has reserved, for those who write objects.
ghost use Rattle.std.specs.Prelude.{◌≡◌, ◌<◌, ◌≤◌, [], ◌∷◌, ◌++◌, length, slice_get, slice_set, Some, IfOk, OnErr, Ok, Err};
ghost use Rattle.setting_keys.specs.declared.SettingValue.{SettingValue as AnySetting};
ghost use Rattle.setphase_core.specs.Objects.{HasSpace, pending_reservation, committed_reservation};
ghost use Rattle.setphase_core.specs.Settings.{HasSetting, IsSettingInRange, setting, put};
ghost use Rattle.setphase_core.specs.Writing.{next_slot, within_rows, assignments_in};

use crate::limits::MAX_SLOTS;
use crate::object::{Assignment, Reservation, SetFault, Slot};
use crate::static_limit::is_within_rows;
use crate::world::World;
use arrayvec::ArrayVec;
use setting_keys::SettingValue;
use std::marker::Model;

/// The slots that an object has reserved, by place: `MAX_SLOTS` at most.
#[derive(Drop)]
pub struct Slots {
    slots: ArrayVec<Reservation, MAX_SLOTS>,
}

impl Model for Slots {
    ghost use Rattle.std.specs.Prelude.{List};
    ghost use Rattle.setphase_core.specs.declared.object.Reservation.{Reservation as Slotted};

    ghost Value = { List Slotted };

    ghost view = { λ s. s.slots.items };
}

// What stands at the place of a slot before its commit.
fn pending(slot: &Slot) -> Reservation
    ensures { result ≡ pending_reservation slot.now }
{
    Reservation {
        key: slot.key,
        value: slot.value,
        old: None,
    }
}

impl Slots {
    /// None.
    pub fn new() -> Slots
        ensures { result ≡ [] }
    {
        Slots {
            slots: ArrayVec::new(),
        }
    }

    /// How many there are.
    pub fn len(&self) -> usize
        ensures { result ≡ length self.now }
    {
        self.slots.len()
    }

    /// Reserves the next place for what a variable writes, where it has no fault.
    ///
    /// # Errors
    /// The variable's fault, or `ResourceUnavailable`: where it makes a static row that is one too
    /// many beside those that are there and those that the reserved slots make; or where all places
    /// are taken.
    pub fn reserve(
        &mut self,
        world: &World,
        tested: Result<Assignment, SetFault>,
    ) -> Result<Slot, SetFault>
        ensures answer { result
            ≡ next_slot self.old (within_rows world.now (assignments_in self.old) tested) }
        ensures reserved { IfOk result (λ slot.
            self.new ≡ self.old ++ pending_reservation slot ∷ []) }
        ensures refused { OnErr result (self.new ≡ self.old) }
    {
        let Assignment { key, value } = tested?;
        if !is_within_rows(world, self.slots.as_slice(), key, &value) {
            return Err(SetFault::ResourceUnavailable);
        }
        let place = self.slots.len();
        let slot = Slot { key, value, place };
        match self.slots.try_push(pending(&slot)) {
            Ok(()) => Ok(slot),
            Err(_) => Err(SetFault::ResourceUnavailable),
        }
    }

    /// Gives the setting of a reserved slot its value, and keeps the one before.
    pub fn commit(&mut self, world: &mut World, slot: Slot)
        requires key { HasSetting world.old slot.key }
        requires value { IsSettingInRange world.old slot.key slot.value }
        requires space { HasSpace world.old slot.key slot.value }
        requires place { slot.place < length self.old }
        ensures put { world.new ≡ put world.old slot.key slot.value }
        ensures kept { self.new
            ≡ slice_set self.old slot.place
            (committed_reservation slot (setting world.old slot.key)) }
        ensures before { IsSettingInRange world.old slot.key (setting world.old slot.key) }
    {
        let before = world.get_setting(slot.key);
        world.put_setting(slot.key, slot.value);
        self.slots.as_mut_slice()[slot.place] = Reservation {
            key: slot.key,
            value: slot.value,
            old: Some(before),
        };
    }

    /// What the setting of a committed slot had before.
    pub fn before(&self, slot: Slot) -> SettingValue
        requires { (before : AnySetting) ×
            (slice_get self.now slot.place ≡ Some (committed_reservation slot before)) }
        ensures { slice_get self.now slot.place ≡ Some (committed_reservation slot result) }
    {
        match self.slots.as_slice()[slot.place].old {
            Some(before) => before,
            None => unreachable!(),
        }
    }

    /// Drops all.
    pub fn release(&mut self)
        ensures { self.new ≡ [] }
    {
        self.slots.clear();
    }
}
