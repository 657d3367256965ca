//! A managed object, as the registry sees each of them.
ghost use Rattle.std.specs.Prelude.{◌≡◌, ◌≤◌, true, false, length, slice_get, if◌then◌else◌, Some, None, IfOk, OnOk, OnErr};
ghost use Rattle.std.specs.Option.{option_copied, option_map};

use crate::limits::MAX_INDEX;
use crate::world::World;
use arrayvec::ArrayVec;
use message_core::Value;
use setting_keys::{SettingKey, SettingValue};
use std::alloc::Global;
use thiserror::Error;

/// What follows an object's name in the name of an instance (RFC 2578, 7.7).
pub type Index = ArrayVec<u32, MAX_INDEX>;

/// What a variable of a Set writes: a setting, and what it is to get.
#[derive(Clone, Copy, Debug, Default, PartialEq, Eq)]
pub struct Assignment {
    /// The setting.
    pub key: SettingKey,
    /// What it is to get.
    pub value: SettingValue,
}

/// What a test reserves: a setting, what it is to get, and one of the object's places.
#[derive(Clone, Copy, Debug, Default, PartialEq, Eq)]
pub struct Slot {
    /// The setting.
    pub key: SettingKey,
    /// What it is to get.
    pub value: SettingValue,
    /// The place of the object at which this stands.
    pub place: usize,
}

/// What stands at a place: a setting, what it is to get, and its old value once it got that.
#[derive(Clone, Copy, Debug, Default, PartialEq, Eq)]
pub struct Reservation {
    /// The setting.
    pub key: SettingKey,
    /// What it is to get.
    pub value: SettingValue,
    /// What it had, once it was committed.
    pub old: Option<SettingValue>,
}

/// Why a variable cannot be set, in the order of the tests of RFC 3416, 4.2.5, where one object
/// finds it. `NotWritable` stands at two of them, and here at the first: its second test, ahead of
/// type, length and value, for an object that is never written, and its ninth, behind
/// `InconsistentName`, for an instance that is there and is never written.
#[derive(Clone, Copy, Debug, PartialEq, Eq, Error)]
pub enum SetFault {
    /// The object, whatever the value, or the instance that is there, is never written.
    #[error("not writable")]
    NotWritable,
    /// The value's type is another.
    #[error("wrong type")]
    WrongType,
    /// The value's length is one that the object never has.
    #[error("wrong length")]
    WrongLength,
    /// The value is one that the object never has.
    #[error("wrong value")]
    WrongValue,
    /// The instance can never be.
    #[error("no creation")]
    NoCreation,
    /// The instance cannot be made now. No object answers so: the test of all variables together does.
    #[error("inconsistent name")]
    InconsistentName,
    /// The value does not fit the others now. No object answers so: the test of all variables together
    /// does.
    #[error("inconsistent value")]
    InconsistentValue,
    /// There is no place for it.
    #[error("resource unavailable")]
    ResourceUnavailable,
}

/// A device did not take a setting.
#[derive(Clone, Copy, Debug, PartialEq, Eq, Error)]
#[error("the device did not take the setting")]
pub struct DeviceFault;

/// A managed object: a name, what it shows of a world by index, and the slots that it has reserved
/// for the Set that is being made. None of its calls changes what it shows of a given world.
pub trait MibObject: Drop {
    ghost use Rattle.setting_keys.specs.declared.SettingValue.{SettingValue as AnySetting};
    ghost use Rattle.setphase_core.specs.Objects.{ObjectState, IsReserved, IsCommitted, HasSpace, HasSpaceBack, IsByPlan, reserve, after_call, object_after_arm, object_after_commit, object_after_release, object_after_failure, committed_reservation};
    ghost use Rattle.setphase_core.specs.Settings.{setting, put, IsSettingInRange, IsLine};
    ghost use Rattle.setphase_core.specs.Columns.{shown_by, longest_index};
    ghost use Rattle.setphase_core.specs.Values.{value_at, index_after};
    ghost use Rattle.setphase_core.specs.Writing.{test_answer};

    // Its name and what it shows, what it has reserved, how often its device has failed, and what
    // is left of its device's plan.
    ghost state: { Self → ObjectState };

    /// Its name.
    fn prefix(&self) -> &[u32]
        ensures { result.now ≡ (state self.now).row.prefix };

    /// Writes the value of the instance of this index in place of the value that it is lent, and says
    /// whether there is one. Where there is none, it writes nothing. It takes no memory.
    fn read_into(&self, alloc: Global, world: &World, at: &[u32], into: &mut Value) -> bool
        ensures found { (if result then Some into.new else None)
            ≡ value_at (shown_by (state self.now).row.column world.now) at.now }
        ensures none { result ≡ false → into.new ≡ into.old };

    /// The value of the instance of this index, where there is one. It takes no memory.
    fn read(&self, alloc: Global, world: &World, at: &[u32]) -> Option<Value>
        ensures { result ≡ value_at (shown_by (state self.now).row.column world.now) at.now }
    {
        let mut value = Value::Null;
        if self.read_into(alloc, world, at, &mut value) {
            Some(value)
        } else {
            None
        }
    }

    /// Writes the first index after this one, or the first of all, in place of the index that it is
    /// lent, and says whether there is one. That index has no more numbers than the longest of the
    /// object's column. Where there is none, it writes nothing. It takes no memory.
    fn next_into(&self, world: &World, after: Option<&[u32]>, into: &mut Index) -> bool
        ensures found { (if result then Some into.new.items else None)
            ≡ index_after (shown_by (state self.now).row.column world.now)
            (option_copied after.entry) }
        ensures fits { result ≡ true
            → length into.new.items ≤ longest_index (state self.now).row.column }
        ensures none { result ≡ false → into.new ≡ into.old };

    /// The first index after this one, or the first of all. It takes no memory.
    fn next(&self, world: &World, after: Option<&[u32]>) -> Option<Index>
        ensures { option_map (λ index. index.items) result
            ≡ index_after (shown_by (state self.now).row.column world.now)
            (option_copied after.entry) }
    {
        let mut index = Index::new();
        if self.next_into(world, after, &mut index) {
            Some(index)
        } else {
            None
        }
    }

    /// Tests the variable of this index, and reserves the next of its places for it (RFC 3416,
    /// 4.2.5). It takes no memory.
    ///
    /// # Errors
    /// The first fault of the variable; `ResourceUnavailable` where it has none, and makes a static
    /// row that is one too many or all places are taken. Nothing is reserved then.
    fn test(&mut self, world: &World, at: &[u32], value: &Value) -> Result<Slot, SetFault>
        ensures answer { result ≡ test_answer (state self.old).row.column world.now
            (state self.old).reserved at.now value.now }
        ensures reserved { IfOk result (λ slot. state self.new ≡ reserve (state self.old) slot) }
        ensures refused { OnErr result (state self.new ≡ state self.old) };

    /// Gives the setting of a reserved slot its value, and keeps the one before. It takes no
    /// memory: where it brings in a static row, there is a place for it. It is one call of the
    /// object's device, if it has one.
    ///
    /// # Errors
    /// The object's device did not take it: its failures are one more, and nothing else changed but
    /// its plan. Where it has a plan, it fails exactly where that says so. Only a setting that a
    /// device holds can fail.
    fn commit(&mut self, world: &mut World, slot: Slot) -> Result<(), DeviceFault>
        requires reserved { IsReserved world.old (state self.old) slot }
        requires space { HasSpace world.old slot.key slot.value }
        ensures put { OnOk result (world.new ≡ put world.old slot.key slot.value) }
        ensures kept { OnOk result
            (state self.new ≡ object_after_commit (state self.old) slot
            (setting world.old slot.key)) }
        ensures before { OnOk result
            (IsSettingInRange world.old slot.key (setting world.old slot.key)) }
        ensures unchanged { OnErr result (world.new ≡ world.old) }
        ensures failed { OnErr result (state self.new ≡ object_after_failure (state self.old)) }
        ensures passes { OnOk result (IsByPlan (state self.old) false) }
        ensures fails { OnErr result (IsByPlan (state self.old) true) }
        ensures line { OnErr result (IsLine slot.key) };

    /// Gives the setting of a committed slot back what it had before the commit, whatever became of
    /// other settings since. It takes no memory: where it brings in a static row, there is a place
    /// for it. It is one call of the object's device, if it has one.
    ///
    /// # Errors
    /// As of `commit`.
    fn undo(&mut self, world: &mut World, slot: Slot) -> Result<(), DeviceFault>
        requires committed { (before : AnySetting)
            × IsCommitted world.old (state self.old) slot before }
        requires space { HasSpaceBack world.old (state self.old) slot }
        ensures put { OnOk result ((before : AnySetting)
            → slice_get (state self.old).reserved slot.place
            ≡ Some (committed_reservation slot before)
            → world.new ≡ put world.old slot.key before) }
        ensures kept { OnOk result (state self.new ≡ after_call (state self.old)) }
        ensures unchanged { OnErr result (world.new ≡ world.old) }
        ensures failed { OnErr result (state self.new ≡ object_after_failure (state self.old)) }
        ensures passes { OnOk result (IsByPlan (state self.old) false) }
        ensures fails { OnErr result (IsByPlan (state self.old) true) }
        ensures line { OnErr result (IsLine slot.key) };

    /// Drops all slots.
    fn release(&mut self)
        ensures { state self.new ≡ object_after_release (state self.old) };

    /// How many slots are reserved.
    fn held(&self) -> usize
        ensures { result ≡ length (state self.now).reserved };

    /// Arms the object's device with a plan, in place of the one before: bit k - 1 says that its
    /// k-th call from now fails. Where the object has no device that takes plans, it does nothing.
    /// It takes no memory.
    fn arm(&mut self, plan: u64)
        ensures { state self.new ≡ object_after_arm plan (state self.old) };
}
