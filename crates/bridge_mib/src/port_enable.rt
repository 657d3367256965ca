//! dot1dStpPortEnable over a device that switches lines (RFC 4188).
ghost use Rattle.std.specs.Prelude.{◌≡◌, ◌+◌, ℕ, true, false, [], slice_get, Some, OnOk, OnErr};
ghost use Rattle.setting_keys.specs.declared.SettingValue.{SettingValue as AnySetting};
ghost use Rattle.setphase_core.specs.Objects.{IsReserved, IsCommitted, HasSpace, HasSpaceBack, IsByPlan, after_call, object_after_arm, object_after_commit, object_after_failure, committed_reservation};
ghost use Rattle.setphase_core.specs.Plans.{plan_after_call, FollowsPlan};
ghost use Rattle.setphase_core.specs.Settings.{setting, put, IsSettingInRange, IsLine};
ghost use Rattle.bridge_mib.specs.Line.{state_of, port_enable, is_enabled};

use crate::described::Descriptor;
use crate::line::LineDriver;
use message_core::Value;
use rstp_core::{Key, PortKey};
use setphase_core::{
    DeviceFault, Index, MibObject, SetFault, Slot, Slots, StpPort, World, assignment_by,
};
use setting_keys::{SettingKey, SettingValue};
use std::alloc::Global;
use std::marker::Model;

/// dot1dStpPortEnable, whose writes switch lines first. It is seen as its driver, and what it has
/// reserved, which are settings of its own alone.
#[derive(Drop)]
pub struct PortEnable<L: LineDriver> {
    driver: L,
    slots: Slots,
}

impl<L: LineDriver> Model for PortEnable<L> {
    ghost use Rattle.bridge_mib.specs.Line.{Driven, AreEnables};

    ghost Value = { Driven L };

    ghost view = { λ o. record { driver = o.driver; reserved = o.slots } };

    ghost invariant = { λ o. AreEnables o.slots };
}

impl<L: LineDriver> PortEnable<L> {
    /// The object over this driver.
    pub fn new(driver: L) -> PortEnable<L>
        ensures { result ≡ record { driver = driver; reserved = [] } }
    {
        PortEnable {
            driver,
            slots: Slots::new(),
        }
    }
}

// Gives a driver what the line of the port whose setting this is is to be.
fn call_driver<L: LineDriver>(
    driver: &mut L,
    key: SettingKey,
    value: &SettingValue,
) -> Result<(), DeviceFault>
    requires { IsLine key }
    ensures reported { (port : ℕ) → key ≡ port_enable port
        → L.reported driver.old port (is_enabled value.now) result driver.new }
    ensures done { OnOk result (L.failures driver.new ≡ L.failures driver.old) }
    ensures failed { OnErr result (L.failures driver.new ≡ L.failures driver.old + 1) }
    ensures spent { L.plan_left driver.new ≡ plan_after_call (L.plan_left driver.old) }
    ensures passes { OnOk result
        (FollowsPlan (L.plan_left driver.old) (L.failures driver.old) false) }
    ensures fails { OnErr result
        (FollowsPlan (L.plan_left driver.old) (L.failures driver.old) true) }
    ensures line { OnErr result (IsLine key) }
{
    match key {
        SettingKey::Bridge(Key::Port(port, PortKey::Enable)) => {
            driver.set_enabled(port, is_enabled(value))
        }
        _ => unreachable!(),
    }
}

// Whether a value of dot1dStpPortEnable is enabled (RFC 4188).
fn is_enabled(value: &SettingValue) -> bool
    ensures { result ≡ is_enabled value.now }
{
    matches!(value, SettingValue::Number(1))
}

impl<L: LineDriver> MibObject for PortEnable<L> {
    ghost use Rattle.bridge_mib.specs.Line.{state_of};

    ghost state = { state_of L.failures L.plan_left };

    fn prefix(&self) -> &[u32] {
        StpPort::Enable.prefix()
    }

    fn read_into(&self, alloc: Global, world: &World, at: &[u32], into: &mut Value) -> bool {
        StpPort::Enable.read_into(alloc, world, at, into)
    }

    fn next_into(&self, world: &World, after: Option<&[u32]>, into: &mut Index) -> bool {
        StpPort::Enable.next_into(world, after, into)
    }

    fn test(&mut self, world: &World, at: &[u32], value: &Value) -> Result<Slot, SetFault> {
        let writable = StpPort::Enable.writable();
        self.slots
            .reserve(world, assignment_by(writable, world, at, value))
    }

    fn commit(&mut self, world: &mut World, slot: Slot) -> Result<(), DeviceFault>
        requires reserved { IsReserved world.old
            (state_of L.failures L.plan_left self.old) slot }
        requires space { HasSpace world.old slot.key slot.value }
        ensures put { OnOk result (world.new ≡ put world.old slot.key slot.value) }
        ensures kept { OnOk result (state_of L.failures L.plan_left self.new
            ≡ object_after_commit (state_of L.failures L.plan_left self.old) slot
            (setting world.old slot.key)) }
        ensures before { OnOk result
            (IsSettingInRange world.old slot.key (setting world.old slot.key)) }
        ensures unchanged { OnErr result (world.new ≡ world.old) }
        ensures failed { OnErr result (state_of L.failures L.plan_left self.new
            ≡ object_after_failure (state_of L.failures L.plan_left self.old)) }
        ensures passes { OnOk result
            (IsByPlan (state_of L.failures L.plan_left self.old) false) }
        ensures fails { OnErr result (IsByPlan (state_of L.failures L.plan_left self.old) true) }
        ensures line { OnErr result (IsLine slot.key) }
        // The driver is called, whatever the line is already.
        ensures reported { (port : ℕ) → slot.key ≡ port_enable port
            → L.reported self.old.driver port (is_enabled slot.value) result self.new.driver }
    {
        call_driver(&mut self.driver, slot.key, &slot.value)?;
        self.slots.commit(world, slot);
        Ok(())
    }

    fn undo(&mut self, world: &mut World, slot: Slot) -> Result<(), DeviceFault>
        requires committed { (before : AnySetting)
            × IsCommitted world.old (state_of L.failures L.plan_left self.old) slot before }
        requires space { HasSpaceBack world.old
            (state_of L.failures L.plan_left self.old) slot }
        ensures put { OnOk result ((before : AnySetting)
            → slice_get self.old.reserved slot.place ≡ Some (committed_reservation slot before)
            → world.new ≡ put world.old slot.key before) }
        ensures kept { OnOk result (state_of L.failures L.plan_left self.new
            ≡ after_call (state_of L.failures L.plan_left self.old)) }
        ensures unchanged { OnErr result (world.new ≡ world.old) }
        ensures failed { OnErr result (state_of L.failures L.plan_left self.new
            ≡ object_after_failure (state_of L.failures L.plan_left self.old)) }
        ensures passes { OnOk result
            (IsByPlan (state_of L.failures L.plan_left self.old) false) }
        ensures fails { OnErr result (IsByPlan (state_of L.failures L.plan_left self.old) true) }
        ensures line { OnErr result (IsLine slot.key) }
        // The driver is called, whatever the line is already.
        ensures reported { (before : AnySetting) (port : ℕ)
            → slice_get self.old.reserved slot.place ≡ Some (committed_reservation slot before)
            → slot.key ≡ port_enable port
            → L.reported self.old.driver port (is_enabled before) result self.new.driver }
    {
        let key = slot.key;
        let before = self.slots.before(slot);
        call_driver(&mut self.driver, key, &before)?;
        world.put_setting(key, before);
        Ok(())
    }

    fn release(&mut self) {
        self.slots.release()
    }

    fn held(&self) -> usize {
        self.slots.len()
    }

    fn arm(&mut self, plan: u64) {
        self.driver.arm(plan)
    }
}
