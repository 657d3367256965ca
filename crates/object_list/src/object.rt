//! A managed object of any kind.
ghost use Rattle.std.specs.Prelude.{◌≡◌, [], IfSome};
ghost use Rattle.object_list.specs.Objects.{column_of, reserved_of};

use crate::descriptor::{ColumnDescriptor, PlainObject};
use bridge_mib::{LineDriver, PortEnable};
use message_core::Value;
use setphase_core::{Column, DeviceFault, Index, MibObject, SetFault, Slot, StpPort, World};
use std::alloc::Global;

/// A managed object; dot1dStpPortEnable may stand over a driver.
#[derive(Drop)]
pub enum Object<L: LineDriver> {
    /// The object of a column, without a device.
    Plain(PlainObject),
    /// dot1dStpPortEnable over a driver.
    Enable(PortEnable<L>),
}

impl<L: LineDriver> Object<L> {
    /// The object that shows this column. It has no driver, and has reserved nothing.
    pub fn of(column: Column) -> Object<L>
        ensures column { column_of result ≡ column }
        ensures reserved { reserved_of result ≡ [] }
    {
        Object::Plain(PlainObject::new(ColumnDescriptor(column)))
    }

    /// The same, but that dot1dStpPortEnable takes the driver, where there is one.
    pub fn over(column: Column, driver: &mut Option<L>) -> Object<L>
        ensures column { column_of result ≡ column }
        ensures reserved { reserved_of result ≡ [] }
        ensures taken { column ≡ Column.StpPort StpPort.Enable → IfSome driver.old (λ d.
            result ≡ Object.Enable (record { driver = d; reserved = [] })) }
        ensures left { ¬ (column ≡ Column.StpPort StpPort.Enable) → driver.new ≡ driver.old }
    {
        match column {
            Column::StpPort(StpPort::Enable) => match driver.take() {
                Some(driver) => Object::Enable(PortEnable::new(driver)),
                None => Object::of(column),
            },
            _ => Object::of(column),
        }
    }
}

impl<L: LineDriver> MibObject for Object<L> {
    ghost use Rattle.object_list.specs.Objects.{state_of};

    ghost state = { state_of L.failures L.plan_left };

    fn prefix(&self) -> &[u32] {
        match self {
            Object::Plain(object) => object.prefix(),
            Object::Enable(object) => object.prefix(),
        }
    }

    fn read_into(&self, alloc: Global, world: &World, at: &[u32], into: &mut Value) -> bool {
        match self {
            Object::Plain(object) => object.read_into(alloc, world, at, into),
            Object::Enable(object) => object.read_into(alloc, world, at, into),
        }
    }

    fn next_into(&self, world: &World, after: Option<&[u32]>, into: &mut Index) -> bool {
        match self {
            Object::Plain(object) => object.next_into(world, after, into),
            Object::Enable(object) => object.next_into(world, after, into),
        }
    }

    fn test(&mut self, world: &World, at: &[u32], value: &Value) -> Result<Slot, SetFault> {
        match self {
            Object::Plain(object) => object.test(world, at, value),
            Object::Enable(object) => object.test(world, at, value),
        }
    }

    fn commit(&mut self, world: &mut World, slot: Slot) -> Result<(), DeviceFault> {
        match self {
            Object::Plain(object) => object.commit(world, slot),
            Object::Enable(object) => object.commit(world, slot),
        }
    }

    fn undo(&mut self, world: &mut World, slot: Slot) -> Result<(), DeviceFault> {
        match self {
            Object::Plain(object) => object.undo(world, slot),
            Object::Enable(object) => object.undo(world, slot),
        }
    }

    fn release(&mut self) {
        match self {
            Object::Plain(object) => object.release(),
            Object::Enable(object) => object.release(),
        }
    }

    fn held(&self) -> usize {
        match self {
            Object::Plain(object) => object.held(),
            Object::Enable(object) => object.held(),
        }
    }

    fn arm(&mut self, plan: u64) {
        match self {
            Object::Plain(object) => object.arm(plan),
            Object::Enable(object) => object.arm(plan),
        }
    }
}
