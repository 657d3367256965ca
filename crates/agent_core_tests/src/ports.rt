//! Objects of long names, made by hand.
ghost use Rattle.std.specs.Prelude.{◌≡◌, ◌-◌, ◌≤◌, ◌∷◌, replicate, IfOk};
ghost use Rattle.bridge_core.specs.Bridge.{port_count};
ghost use Rattle.setphase_core.specs.Values.{by_port, value_at};
ghost use Rattle.setphase_core.specs.Columns.{number};

use message_core::Value;
use setphase_core::{
    DeviceFault, Index, MibObject, Registry, SetFault, Slot, Slots, World, assignment_by,
    port_after, port_at,
};
use std::alloc::Global;
use std::test::Fail;

/// dot1dBasePort under any name.
#[derive(Drop)]
pub struct PortNumbers {
    name: Vec<u32>,
    slots: Slots,
}

impl MibObject for PortNumbers {
    ghost use Rattle.std.specs.Prelude.{None};
    ghost use Rattle.setphase_core.specs.declared.column.BasePort.TheVariants as base_port;
    ghost use Rattle.setphase_core.specs.declared.column.Column.TheVariants as column;

    ghost state = { λ o. record {
      row = record {
        prefix = o.name.items;
        column = column.BasePort base_port.Port;
      };
      reserved = o.slots;
      failures = 0;
      plan = None;
    } };

    fn prefix(&self) -> &[u32] {
        self.name.as_slice()
    }

    #[tactic(auto, unfolding(setphase_core::specs::Columns::shown_by))]
    fn read_into(&self, _alloc: Global, world: &World, at: &[u32], into: &mut Value) -> bool {
        let Some(value) = port_number(world, at) else {
            return false;
        };
        *into = value;
        true
    }

    #[tactic(auto, unfolding(setphase_core::specs::Columns::shown_by))]
    fn next_into(&self, world: &World, after: Option<&[u32]>, into: &mut Index) -> bool {
        port_after(world.bridge.ports(), after, into)
    }

    // It is never written: each test is refused, and reserves nothing.
    fn test(&mut self, world: &World, at: &[u32], value: &Value) -> Result<Slot, SetFault> {
        self.slots
            .reserve(world, assignment_by(None, world, at, value))
    }

    fn commit(&mut self, world: &mut World, slot: Slot) -> Result<(), DeviceFault> {
        self.slots.commit(world, slot);
        Ok(())
    }

    fn undo(&mut self, world: &mut World, slot: Slot) -> Result<(), DeviceFault> {
        world.put_setting(slot.key, self.slots.before(slot));
        Ok(())
    }

    fn release(&mut self) {
        self.slots.release()
    }

    fn held(&self) -> usize {
        self.slots.len()
    }

    fn arm(&mut self, _plan: u64) {}
}

// What dot1dBasePort shows at an index.
fn port_number(world: &World, at: &[u32]) -> Option<Value>
    ensures { result ≡ value_at (by_port (port_count world.now.bridge) number) at.now }
{
    match port_at(world.bridge.ports(), at) {
        None => None,
        Some(port) => Some(Value::Integer(i32::from(port))),
    }
}

// The object of 1.3, a number and as many times 1 as its name has further numbers.
fn port_numbers(alloc: Global, third: u32, numbers: usize) -> Result<PortNumbers, Fail>
    requires { 3 ≤ numbers }
    ensures { IfOk result (λ made.
        made.name.items ≡ 1 ∷ 3 ∷ third ∷ replicate (numbers - 3) 1) }
{
    let mut name = Vec::from_array(alloc, [1, 3, third])?;
    name.resize(numbers, 1)?;
    Ok(PortNumbers {
        name,
        slots: Slots::new(),
    })
}

/// The registry of the objects of 1.3.1 to 1.3.5, whose instances have names of 23, 24, 25, 113 and
/// 128 numbers.
pub fn long_registry(alloc: Global) -> Result<Registry<PortNumbers>, Fail> {
    let objects = Vec::from_array(
        alloc,
        [
            port_numbers(alloc, 1, 22)?,
            port_numbers(alloc, 2, 23)?,
            port_numbers(alloc, 3, 24)?,
            port_numbers(alloc, 4, 112)?,
            port_numbers(alloc, 5, 127)?,
        ],
    )?;
    Ok(Registry::new(objects).ok().ok_or("a registry")?)
}
