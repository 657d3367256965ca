//! A boxed object is an object.

use crate::object::{DeviceFault, Index, MibObject, SetFault, Slot};
use crate::world::World;
use message_core::Value;
use std::alloc::Global;

impl MibObject for Box<dyn MibObject + Send> {
    ghost state = { λ b. (MibObject-box b).state b.value };

    fn prefix(&self) -> &[u32] {
        (**self).prefix()
    }

    fn read_into(&self, alloc: Global, world: &World, at: &[u32], into: &mut Value) -> bool {
        (**self).read_into(alloc, world, at, into)
    }

    fn next_into(&self, world: &World, after: Option<&[u32]>, into: &mut Index) -> bool {
        (**self).next_into(world, after, into)
    }

    fn test(&mut self, world: &World, at: &[u32], value: &Value) -> Result<Slot, SetFault> {
        (**self).test(world, at, value)
    }

    fn commit(&mut self, world: &mut World, slot: Slot) -> Result<(), DeviceFault> {
        (**self).commit(world, slot)
    }

    fn undo(&mut self, world: &mut World, slot: Slot) -> Result<(), DeviceFault> {
        (**self).undo(world, slot)
    }

    fn release(&mut self) {
        (**self).release()
    }

    fn held(&self) -> usize {
        (**self).held()
    }

    fn arm(&mut self, plan: u64) {
        (**self).arm(plan)
    }
}
