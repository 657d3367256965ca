//! Managed objects without a device: each shows what its descriptor says.
ghost use Rattle.std.specs.Prelude.{◌≡◌, ◌≤◌, length, true, false, if◌then◌else◌, Some, None, IfSome};
ghost use Rattle.std.specs.Option.{option_copied};
ghost use Rattle.bridge_mib.specs.WritableObject.{idle};

use message_core::Value;
use setphase_core::{
    DeviceFault, Index, MibObject, SetFault, Slot, Slots, World, Writable, assignment_by,
};
use std::alloc::Global;
use std::marker::Model;

/// What a descriptor of RFC 4188, RFC 4318 or RFC 3415 says of its object: the name, what it shows of a
/// world, and how it is written.
pub trait Descriptor: Copy {
    ghost use Rattle.setphase_core.specs.declared.column.Column.{Column};
    ghost use Rattle.setphase_core.specs.Columns.{shown_by, longest_index};
    ghost use Rattle.setphase_core.specs.Names.{row_of};
    ghost use Rattle.setphase_core.specs.Values.{value_at, index_after};
    ghost use Rattle.setphase_core.specs.Writing.{writable_of, HasStep};

    // The object's column among all objects.
    ghost column: { Self → Column };

    /// The object's name.
    fn prefix(self) -> &'static [u32]
        ensures { result.now ≡ (row_of (column self)).prefix };

    /// Writes the value of the instance of this index in place of the value that it is lent, and says
    /// whether there is one. Where there is none, it writes nothing. It takes no memory.
    fn read_into(self, alloc: Global, world: &World, at: &[u32], into: &mut Value) -> bool
        ensures found { (if result then Some into.new else None)
            ≡ value_at (shown_by (column self) world.now) at.now }
        ensures none { result ≡ false → into.new ≡ into.old };

    /// Writes the first index after this one, or the first of all, in place of the index that it is
    /// lent, and says whether there is one. That index has no more numbers than the longest of the
    /// object's column. Where there is none, it writes nothing. It takes no memory.
    fn next_into(self, world: &World, after: Option<&[u32]>, into: &mut Index) -> bool
        ensures found { (if result then Some into.new.items else None)
            ≡ index_after (shown_by (column self) world.now) (option_copied after.entry) }
        ensures fits { result ≡ true → length into.new.items ≤ longest_index (column self) }
        ensures none { result ≡ false → into.new ≡ into.old };

    /// How the object is written. None: it is never written.
    fn writable(self) -> Option<Writable>
        ensures writable { result ≡ writable_of (column self) }
        ensures step { IfSome result HasStep };
}

/// The managed object of a descriptor. It has no device, so that no commit and no undo fails. It is
/// seen as its descriptor, and what it has reserved.
#[derive(Drop)]
pub struct Described<D: Descriptor> {
    which: D,
    slots: Slots,
}

impl<D: Descriptor> Model for Described<D> {
    ghost use Rattle.bridge_mib.specs.WritableObject.{WritableObject};

    ghost Value = { WritableObject D };

    ghost view = { λ o. record { which = o.which; reserved = o.slots } };
}

impl<D: Descriptor> Described<D> {
    /// The object of this descriptor.
    pub fn new(which: D) -> Described<D>
        ensures { result ≡ idle which }
    {
        Described {
            which,
            slots: Slots::new(),
        }
    }
}

impl<D: Descriptor> MibObject for Described<D> {
    ghost use Rattle.std.specs.Prelude.{None};
    ghost use Rattle.setphase_core.specs.Names.{row_of};

    ghost state = { λ o. record {
      row = row_of (D.column o.which);
      reserved = o.reserved;
      failures = 0;
      plan = None;
    } };

    fn prefix(&self) -> &[u32] {
        self.which.prefix()
    }

    fn read_into(&self, alloc: Global, world: &World, at: &[u32], into: &mut Value) -> bool {
        self.which.read_into(alloc, world, at, into)
    }

    fn next_into(&self, world: &World, after: Option<&[u32]>, into: &mut Index) -> bool {
        self.which.next_into(world, after, into)
    }

    fn test(&mut self, world: &World, at: &[u32], value: &Value) -> Result<Slot, SetFault> {
        let tested = assignment_by(self.which.writable(), world, at, value);
        self.slots.reserve(world, tested)
    }

    fn commit(&mut self, world: &mut World, slot: Slot) -> Result<(), DeviceFault> {
        self.slots.commit(world, slot);
        Ok(())
    }

    fn undo(&mut self, world: &mut World, slot: Slot) -> Result<(), DeviceFault> {
        world.put_setting(slot.key, self.slots.before(slot));
        Ok(())
    }

    fn release(&mut self) {
        self.slots.release()
    }

    fn held(&self) -> usize {
        self.slots.len()
    }

    fn arm(&mut self, _plan: u64) {}
}
