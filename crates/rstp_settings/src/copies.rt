//! Copies of lists with one element for each port.
ghost use Rattle.std.specs.Prelude.{◌≡◌, ◌≤◌, length};

use crate::settings::MAX_PORTS;
use arrayvec::ArrayVec;

/// The same list. It takes no memory.
pub fn copied<T: Copy + Default>(items: &[T]) -> ArrayVec<T, MAX_PORTS>
    requires { length items.now ≤ MAX_PORTS }
    ensures { result.items ≡ items.now }
{
    let mut copies = ArrayVec::new();
    // there is space for all of them
    let _ = copies.try_extend_from_slice(items);
    copies
}
