//! The indexes of scalars and of tables of ports, as the objects that show them read and give them.
ghost use Rattle.std.specs.Prelude.{◌≡◌, ◌≤◌, ℕ, [], ◌∷◌, length, if◌then◌else◌, true, false, Some, None, IfSome, slice_get, unwrap_or};
ghost use Rattle.std.specs.Option.{option_copied, option_map};
ghost use Rattle.oid_core.specs.Order.{name_eq};
ghost use Rattle.message_core.specs.declared.value.Value.{Value as AnyValue};
ghost use Rattle.setphase_core.specs.Values.{scalar, by_port, port_index, value_at, index_after};

use crate::object::Index;
use oid_core::same_name;
use rstp_core::MAX_PORTS;

// Writes the index of one number.
fn write_number(number: u32, into: &mut Index)
    ensures { into.new.items ≡ number ∷ [] }
{
    if let [only] = into.as_mut_slice() {
        *only = number;
        return;
    }
    into.clear();
    into.push(number);
}

/// Whether an index is that of a scalar's instance.
pub fn is_scalar(at: &[u32]) -> bool
    ensures value { (v : AnyValue) → value_at (scalar v) at.now
        ≡ (if result then Some v else None) }
    ensures index { result ≡ name_eq (0 ∷ []) at.now }
{
    same_name(&[0], at)
}

/// Writes the index of a scalar's instance, where it comes after this one, and says whether it does.
/// Where it does not, nothing is written.
pub fn scalar_after(after: Option<&[u32]>, into: &mut Index) -> bool
    ensures found { (v : AnyValue) → (if result then Some into.new.items else None)
        ≡ index_after (scalar v) (option_copied after.entry) }
    ensures one { result ≡ true → length into.new.items ≡ 1 }
    ensures none { result ≡ false → into.new ≡ into.old }
{
    if let Some([_, ..]) = after {
        return false;
    }
    write_number(0, into);
    true
}

/// The port whose index this is, among so many.
pub fn port_at(ports: usize, at: &[u32]) -> Option<u16>
    requires { ports ≤ MAX_PORTS }
    ensures value { (f : ℕ → AnyValue) → value_at (by_port ports f) at.now ≡ option_map f result }
    ensures number { result ≡ port_index ports at.now }
    ensures range { IfSome result (λ n. (1 ≤ n) × (n ≤ ports)) }
{
    match at {
        [n] if 1 <= *n && *n as usize <= ports => Some(*n as u16),
        _ => None,
    }
}

// The first number of an index, or 0 where there is none.
fn first_number(index: Option<&[u32]>) -> u32
    ensures { result ≡ unwrap_or (slice_get (unwrap_or (option_copied index.entry) []) 0) 0 }
{
    match index {
        None => 0,
        Some(index) => index.first().copied().unwrap_or(0),
    }
}

/// Writes the first index of so many ports that comes after this one, and says whether there is one.
/// Where there is none, nothing is written.
pub fn port_after(ports: usize, after: Option<&[u32]>, into: &mut Index) -> bool
    requires { ports ≤ MAX_PORTS }
    ensures found { (f : ℕ → AnyValue) → (if result then Some into.new.items else None)
        ≡ index_after (by_port ports f) (option_copied after.entry) }
    ensures one { result ≡ true → length into.new.items ≡ 1 }
    ensures none { result ≡ false → into.new ≡ into.old }
{
    let last = first_number(after);
    if last as usize >= ports {
        return false;
    }
    write_number(last + 1, into);
    true
}
