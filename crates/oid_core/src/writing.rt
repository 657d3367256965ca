//! Writes the coded numbers of a name (X.690, 8.19.2 and 8.19.4).
ghost use Rattle.std.specs.Prelude.{◌≡◌, ◌≤◌, ◌+◌, ◌-◌, ◌++◌, length, take, drop, OnOk, OnErr};
ghost use Rattle.std.specs.List.{flat_map};
ghost use Rattle.ber_core.specs.Writing.{written_octets, capacity, Prepends, KeepsFront};
ghost use Rattle.oid_core.specs.Name.{HasRoot, canon_coded, canon_name};
ghost use Rattle.oid_core.specs.Writing.{Extends};

use ber_core::{BerFault, Out};

/// Writes a coded number.
#[tactic(auto, unfolding(crate::specs::Name::canon_coded))]
fn put_coded(out: &mut Out<'_>, number: u64) -> Result<(), BerFault>
    ensures same_reference { out.new.space.ghost_name ≡ out.old.space.ghost_name }
    ensures puts { Prepends out.old out.new result (canon_coded number) }
    ensures front { OnOk result (KeepsFront out.old out.new) }
    ensures behind { Extends (written_octets out.old) (written_octets out.new) }
{
    out.put_octets(&[(number % 128) as u8])?;
    let mut left = number / 128;
    while left > 0 {
        out.put_octets(&[128 + (left % 128) as u8])?;
        left /= 128;
    }
    Ok(())
}

/// Writes the last numbers that have one octet each into the places that they have in a slice of as
/// many octets, and says how many numbers are in front of them.
fn put_tail(octets: &mut [u8], numbers: &[u32]) -> usize
    requires { length octets.old ≡ length numbers.now }
    ensures octets { drop result octets.new ≡ flat_map canon_coded (drop result numbers.now) }
    ensures front { take result octets.new ≡ take result octets.old }
    ensures len { length octets.new ≡ length octets.old }
    ensures within { result ≤ length numbers.now }
{
    let mut left = numbers.len();
    while left > 0 && numbers[left - 1] < 128 {
        left -= 1;
        octets[left] = numbers[left] as u8;
    }
    left
}

/// Writes the last numbers of a name that have one octet each, as far as there is space, into a
/// slice in front of `start`, and says how many. The first two numbers are left.
fn put_short(space: &mut [u8], start: usize, name: &[u32]) -> usize
    requires start { start ≤ length space.old }
    requires root { 2 ≤ length name.now }
    ensures octets { drop (start - result) space.new
        ≡ flat_map canon_coded (drop (length name.now - result) name.now) ++ drop start space.old }
    ensures front { take (start - result) space.new ≡ take (start - result) space.old }
    ensures len { length space.new ≡ length space.old }
    ensures within { result ≤ start }
    ensures most { result + 2 ≤ length name.now }
{
    let most = start.min(name.len() - 2);
    let numbers = &name[name.len() - most..];
    most - put_tail(&mut space[start - most..start], numbers)
}

/// Writes the last numbers of a name that have one octet each, as far as there is space, and says
/// how many. The first two numbers are left.
fn put_last(out: &mut Out<'_>, name: &[u32]) -> usize
    requires { 2 ≤ length name.now }
    ensures same_reference { out.new.space.ghost_name ≡ out.old.space.ghost_name }
    ensures octets { written_octets out.new
        ≡ flat_map canon_coded (drop (length name.now - result) name.now)
        ++ written_octets out.old }
    ensures space { capacity out.new ≡ capacity out.old }
    ensures front { KeepsFront out.old out.new }
    ensures most { result + 2 ≤ length name.now }
{
    let count = put_short(out.space, out.start, name);
    out.start -= count;
    count
}

/// Writes the coded numbers of a name, the last one first.
fn put_numbers(out: &mut Out<'_>, name: &[u32]) -> Result<(), BerFault>
    requires { HasRoot name.now }
    ensures same_reference { out.new.space.ghost_name ≡ out.old.space.ghost_name }
    ensures puts { Prepends out.old out.new result (canon_name name.now) }
    ensures front { OnOk result (KeepsFront out.old out.new) }
    ensures behind { Extends (written_octets out.old) (written_octets out.new) }
{
    let mut i = name.len() - put_last(out, name);
    while i > 2 {
        i -= 1;
        put_coded(out, u64::from(name[i]))?;
    }
    put_coded(out, u64::from(name[0]) * 40 + u64::from(name[1]))
}

/// Writes the shortest content of an OBJECT IDENTIFIER in front of what is written (X.690, 8.19).
///
/// The caller ensures that the name has an encoding: two sub-identifiers or more, of which the first
/// is at most 2, and the second at most 39 where the first is below 2 (X.690, 8.19.4). `NoRoom`
/// where it does not fit, and then what is written is as it was; of the octets of the slice in
/// front of it nothing is known then. A call that succeeds leaves those in front of what it wrote as
/// they were.
pub fn put_name(out: &mut Out<'_>, name: &[u32]) -> Result<(), BerFault>
    requires { HasRoot name.now }
    ensures same_reference { out.new.space.ghost_name ≡ out.old.space.ghost_name }
    ensures puts { Prepends out.old out.new result (canon_name name.now) }
    ensures front { OnOk result (KeepsFront out.old out.new) }
    ensures err { OnErr result (written_octets out.new ≡ written_octets out.old) }
{
    let mark = out.len();
    let put = put_numbers(out, name);
    if put.is_err() {
        out.truncate(mark);
    }
    put
}
