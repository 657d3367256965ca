//! A writer into a lent slice, from the back (X.690, 8.1 and 8.3).
ghost use Rattle.std.specs.Prelude.{◌≡◌, [], ◌∷◌, ◌++◌, ◌≤◌, ◌<◌, ◌^◌, ◌-◌, ◌+◌, length, drop, OnOk, OnErr};

use crate::fault::BerFault;
use crate::heads::head_len;
use crate::reading::Tag;
use crate::shortest::shortest_of;

/// A writer that fills the slice that it was lent from the back, so that a value's content is
/// written before its length.
///
/// The slice is shorter than 2^32 octets. A call that is refused leaves the writer and the slice as
/// they were. One that succeeds leaves the octets of the slice in front of what it wrote as they
/// were.
#[derive(Drop)]
pub struct Out<'a> {
    pub space: &'a mut [u8],
    pub start: usize,
    pub ghost within: { start ≤ length space.now },
    pub ghost small: { length space.now < 2 ^ 32 },
}

impl<'a> Out<'a> {
    ghost use Rattle.ber_core.specs.Writing.{written_octets, capacity, Prepends, KeepsFront};
    ghost use Rattle.ber_core.specs.Encoding.{canon_length, canon_tlv, canon_integer, canon_unsigned};

    /// A writer that has written nothing.
    pub fn new(space: &'a mut [u8]) -> Out<'a>
        requires { length space.old < 2 ^ 32 }
        ensures same_reference { result.space.ghost_name ≡ space.entry.ghost_name }
        ensures space { result.space.now ≡ space.old }
        ensures empty { written_octets result ≡ [] }
    {
        let start = space.len();
        Out { space, start }
    }

    /// How many octets are written.
    pub fn len(&self) -> usize
        ensures value { result ≡ length (written_octets self.now) }
        ensures small { result < 2 ^ 32 }
    {
        self.space.len() - self.start
    }

    /// Writes octets in front of those written.
    ///
    /// `NoRoom` where they do not fit.
    #[inline(always)]
    pub fn put_octets(&mut self, octets: &[u8]) -> Result<(), BerFault>
        ensures same_reference { self.new.space.ghost_name ≡ self.old.space.ghost_name }
        ensures puts { Prepends self.old self.new result octets.now }
        ensures front { OnOk result (KeepsFront self.old self.new) }
        ensures err { OnErr result (self.new ≡ self.old) }
    {
        if self.start < octets.len() {
            return Err(BerFault::NoRoom);
        }
        let start = self.start - octets.len();
        self.space[start..self.start].copy_from_slice(octets);
        self.start = start;
        Ok(())
    }

    /// Writes a tag and the shortest length in front of a content of `len` octets (X.690, 8.1.3).
    ///
    /// `NoRoom` where they do not fit.
    #[inline(always)]
    #[tactic(auto, using(crate::proofs::Lengths::canon_1, crate::proofs::Lengths::canon_2, crate::proofs::Lengths::canon_3, crate::proofs::Lengths::canon_4))]
    pub fn put_tlv_head(&mut self, tag: Tag, len: usize) -> Result<(), BerFault>
        requires { len < 2 ^ 32 }
        ensures same_reference { self.new.space.ghost_name ≡ self.old.space.ghost_name }
        ensures puts { Prepends self.old self.new result (tag.0 ∷ canon_length len) }
        ensures front { OnOk result (KeepsFront self.old self.new) }
        ensures err { OnErr result (self.new ≡ self.old) }
    {
        let bytes = (len as u32).to_be_bytes();
        if len < 0x80 {
            self.put_octets(&[tag.0, bytes[3]])
        } else if len < 0x100 {
            self.put_octets(&[tag.0, 0x81, bytes[3]])
        } else if len < 0x1_0000 {
            self.put_octets(&[tag.0, 0x82, bytes[2], bytes[3]])
        } else if len < 0x100_0000 {
            self.put_octets(&[tag.0, 0x83, bytes[1], bytes[2], bytes[3]])
        } else {
            self.put_octets(&[tag.0, 0x84, bytes[0], bytes[1], bytes[2], bytes[3]])
        }
    }

    /// Takes back what was written last, so that `len` octets stay. No octet of the slice changes.
    pub fn truncate(&mut self, len: usize)
        requires { len ≤ length (written_octets self.old) }
        ensures same_reference { self.new.space.ghost_name ≡ self.old.space.ghost_name }
        ensures rest { written_octets self.new ≡ drop (length (written_octets self.old) - len)
            (written_octets self.old) }
        ensures space { capacity self.new ≡ capacity self.old }
        ensures kept { self.new.space.now ≡ self.old.space.now }
    {
        self.start = self.space.len() - len;
    }

    /// Writes a value whose content is at hand, with the shortest length.
    ///
    /// `NoRoom` where it does not fit.
    #[inline(always)]
    #[tactic(auto, unfolding(crate::specs::Encoding::canon_tlv))]
    pub fn put_tlv(&mut self, tag: Tag, content: &[u8]) -> Result<(), BerFault>
        ensures same_reference { self.new.space.ghost_name ≡ self.old.space.ghost_name }
        ensures puts { Prepends self.old self.new result (canon_tlv tag.0 content.now) }
        ensures front { OnOk result (KeepsFront self.old self.new) }
        ensures err { OnErr result (self.new ≡ self.old) }
    {
        let len = content.len();
        if self.start < len || self.start - len < head_len(len) {
            return Err(BerFault::NoRoom);
        }
        self.put_octets(content)?;
        self.put_tlv_head(tag, len)
    }

    /// Writes an INTEGER, or another value that is encoded like one, under its tag (X.690, 8.3).
    ///
    /// `NoRoom` where it does not fit.
    #[inline(always)]
    #[tactic(auto, using(crate::proofs::Small::small_integer), unfolding(crate::specs::Encoding::canon_integer))]
    pub fn put_i32(&mut self, tag: Tag, value: i32) -> Result<(), BerFault>
        ensures same_reference { self.new.space.ghost_name ≡ self.old.space.ghost_name }
        ensures puts { Prepends self.old self.new result (canon_tlv tag.0 (canon_integer value)) }
        ensures front { OnOk result (KeepsFront self.old self.new) }
        ensures err { OnErr result (self.new ≡ self.old) }
    {
        let bits = value.cast_unsigned();
        if bits < 0x80 {
            return self.put_octets(&[tag.0, 1, bits as u8]);
        }
        self.put_tlv(tag, shortest_of(&value.to_be_bytes()))
    }

    /// Writes a Counter32, a Gauge32 or TimeTicks under its tag (RFC 2578, 7.1).
    ///
    /// `NoRoom` where it does not fit.
    #[tactic(auto, using(crate::proofs::Contents::unsigned_of_four, crate::proofs::Small::small_unsigned))]
    pub fn put_u32(&mut self, tag: Tag, value: u32) -> Result<(), BerFault>
        ensures same_reference { self.new.space.ghost_name ≡ self.old.space.ghost_name }
        ensures puts { Prepends self.old self.new result (canon_tlv tag.0 (canon_unsigned value)) }
        ensures front { OnOk result (KeepsFront self.old self.new) }
        ensures err { OnErr result (self.new ≡ self.old) }
    {
        if value < 0x80 {
            return self.put_octets(&[tag.0, 1, value as u8]);
        }
        let [a, b, c, d] = value.to_be_bytes();
        self.put_tlv(tag, shortest_of(&[0, a, b, c, d]))
    }

    /// Writes a Counter64 under its tag (RFC 2578, 7.1.10).
    ///
    /// `NoRoom` where it does not fit.
    #[tactic(auto, unfolding(crate::specs::Encoding::canon_unsigned))]
    pub fn put_u64(&mut self, tag: Tag, value: u64) -> Result<(), BerFault>
        ensures same_reference { self.new.space.ghost_name ≡ self.old.space.ghost_name }
        ensures puts { Prepends self.old self.new result (canon_tlv tag.0 (canon_unsigned value)) }
        ensures front { OnOk result (KeepsFront self.old self.new) }
        ensures err { OnErr result (self.new ≡ self.old) }
    {
        let bytes = value.to_be_bytes();
        let content = [
            0, bytes[0], bytes[1], bytes[2], bytes[3], bytes[4], bytes[5], bytes[6], bytes[7],
        ];
        self.put_tlv(tag, shortest_of(&content))
    }
}
