//! Laws of encodings. Each holds of all octets and numbers, and its function does nothing.
ghost use Rattle.std.specs.Prelude.{◌≡◌, ◌<◌, ◌≤◌, ◌^◌, ℕ, ℤ, List, length};
ghost use Rattle.std.specs.Prelude.{FitsSigned};
ghost use Rattle.std.specs.Int.{w32};
ghost use Rattle.ber_core.specs.Encoding.{AreOctets, IsMinimal, IsLength, IsTlv, BeginsTlv, IsInteger, IsUnsigned, canon_length, canon_tlv, canon_integer, canon_unsigned};

/// The shortest encoding of a tag and a content is one of its encodings.
pub fn tlv_is_encoded()
    ensures { (tag : ℕ) (content : List ℕ) → length content < 2 ^ 32 →
        IsTlv tag content (canon_tlv tag content) }
{}

/// No encoding of a tag and a content has fewer octets.
pub fn no_tlv_is_shorter()
    ensures { (tag : ℕ) (content octets : List ℕ) → AreOctets octets → IsTlv tag content octets →
        length (canon_tlv tag content) ≤ length octets }
{}

/// An encoding of a length that is no longer than the shortest is the shortest.
pub fn shortest_length_is_one()
    ensures { (octets : List ℕ) (n : ℕ) → AreOctets octets → IsLength octets n →
        length octets ≤ length (canon_length n) → octets ≡ canon_length n }
{}

/// An encoding of a tag and a content that is no longer than the shortest is the shortest.
pub fn shortest_tlv_is_one()
    ensures { (tag : ℕ) (content octets : List ℕ) → AreOctets octets → IsTlv tag content octets
        → length octets ≤ length (canon_tlv tag content) → octets ≡ canon_tlv tag content }
{}

/// Octets begin with one tag and one content at most.
pub fn tlv_is_one()
    ensures { (octets : List ℕ) (tag : ℕ) (content rest : List ℕ) (other : ℕ) (more after : List ℕ)
        → BeginsTlv octets tag content rest → BeginsTlv octets other more after
        → (tag ≡ other) × (content ≡ more) × (rest ≡ after) }
{}

/// The shortest content of an INTEGER is one of its contents, and has no first octet to spare
/// (X.690, 8.3.2).
pub fn integer_is_encoded()
    ensures { (z : ℤ) → FitsSigned w32 z → IsInteger (canon_integer z) z ×
        IsMinimal (canon_integer z) }
{}

/// No content of an INTEGER has fewer octets.
pub fn no_integer_is_shorter()
    ensures { (content : List ℕ) (z : ℤ) → AreOctets content → IsInteger content z →
        length (canon_integer z) ≤ length content }
{}

/// A content of an INTEGER that is no longer than the shortest is the shortest.
pub fn shortest_integer_is_one()
    ensures { (content : List ℕ) (z : ℤ) → AreOctets content → IsInteger content z
        → length content ≤ length (canon_integer z) → content ≡ canon_integer z }
{}

/// A content writes one INTEGER at most.
pub fn integer_is_one()
    ensures { (content : List ℕ) (y z : ℤ) → IsInteger content y → IsInteger content z → y ≡ z }
{}

/// The shortest content of an unsigned number is one of its contents, at 32 bits and at 64, with no
/// octet to spare.
pub fn unsigned_is_encoded()
    ensures narrow { (n : ℕ) → n < 2 ^ 32 → IsUnsigned 4 (canon_unsigned n) n }
    ensures wide { (n : ℕ) → n < 2 ^ 64 → IsUnsigned 8 (canon_unsigned n) n }
    ensures minimal { (n : ℕ) → IsMinimal (canon_unsigned n) }
{}

/// No content of an unsigned number has fewer octets.
pub fn no_unsigned_is_shorter()
    ensures { (width : ℕ) (content : List ℕ) (n : ℕ) → width ≤ 8 → AreOctets content →
        IsUnsigned width content n → length (canon_unsigned n) ≤ length content }
{}

/// A content of an unsigned number, of 32 bits or 64, that is no longer than the shortest is the
/// shortest.
pub fn shortest_unsigned_is_one()
    ensures { (width : ℕ) (content : List ℕ) (n : ℕ) → width ≤ 8 → AreOctets content →
        IsUnsigned width content n
        → length content ≤ length (canon_unsigned n) → content ≡ canon_unsigned n }
{}

/// A content writes one unsigned number at most.
pub fn unsigned_is_one()
    ensures { (width : ℕ) (content : List ℕ) (m n : ℕ) → IsUnsigned width content m →
        IsUnsigned width content n → m ≡ n }
{}
