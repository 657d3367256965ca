//! How many octets an INTEGER has in its shortest encoding, without writing it.
ghost use Rattle.std.specs.Prelude.{◌≡◌, ◌≤◌, ◌<◌, ◌^◌, length};
ghost use Rattle.ber_core.specs.Encoding.{canon_integer, canon_unsigned};
ghost use Rattle.message_core.specs.Canon.{canon_int};

// A tag and the length of at most 127 octets (X.690, 8.1.3.4).
const SHORT_HEAD: usize = 2;

// A number that is not negative and has as many octets as an INTEGER: itself, or its complement.
#[tactic(auto, using(ber_core::proofs::Contents::size_of_natural, ber_core::proofs::Contents::size_of_negative))]
fn without_sign(number: i32) -> u64
    ensures len { length (canon_unsigned result) ≡ length (canon_integer number) }
    ensures most { result < 2 ^ 31 }
{
    if number < 0 {
        -(number + 1) as u64
    } else {
        number as u64
    }
}

// The octets of the content of a number below 2^31 that is not negative (RFC 2578, 7.1).
#[tactic(auto, using(ber_core::proofs::Contents::unsigned_1, ber_core::proofs::Contents::unsigned_2, ber_core::proofs::Contents::unsigned_3, ber_core::proofs::Contents::unsigned_4))]
fn unsigned_len(number: u64) -> usize
    requires { number < 2 ^ 31 }
    ensures len { result ≡ length (canon_unsigned number) }
    ensures most { result ≤ 4 }
{
    if number < 1 << 7 {
        1
    } else if number < 1 << 15 {
        2
    } else if number < 1 << 23 {
        3
    } else {
        4
    }
}

/// The octets of an INTEGER with its tag and its length (X.690, 8.3).
#[tactic(auto, using(crate::proofs::Measures::short_tlv))]
pub fn integer_len(number: i32) -> usize
    ensures len { result ≡ length (canon_int number) }
    ensures most { result ≤ 6 }
{
    SHORT_HEAD + unsigned_len(without_sign(number))
}
