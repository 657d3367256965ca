//! How long a tag and a length are.
ghost use Rattle.std.specs.Prelude.{◌≡◌, ◌<◌, ◌^◌, ◌+◌, length};
ghost use Rattle.ber_core.specs.Encoding.{canon_length};

/// The octets of a tag and the shortest length of a content of `len` octets (X.690, 8.1.3).
#[tactic(auto, using(crate::proofs::Lengths::canon_1, crate::proofs::Lengths::canon_2, crate::proofs::Lengths::canon_3, crate::proofs::Lengths::canon_4))]
pub fn head_len(len: usize) -> usize
    requires { len < 2 ^ 32 }
    ensures { result ≡ length (canon_length len) + 1 }
{
    if len < 0x80 {
        2
    } else if len < 0x100 {
        3
    } else if len < 0x1_0000 {
        4
    } else if len < 0x100_0000 {
        5
    } else {
        6
    }
}
