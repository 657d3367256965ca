//! The shortest content of a number (X.690, 8.3.2).
ghost use Rattle.std.specs.Prelude.{◌≡◌, ◌≤◌, length, drop};
ghost use Rattle.std.specs.Bool.{OnTrue, OnFalse};
ghost use Rattle.ber_core.specs.Encoding.{is_spare, shortest};

/// Whether the first octet of a content says nothing that the second does not (X.690, 8.3.2).
fn is_spare(first: u8, second: u8) -> bool
    ensures { result ≡ is_spare first second }
{
    (first == 0 && second < 128) || (first == 255 && second >= 128)
}

/// Whether a content begins with an octet to spare (X.690, 8.3.2).
#[tactic(auto, using(crate::proofs::Contents::few_stay))]
fn begins_spare(content: &[u8]) -> bool
    ensures spare { OnTrue result (1 ≤ length content.now) }
    ensures rest { OnTrue result (shortest content.now ≡ shortest (drop 1 content.now)) }
    ensures whole { OnFalse result (shortest content.now ≡ content.now) }
{
    match content {
        [first, second, ..] => is_spare(*first, *second),
        _ => false,
    }
}

/// The octets of a content without those to spare at its front (X.690, 8.3.2).
pub fn shortest_of(content: &[u8]) -> &[u8]
    ensures value { result.now ≡ shortest content.now }
    ensures len { length result.now ≤ length content.now }
{
    let mut rest = content;
    while begins_spare(rest) {
        rest = &rest[1..];
    }
    rest
}
