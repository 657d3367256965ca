//! Numbers in a datagram (X.690, 8.3).
ghost use Rattle.std.specs.Prelude.{◌≡◌, Some, IfErr};
ghost use Rattle.ber_core.specs.Reading.{Gives};
ghost use Rattle.message_core.specs.declared.cause.DropCause.TheVariants.{Memory};
ghost use Rattle.message_core.specs.FirstFault.{integer_of, unsigned_of};

use crate::cause::DropCause;
use ber_core::{read_i32, read_u32, read_u64};

/// The number of an INTEGER's content (X.690, 8.3).
pub fn integer_from_content(content: &[u8]) -> Result<i32, DropCause>
    ensures exact { Gives (Some Memory) (λ z. z) result (integer_of content.now) }
    ensures fault { IfErr result (λ e. e ≡ DropCause.Malformed) }
{
    Ok(read_i32(content)?)
}

/// The number of a Counter32's, a Gauge32's or a TimeTicks' content (RFC 2578, 7.1).
pub fn unsigned32_from_content(content: &[u8]) -> Result<u32, DropCause>
    ensures exact { Gives (Some Memory) (λ n. n) result (unsigned_of 4 content.now) }
    ensures fault { IfErr result (λ e. e ≡ DropCause.Malformed) }
{
    Ok(read_u32(content)?)
}

/// The number of a Counter64's content (RFC 2578, 7.1.10).
pub fn unsigned64_from_content(content: &[u8]) -> Result<u64, DropCause>
    ensures exact { Gives (Some Memory) (λ n. n) result (unsigned_of 8 content.now) }
    ensures fault { IfErr result (λ e. e ≡ DropCause.Malformed) }
{
    Ok(read_u64(content)?)
}
