//! What follows from the definitions alone.
ghost use Rattle.std.specs.Prelude.{◌≡◌};

use crate::pending::CHUNK_OCTETS;
use crate::queue::{MAX_AUDIT_OCTETS, MAX_LOG_OCTETS};

/// At most 2,097,152 octets of audits (`MAX_AUDIT_OCTETS`) and 262,144 of the log (`MAX_LOG_OCTETS`) wait; at
/// most 4,096 are written at once (`CHUNK_OCTETS`).
pub fn limits_are_fixed()
    ensures audits { MAX_AUDIT_OCTETS ≡ 2097152 }
    ensures log { MAX_LOG_OCTETS ≡ 262144 }
    ensures chunk { CHUNK_OCTETS ≡ 4096 }
{}
