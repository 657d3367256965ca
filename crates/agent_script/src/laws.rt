//! What follows from the definitions alone.
ghost use Rattle.std.specs.Prelude.{◌≡◌};

use crate::commands::{MAX_SECONDS, PLANNED_CALLS};

/// One line lets at most 100,000 seconds pass, and plans at most the next 64 calls of a device.
pub fn limits_are_fixed()
    ensures seconds { MAX_SECONDS ≡ 100000 }
    ensures calls { PLANNED_CALLS ≡ 64 }
{}
