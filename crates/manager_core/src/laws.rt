//! Laws of the limits. Each stands on a function that does nothing.
ghost use Rattle.std.specs.Prelude.{◌≡◌};

use crate::asking::RECEIVE_SPACE;
use crate::command::FAILED;
use crate::walking::MAX_NAMES;

/// How many names a walk receives at most, and how many octets are lent to a receive: one more than
/// the longest datagram that is read.
pub fn limits_are_fixed()
    ensures names { MAX_NAMES ≡ 100000 }
    ensures received { RECEIVE_SPACE ≡ 2049 }
{}

/// The exit status of a run that has not written what was asked for.
pub fn status_is_fixed()
    ensures { FAILED ≡ 1 }
{}
