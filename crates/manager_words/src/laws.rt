//! Laws of the limits. Each stands on a function that does nothing.
ghost use Rattle.std.specs.Prelude.{◌≡◌};

use crate::matches::DEFAULT_TRIES;
use crate::program::USAGE;

/// How often a request is sent at most, where no word says it.
pub fn tries_are_fixed()
    ensures { DEFAULT_TRIES ≡ 3 }
{}

/// The exit status of words that are no command.
pub fn status_is_fixed()
    ensures { USAGE ≡ 2 }
{}
