//! A law of the limits of a community. Its function does nothing.
ghost use Rattle.std.specs.Prelude.{◌≡◌};

use community_core::MAX_COMMUNITY_NAME;
use message_core::MAX_COMMUNITY;

/// The longest name that a community of a policy may have is the longest community of a request
/// that is answered.
pub fn limits_are_one()
    ensures { MAX_COMMUNITY_NAME ≡ MAX_COMMUNITY }
{}
