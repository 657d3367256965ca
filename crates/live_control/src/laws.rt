//! A law of the command's slice. Its function does nothing.
ghost use Rattle.std.specs.Prelude.{◌≡◌};
ghost use Rattle.live_control.specs.Lines.{command_space};

use crate::task::COMMAND_SPACE;

/// A slice of [`COMMAND_SPACE`] octets is as long as the line's is to be.
pub fn space_is_as_asked()
    ensures { COMMAND_SPACE ≡ command_space }
{}
