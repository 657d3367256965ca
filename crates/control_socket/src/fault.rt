//! Why there is no control socket at a path.
use std::fmt::{self, Display, Formatter};
use std::io;

/// Why there is no control socket at a path.
#[derive(Debug, Drop)]
pub enum ControlFault {
    /// What the path has before its last name is no directory.
    NoDirectory,
    /// The directory has another mode than 700.
    OpenDirectory,
    /// The directory is not that of the user by whom the agent runs.
    OtherOwner,
    /// At the path stands a file that is no socket.
    OtherFile,
    /// At the path stands a socket at which somebody answers.
    InUse,
    /// That of the system.
    System(io::Error),
}

impl From<io::Error> for ControlFault {
    ghost use Rattle.std.specs.Prelude.{◌≡◌};
    ghost use Rattle.control_socket.specs.declared.fault.ControlFault.TheVariants.{System};

    ghost from_gives = { λ error fault. fault ≡ System error };

    fn from(error: io::Error) -> Self {
        ControlFault::System(error)
    }
}

impl Display for ControlFault {
    ghost use Rattle.control_socket.specs.Faults.{fault_text};

    ghost output = { fault_text };

    fn fmt<W: fmt::Write>(&self, f: &mut Formatter<W>) -> fmt::Result {
        match self {
            ControlFault::NoDirectory => f.write_str("the control socket is in no directory"),
            ControlFault::OpenDirectory => {
                f.write_str(
                    "the control socket's directory is open to others; its mode has to be 700",
                )
            }
            ControlFault::OtherOwner => {
                f.write_str("the control socket's directory is another user's")
            }
            ControlFault::OtherFile => {
                f.write_str("the control socket's path names a file that is no socket")
            }
            ControlFault::InUse => {
                f.write_str("the control socket's path names a socket that is in use")
            }
            ControlFault::System(error) => write!(f, "the control socket: {}", error),
        }
    }
}
