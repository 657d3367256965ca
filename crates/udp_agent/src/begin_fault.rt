//! Why nothing was served.
ghost use Rattle.std.specs.Prelude.{◌≡◌};

use std::alloc::{AllocError, AllocFailed};
use std::fmt::{self, Display, Formatter};
use std::io;
use std::net::SocketAddr;

/// A socket of a setup, by the key of the configuration that gives its address.
#[derive(Clone, Copy, Debug, PartialEq, Eq, Drop)]
pub enum SetupSocket {
    /// `snmp` of `[serve]`: where requests come in.
    Requests,
    /// `listen` of the port of this number, counted from 1: where its frames come in.
    Listen(usize),
}

impl Display for SetupSocket {
    fn fmt<W: fmt::Write>(&self, f: &mut Formatter<W>) -> fmt::Result {
        match self {
            SetupSocket::Requests => f.write_str("serve: snmp"),
            SetupSocket::Listen(port) => write!(f, "port {}: listen", port),
        }
    }
}

/// Why nothing was served.
#[derive(Debug, Drop)]
pub enum BeginFault {
    /// This socket could not be bound to its address, for this reason, or there was no memory for it.
    Unbound(SetupSocket, SocketAddr, io::Error),
    /// That of the system, or of a refused growth, of no socket of the setup.
    System(io::Error),
}

impl From<io::Error> for BeginFault {
    ghost use Rattle.udp_agent.specs.declared.begin_fault.BeginFault.TheVariants.{System};

    ghost from_gives = { λ error fault. fault ≡ System error };

    fn from(error: io::Error) -> Self {
        BeginFault::System(error)
    }
}

impl From<AllocError> for BeginFault {
    ghost use Rattle.std.specs.declared.io.Error.{Error};
    ghost use Rattle.udp_agent.specs.declared.begin_fault.BeginFault.TheVariants.{System};

    ghost from_gives = { λ error fault. (why : Error) × (fault ≡ System why) };

    fn from(error: AllocError) -> Self {
        BeginFault::System(io::Error::from(error))
    }
}

impl<T: Drop> From<AllocFailed<T>> for BeginFault {
    ghost use Rattle.std.specs.declared.io.Error.{Error};
    ghost use Rattle.udp_agent.specs.declared.begin_fault.BeginFault.TheVariants.{System};

    ghost from_gives = { λ error fault. (why : Error) × (fault ≡ System why) };

    fn from(error: AllocFailed<T>) -> Self {
        BeginFault::System(io::Error::from(error))
    }
}

impl Display for BeginFault {
    fn fmt<W: fmt::Write>(&self, f: &mut Formatter<W>) -> fmt::Result {
        match self {
            BeginFault::Unbound(socket, address, why) => {
                write!(f, "{} {}: {}", socket, address, why)
            }
            BeginFault::System(why) => write!(f, "{}", why),
        }
    }
}
