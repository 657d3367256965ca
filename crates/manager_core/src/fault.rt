//! Why a manager has no answer.
ghost use Rattle.std.specs.Prelude.{◌≡◌};
ghost use Rattle.manager_core.specs.declared.fault.ManagerFault.TheVariants.{Memory};

use message_core::ErrorStatus;
use std::alloc::AllocError;
use std::fmt;

/// Why an ask, or a walk, has no answer.
#[derive(Clone, Copy, Debug, PartialEq, Eq)]
pub enum ManagerFault {
    /// None of so many tries was answered.
    Timeout(u32),
    /// What came is no Response of the request's community, or not what a walk asks for.
    BadReply,
    /// The agent answered with this error-status and this error-index (RFC 3416, section 3).
    Error(ErrorStatus, i32),
    /// A walk was given a name that is not greater than the one it asked for.
    NotIncreasing,
    /// There was no memory for a reply, or for what a walk keeps.
    Memory,
}

impl From<AllocError> for ManagerFault {
    ghost from_gives = { λ _ fault. fault ≡ Memory };

    fn from(_error: AllocError) -> ManagerFault {
        ManagerFault::Memory
    }
}

/// As `timeout`, `bad reply` or `error 16 index 0`, a status by its number.
impl fmt::Display for ManagerFault {
    ghost use Rattle.std.specs.Prelude.{Some};
    ghost use Rattle.manager_core.specs.Lines.{fault_text};

    ghost output = { λ fault. Some (fault_text fault) };

    fn fmt<W: fmt::Write>(&self, f: &mut fmt::Formatter<W>) -> fmt::Result {
        match self {
            ManagerFault::Timeout(_) => write!(f, "timeout"),
            ManagerFault::BadReply => write!(f, "bad reply"),
            ManagerFault::Error(status, index) => {
                let status = status.code();
                write!(f, "error {status} index {index}")
            }
            ManagerFault::NotIncreasing => write!(f, "not increasing"),
            ManagerFault::Memory => write!(f, "no memory"),
        }
    }
}
