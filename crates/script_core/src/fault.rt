//! Why a line, or a run, stopped.
ghost use Rattle.std.specs.Prelude.{◌≡◌};
ghost use Rattle.script_core.specs.Faults.{run_fault};
ghost use Rattle.script_core.specs.declared.fault.LineFault.{LineFault};

use std::alloc::AllocError;

/// Why a session gave up a line.
#[derive(Clone, Copy, Debug, PartialEq, Eq)]
pub enum LineFault {
    /// There was no memory for what the line says.
    Memory,
    /// The session ends the run as failed.
    Stopped,
}

/// Why a run stopped before the end of its script.
#[derive(Clone, Copy, Debug, PartialEq, Eq)]
pub enum RunFault {
    /// A read failed, or the input has not ended after as many as may be made.
    Input,
    /// A write failed, or took nothing.
    Output,
    /// There was no memory for a line, or for what it says.
    Memory,
    /// The session ended the run as failed.
    Stopped,
}

impl From<AllocError> for LineFault {
    ghost from_gives = { λ _ fault. fault ≡ LineFault.Memory };

    fn from(_error: AllocError) -> LineFault {
        LineFault::Memory
    }
}

impl From<LineFault> for RunFault {
    ghost from_gives = { λ fault stop. stop ≡ run_fault fault };

    fn from(fault: LineFault) -> RunFault {
        match fault {
            LineFault::Memory => RunFault::Memory,
            LineFault::Stopped => RunFault::Stopped,
        }
    }
}
