//! What answers the lines of a script.
ghost use Rattle.std.specs.Prelude.{ℕ, List, OnOk, IfErr};
ghost use Rattle.script_core.specs.Runs.{Adds};
ghost use Rattle.script_core.specs.declared.fault.LineFault.{LineFault};

use crate::fault::LineFault;

/// What answers the lines of a script.
///
/// What a session may say to a line, and be after it, is a relation: where a line can be answered
/// in more than one way, as with memory or without, the relation says which ways there are. So a
/// run over any session is proved once, and without a premise.
pub trait Session {
    // From a session, this may be the answer to a line, and the session is this after it.
    ghost line_says: { Self → List ℕ → List ℕ → Self → Type 0 };

    // From a session, this may be the answer to the end of the script, and the session is this after it.
    ghost end_says: { Self → List ℕ → Self → Type 0 };

    // From a session, this line may be given up for this fault.
    ghost may_give_up_line: { Self → List ℕ → LineFault → Type 0 };

    // From a session, the end of the script may be given up for this fault.
    ghost may_give_up_end: { Self → LineFault → Type 0 };

    /// Appends to `out` the answer to one line, which is given without its end. After an error
    /// the run stops, and what `out` then holds is dropped.
    fn line(&mut self, line: &[u8], out: &mut Vec<u8>) -> Result<(), LineFault>
        ensures stated { OnOk result (Adds out.old.items out.new.items (λ stated.
            line_says self.old line.now stated self.new)) }
        ensures given_up { IfErr result (λ fault. may_give_up_line self.old line.now fault) };

    /// Appends to `out` the answer to the end of the script. After an error the run stops.
    fn end(&mut self, out: &mut Vec<u8>) -> Result<(), LineFault>
        ensures stated { OnOk result (Adds out.old.items out.new.items (λ stated.
            end_says self.old stated self.new)) }
        ensures given_up { IfErr result (λ fault. may_give_up_end self.old fault) };
}
