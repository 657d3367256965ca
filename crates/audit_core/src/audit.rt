//! The record of a request's decision.
ghost use Rattle.std.specs.Prelude.{◌≡◌, ◌≢◌, [], true, Some, IfOk, OnErr};
ghost use Rattle.audit_core.specs.Text.{audit_text, kind_text};

use crate::denied::DeniedBindings;
use crate::unrestored::{Unrestored, UnrestoredSpace, WrittenUnrestored};
use crate::written::{WrittenCause, WrittenLeave, WrittenRefusal};
use decision::Decision;
use message_core::{ErrorStatus, Kind};
use std::alloc::{AllocError, Global};
use std::fmt;

/// What was decided on a request, by which rows, and the status of the reply as it is sent.
#[derive(Drop)]
pub struct Audit {
    /// The PDU type of the request (RFC 3416, section 3).
    pub kind: Kind,
    /// The error-status of the reply (RFC 3416, section 3); means nothing where the request is
    /// dropped.
    pub status: ErrorStatus,
    /// The error-index of the reply, the number of a variable binding or 0; means nothing where the
    /// request is dropped.
    pub index: i32,
    /// The decision up to the names.
    pub decision: Decision,
    /// The variable bindings that the view does not let through; none unless the request is
    /// allowed.
    pub denied: DeniedBindings,
    /// The settings that a Set left at their new values, since undoing failed (RFC 3416, 4.2.5), in
    /// the order of their variables; none but where the status is undoFailed.
    pub unrestored: Unrestored,
}

impl Audit {
    /// A copy, whose settings that were left at their new values lie in memory that was reserved for
    /// them, if there are some. Takes memory only for denied variable bindings.
    pub fn try_copy_in(&self, alloc: Global, space: UnrestoredSpace) -> Result<Audit, AllocError>
        requires { self.now.unrestored ≢ [] → space ≡ true }
        ensures value { IfOk result (λ copy. copy ≡ self.now) }
        ensures denied { OnErr result (self.now.denied ≢ []) }
    {
        let denied = self.denied.try_copy(alloc)?;
        Ok(Audit {
            kind: self.kind,
            status: self.status,
            index: self.index,
            decision: self.decision.copy(),
            denied,
            unrestored: self.unrestored.copy_in(space),
        })
    }
}

// The word for a PDU type.
fn kind_word(kind: Kind) -> &'static str
    ensures { result.now ≡ kind_text kind }
{
    match kind {
        Kind::Get => "get",
        Kind::GetNext => "next",
        Kind::GetBulk => "bulk",
        Kind::Set => "set",
    }
}

/// As `set 16 0 noSuchView access(readers,,2,1) empty` or `get drop unknownCommunity`.
impl fmt::Display for Audit {
    ghost output = { λ audit. Some (audit_text audit) };

    fn fmt<W: fmt::Write>(&self, f: &mut fmt::Formatter<W>) -> fmt::Result {
        let Audit {
            kind,
            status,
            index,
            decision,
            denied,
            unrestored,
        } = self;
        let kind = kind_word(*kind);
        let status = status.code();
        let unrestored = WrittenUnrestored(unrestored);
        match decision {
            Decision::Drop(cause) => {
                let cause = WrittenCause(cause);
                write!(f, "{kind} drop {cause}")
            }
            Decision::Empty => write!(f, "{kind} {status} {index} empty{denied}{unrestored}"),
            Decision::Refused(why) => {
                let why = WrittenRefusal(why);
                write!(f, "{kind} {status} {index} {why}{denied}{unrestored}")
            }
            Decision::Allowed { row, view } => {
                let leave = WrittenLeave { row, view };
                write!(f, "{kind} {status} {index} {leave}{denied}{unrestored}")
            }
        }
    }
}
