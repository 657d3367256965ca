//! What is decided on a request.
ghost use Rattle.std.specs.Prelude.{◌≡◌};

use crate::keys::AccessKey;
use vacm_core::Name;

/// Why a request is dropped: there is no reply.
#[derive(Drop)]
pub enum Cause {
    /// No row has the community of the request (RFC 3584, section 5.2.1; snmpInBadCommunityNames of
    /// RFC 3418).
    UnknownCommunity,
    /// This context is not known (RFC 3415, section 3.2, step 1; snmpUnknownContexts of RFC 3413).
    NoSuchContext(Name),
}

impl Cause {
    /// The cause again. Takes no memory.
    pub fn copy(&self) -> Cause
        ensures { result ≡ self.now }
    {
        match self {
            Cause::UnknownCommunity => Cause::UnknownCommunity,
            Cause::NoSuchContext(name) => Cause::NoSuchContext(name.copy()),
        }
    }
}

/// Why a request is answered that it may not (RFC 3415, section 3.2, steps 2 to 5).
#[derive(Drop)]
pub enum Refusal {
    /// No group has this security name under this model.
    NoGroupName {
        /// The security model.
        model: u32,
        /// The security name.
        name: Name,
    },
    /// No access row fits what is asked, which is this.
    NoAccessEntry(AccessKey),
    /// The access row that decides names a view that there is not.
    NoSuchView {
        /// The key of the access row.
        row: AccessKey,
        /// The view that it names; empty for none.
        view: Name,
    },
}

impl Refusal {
    /// The refusal again. Takes no memory.
    pub fn copy(&self) -> Refusal
        ensures { result ≡ self.now }
    {
        match self {
            Refusal::NoGroupName { model, name } => Refusal::NoGroupName {
                model: *model,
                name: name.copy(),
            },
            Refusal::NoAccessEntry(asked) => Refusal::NoAccessEntry(asked.copy()),
            Refusal::NoSuchView { row, view } => Refusal::NoSuchView {
                row: row.copy(),
                view: view.copy(),
            },
        }
    }
}

/// The decision on a request, up to its names, with the keys of its rows.
#[derive(Drop)]
pub enum Decision {
    /// The request is dropped.
    Drop(Cause),
    /// The request has no variable bindings, so nothing further is decided.
    Empty,
    /// The request may not do what it asks for.
    Refused(Refusal),
    /// Allowed, in a view.
    Allowed {
        /// The key of the access row that decides.
        row: AccessKey,
        /// The view that it names.
        view: Name,
    },
}

impl Decision {
    /// The decision again. Takes no memory.
    pub fn copy(&self) -> Decision
        ensures { result ≡ self.now }
    {
        match self {
            Decision::Drop(cause) => Decision::Drop(cause.copy()),
            Decision::Empty => Decision::Empty,
            Decision::Refused(why) => Decision::Refused(why.copy()),
            Decision::Allowed { row, view } => Decision::Allowed {
                row: row.copy(),
                view: view.copy(),
            },
        }
    }
}
