//! The error statuses (RFC 3416, section 3).
ghost use Rattle.std.specs.Prelude.{◌≡◌, ◌↔◌, Some};
ghost use Rattle.message_core.specs.Status.{code_of, status_of};
ghost use Rattle.message_core.specs.declared.status.ErrorStatus.{ErrorStatus};

/// The error-status of a reply (RFC 3416, section 3).
#[derive(Clone, Copy, Debug, PartialEq, Eq)]
pub enum ErrorStatus {
    /// No error.
    NoError,
    /// The reply does not fit into one message.
    TooBig,
    /// A version 1 status; an agent of version 2 never sends it.
    NoSuchName,
    /// A version 1 status; an agent of version 2 never sends it.
    BadValue,
    /// A version 1 status; an agent of version 2 never sends it.
    ReadOnly,
    /// A failure that has no status of its own.
    GenErr,
    /// The name is not accessible to the caller.
    NoAccess,
    /// The value's type is not the variable's.
    WrongType,
    /// The variable has no value of this length.
    WrongLength,
    /// The value's octets do not encode it as its tag asks.
    WrongEncoding,
    /// The variable can never have this value.
    WrongValue,
    /// The variable does not exist and can never be created.
    NoCreation,
    /// The variable cannot have this value now.
    InconsistentValue,
    /// A resource that the assignment needs is not there.
    ResourceUnavailable,
    /// An assignment failed; the others were undone.
    CommitFailed,
    /// An assignment failed, and not all others could be undone.
    UndoFailed,
    /// The caller has no access at all.
    AuthorizationError,
    /// The variable can never be written.
    NotWritable,
    /// The variable does not exist and cannot be created now.
    InconsistentName,
}

// Each error-status at its number.
const STATUSES: [ErrorStatus; 19] = [
    ErrorStatus::NoError,
    ErrorStatus::TooBig,
    ErrorStatus::NoSuchName,
    ErrorStatus::BadValue,
    ErrorStatus::ReadOnly,
    ErrorStatus::GenErr,
    ErrorStatus::NoAccess,
    ErrorStatus::WrongType,
    ErrorStatus::WrongLength,
    ErrorStatus::WrongEncoding,
    ErrorStatus::WrongValue,
    ErrorStatus::NoCreation,
    ErrorStatus::InconsistentValue,
    ErrorStatus::ResourceUnavailable,
    ErrorStatus::CommitFailed,
    ErrorStatus::UndoFailed,
    ErrorStatus::AuthorizationError,
    ErrorStatus::NotWritable,
    ErrorStatus::InconsistentName,
];

impl ErrorStatus {
    /// The error-status that a number stands for in a message; none where it is not 0 to 18.
    pub fn from_code(code: i32) -> Option<ErrorStatus>
        ensures value { result ≡ status_of code }
        ensures number { (status : ErrorStatus) →
            (result ≡ Some status) ↔ (code ≡ code_of status) }
    {
        match usize::try_from(code) {
            Ok(index) if index < STATUSES.len() => Some(STATUSES[index]),
            _ => None,
        }
    }

    /// The number that stands for it in a message, 0 to 18.
    pub fn code(self) -> i32
        ensures { result ≡ code_of self }
    {
        match self {
            ErrorStatus::NoError => 0,
            ErrorStatus::TooBig => 1,
            ErrorStatus::NoSuchName => 2,
            ErrorStatus::BadValue => 3,
            ErrorStatus::ReadOnly => 4,
            ErrorStatus::GenErr => 5,
            ErrorStatus::NoAccess => 6,
            ErrorStatus::WrongType => 7,
            ErrorStatus::WrongLength => 8,
            ErrorStatus::WrongEncoding => 9,
            ErrorStatus::WrongValue => 10,
            ErrorStatus::NoCreation => 11,
            ErrorStatus::InconsistentValue => 12,
            ErrorStatus::ResourceUnavailable => 13,
            ErrorStatus::CommitFailed => 14,
            ErrorStatus::UndoFailed => 15,
            ErrorStatus::AuthorizationError => 16,
            ErrorStatus::NotWritable => 17,
            ErrorStatus::InconsistentName => 18,
        }
    }
}
