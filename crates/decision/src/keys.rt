//! The key of a row of vacmAccessTable (RFC 3415, section 4).
ghost use Rattle.std.specs.Prelude.{◌≡◌};
ghost use Rattle.decision.specs.Keys.{access_key};

use vacm_core::{AccessRow, Level, Name};

/// The key of a row of vacmAccessTable, or what is asked of that table (RFC 3415, section 4).
#[derive(Drop)]
pub struct AccessKey {
    /// The name of the group.
    pub group: Name,
    /// The context name or how it begins, of a row; the context name, of what is asked.
    pub prefix: Name,
    /// The security model; 0 in a row for any.
    pub model: u32,
    /// The security level.
    pub level: Level,
}

impl AccessKey {
    /// The key of a row. Takes no memory.
    pub fn of(row: &AccessRow) -> AccessKey
        ensures { result ≡ access_key row.now }
    {
        AccessKey {
            group: row.group.copy(),
            prefix: row.prefix.copy(),
            model: row.model,
            level: row.level,
        }
    }

    /// The key again. Takes no memory.
    pub fn copy(&self) -> AccessKey
        ensures { result ≡ self.now }
    {
        AccessKey {
            group: self.group.copy(),
            prefix: self.prefix.copy(),
            model: self.model,
            level: self.level,
        }
    }
}
