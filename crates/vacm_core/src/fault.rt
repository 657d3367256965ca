//! Why the tables of access control are refused.
ghost use Rattle.std.specs.Prelude.{◌≡◌};
ghost use Rattle.vacm_core.specs.declared.fault.TableFault.TheVariants.{Memory};

use std::alloc::{AllocError, AllocFailed};

/// The tables of access control, in the order in which their rows are checked (RFC 3415, section
/// 4).
#[derive(Clone, Copy, Debug, PartialEq, Eq)]
pub enum VacmTable {
    /// Who is of which group (vacmSecurityToGroupTable).
    Groups,
    /// What a group may do (vacmAccessTable).
    Access,
    /// The subtrees of each view (vacmViewTreeFamilyTable).
    Families,
    /// The contexts that are known (vacmContextTable).
    Contexts,
}

/// What may be wrong with a row, in the order in which it is checked.
#[derive(Clone, Copy, Debug, PartialEq, Eq)]
pub enum Wrong {
    /// A text, a mask or a name is too short or too long.
    Length,
    /// A number is out of its range, or a text has an octet that it may not have.
    Field,
    /// An earlier row of the table has the same key.
    Duplicate,
}

/// Why tables are refused, `T` being their names.
#[derive(Clone, Copy, Debug, PartialEq, Eq)]
pub enum TableFault<T> {
    /// A growth was refused.
    Memory,
    /// The first row at fault: its table, its number, counted from 0, and what is wrong with it.
    Row(T, usize, Wrong),
}

impl<T> From<AllocError> for TableFault<T> {
    ghost from_gives = { λ _ e. e ≡ Memory };

    fn from(_e: AllocError) -> TableFault<T> {
        TableFault::Memory
    }
}

impl<T, R: Drop> From<AllocFailed<R>> for TableFault<T> {
    ghost from_gives = { λ _ e. e ≡ Memory };

    fn from(_e: AllocFailed<R>) -> TableFault<T> {
        TableFault::Memory
    }
}
