//! Why a policy is refused.
ghost use Rattle.std.specs.Prelude.{◌≡◌, Some};
ghost use Rattle.community_core.specs.declared.fault.PolicyFault.TheVariants.{Memory};
ghost use Rattle.community_core.specs.Faults.{fault_of, policy_table, of_vacm, of_policy, table_text};

use std::alloc::{AllocError, AllocFailed};
use std::fmt;
use thiserror::Error;
use vacm_core::{TableFault, VacmTable, Wrong};

/// The tables of a policy, in the order in which their rows are checked.
#[derive(Clone, Copy, Debug, PartialEq, Eq)]
pub enum PolicyTable {
    /// Who is of which group (vacmSecurityToGroupTable).
    Groups,
    /// What a group may do (vacmAccessTable).
    Access,
    /// The subtrees of each view (vacmViewTreeFamilyTable).
    Families,
    /// The contexts that are known (vacmContextTable).
    Contexts,
    /// The communities (snmpCommunityTable of RFC 3584).
    Communities,
}

/// The table by its rows, as `groups`.
impl fmt::Display for PolicyTable {
    ghost output = { λ table. Some (table_text table) };

    fn fmt<W: fmt::Write>(&self, f: &mut fmt::Formatter<W>) -> fmt::Result {
        match self {
            PolicyTable::Groups => write!(f, "groups"),
            PolicyTable::Access => write!(f, "access"),
            PolicyTable::Families => write!(f, "families"),
            PolicyTable::Contexts => write!(f, "contexts"),
            PolicyTable::Communities => write!(f, "communities"),
        }
    }
}

/// Why a policy is refused: a table and the number of its first row at fault, counted from 0.
#[derive(Clone, Copy, Debug, PartialEq, Eq, Error)]
pub enum PolicyFault {
    /// A growth was refused.
    #[error("no memory for the policy")]
    Memory,
    /// The row has the key of an earlier row.
    #[error("row {1} of {0}, counted from 0, has the key of an earlier row")]
    Duplicate(PolicyTable, usize),
    /// A text, a mask or a name of the row is too short or too long.
    #[error("row {1} of {0}, counted from 0, has a length that it may not have")]
    BadLength(PolicyTable, usize),
    /// A field of the row may not have its value. Where a policy is read from a text, this stands
    /// as well for a row with a missing, an unknown or an ill-typed key, or with a subtree or a
    /// mask that cannot be read, and, as (contexts, 0), for such keys at the top of the text, where
    /// there need be no such row.
    #[error("row {1} of {0}, counted from 0, has a value that a field may not have")]
    BadField(PolicyTable, usize),
}

// The fault of the row of this number, in this table.
fn fault_of(wrong: Wrong, table: PolicyTable, row: usize) -> PolicyFault
    ensures { result ≡ fault_of wrong table row }
{
    match wrong {
        Wrong::Length => PolicyFault::BadLength(table, row),
        Wrong::Field => PolicyFault::BadField(table, row),
        Wrong::Duplicate => PolicyFault::Duplicate(table, row),
    }
}

impl From<VacmTable> for PolicyTable {
    ghost from_gives = { λ table e. e ≡ policy_table table };

    fn from(table: VacmTable) -> PolicyTable {
        match table {
            VacmTable::Groups => PolicyTable::Groups,
            VacmTable::Access => PolicyTable::Access,
            VacmTable::Families => PolicyTable::Families,
            VacmTable::Contexts => PolicyTable::Contexts,
        }
    }
}

impl From<TableFault<VacmTable>> for PolicyFault {
    ghost from_gives = { λ fault e. e ≡ of_vacm fault };

    fn from(fault: TableFault<VacmTable>) -> PolicyFault {
        match fault {
            TableFault::Memory => PolicyFault::Memory,
            TableFault::Row(table, row, wrong) => fault_of(wrong, PolicyTable::from(table), row),
        }
    }
}

impl From<TableFault<PolicyTable>> for PolicyFault {
    ghost from_gives = { λ fault e. e ≡ of_policy fault };

    fn from(fault: TableFault<PolicyTable>) -> PolicyFault {
        match fault {
            TableFault::Memory => PolicyFault::Memory,
            TableFault::Row(table, row, wrong) => fault_of(wrong, table, row),
        }
    }
}

impl From<AllocError> for PolicyFault {
    ghost from_gives = { λ _ e. e ≡ Memory };

    fn from(_e: AllocError) -> PolicyFault {
        PolicyFault::Memory
    }
}

impl<T: Drop> From<AllocFailed<T>> for PolicyFault {
    ghost from_gives = { λ _ e. e ≡ Memory };

    fn from(_e: AllocFailed<T>) -> PolicyFault {
        PolicyFault::Memory
    }
}
