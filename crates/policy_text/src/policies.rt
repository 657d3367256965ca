//! Reads a policy from a TOML table.
ghost use Rattle.std.specs.Prelude.{◌≡◌, ◌≢◌, ◌⊎◌, IfOk, IfErr, OnOk, option_map, Some, None};
ghost use Rattle.toml.specs.View.{table_view};
ghost use Rattle.policy_text.specs.Policies.{arrays_in, arrays_of, AreRowsOf, IsUnreadOf, SaysRows, IsUnread, ReadingTakesMemoryOf, ReadingTakesMemory, TakesMemory, RowsTakeMemory, IsPolicyFault, policy_tables, ArePolicyRowsRight, IsPolicy, IsWrongPolicy};
ghost use Rattle.policy_text.specs.Stated.{policy_of_members};

use crate::keys::{array_at, key_count};
use crate::rows::read_rows;
use community_core::{Policy, PolicyFault, PolicyRows, PolicyTable};
use std::alloc::Global;
use toml::{Table, Value};
use vacm_core::{Vacm, VacmRows};

/// The five arrays of a policy.
#[derive(Drop)]
struct PolicyArrays<'a> {
    groups: &'a Vec<Value>,
    access: &'a Vec<Value>,
    families: &'a Vec<Value>,
    contexts: &'a Vec<Value>,
    communities: &'a Vec<Value>,
}

// The arrays of a table of exactly the keys of a policy, each an array.
fn policy_arrays(table: &Table) -> Option<PolicyArrays<'_>>
    ensures { option_map arrays_in result ≡ arrays_of (table_view table.now) }
{
    if key_count(table) != 5 {
        return None;
    }
    let groups = array_at(table, "group")?;
    let access = array_at(table, "access")?;
    let families = array_at(table, "family")?;
    let contexts = array_at(table, "contexts")?;
    let communities = array_at(table, "community")?;
    Some(PolicyArrays {
        groups,
        access,
        families,
        contexts,
        communities,
    })
}

// Reads the rows of the arrays, or names the first value that is no row.
fn read_arrays(alloc: Global, arrays: &PolicyArrays<'_>) -> Result<PolicyRows, PolicyFault>
    ensures rows { IfOk result (λ rows. AreRowsOf (arrays_in arrays.now) rows) }
    ensures fault { IfErr result (λ e. e ≢ PolicyFault.Memory →
        IsUnreadOf (arrays_in arrays.now) e) }
    ensures memory { IfErr result (λ e. e ≡ PolicyFault.Memory →
        ReadingTakesMemoryOf (arrays_in arrays.now)) }
{
    let groups = read_rows(alloc, PolicyTable::Groups, arrays.groups)?;
    let access = read_rows(alloc, PolicyTable::Access, arrays.access)?;
    let families = read_rows(alloc, PolicyTable::Families, arrays.families)?;
    let contexts = read_rows(alloc, PolicyTable::Contexts, arrays.contexts)?;
    let communities = read_rows(alloc, PolicyTable::Communities, arrays.communities)?;
    Ok(PolicyRows {
        communities,
        vacm: VacmRows {
            groups,
            access,
            families,
            contexts,
        },
    })
}

/// The rows that a table says, of any lengths and fields.
///
/// # Errors
///
/// `BadField(Contexts, 0)` where the table has not exactly the keys `contexts`, `community`,
/// `group`,
/// `access` and `family`, each an array; else `BadField` of the first value that is no row, in the
/// order groups, access, families, contexts, communities; `Memory` where a growth was refused: the
/// table has the five arrays, the values of those before some array are rows, and that has a first
/// value that has a row's keys and types.
fn policy_rows(alloc: Global, table: &Table) -> Result<PolicyRows, PolicyFault>
    ensures rows { IfOk result (λ rows. SaysRows (table_view table.now) rows) }
    ensures fault { IfErr result (λ e. e ≢ PolicyFault.Memory → IsUnread (table_view table.now) e) }
    ensures memory { IfErr result (λ e. e ≡ PolicyFault.Memory →
        ReadingTakesMemory (table_view table.now)) }
{
    match policy_arrays(table) {
        Some(arrays) => read_arrays(alloc, &arrays),
        None => Err(PolicyFault::BadField(PolicyTable::Contexts, 0)),
    }
}

// The policy of rows as they are written.
fn policy_of_rows(alloc: Global, rows: PolicyRows) -> Result<Policy, PolicyFault>
    ensures policy { IfOk result (λ p. p ≡ policy_tables rows) }
    ensures right { OnOk result (ArePolicyRowsRight rows) }
    ensures fault { IfErr result (λ e. e ≢ PolicyFault.Memory → IsPolicyFault rows e) }
    ensures memory { IfErr result (λ e. e ≡ PolicyFault.Memory → RowsTakeMemory rows) }
{
    let vacm = Vacm::new(alloc, rows.vacm)?;
    Policy::new(alloc, rows.communities, vacm)
}

/// The policy that a table says.
///
/// # Errors
///
/// First the faults of the keys and of the types: `BadField(Contexts, 0)` where the table has not
/// exactly the keys
/// `contexts`, `community`, `group`, `access` and `family`, each an array; else `BadField` of the
/// first value that is no row, in the order groups, access, families, contexts, communities. Then
/// the first row whose length, field or key is wrong, as [`Vacm::new`] and [`Policy::new`] name it.
/// `Memory` where a growth was refused: the table has the five arrays, the values of those before
/// some array are rows, and that has a first value that has a row's keys and types; or the values of
/// all five are rows.
pub fn policy_of(alloc: Global, table: &Table) -> Result<Policy, PolicyFault>
    ensures policy { IfOk result (λ p. IsPolicy (table_view table.now) p) }
    ensures fault { IfErr result (λ e. e ≢ PolicyFault.Memory → IsUnread (table_view table.now) e ⊎
        IsWrongPolicy (table_view table.now) e) }
    ensures memory { IfErr result (λ e. e ≡ PolicyFault.Memory →
        TakesMemory (table_view table.now)) }
    // The same as a function of the table: its policy, or none.
    ensures stated { IfOk result (λ p. policy_of_members (table_view table.now) ≡ Some p) }
    ensures refused { IfErr result (λ e. e ≢ PolicyFault.Memory →
        policy_of_members (table_view table.now) ≡ None) }
{
    let rows = policy_rows(alloc, table)?;
    policy_of_rows(alloc, rows)
}
