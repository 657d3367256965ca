//! Why octets are no policy alone, without a text of theirs.
ghost use Rattle.std.specs.Prelude.{◌≡◌, ◌≢◌, IfOk, OnErr, option_map};
ghost use Rattle.toml.specs.Errors.{IsMemory, IsBlank, IsWithin};
ghost use Rattle.toml.specs.View.{table_view};
ghost use Rattle.community_core.specs.declared.fault.PolicyFault.TheVariants.{Memory};
ghost use Rattle.policy_text.specs.Texts.{HasContent};
ghost use Rattle.configuration.specs.PolicyKeys.{HasKeys};
ghost use Rattle.configuration.specs.Causes.{wrong_field, wrong_length, row_of, HasRowFault, IsTableCause, IsLineCause, IsTable, IsText, IsAlone};

use crate::details::{row_at, rows_key, table_in};
use crate::fault::PolicyKey;
use crate::known_keys::{Part, unknown_key};
use crate::lines::line_at;
use crate::policy_keys::check_policy_keys;
use crate::rows::{RowKey, row_fault, row_length};
use community_core::{Policy, PolicyFault, PolicyTable};
use policy_text::{policy_of, text_of};
use std::alloc::{AllocError, Global};
use toml::Table;

/// Which value of a row is wrong.
#[derive(Clone, Copy, Debug, PartialEq, Eq)]
pub enum WrongField {
    /// The row itself: a context that may not be one, or what is no table.
    Row,
    /// This key is missing, or holds what it may not hold.
    Key(RowKey),
    /// There is a key that there may not be.
    UnknownKey,
}

/// What is wrong of a row.
#[derive(Clone, Copy, Debug, PartialEq, Eq)]
pub enum WrongRow {
    /// It has the key of an earlier row.
    Twice,
    /// The length of what this key holds, or of a context.
    Length(Option<RowKey>),
    /// A value.
    Field(WrongField),
}

/// Why octets are no policy alone: their first fault, of a row with the key that is wrong. None of their
/// text is in it.
///
/// A row's number counts from 0, and from 1 in the text of `Display`.
#[derive(Clone, Copy, Debug, PartialEq, Eq)]
pub enum PolicyCause {
    /// They are no UTF-8 (RFC 3629).
    NoText,
    /// They are no TOML document. This is the number of a line of them, counted from 1: the one at which
    /// TOML's reader stopped.
    NoDocument(usize),
    /// They have not exactly the keys `contexts`, `community`, `group`, `access` and `family`, each an
    /// array: this is wrong.
    Keys(PolicyKey),
    /// This row of this table is the first that is wrong.
    Row(PolicyTable, usize, WrongRow),
}

// Which value is wrong of a row with a wrong value.
fn wrong_field(
    alloc: Global,
    which: PolicyTable,
    row: Option<&Table>,
) -> Result<WrongField, AllocError>
    ensures { IfOk result (λ wrong. wrong
        ≡ wrong_field which (option_map (λ t. table_view t.now) row.entry)) }
{
    let Some(table) = row else {
        return Ok(WrongField::Row);
    };
    if let Some(key) = row_fault(alloc, which, table)? {
        return Ok(WrongField::Key(key));
    }
    match unknown_key(Part::Row(which), table) {
        Some(_) => Ok(WrongField::UnknownKey),
        None => Ok(WrongField::Row),
    }
}

// Of which key the length is wrong, of a row with a wrong length.
fn wrong_length(which: PolicyTable, row: Option<&Table>) -> Option<RowKey>
    ensures { result ≡ wrong_length which (option_map (λ t. table_view t.now) row.entry) }
{
    match row {
        Some(table) => row_length(which, table),
        None => None,
    }
}

// The row of this number, if it is a table.
fn row_of(table: &Table, which: PolicyTable, row: usize) -> Option<&Table>
    ensures { option_map (λ t. table_view t.now) result ≡ row_of which row (table_view table.now) }
{
    table_in(row_at(table, rows_key(which), row))
}

// Why a table that has the keys of a policy is none, by its first fault.
fn row_cause(alloc: Global, table: &Table, fault: PolicyFault) -> Result<PolicyCause, AllocError>
    requires { fault ≢ Memory → HasRowFault (table_view table.now) fault }
    ensures { IfOk result (λ cause. IsTableCause (table_view table.now) cause) }
{
    match fault {
        PolicyFault::Memory => Err(AllocError),
        PolicyFault::Duplicate(which, row) => Ok(PolicyCause::Row(which, row, WrongRow::Twice)),
        PolicyFault::BadLength(which, row) => {
            let key = wrong_length(which, row_of(table, which, row));
            Ok(PolicyCause::Row(which, row, WrongRow::Length(key)))
        }
        PolicyFault::BadField(which, row) => {
            let wrong = wrong_field(alloc, which, row_of(table, which, row))?;
            Ok(PolicyCause::Row(which, row, WrongRow::Field(wrong)))
        }
    }
}

// The policy that a table alone says, or why it says none.
fn alone_in_table(alloc: Global, table: &Table) -> Result<Result<Policy, PolicyCause>, AllocError>
    ensures table { IfOk result (λ alone. IsTable (table_view table.now) alone) }
    ensures memory { OnErr result (HasKeys (table_view table.now)) }
{
    if let Err(key) = check_policy_keys(table) {
        return Ok(Err(PolicyCause::Keys(key)));
    }
    match policy_of(alloc, table) {
        Ok(policy) => Ok(Ok(policy)),
        Err(fault) => Ok(Err(row_cause(alloc, table, fault)?)),
    }
}

// Why a text is no TOML document. There is nothing where its reader had no memory.
fn line_cause(text: &str, error: &toml::de::Error) -> Result<PolicyCause, AllocError>
    requires { IsWithin text.now error.now }
    ensures memory { OnErr result (IsMemory error.now) }
    ensures line { IfOk result (λ cause. ¬ IsMemory error.now × IsLineCause text.now cause) }
{
    match error.span() {
        Some(span) => Ok(PolicyCause::NoDocument(line_at(text, span.start))),
        None => Err(AllocError),
    }
}

// The policy that a text alone says, or why it says none.
fn alone_in_text(alloc: Global, text: &str) -> Result<Result<Policy, PolicyCause>, AllocError>
    ensures text { IfOk result (λ alone. IsText text.now alone) }
    ensures memory { OnErr result (¬ IsBlank text.now) }
{
    match toml::table_from_str(alloc, text) {
        Ok(table) => alone_in_table(alloc, &table),
        Err(error) => Ok(Err(line_cause(text, &error)?)),
    }
}

/// The policy that octets alone say, or why they say none: UTF-8, and a TOML document of exactly
/// `contexts`, `community`, `group`, `access` and `family`, which says a policy as
/// [`policy_in`](policy_text::policy_in) reads it.
///
/// # Errors
/// `AllocError` where there is no memory, which only octets that are UTF-8, and more than white space and
/// comments, take.
pub fn policy_alone_in(
    alloc: Global,
    octets: &[u8],
) -> Result<Result<Policy, PolicyCause>, AllocError>
    ensures alone { IfOk result (λ alone. IsAlone octets.now alone) }
    ensures memory { OnErr result (HasContent octets.now) }
{
    match text_of(octets) {
        Some(text) => alone_in_text(alloc, text),
        None => Ok(Err(PolicyCause::NoText)),
    }
}
