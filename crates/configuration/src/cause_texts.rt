//! The text of why octets are no policy alone.
ghost use Rattle.std.specs.Prelude.{◌≡◌, Some};
ghost use Rattle.configuration.specs.CauseTexts.{field_words, length_words, rule_words, keys_words, cause_text};

use crate::causes::{PolicyCause, WrongField, WrongRow};
use crate::details::{field_text, length_text};
use crate::fault::PolicyKey;
use crate::rows::RowKey;
use crate::sentences::{counted, field_rule, key_rule, keys_sentence, length_rule, table_key};
use community_core::PolicyTable;
use std::fmt;

// What would be right of a row with a wrong value, but for the name of a key that is unknown.
fn field_words(which: PolicyTable, wrong: WrongField) -> &'static str
    ensures { result.now ≡ field_words which wrong }
{
    match wrong {
        WrongField::Row => field_rule(which),
        WrongField::Key(key) => field_text(which, key),
        WrongField::UnknownKey => "unknown key",
    }
}

// How long the text of a row may be whose length is wrong.
fn length_words(which: PolicyTable, wrong: Option<RowKey>) -> &'static str
    ensures { result.now ≡ length_words which wrong }
{
    match wrong {
        Some(key) => length_text(which, key),
        None => length_rule(which),
    }
}

// What would be right of a row.
fn rule_words(which: PolicyTable, wrong: WrongRow) -> &'static str
    ensures { result.now ≡ rule_words which wrong }
{
    match wrong {
        WrongRow::Twice => key_rule(which),
        WrongRow::Length(key) => length_words(which, key),
        WrongRow::Field(wrong) => field_words(which, wrong),
    }
}

// What would be right of the keys of a policy alone.
fn keys_words(wrong: PolicyKey) -> &'static str
    ensures { result.now ≡ keys_words wrong }
{
    match wrong {
        PolicyKey::Other => "top level: unknown key",
        wrong => keys_sentence(wrong),
    }
}

/// The sentence that [`policy_sentence_in`](crate::policy_sentence_in) has, without the name of a key that
/// is unknown, and without what TOML's reader says: of the octets there is at most the number of a line or
/// of a row, counted from 1.
impl fmt::Display for PolicyCause {
    ghost output = { λ cause. Some (cause_text cause) };

    fn fmt<W: fmt::Write>(&self, f: &mut fmt::Formatter<W>) -> fmt::Result {
        match self {
            PolicyCause::NoText => write!(f, "the text: it is to be in UTF-8"),
            PolicyCause::NoDocument(line) => write!(
                f,
                "line {line} of the text, counted from 1: it is to be TOML, in which no key stands twice"
            ),
            PolicyCause::Keys(wrong) => {
                let rule = keys_words(*wrong);
                write!(f, "{rule}")
            }
            PolicyCause::Row(which, row, wrong) => {
                let table = table_key(*which);
                let number = counted(*row);
                let rule = rule_words(*which, *wrong);
                write!(f, "row {number} of {table}, counted from 1: {rule}")
            }
        }
    }
}
