//! Which lengths and fields the written rows may have, and the rows that they stand for.
ghost use Rattle.std.specs.Prelude.{◌≡◌, ◌≤◌, ◌≤ℤ◌, ◌&&◌, pos, true, false, length, bytes_eq, nat_le, nat_eq};
ghost use Rattle.std.specs.Cmp.Lexicographic.{pointwise, slice_cmp};
ghost use Rattle.std.specs.Ordering.{nat_cmp};
ghost use Rattle.std.proofs.Common.{refl};
ghost use Rattle.std.proofs.lemmas.Cmp.{nat_list_cmp_total};
ghost use Rattle.vacm_core.specs.Orders.{group_key_total, group_key_ties, access_key_total, access_key_ties, family_key_total, family_key_ties};
ghost use Rattle.vacm_core.specs.Texts.{has_length, is_plain};
ghost use Rattle.vacm_core.specs.Rows.{natural, is_between, level_of, group_lengths, group_fields, group_row, same_group, group_key_cmp, access_lengths, access_fields, access_row, same_access, access_key_cmp, family_lengths, family_fields, family_row, same_family, family_key_cmp, context_lengths};

use crate::checking::WrittenRow;
use crate::limits::{MAX_FAMILY, MAX_MASK, MAX_MODEL, MAX_NAME};
use crate::name::{Mask, Name};
use crate::tables::{AccessRow, FamilyRow, GroupRow, Level};
use crate::text::Text;
use crate::written::{WrittenAccess, WrittenFamily, WrittenGroup};
use std::cmp::Ordering;

/// Whether a number is at least and at most these.
fn is_between(least: u32, most: u32, number: i64) -> bool
    ensures { result ≡ is_between least most number }
{
    i64::from(least) <= number && number <= i64::from(most)
}

/// A number of 0 to [`MAX_MODEL`].
fn natural(number: i64) -> u32
    requires { is_between 0 MAX_MODEL number ≡ true }
    ensures { result ≡ natural number }
{
    number as u32
}

/// The level of a number of 1 to 3.
fn level_of(number: i64) -> Level
    ensures { result ≡ level_of (natural number) }
{
    match number {
        1 => Level::NoAuthNoPriv,
        2 => Level::AuthNoPriv,
        _ => Level::AuthPriv,
    }
}

impl WrittenRow for WrittenGroup {
    type Row = GroupRow;

    ghost lengths = { group_lengths };

    ghost fields = { group_fields };

    ghost row_of = { group_row };

    ghost same_key = { same_group };

    ghost has_keys = { true };

    ghost key_cmp = { group_key_cmp };

    ghost keys_are_ordered = { group_key_total };

    ghost same_where_equal = { group_key_ties };

    fn has_right_lengths(&self) -> bool {
        self.name.has_length(1, MAX_NAME) && self.group.has_length(1, MAX_NAME)
    }

    fn has_right_fields(&self) -> bool {
        is_between(1, MAX_MODEL, self.model) && self.name.is_plain() && self.group.is_plain()
    }

    fn into_row(self) -> GroupRow {
        GroupRow {
            model: natural(self.model),
            name: Name::of(self.name.as_str()),
            group: Name::of(self.group.as_str()),
        }
    }

    fn has_keys() -> bool {
        true
    }

    fn cmp_key(one: &GroupRow, other: &GroupRow) -> Ordering {
        one.model
            .cmp(&other.model)
            .then(one.name.as_bytes().cmp(other.name.as_bytes()))
    }
}

impl WrittenRow for WrittenAccess {
    type Row = AccessRow;

    ghost lengths = { access_lengths };

    ghost fields = { access_fields };

    ghost row_of = { access_row };

    ghost same_key = { same_access };

    ghost has_keys = { true };

    ghost key_cmp = { access_key_cmp };

    ghost keys_are_ordered = { access_key_total };

    ghost same_where_equal = { access_key_ties };

    fn has_right_lengths(&self) -> bool {
        self.group.has_length(1, MAX_NAME)
            && self.prefix.has_length(0, MAX_NAME)
            && self.read.has_length(0, MAX_NAME)
            && self.write.has_length(0, MAX_NAME)
            && self.notify.has_length(0, MAX_NAME)
    }

    fn has_right_fields(&self) -> bool {
        is_between(0, MAX_MODEL, self.model)
            && is_between(1, 3, self.level)
            && self.group.is_plain()
            && self.prefix.is_plain()
            && self.read.is_plain()
            && self.write.is_plain()
            && self.notify.is_plain()
    }

    fn into_row(self) -> AccessRow {
        AccessRow {
            group: Name::of(self.group.as_str()),
            prefix: Name::of(self.prefix.as_str()),
            model: natural(self.model),
            level: level_of(self.level),
            exact: self.exact,
            read: Name::of(self.read.as_str()),
            write: Name::of(self.write.as_str()),
            notify: Name::of(self.notify.as_str()),
        }
    }

    fn has_keys() -> bool {
        true
    }

    fn cmp_key(one: &AccessRow, other: &AccessRow) -> Ordering {
        let group = one.group.as_bytes().cmp(other.group.as_bytes());
        let prefix = one.prefix.as_bytes().cmp(other.prefix.as_bytes());
        let model = one.model.cmp(&other.model);
        let level = one.level.number().cmp(&other.level.number());
        group.then(prefix).then(model).then(level)
    }
}

impl WrittenRow for WrittenFamily {
    type Row = FamilyRow;

    ghost lengths = { family_lengths };

    ghost fields = { family_fields };

    ghost row_of = { family_row };

    ghost same_key = { same_family };

    ghost has_keys = { true };

    ghost key_cmp = { family_key_cmp };

    ghost keys_are_ordered = { family_key_total };

    ghost same_where_equal = { family_key_ties };

    fn has_right_lengths(&self) -> bool {
        self.view.has_length(1, MAX_NAME)
            && self.mask.as_slice().len() <= MAX_MASK
            && self.view.as_str().len() + self.subtree.as_slice().len() <= MAX_FAMILY
    }

    fn has_right_fields(&self) -> bool {
        self.view.is_plain()
    }

    fn into_row(self) -> FamilyRow {
        FamilyRow {
            view: Name::of(self.view.as_str()),
            mask: Mask::of(self.mask.as_slice()),
            subtree: self.subtree,
            included: self.included,
        }
    }

    fn has_keys() -> bool {
        true
    }

    fn cmp_key(one: &FamilyRow, other: &FamilyRow) -> Ordering {
        let view = one.view.as_bytes();
        let other_view = other.view.as_bytes();
        let long = view.len().cmp(&other_view.len());
        let subtree = one.subtree.as_slice().cmp(other.subtree.as_slice());
        long.then(view.cmp(other_view)).then(subtree)
    }
}

impl WrittenRow for Text {
    type Row = Name;

    ghost lengths = { context_lengths };

    ghost fields = { is_plain };

    ghost row_of = { λ w. w };

    ghost same_key = { λ a b. false };

    ghost has_keys = { false };

    ghost key_cmp = { slice_cmp nat_cmp };

    ghost keys_are_ordered = { nat_list_cmp_total };

    ghost same_where_equal = { λ a b. refl };

    fn has_right_lengths(&self) -> bool {
        self.has_length(0, MAX_NAME)
    }

    fn has_right_fields(&self) -> bool {
        self.is_plain()
    }

    fn into_row(self) -> Name {
        Name::of(self.as_str())
    }

    fn has_keys() -> bool {
        false
    }

    fn cmp_key(one: &Name, other: &Name) -> Ordering {
        one.as_bytes().cmp(other.as_bytes())
    }
}
