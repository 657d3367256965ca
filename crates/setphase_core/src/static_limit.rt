//! How many static rows there may be (RFC 4188, dot1dStaticTable; a limit of this profile).
ghost use Rattle.std.specs.Prelude.{◌≡◌, ◌≤◌, ◌&&◌, ◌∷◌, not, length};
ghost use Rattle.std.specs.List.{list_any};
ghost use Rattle.setphase_core.specs.Settings.{same_setting};
ghost use Rattle.setphase_core.specs.Writing.{makes_row, new_rows, each_once, has_rows_left, assignments_in};

use crate::limits::MAX_STATIC_ROWS;
use crate::object::Reservation;
use crate::world::World;
use setting_keys::{SettingKey, SettingValue};

// Whether giving a setting this value makes a static row that is not there.
fn makes_row(world: &World, key: SettingKey, value: SettingValue) -> bool
    ensures { result ≡ makes_row world.now key value }
{
    match (key, value) {
        (SettingKey::Made(index), SettingValue::Number(1)) => !world.bridge.is_made(index),
        _ => false,
    }
}

// Whether reserved slots make the row of a setting, which is not there.
#[tactic(auto, using(crate::proofs::Equal::key_equal))]
fn is_made_by(world: &World, reserved: &[Reservation], key: SettingKey) -> bool
    ensures { result
        ≡ list_any (λ l. same_setting l key) (new_rows world.now (assignments_in reserved.now)) }
{
    let Some((first, others)) = reserved.split_first() else {
        return false;
    };
    (makes_row(world, first.key, first.value) && first.key == key) || is_made_by(world, others, key)
}

// How many rows reserved slots make that are not there.
fn count_new(world: &World, reserved: &[Reservation]) -> usize
    ensures count { result ≡ length (each_once (new_rows world.now (assignments_in reserved.now))) }
    ensures most { result ≤ length reserved.now }
{
    let Some((first, others)) = reserved.split_first() else {
        return 0;
    };
    let more = count_new(world, others);
    if makes_row(world, first.key, first.value) && !is_made_by(world, others, first.key) {
        more + 1
    } else {
        more
    }
}

/// Whether a setting may get a value beside what is reserved: it makes no static row that is not
/// there, or one that is not too many. A row that the same Set removes still counts.
pub(crate) fn is_within_rows(
    world: &World,
    reserved: &[Reservation],
    key: SettingKey,
    value: &SettingValue,
) -> bool
    ensures { result ≡ not (makes_row world.now key value.now
        && not (has_rows_left world.now
        (record { key = key; value = value.now } ∷ assignments_in reserved.now))) }
{
    if !makes_row(world, key, *value) {
        return true;
    }
    let Some(left) = MAX_STATIC_ROWS.checked_sub(world.bridge.made_statics()) else {
        return false;
    };
    if reserved.len() < left {
        return true;
    }
    let again = is_made_by(world, reserved, key);
    count_new(world, reserved) + usize::from(!again) <= left
}
