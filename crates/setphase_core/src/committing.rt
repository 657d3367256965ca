//! All commits of a Set, and the undoing of all.
ghost use Rattle.std.specs.Prelude.{◌≡◌, ℕ, ◌+◌, ◌<◌, ◌≤◌, ◌∷◌, length, map, take, IfSome, IfNone};
ghost use Rattle.setphase_core.specs.declared.world.World.{World as AnyWorld};
ghost use Rattle.setphase_core.specs.Objects.{object_after_release};
ghost use Rattle.setphase_core.specs.Settings.{bridge_keys, IsLine};
ghost use Rattle.setphase_core.specs.Together.{assign};
ghost use Rattle.setphase_core.specs.Staging.{assignments_of, IsUnderWay, AreCommitted, HasFailed, HasSpaceFor, MayUndo, AreCalled, commits_at, undos_at, entries_of};

use crate::limits::MAX_VARIABLES;
use crate::object::MibObject;
use crate::staging::Staging;
use crate::world::World;
use setting_keys::{MAX_KEYS, SettingKey, SettingKeys};

/// Commits all that is staged, and answers the place of the first commit that failed.
pub(crate) fn commit_all<O: MibObject, const PLACES: usize>(
    staging: &mut Staging<'_, O, PLACES>,
    world: &mut World,
) -> Option<usize>
    requires none { staging.old.committed ≡ 0 }
    requires under_way { IsUnderWay world.old staging.old.registry.now staging.old.staged.items
        staging.old.tested staging.old.committed }
    requires space { HasSpaceFor world.old (assignments_of staging.old.staged.items) }
    ensures under_way { IsUnderWay world.new staging.new.registry.now staging.new.staged.items
        staging.new.tested staging.new.committed }
    ensures same_reference { staging.new.registry.ghost_name ≡ staging.old.registry.ghost_name }
    ensures staged { staging.new.staged.items ≡ staging.old.staged.items }
    ensures done { IfNone result
        (world.new ≡ assign (assignments_of staging.old.staged.items) world.old) }
    ensures failed { IfSome result (HasFailed world.old world.new staging.new.registry.now
        staging.old.staged.items) }
    ensures committed { IfSome result (λ i. staging.new.committed ≡ i) }
    ensures called { AreCalled (commits_at staging.old.staged.items result)
        (map object_after_release staging.old.registry.now)
        (map object_after_release staging.new.registry.now) }
{
    for i in 0..staging.staged.len() {
        let Ok(()) = staging.commit_next(world) else {
            return Some(i);
        };
    }
    None
}

// Puts the key of a setting that a device holds in front.
fn put_line(keys: &mut SettingKeys, key: SettingKey)
    requires line { IsLine key }
    requires space { length keys.old < MAX_KEYS }
    ensures count { length keys.new ≡ length keys.old + 1 }
    ensures keys { bridge_keys keys.new ≡ key ∷ bridge_keys keys.old }
{
    match key {
        SettingKey::Bridge(key) => keys.put_first(key),
        SettingKey::Made(_)
        | SettingKey::Allowed(_)
        | SettingKey::FamilyMask(_)
        | SettingKey::FamilyType(_) => unreachable!(),
    }
}

/// Undoes all commits, and answers the settings whose undoing failed, in the order of their
/// variables.
pub(crate) fn undo_all<O: MibObject, const PLACES: usize>(
    staging: &mut Staging<'_, O, PLACES>,
    world: &mut World,
) -> SettingKeys
    requires most { PLACES ≤ MAX_VARIABLES }
    requires under_way { IsUnderWay world.old staging.old.registry.now staging.old.staged.items
        staging.old.tested staging.old.committed }
    requires may { (before : AnyWorld) × MayUndo before world.old staging.old.registry.now
        staging.old.staged.items staging.old.committed }
    ensures same_reference { staging.new.registry.ghost_name ≡ staging.old.registry.ghost_name }
    ensures staged { staging.new.staged.items ≡ staging.old.staged.items }
    ensures keys { bridge_keys result ≡ map (λ e. e.slot.key) (entries_of (bridge_keys result)
        (take staging.old.committed staging.old.staged.items)) }
    ensures undone { (before : AnyWorld)
        → AreCommitted before world.old staging.old.registry.now staging.old.staged.items
        staging.old.committed
        → world.old ≡ assign (take staging.old.committed
        (assignments_of staging.old.staged.items)) before
        → world.new ≡ assign (assignments_of
        (entries_of (bridge_keys result)
        (take staging.old.committed staging.old.staged.items))) before }
    ensures called { AreCalled
        (undos_at (bridge_keys result) (take staging.old.committed staging.old.staged.items))
        (map object_after_release staging.old.registry.now)
        (map object_after_release staging.new.registry.now) }
{
    let mut stuck = SettingKeys::new();
    while staging.committed > 0 {
        let key = staging.staged.as_slice()[staging.committed - 1].slot.key;
        let Ok(()) = staging.undo_last(world) else {
            put_line(&mut stuck, key);
            continue;
        };
    }
    stuck
}
