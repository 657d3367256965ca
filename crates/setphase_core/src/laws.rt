//! Laws of worlds, of what they show, and of lists of objects. Each function does nothing: its
//! contract is the law.
ghost use Rattle.std.specs.Prelude.{◌≡◌, ◌≢◌, ◌↔◌, ◌≤◌, ◌<◌, ℕ, Bool, if◌then◌else◌, List, [], length, filter, None, IsTrue, true};
ghost use Rattle.std.specs.List.{count_by};
ghost use Rattle.community_core.specs.Communities.{PolicyTables};
ghost use Rattle.fdb_core.specs.declared.static_row.StaticRow.{StaticRow};
ghost use Rattle.bridge_core.specs.Statics.{HasStatics};
ghost use Rattle.message_core.specs.Instances.{IsRising};
ghost use Rattle.rstp_settings.specs.Table.{Table};
ghost use Rattle.setting_keys.specs.declared.SettingKey.{SettingKey};
ghost use Rattle.setting_keys.specs.declared.SettingValue.{SettingValue};
ghost use Rattle.vacm_core.specs.declared.tables.FamilyRow.{FamilyRow};
ghost use Rattle.setphase_core.specs.Settings.{families_of, setting, put, HasSetting, IsSettingInRange, same_setting, is_static, with_settings, with_rows, with_families_in, with_marks_of};
ghost use Rattle.setphase_core.specs.declared.world.World.{World};
ghost use Rattle.setphase_core.specs.Objects.{ObjectRow};
ghost use Rattle.setphase_core.specs.Names.{bridge_rows};
ghost use Rattle.setphase_core.specs.Registry.{first_fault, prefixes_of, AreApart, AreNamed, IsKept, instances};
ghost use Rattle.setphase_core.specs.Passing.{open_instances, passed_after, PassesHidden};
ghost use Rattle.setphase_core.specs.Searching.{least_comparisons};
ghost use Rattle.setphase_core.specs.Opening.{opening_world, opening_instances};
ghost use Rattle.setphase_core.specs.InUse.{families_in_use, world_in_use, instances_in_use};

use crate::limits::{
    MAX_COST, MAX_INDEX, MAX_INFO, MAX_PATH_COST, MAX_PORT_OCTETS, MAX_SLOTS, MAX_STATIC_ROWS,
    MAX_VARIABLES,
};

/// A setting has the value that it was last given, where that is in its range, and each other setting
/// the one it had.
pub fn setting_after_put()
    ensures { (w : World) (k l : SettingKey) (v : SettingValue) → HasSetting w k → HasSetting w l
        → IsSettingInRange w k v → setting (put w k v) l ≡ (if same_setting k l then v else setting w l) }
{}

/// Of two values put under one key the later one stands, where it is in its range.
pub fn put_twice()
    ensures { (w : World) (k : SettingKey) (v u : SettingValue) → HasSetting w k
        → IsSettingInRange w k u → put (put w k v) k u ≡ put w k u }
{}

/// The value that a setting has changes nothing where it is put again.
pub fn put_again_changes_nothing()
    ensures { (w : World) (k : SettingKey) → HasSetting w k → put w k (setting w k) ≡ w }
{}

/// A put of a value in range takes no setting away.
pub fn put_keeps_keys()
    ensures { (w : World) (k l : SettingKey) (v : SettingValue) → IsSettingInRange w k v
        → HasSetting w l → HasSetting (put w k v) l }
{}

/// Two settings are the same where their keys are equal.
pub fn same_where_equal()
    ensures { (k l : SettingKey) → IsTrue (same_setting k l) ↔ (k ≡ l) }
{}

/// Putting the old value again restores the world.
pub fn undo_restores()
    ensures { (w : World) (k : SettingKey) (v : SettingValue) → HasSetting w k
        → put (put w k v) k (setting w k) ≡ w }
{}

/// Two settings of different keys may be put in either order, where the values are in range.
pub fn puts_commute()
    ensures { (w : World) (k l : SettingKey) (v u : SettingValue) → k ≢ l → HasSetting w k
        → HasSetting w l → IsSettingInRange w k v → IsSettingInRange w l u
        → put (put w k v) l u ≡ put (put w l u) k v }
{}

/// Settings that agree on every key are equal: those of a bridge, static rows that are in order, of
/// the bridge's ports, and each made or with not all ports, and the masks and types of family rows.
pub fn equal_on_every_key()
    ensures bridge { (w : World) (t : Table) → length t.ports ≡ length w.bridge.settings.ports
        → ((k : SettingKey) → HasSetting w k → setting (with_settings w t) k ≡ setting w k)
        → with_settings w t ≡ w }
    ensures statics { (w : World) (rows : List StaticRow) → HasStatics (with_rows w rows).bridge
        → HasStatics w.bridge → ((k : SettingKey) → is_static k ≡ true
        → setting (with_rows w rows) k ≡ setting w k) → with_rows w rows ≡ w }
    ensures families { (w : World) (rows : List FamilyRow) → ((k : SettingKey) → HasSetting w k
        → setting (with_families_in w rows) k ≡ setting w k)
        → with_marks_of rows (families_of w) ≡ families_of w }
{}

/// Of the names of objects that make a registry none begins another.
pub fn names_are_apart()
    ensures { (rows : List ObjectRow) → first_fault rows ≡ None → AreApart (prefixes_of rows) }
{}

/// The names of the instances that objects show of a world that is kept rise, for every list of
/// objects that makes a registry.
pub fn instances_rise()
    ensures { (rows : List ObjectRow) (w : World) → first_fault rows ≡ None
        → IsKept w → IsRising (instances rows w) }
{}

/// Where a test passes over only objects none of whose names is shown, nothing that is shown is
/// missed: what is shown of the others' instances is what is shown of all.
pub fn nothing_shown_is_missed()
    ensures { (passes shows : List ℕ → Bool) (rows : List ObjectRow) (w : World)
        → PassesHidden passes shows
        → filter (λ b. shows b.name) (open_instances passes rows w)
        ≡ filter (λ b. shows b.name) (instances rows w) }
{}

/// After a name no more objects are passed over than there are to be passed over in all.
pub fn no_more_are_passed_after_a_name()
    ensures { (passes : List ℕ → Bool) (rows : List ObjectRow) (name : List ℕ)
        → passed_after passes rows name ≤ count_by (λ row. passes row.prefix) rows }
{}

/// Where there are objects, the object of a name is not known without a comparison.
pub fn an_object_takes_a_comparison()
    ensures { (prefixes : List (List ℕ)) (name : List ℕ) → 0 < length prefixes
        → 1 ≤ least_comparisons prefixes name }
{}

/// The 57 objects of RFC 4188, RFC 4318 and RFC 3415 in the order of their names make a registry.
pub fn objects_are_accepted()
    ensures count { length bridge_rows ≡ 57 }
    ensures accepted { first_fault bridge_rows ≡ None }
    ensures named { AreNamed bridge_rows }
{}

/// What they show of a bridge of two ports as it opens, whose policy has no families: 75 instances.
pub fn opening_bridge_shows_75()
    ensures count { length opening_instances ≡ 75 }
    ensures instances { (policy : PolicyTables) → policy.vacm.families ≡ []
        → instances bridge_rows (opening_world policy) ≡ opening_instances }
{}

/// What they show of a bridge of four ports, made by hand as if in use, most of whose facts differ
/// from one another, and of three families that its policy has in another order: 149 instances.
pub fn bridge_in_use_shows_149()
    ensures count { length instances_in_use ≡ 149 }
    ensures instances { (policy : PolicyTables) → policy.vacm.families ≡ families_in_use
        → instances bridge_rows (world_in_use policy) ≡ instances_in_use }
{}

/// The limits of objects, of what they show, and of a Set.
pub fn limits_are_fixed()
    ensures index { MAX_INDEX ≡ 116 }
    ensures slots { MAX_SLOTS ≡ 64 }
    ensures variables { MAX_VARIABLES ≡ 64 }
    ensures cost { MAX_COST ≡ 2147483647 }
    ensures path_cost { MAX_PATH_COST ≡ 65535 }
    ensures info { MAX_INFO ≡ 1500 }
    ensures static_rows { MAX_STATIC_ROWS ≡ 256 }
    ensures port_octets { MAX_PORT_OCTETS ≡ 512 }
{}
