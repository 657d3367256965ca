//! The keys of the settings that a Set may write, and the values that they take: those of a bridge
//! and of its ports, those of its static rows (IEEE 802.1D-2004, 7.9.1), and those of the rows of
//! view families (RFC 3415, vacmViewTreeFamilyTable).
//!
//! # Entry points
//! [`SettingKey`], [`SettingValue`]: plain data. Of the crates above, `setphase_core` alone
//! distinguishes their kinds. [`SettingKeys`]: a list of keys of a bridge's settings, which are those that a
//! Set may fail to restore; each stands there as a [`ListedKey`]. A list has [`MAX_KEYS`] keys at
//! most.
//!
//! # Definitions
//! `specs/Listed.antt`: which key the parts of a listed key are.
//!
//! # Laws
//! None.
//!
//! # Not claimed
//! What a key's range is: `setphase_core` defines that.
#![tactic(auto)]

ghost use Rattle.std.specs.Prelude.{◌≡◌, ◌<◌, ◌↔◌, [], ◌∷◌, length, IsTrue};

use arrayvec::ArrayVec;
use fdb_core::{PortSet, StaticIndex};
use rstp_settings::key::{BridgeKey, Key, PortKey};
use std::marker::Model;
use vacm_core::Mask;

/// The name of a setting.
#[derive(Clone, Copy, Debug, PartialEq, Eq)]
pub enum SettingKey {
    /// A setting of the bridge or of one of its ports.
    Bridge(Key),
    /// Whether the static row of an index is made (RFC 4188, dot1dStaticStatus): 1 where it is, and
    /// 0 where it is not.
    Made(StaticIndex),
    /// The ports by which frames of an index may go out, where its row is made (RFC 4188,
    /// dot1dStaticAllowedToGoTo).
    Allowed(StaticIndex),
    /// The mask of the family row of this number, counted from 0 in the policy (RFC 3415,
    /// vacmViewTreeFamilyMask).
    FamilyMask(usize),
    /// The type of the family row of this number, counted from 0 in the policy (RFC 3415,
    /// vacmViewTreeFamilyType): 1 where the view includes the family, and 2 where it excludes it.
    FamilyType(usize),
}

impl Default for SettingKey {
    /// The bridge priority, which every world has.
    fn default() -> SettingKey
        ensures { result ≡ SettingKey.Bridge (Key.Bridge BridgeKey.Priority) }
    {
        SettingKey::Bridge(Key::Bridge(BridgeKey::Priority))
    }
}

/// What a setting has, or is to get.
#[derive(Clone, Copy, Debug, PartialEq, Eq)]
pub enum SettingValue {
    /// A number, in the unit of its key.
    Number(u32),
    /// A set of ports.
    Ports(PortSet),
    /// A mask of 0 to 16 octets.
    Mask(Mask),
}

impl Default for SettingValue {
    /// The number 0, whatever the key.
    fn default() -> SettingValue
        ensures { result ≡ SettingValue.Number 0 }
    {
        SettingValue::Number(0)
    }
}

/// The most keys that a list of them has: as many as a Set has variables.
pub const MAX_KEYS: usize = 64;

// The parts of a bridge's key, in an order in which they take four octets and not eight: a list of 64 is moved
// about while a Set is made, and space for two is reserved for each.
#[derive(Clone, Copy)]
enum Parts {
    Bridge(BridgeKey),
    Port(PortKey, u16),
}

/// The key of a bridge's setting as it stands in a list, seen as the key.
#[derive(Clone, Copy)]
pub struct ListedKey {
    parts: Parts,
}

impl Model for ListedKey {
    ghost use Rattle.rstp_settings.specs.declared.key.Key.{Key as AnyKey};
    ghost use Rattle.setting_keys.specs.Listed.{key_of, parts_of};

    ghost Value = { AnyKey };

    ghost view = { λ k. key_of k.parts };

    ghost inverse = { λ key. record { parts = parts_of key } };
}

impl Default for ListedKey {
    /// The bridge priority, which every bridge has.
    fn default() -> ListedKey
        ensures { result ≡ Key.Bridge BridgeKey.Priority }
    {
        ListedKey {
            parts: Parts::Bridge(BridgeKey::Priority),
        }
    }
}

impl ListedKey {
    /// A key, as it stands in a list.
    fn of(key: Key) -> ListedKey
        ensures { result ≡ key }
    {
        let parts = match key {
            Key::Bridge(key) => Parts::Bridge(key),
            Key::Port(port, key) => Parts::Port(key, port),
        };
        ListedKey { parts }
    }

    /// The key.
    pub fn key(self) -> Key
        ensures { result ≡ self }
    {
        match self.parts {
            Parts::Bridge(key) => Key::Bridge(key),
            Parts::Port(key, port) => Key::Port(port, key),
        }
    }
}

/// At most `MAX_KEYS` keys of a bridge's settings, seen as their list.
#[derive(Drop)]
pub struct SettingKeys {
    keys: ArrayVec<ListedKey, MAX_KEYS>,
}

impl Model for SettingKeys {
    ghost use Rattle.std.specs.Prelude.{List};
    ghost use Rattle.rstp_settings.specs.declared.key.Key.{Key as AnyKey};

    ghost Value = { List AnyKey };

    ghost view = { λ k. k.keys.items };
}

impl SettingKeys {
    /// No keys.
    pub fn new() -> SettingKeys
        ensures { result ≡ [] }
    {
        SettingKeys {
            keys: ArrayVec::new(),
        }
    }

    /// Whether there are none.
    pub fn is_empty(&self) -> bool
        ensures { IsTrue result ↔ (self.now ≡ []) }
    {
        self.keys.is_empty()
    }

    /// The keys.
    pub fn as_slice(&self) -> &[ListedKey]
        ensures { result.now ≡ self.now }
    {
        self.keys.as_slice()
    }

    /// The keys again. Takes no memory.
    pub fn copy(&self) -> SettingKeys
        ensures { result ≡ self.now }
    {
        let mut keys = ArrayVec::new();
        match keys.try_extend_from_slice(self.keys.as_slice()) {
            Ok(()) => SettingKeys { keys },
            Err(_) => unreachable!(),
        }
    }

    /// Puts a key in front, where there is a place for it.
    pub fn put_first(&mut self, key: Key)
        requires { length self.old < MAX_KEYS }
        ensures { self.new ≡ key ∷ self.old }
    {
        self.keys.insert(0, ListedKey::of(key));
    }
}
