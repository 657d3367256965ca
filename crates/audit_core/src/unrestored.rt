//! The settings that a Set could not restore, memory for them, and how they are written.
ghost use Rattle.std.specs.Prelude.{◌≡◌, ◌≢◌, [], true, false, Some, IfOk};
ghost use Rattle.std.specs.List.{flat_map};
ghost use Rattle.audit_core.specs.Text.{bridge_key_text, port_key_text, key_text, unrestored_text};

use rstp_settings::key::{BridgeKey, Key, PortKey};
use setting_keys::{ListedKey, SettingKeys};
use std::alloc::{AllocError, Global};
use std::fmt;
use std::marker::Model;

/// The settings that a Set left at their new values, since undoing failed (RFC 3416, 4.2.5), seen as
/// the list of their keys. They lie in memory of their own, for audits are moved about, and only
/// after a Set that was not undone are there some.
pub struct Unrestored {
    keys: Option<Box<SettingKeys>>,
}

// By hand, so that who lets one go knows nothing of its parts.
impl Drop for Unrestored {
    fn drop(self) {
        let Unrestored { keys: _keys } = self;
    }
}

impl Model for Unrestored {
    ghost use Rattle.std.specs.Prelude.{List};
    ghost use Rattle.rstp_settings.specs.declared.key.Key.{Key as AnyKey};
    ghost use Rattle.audit_core.specs.Unrestored.{keys_in};

    ghost Value = { List AnyKey };

    ghost view = { λ u. keys_in u.keys };
}

impl Unrestored {
    /// No settings. Takes no memory.
    pub fn none() -> Unrestored
        ensures { result ≡ [] }
    {
        Unrestored { keys: None }
    }

    /// The keys of the settings, in the order of their variables.
    pub fn as_slice(&self) -> &[ListedKey]
        ensures { result.now ≡ self.now }
    {
        match &self.keys {
            Some(keys) => keys.as_slice(),
            None => &[],
        }
    }

    /// A copy, in memory that was reserved for it if there are settings. Takes no memory.
    pub fn copy_in(&self, space: UnrestoredSpace) -> Unrestored
        requires { self.now ≢ [] → space ≡ true }
        ensures { result ≡ self.now }
    {
        match &self.keys {
            Some(keys) => space.filled(keys.copy()),
            None => Unrestored::none(),
        }
    }
}

/// Memory for the settings that a Set may leave at their new values, or none; seen as whether there is
/// some. It is reserved where want of memory can still be reported, and filled where nothing may fail any
/// more.
pub struct UnrestoredSpace {
    keys: Option<Box<SettingKeys>>,
}

// By hand, so that who lets one go knows nothing of its parts.
impl Drop for UnrestoredSpace {
    fn drop(self) {
        let UnrestoredSpace { keys: _keys } = self;
    }
}

impl Model for UnrestoredSpace {
    ghost use Rattle.std.specs.Prelude.{Bool};
    ghost use Rattle.audit_core.specs.Unrestored.{is_space};

    ghost Value = { Bool };

    ghost view = { λ space. is_space space.keys };
}

impl UnrestoredSpace {
    /// No memory, as for a request that writes nothing. Takes no memory.
    pub fn none() -> UnrestoredSpace
        ensures { result ≡ false }
    {
        UnrestoredSpace { keys: None }
    }

    /// Memory for as many settings as a list of keys has.
    pub fn reserved(alloc: Global) -> Result<UnrestoredSpace, AllocError>
        ensures { IfOk result (λ space. space ≡ true) }
    {
        let keys = Box::new(alloc, SettingKeys::new())?;
        Ok(UnrestoredSpace { keys: Some(keys) })
    }

    /// These settings; where there are none, the memory is freed. Takes no memory, so it cannot fail.
    pub fn filled(self, keys: SettingKeys) -> Unrestored
        requires { keys ≢ [] → self ≡ true }
        ensures { result ≡ keys }
    {
        if keys.is_empty() {
            return Unrestored::none();
        }
        let UnrestoredSpace { keys: space } = self;
        match space {
            Some(mut space) => {
                *space = keys;
                Unrestored { keys: Some(space) }
            }
            None => unreachable!(),
        }
    }
}

// The word for a setting of the bridge as a whole.
fn bridge_word(key: BridgeKey) -> &'static str
    ensures { result.now ≡ bridge_key_text key }
{
    match key {
        BridgeKey::Priority => "priority",
        BridgeKey::MaxAge => "maxage",
        BridgeKey::Hello => "hello",
        BridgeKey::ForwardDelay => "fwddelay",
        BridgeKey::Version => "version",
        BridgeKey::HoldCount => "holdcount",
        BridgeKey::Aging => "aging",
    }
}

// The word for a setting of a port.
fn port_word(key: PortKey) -> &'static str
    ensures { result.now ≡ port_key_text key }
{
    match key {
        PortKey::Priority => "portpriority",
        PortKey::Enable => "enable",
        PortKey::Cost => "cost",
        PortKey::Migrate => "migrate",
        PortKey::Edge => "edge",
        PortKey::PointToPoint => "p2p",
    }
}

// The name of a setting.
#[derive(Drop)]
struct WrittenKey(Key);

/// As `aging` or `enable(1)`: the setting, and its port where it is one of a port.
impl fmt::Display for WrittenKey {
    ghost output = { λ key. Some (key_text key.0) };

    fn fmt<W: fmt::Write>(&self, f: &mut fmt::Formatter<W>) -> fmt::Result {
        match self.0 {
            Key::Bridge(key) => {
                let word = bridge_word(key);
                write!(f, "{word}")
            }
            Key::Port(port, key) => {
                let word = port_word(key);
                write!(f, "{word}({port})")
            }
        }
    }
}

// A setting that a Set left at its new value.
#[derive(Drop)]
struct WrittenOne(Key);

/// As ` unrestored enable(1)`.
impl fmt::Display for WrittenOne {
    ghost output = { λ one. Some (unrestored_text one.0) };

    fn fmt<W: fmt::Write>(&self, f: &mut fmt::Formatter<W>) -> fmt::Result {
        let key = WrittenKey(self.0);
        write!(f, " unrestored {key}")
    }
}

/// The settings that a Set left at their new values, since undoing failed.
#[derive(Drop)]
pub struct WrittenUnrestored<'a>(pub &'a Unrestored);

/// One behind the other, as ` unrestored aging unrestored enable(1)`.
impl fmt::Display for WrittenUnrestored<'_> {
    ghost output = { λ keys. Some (flat_map unrestored_text keys.0.now) };

    fn fmt<W: fmt::Write>(&self, f: &mut fmt::Formatter<W>) -> fmt::Result {
        for key in self.0.as_slice() {
            let one = WrittenOne(key.key());
            write!(f, "{one}")?;
        }
        Ok(())
    }
}
