//! How a Set writes an object, and what one of its variables writes.
ghost use Rattle.std.specs.Prelude.{◌≡◌, ◌<◌, IfSome};
ghost use Rattle.setphase_core.specs.Writing.{takes, number_given, key_at, integer_assignment, ports_assignment, mask_assignment, assignment_by, HasStep};

use crate::index::{is_scalar, port_at};
use crate::limits::MAX_PORT_OCTETS;
use crate::object::{Assignment, SetFault};
use crate::static_index::static_index;
use crate::world::World;
use fdb_core::{PortSet, has_other_port};
use message_core::Value;
use rstp_settings::key::{BridgeKey, Key, MIGRATION_CHECK, PortKey};
use setting_keys::{SettingKey, SettingValue};
use vacm_core::{MAX_MASK, Mask};

/// Which setting the instances of an object write.
#[derive(Clone, Copy, Debug, PartialEq, Eq)]
pub enum Target {
    /// That of the bridge, by the instance of a scalar.
    Bridge(BridgeKey),
    /// That of the port whose number is the index.
    Port(PortKey),
    /// Whether the static row of the index is made.
    Made,
    /// The type of the family row of the index (RFC 3415, vacmViewTreeFamilyType).
    FamilyType,
}

impl Target {
    // What the setting gets for a number that the object takes.
    fn given(self, number: u32) -> u32
        ensures { result ≡ number_given self number }
    {
        match self {
            Target::Port(PortKey::Migrate) => { if number == 1 { MIGRATION_CHECK } else { 0 } }
            Target::Made => { if number == 3 { 1 } else { 0 } }
            _ => number,
        }
    }

    // The setting that the instance of an index writes, where there can be one.
    fn key_at(self, world: &World, at: &[u32]) -> Option<SettingKey>
        ensures { result ≡ key_at self world.now at.now }
    {
        match self {
            Target::Bridge(key) => is_scalar(at).then_some(SettingKey::Bridge(Key::Bridge(key))),
            Target::Port(key) => {
                let port = port_at(world.bridge.ports(), at)?;
                Some(SettingKey::Bridge(Key::Port(port, key)))
            }
            Target::Made => static_index(&world.bridge, at).map(SettingKey::Made),
            Target::FamilyType => world
                .policy
                .vacm()
                .family_at(at)
                .map(SettingKey::FamilyType),
        }
    }
}

/// How the instances of an object are written, by the type of what they take. Each type has a case
/// here, in [`assignment_by`], and in `typed_assignment` of `specs/Writing.antt`.
#[derive(Clone, Copy, Debug, PartialEq, Eq)]
pub enum Writable {
    /// By an INTEGER.
    Integer(IntegerTarget),
    /// By the octets of a set of ports, which the static row of the index gets.
    Ports,
    /// By the octets of a mask, which the family row of the index gets.
    Mask,
}

/// Which setting an INTEGER writes, and which INTEGERs are taken: from the least to the most those
/// that are multiples of the step, which is above 0.
#[derive(Clone, Copy, Debug, PartialEq, Eq)]
pub struct IntegerTarget {
    /// The setting.
    pub target: Target,
    /// The least that it takes.
    pub least: u32,
    /// The most that it takes.
    pub most: u32,
    /// Each that it takes is a multiple of this.
    pub step: u32,
}

impl IntegerTarget {
    // Whether the object takes this number.
    fn takes(self, number: u32) -> bool
        requires { 0 < self.step }
        ensures { result ≡ takes self number }
    {
        self.least <= number && number <= self.most && number % self.step == 0
    }

    // What the instance of an index writes for an INTEGER.
    fn integer_assignment(
        self,
        world: &World,
        at: &[u32],
        integer: i32,
    ) -> Result<Assignment, SetFault>
        requires { 0 < self.step }
        ensures { result ≡ integer_assignment self world.now at.now integer }
    {
        if integer < 0 || !self.takes(integer as u32) {
            return Err(SetFault::WrongValue);
        }
        let key = self.target.key_at(world, at).ok_or(SetFault::NoCreation)?;
        let value = SettingValue::Number(self.target.given(integer as u32));
        Ok(Assignment { key, value })
    }
}

// What the instance of an index of a static row's ports writes for octets.
fn ports_assignment(world: &World, at: &[u32], octets: &[u8]) -> Result<Assignment, SetFault>
    ensures { result ≡ ports_assignment world.now at.now octets.now }
{
    if octets.len() > MAX_PORT_OCTETS {
        return Err(SetFault::WrongLength);
    }
    if has_other_port(world.bridge.ports(), octets) {
        return Err(SetFault::WrongValue);
    }
    let index = static_index(&world.bridge, at).ok_or(SetFault::NoCreation)?;
    let key = SettingKey::Allowed(index);
    let value = SettingValue::Ports(PortSet::read(octets));
    Ok(Assignment { key, value })
}

// What the instance of an index of a family row's mask writes for octets.
fn mask_assignment(world: &World, at: &[u32], octets: &[u8]) -> Result<Assignment, SetFault>
    ensures { result ≡ mask_assignment world.now at.now octets.now }
{
    if octets.len() > MAX_MASK {
        return Err(SetFault::WrongLength);
    }
    let row = world
        .policy
        .vacm()
        .family_at(at)
        .ok_or(SetFault::NoCreation)?;
    let key = SettingKey::FamilyMask(row);
    let value = SettingValue::Mask(Mask::of(octets));
    Ok(Assignment { key, value })
}

/// What a variable of an object that is written so writes, or the first fault that neither
/// the limit of static rows nor the object's places decide; an object that is read-only refuses each (RFC 3416, 4.2.5). It takes no
/// memory.
pub fn assignment_by(
    writable: Option<Writable>,
    world: &World,
    at: &[u32],
    value: &Value,
) -> Result<Assignment, SetFault>
    requires step { IfSome writable HasStep }
    ensures { result ≡ assignment_by writable world.now at.now value.now }
{
    match (writable.ok_or(SetFault::NotWritable)?, value) {
        (Writable::Integer(target), Value::Integer(integer)) => {
            target.integer_assignment(world, at, *integer)
        }
        (Writable::Ports, Value::OctetString(octets)) => ports_assignment(
            world,
            at,
            octets.as_slice(),
        ),
        (Writable::Mask, Value::OctetString(octets)) => mask_assignment(
            world,
            at,
            octets.as_slice(),
        ),
        (Writable::Integer(_) | Writable::Ports | Writable::Mask, _) => Err(SetFault::WrongType),
    }
}
