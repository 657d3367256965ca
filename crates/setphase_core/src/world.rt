//! What an agent serves.
ghost use Rattle.std.specs.Prelude.{◌≡◌, IfOk};
ghost use Rattle.setphase_core.specs.Flat.{policy_of_rows, AreRowsOfTheirPolicy};
ghost use Rattle.setphase_core.specs.Settings.{type_number};

use crate::flat_world::FlatWorld;
use bridge_core::Bridge;
use community_core::{Policy, PolicyRows};
use setting_keys::{SettingKey, SettingValue};
use std::alloc::{AllocError, Global};

/// A bridge, the policy that says who may see and set what of it, and the counts of requests that
/// were dropped.
pub struct World {
    /// The bridge.
    pub bridge: Bridge,
    /// Who may see and set what.
    pub policy: Policy,
    /// The requests that were dropped since no row has their community, modulo 2^32 (RFC 3418,
    /// snmpInBadCommunityNames).
    pub bad_communities: u32,
    /// The requests that were dropped since their context is not known, modulo 2^32 (RFC 3413,
    /// snmpUnknownContexts).
    pub unknown_contexts: u32,
}

// By hand, so that who lets one go knows nothing of its parts.
impl Drop for World {
    fn drop(self) {
        let World {
            bridge: _bridge,
            policy: _policy,
            bad_communities: _bad_communities,
            unknown_contexts: _unknown_contexts,
        } = self;
    }
}

impl World {
    ghost use Rattle.setphase_core.specs.Settings.{setting, put, HasSetting, IsSettingInRange};
    ghost use Rattle.setphase_core.specs.Objects.{HasSpace};

    /// A copy: the same bridge, policy and counts.
    ///
    /// # Errors
    ///
    /// `AllocError` where there is no memory for the copied learned or static rows, or the copied
    /// policy.
    pub fn try_copy(&self, alloc: Global) -> Result<World, AllocError>
        ensures { IfOk result (λ copy. copy ≡ self.now) }
    {
        let bridge = self.bridge.try_copy()?;
        let policy = self.policy.try_copy(alloc)?;
        Ok(World {
            bridge,
            policy,
            bad_communities: self.bad_communities,
            unknown_contexts: self.unknown_contexts,
        })
    }

    /// A flat copy, to be kept and compared.
    ///
    /// # Errors
    ///
    /// `AllocError` where there is no memory for the learned or static rows, or the policy's rows.
    pub fn flat(&self, alloc: Global) -> Result<FlatWorld, AllocError>
        ensures { IfOk result (λ flat. flat ≡ self.now) }
    {
        let bridge = self.bridge.flat(alloc)?;
        let policy = written_rows(alloc, &self.policy)?;
        Ok(FlatWorld::of(bridge, policy, self.bad_communities, self.unknown_contexts))
    }

    /// The value of a setting that there is.
    pub fn get_setting(&self, key: SettingKey) -> SettingValue
        requires { HasSetting self.now key }
        ensures value { result ≡ setting self.now key }
        ensures in_range { IsSettingInRange self.now key result }
    {
        match key {
            SettingKey::Bridge(key) => SettingValue::Number(self.bridge.get_setting(key)),
            SettingKey::Made(index) => SettingValue::Number(u32::from(self.bridge.is_made(index))),
            SettingKey::Allowed(index) => SettingValue::Ports(self.bridge.allowed(index)),
            SettingKey::FamilyMask(n) => {
                let mask = self.policy.vacm().family_row(n).mask;
                let _short = mask.as_slice();
                SettingValue::Mask(mask)
            }
            SettingKey::FamilyType(n) => {
                SettingValue::Number(type_number(self.policy.vacm().family_row(n).included))
            }
        }
    }

    /// Gives a setting that there is a value in its range, and answers the one before. Nothing else
    /// changes: the bridge is to be settled behind the last of several (`Bridge::settle`). It takes
    /// no memory: where it brings in a static row, a place must be left of those reserved
    /// (`Bridge::reserve_static`). A mask in the place of one with a bit that is 0 takes a walk over
    /// all family rows (`Vacm::put_mask`).
    pub fn put_setting(&mut self, key: SettingKey, value: SettingValue) -> SettingValue
        requires key { HasSetting self.old key }
        requires value { IsSettingInRange self.old key value }
        requires space { HasSpace self.old key value }
        ensures before { result ≡ setting self.old key }
        ensures after { self.new ≡ put self.old key value }
    {
        match (key, value) {
            (SettingKey::Bridge(key), SettingValue::Number(number)) => {
                SettingValue::Number(self.bridge.put_setting(key, number))
            }
            (SettingKey::Made(index), SettingValue::Number(number)) => {
                SettingValue::Number(u32::from(self.bridge.put_made(index, number == 1)))
            }
            (SettingKey::Allowed(index), SettingValue::Ports(ports)) => {
                SettingValue::Ports(self.bridge.put_allowed(index, ports))
            }
            (SettingKey::FamilyMask(n), SettingValue::Mask(mask)) => {
                SettingValue::Mask(self.policy.put_mask(n, mask))
            }
            (SettingKey::FamilyType(n), SettingValue::Number(number)) => {
                SettingValue::Number(type_number(self.policy.put_type(n, number == 1)))
            }
            (
                SettingKey::Bridge(_) | SettingKey::Made(_) | SettingKey::FamilyType(_),
                SettingValue::Ports(_) | SettingValue::Mask(_),
            )
            | (SettingKey::Allowed(_), SettingValue::Number(_) | SettingValue::Mask(_))
            | (SettingKey::FamilyMask(_), SettingValue::Number(_) | SettingValue::Ports(_)) => {
                unreachable!()
            }
        }
    }
}

// The type of a family row (RFC 3415, vacmViewTreeFamilyType): 1 where the view includes the
// family, and 2 where it excludes it.
fn type_number(included: bool) -> u32
    ensures { result ≡ type_number included }
{
    if included { 1 } else { 2 }
}

// The rows of a policy as they are written. They stand for it, and are all that it is written as.
fn written_rows(alloc: Global, policy: &Policy) -> Result<PolicyRows, AllocError>
    ensures policy { IfOk result (λ rows. policy_of_rows rows ≡ policy.now) }
    ensures own { IfOk result AreRowsOfTheirPolicy }
{
    policy.communities_are_right();
    policy.vacm().rows_are_right();
    policy.rows(alloc)
}
