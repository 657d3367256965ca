//! One Set over a registry: the slots that it has reserved, and how many of them are committed (RFC
//! 3416, 4.2.5).
ghost use Rattle.std.specs.Prelude.{◌≡◌, ◌+◌, ◌-◌, ◌≤◌, ◌<◌, true, false, [], length, map, slice_get, slice_set, Some, OnOk, OnErr, IfOk, IfErr};
ghost use Rattle.setting_keys.specs.declared.SettingValue.{SettingValue as AnySetting};
ghost use Rattle.setphase_core.specs.declared.world.World.{World as AnyWorld};
ghost use Rattle.setphase_core.specs.Objects.{after_call, object_after_release, object_after_commit, committed_reservation, object_after_failure, HasSpace, HasSpaceBack, IsByPlan};
ghost use Rattle.setphase_core.specs.Settings.{put, setting, IsSettingInRange, IsLine};
ghost use Rattle.setphase_core.specs.declared.object.SetFault.TheVariants.{ResourceUnavailable};
ghost use Rattle.setphase_core.specs.Staging.{object_at, entry_at, assignments_of, IsUnderWay};
ghost use Rattle.setphase_core.specs.Tested.{value_among, standing_by, staged_by, IsPassed, IsFaulty};

use crate::limits::MAX_VARIABLES;
use crate::object::{DeviceFault, MibObject, SetFault, Slot};
use crate::registry::Registry;
use crate::world::World;
use arrayvec::ArrayVec;
use message_core::Binding;
use setting_keys::{SettingKey, SettingValue};
use vacm_core::{FamilyAnswer, Name};

/// Why a variable of a Set is refused by itself.
#[derive(Clone, Copy, Debug, PartialEq, Eq)]
pub enum VariableFault {
    /// Its name is not in the view: by this family row, or by none.
    NoAccess(FamilyAnswer),
    /// Its object refuses it, or no object has it, or the Set has no place for it.
    Refused(SetFault),
}

/// What a variable that passed its tests is to those before it.
#[derive(Clone, Copy, Debug, PartialEq, Eq)]
pub enum Standing {
    /// None of them writes its setting.
    First,
    /// One of them gives its setting the same value.
    Repeats,
    /// One of them gives its setting another value.
    Contradicts,
}

/// What a variable that passed its tests writes.
#[derive(Clone, Copy, Debug, PartialEq, Eq)]
pub struct TestedVariable {
    /// The setting.
    pub key: SettingKey,
    /// What the variable is to those before it.
    pub standing: Standing,
}

/// A slot that is to be committed.
#[derive(Clone, Copy, Debug, Default, PartialEq, Eq)]
pub struct Staged {
    /// The place of its object in the registry.
    pub object: usize,
    /// The slot.
    pub slot: Slot,
    /// The number of its variable, counted from 1.
    pub number: usize,
}

/// A Set that is being made. When it is dropped every reservation is released; what is committed
/// stays committed.
///
/// What its calls need of it beside what they name is one condition, `IsUnderWay`, of a Set and of
/// the world that it is made in: it holds of a new one in every world, each call keeps it, and who
/// calls hands it on. A commit or an undo that brings in a static row needs a place for that too.
///
/// What is staged stands in a list of `PLACES` places, each of which takes time where a Set begins,
/// used or not: `new` gives a place to each variable that a Set may have.
pub struct Staging<'a, O: MibObject, const PLACES: usize> {
    pub(crate) registry: &'a mut Registry<O>,
    pub(crate) staged: ArrayVec<Staged, PLACES>,
    pub(crate) tested: usize,
    pub(crate) committed: usize,
}

/// The value that a setting is to get, where a slot is staged for it.
#[tactic(auto, using(crate::proofs::Equal::key_equal))]
pub(crate) fn value_among(staged: &[Staged], key: SettingKey) -> Option<SettingValue>
    ensures { result ≡ value_among (assignments_of staged.now) key }
{
    let (first, others) = staged.split_first()?;
    if first.slot.key == key {
        Some(first.slot.value)
    } else {
        value_among(others, key)
    }
}

// What a slot is to those that are staged.
#[tactic(auto, using(crate::proofs::Equal::value_equal))]
fn standing_of(staged: &[Staged], slot: &Slot) -> Standing
    ensures { result
        ≡ standing_by (value_among (assignments_of staged.now) slot.now.key) slot.now.value }
{
    match value_among(staged, slot.key) {
        None => Standing::First,
        Some(value) if value == slot.value => Standing::Repeats,
        Some(_) => Standing::Contradicts,
    }
}

impl<'a, O: MibObject> Staging<'a, O, MAX_VARIABLES> {
    /// A Set of which nothing is tested yet. It takes no memory.
    pub fn new(registry: &'a mut Registry<O>) -> Staging<'a, O, MAX_VARIABLES>
        ensures same_reference { result.registry.ghost_name ≡ registry.entry.ghost_name }
        ensures registry { result.registry.now ≡ map object_after_release registry.old }
        ensures staged { result.staged.items ≡ [] }
        ensures tested { result.tested ≡ 0 }
        ensures committed { result.committed ≡ 0 }
        ensures under_way { (w : AnyWorld) → IsUnderWay w result.registry.now result.staged.items
            result.tested result.committed }
    {
        Staging::with_places(registry)
    }
}

impl<'a, O: MibObject, const PLACES: usize> Staging<'a, O, PLACES> {
    /// The same, with so many places for what is staged.
    pub(crate) fn with_places(registry: &'a mut Registry<O>) -> Staging<'a, O, PLACES>
        ensures same_reference { result.registry.ghost_name ≡ registry.entry.ghost_name }
        ensures registry { result.registry.now ≡ map object_after_release registry.old }
        ensures staged { result.staged.items ≡ [] }
        ensures tested { result.tested ≡ 0 }
        ensures committed { result.committed ≡ 0 }
        ensures under_way { (w : AnyWorld) → IsUnderWay w result.registry.now result.staged.items
            result.tested result.committed }
    {
        registry.release();
        Staging {
            registry,
            staged: ArrayVec::new(),
            tested: 0,
            committed: 0,
        }
    }

    /// Tests a variable in a view, behind those that passed before. It takes no memory. A Set of
    /// `MAX_VARIABLES` places always has one for it.
    ///
    /// # Errors
    /// The first fault of the variable. Nothing is staged then, and nothing reserved; but where it
    /// is the want of a place in the Set, the slot that the object reserved stays until this is
    /// dropped.
    pub fn stage(
        &mut self,
        world: &World,
        view: &Name,
        binding: &Binding,
    ) -> Result<TestedVariable, VariableFault>
        requires places { self.old.tested < MAX_VARIABLES → self.old.tested < PLACES }
        requires under_way { IsUnderWay world.now self.old.registry.now self.old.staged.items
            self.old.tested self.old.committed }
        ensures under_way { IsUnderWay world.now self.new.registry.now self.new.staged.items
            self.new.tested self.new.committed }
        ensures same_reference { self.new.registry.ghost_name ≡ self.old.registry.ghost_name }
        ensures committed { self.new.committed ≡ self.old.committed }
        ensures tested { OnOk result (self.new.tested ≡ self.old.tested + 1) }
        ensures passed { IfOk result (λ passed. IsPassed self.old.registry.now
            self.new.registry.now world.now view.now self.old.tested binding.now
            self.old.staged.items self.new.staged.items passed) }
        ensures fault { IfErr result (λ fault. IsFaulty self.old.registry.now world.now view.now
            self.old.tested binding.now fault) }
        ensures unchanged { IfErr result (λ fault.
            (fault ≡ VariableFault.Refused ResourceUnavailable → self.old.tested < MAX_VARIABLES)
            → self.new.registry.now ≡ self.old.registry.now) }
        ensures released { OnErr result
            (map object_after_release self.new.registry.now
            ≡ map object_after_release self.old.registry.now) }
        ensures same_staged { OnErr result (self.new.staged.items ≡ self.old.staged.items) }
        ensures same_tested { OnErr result (self.new.tested ≡ self.old.tested) }
    {
        let _ports = world.bridge.ports();
        world.bridge.known_statics();
        let answer = world.policy.vacm().in_view(view, &binding.name);
        if !answer.is_included() {
            return Err(VariableFault::NoAccess(answer));
        }
        let Some(place) = self.registry.place(binding.name.as_slice()) else {
            return Err(VariableFault::Refused(SetFault::NotWritable));
        };
        match self.registry.test(place, world, binding) {
            Ok(slot) => self.keep(place, slot),
            Err(fault) => Err(VariableFault::Refused(fault)),
        }
    }

    // Keeps the slot of a variable, where the Set has space for it, and stages it where it is the
    // first of its setting.
    fn keep(&mut self, object: usize, slot: Slot) -> Result<TestedVariable, VariableFault>
        requires few { length self.old.staged.items ≤ self.old.tested }
        requires places { self.old.tested < MAX_VARIABLES → self.old.tested < PLACES }
        ensures same_reference { self.new.registry.ghost_name ≡ self.old.registry.ghost_name }
        ensures registry { self.new.registry.now ≡ self.old.registry.now }
        ensures committed { self.new.committed ≡ self.old.committed }
        ensures space { OnOk result (self.old.tested < MAX_VARIABLES) }
        ensures tested { OnOk result (self.new.tested ≡ self.old.tested + 1) }
        ensures standing { IfOk result (λ passed. passed ≡ record {
          key = slot.key;
          standing = standing_by
              (value_among (assignments_of self.old.staged.items) slot.key) slot.value;
        }) }
        ensures staged { IfOk result (λ passed. self.new.staged.items
            ≡ staged_by passed.standing self.old.staged.items
            (record { object = object; slot = slot; number = self.old.tested + 1 })) }
        ensures full { IfErr result (λ fault. (MAX_VARIABLES ≤ self.old.tested)
            × (fault ≡ VariableFault.Refused ResourceUnavailable)) }
        ensures same_staged { OnErr result (self.new.staged.items ≡ self.old.staged.items) }
        ensures same_tested { OnErr result (self.new.tested ≡ self.old.tested) }
    {
        if self.tested >= MAX_VARIABLES {
            return Err(VariableFault::Refused(SetFault::ResourceUnavailable));
        }
        self.tested += 1;
        let standing = standing_of(self.staged.as_slice(), &slot);
        let key = slot.key;
        if standing == Standing::First {
            let number = self.tested;
            self.staged.push(Staged {
                object,
                slot,
                number,
            });
        }
        Ok(TestedVariable { key, standing })
    }

    /// Commits the first slot that is staged and not committed.
    ///
    /// # Errors
    /// The device of its object failed: it stays uncommitted, and no setting changed.
    pub fn commit_next(&mut self, world: &mut World) -> Result<(), DeviceFault>
        requires pending { self.old.committed < length self.old.staged.items }
        requires under_way { IsUnderWay world.old self.old.registry.now self.old.staged.items
            self.old.tested self.old.committed }
        requires space { let e = entry_at self.old.staged.items self.old.committed in
            HasSpace world.old e.slot.key e.slot.value }
        ensures under_way { IsUnderWay world.new self.new.registry.now self.new.staged.items
            self.new.tested self.new.committed }
        ensures same_reference { self.new.registry.ghost_name ≡ self.old.registry.ghost_name }
        ensures staged { self.new.staged.items ≡ self.old.staged.items }
        ensures tested { self.new.tested ≡ self.old.tested }
        ensures committed { OnOk result (self.new.committed ≡ self.old.committed + 1) }
        ensures put { OnOk result (let e = entry_at self.old.staged.items self.old.committed in
            world.new ≡ put world.old e.slot.key e.slot.value) }
        ensures kept { OnOk result (let e = entry_at self.old.staged.items self.old.committed in
            self.new.registry.now ≡ slice_set self.old.registry.now e.object
            (object_after_commit (object_at self.old.registry.now e.object) e.slot
            (setting world.old e.slot.key))) }
        ensures before { OnOk result (let e = entry_at self.old.staged.items self.old.committed in
            IsSettingInRange world.old e.slot.key (setting world.old e.slot.key)) }
        ensures not_committed { OnErr result (self.new.committed ≡ self.old.committed) }
        ensures unchanged { OnErr result (world.new ≡ world.old) }
        ensures failed { OnErr result (let e = entry_at self.old.staged.items self.old.committed in
            self.new.registry.now ≡ slice_set self.old.registry.now e.object
            (object_after_failure (object_at self.old.registry.now e.object))) }
        ensures passes { OnOk result (let e = entry_at self.old.staged.items self.old.committed in
            IsByPlan (object_at self.old.registry.now e.object) false) }
        ensures fails { OnErr result (let e = entry_at self.old.staged.items self.old.committed in
            IsByPlan (object_at self.old.registry.now e.object) true) }
        ensures line { OnErr result
            (IsLine (entry_at self.old.staged.items self.old.committed).slot.key) }
    {
        let entry = self.staged.as_slice()[self.committed];
        self.registry.commit(entry.object, world, entry.slot)?;
        self.committed += 1;
        Ok(())
    }

    /// Undoes the last commit, which counts as committed no more, also where that fails.
    ///
    /// # Errors
    /// The device of its object failed: the setting keeps its new value.
    pub fn undo_last(&mut self, world: &mut World) -> Result<(), DeviceFault>
        requires pending { 0 < self.old.committed }
        requires under_way { IsUnderWay world.old self.old.registry.now self.old.staged.items
            self.old.tested self.old.committed }
        requires space { let e = entry_at self.old.staged.items (self.old.committed - 1) in
            HasSpaceBack world.old (object_at self.old.registry.now e.object) e.slot }
        ensures under_way { IsUnderWay world.new self.new.registry.now self.new.staged.items
            self.new.tested self.new.committed }
        ensures same_reference { self.new.registry.ghost_name ≡ self.old.registry.ghost_name }
        ensures staged { self.new.staged.items ≡ self.old.staged.items }
        ensures tested { self.new.tested ≡ self.old.tested }
        ensures committed { self.new.committed + 1 ≡ self.old.committed }
        ensures put { OnOk result
            (let e = entry_at self.old.staged.items (self.old.committed - 1) in
            (before : AnySetting)
            → slice_get (object_at self.old.registry.now e.object).reserved e.slot.place
            ≡ Some (committed_reservation e.slot before)
            → world.new ≡ put world.old e.slot.key before) }
        ensures kept { OnOk result
            (let e = entry_at self.old.staged.items (self.old.committed - 1) in
            self.new.registry.now ≡ slice_set self.old.registry.now e.object
            (after_call (object_at self.old.registry.now e.object))) }
        ensures unchanged { OnErr result (world.new ≡ world.old) }
        ensures failed { OnErr result
            (let e = entry_at self.old.staged.items (self.old.committed - 1) in
            self.new.registry.now ≡ slice_set self.old.registry.now e.object
            (object_after_failure (object_at self.old.registry.now e.object))) }
        ensures passes { OnOk result
            (let e = entry_at self.old.staged.items (self.old.committed - 1) in
            IsByPlan (object_at self.old.registry.now e.object) false) }
        ensures fails { OnErr result
            (let e = entry_at self.old.staged.items (self.old.committed - 1) in
            IsByPlan (object_at self.old.registry.now e.object) true) }
        ensures line { OnErr result
            (IsLine (entry_at self.old.staged.items (self.old.committed - 1)).slot.key) }
    {
        self.committed -= 1;
        let entry = self.staged.as_slice()[self.committed];
        self.registry.undo(entry.object, world, entry.slot)
    }
}

impl<O: MibObject, const PLACES: usize> Drop for Staging<'_, O, PLACES> {
    fn drop(self)
        ensures { self.exit.0.now ≡ map object_after_release self.entry.registry.now }
    {
        let Staging {
            registry,
            staged: _,
            tested: _,
            committed: _,
        } = self;
        registry.release();
    }
}
