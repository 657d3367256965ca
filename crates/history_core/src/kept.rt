//! What is kept of a history: its base, its entries, and the world as it is.
ghost use Rattle.std.specs.Prelude.{◌≡◌, ◌<◌, None, Ok, length, IfOk, IfErr, ◌⊎◌, OnErr, IsErr};
ghost use Rattle.history_core.specs.Keeping.{due_base, world_in, entry_of, receipt_of, Enters, applied_by};

use crate::applied::Applied;
use crate::comparing::{Mismatch, Tally, compare};
use crate::duplicate::Duplicate;
use crate::entries::Entries;
use crate::entry::Entry;
use crate::event::{Event, ReceiptEvent};
use crate::happening::{EventOutcome, cause_in, happen, put_failure, quiet};
use crate::kept_event::{KeptEvent, parted};
use crate::limits::MAX_ENTRIES;
use crate::receipt::Receipt;
use agent_core::Buffer;
use audit_core::Audit;
use setphase_core::{FlatWorld, MibObject, Registry, World};
use std::alloc::{AllocError, Global};
use std::marker::Model;

/// A world, the objects that show it, and what is kept of its history, seen as one record: each kept
/// entry is one event, and its reply, audit and ports are those of the step of that event at its
/// place. No object has anything reserved.
pub struct Kept<O: MibObject> {
    first: u64,
    base_number: u64,
    // Boxed, so that an event at which the base does not move moves no memory for one.
    base: Box<FlatWorld>,
    entries: Entries,
    world: World,
    registry: Registry<O>,
}

// By hand: who drops one then knows nothing of its parts.
impl<O: MibObject> Drop for Kept<O> {
    fn drop(self) {
        let Kept {
            first: _first,
            base_number: _base_number,
            base: _base,
            entries: _entries,
            world: _world,
            registry: _registry,
        } = self;
    }
}

impl<O: MibObject> Model for Kept<O> {
    ghost use Rattle.history_core.specs.History.{History, IsHistory};

    ghost Value = { History };

    ghost view = { λ k. record {
      first = k.first;
      base_number = k.base_number;
      base = k.base.value;
      entries = k.entries;
      world = k.world;
      objects = k.registry;
    } };

    ghost invariant = { λ k. IsHistory (record {
      first = k.first;
      base_number = k.base_number;
      base = k.base.value;
      entries = k.entries;
      world = k.world;
      objects = k.registry;
    }) };
}

// What is ready before an event happens.
#[derive(Drop)]
struct Ready {
    duplicate: Duplicate,
    base: Option<Box<FlatWorld>>,
}

impl<O: MibObject> Kept<O> {
    ghost use Rattle.history_core.specs.Steps.{IsEncodable};
    ghost use Rattle.history_core.specs.Receipts.{reported_of, TakesMemory};
    ghost use Rattle.history_core.specs.Encoded.{IsDuplicateOf};
    ghost use Rattle.std.specs.Prelude.{MatchResult};
    ghost use Rattle.history_core.specs.Comparing.{IsTallied, BreaksFirst};
    ghost use Rattle.history_core.specs.History.{IsHistory, Applies, fresh, history_after_arm, next_of};

    /// The history of this world and these objects, in which nothing has happened and the first
    /// entry is to have the number 0. Every object is released.
    ///
    /// # Errors
    ///
    /// `AllocError` where there is no memory for a flat copy of the world, or for that of
    /// [`MAX_ENTRIES`] entries, twice; the objects and the world come back.
    pub fn new(
        alloc: Global,
        registry: Registry<O>,
        world: World,
    ) -> Result<Kept<O>, (AllocError, Registry<O>, World)>
        ensures kept { IfOk result (λ kept. kept ≡ fresh registry world 0) }
        ensures back { IfErr result (λ e. (e.1 ≡ registry) × (e.2 ≡ world)) }
    {
        Kept::resume(alloc, registry, world, 0)
    }

    /// The same, where the first entry is to have this number.
    ///
    /// # Errors
    ///
    /// As of [`Kept::new`].
    pub fn resume(
        alloc: Global,
        mut registry: Registry<O>,
        world: World,
        first: u64,
    ) -> Result<Kept<O>, (AllocError, Registry<O>, World)>
        ensures kept { IfOk result (λ kept. kept ≡ fresh registry world first) }
        ensures back { IfErr result (λ e. (e.1 ≡ registry) × (e.2 ≡ world)) }
    {
        let Ok(base) = flat_copy(alloc, &world) else {
            return Err((AllocError, registry, world));
        };
        let Ok(entries) = Entries::reserved(alloc) else {
            return Err((AllocError, registry, world));
        };
        registry.release();
        Ok(Kept {
            first,
            base_number: first,
            base,
            entries,
            world,
            registry,
        })
    }

    /// The number of the first entry that is kept, or that is to be made where none was.
    pub fn base_number(&self) -> u64
        ensures { result ≡ self.now.base_number }
    {
        self.base_number
    }

    /// The number of the next entry.
    pub fn next_number(&self) -> u64
        ensures { result ≡ next_of self.now }
    {
        self.base_number + self.entries.len() as u64
    }

    /// The entries that are kept, from the base number on.
    pub fn entries(&self) -> &[Entry]
        ensures { result.now ≡ self.now.entries }
    {
        self.entries.as_slice()
    }

    /// The world before the first entry that is kept.
    pub fn base(&self) -> &FlatWorld
        ensures { result.now ≡ self.now.base }
    {
        &self.base
    }

    /// The world as it is.
    pub fn world(&self) -> &World
        ensures { result.now ≡ self.now.world }
    {
        &self.world
    }

    /// Whether receipts, by rising number, agree with the entries that are kept. Takes no memory.
    ///
    /// # Errors
    ///
    /// As of [`crate::compare`].
    pub fn compare(&self, receipts: &[Receipt]) -> Result<Tally, Mismatch>
        ensures { MatchResult result
            (IsTallied self.now.base_number self.now.entries receipts.now)
            (BreaksFirst self.now.base_number self.now.entries receipts.now) }
    {
        compare(self.base_number, self.entries.as_slice(), receipts)
    }

    /// Hands on that the history is legal: replaying its entries from its base gives the world as it
    /// is. It does nothing.
    pub fn legal(&self)
        ensures { IsHistory self.now }
    {
        let _ = &self.first;
    }

    /// Arms the objects' devices with a plan, each with all of it ([`MibObject::arm`]). Nothing
    /// else changes. It takes no memory.
    pub fn arm(&mut self, plan: u64)
        ensures { self.new ≡ history_after_arm plan self.old }
    {
        self.registry.arm(plan);
    }

    // All that an event asks for beside its own growths: what stands for it a second time, and a
    // flat copy of the world where the base is to move.
    #[inline(always)]
    fn prepare(
        &self,
        alloc: Global,
        duplicate: Result<Duplicate, AllocError>,
    ) -> Result<Ready, AllocError>
        ensures duplicate { IfOk result (λ ready. duplicate ≡ Ok ready.duplicate) }
        ensures base { IfOk result (λ ready. world_in ready.base ≡ due_base self.now) }
        ensures takes { OnErr result
            ((length self.now.entries ≡ MAX_ENTRIES) ⊎ IsErr duplicate) }
    {
        let duplicate = duplicate?;
        let base = if self.entries.len() == MAX_ENTRIES {
            Some(flat_copy(alloc, &self.world)?)
        } else {
            None
        };
        Ok(Ready { duplicate, base })
    }

    /// One event happens, and is entered: one entry more, at the next number. The buffer holds the
    /// reply in its minimal encoding, and what the ports send. Where [`MAX_ENTRIES`] entries are
    /// kept, the base moves to the present world first.
    ///
    /// The caller hands in requests whose names and OBJECT IDENTIFIER values have an encoding, as
    /// `decode` gives them. Nothing is entered where no number is left, which is tested first, and
    /// where memory was wanting, of a policy, a request or the copy of the world that is to be the
    /// base: then all is as before, the event comes back, and the buffer holds nothing but what
    /// answers a request that is not dropped and found no memory.
    pub fn apply(&mut self, alloc: Global, event: Event, buffer: &mut Buffer) -> Applied
        requires { IsEncodable event }
        ensures { Applies self.old event result self.new buffer.new }
    {
        let duplicate = Duplicate::of(alloc, &event);
        self.apply_duplicated(alloc, event, duplicate, buffer)
    }

    /// The same, of an event whose duplicate was made before ([`Duplicate::of`]), so that no memory
    /// for it is taken under a lock.
    #[inline(always)]
    pub fn apply_duplicated(
        &mut self,
        alloc: Global,
        event: Event,
        duplicate: Result<Duplicate, AllocError>,
        buffer: &mut Buffer,
    ) -> Applied
        requires encodable { IsEncodable event }
        requires duplicate { IfOk duplicate (λ d. IsDuplicateOf event d) }
        requires takes { OnErr duplicate (TakesMemory (reported_of event)) }
        ensures { Applies self.old event result self.new buffer.new }
    {
        let mut happened = quiet();
        buffer.clear();
        let number = self.next_number();
        if number == u64::MAX {
            return Applied::HistoryFull(event);
        }
        let Ok(ready) = self.prepare(alloc, duplicate) else {
            put_failure(&self.world, &event, buffer);
            return Applied::Short(event);
        };
        let Kept {
            registry,
            world,
            ..
        } = self;
        let Ok(()) = happen(alloc, registry, world, &event, buffer, &mut happened) else {
            put_failure(world, &event, buffer);
            return Applied::Short(event);
        };
        let Ready { duplicate, base } = ready;
        let (kept_event, reported) = parted(event, duplicate);
        let Made {
            entry,
            receipt,
            audit,
        } = made_of(number, kept_event, reported, happened);
        let Kept {
            entries,
            base: old_base,
            base_number,
            ..
        } = self;
        enter(entries, old_base, base_number, base, number, entry);
        applied(receipt, audit)
    }
}

// A flat copy of a world.
fn flat_copy(alloc: Global, world: &World) -> Result<Box<FlatWorld>, AllocError>
    ensures { IfOk result (λ copy. copy.value ≡ world.now) }
{
    let copy = world.flat(alloc)?;
    Ok(Box::new(alloc, copy)?)
}

// What is made of an event that happened: its entry, its receipt, and the audit that is reported.
#[derive(Drop)]
struct Made {
    entry: Entry,
    receipt: Receipt,
    audit: Option<Audit>,
}

// What is made of an event of this outcome, under this number.
fn made_of(number: u64, event: KeptEvent, reported: ReceiptEvent, happened: EventOutcome) -> Made
    ensures entry { result.entry ≡ entry_of event happened }
    ensures receipt { result.receipt ≡ receipt_of number reported happened }
    ensures audit { result.audit ≡ happened.reported_audit }
{
    let EventOutcome {
        no_room,
        failed,
        unnamed,
        egress,
        reply,
        reported_reply,
        audit,
        reported_audit,
    } = happened;
    let receipt = Receipt {
        number,
        event: reported,
        egress: egress.copy(),
        reply: reported_reply,
    };
    let entry = Entry {
        event,
        no_room,
        failed,
        unnamed,
        egress,
        reply,
        audit,
    };
    Made {
        entry,
        receipt,
        audit: reported_audit,
    }
}

// Enters an entry: where there is a new base, it takes the place of the old one and all entries.
fn enter(
    entries: &mut Entries,
    base: &mut Box<FlatWorld>,
    base_number: &mut u64,
    new: Option<Box<FlatWorld>>,
    number: u64,
    entry: Entry,
)
    requires { world_in new ≡ None → length entries.old < MAX_ENTRIES }
    ensures { Enters (world_in new) number entries.old base.old.value base_number.old
        entry entries.new base.new.value base_number.new }
{
    if let Some(new) = new {
        *base = new;
        *base_number = number;
        entries.clear();
    }
    entries.push(entry);
}

// What is reported of an event that was entered.
fn applied(receipt: Receipt, audit: Option<Audit>) -> Applied
    ensures { result ≡ applied_by receipt audit }
{
    let Some(audit) = audit else {
        return Applied::Done(receipt, None);
    };
    match cause_in(&audit.decision) {
        Some(cause) => Applied::Dropped(receipt, cause, audit),
        None => Applied::Done(receipt, Some(audit)),
    }
}
