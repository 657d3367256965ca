//! A history under a lock, and the events that any thread has happen in it.
ghost use Rattle.std.specs.Prelude.{◌≡◌, ◌+◌, ◌<◌, ◌≤◌, List, [], length};
ghost use mathlib.Core.List.{IsPrefix};
ghost use Rattle.history_core.specs.declared.entry.Entry.{Entry};
ghost use Rattle.live_lock.specs.Whole.{StandsIn, IsLegalFrom, IsWhole, world_after};
ghost use Rattle.message_core.specs.Encodable.{AreEncodable};
ghost use Rattle.history_core.specs.History.{IsHistory};
ghost use Rattle.history_core.specs.Steps.{IsEncodable};
ghost use Rattle.history_core.specs.declared.event.Event.TheVariants as event;
ghost use Rattle.live_lock.specs.Counting.{IsCounted};
ghost use Rattle.live_lock.specs.Rising.{Rises};
ghost use Rattle.live_lock.specs.Sharing.{entry_count, IsHeld, TakesPlace, IsReportedOf};

use crate::held::{Counts, Held};
use crate::run::Run;
use crate::share::Share;
use agent_core::Buffer;
use community_core::Policy;
use frame_core::FrameIn;
use history_core::{Applied, Duplicate, Entry, Event, Kept};
use message_core::Request;
use rising::{Blank, BlankLog};
use setphase_core::MibObject;
use std::alloc::Global;
use std::hint::spin_loop;
use std::sync::{Mutex, MutexGuard, Wait, ledger};
use std::thread::yield_now;

// How often a thread tests whether the lock is free, before it sleeps until it is; and after how many
// tests it lets others run between two of them.
const MOST_ATTEMPTS: u32 = 320;

const ATTEMPTS_ALONE: u32 = 256;

/// A history under one lock. Each call of an event holds the lock once: the event takes its place in
/// the history, and by shared reference any number of threads may call. Whenever the lock is free
/// the history is legal, and no object has anything reserved.
#[derive(Drop)]
pub struct Live<O: MibObject, L: Run> {
    held: Mutex<Held<O, L>>,
}

impl<O: MibObject, L: Run> Live<O, L> {
    /// Puts a history under a lock. The share is that of one thread, and has all parts: threads get
    /// theirs by `split_off`. It counts nothing, and knows of no entry.
    pub fn new(
        kept: Kept<O>,
        blank: ledger::Blank,
        number: Blank,
        moved: Blank,
        log: BlankLog<Entry>,
    ) -> (Live<O, L>, Share<L>)
        requires name { blank.name ≡ L.name }
        requires parts { blank.parts ≡ L.parts }
        requires number { number.name ≡ L.rise }
        requires moved { moved.name ≡ L.base_rise }
        requires log_name { log.name ≡ L.log_name }
        requires start { kept ≡ L.start }
        ensures parts { result.1.parts ≡ L.parts }
        ensures amount { result.1.amount ≡ 0 }
        ensures known { (result.1.known ≡ 0) × (result.1.older ≡ 0) }
        ensures front { result.1.front ≡ [] }
    {
        let (held, share) = Held::new(kept, blank, number, moved, log);
        let live = Live {
            held: Mutex::new(held),
        };
        (live, share)
    }

    /// A frame comes in by a port (IEEE 802.1D-2004, 7.1). The buffer holds what the ports send.
    pub fn frame<R: Wait>(
        &self,
        rt: &R,
        alloc: Global,
        share: &mut Share<L>,
        port: u16,
        frame: FrameIn,
        buffer: &mut Buffer,
    ) -> Applied
        requires { 0 < share.old.parts }
        ensures place { TakesPlace L.start share.old.amount (event.Frame port frame) result buffer.new }
        ensures stands { StandsIn L.start share.new.front (event.Frame port frame) result buffer.new }
        ensures legal { IsLegalFrom L.start share.new.front }
        ensures seen { IsPrefix share.old.front share.new.front }
        ensures reported { IsReportedOf (event.Frame port frame) result buffer.new }
        ensures rises { Rises L.start share.old.known result share.new.known }
        ensures older { share.old.older ≤ share.new.older }
        ensures amount { share.new.amount ≡ share.old.amount + entry_count result }
        ensures parts { share.new.parts ≡ share.old.parts }
    {
        self.apply(rt, alloc, share, Event::Frame { port, frame }, buffer)
    }

    /// A second passes. The buffer holds what the ports send.
    pub fn tick<R: Wait>(
        &self,
        rt: &R,
        alloc: Global,
        share: &mut Share<L>,
        buffer: &mut Buffer,
    ) -> Applied
        requires { 0 < share.old.parts }
        ensures place { TakesPlace L.start share.old.amount event.Tick result buffer.new }
        ensures stands { StandsIn L.start share.new.front event.Tick result buffer.new }
        ensures legal { IsLegalFrom L.start share.new.front }
        ensures seen { IsPrefix share.old.front share.new.front }
        ensures reported { IsReportedOf event.Tick result buffer.new }
        ensures rises { Rises L.start share.old.known result share.new.known }
        ensures older { share.old.older ≤ share.new.older }
        ensures amount { share.new.amount ≡ share.old.amount + entry_count result }
        ensures parts { share.new.parts ≡ share.old.parts }
    {
        self.apply(rt, alloc, share, Event::Tick, buffer)
    }

    /// The link of a port goes up, or down. The buffer holds what the ports send.
    pub fn link<R: Wait>(
        &self,
        rt: &R,
        alloc: Global,
        share: &mut Share<L>,
        port: u16,
        up: bool,
        buffer: &mut Buffer,
    ) -> Applied
        requires { 0 < share.old.parts }
        ensures place { TakesPlace L.start share.old.amount (event.Link port up) result buffer.new }
        ensures stands { StandsIn L.start share.new.front (event.Link port up) result buffer.new }
        ensures legal { IsLegalFrom L.start share.new.front }
        ensures seen { IsPrefix share.old.front share.new.front }
        ensures reported { IsReportedOf (event.Link port up) result buffer.new }
        ensures rises { Rises L.start share.old.known result share.new.known }
        ensures older { share.old.older ≤ share.new.older }
        ensures amount { share.new.amount ≡ share.old.amount + entry_count result }
        ensures parts { share.new.parts ≡ share.old.parts }
    {
        self.apply(rt, alloc, share, Event::Link { port, up }, buffer)
    }

    /// A policy comes into force in place of the one that was there.
    pub fn policy<R: Wait>(
        &self,
        rt: &R,
        alloc: Global,
        share: &mut Share<L>,
        policy: Policy,
        buffer: &mut Buffer,
    ) -> Applied
        requires { 0 < share.old.parts }
        ensures place { TakesPlace L.start share.old.amount (event.Policy policy) result buffer.new }
        ensures stands { StandsIn L.start share.new.front (event.Policy policy) result buffer.new }
        ensures legal { IsLegalFrom L.start share.new.front }
        ensures seen { IsPrefix share.old.front share.new.front }
        ensures reported { IsReportedOf (event.Policy policy) result buffer.new }
        ensures rises { Rises L.start share.old.known result share.new.known }
        ensures older { share.old.older ≤ share.new.older }
        ensures amount { share.new.amount ≡ share.old.amount + entry_count result }
        ensures parts { share.new.parts ≡ share.old.parts }
    {
        self.apply(rt, alloc, share, Event::Policy(policy), buffer)
    }

    /// A request comes (RFC 3416, 4.2). The buffer holds its reply, and what the ports send after a
    /// Set. The caller hands in requests whose names and OBJECT IDENTIFIER values have an encoding,
    /// as `decode` gives them.
    pub fn request<R: Wait>(
        &self,
        rt: &R,
        alloc: Global,
        share: &mut Share<L>,
        request: Request,
        buffer: &mut Buffer,
    ) -> Applied
        requires part { 0 < share.old.parts }
        requires encodable { AreEncodable request.bindings }
        ensures place { TakesPlace L.start share.old.amount (event.Request request) result buffer.new }
        ensures stands { StandsIn L.start share.new.front (event.Request request) result buffer.new }
        ensures legal { IsLegalFrom L.start share.new.front }
        ensures seen { IsPrefix share.old.front share.new.front }
        ensures reported { IsReportedOf (event.Request request) result buffer.new }
        ensures rises { Rises L.start share.old.known result share.new.known }
        ensures older { share.old.older ≤ share.new.older }
        ensures amount { share.new.amount ≡ share.old.amount + entry_count result }
        ensures parts { share.new.parts ≡ share.old.parts }
    {
        self.apply(rt, alloc, share, Event::Request(request), buffer)
    }

    // The history, once the lock is free. An event takes a few microseconds, and a thread that sleeps
    // takes longer to be woken; so it tests for a while first, and then lets others run between two
    // tests, since one that has the lock may wait for a processor.
    fn locked<R: Wait>(&self, rt: &R) -> MutexGuard<'_, Held<O, L>> {
        for attempt in 0..MOST_ATTEMPTS {
            if let Some(guard) = self.held.try_lock() {
                return guard;
            }
            if attempt < ATTEMPTS_ALONE {
                spin_loop();
            } else {
                yield_now();
            }
        }
        self.held.lock(rt)
    }

    // One event takes its place, under the lock. Its duplicate, for its entry or its receipt, is made
    // before.
    fn apply<R: Wait>(
        &self,
        rt: &R,
        alloc: Global,
        share: &mut Share<L>,
        event: Event,
        buffer: &mut Buffer,
    ) -> Applied
        requires part { 0 < share.old.parts }
        requires encodable { IsEncodable event }
        ensures place { TakesPlace L.start share.old.amount event result buffer.new }
        ensures stands { StandsIn L.start share.new.front event result buffer.new }
        ensures legal { IsLegalFrom L.start share.new.front }
        ensures seen { IsPrefix share.old.front share.new.front }
        ensures reported { IsReportedOf event result buffer.new }
        ensures rises { Rises L.start share.old.known result share.new.known }
        ensures older { share.old.older ≤ share.new.older }
        ensures amount { share.new.amount ≡ share.old.amount + entry_count result }
        ensures parts { share.new.parts ≡ share.old.parts }
    {
        let duplicate = Duplicate::of(alloc, &event);
        self.locked(rt)
            .apply(alloc, share, event, duplicate, buffer)
    }

    /// How far the history was past its start at some time, and what its world counted then: by no
    /// fewer entries than the caller had made before the call, and no less than it knew before. It
    /// then knows that.
    pub fn counts<R: Wait>(&self, rt: &R, share: &mut Share<L>) -> Counts
        ensures counted { IsCounted L.start share.old.amount result }
        ensures exact { result.entries ≡ length share.new.front }
        ensures bad_communities { result.bad_communities
            ≡ (world_after L.start share.new.front).bad_communities }
        ensures unknown_contexts { result.unknown_contexts
            ≡ (world_after L.start share.new.front).unknown_contexts }
        ensures legal { IsLegalFrom L.start share.new.front }
        ensures seen { IsPrefix share.old.front share.new.front }
        ensures rises { (share.old.known ≤ result.entries) × (share.old.older ≤ result.older) }
        ensures known { (share.new.known ≡ result.entries) × (share.new.older ≡ result.older) }
        ensures amount { share.new.amount ≡ share.old.amount }
        ensures parts { share.new.parts ≡ share.old.parts }
    {
        self.locked(rt).counts(share)
    }

    /// Takes the history out, which went on from its start by as many entries as the share of all
    /// parts counts.
    pub fn close(self, share: Share<L>) -> Kept<O>
        requires { share.parts ≡ L.parts }
        ensures held { IsHeld L.start result share.amount }
        ensures legal { IsHistory result }
        ensures whole { (log : List Entry) × IsPrefix share.front log × IsWhole L.start log result }
    {
        let Live { held } = self;
        held.into_inner().into_kept(share)
    }
}
