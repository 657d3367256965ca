//! What lies under the lock: the history, the log of all its entries since the start, the book of them, and
//! how many they are.
ghost use Rattle.std.specs.Prelude.{◌≡◌, ◌+◌, ◌<◌, ◌≤◌, List, [], length, IfOk, OnErr};
ghost use Rattle.history_core.specs.Encoded.{IsDuplicateOf};
ghost use Rattle.history_core.specs.History.{IsHistory};
ghost use Rattle.history_core.specs.Receipts.{reported_of, TakesMemory};
ghost use Rattle.history_core.specs.Steps.{IsEncodable};
ghost use Rattle.live_lock.specs.Sharing.{entry_count, IsHeld, TakesPlace, IsReportedOf};
ghost use Rattle.live_lock.specs.Counting.{IsCounted};
ghost use Rattle.live_lock.specs.Rising.{Rises};
ghost use Rattle.live_lock.specs.Whole.{StandsIn, IsLegalFrom, IsWhole, world_after};
ghost use mathlib.Core.List.{IsPrefix};
ghost use Rattle.history_core.specs.declared.entry.Entry.{Entry};

use crate::run::{Base, Run};
use crate::share::Share;
use agent_core::Buffer;
use history_core::{Applied, Duplicate, Entry, Event, Kept};
use rising::{Blank, BlankLog, Latest, Log};
use setphase_core::MibObject;
use std::alloc::{AllocError, Global};
use std::marker::Model;
use std::sync::ledger;
use std::sync::ledger::Book;

/// How far a history is past its start, and what its world counts.
#[derive(Clone, Copy, Debug, PartialEq, Eq, Drop)]
pub struct Counts {
    /// The entries that were made since the start.
    pub entries: u64,
    /// The entries by which the base has moved since the start.
    pub older: u64,
    /// The requests that were dropped since no row has their community, modulo 2^32 (RFC 3418,
    /// snmpInBadCommunityNames).
    pub bad_communities: u32,
    /// The requests that were dropped since their context is not known, modulo 2^32 (RFC 3413,
    /// snmpUnknownContexts).
    pub unknown_contexts: u32,
}

/// A history, with the log and the book of what was entered since the start. It is seen as the history and
/// the count.
pub struct Held<O: MibObject, L: Run> {
    kept: Kept<O>,
    next_at_start: u64,
    base_at_start: u64,
    book: Book<L>,
    latest: Latest<L>,
    base: Latest<Base<L>>,
    log: Log<Entry, L>,
}

// By hand: who drops one then knows nothing of its parts.
impl<O: MibObject, L: Run> Drop for Held<O, L> {
    fn drop(self) {
        let Held {
            kept: _kept,
            next_at_start: _next_at_start,
            base_at_start: _base_at_start,
            book: _book,
            latest: _latest,
            base: _base,
            log: _log,
        } = self;
    }
}

impl<O: MibObject, L: Run> Model for Held<O, L> {
    ghost use Rattle.std.specs.Prelude.{◌≡◌, ℕ, ◌+◌};
    ghost use Rattle.history_core.specs.History.{History, next_of};
    ghost use Rattle.live_lock.specs.Sharing.{IsHeld};
    ghost use Rattle.live_lock.specs.Whole.{IsWhole};

    ghost Value = { History × ℕ };

    ghost view = { λ h. (h.kept, h.book.total) };

    ghost invariant = { λ h. IsHeld L.start h.kept h.book.total
        × (h.next_at_start ≡ next_of L.start)
        × (h.base_at_start ≡ L.start.base_number)
        × (h.latest.number ≡ h.book.total)
        × (h.kept.base_number ≡ L.start.base_number + h.base.number)
        × IsWhole L.start h.log.log h.kept };
}

impl<O: MibObject, L: Run> Held<O, L> {
    /// A history at its start, in which nothing is entered yet, and the share with all parts.
    pub fn new(
        kept: Kept<O>,
        blank: ledger::Blank,
        number: Blank,
        moved: Blank,
        log: BlankLog<Entry>,
    ) -> (Held<O, L>, Share<L>)
        requires name { blank.name ≡ L.name }
        requires parts { blank.parts ≡ L.parts }
        requires number { number.name ≡ L.rise }
        requires moved { moved.name ≡ L.base_rise }
        requires log_name { log.name ≡ L.log_name }
        requires start { kept ≡ L.start }
        ensures parts { result.1.parts ≡ L.parts }
        ensures amount { result.1.amount ≡ 0 }
        ensures known { (result.1.known ≡ 0) × (result.1.older ≡ 0) }
        ensures front { result.1.front ≡ [] }
    {
        kept.legal();
        let (log, front) = log.open::<L>();
        let (book, made) = blank.open::<L>();
        let (latest, reached) = number.open::<L>();
        let (base, moved) = moved.open::<Base<L>>();
        let next_at_start = kept.next_number();
        let base_at_start = kept.base_number();
        let held = Held {
            kept,
            next_at_start,
            base_at_start,
            book,
            latest,
            base,
            log,
        };
        (held, Share::new(made, reached, moved, front))
    }

    /// One event happens, and its entry is noted in the log, and counted. Its duplicate was made before. The
    /// share then knows of all entries, and has seen them.
    pub fn apply(
        &mut self,
        alloc: Global,
        share: &mut Share<L>,
        event: Event,
        duplicate: Result<Duplicate, AllocError>,
        buffer: &mut Buffer,
    ) -> Applied
        requires part { 0 < share.old.parts }
        requires encodable { IsEncodable event }
        requires duplicate { IfOk duplicate (λ d. IsDuplicateOf event d) }
        requires takes { OnErr duplicate (TakesMemory (reported_of event)) }
        ensures place { TakesPlace L.start share.old.amount event result buffer.new }
        ensures stands { StandsIn L.start share.new.front event result buffer.new }
        ensures legal { IsLegalFrom L.start share.new.front }
        ensures seen { IsPrefix share.old.front share.new.front }
        ensures reported { IsReportedOf event result buffer.new }
        ensures rises { Rises L.start share.old.known result share.new.known }
        ensures older { share.old.older ≤ share.new.older }
        ensures amount { share.new.amount ≡ share.old.amount + entry_count result }
        ensures parts { share.new.parts ≡ share.old.parts }
    {
        let Held {
            kept,
            book,
            latest,
            base,
            log,
            ..
        } = self;
        kept.legal();
        let base_before = kept.base_number();
        let applied = kept.apply_duplicated(alloc, event, duplicate, buffer);
        let base_after = kept.base_number();
        share.note(kept, log, &applied);
        share.enter(
            book,
            latest,
            base,
            entries_of(&applied),
            base_after - base_before,
        );
        applied
    }

    /// How far the history is past its start, and what its world counts: at least by the entries that
    /// the share counts, and by those that it knew of. It then knows of all.
    pub fn counts(&mut self, share: &mut Share<L>) -> Counts
        ensures counted { IsCounted L.start share.old.amount result }
        ensures exact { result.entries ≡ length share.new.front }
        ensures bad_communities { result.bad_communities
            ≡ (world_after L.start share.new.front).bad_communities }
        ensures unknown_contexts { result.unknown_contexts
            ≡ (world_after L.start share.new.front).unknown_contexts }
        ensures legal { IsLegalFrom L.start share.new.front }
        ensures seen { IsPrefix share.old.front share.new.front }
        ensures rises { (share.old.known ≤ result.entries) × (share.old.older ≤ result.older) }
        ensures known { (share.new.known ≡ result.entries) × (share.new.older ≡ result.older) }
        ensures amount { share.new.amount ≡ share.old.amount }
        ensures parts { share.new.parts ≡ share.old.parts }
    {
        let Held {
            kept,
            next_at_start,
            base_at_start,
            book,
            latest,
            base,
            log,
        } = self;
        kept.legal();
        share.observe(book, latest, base, log);
        let world = kept.world();
        Counts {
            entries: kept.next_number() - *next_at_start,
            older: kept.base_number() - *base_at_start,
            bad_communities: world.bad_communities,
            unknown_contexts: world.unknown_contexts,
        }
    }

    /// The history, which went on from the start by as many entries as the share of all parts counts.
    pub fn into_kept(self, share: Share<L>) -> Kept<O>
        requires { share.parts ≡ L.parts }
        ensures held { IsHeld L.start result share.amount }
        ensures legal { IsHistory result }
        ensures whole { (log : List Entry) × IsPrefix share.front log × IsWhole L.start log result }
    {
        let mut share = share;
        let Held {
            kept,
            next_at_start: _,
            base_at_start: _,
            mut book,
            mut latest,
            mut base,
            mut log,
        } = self;
        share.observe(&mut book, &mut latest, &mut base, &mut log);
        kept.legal();
        kept
    }
}

// How many entries an event made.
fn entries_of(applied: &Applied) -> u64
    ensures { result ≡ entry_count applied.now }
{
    match applied {
        Applied::Done(..) | Applied::Dropped(..) => 1,
        Applied::Short(_) | Applied::HistoryFull(_) => 0,
    }
}
