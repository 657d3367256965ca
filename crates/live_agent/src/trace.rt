//! What a line leaves: its trace, and how it ended.
ghost use Rattle.std.specs.Prelude.{◌≡◌};

use frame_core::FrameFault;
use history_core::Receipt;
use message_core::DropCause;
use std::marker::Model;
use wire_core::WireFault;

/// Why a datagram gave no event.
#[derive(Clone, Copy, Debug, PartialEq, Eq)]
pub enum InputFault {
    /// It holds no request (RFC 3416, section 3), or there was no memory for it.
    Datagram(DropCause),
    /// It is no frame that a bridge takes.
    Frame(FrameFault),
}

/// What became of an event, or of a datagram that gave none.
#[derive(Drop)]
pub enum Item {
    /// The datagram gave no event.
    Refused(InputFault),
    /// The event was entered in the history: its receipt.
    Entered(Receipt),
    /// There was no memory for the event.
    Short,
    /// No number was left for the event's entry.
    Full,
}

/// How a line ended.
#[derive(Clone, Copy, Debug, PartialEq, Eq)]
pub enum End {
    /// Its rounds are over.
    Rounds,
    /// Nothing will come any more.
    Closed,
    /// No number is left for an entry.
    Full,
    /// Its wire failed.
    Wire(WireFault),
    /// There was no memory for its trace, or for its port's link.
    Memory,
}

/// What became of the events and the refused datagrams of one line, in order, seen as their list.
pub struct Trace {
    items: Vec<Item>,
}

// By hand: who drops one then knows nothing of its parts.
impl Drop for Trace {
    fn drop(self) {
        let Trace { items: _items } = self;
    }
}

impl Model for Trace {
    ghost use Rattle.std.specs.Prelude.{List};
    ghost use Rattle.live_agent.specs.declared.trace.Item.{Item};

    ghost Value = { List Item };

    ghost view = { λ t. t.items.items };
}

impl Trace {
    /// The items.
    pub fn as_slice(&self) -> &[Item]
        ensures { result.now ≡ self.now }
    {
        self.items.as_slice()
    }
}

/// How one line ended, and what it left.
#[derive(Drop)]
pub struct Ran {
    /// How it ended.
    pub end: End,
    /// What became of its events and its refused datagrams.
    pub trace: Trace,
}

impl Ran {
    /// A line that ended so, and left these items.
    pub fn new(end: End, items: Vec<Item>) -> Ran
        ensures end { result.end ≡ end }
        ensures trace { result.trace ≡ items.items }
    {
        Ran {
            end,
            trace: Trace { items },
        }
    }
}
