//! What a line works with from turn to turn, and how it records what became of an event.
ghost use Rattle.std.specs.Prelude.{◌≡◌, ◌∷◌, []};
ghost use Rattle.live_sending.specs.Sending.{fault_in};
ghost use Rattle.live_agent.specs.Turns.{item_of, end_after};

use crate::recorder::Recorder;
use crate::trace::{End, Item};
use agent_core::Buffer;
use history_core::Applied;
use wire_core::WireFault;

/// What a line works with: a buffer for what one event gives to send, and what records its items.
#[derive(Drop)]
pub struct LineState<K> {
    pub buffer: Buffer,
    pub recorder: K,
}

/// Records what became of an event, for which there is memory, and says how that ends the line.
pub fn noted<K: Recorder>(
    recorder: &mut K,
    applied: Applied,
    sent: Result<(), WireFault>,
) -> Option<End>
    requires { K.has_space recorder.old }
    ensures recorded { K.went recorder.old (item_of applied ∷ []) recorder.new }
    ensures ends { result ≡ end_after applied (fault_in sent) }
{
    let ends = end_after(&applied, sent);
    recorder.record(item_of(applied));
    ends
}

/// What is left in a trace of an event.
pub fn item_of(applied: Applied) -> Item
    ensures { result ≡ item_of applied }
{
    match applied {
        Applied::Done(receipt, _) => Item::Entered(receipt),
        Applied::Dropped(receipt, _, _) => Item::Entered(receipt),
        Applied::Short(_) => Item::Short,
        Applied::HistoryFull(_) => Item::Full,
    }
}

// How an event ends its line, if it does.
fn end_after(applied: &Applied, sent: Result<(), WireFault>) -> Option<End>
    ensures { result ≡ end_after applied.now (fault_in sent) }
{
    match sent {
        Err(fault) => Some(End::Wire(fault)),
        Ok(()) => match applied {
            Applied::HistoryFull(_) => Some(End::Full),
            _ => None,
        },
    }
}
