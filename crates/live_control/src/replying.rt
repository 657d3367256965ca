//! Answers over the control wire, and how they end the line.
ghost use Rattle.std.specs.Prelude.{◌≡◌, None, [], IsSome, IfOk, OnErr};
ghost use Rattle.live_sending.specs.Sending.{fault_in};
ghost use Rattle.live_control.specs.Answers.{answer_by};
ghost use Rattle.live_control.specs.Turns.{deeds_by, item_of, end_by_reply, end_after};

use crate::control_wire::ControlWire;
use crate::item::ControlItem;
use control_text::say_bpdus;
use frame_core::{Bpdu, Mac};
use history_core::Applied;
use live_agent::End;
use std::alloc::{AllocError, Global};
use std::net::SocketAddr;
use wire_core::WireFault;

/// Sends an answer, where there was memory to make it.
pub fn send_text<W: ControlWire>(
    wire: &mut W,
    peer: SocketAddr,
    text: &Result<Vec<u8>, AllocError>,
) -> Option<Result<(), WireFault>>
    ensures some { IfOk text.now (λ text. IsSome result
        × W.did wire.old (deeds_by peer text.items result) wire.new) }
    ensures none { OnErr text.now ((result ≡ None) × W.did wire.old [] wire.new) }
{
    match text {
        Ok(text) => Some(wire.answer(peer, text)),
        Err(_) => None,
    }
}

/// What is answered to an event, by what became of it, behind these octets.
pub fn answer_to(
    alloc: Global,
    source: Mac,
    first: &[u8],
    applied: &Applied,
    bpdus: &[Option<Bpdu>],
) -> Result<Vec<u8>, AllocError>
    ensures { IfOk result (λ text. text.items ≡ answer_by source first.now applied.now bpdus.now) }
{
    let mut text = Vec::new(alloc);
    match applied {
        Applied::Done(..) | Applied::Dropped(..) => {
            text.extend_from_slice(first)?;
            say_bpdus(source, bpdus, &mut text)?;
        }
        Applied::Short(_) => text.extend_from_slice(b"short\n")?,
        Applied::HistoryFull(_) => text.extend_from_slice(b"full\n")?,
    }
    Ok(text)
}

/// What is recorded of an event.
pub fn item_of(applied: Applied) -> ControlItem
    ensures { result ≡ item_of applied }
{
    match applied {
        Applied::Done(receipt, _) => ControlItem::Entered(receipt),
        Applied::Dropped(receipt, _, _) => ControlItem::Entered(receipt),
        Applied::Short(_) => ControlItem::Short,
        Applied::HistoryFull(_) => ControlItem::Full,
    }
}

/// How an answer ends the line, if it does: by want of memory for it, or where it could not be sent.
pub fn end_by_reply(answered: Option<Result<(), WireFault>>) -> Option<End>
    ensures { result ≡ end_by_reply answered }
{
    match answered {
        None => Some(End::Memory),
        Some(Ok(())) => None,
        Some(Err(fault)) => Some(End::Wire(fault)),
    }
}

/// How an event and its answer end the line, if they do: where something could not be sent, by want of
/// memory for the answer, or where no number is left for an entry.
pub fn end_after(
    applied: &Applied,
    sent: Result<(), WireFault>,
    answered: Option<Result<(), WireFault>>,
) -> Option<End>
    ensures { result ≡ end_after applied.now (fault_in sent) answered }
{
    if let Err(fault) = sent {
        return Some(End::Wire(fault));
    }
    match (answered, applied) {
        (None, _) => Some(End::Memory),
        (Some(Err(fault)), _) => Some(End::Wire(fault)),
        (Some(Ok(())), Applied::HistoryFull(_)) => Some(End::Full),
        (Some(Ok(())), _) => None,
    }
}
