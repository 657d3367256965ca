//! The base of a history, and its last number.
use crate::fixtures::message::Held::Null;
use crate::fixtures::message::get;
use crate::fixtures::names::PORTS;
use crate::fixtures::worlds::built_in;
use crate::histories::support::{entered, request_of};
use crate::support::history_from;
use agent_core::Buffer;
use bridge_mib::Planned;
use history_core::{Applied, Event, Kept, MAX_ENTRIES, Receipt, Tally};
use object_list::objects;
use setphase_core::MibObject;
use std::alloc::Global;
use std::test::Fail;

// The receipts of so many Gets.
fn gets<O: MibObject>(
    alloc: Global,
    history: &mut Kept<O>,
    count: usize,
) -> Result<Vec<Receipt>, Fail> {
    let mut receipts = Vec::new(alloc);
    for _ in 0..count {
        let event = request_of(alloc, &get(&[(PORTS, Null)]))?;
        receipts.push(entered(alloc, history, event)?)?;
    }
    Ok(receipts)
}

// The base number after so many Gets, and what their receipts amount to.
fn after<O: MibObject>(
    alloc: Global,
    objects: Vec<O>,
    count: usize,
) -> Result<(u64, Option<Tally>), Fail> {
    let mut history = history_from(alloc, objects, built_in(alloc)?, 0)?;
    let receipts = gets(alloc, &mut history, count)?;
    let base_number = history.base_number();
    let tally = history.compare(&receipts).ok();
    Ok((base_number, tally))
}

#[test]
fn moves_the_base_behind_4096_entries(rt: HostRuntime) -> Result<(), Fail> {
    for (count, base, stood, older) in [
        (MAX_ENTRIES, 0, 4096, 0),
        (MAX_ENTRIES + 1, 4096, 1, 4096),
    ] {
        let all = objects(rt.alloc(), Planned::new())?;
        let tally = Tally { stood, older };
        assert_eq!(rt;
            after(rt.alloc(), all, count)?,
            (base, Some(tally)),
            "{count}"
        );
    }
    Ok(())
}

// Whether a second finds no number left.
fn is_full<O: MibObject>(alloc: Global, history: &mut Kept<O>) -> bool {
    let mut buffer = Buffer::new();
    matches!(
        history.apply(alloc, Event::Tick, &mut buffer),
        Applied::HistoryFull(Event::Tick)
    )
}

// How many seconds are entered from this number on, of two at most, until no number is left.
fn entered_from<O: MibObject>(alloc: Global, objects: Vec<O>, first: u64) -> Result<u64, Fail> {
    let mut history = history_from(alloc, objects, built_in(alloc)?, first)?;
    for number in 0..2 {
        if is_full(alloc, &mut history) {
            return Ok(number);
        }
    }
    Ok(2)
}

#[test]
fn is_full_at_the_greatest_number(rt: HostRuntime) -> Result<(), Fail> {
    for (first, entries) in [(u64::MAX - 1, 1), (u64::MAX, 0)] {
        let all = objects(rt.alloc(), Planned::new())?;
        assert_eq!(rt;
            entered_from(rt.alloc(), all, first)?,
            entries,
            "from {first}"
        );
    }
    Ok(())
}
