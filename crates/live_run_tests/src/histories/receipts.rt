//! Copies of receipts, and what an entry keeps of a request.
use history_core::{Egress, Event, KeptEvent, Receipt, ReceiptEvent};
use message_core::{Octets, decode};
use std::alloc::Global;
use std::test::Fail;

// A Get of dot1dBaseNumPorts.0 for `public`, as another encoder wrote it.
const GET: &[u8] = &[
    0x30, 0x27, 0x02, 0x01, 0x01, 0x04, 0x06, 0x70, 0x75, 0x62, 0x6C, 0x69, 0x63, 0xA0, 0x1A, 0x02,
    0x01, 0x01, 0x02, 0x01, 0x00, 0x02, 0x01, 0x00, 0x30, 0x0F, 0x30, 0x0D, 0x06, 0x09, 0x2B, 0x06,
    0x01, 0x02, 0x01, 0x11, 0x01, 0x02, 0x00, 0x05, 0x00,
];

// A reply that is not held inline.
const REPLY: &[u8] = &[7; 30];

// A receipt of a request that was replied to.
fn replied(alloc: Global, number: u64) -> Result<Receipt, Fail> {
    let request = decode(alloc, GET).ok().ok_or("a request")?;
    Ok(Receipt {
        number,
        event: ReceiptEvent::Request(request),
        egress: Egress::none(),
        reply: Some(Octets::from_slice(alloc, REPLY)?),
    })
}

#[test]
fn copies_a_receipt(rt: HostRuntime) -> Result<(), Fail> {
    let one = replied(rt.alloc(), 4)?;
    let copy = one.try_copy(rt.alloc())?;
    let other = replied(rt.alloc(), 5)?;
    assert_eq!(rt; (copy.same(&one), copy.same(&other)), (true, false));
    Ok(())
}

#[test]
fn reports_of_a_request(rt: HostRuntime) -> Result<(), Fail> {
    let request = decode(rt.alloc(), GET).ok().ok_or("a request")?;
    let event = Event::Request(request);
    let reported = event.reported(rt.alloc())?;
    let by = (
        event.is_reported_by(&reported),
        event.is_reported_by(&ReceiptEvent::Tick),
    );
    assert_eq!(rt; by, (true, false));
    Ok(())
}

// The encoding of GET is the shortest, so it is what an entry keeps.
#[test]
fn keeps_a_request_as_its_encoding(rt: HostRuntime) -> Result<(), Fail> {
    let event = match decode(rt.alloc(), GET) {
        Ok(request) => Event::Request(request),
        Err(_) => return Err(Fail::from("a request")),
    };
    let reported = event.reported(rt.alloc())?;
    let other = replied(rt.alloc(), 4)?;
    let kept = KeptEvent::of(rt.alloc(), event)?;
    let again = kept.request(rt.alloc())?.ok_or("the request")?;
    let by = (
        kept.encoded() == Some(GET),
        kept.is_reported_by(&reported),
        kept.is_reported_by(&other.event),
        kept.is_reported_by(&ReceiptEvent::Tick),
        kept.is_reported_by(&ReceiptEvent::Request(again)),
    );
    assert_eq!(rt; by, (true, true, true, false, true));
    Ok(())
}
