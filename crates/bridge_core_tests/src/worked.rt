//! Worked frames, to the octet.
use frame_core::worked::{OWN, PROPOSES};
use frame_core::{
    BRIDGE_GROUP, Bpdu, BridgeId, FrameFault, FrameIn, Mac, PortRole, PriorityVector, Rapid, Times,
    read_frame, write_bpdu,
};

// How many octets the worked frame has without its padding.
const UNPADDED: usize = 53;

fn worked() -> Bpdu {
    let own = BridgeId {
        priority: 0x8000,
        address: OWN,
    };
    Bpdu::Rapid(Rapid {
        topology_change: false,
        proposal: true,
        role: PortRole::Designated,
        learning: false,
        forwarding: false,
        agreement: false,
        vector: PriorityVector {
            root: own,
            cost: 0,
            bridge: own,
            port: 0x8001,
        },
        times: Times {
            message_age: 0x0000,
            max_age: 0x1400,
            hello: 0x0200,
            forward_delay: 0x0F00,
        },
    })
}

fn worked_frame() -> FrameIn {
    FrameIn {
        destination: BRIDGE_GROUP,
        source: OWN,
        bpdu: Some(worked()),
    }
}

#[test]
fn an_identifier_is_eight_octets(rt: HostRuntime) {
    let id = BridgeId {
        priority: 0x1234,
        address: OWN,
    };
    assert_eq!(rt;
        id.octets(),
        [0x12, 0x34, 0x02, 0x00, 0x00, 0x00, 0x00, 0x0A]
    );
}

#[test]
fn writes_the_worked_frame(rt: HostRuntime) {
    let mut frame = [0xFF; 60];
    assert_eq!(rt; write_bpdu(&worked(), OWN, &mut frame), 60);
    assert_eq!(rt; frame, PROPOSES);
}

#[test]
fn recognizes_frames_by_their_bpdus(rt: HostRuntime) {
    let frame = worked_frame();
    let mut other = frame;
    assert!(rt; frame.same(&other));
    other.bpdu = None;
    assert!(rt; !frame.same(&other));
}

// What the worked frame without its padding and with another octet at one place is read as.
fn changed(place: usize, octet: u8) -> Result<FrameIn, FrameFault> {
    let mut frame = PROPOSES;
    if place < UNPADDED {
        frame[place] = octet;
    }
    match frame.get(..UNPADDED) {
        Some(unpadded) => read_frame(unpadded),
        None => Err(FrameFault::Short),
    }
}

// Another length, type or version is refused, and a later version read.
#[test]
fn reads_other_heads(rt: HostRuntime) {
    for (place, octet, read) in [
        (13, 0x26, Err(FrameFault::BadBpdu)),
        (20, 0x01, Err(FrameFault::BadBpdu)),
        (19, 0x01, Err(FrameFault::BadBpdu)),
        (14, 0x43, Err(FrameFault::BadBpdu)),
        (16, 0x13, Err(FrameFault::BadBpdu)),
        (18, 1, Err(FrameFault::BadBpdu)),
        (19, 0x03, Ok(worked_frame())),
        (52, 0xFF, Ok(worked_frame())),
    ] {
        assert_eq!(rt; changed(place, octet), read, "octet {place}");
    }
}

// Of a frame that is no BPDU only the addresses are read.
#[test]
fn reads_frames_of_any_length(rt: HostRuntime) {
    let other = FrameIn {
        destination: Mac([0xFF; 6]),
        source: Mac([0xFF; 6]),
        bpdu: None,
    };
    for (octets, read) in [
        (PROPOSES.as_slice(), Ok(worked_frame())),
        (&PROPOSES[..UNPADDED], Ok(worked_frame())),
        (&PROPOSES[..52], Err(FrameFault::BadBpdu)),
        (&PROPOSES[..13], Err(FrameFault::Short)),
        (&[0x02, 0x00], Err(FrameFault::Short)),
        (&[0xFF; 14], Ok(other)),
        (&[0xFF; 1_518], Ok(other)),
        (&[0xFF; 1_519], Err(FrameFault::TooLong)),
    ] {
        assert_eq!(rt; read_frame(octets), read, "{octets:?}");
    }
}

#[test]
fn recognizes_group_addresses(rt: HostRuntime) {
    assert!(rt; BRIDGE_GROUP.is_group());
    assert!(rt; !OWN.is_group());
}
