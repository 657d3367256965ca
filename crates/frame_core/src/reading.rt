//! Frames from octets.
ghost use Rattle.std.specs.Prelude.{◌≡◌, ◌≢◌, ◌≤◌, ◌<◌, length, take, MatchOption, IfOk, IfErr, Ok, Err};
ghost use Rattle.frame_core.specs.Octets.{has_bit};
ghost use Rattle.frame_core.specs.Layout.{IsBridgeId, IsVector, AreTimes, IsConfig, IsRapid, IsBpdu};
ghost use Rattle.frame_core.specs.Frames.{CarriesBpdu, IsFrame, IsFault};
ghost use Rattle.frame_core.specs.Reading.{frame_at};

use crate::bpdu::{Bpdu, BridgeId, Config, PortRole, PriorityVector, Rapid, Times};
use crate::fault::FrameFault;
use crate::frame::{FrameIn, MAX_FRAME_LEN, MIN_FRAME_LEN};
use crate::layout::{
    ACKNOWLEDGE, AGREEMENT, CONFIG_LEN, CONFIG_TYPE, FORWARDING, LEARNING, MAX_LENGTH, NOTICE_LEN,
    NOTICE_TYPE, PROPOSAL, RAPID_LEN, RAPID_TYPE, RAPID_VERSION, ROLE, SPANNING_TREE,
    SPANNING_TREE_LLC, TOPOLOGY_CHANGE,
};
use crate::mac::{BRIDGE_GROUP, Mac};
use byteorder::{BigEndian, ByteOrder};

fn mac_of(octets: &[u8]) -> Mac
    requires { 6 ≤ length octets.now }
    ensures { result.0 ≡ take 6 octets.now }
{
    let mut address = [0; 6];
    address.copy_from_slice(&octets[..6]);
    Mac(address)
}

fn bridge_id_of(octets: &[u8]) -> BridgeId
    requires { 8 ≤ length octets.now }
    ensures { IsBridgeId octets.now result }
{
    BridgeId {
        priority: BigEndian::read_u16(octets),
        address: mac_of(&octets[2..]),
    }
}

fn vector_of(octets: &[u8]) -> PriorityVector
    requires { 22 ≤ length octets.now }
    ensures { IsVector octets.now result }
{
    PriorityVector {
        root: bridge_id_of(octets),
        cost: BigEndian::read_u32(&octets[8..]),
        bridge: bridge_id_of(&octets[12..]),
        port: BigEndian::read_u16(&octets[20..]),
    }
}

fn times_of(octets: &[u8]) -> Times
    requires { 8 ≤ length octets.now }
    ensures { AreTimes octets.now result }
{
    Times {
        message_age: BigEndian::read_u16(octets),
        max_age: BigEndian::read_u16(&octets[2..]),
        hello: BigEndian::read_u16(&octets[4..]),
        forward_delay: BigEndian::read_u16(&octets[6..]),
    }
}

// Whether a bit of the flags is 1, counted from the lowest, which is 0.
fn is_set(flags: u8, bit: u8) -> bool
    requires { bit < 8 }
    ensures { result ≡ has_bit flags bit }
{
    (flags >> bit) & 1 == 1
}

fn config_of(octets: &[u8]) -> Config
    requires { 35 ≤ length octets.now }
    ensures { IsConfig octets.now result }
{
    let flags = octets[4];
    Config {
        topology_change: is_set(flags, TOPOLOGY_CHANGE),
        proposal: is_set(flags, PROPOSAL),
        acknowledge: is_set(flags, ACKNOWLEDGE),
        vector: vector_of(&octets[5..]),
        times: times_of(&octets[27..]),
    }
}

fn rapid_of(octets: &[u8]) -> Rapid
    requires { 36 ≤ length octets.now }
    ensures { IsRapid octets.now result }
{
    let flags = octets[4];
    Rapid {
        topology_change: is_set(flags, TOPOLOGY_CHANGE),
        proposal: is_set(flags, PROPOSAL),
        role: PortRole::from_number((flags >> ROLE) & 3),
        learning: is_set(flags, LEARNING),
        forwarding: is_set(flags, FORWARDING),
        agreement: is_set(flags, AGREEMENT),
        vector: vector_of(&octets[5..]),
        times: times_of(&octets[27..]),
    }
}

// The BPDU that octets encode (9.3.4).
fn bpdu_of(octets: &[u8]) -> Option<Bpdu>
    ensures { MatchOption result ((b : Bpdu) → ¬ IsBpdu octets.now b) (λ b. IsBpdu octets.now b) }
{
    if octets.len() < NOTICE_LEN || BigEndian::read_u16(octets) != SPANNING_TREE {
        return None;
    }
    let (version, kind) = (octets[2], octets[3]);
    if kind == CONFIG_TYPE && octets.len() >= CONFIG_LEN {
        Some(Bpdu::Config(config_of(octets)))
    } else if kind == NOTICE_TYPE {
        Some(Bpdu::TopologyChange)
    } else if kind == RAPID_TYPE && version >= RAPID_VERSION && octets.len() >= RAPID_LEN {
        Some(Bpdu::Rapid(rapid_of(octets)))
    } else {
        None
    }
}

// The BPDU that a frame carries behind its addresses.
fn carried_by(frame: &[u8]) -> Option<Bpdu>
    requires { MIN_FRAME_LEN ≤ length frame.now }
    ensures { MatchOption result ((b : Bpdu) → ¬ CarriesBpdu frame.now b) (λ b.
        CarriesBpdu frame.now b) }
{
    let len = usize::from(BigEndian::read_u16(&frame[12..]));
    if len > MAX_LENGTH || frame.len() - MIN_FRAME_LEN < len {
        return None;
    }
    let octets = frame[MIN_FRAME_LEN..MIN_FRAME_LEN + len].strip_prefix(&SPANNING_TREE_LLC)?;
    bpdu_of(octets)
}

/// What a bridge reads of a frame: its addresses, and where it goes to the bridges' group address
/// the BPDU that it carries. Of a frame to any other address only the addresses are
/// read.
///
/// The length field counts the octets of the BPDU and the three before them; what pads the frame is
/// not read.
///
/// # Errors
///
/// `Short` below 14 octets, `TooLong` above 1,518, and `BadBpdu` for a frame to the bridges' group
/// address that carries none.
pub fn read_frame(octets: &[u8]) -> Result<FrameIn, FrameFault>
    // What is read stands in the octets.
    ensures found { IfOk result (λ f. IsFrame octets.now f) }
    // What stands in the octets is read.
    ensures only { (f : FrameIn) → IsFrame octets.now f → result ≡ Ok f }
    // A refusal has its cause,
    ensures fault { IfErr result (λ e. IsFault octets.now e) }
    // and where there is a cause it is the answer.
    ensures exactly { (e : FrameFault) → IsFault octets.now e → result ≡ Err e }
    // So the answer is a function of the octets, by their kind and the places of their fields.
    ensures reading { result ≡ frame_at octets.now }
{
    if octets.len() < MIN_FRAME_LEN {
        return Err(FrameFault::Short);
    }
    if octets.len() > MAX_FRAME_LEN {
        return Err(FrameFault::TooLong);
    }
    let destination = mac_of(octets);
    let source = mac_of(&octets[6..]);
    if destination != BRIDGE_GROUP {
        return Ok(FrameIn {
            destination,
            source,
            bpdu: None,
        });
    }
    match carried_by(octets) {
        None => Err(FrameFault::BadBpdu),
        Some(bpdu) => Ok(FrameIn {
            destination,
            source,
            bpdu: Some(bpdu),
        }),
    }
}
