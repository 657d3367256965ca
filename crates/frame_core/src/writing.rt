//! Octets from BPDUs.
ghost use Rattle.std.specs.Prelude.{◌≡◌, ◌≤◌, ◌<◌, ◌++◌, ◌^◌, [], ◌∷◌, length, drop, Some};
ghost use Rattle.byteorder.specs.Endian.{big_bytes};
ghost use Rattle.frame_core.specs.Frames.{IsFrame};
ghost use Rattle.frame_core.specs.Layout.{IsBridgeId};
ghost use Rattle.frame_core.specs.Sending.{weight, bridge_id_octets, root_octets, sender_octets, vector_octets, times_octets, body_octets, head_octets, config_flags, rapid_flags, config_octets, rapid_octets, bpdu_len, bpdu_octets, address_octets, llc_octets, header_octets, frame_octets, FitsBridgeId, FitsVector, FitsTimes, FitsBpdu};

use crate::bpdu::{Bpdu, BridgeId, Config, PriorityVector, Rapid, Times};
use crate::frame::SENT_FRAME_LEN;
use crate::layout::{
    ACKNOWLEDGE, AGREEMENT, CONFIG_TYPE, FORWARDING, HEADER_LEN, LEARNING, NOTICE_TYPE, PROPOSAL,
    RAPID_TYPE, RAPID_VERSION, ROLE, SPANNING_TREE_LLC, TOPOLOGY_CHANGE,
};
use crate::mac::{BRIDGE_GROUP, Mac};
use byteorder::{BigEndian, ByteOrder};

// Each `put_..` writes at the front of the slice, and leaves what is behind it as it was.

fn put_bridge_id(out: &mut [u8], id: &BridgeId)
    requires { 8 ≤ length out.old }
    ensures octets { out.new ≡ bridge_id_octets id.now ++ drop 8 out.old }
    ensures fits { FitsBridgeId id.now }
{
    BigEndian::write_u16(out, id.priority);
    out[2..8].copy_from_slice(&id.address.0);
}

impl BridgeId {
    /// The eight octets of the identifier: the priority, its higher octet first, and then the
    /// address (9.2.5).
    pub fn octets(&self) -> [u8; 8]
        // Each octet,
        ensures octets { result ≡ bridge_id_octets self.now }
        // and so what encodes the identifier.
        ensures encodes { IsBridgeId result self.now }
    {
        let mut octets = [0; 8];
        put_bridge_id(&mut octets, self);
        octets
    }
}

#[tactic(auto, using(crate::proofs::Puts::puts_part), unfolding(crate::specs::Sending::root_octets))]
fn put_root(out: &mut [u8], vector: &PriorityVector)
    requires { 12 ≤ length out.old }
    ensures octets { out.new ≡ root_octets vector.now ++ drop 12 out.old }
    ensures id { FitsBridgeId vector.now.root }
    ensures cost { vector.now.cost < 2 ^ 32 }
{
    let cost = vector.cost;
    put_bridge_id(out, &vector.root);
    BigEndian::write_u32(&mut out[8..], cost);
}

#[tactic(auto, using(crate::proofs::Puts::puts_part), unfolding(crate::specs::Sending::sender_octets))]
fn put_sender(out: &mut [u8], vector: &PriorityVector)
    requires { 10 ≤ length out.old }
    ensures octets { out.new ≡ sender_octets vector.now ++ drop 10 out.old }
    ensures id { FitsBridgeId vector.now.bridge }
    ensures port { vector.now.port < 2 ^ 16 }
{
    let port = vector.port;
    put_bridge_id(out, &vector.bridge);
    BigEndian::write_u16(&mut out[8..], port);
}

#[tactic(auto, using(crate::proofs::Puts::puts_part), unfolding(crate::specs::Sending::vector_octets))]
fn put_vector(out: &mut [u8], vector: &PriorityVector)
    requires { 22 ≤ length out.old }
    ensures octets { out.new ≡ vector_octets vector.now ++ drop 22 out.old }
    ensures fits { FitsVector vector.now }
{
    put_root(out, vector);
    put_sender(&mut out[12..], vector);
}

fn put_two(out: &mut [u8], first: u16, second: u16)
    requires { 4 ≤ length out.old }
    ensures octets { out.new ≡ (big_bytes 2 first ++ big_bytes 2 second) ++ drop 4 out.old }
    ensures first { first < 2 ^ 16 }
    ensures second { second < 2 ^ 16 }
{
    BigEndian::write_u16(out, first);
    BigEndian::write_u16(&mut out[2..], second);
}

fn put_times(out: &mut [u8], times: &Times)
    requires { 8 ≤ length out.old }
    ensures octets { out.new ≡ times_octets times.now ++ drop 8 out.old }
    ensures fits { FitsTimes times.now }
{
    put_two(out, times.message_age, times.max_age);
    put_two(&mut out[4..], times.hello, times.forward_delay);
}

#[tactic(auto, using(crate::proofs::Puts::puts_part), unfolding(crate::specs::Sending::body_octets))]
fn put_body(out: &mut [u8], vector: &PriorityVector, times: &Times)
    requires { 30 ≤ length out.old }
    ensures octets { out.new ≡ body_octets vector.now times.now ++ drop 30 out.old }
    ensures vector { FitsVector vector.now }
    ensures times { FitsTimes times.now }
{
    put_vector(out, vector);
    put_times(&mut out[22..], times);
}

#[tactic(auto, unfolding(crate::specs::Sending::head_octets))]
fn put_head(out: &mut [u8], version: u8, kind: u8, flags: u8)
    requires { 5 ≤ length out.old }
    ensures { out.new ≡ head_octets version kind flags ++ drop 5 out.old }
{
    out[..5].copy_from_slice(&[0, 0, version, kind, flags]);
}

// An octet in which only this bit may be 1, counted from the lowest, which is 0.
fn bit_of(is_set: bool, bit: u8) -> u8
    requires { bit < 8 }
    ensures value { result ≡ weight is_set bit }
    ensures most { result ≤ 2 ^ bit }
{
    if is_set { 1 << bit } else { 0 }
}

#[tactic(auto, unfolding(crate::specs::Sending::config_flags))]
fn config_flags_of(config: &Config) -> u8
    ensures { result ≡ config_flags config.now }
{
    bit_of(config.topology_change, TOPOLOGY_CHANGE)
        + bit_of(config.proposal, PROPOSAL)
        + bit_of(config.acknowledge, ACKNOWLEDGE)
}

#[tactic(auto, unfolding(crate::specs::Sending::rapid_flags))]
fn rapid_flags_of(rapid: &Rapid) -> u8
    ensures { result ≡ rapid_flags rapid.now }
{
    bit_of(rapid.topology_change, TOPOLOGY_CHANGE)
        + bit_of(rapid.proposal, PROPOSAL)
        + (rapid.role.number() << ROLE)
        + bit_of(rapid.learning, LEARNING)
        + bit_of(rapid.forwarding, FORWARDING)
        + bit_of(rapid.agreement, AGREEMENT)
}

#[tactic(auto, using(crate::proofs::Puts::puts_part), unfolding(crate::specs::Sending::config_octets, crate::specs::Sending::head_octets))]
fn put_config(out: &mut [u8], config: &Config)
    requires { 35 ≤ length out.old }
    ensures octets { out.new ≡ config_octets config.now ++ drop 35 out.old }
    ensures vector { FitsVector config.now.vector }
    ensures times { FitsTimes config.now.times }
{
    put_head(out, 0, CONFIG_TYPE, config_flags_of(config));
    put_body(&mut out[5..], &config.vector, &config.times);
}

#[tactic(auto, using(crate::proofs::Puts::puts_part), unfolding(crate::specs::Sending::rapid_octets, crate::specs::Sending::head_octets))]
fn put_rapid(out: &mut [u8], rapid: &Rapid)
    requires { 36 ≤ length out.old }
    ensures octets { out.new ≡ rapid_octets rapid.now ++ drop 36 out.old }
    ensures vector { FitsVector rapid.now.vector }
    ensures times { FitsTimes rapid.now.times }
{
    put_head(out, RAPID_VERSION, RAPID_TYPE, rapid_flags_of(rapid));
    put_body(&mut out[5..], &rapid.vector, &rapid.times);
    out[35] = 0;
}

fn put_bpdu(out: &mut [u8], bpdu: &Bpdu)
    requires { 36 ≤ length out.old }
    ensures octets { out.new ≡ bpdu_octets bpdu.now ++ drop (bpdu_len bpdu.now) out.old }
    ensures fits { FitsBpdu bpdu.now }
{
    match bpdu {
        Bpdu::Config(config) => put_config(out, config),
        Bpdu::TopologyChange => out[..4].copy_from_slice(&[0, 0, 0, NOTICE_TYPE]),
        Bpdu::Rapid(rapid) => put_rapid(out, rapid),
    }
}

fn bpdu_len_of(bpdu: &Bpdu) -> u16
    ensures { result ≡ bpdu_len bpdu.now }
{
    match bpdu {
        Bpdu::Config(_) => 35,
        Bpdu::TopologyChange => 4,
        Bpdu::Rapid(_) => 36,
    }
}

#[tactic(auto, using(crate::proofs::Puts::puts_part), unfolding(crate::specs::Sending::address_octets))]
fn put_addresses(out: &mut [u8], source: Mac)
    requires { 12 ≤ length out.old }
    ensures octets { out.new ≡ address_octets source ++ drop 12 out.old }
    ensures source { length source.0 ≡ 6 }
{
    out[..6].copy_from_slice(&BRIDGE_GROUP.0);
    out[6..12].copy_from_slice(&source.0);
}

#[tactic(auto, using(crate::proofs::Puts::puts_part), unfolding(crate::specs::Sending::llc_octets))]
fn put_llc(out: &mut [u8], len: u16)
    requires { 5 ≤ length out.old }
    ensures { out.new ≡ llc_octets len ++ drop 5 out.old }
{
    BigEndian::write_u16(out, len);
    out[2..5].copy_from_slice(&SPANNING_TREE_LLC);
}

#[tactic(auto, using(crate::proofs::Puts::puts_part), unfolding(crate::specs::Sending::header_octets))]
fn put_header(out: &mut [u8], source: Mac, len: u16)
    requires { 17 ≤ length out.old }
    ensures octets { out.new ≡ header_octets source len ++ drop 17 out.old }
    ensures source { length source.0 ≡ 6 }
{
    put_addresses(out, source);
    put_llc(&mut out[12..], len);
}

/// Writes the frame in which a bridge of this address sends the BPDU: to the bridges' group
/// address, with the length of the LLC header and the BPDU, and padded with 00. The answer is how
/// many octets the frame has, always [`SENT_FRAME_LEN`].
pub fn write_bpdu(bpdu: &Bpdu, source: Mac, frame: &mut [u8; SENT_FRAME_LEN]) -> usize
    ensures len { result ≡ SENT_FRAME_LEN }
    // Each octet,
    ensures octets { frame.new ≡ frame_octets source bpdu.now }
    // and so what `read_frame` reads again.
    ensures reads_back { IsFrame frame.new
        (record { destination = BRIDGE_GROUP; source = source; bpdu = Some bpdu.now }) }
{
    frame.fill(0);
    put_header(frame, source, 3 + bpdu_len_of(bpdu));
    put_bpdu(&mut frame[HEADER_LEN..], bpdu);
    frame.len()
}
