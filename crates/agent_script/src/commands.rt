//! What a line of a script asks for.
ghost use Rattle.std.specs.Prelude.{◌≡◌, ◌≤◌, ◌∷◌, ℕ, is_some, IsSome, IfOk, IfSome, OnErr, option_map, option_and_then};
ghost use Rattle.std.specs.List.{list_all};
ghost use Rattle.std.specs.Option.{option_copied};
ghost use Rattle.hex.specs.Hex.{is_hex_digit};
ghost use Rattle.rstp_settings.specs.Table.{IsPortOf};
ghost use Rattle.agent_script.specs.Commands.{request, counting_of, switch_of, direction_of, words_of, words_left, countings_of, plan_of, NamesPortOf, frame_with, link_with, command_with, command_alone, command_of, HasOctets};
ghost use Rattle.agent_script.specs.CommandViews.{command_view};
ghost use Rattle.script_core.specs.Words.{split_word, octets_of};

use rstp_core::MAX_PORTS;
use script_core::words::{read_hex, read_number, split_word};
use std::alloc::{AllocError, Global};

/// The most seconds that one line lets pass.
pub const MAX_SECONDS: u32 = 100_000;

/// How many calls of a device a plan speaks of: one bit of it is a call.
pub const PLANNED_CALLS: u32 = 64;

/// What a line asks for.
#[derive(Debug, Drop)]
pub enum Command {
    /// `request HEX`: answer a datagram.
    Request(Vec<u8>),
    /// `frame P HEX`: a frame comes in by a port.
    Frame(u16, Vec<u8>),
    /// `tick N`: so many seconds pass, 1 to [`MAX_SECONDS`].
    Tick(u32),
    /// `link P up` or `link P down`: the link of a port.
    Link(u16, bool),
    /// `policy`: the lines up to `end` are a policy.
    Policy,
    /// `audit on` or `audit off`: whether each request's audit is written.
    Audit(bool),
    /// `counts`: report what was dropped.
    Counts,
    /// `driver N..`: the next calls of the objects' devices fail by this plan, whose bit k - 1 says
    /// that the k-th from now does. Each number is 1 to [`PLANNED_CALLS`].
    Driver(u64),
}

/// Reads a line, which may be no command, where there are so many ports. Only memory can fail, and
/// only of a line that writes the octets of a datagram or of a frame.
#[tactic(auto, unfolding(crate::specs::Commands::command_of))]
pub fn read_command(alloc: Global, ports: usize, line: &[u8]) -> Result<Option<Command>, AllocError>
    requires { ports ≤ MAX_PORTS }
    ensures command { IfOk result (λ c. option_map command_view c ≡ command_of ports line.now) }
    ensures port { IfOk result (λ c. NamesPortOf ports (option_map command_view c)) }
    ensures memory { OnErr result (HasOctets (command_of ports line.now)) }
{
    match split_word(line) {
        Some((word, rest)) => read_with(alloc, ports, word, rest),
        None => Ok(read_alone(line)),
    }
}

// A word alone.
fn read_alone(line: &[u8]) -> Option<Command>
    ensures command { option_map command_view result ≡ command_alone line.now }
    ensures port { (ports : ℕ) → NamesPortOf ports (option_map command_view result) }
{
    if line == b"policy".as_slice() {
        return Some(Command::Policy);
    }
    if line == b"counts".as_slice() {
        return Some(Command::Counts);
    }
    None
}

// A word, and what follows the space behind it.
fn read_with(
    alloc: Global,
    ports: usize,
    word: &[u8],
    rest: &[u8],
) -> Result<Option<Command>, AllocError>
    requires { ports ≤ MAX_PORTS }
    ensures command { IfOk result (λ c.
        option_map command_view c ≡ command_with ports (word.now, rest.now)) }
    ensures port { IfOk result (λ c. NamesPortOf ports (option_map command_view c)) }
    ensures memory { OnErr result (HasOctets (command_with ports (word.now, rest.now))) }
{
    if word == b"request".as_slice() {
        return read_request(alloc, rest);
    }
    if word == b"frame".as_slice() {
        return read_frame(alloc, ports, rest);
    }
    if word == b"tick".as_slice() {
        return Ok(read_counting(rest, MAX_SECONDS).map(Command::Tick));
    }
    if word == b"link".as_slice() {
        return Ok(read_link(ports, rest));
    }
    if word == b"audit".as_slice() {
        return Ok(read_switch(rest).map(Command::Audit));
    }
    if word == b"driver".as_slice() {
        return Ok(read_plan(rest).map(Command::Driver));
    }
    Ok(None)
}

// Whether an octet is a digit of hexadecimal, in either case.
fn is_hex_digit(digit: u8) -> bool
    ensures { result ≡ is_hex_digit digit }
{
    digit.is_ascii_hexdigit()
}

// Whether a text has no octet but digits of hexadecimal.
fn has_only_digits(text: &[u8]) -> bool
    ensures { result ≡ list_all is_hex_digit text.now }
{
    text.iter().all(|digit| is_hex_digit(*digit))
}

// Whether a text writes octets in hexadecimal.
fn is_hexadecimal(text: &[u8]) -> bool
    ensures { result ≡ is_some (octets_of text.now) }
{
    text.len() % 2 == 0 && has_only_digits(text)
}

// The octets that a text writes in hexadecimal. A text that writes none takes no memory.
fn read_octets(alloc: Global, text: &[u8]) -> Result<Option<Vec<u8>>, AllocError>
    ensures value { IfOk result (λ octets. option_map (λ v. v.items) octets ≡ octets_of text.now) }
    ensures memory { OnErr result (IsSome (octets_of text.now)) }
{
    match read_hex(alloc, text) {
        Err(error) if is_hexadecimal(text) => Err(error),
        Err(_) => Ok(None),
        octets => octets,
    }
}

// The octets of a datagram.
fn read_request(alloc: Global, text: &[u8]) -> Result<Option<Command>, AllocError>
    ensures command { IfOk result (λ c.
        option_map command_view c ≡ option_map request (octets_of text.now)) }
    ensures port { (ports : ℕ) → IfOk result (λ c. NamesPortOf ports (option_map command_view c)) }
    ensures memory { OnErr result (HasOctets (option_map request (octets_of text.now))) }
{
    match read_octets(alloc, text)? {
        Some(datagram) => Ok(Some(Command::Request(datagram))),
        None => Ok(None),
    }
}

// A port and the octets of a frame.
fn read_frame(alloc: Global, ports: usize, text: &[u8]) -> Result<Option<Command>, AllocError>
    requires { ports ≤ MAX_PORTS }
    ensures command { IfOk result (λ c.
        option_map command_view c ≡ option_and_then (frame_with ports) (split_word text.now)) }
    ensures port { IfOk result (λ c. NamesPortOf ports (option_map command_view c)) }
    ensures memory { OnErr result (HasOctets (option_and_then (frame_with ports)
        (split_word text.now))) }
{
    match split_word(text) {
        Some((word, rest)) => read_frame_of(alloc, ports, word, rest),
        None => Ok(None),
    }
}

fn read_frame_of(
    alloc: Global,
    ports: usize,
    word: &[u8],
    rest: &[u8],
) -> Result<Option<Command>, AllocError>
    requires { ports ≤ MAX_PORTS }
    ensures command { IfOk result (λ c.
        option_map command_view c ≡ frame_with ports (word.now, rest.now)) }
    ensures port { IfOk result (λ c. NamesPortOf ports (option_map command_view c)) }
    ensures memory { OnErr result (HasOctets (frame_with ports (word.now, rest.now))) }
{
    let Some(port) = read_port(ports, word) else {
        return Ok(None);
    };
    match read_octets(alloc, rest)? {
        Some(octets) => Ok(Some(Command::Frame(port, octets))),
        None => Ok(None),
    }
}

// A port and the direction of its link.
fn read_link(ports: usize, text: &[u8]) -> Option<Command>
    requires { ports ≤ MAX_PORTS }
    ensures command { option_map command_view result ≡ option_and_then (link_with ports)
        (split_word text.now) }
    ensures port { NamesPortOf ports (option_map command_view result) }
{
    match split_word(text) {
        Some((word, rest)) => read_link_of(ports, word, rest),
        None => None,
    }
}

fn read_link_of(ports: usize, word: &[u8], rest: &[u8]) -> Option<Command>
    requires { ports ≤ MAX_PORTS }
    ensures command { option_map command_view result ≡ link_with ports (word.now, rest.now) }
    ensures port { NamesPortOf ports (option_map command_view result) }
{
    let port = read_port(ports, word)?;
    let up = read_direction(rest)?;
    Some(Command::Link(port, up))
}

// The number of one of so many ports.
fn read_port(ports: usize, word: &[u8]) -> Option<u16>
    requires { ports ≤ MAX_PORTS }
    ensures value { result ≡ counting_of ports word.now }
    ensures port { IfSome result (λ n. IsPortOf ports n) }
{
    let port = read_counting(word, ports as u32)?;
    Some(port as u16)
}

// A number from 1 up to this.
fn read_counting(word: &[u8], most: u32) -> Option<u32>
    ensures value { result ≡ counting_of most word.now }
    ensures range { IfSome result (λ n. (1 ≤ n) × (n ≤ most)) }
{
    match read_number(word, most) {
        Some(0) => None,
        number => number,
    }
}

// The first word of a text, and what is behind the space that follows it, if one does.
fn first_word(text: &[u8]) -> (&[u8], Option<&[u8]>)
    ensures { words_of text.now ≡ result.0.now ∷ words_left (option_copied result.1) }
{
    match split_word(text) {
        Some((word, rest)) => (word, Some(rest)),
        None => (text, None),
    }
}

// The plan of the calls that a text numbers: one number or more, with one space between them.
fn read_plan(text: &[u8]) -> Option<u64>
    ensures { result ≡ option_map plan_of (countings_of PLANNED_CALLS (words_of text.now)) }
{
    let mut plan = 0u64;
    let mut left = Some(text);
    while let Some(here) = left {
        let (word, rest) = first_word(here);
        let call = read_counting(word, PLANNED_CALLS)?;
        plan |= 1 << (call - 1);
        left = rest;
    }
    Some(plan)
}

// `on` or `off`.
fn read_switch(word: &[u8]) -> Option<bool>
    ensures { result ≡ switch_of word.now }
{
    if word == b"on".as_slice() {
        return Some(true);
    }
    if word == b"off".as_slice() {
        return Some(false);
    }
    None
}

// `up` or `down`.
fn read_direction(word: &[u8]) -> Option<bool>
    ensures { result ≡ direction_of word.now }
{
    if word == b"up".as_slice() {
        return Some(true);
    }
    if word == b"down".as_slice() {
        return Some(false);
    }
    None
}
