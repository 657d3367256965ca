//! What a served agent answers to a command, and why it did not do one, or gave no answer.
ghost use Rattle.std.specs.Prelude.{◌≡◌, is_some, option_map};
ghost use Rattle.control_text.specs.Commands.{port_of};
ghost use Rattle.agent_words.specs.Orders.{order_view};
ghost use Rattle.agent_program.specs.Answering.{no_answer_by, bad_line_by, undone_by};
ghost use Rattle.agent_program.specs.Endings.{no_answer_words, undone_line};

use crate::failure::reason_words;
use agent_words::Order;
use rstp_core::MAX_PORTS;
use script_core::words::read_number;
use std::io::ErrorKind;

/// Why an agent gave no answer.
#[derive(Clone, Copy, Debug, PartialEq, Eq)]
pub enum NoAnswer {
    /// There is no socket at the path.
    NoSocket,
    /// The user by whom the program runs may not connect to the socket.
    NotPermitted,
    /// Nobody listens at the socket.
    NobodyListens,
    /// No connection was had, or no answer was whole, within two seconds.
    TooLate,
    /// The connection ended without an answer.
    Ended,
    /// There was no memory for the answer.
    Memory,
    /// The system gave an error of this kind.
    System(ErrorKind),
}

impl NoAnswer {
    /// Why there is no answer where asking for it ended with an error of this kind.
    pub fn of_kind(kind: ErrorKind) -> NoAnswer
        ensures { result ≡ no_answer_by kind }
    {
        match kind {
            ErrorKind::NotFound => NoAnswer::NoSocket,
            ErrorKind::PermissionDenied => NoAnswer::NotPermitted,
            ErrorKind::ConnectionRefused => NoAnswer::NobodyListens,
            ErrorKind::TimedOut | ErrorKind::WouldBlock => NoAnswer::TooLate,
            ErrorKind::ConnectionReset | ErrorKind::BrokenPipe => NoAnswer::Ended,
            ErrorKind::OutOfMemory => NoAnswer::Memory,
            other => NoAnswer::System(other),
        }
    }

    /// What an operator reads of it.
    pub(crate) fn words(self) -> &'static [u8]
        ensures { result.now ≡ no_answer_words self }
    {
        match self {
            NoAnswer::NoSocket => b"there is no socket at this path",
            NoAnswer::NotPermitted => b"this user may not connect to the socket",
            NoAnswer::NobodyListens => b"nobody listens at the socket",
            NoAnswer::TooLate => b"no answer came within two seconds",
            NoAnswer::Ended => b"the connection ended without an answer",
            NoAnswer::Memory => b"there was no memory for the answer",
            NoAnswer::System(kind) => reason_words(kind),
        }
    }
}

/// Why an agent did not do a command, as its answer and the command say.
#[derive(Clone, Copy, Debug, PartialEq, Eq)]
pub enum Undone {
    /// The port of a link is no number of 1 to 32.
    NoPort,
    /// The port of a link is such a number, and the agent has no port of it.
    NoPortThere,
    /// The agent does not know the command.
    Unknown,
    /// The policy is none for the agent, or it had no memory for it.
    Policy,
    /// The agent had no memory for the event.
    Short,
    /// No number is left for the event's entry.
    Full,
}

impl Undone {
    /// The line that an operator reads of it; nothing of a policy.
    pub(crate) fn line(self) -> &'static [u8]
        ensures { result.now ≡ undone_line self }
    {
        match self {
            Undone::NoPort => b"agentd: a port is a number of 1 to 32\n",
            Undone::NoPortThere => {
                b"agentd: the agent has no such port: its ports are 1 to the number of [[port]] in its configuration\n"
            }
            Undone::Unknown => {
                b"agentd: the agent does not know this command: commands are link P up, link P down, policy and counts\n"
            }
            Undone::Policy => b"",
            Undone::Short => b"agentd: the agent had no memory for the command\n",
            Undone::Full => {
                b"agentd: the agent has no number left for an entry: it takes changes again when it is started anew\n"
            }
        }
    }
}

// Whether a word is a number that a port may have.
fn may_be_port(word: &str) -> bool
    ensures { result ≡ is_some (port_of MAX_PORTS word.now) }
{
    !matches!(
        read_number(word.as_bytes(), MAX_PORTS as u32),
        Some(0) | None
    )
}

// Why a command was no command for the agent.
fn bad_line_by(order: Order<'_>) -> Undone
    ensures { result ≡ bad_line_by (order_view order.entry) }
{
    match order {
        Order::Link(port, _) if may_be_port(port) => Undone::NoPortThere,
        Order::Link(_, _) => Undone::NoPort,
        Order::Counts | Order::Policy(_) => Undone::Unknown,
    }
}

/// Why an agent did not do a command that it answered so; nothing where it did.
pub(crate) fn undone_by(order: Order<'_>, answer: &[u8]) -> Option<Undone>
    ensures { result ≡ undone_by (order_view order.entry) answer.now }
{
    if answer == b"badline\n".as_slice() {
        return Some(bad_line_by(order));
    }
    if answer == b"policy refused\n".as_slice() {
        return Some(Undone::Policy);
    }
    if answer == b"short\n".as_slice() {
        return Some(Undone::Short);
    }
    if answer == b"full\n".as_slice() {
        return Some(Undone::Full);
    }
    None
}
