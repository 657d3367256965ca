//! Has a served agent do a command.
ghost use Rattle.std.specs.Prelude.{◌≡◌, IfOk, IsOkAnd, ⊤, ℕ, List, Result, Ok};
ghost use Rattle.control_socket.specs.Sent.{link_octets, policy_octets};
ghost use Rattle.agent_words.specs.Orders.{order_view};
ghost use Rattle.agent_program.specs.Files.{read_view};
ghost use Rattle.agent_program.specs.declared.answering.NoAnswer.{NoAnswer};
ghost use Rattle.agent_program.specs.Commands.{policy_failure, heard, answer_view, may_be_empty, IsPrinted, EndsBy, IsSent, IsPolicyCommand, is_policy_refused, IsPolicyEnd, EndsOtherwise, EndsPolicy, SendsRead, SendsFile, SendsCommand};

use crate::answering::{NoAnswer, Undone, undone_by};
use crate::failure::{Failure, policy_refusal, write_out};
use crate::files::{FileLimit, NotRead, ReadFile, SystemFiles};
use crate::taken::{is_taken, print_taken};
use agent_words::Order;
use configuration::policy_part_in;
use control_socket::{COUNTS, ask_agent, link_command, policy_command};
use std::alloc::{AllocError, Global};
use std::io::Write;
use std::net::Net;
use std::time::Clock;

/// Has served agents do commands.
pub trait AskAgent {
    /// What the agent whose control socket has this path may answer to these octets, or why it gives no
    /// answer.
    ghost answers: { Self → List ℕ → List ℕ → Result (List ℕ) NoAnswer → Type 0 };

    /// Sends a command to the agent whose control socket has this path, and gives its answer.
    ///
    /// # Errors
    /// Why there was none within two seconds.
    fn ask(&self, alloc: Global, path: &str, command: &[u8]) -> Result<Vec<u8>, NoAnswer>
        ensures { answers self.now path.now command.now (answer_view result) };
}

/// The agents of the system. No clause can say what one answers.
impl<R: Net + Clock> AskAgent for SystemFiles<'_, R> {
    ghost answers = { λ _ _ _ _. ⊤ };

    fn ask(&self, alloc: Global, path: &str, command: &[u8]) -> Result<Vec<u8>, NoAnswer> {
        match ask_agent(self.0, alloc, path, command) {
            Ok(answer) => Ok(answer),
            Err(error) => Err(NoAnswer::of_kind(error.kind())),
        }
    }
}

// Prints an answer to a command. One that refuses it is a failure.
fn print_answer<'a, O: Write>(
    order: Order<'a>,
    answer: &[u8],
    writer: &mut O,
) -> Result<(), Failure<'a>>
    ensures { IsPrinted O.contents (order_view order.entry) answer.now writer.old writer.new result }
{
    match write_out(answer, writer) {
        Ok(()) => match undone_by(order, answer) {
            Some(why) => Err(Failure::NotDone(why)),
            None => Ok(()),
        },
        Err(failure) => Err(failure),
    }
}

// Prints what the agent of a path answers to a command, if it answers.
fn end_by<'a, O: Write>(
    path: &'a str,
    order: Order<'a>,
    answer: Result<Vec<u8>, NoAnswer>,
    writer: &mut O,
) -> Result<(), Failure<'a>>
    ensures { EndsBy O.contents path.entry (order_view order.entry) (answer_view answer) writer.old
        writer.new result }
{
    match answer {
        Ok(answer) => print_answer(order, &answer, writer),
        Err(why) => Err(Failure::Unanswered(path, why)),
    }
}

// Whether a command may be answered without octets: a link may, by which no port sends.
fn may_be_empty(order: Order<'_>) -> bool
    ensures { result ≡ may_be_empty (order_view order.entry) }
{
    matches!(order, Order::Link(..))
}

// An answer, if it is one: no octets are one only to a command that may be answered so.
fn heard(may_be_empty: bool, answer: Result<Vec<u8>, NoAnswer>) -> Result<Vec<u8>, NoAnswer>
    ensures { answer_view result ≡ heard may_be_empty (answer_view answer) }
{
    match answer {
        Ok(answer) if may_be_empty || !answer.is_empty() => Ok(answer),
        Ok(_) => Err(NoAnswer::Ended),
        Err(why) => Err(why),
    }
}

// Sends the octets of a command to the agent of a path.
fn send<'a, F: AskAgent, O: Write>(
    alloc: Global,
    agents: &F,
    path: &'a str,
    order: Order<'a>,
    octets: &[u8],
    writer: &mut O,
) -> Result<(), Failure<'a>>
    ensures { IsSent (F.answers agents.now) O.contents path.entry (order_view order.entry) octets.now
        writer.old writer.new result }
{
    let answer = agents.ask(alloc, path, octets);
    end_by(path, order, heard(may_be_empty(order), answer), writer)
}

// Why there is no command by a file.
fn policy_failure(why: NotRead<'_>) -> Failure<'_>
    ensures { result ≡ policy_failure why.entry }
{
    match why {
        NotRead::Memory(_) => Failure::Run,
        NotRead::Unreadable(file, reason) => Failure::CannotRead(file, reason),
        NotRead::TooLarge(file, limit) => Failure::TooLarge(file, limit),
    }
}

// The command for the policy of a file of these octets: of a whole configuration its policy is sent.
fn policy_command_of(alloc: Global, text: &[u8]) -> Result<Vec<u8>, AllocError>
    ensures { IfOk result (λ octets. IsPolicyCommand text.now octets.items) }
{
    match policy_part_in(alloc, text)? {
        Some(part) => policy_command(alloc, part.as_bytes()),
        None => policy_command(alloc, text),
    }
}

// Whether a policy was refused, by how the program ends behind its answer.
fn is_policy_refused(answered: &Result<(), Failure<'_>>) -> bool
    ensures { result ≡ is_policy_refused answered.now }
{
    matches!(answered, Err(Failure::NotDone(Undone::Policy)))
}

// How the program ends behind the answer to a policy of these octets of a file: where it is refused, with the
// reason that the octets have.
fn end_by_policy<'a>(
    alloc: Global,
    file: &'a str,
    text: &[u8],
    answered: Result<(), Failure<'a>>,
) -> Result<(), Failure<'a>>
    ensures { IsPolicyEnd file.entry text.now answered.entry result }
{
    if is_policy_refused(&answered) {
        Err(Failure::PolicyNotDone(file, policy_refusal(alloc, text)))
    } else {
        answered
    }
}

// Prints an answer to a policy of these octets of a file by which it was not taken, if there is one.
#[tactic(auto, using(crate::proofs::FileLemmas::ended_otherwise))]
fn end_otherwise<'a, O: Write>(
    alloc: Global,
    path: &'a str,
    file: &'a str,
    text: &[u8],
    answer: Result<Vec<u8>, NoAnswer>,
    writer: &mut O,
) -> Result<(), Failure<'a>>
    ensures { EndsOtherwise O.contents path.entry file.entry text.now (answer_view answer)
        writer.old writer.new result }
{
    let answered = end_by(path, Order::Policy(file), answer, writer);
    end_by_policy(alloc, file, text, answered)
}

// Prints what the agent of a path answers to a policy of these octets of a file, if it answers; where it took
// the policy, with what is warned of in it.
fn end_policy<'a, O: Write>(
    alloc: Global,
    path: &'a str,
    file: &'a str,
    text: &[u8],
    answer: Result<Vec<u8>, NoAnswer>,
    writer: &mut O,
) -> Result<(), Failure<'a>>
    ensures { EndsPolicy O.contents path.entry file.entry text.now (answer_view answer)
        writer.old writer.new result }
{
    if is_taken(&answer) {
        print_taken(alloc, text, writer)
    } else {
        end_otherwise(alloc, path, file, text, answer, writer)
    }
}

// Sends the policy of a file of these octets.
#[tactic(auto, using(crate::proofs::FileLemmas::policy_sent))]
fn send_policy<'a, F: AskAgent, O: Write>(
    alloc: Global,
    agents: &F,
    path: &'a str,
    file: &'a str,
    text: &[u8],
    writer: &mut O,
) -> Result<(), Failure<'a>>
    ensures { SendsRead (F.answers agents.now) O.contents path.entry file.entry (Ok text.now)
        writer.old writer.new result }
{
    match policy_command_of(alloc, text) {
        Ok(octets) => {
            let answer = agents.ask(alloc, path, &octets);
            end_policy(alloc, path, file, text, heard(false, answer), writer)
        }
        Err(_) => Err(Failure::Run),
    }
}

// Sends the policy that was read of this file.
fn send_read<'a, F: AskAgent, O: Write>(
    alloc: Global,
    agents: &F,
    path: &'a str,
    file: &'a str,
    read: Result<Vec<u8>, NotRead<'a>>,
    writer: &mut O,
) -> Result<(), Failure<'a>>
    ensures { SendsRead (F.answers agents.now) O.contents path.entry file.entry (read_view read.entry)
        writer.old writer.new result }
{
    match read {
        Ok(text) => send_policy(alloc, agents, path, file, &text, writer),
        Err(why) => Err(policy_failure(why)),
    }
}

// Sends the policy of a file.
#[tactic(auto, using(crate::proofs::FileLemmas::file_sent))]
fn send_file<'a, F: ReadFile + AskAgent, O: Write>(
    alloc: Global,
    files: &F,
    path: &'a str,
    file: &'a str,
    writer: &mut O,
) -> Result<(), Failure<'a>>
    ensures { SendsFile (F.gives files.now) (F.answers files.now) O.contents path.entry file.entry
        writer.old writer.new result }
{
    let read = files.read_file(file, FileLimit::Policy);
    send_read(alloc, files, path, file, read, writer)
}

/// Sends a command to the agent whose control socket has this path, and prints its answer. The file of a policy
/// may be that of a whole configuration, whose policy is sent. Where the agent took a policy, a line for each of
/// its warnings stands behind the answer, or one that there was no memory for them.
///
/// # Errors
/// `CannotRead` where the file of a policy cannot be read, `TooLarge` where it has more octets than a
/// policy may have; `Run` where there is no memory for the
/// command; `Unanswered`, with the path and why, where no answer comes within two seconds, or none with
/// octets to counts or a policy: nothing is written then. `NotDone`, with why,
/// where the answer, which is written, refuses the command, and `PolicyNotDone`, with the file and why, where it
/// refuses a policy; `Output` where a write fails.
pub fn send_order<'a, F: ReadFile + AskAgent, O: Write>(
    alloc: Global,
    files: &F,
    path: &'a str,
    order: Order<'a>,
    writer: &mut O,
) -> Result<(), Failure<'a>>
    ensures { SendsCommand (F.gives files.now) (F.answers files.now) O.contents path.entry order.entry
        writer.old writer.new result }
{
    match order {
        Order::Counts => send(alloc, files, path, order, COUNTS, writer),
        Order::Link(port, up) => match link_command(alloc, port, up) {
            Ok(octets) => send(alloc, files, path, order, &octets, writer),
            Err(_) => Err(Failure::Run),
        },
        Order::Policy(file) => send_file(alloc, files, path, file, writer),
    }
}
