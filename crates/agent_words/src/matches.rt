//! What the matches of a command line ask for.
ghost use Rattle.std.specs.Prelude.{◌≡◌, codes, map, option_and_then, option_map, IfOk, IsOkAnd};
ghost use Rattle.clap.specs.Words.{all_of, first_of, one_of, subcommand_rows_of};
ghost use Rattle.agent_words.specs.Asking.{rows_in, is_set, serve, lasting_in, lasting_view, operation_of, inquiry_by, config_in, policy_in, check_by, explain_by, file_asking_by, tell_by, asking_by, asking_in, asked_view, question_view};
ghost use Rattle.agent_words.specs.Orders.{order_view, order_of, order_alone, order_of_file, order_of_port};

use crate::asked::{Asked, Lasting, Operation, Order, Question};
use clap::ArgMatches;
use std::alloc::{AllocError, Global};

/// What matches ask for, if they say it. Only names take memory.
pub(crate) fn asked_in<'a>(
    alloc: Global,
    matches: &ArgMatches<'a>,
) -> Result<Option<Asked<'a>>, AllocError>
    ensures { IfOk result (λ asked.
        option_map asked_view asked ≡ asking_in (subcommand_rows_of matches.now)) }
{
    match matches.subcommand() {
        None => Ok(Some(Asked::BuiltIn)),
        Some((name, entered)) => asked_by(alloc, name, entered),
    }
}

// What a subcommand asks for.
fn asked_by<'a>(
    alloc: Global,
    name: &str,
    entered: &ArgMatches<'a>,
) -> Result<Option<Asked<'a>>, AllocError>
    ensures { IfOk result (λ asked.
        option_map asked_view asked ≡ asking_by name.now (rows_in entered.now)) }
{
    match name {
        "tell" => Ok(tell_in(entered)),
        "check" => Ok(check_in(entered)),
        "explain" => explain_in(alloc, entered),
        _ => Ok(asked_of_file(name, entered)),
    }
}

// What a subcommand asks for of a file.
fn asked_of_file<'a>(name: &str, entered: &ArgMatches<'a>) -> Option<Asked<'a>>
    ensures { option_map asked_view result ≡ file_asking_by name.now (rows_in entered.now) }
{
    let Some(file) = word_in(entered, "FILE") else {
        return None;
    };
    match name {
        "script" => Some(Asked::Script(file)),
        "serve" => served(file, lasting_in(entered)),
        _ => None,
    }
}

// A check of the file of a configuration or of a policy, if the words name one of them; of a configuration with
// `--ports` its sockets.
fn check_in<'a>(entered: &ArgMatches<'a>) -> Option<Asked<'a>>
    ensures { option_map asked_view result ≡ check_by (is_set (one_of (codes "ports") (rows_in entered.now)))
        (config_in (rows_in entered.now)) (policy_in (rows_in entered.now)) }
{
    let ports = is_given(entered, "ports");
    let (file, policy) = (word_in(entered, "FILE"), word_in(entered, "POLICYFILE"));
    match (ports, file, policy) {
        (false, Some(file), None) => Some(Asked::Check(file)),
        (true, Some(file), None) => Some(Asked::CheckPorts(file)),
        (false, None, Some(file)) => Some(Asked::CheckPolicy(file)),
        (true, None, Some(_)) | (_, Some(_), Some(_)) | (_, None, None) => None,
    }
}

// An explanation by the file of a configuration or of a policy, if the words name one of them.
fn explain_in<'a>(alloc: Global, entered: &ArgMatches<'a>) -> Result<Option<Asked<'a>>, AllocError>
    ensures { IfOk result (λ asked. option_map asked_view asked
        ≡ option_and_then (explain_by (config_in (rows_in entered.now)) (policy_in (rows_in entered.now)))
        (inquiry_by (rows_in entered.now))) }
{
    let (file, policy) = (word_in(entered, "FILE"), word_in(entered, "POLICYFILE"));
    match question_in(alloc, entered) {
        Ok(Some(question)) => Ok(explained(file, policy, question)),
        Ok(None) => Ok(None),
        Err(error) => Err(error),
    }
}

// An agent that is to be served, if the words say for how long.
fn served<'a>(file: &'a str, lasting: Option<Lasting<'a>>) -> Option<Asked<'a>>
    ensures { option_map asked_view result
        ≡ option_map (serve file.now) (option_map lasting_view lasting.entry) }
{
    match lasting {
        Some(lasting) => Some(Asked::Serve(file, lasting)),
        None => None,
    }
}

// The command for a served agent, if the words say one.
fn tell_in<'a>(entered: &ArgMatches<'a>) -> Option<Asked<'a>>
    ensures { option_map asked_view result ≡ tell_by (rows_in entered.now) }
{
    let Some(path) = word_in(entered, "PATH") else {
        return None;
    };
    let Some(words) = words_in(entered, "COMMAND") else {
        return None;
    };
    let Some(order) = order_of(words) else {
        return None;
    };
    Some(Asked::Tell(path, order))
}

// The command that words say, if they say one.
fn order_of<'a>(words: &[&'a str]) -> Option<Order<'a>>
    ensures { option_map order_view result ≡ order_of (map (λ word. word.now) words.now) }
{
    match words {
        [] => None,
        [word] => order_alone(word),
        [word, file] => order_of_file(word, file),
        [word, port, direction] => order_of_port(word, port, direction),
        [_, _, _, _, ..] => None,
    }
}

// The command that one word says.
fn order_alone<'a>(word: &str) -> Option<Order<'a>>
    ensures { option_map order_view result ≡ order_alone word.now }
{
    match word {
        "counts" => Some(Order::Counts),
        _ => None,
    }
}

// The command that a word says of a file.
fn order_of_file<'a>(word: &str, file: &'a str) -> Option<Order<'a>>
    ensures { option_map order_view result ≡ order_of_file word.now file.now }
{
    match word {
        "policy" => Some(Order::Policy(file)),
        _ => None,
    }
}

// The command that a word says of a port and a direction.
fn order_of_port<'a>(word: &str, port: &'a str, direction: &str) -> Option<Order<'a>>
    ensures { option_map order_view result ≡ order_of_port word.now port.now direction.now }
{
    if word != "link" {
        return None;
    }
    match direction {
        "up" => Some(Order::Link(port, true)),
        "down" => Some(Order::Link(port, false)),
        _ => None,
    }
}

// What is asked for of a file and a request, where one of the two files is named.
fn explained<'a>(
    file: Option<&'a str>,
    policy: Option<&'a str>,
    question: Question<'a>,
) -> Option<Asked<'a>>
    ensures { option_map asked_view result
        ≡ explain_by (option_map (λ name. name.now) file.entry)
        (option_map (λ name. name.now) policy.entry) (question_view question.entry) }
{
    match (file, policy) {
        (Some(file), None) => Some(Asked::Explain(file, question)),
        (None, Some(file)) => Some(Asked::ExplainPolicy(file, question)),
        (Some(_), Some(_)) | (None, None) => None,
    }
}

// The request of which the decision is asked for, if the words say one.
fn question_in<'a>(
    alloc: Global,
    entered: &ArgMatches<'a>,
) -> Result<Option<Question<'a>>, AllocError>
    ensures { IfOk result (λ question.
        option_map question_view question ≡ inquiry_by (rows_in entered.now)) }
{
    let Some(community) = word_in(entered, "COMMUNITY") else {
        return Ok(None);
    };
    let Some(operation) = operation_in(entered) else {
        return Ok(None);
    };
    let Some(words) = words_in(entered, "NAME") else {
        return Ok(None);
    };
    let names = words.iter().copied().collect(alloc)?;
    Ok(Some(Question {
        community,
        operation,
        names,
    }))
}

// What the word of the request says that it does.
fn operation_in(entered: &ArgMatches<'_>) -> Option<Operation>
    ensures { result ≡ option_and_then operation_of (first_of (codes "REQUEST") (rows_in entered.now)) }
{
    match word_in(entered, "REQUEST") {
        Some(word) => operation_of(word),
        None => None,
    }
}

// What a word says that a request does.
fn operation_of(word: &str) -> Option<Operation>
    ensures { result ≡ operation_of word.now }
{
    match word {
        "get" => Some(Operation::Get),
        "next" => Some(Operation::GetNext),
        "bulk" => Some(Operation::GetBulk),
        "set" => Some(Operation::Set),
        _ => None,
    }
}

/// The first word that is given under an id.
pub(crate) fn word_in<'a>(entered: &ArgMatches<'a>, id: &str) -> Option<&'a str>
    ensures { option_map (λ word. word.now) result ≡ first_of id.now (rows_in entered.now) }
{
    entered.get_str(id)
}

// The words that are given under an id.
fn words_in<'m, 'a>(entered: &'m ArgMatches<'a>, id: &str) -> Option<&'m [&'a str]>
    ensures { option_map (λ words. map (λ word. word.now) words.now) result
        ≡ all_of id.now (rows_in entered.now) }
{
    entered.get_strs(id)
}

// For how long an agent is to be served, if the flags say it: only one without an end writes the audit
// of each request, or has a control socket.
fn lasting_in<'a>(entered: &ArgMatches<'a>) -> Option<Lasting<'a>>
    ensures { option_map lasting_view result ≡ lasting_in (rows_in entered.now) }
{
    let control = word_in(entered, "PATH");
    match (
        is_given(entered, "forever"),
        is_given(entered, "audit"),
        control,
    ) {
        (true, audit, control) => Some(Lasting::Forever { audit, control }),
        (false, false, None) => Some(Lasting::Rounds),
        (false, false, Some(_)) | (false, true, _) => None,
    }
}

// Whether the flag of this name is given.
pub(crate) fn is_given(entered: &ArgMatches<'_>, flag: &str) -> bool
    ensures { result ≡ is_set (one_of flag.now (rows_in entered.now)) }
{
    entered.get_one::<bool>(flag).unwrap_or(false)
}
