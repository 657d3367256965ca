//! The words of `agentd`, and what its help says of them.
ghost use Rattle.std.specs.Prelude.{[], codes, IfOk, IsOkAnd};
ghost use Rattle.clap.specs.Words.{AddsArg, AddsSubcommand};
ghost use Rattle.agent_words.specs.Options.{config_option, config_choice, policy_option, control_option, control_needed, flag_rule, one_word, some_words, file_shape, either_shape, check_shape, serve_shape, explain_shape, tell_shape, agent_shape, agent_app, usage_app};
ghost use Rattle.agent_words.specs.Built.{IsArgument, IsCalled, HasWords};

use clap::builder::ValueParser;
use clap::{Arg, ArgAction, Command};
use std::alloc::{AllocError, Global};

/// The version of `agentd`.
pub const VERSION: &str = "0.1";

/// What stands below the help.
const AFTER_HELP: &str =
    "Without a command the script runs by the built-in configuration: address 02000000000A, two ports,
the communities public and admin. 'agentd script --help' has the lines of a script.

Exit status: 0; 1 if the input, the output or the run failed; 2 if the words are no command, or if
FILE cannot be read or is refused.

Example: printf 'link 1 up\\ntick 2\\n' | agentd script --config agentd.toml";

/// The lines of a script.
const SCRIPT_HELP: &str = "Lines of a script, from standard input:
  request HEX       a datagram: reply HEX, or drop and the cause
  frame P HEX       a frame by port P: forward P,P.. or forward -, then the BPDUs that are sent, or
                    badframe and the cause
  tick N            N seconds pass, 1 to 100000: the BPDUs that are sent
  link P up         the link of port P goes up: the BPDUs that are sent
  link P down       the link of port P goes down: the same
  policy, end       the lines of TOML between them are the policy from there on: policy ok, or policy
                    refused
  audit on          the audit of each request is written too; audit off: no longer
  counts            how many datagrams were dropped, by cause
  driver N..        the ports' devices fail at these of their next 64 calls, and at no other
  any other line    badline";

/// What serving needs of FILE, and how it goes on.
const SERVE_HELP: &str =
    "FILE has to have the table serve, and listen and peer of each port: else it is refused.

One socket takes the requests, and one of each port its frames. Each thread that answers and each
port makes as many receives as rounds says, of at most a second each, and the clock as many seconds.
When all are done, what was done is logged on standard error: entries E requests Q older O drops D.

With --forever each begins its rounds anew when they are done. That line comes each time the clock is
done, and one where a thread, a port or the clock ends, with its reason; the others go on.

With --audit, which wants --forever, one line on standard output says of each request that is
entered, answered or dropped: its number, who asked, the request-id, and the audit, as
17 192.0.2.7:40000 12 get 0 0 ok access(readers,,2,1) view bridge. Where standard output takes them
too slowly, or fails, the agent goes on, and logs how many lines were lost.

With --control, which wants --forever, the agent does what 'agentd tell' asks of it at a Unix socket
of that path. The directory of PATH has to be the agent's own, and closed to all others.

Exit status: 0; 1 if nothing could be served, or if one of them failed; 2 if the words are no
command, or if FILE cannot be read or is refused.

Examples:
  agentd serve --forever --config agentd.toml
  agentd serve --forever --audit --control /run/agentd/control --config agentd.toml";

/// What is checked by each option.
const CHECK_HELP: &str =
    "With --policy it says whether POLICYFILE may be given to a served agent: whether it is a policy alone, or a
configuration with one.

With --ports it prints the sockets of FILE alone, for other programs: snmp and the socket of requests, and
for each port a line of its number, where its frames come in, and where they go out to, as
1 127.0.0.1:16001 127.0.0.1:16101. FILE has to have the table serve, and listen and peer of each port.

Exit status: 0 if it is one, and with --ports can be served; 2 if not; 1 if that cannot be printed.

Examples:
  agentd check --config agentd.toml
  agentd check --ports --config agentd.toml
  agentd check --policy policy.toml";

/// How the text of a decision reads.
const EXPLAIN_HELP: &str =
    "get, next and bulk ask for the view to read by, set for the view to write by. NAME may begin with
a dot, as Net-SNMP's tools print it.

The first line is the verdict, in the words of an audit: drop and the cause; why the request is
refused; or ok, the access row that decides, and the view that it names, as
ok access(readers,,2,1) view bridge.

Where it is ok, a line for each NAME says whether it is in the view, and by which family of the view:
NAME in of view V by family(V,SUBTREE), NAME out of view V by family(V,SUBTREE), or
NAME out of view V by none. It says that of NAME itself, also for next and bulk, which answer what
stands behind it.

Exit status: 0; 1 if that cannot be printed; 2 if the words are no command, if a NAME is none, or if
FILE cannot be read or is refused.

Examples:
  agentd explain --config agentd.toml public get 1.3.6.1.2.1.17.1.2.0
  agentd explain --config agentd.toml admin set .1.3.6.1.2.1.17.2.2.0
  agentd explain --policy policy.toml public get 1.3.6.1.2.1.17.1.2.0";

/// The commands for a served agent.
const TELL_HELP: &str = "COMMAND is one of:
  link P up           the link of port P goes up: the BPDUs that are sent
  link P down         the link of port P goes down: the same
  policy POLICYFILE   the TOML in POLICYFILE is the policy from there on: policy ok, or policy refused
  counts              how many datagrams and requests were dropped, by cause

The agent runs with 'agentd serve --forever --control PATH'. What it answers is printed, and behind
policy ok a line for each row of the policy that cannot work or is seldom meant.
POLICYFILE is a policy alone, or a configuration, whose policy is sent. Behind a refusal, and where no
answer comes, standard error has the reason.

Exit status: 0; 1 if no answer comes within two seconds, or if it is badline, policy refused, short
or full; 2 if the words are no command, or if POLICYFILE cannot be read.

Examples:
  agentd tell --control /run/agentd/control link 2 down
  agentd tell --control /run/agentd/control policy policy.toml
  agentd tell --control /run/agentd/control counts";

/// The words of `agentd`: a subcommand for what is done with a file, and one for a served agent.
pub(crate) fn agent_command<'a>(alloc: Global) -> Result<Command<'a>, AllocError>
    ensures { IfOk result (HasWords agent_app) }
{
    let agent = added(Ok(agent_options(alloc)), script_command(alloc));
    let agent = added(agent, check_command(alloc));
    let agent = added(agent, serve_command(alloc));
    let agent = added(agent, explain_command(alloc));
    added(agent, tell_command(alloc))
}

/// The subcommand of this name by itself, by which the usage is printed under a mistake in its words; the
/// whole command where no words of that subcommand are mistaken in such a way.
pub(crate) fn usage_command<'a>(alloc: Global, name: &str) -> Result<Command<'a>, AllocError>
    ensures { IfOk result (HasWords (usage_app name.now)) }
{
    match name {
        "check" => called(check_command(alloc), "agentd check"),
        "serve" => called(serve_command(alloc), "agentd serve"),
        "explain" => called(explain_command(alloc), "agentd explain"),
        "tell" => called(tell_command(alloc), "agentd tell"),
        _ => agent_command(alloc),
    }
}

// A command whose usage begins with these words, where the command is made.
fn called<'a>(
    command: Result<Command<'a>, AllocError>,
    words: &str,
) -> Result<Command<'a>, AllocError>
    ensures { IfOk result (λ r. IsOkAnd command.entry (λ c. IsCalled c r)) }
{
    command?.bin_name(words)
}

// A command with a subcommand more, where both are made.
fn added<'a>(
    agent: Result<Command<'a>, AllocError>,
    subcommand: Result<Command<'a>, AllocError>,
) -> Result<Command<'a>, AllocError>
    ensures { IfOk result (λ r. IsOkAnd agent.entry (λ a.
        IsOkAnd subcommand.entry (λ s. AddsSubcommand a s r))) }
{
    agent?.subcommand(subcommand?)
}

// A command with an argument more, where the command is made.
fn with_argument<'a>(
    command: Result<Command<'a>, AllocError>,
    argument: Arg<'a>,
) -> Result<Command<'a>, AllocError>
    ensures { IfOk result (λ r. IsOkAnd command.entry (λ c. AddsArg c argument.entry r)) }
{
    command?.arg(argument)
}

// What stands in front of a subcommand.
fn agent_options<'a>(alloc: Global) -> Command<'a>
    ensures { HasWords (record { top = agent_shape; subs = [] }) result }
{
    Command::new(alloc, "agentd")
        .about("An SNMPv2c agent of a bridge, driven by a script or served over UDP")
        .after_help(AFTER_HELP)
        .version(VERSION)
}

// `script`: the script by a file.
fn script_command<'a>(alloc: Global) -> Result<Command<'a>, AllocError>
    ensures { IfOk result (HasWords (record { top = file_shape (codes "script"); subs = [] })) }
{
    file_command(
        alloc,
        "script",
        "Runs the script on standard input by the configuration in FILE",
        SCRIPT_HELP,
    )
}

// `check`: whether a file is a configuration, or a policy, or the sockets of one.
fn check_command<'a>(alloc: Global) -> Result<Command<'a>, AllocError>
    ensures { IfOk result (HasWords (record { top = check_shape; subs = [] })) }
{
    let check = either_command(
        alloc,
        "check",
        "Says whether FILE is a configuration, and if not, what would be right",
        CHECK_HELP,
    );
    let ports = flag(
        alloc,
        "ports",
        "Print the sockets of FILE alone; not with --policy",
    );
    with_argument(check, ports)
}

// `serve`: an agent by a file, for its rounds or without an end, and then with or without audits.
fn serve_command<'a>(alloc: Global) -> Result<Command<'a>, AllocError>
    ensures { IfOk result (HasWords (record { top = serve_shape; subs = [] })) }
{
    let serve = file_command(
        alloc,
        "serve",
        "Serves the agent of FILE over UDP: its requests and its ports' frames",
        SERVE_HELP,
    );
    let serve = with_argument(serve, flag(alloc, "forever", "Serve without an end"));
    let audit = flag(
        alloc,
        "audit",
        "Write the audit of each request to standard output; wants --forever",
    );
    let serve = with_argument(serve, audit);
    with_argument(serve, control_option(alloc))
}

// `explain`: what the policy of a file decides on a request.
fn explain_command<'a>(alloc: Global) -> Result<Command<'a>, AllocError>
    ensures { IfOk result (HasWords (record { top = explain_shape; subs = [] })) }
{
    let explain = either_command(
        alloc,
        "explain",
        "Says what the policy in FILE decides on a request, and by which rows",
        EXPLAIN_HELP,
    );
    let community = one_word(
        alloc,
        "COMMUNITY",
        "The community; behind '--' if it begins with '-'",
    );
    let request = one_word(alloc, "REQUEST", "get, next, bulk or set");
    let names = some_words(
        alloc,
        "NAME",
        "An object identifier with dots, as 1.3.6.1.2.1.17.1.2.0",
    );
    let explain = with_argument(explain, community);
    let explain = with_argument(explain, request);
    with_argument(explain, names)
}

// `tell`: a command for a served agent.
fn tell_command<'a>(alloc: Global) -> Result<Command<'a>, AllocError>
    ensures { IfOk result (HasWords (record { top = tell_shape; subs = [] })) }
{
    let tell = Command::new(alloc, "tell")
        .about("Has the agent that is served with a control socket do a command")
        .after_help(TELL_HELP)
        .arg(control_needed(alloc));
    let words = some_words(
        alloc,
        "COMMAND",
        "link P up, link P down, policy POLICYFILE, or counts",
    );
    with_argument(tell, words)
}

// What is done with a file.
fn file_command<'a>(
    alloc: Global,
    name: &'a str,
    about: &'a str,
    after_help: &'a str,
) -> Result<Command<'a>, AllocError>
    ensures { IfOk result (HasWords (record { top = file_shape name.entry.now; subs = [] })) }
{
    Command::new(alloc, name)
        .about(about)
        .after_help(after_help)
        .arg(config_option(alloc))
}

// What is done with the file of a configuration or of a policy.
fn either_command<'a>(
    alloc: Global,
    name: &'a str,
    about: &'a str,
    after_help: &'a str,
) -> Result<Command<'a>, AllocError>
    ensures { IfOk result (HasWords (record { top = either_shape name.entry.now; subs = [] })) }
{
    let command = Command::new(alloc, name)
        .about(about)
        .after_help(after_help)
        .arg(config_choice(alloc));
    with_argument(command, policy_option(alloc))
}

// `--config FILE`, in whose place `--policy` may stand.
fn config_choice<'a>(alloc: Global) -> Arg<'a>
    ensures { IsArgument config_choice result }
{
    config_option(alloc).required(false)
}

// `--policy POLICYFILE`.
fn policy_option<'a>(alloc: Global) -> Arg<'a>
    ensures { IsArgument policy_option result }
{
    Arg::new(alloc, "POLICYFILE")
        .long("policy")
        .value_parser(ValueParser::NonEmptyString)
        .help("A policy alone, or a configuration for its policy, in place of FILE")
}

// `--config FILE`.
fn config_option<'a>(alloc: Global) -> Arg<'a>
    ensures { IsArgument config_option result }
{
    Arg::new(alloc, "FILE")
        .long("config")
        .value_parser(ValueParser::NonEmptyString)
        .required(true)
        .help("The configuration, a TOML document")
}

// `--control PATH`.
fn control_option<'a>(alloc: Global) -> Arg<'a>
    ensures { IsArgument control_option result }
{
    Arg::new(alloc, "PATH")
        .long("control")
        .value_parser(ValueParser::NonEmptyString)
        .help("The control socket; with serve it wants --forever")
}

// The same, which has to stand.
fn control_needed<'a>(alloc: Global) -> Arg<'a>
    ensures { IsArgument control_needed result }
{
    control_option(alloc).required(true)
}

// A flag of this name, with its help.
fn flag<'a>(alloc: Global, name: &'a str, help: &'a str) -> Arg<'a>
    ensures { IsArgument (flag_rule name.entry.now) result }
{
    Arg::new(alloc, name)
        .long(name)
        .action(ArgAction::SetTrue)
        .help(help)
}

// One word or more.
fn some_words<'a>(alloc: Global, id: &'a str, help: &'a str) -> Arg<'a>
    ensures { IsArgument (some_words id.entry.now) result }
{
    one_word(alloc, id, help).num_args(1..)
}

// One word that has to stand.
fn one_word<'a>(alloc: Global, id: &'a str, help: &'a str) -> Arg<'a>
    ensures { IsArgument (one_word id.entry.now) result }
{
    Arg::new(alloc, id).required(true).help(help)
}
