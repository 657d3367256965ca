//! The words of a manager, and what its help says of them.
ghost use Rattle.std.specs.Prelude.{[], codes, IfOk, IsOkAnd};
ghost use Rattle.clap.specs.Words.{AddsArg, AddsSubcommand};
ghost use Rattle.manager_words.specs.Options.{one_word, some_words, bulk_number, tries_option, request_shape, names_shape, bulk_shape, walk_shape, set_shape, manager_shape, manager_app};
ghost use Rattle.manager_words.specs.Built.{IsArgument, HasWords};

use clap::{Arg, Command, value_parser};
use std::alloc::{AllocError, Global};

/// What help says of `get`.
const GET_HELP: &str = "Prints the values under names";

/// What help says of `next`.
const NEXT_HELP: &str = "Prints the first instance behind each name";

/// The words of a manager: a subcommand for each kind of request.
pub(crate) fn manager_command<'a>(alloc: Global) -> Result<Command<'a>, AllocError>
    ensures { IfOk result (HasWords manager_app) }
{
    let manager = added(
        manager_options(alloc),
        names_command(alloc, "get", GET_HELP),
    );
    let manager = added(manager, names_command(alloc, "next", NEXT_HELP));
    let manager = added(manager, bulk_command(alloc));
    let manager = added(manager, walk_command(alloc));
    added(manager, set_command(alloc))
}

// A command with a request more, where both are made.
fn added<'a>(
    manager: Result<Command<'a>, AllocError>,
    request: Result<Command<'a>, AllocError>,
) -> Result<Command<'a>, AllocError>
    ensures { IfOk result (λ r. IsOkAnd manager.entry (λ m.
        IsOkAnd request.entry (λ s. AddsSubcommand m s r))) }
{
    manager?.subcommand(request?)
}

// A command with an argument more, where the command is made.
fn with_argument<'a>(
    command: Result<Command<'a>, AllocError>,
    argument: Arg<'a>,
) -> Result<Command<'a>, AllocError>
    ensures { IfOk result (λ r. IsOkAnd command.entry (λ c. AddsArg c argument.entry r)) }
{
    command?.arg(argument)
}

// What stands in front of a request.
fn manager_options<'a>(alloc: Global) -> Result<Command<'a>, AllocError>
    ensures { IfOk result (HasWords (record { top = manager_shape; subs = [] })) }
{
    Command::new(alloc, "manager")
        .about("Asks one agent by SNMPv2c over UDP, and prints what it answers")
        .after_help("Exit status: 0 if all is printed, 1 if not, 2 if the words are no command.")
        .version("0.1")
        .disable_help_subcommand(true)
        .subcommand_required(true)
        .arg(tries_option(alloc))
}

// `get` and `next`: names.
fn names_command<'a>(
    alloc: Global,
    name: &'a str,
    about: &'a str,
) -> Result<Command<'a>, AllocError>
    ensures { IfOk result (HasWords (record { top = names_shape name.entry.now; subs = [] })) }
{
    with_argument(request_command(alloc, name, about), names(alloc))
}

// `bulk`: two numbers, and names.
fn bulk_command<'a>(alloc: Global) -> Result<Command<'a>, AllocError>
    ensures { IfOk result (HasWords (record { top = bulk_shape; subs = [] })) }
{
    let bulk = request_command(alloc, "bulk", "Prints what a GetBulk answers");
    let first = bulk_number(
        alloc,
        "N",
        "Non-repeaters: so many names, from the first, are asked for once, 0 to 2147483647",
    );
    let second = bulk_number(
        alloc,
        "M",
        "Max-repetitions: how often the other names are asked for, 0 to 2147483647",
    );
    let bulk = with_argument(bulk, first);
    let bulk = with_argument(bulk, second);
    with_argument(bulk, names(alloc))
}

// `walk`: the root of a subtree.
fn walk_command<'a>(alloc: Global) -> Result<Command<'a>, AllocError>
    ensures { IfOk result (HasWords (record { top = walk_shape; subs = [] })) }
{
    let walk = request_command(alloc, "walk", "Prints all instances below a name");
    with_argument(walk, one_word(alloc, "NAME", NAME_HELP))
}

// `set`: settings.
fn set_command<'a>(alloc: Global) -> Result<Command<'a>, AllocError>
    ensures { IfOk result (HasWords (record { top = set_shape; subs = [] })) }
{
    let set = request_command(
        alloc,
        "set",
        "Sets values, and prints what the agent answers",
    );
    let settings = some_words(
        alloc,
        "SETTING",
        "NAME=i:NUMBER for an INTEGER, NAME=x:HEX for an OCTET STRING",
    );
    with_argument(set, settings)
}

// What each request has: the tries, the agent and the community.
fn request_command<'a>(
    alloc: Global,
    name: &'a str,
    about: &'a str,
) -> Result<Command<'a>, AllocError>
    ensures { IfOk result (HasWords (record { top = request_shape name.entry.now []; subs = [] })) }
{
    let request = Command::new(alloc, name)
        .about(about)
        .arg(tries_option(alloc));
    let address = one_word(
        alloc,
        "ADDRESS",
        "The agent's address and port, as 127.0.0.1:161 or [::1]:161",
    );
    let community = one_word(
        alloc,
        "COMMUNITY",
        "The community, up to 255 octets; behind '--' if it begins with '-'",
    );
    let request = with_argument(request, address);
    with_argument(request, community)
}

/// What help says of a name.
const NAME_HELP: &str = "An object identifier with dots, as 1.3.6.1.2.1.17.1.2.0";

// `--tries N`.
fn tries_option<'a>(alloc: Global) -> Arg<'a>
    ensures { IsArgument tries_option result }
{
    Arg::new(alloc, "TRIES")
        .long("tries")
        .value_parser(value_parser!(u32).range(1..=10))
        .help("Most times that a request is sent, 1 to 10 [default: 3]")
}

// One name or more.
fn names<'a>(alloc: Global) -> Arg<'a>
    ensures { IsArgument (some_words (codes "NAME")) result }
{
    some_words(alloc, "NAME", NAME_HELP)
}

// A number of a GetBulk.
fn bulk_number<'a>(alloc: Global, id: &'a str, help: &'a str) -> Arg<'a>
    ensures { IsArgument (bulk_number id.entry.now) result }
{
    one_word(alloc, id, help).value_parser(value_parser!(i32).range(0..=2_147_483_647))
}

// One word or more.
fn some_words<'a>(alloc: Global, id: &'a str, help: &'a str) -> Arg<'a>
    ensures { IsArgument (some_words id.entry.now) result }
{
    one_word(alloc, id, help).num_args(1..)
}

// One word that has to stand.
fn one_word<'a>(alloc: Global, id: &'a str, help: &'a str) -> Arg<'a>
    ensures { IsArgument (one_word id.entry.now) result }
{
    Arg::new(alloc, id).required(true).help(help)
}
