//! What the matches of a command line ask for.
ghost use Rattle.std.specs.Prelude.{◌≡◌, ◌≤◌, pos, codes, map, Some, None, length, IfOk, OnErr};
ghost use Rattle.clap.specs.Words.{all_of, first_of, one_of, subcommand_rows_of};
ghost use Rattle.message_core.specs.Encodable.{AreEncodable};
ghost use Rattle.message_core.specs.declared.request.Kind.TheVariants as kind;
ghost use Rattle.manager_core.specs.Runs.{IsAskable};
ghost use Rattle.manager_words.specs.Bindings.{Reads};
ghost use Rattle.manager_words.specs.Requests.{rows_in, word_of, IsBulkNumber, IsGivenTries, AreTries, first_request, AsksBy, AreNames, AreSettings, IsAskOf, IsBulkOf, IsWalkOf, IsErrandBy, IsCommunityOf, IsErrandOf, IsAgentOf, IsStated};

use crate::bindings::{name_of, names_of, settings_of};
use crate::fault::WordsFault;
use clap::ArgMatches;
use manager_core::{Command, ManagerOperation};
use message_core::{Bindings, Kind, MAX_COMMUNITY, MAX_REQUEST, Octets, Request, encode_request};
use std::alloc::Global;
use std::net::SocketAddr;

/// How often a request is sent at most, where no word says it: 3 times.
pub const DEFAULT_TRIES: u32 = 3;

/// The name of a request.
#[derive(Clone, Copy)]
pub(crate) enum Word {
    /// `get`: the values under names.
    Get,
    /// `next`: the first instance behind each name.
    Next,
    /// `bulk`: a GetBulk.
    Bulk,
    /// `walk`: a subtree.
    Walk,
    /// `set`: a Set.
    Set,
}

/// The command that matches say.
///
/// # Errors
/// What of them cannot be read, or `Memory`.
pub(crate) fn command_in<'a>(
    alloc: Global,
    matches: &ArgMatches<'a>,
) -> Result<Command, WordsFault<'a>>
    ensures read { Reads (IsStated (rows_in matches.now) (subcommand_rows_of matches.now)) result }
    ensures askable { IfOk result (λ c. IsAskable c.errand) }
{
    let Some((name, request)) = matches.subcommand() else {
        return Err(WordsFault::Missing("COMMAND"));
    };
    let tries = tries_of(matches, request)?;
    let agent = agent_of(request)?;
    let errand = errand_of(alloc, name, request)?;
    Ok(Command {
        agent,
        tries,
        errand,
    })
}

// The number of tries, by `--tries` in front of a request's name or behind it.
fn tries_of<'a>(top: &ArgMatches<'a>, request: &ArgMatches<'a>) -> Result<u32, WordsFault<'a>>
    ensures { Reads (AreTries (one_of (codes "TRIES") (rows_in top.now))
        (one_of (codes "TRIES") (rows_in request.now))) result }
{
    match (tries_in(top)?, tries_in(request)?) {
        (None, None) => Ok(DEFAULT_TRIES),
        (Some(tries), None) | (None, Some(tries)) => Ok(tries),
        (Some(_), Some(_)) => Err(WordsFault::Tries),
    }
}

// The number of one `--tries`, if it is given.
fn tries_in<'a>(matches: &ArgMatches<'a>) -> Result<Option<u32>, WordsFault<'a>>
    ensures { Reads (IsGivenTries (one_of (codes "TRIES") (rows_in matches.now))) result }
{
    match matches.try_get_one::<u32>("TRIES") {
        Ok(tries) => Ok(tries),
        Err(_) => Err(WordsFault::Number("TRIES")),
    }
}

// The agent whose address is given.
fn agent_of<'a>(request: &ArgMatches<'a>) -> Result<SocketAddr, WordsFault<'a>>
    ensures { Reads (IsAgentOf (rows_in request.now)) result }
{
    let address = word_in(request, "ADDRESS")?;
    match address.parse::<SocketAddr>() {
        Ok(agent) => Ok(agent),
        Err(_) => Err(WordsFault::Address(address)),
    }
}

// The errand of a request's name and of the words behind it.
fn errand_of<'a>(
    alloc: Global,
    name: &str,
    request: &ArgMatches<'a>,
) -> Result<ManagerOperation, WordsFault<'a>>
    ensures read { Reads (IsErrandOf name.now (rows_in request.now)) result }
    ensures askable { IfOk result IsAskable }
{
    let Some(word) = word_of(name) else {
        return Err(WordsFault::Missing("COMMAND"));
    };
    let community = community_of(alloc, request)?;
    errand_by(alloc, word, community, request)
}

// The request of a name.
fn word_of(name: &str) -> Option<Word>
    ensures { result ≡ word_of name.now }
{
    match name {
        "get" => Some(Word::Get),
        "next" => Some(Word::Next),
        "bulk" => Some(Word::Bulk),
        "walk" => Some(Word::Walk),
        "set" => Some(Word::Set),
        _ => None,
    }
}

// The community that is given.
fn community_of<'a>(alloc: Global, request: &ArgMatches<'a>) -> Result<Octets, WordsFault<'a>>
    ensures { Reads (IsCommunityOf (rows_in request.now)) result }
{
    let community = word_in(request, "COMMUNITY")?;
    if community.len() > MAX_COMMUNITY {
        return Err(WordsFault::Community);
    }
    match Octets::from_slice(alloc, community.as_bytes()) {
        Ok(community) => Ok(community),
        Err(_) => Err(WordsFault::Memory),
    }
}

// What a request asks for, of a community and with the words behind its name.
fn errand_by<'a>(
    alloc: Global,
    word: Word,
    community: Octets,
    request: &ArgMatches<'a>,
) -> Result<ManagerOperation, WordsFault<'a>>
    requires { length community ≤ MAX_COMMUNITY }
    ensures read { Reads (IsErrandBy (Some word) community (rows_in request.now)) result }
    ensures askable { IfOk result IsAskable }
{
    match word {
        Word::Get => ask_of(alloc, Kind::Get, community, request),
        Word::Next => ask_of(alloc, Kind::GetNext, community, request),
        Word::Bulk => bulk_of(alloc, community, request),
        Word::Walk => walk_of(alloc, community, request),
        Word::Set => set_of(alloc, community, request),
    }
}

// A request for names.
fn ask_of<'a>(
    alloc: Global,
    kind: Kind,
    community: Octets,
    request: &ArgMatches<'a>,
) -> Result<ManagerOperation, WordsFault<'a>>
    ensures read { Reads (IsAskOf kind community (pos 0) (pos 0) (AreNames (rows_in request.now)))
        result }
    ensures askable { IfOk result IsAskable }
{
    let bindings = names_in(alloc, request)?;
    asking(kind, 0, 0, community, bindings)
}

// A Set of settings.
fn set_of<'a>(
    alloc: Global,
    community: Octets,
    request: &ArgMatches<'a>,
) -> Result<ManagerOperation, WordsFault<'a>>
    ensures read { Reads (IsAskOf kind.Set community (pos 0) (pos 0)
        (AreSettings (rows_in request.now))) result }
    ensures askable { IfOk result IsAskable }
{
    let bindings = settings_in(alloc, request)?;
    asking(Kind::Set, 0, 0, community, bindings)
}

// A GetBulk by its two numbers and its names.
fn bulk_of<'a>(
    alloc: Global,
    community: Octets,
    request: &ArgMatches<'a>,
) -> Result<ManagerOperation, WordsFault<'a>>
    ensures read { Reads (IsBulkOf community (rows_in request.now)) result }
    ensures askable { IfOk result IsAskable }
{
    let first = bulk_number(request, "N")?;
    let second = bulk_number(request, "M")?;
    let bindings = names_in(alloc, request)?;
    asking(Kind::GetBulk, first, second, community, bindings)
}

// The bindings of the names that are given.
fn names_in<'a>(alloc: Global, request: &ArgMatches<'a>) -> Result<Bindings, WordsFault<'a>>
    ensures read { Reads (AreNames (rows_in request.now)) result }
    ensures encodable { IfOk result AreEncodable }
{
    let words = words_in(request, "NAME")?;
    names_of(alloc, words)
}

// The bindings of the settings that are given.
fn settings_in<'a>(alloc: Global, request: &ArgMatches<'a>) -> Result<Bindings, WordsFault<'a>>
    ensures read { Reads (AreSettings (rows_in request.now)) result }
    ensures encodable { IfOk result AreEncodable }
{
    let words = words_in(request, "SETTING")?;
    settings_of(alloc, words)
}

// A number of a GetBulk.
fn bulk_number<'a>(request: &ArgMatches<'a>, id: &'a str) -> Result<i32, WordsFault<'a>>
    ensures { Reads (IsBulkNumber (one_of id.entry.now (rows_in request.now))) result }
{
    match request.try_get_one::<i32>(id) {
        Ok(Some(number)) => Ok(number),
        Ok(None) => Err(WordsFault::Missing(id)),
        Err(_) => Err(WordsFault::Number(id)),
    }
}

// A walk by its root.
fn walk_of<'a>(
    alloc: Global,
    community: Octets,
    request: &ArgMatches<'a>,
) -> Result<ManagerOperation, WordsFault<'a>>
    requires { length community ≤ MAX_COMMUNITY }
    ensures read { Reads (IsWalkOf community (rows_in request.now)) result }
    ensures askable { IfOk result IsAskable }
{
    let root = name_of(alloc, word_in(request, "NAME")?)?;
    Ok(ManagerOperation::Walk(community, root))
}

// A request, where it fits into a datagram.
fn asking<'a>(
    kind: Kind,
    first: i32,
    second: i32,
    community: Octets,
    bindings: Bindings,
) -> Result<ManagerOperation, WordsFault<'a>>
    requires { AreEncodable bindings }
    ensures read { Reads (AsksBy (first_request kind first second community bindings)) result }
    ensures askable { IfOk result IsAskable }
{
    let request = Request {
        kind,
        id: 1,
        first,
        second,
        community,
        bindings,
    };
    let mut space = [0u8; MAX_REQUEST];
    match encode_request(&request, &mut space) {
        Ok(_) => Ok(ManagerOperation::Ask(request)),
        Err(_) => Err(WordsFault::Request),
    }
}

// The first word that is given under an id.
fn word_in<'a>(matches: &ArgMatches<'a>, id: &'a str) -> Result<&'a str, WordsFault<'a>>
    ensures word { IfOk result (λ word. first_of id.entry.now (rows_in matches.now) ≡ Some word.now) }
    ensures none { OnErr result (first_of id.entry.now (rows_in matches.now) ≡ None) }
{
    match matches.get_str(id) {
        Some(word) => Ok(word),
        None => Err(WordsFault::Missing(id)),
    }
}

// The words that are given under an id.
fn words_in<'m, 'a>(
    matches: &'m ArgMatches<'a>,
    id: &'a str,
) -> Result<&'m [&'a str], WordsFault<'a>>
    ensures words { IfOk result (λ words. all_of id.entry.now (rows_in matches.now)
        ≡ Some (map (λ word. word.now) words.now)) }
    ensures none { OnErr result (all_of id.entry.now (rows_in matches.now) ≡ None) }
{
    match matches.get_strs(id) {
        Some(words) => Ok(words),
        None => Err(WordsFault::Missing(id)),
    }
}
