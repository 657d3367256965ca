//! Why words that are in order say no command.
ghost use Rattle.std.specs.Prelude.{◌≡◌};
ghost use Rattle.manager_words.specs.declared.fault.WordsFault.TheVariants.{Memory};

use message_core::{MAX_COMMUNITY, MAX_REQUEST};
use std::alloc::AllocError;
use std::fmt;

/// Why the matches of a command line say no command.
#[derive(Clone, Copy)]
pub(crate) enum WordsFault<'a> {
    /// There is no memory for what they say.
    Memory,
    /// What has to stand does not: its id.
    Missing(&'a str),
    /// `--tries` stands in front of the request's name and behind it.
    Tries,
    /// A number cannot be read: its id.
    Number(&'a str),
    /// This word is no address.
    Address(&'a str),
    /// The community has more than `MAX_COMMUNITY` octets.
    Community,
    /// This word begins with a dot, and a name does not.
    FrontDot(&'a str),
    /// This word is no name, or one that has no encoding.
    Name(&'a str),
    /// This word is no setting.
    Assignment(&'a str),
    /// The request has more than `MAX_REQUEST` octets.
    Request,
}

impl<'a> From<AllocError> for WordsFault<'a> {
    ghost from_gives = { λ _ fault. fault ≡ Memory };

    fn from(_error: AllocError) -> WordsFault<'a> {
        WordsFault::Memory
    }
}

/// What is wrong with the words, in a sentence as clap's.
impl<'a> fmt::Display for WordsFault<'a> {
    fn fmt<W: fmt::Write>(&self, f: &mut fmt::Formatter<W>) -> fmt::Result {
        match self {
            WordsFault::Memory => write!(f, "out of memory"),
            WordsFault::Missing(id) => write!(f, "'<{id}>' was not provided"),
            WordsFault::Tries => write!(
                f,
                "the argument '--tries <TRIES>' cannot be used multiple times"
            ),
            WordsFault::Number(id) => write!(f, "invalid value for '<{id}>': not a number"),
            WordsFault::Address(word) => write!(
                f,
                "invalid value '{word}' for '<ADDRESS>': not an IP address and a port"
            ),
            WordsFault::Community => write!(
                f,
                "invalid value for '<COMMUNITY>': more than {MAX_COMMUNITY} octets"
            ),
            WordsFault::FrontDot(word) => write!(
                f,
                "invalid value '{word}' for '<NAME>': not an object identifier of 2 to 128 numbers

  tip: a name has no dot in front of its first number"
            ),
            WordsFault::Name(word) => write!(
                f,
                "invalid value '{word}' for '<NAME>': not an object identifier of 2 to 128 numbers"
            ),
            WordsFault::Assignment(word) => write!(
                f,
                "invalid value '{word}' for '<SETTING>': not NAME=i:NUMBER or NAME=x:HEX"
            ),
            WordsFault::Request => { write!(f, "the request has more than {MAX_REQUEST} octets") }
        }
    }
}
