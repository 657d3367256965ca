//! The counts of datagrams that gave no request.
ghost use Rattle.std.specs.Prelude.{◌≡◌};
ghost use Rattle.agent_core.specs.Answers.{one_more};
ghost use Rattle.agent_script.specs.Actions.{dropped_more};

use message_core::DropCause;

/// How many datagrams each cause dropped, modulo 2^32.
#[derive(Clone, Copy, Debug, Default, PartialEq, Eq)]
pub struct Drops {
    /// Longer than a datagram may be.
    pub too_long: u32,
    /// No message.
    pub malformed: u32,
    /// Of another version than SNMPv2c.
    pub bad_version: u32,
    /// No request.
    pub bad_kind: u32,
    /// No memory for the request.
    pub memory: u32,
}

fn one_more(count: u32) -> u32
    ensures { result ≡ one_more count }
{
    count.wrapping_add(1)
}

impl Drops {
    /// None yet.
    pub fn none() -> Drops
        ensures { result ≡ record {
          too_long = 0;
          malformed = 0;
          bad_version = 0;
          bad_kind = 0;
          memory = 0;
        } }
    {
        Drops {
            too_long: 0,
            malformed: 0,
            bad_version: 0,
            bad_kind: 0,
            memory: 0,
        }
    }

    /// Counts one more.
    pub fn count(&mut self, cause: DropCause)
        ensures { self.new ≡ dropped_more self.old cause }
    {
        match cause {
            DropCause::TooLong => self.too_long = one_more(self.too_long),
            DropCause::Malformed => self.malformed = one_more(self.malformed),
            DropCause::BadVersion => self.bad_version = one_more(self.bad_version),
            DropCause::BadKind => self.bad_kind = one_more(self.bad_kind),
            DropCause::Memory => self.memory = one_more(self.memory),
        }
    }
}
