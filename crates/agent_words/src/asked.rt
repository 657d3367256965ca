//! What words ask for.
ghost use Rattle.std.specs.Prelude.{◌≡◌};
ghost use Rattle.agent_words.specs.Asking.{is_serving};

/// What words ask for.
#[derive(Debug, Drop)]
pub enum Asked<'a> {
    /// The script by the built-in configuration.
    BuiltIn,
    /// The script by the configuration of this file.
    Script(&'a str),
    /// Whether this file is a configuration.
    Check(&'a str),
    /// The sockets of the configuration of this file.
    CheckPorts(&'a str),
    /// Whether this file is a policy, or a configuration with one.
    CheckPolicy(&'a str),
    /// The agent by the configuration of this file, over UDP, for so long.
    Serve(&'a str, Lasting<'a>),
    /// What the policy of this file's configuration decides on such a request.
    Explain(&'a str, Question<'a>),
    /// What the policy of this file, alone or of a configuration, decides on such a request.
    ExplainPolicy(&'a str, Question<'a>),
    /// That a served agent, whose control socket has this path, does such a command.
    Tell(&'a str, Order<'a>),
}

/// A command of an operator for a served agent.
#[derive(Clone, Copy, Debug, Drop)]
pub enum Order<'a> {
    /// The counts of what was dropped.
    Counts,
    /// The link of the port of this number, as it is written, goes up, or down.
    Link(&'a str, bool),
    /// The policy whose text is in this file.
    Policy(&'a str),
}

/// A request of which the decision is asked for.
#[derive(Debug, Drop)]
pub struct Question<'a> {
    /// The community.
    pub community: &'a str,
    /// What the request does.
    pub operation: Operation,
    /// The names of its variables, as they are written; at least one where clap read them.
    pub names: Vec<&'a str>,
}

/// What a request does with its variables (RFC 3416, section 4.2).
#[derive(Clone, Copy, Debug, PartialEq, Eq, Drop)]
pub enum Operation {
    /// A Get.
    Get,
    /// A GetNext.
    GetNext,
    /// A GetBulk. It asks for the view to read by, as a Get and a GetNext do. What is answered for it is the
    /// same as for those: whether each name itself is in that view, and not the instances behind it.
    GetBulk,
    /// A Set.
    Set,
}

/// For how long an agent is served.
#[derive(Clone, Copy, Debug, Drop)]
pub enum Lasting<'a> {
    /// Until each of its lines has made its rounds.
    Rounds,
    /// Without an end: each line begins its rounds anew.
    Forever {
        /// Whether the audit of each request is written to standard output.
        audit: bool,
        /// The path of the control socket, if there is to be one.
        control: Option<&'a str>,
    },
}

/// Whether it is asked to serve an agent.
pub fn asks_to_serve(asked: &Asked<'_>) -> bool
    ensures { result ≡ is_serving asked.now }
{
    matches!(asked, Asked::Serve(..))
}
